// The laws of chains of rings of local fractions: each function has an empty body, and its contract is the law.
ghost use Rattle.curve_model.specs.Closing.{ChainStarts, ChainGoesOn};
ghost use Rattle.curve_model.specs.OneDelta.{DeltaIsUnique, FewerAreIndependent};
ghost use Rattle.curve_model.specs.OneExponent.{OneExponent, NumeratorsDecideIndependence, NumeratorsAreBasis};
ghost use Rattle.curve_model.specs.PowerBound.{DeltasBoundClosure};
ghost use Rattle.curve_model.specs.Steps.{LocalRingIsItsModule, RadicalsHoldPoints, EnlargedIsLocalRing, RingsAreLocal, EqualDimensionsAreEqual, SumsGrow};

/// A itself starts a chain of rings of local fractions at a point, and each enlargement goes on with it.
pub fn chains_have_local_rings()
    ensures start { ChainStarts }
    ensures step { ChainGoesOn }
{}

/// Fractions over one power of the denominator add by their numerators; they are independent modulo A, or a basis modulo A
/// of a module, where the numerators are so modulo I and that power.
pub fn fractions_of_one_exponent()
    ensures numerators { OneExponent }
    ensures independent { NumeratorsDecideIndependence }
    ensures basis { NumeratorsAreBasis }
{}

/// The steps of a chain: what is said of a ring of local fractions depends on its fractions alone; its radical holds the
/// multiples of the denominator and the point; an enlargement is such a ring over whatever power; all its fractions are
/// local; and a ring within another one of the same dimension modulo A is equal to it.
pub fn chains_go_step_by_step()
    ensures one { LocalRingIsItsModule }
    ensures radical { RadicalsHoldPoints }
    ensures enlarged { EnlargedIsLocalRing }
    ensures local { RingsAreLocal }
    ensures dimensions { EqualDimensionsAreEqual }
{}

/// The sums of parts at one point more are the sums of an old one and a fraction that is local there.
pub fn sums_grow_by_points()
    ensures { SumsGrow }
{}

/// A point has one delta, and where some number of fractions local there are independent, any smaller number are.
pub fn deltas_are_unique()
    ensures unique { DeltaIsUnique }
    ensures fewer { FewerAreIndependent }
{}

/// The power of the closure at some points is at most the greatest of their deltas.
pub fn deltas_bound_the_closure()
    ensures { DeltasBoundClosure }
{}
