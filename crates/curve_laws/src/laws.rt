// The laws of fractions over a curve: each function has an empty body, and its contract is the law.
ghost use Rattle.curve_model.specs.Laws.{EqualFractionsAgree, OnePowerServes, FractionsAreClosed, AllPointsSuffice, LocalIsSumOfParts, IntegralIsSumOfParts, PartsAreDirect, LocalAtNone, NoPoints, DeltaBoundsPower};
ghost use Rattle.curve_model.specs.Rings.{DescentLaw, LocalAtIsRing};
ghost use Rattle.curve_model.specs.Enlarging.{Enlargement, FullIsLocal, BasisCountsDelta, MembersAreLocal};
ghost use Rattle.curve_model.specs.Closing.{ClosureIsExact, ClosureIsIntegral, ClosureIsUnique};
ghost use Rattle.curve_model.specs.Generators.{OneIdealOneClosure};
ghost use Rattle.curve_model.specs.PointSets.{LocalAtGrows, SumsDependOnTheSet, PointsAreFew, FitCurvesHaveFewPoints};
ghost use Rattle.curve_model.specs.Steps.{FitIsFinite};
ghost use Rattle.curve_model.specs.Quotient.{CoordinatesAreUnique, MembershipIsDecided, BasesCountDimension, PowersHaveDimension};

/// Equal fractions are integral together, and local at a list of polynomials together.
pub fn equal_fractions_agree()
    ensures { EqualFractionsAgree }
{}

/// A fraction is integral exactly where one power of the denominator serves for all its powers.
pub fn one_power_serves()
    ensures { OnePowerServes }
{}

/// Integral fractions are closed under sums and products, and so are local ones.
pub fn fractions_are_closed()
    ensures { FractionsAreClosed }
{}

/// Fractions that are local at a list of points are a ring, and equal fractions are local together.
pub fn fractions_local_at_points_are_a_ring()
    ensures { LocalAtIsRing }
{}

/// Where a list has all points, a fraction is integral exactly where it is local at the list.
pub fn all_points_suffice()
    ensures { AllPointsSuffice }
{}

/// At distinct points a fraction is local exactly where it is a sum of one of A and of fractions, one local at each point;
/// at all points the integral fractions are these sums.
pub fn local_fractions_split()
    ensures local { LocalIsSumOfParts }
    ensures integral { IntegralIsSumOfParts }
{}

/// That sum is direct modulo A.
pub fn parts_are_direct()
    ensures { PartsAreDirect }
{}

/// At no point the local fractions are those of A; where there is no point, the integral ones are.
pub fn without_points_nothing_is_new()
    ensures local { LocalAtNone }
    ensures integral { NoPoints }
{}

/// A finite delta bounds the power: each fraction that is local at the point equals some b over d^delta.
pub fn delta_bounds_the_power()
    ensures { DeltaBoundsPower }
{}

/// Descent: a ring of fractions over one power of the denominator that holds A and cannot be enlarged at a point has every
/// fraction that is local there.
pub fn full_rings_have_the_local_fractions()
    ensures { DescentLaw }
{}

/// Modulo an ideal of finite dimension coordinates by a shortest spanning list are unique, and membership is decided; a list
/// that spans and is independent counts the dimension; modulo I and d^t it is t times that modulo I and d.
pub fn finite_quotients_have_coordinates()
    ensures unique { CoordinatesAreUnique }
    ensures decided { MembershipIsDecided }
    ensures bases { BasesCountDimension }
    ensures powers { PowersHaveDimension }
{}

/// What takes the radical of a ring of local fractions into itself is a ring that holds it, lies over the next power of the
/// denominator, and is local; a ring that cannot be enlarged has exactly the local fractions.
pub fn local_rings_are_enlarged()
    ensures enlarged { Enlargement }
    ensures full { FullIsLocal }
{}

/// A basis modulo A of a ring that cannot be enlarged counts delta, and independent members of any ring of local fractions
/// are that many independent local fractions.
pub fn delta_is_counted()
    ensures basis { BasisCountsDelta }
    ensures members { MembersAreLocal }
{}

/// A fraction is in the module of a closure exactly where it is local at the listed points, and where these are all points
/// exactly where it is integral; the points determine the closure.
pub fn closures_are_exact()
    ensures exact { ClosureIsExact }
    ensures integral { ClosureIsIntegral }
    ensures unique { ClosureIsUnique }
{}

/// A fit curve has a regular denominator and a finite dimension modulo it.
pub fn fit_curves_are_finite()
    ensures { FitIsFinite }
{}

/// Whatever generators an ideal is given by, the same fractions are integral or local, and the points, their delta and the
/// closure are the same.
pub fn one_ideal_has_one_closure()
    ensures { OneIdealOneClosure }
{}

/// What is local at some points is local at more; the sums of parts depend on the set of points and not on their order.
pub fn points_are_a_set()
    ensures grows { LocalAtGrows }
    ensures sums { SumsDependOnTheSet }
{}

/// Distinct points are at most the dimension modulo the denominator, so on a fit curve at most 256.
pub fn points_are_few()
    ensures few { PointsAreFew }
    ensures fit { FitCurvesHaveFewPoints }
{}
