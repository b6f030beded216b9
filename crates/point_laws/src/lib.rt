//! The laws of integral fractions at points of a ring: descent, rings that can be enlarged at a point, delta, and the
//! splitting by points.
//!
//! A point is a maximal ideal that holds the denominator, given by generators (Greuel and Pfister's textbook, integral
//! closure and localization). The definitions stand in `specs/`, the laws over any commutative ring in `proofs/`.
#![tactic(auto)]

ghost use Rattle.point_laws.specs.Laws.{PointLawsOverIdeals, PointLawsModuloPrimes};

/// The laws at points, over the numbers modulo each prime of the table: modulo an ideal and a denominator of which the
/// premises hold, and outright for each denominator that is not 0 there.
pub fn fractions_obey_their_laws_at_points()
    ensures curves { PointLawsOverIdeals }
    ensures units { PointLawsModuloPrimes }
{}
