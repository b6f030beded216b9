//! The laws of integral fractions over a ring: equal fractions, sums and products, one power for all powers, the bound by
//! delta, and dimensions modulo powers of the denominator.
//!
//! A fraction is a member a over a power of one regular member d. It is integral where it satisfies a monic equation
//! (Greuel and Pfister's textbook, integral closure), and local at a point where moreover some power of the point takes
//! it back into the ring. The definitions stand in `specs/`, the laws over any commutative ring in `proofs/`.
#![tactic(auto)]

ghost use Rattle.fraction_laws.specs.Laws.{LawsOverIdeals, LawsModuloPrimes};

/// The laws of one integral fraction, over the numbers modulo each prime of the table: modulo an ideal and a denominator of
/// which the premises hold, and outright for each denominator that is not 0 there.
pub fn integral_fractions_obey_their_laws()
    ensures curves { LawsOverIdeals }
    ensures units { LawsModuloPrimes }
{}
