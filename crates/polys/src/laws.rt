// The laws of polynomials, each the contract of a function that does nothing.
ghost use Rattle.polys.specs.Frobenius.{FrobeniusLaw};
ghost use Rattle.polys.specs.Laws.{RingLaws, LeadLaws, DegreeLaws};
ghost use Rattle.polys.specs.Ring.{PolynomialsAreARing, PolynomialsAreClosed};

/// The polynomials in n variables are a commutative ring (Greuel and Pfister, section on rings and polynomials).
pub fn polynomials_are_a_ring()
    ensures closed { PolynomialsAreClosed }
    ensures laws { RingLaws }
    ensures ring { PolynomialsAreARing }
{}

/// Over a field the lead of a product is the product of the leads, so no two factors but 0 have the product 0
/// (Greuel and Pfister, section on monomial orderings).
pub fn leads_multiply()
    ensures { LeadLaws }
{}

/// The degrees of sums, products and powers are bounded by those of their parts.
pub fn degrees_are_bounded()
    ensures { DegreeLaws }
{}

/// Modulo a prime p up to 47 the p-th power of a polynomial replaces each variable by its p-th power.
pub fn powers_by_the_characteristic()
    ensures { FrobeniusLaw }
{}
