//! The laws of coefficients, ideals and reduced bases of polynomials.
//!
//! The definitions of ideals and reduced bases stand in `polys`; what crates above use of their laws stands in `proofs/`.
//! Each function here has an empty body: its contract is a law.
#![tactic(auto)]

ghost use Rattle.ideal_laws.specs.Laws.{CoefficientLaws, IdealLaws, ReducedIsUnique};

/// The coefficients of sums, products and derivatives are what they should be, and determine the polynomial.
pub fn coefficients_add_and_multiply()
    ensures { CoefficientLaws }
{}

/// Ideals are closed under sums and multiples (Greuel and Pfister, section on ideals).
pub fn ideals_are_closed()
    ensures { IdealLaws }
{}

/// An ideal has at most one reduced basis (Greuel and Pfister, section on standard bases).
pub fn reduced_bases_are_unique()
    ensures { ReducedIsUnique }
{}
