// One term of a polynomial.
use monomials::Mono;

/// A coefficient and a monomial.
#[derive(Clone, Copy, Debug, PartialEq, Eq)]
pub struct Term {
    pub coeff: u32,
    pub mono: Mono,
}
