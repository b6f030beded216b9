// A curve as plain data.
ghost use Rattle.std.specs.Prelude.{◌≡◌, ◌↔◌, IsTrue};

use crate::{Poly, are_same};
use lists::List;
use prime_field::Prime;

/// The largest dimension modulo the denominator that is served.
pub const LARGEST_DIMENSION: u32 = 256;

/// The greatest degree of a denominator: that of the product of a variable and a minor of two rows of derivatives of
/// polynomials of degree 60.
pub const MAX_DENOMINATOR_DEGREE: u32 = 119;

/// The ring of the polynomials in the first `variables` variables over `prime` modulo `ideal`, with the polynomial
/// `denominator` over whose powers fractions stand. It is plain data; the fact `Fit` says what the program asks of it.
#[derive(Debug, Drop)]
pub struct Curve {
    pub prime: Prime,
    pub variables: u32,
    pub ideal: List<Poly>,
    pub denominator: Poly,
}

impl Curve {
    /// Whether the data are equal.
    pub fn same(&self, other: &Curve) -> bool
        ensures { IsTrue result ↔ (self.now ≡ other.now) }
    {
        self.prime == other.prime
            && self.variables == other.variables
            && are_same(self.ideal.as_slice(), other.ideal.as_slice())
            && self.denominator.same(&other.denominator)
    }
}
