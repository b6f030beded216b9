// Problems.
use crate::letters::Letters;
use lists::List;
use polys::Poly;
use prime_field::Prime;

/// A curve over F_p with what is asked about it: the letters of the variables, 1 to 12 generators of its ideal, a
/// denominator if one is handed in, and the polynomials of each `at` statement, in order.
#[derive(Debug, Drop)]
pub struct Problem {
    pub prime: Prime,
    pub letters: Letters,
    pub generators: List<Poly>,
    pub denominator: Option<Poly>,
    pub at: List<List<Poly>>,
}
