// A point of a curve as plain data.
use lists::List;
use polys::Poly;

/// A point of a curve: the reduced basis of its maximal ideal in rising order of the leads, and its residue degree.
#[derive(Debug, Drop)]
pub struct Point {
    pub basis: List<Poly>,
    pub degree: u32,
}
