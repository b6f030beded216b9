// An answer as plain data.
use curve_model::Point;
use lists::List;
use polys::Poly;
use prime_field::Prime;
use problem::Letters;

/// A point with its local dimension.
#[derive(Debug, Drop)]
pub struct PointLine {
    pub point: Point,
    pub delta: u32,
}

/// An answer: the characteristic, the letters, the denominator d, the dimension modulo d, for version 2 of the text the
/// number of named points, the points that have a line, the power of d, and the numerators over it.
#[derive(Debug, Drop)]
pub struct Answer {
    pub prime: Prime,
    pub letters: Letters,
    pub denominator: Poly,
    pub dimension: u32,
    pub named: Option<u32>,
    pub points: List<PointLine>,
    pub power: u32,
    pub numerators: List<Poly>,
}
