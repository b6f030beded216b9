// How many strata a curve's points are.
ghost use Rattle.std.specs.Prelude.{◌≡◌, ◌≤◌, length};
ghost use Rattle.polys.specs.Curve.{Fit};
ghost use Rattle.race_core.specs.declared.machine.TheConstants.{MAX_STRATA};
ghost use Rattle.join_book.specs.Book.{ArePointsOf};

use curve_laws::laws::points_are_few;
use curve_model::Point;
use polys::Curve;

/// The number of the points, which are points of the curve, each once. A race has room for them: points are at most the dimension
/// modulo the denominator, which is at most 256 for a fit curve.
pub fn strata_among(curve: &Curve, points: &[Point]) -> u32
    requires fit { Fit curve.now }
    requires points { ArePointsOf curve.now points.now }
    ensures count { result ≡ length points.now }
    ensures few { result ≤ MAX_STRATA }
{
    points_are_few();
    let _prime = curve.prime.get();
    points.len() as u32
}
