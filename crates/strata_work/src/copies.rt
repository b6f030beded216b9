// Copies of points.
ghost use Rattle.std.specs.Prelude.{◌≡◌, IfOk};

use curve_model::Point;
use lists::{List, NoMemory};
use polys::copied;
use std::alloc::Global;

/// The same point again.
///
/// # Errors
/// Want of memory.
pub fn copy_of_point(alloc: Global, point: &Point) -> Result<Point, NoMemory>
    ensures { IfOk result (λ copy. copy ≡ point.now) }
{
    Ok(Point {
        basis: copied(alloc, point.basis.as_slice())?,
        degree: point.degree,
    })
}

/// The same points again, in their order.
///
/// # Errors
/// Want of memory.
pub fn copies_of_points(alloc: Global, points: &[Point]) -> Result<List<Point>, NoMemory>
    ensures { IfOk result (λ copies. copies ≡ points.now) }
{
    let mut copies = List::new(alloc);
    for point in points {
        let copy = copy_of_point(alloc, point)?;
        copies.push(copy)?;
    }
    Ok(copies)
}
