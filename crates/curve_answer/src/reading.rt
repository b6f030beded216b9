// The deltas of a book's points.
ghost use Rattle.std.specs.Prelude.{◌≡◌, ◌≤◌, ◌<◌, ◌-◌, length, slice_index_or, IfOk};
ghost use Rattle.polys.specs.Curve.{data_of};
ghost use Rattle.curve_model.specs.Point.{basis_of};
ghost use Rattle.curve_model.specs.declared.point.Point.{Point};
ghost use Rattle.join_book.specs.Whole.{IsWhole};
ghost use Rattle.curve_answer.specs.Reading.{AreRead, IsDeltaOf, with_delta};

use curve_model::Point;
use join_book::Book;
use lists::{List, NoMemory};
use norm_text::PointLine;
use over_module::Verdict;
use polys::copied;
use std::alloc::Global;

/// The lines of all points in their order, or the first point whose delta is above the limit.
#[derive(Drop)]
pub(crate) enum Lines {
    Within(List<PointLine>),
    Above(Point),
}

// Delta of the point at the place, or `None`, exactly where it is above the limit.
fn delta_at(book: &Book, place: usize) -> Option<u32>
    requires whole { IsWhole book.now.curve book.now.points book.now.limit book.now }
    requires place { place < length book.now.points }
    ensures { (d : Point) → IsDeltaOf (data_of book.now.curve) (basis_of (slice_index_or book.now.points place d)) book.now.limit result }
{
    let _known = book.sum();
    match book.entry(place as u32 + 1) {
        Some(done) => match done.verdict() {
            Verdict::Finished(over) => Some(over.dimension() as u32),
            Verdict::TooLarge => None,
        },
        None => unreachable!(),
    }
}

// A copy of the point.
fn copy_of_point(alloc: Global, point: &Point) -> Result<Point, NoMemory>
    ensures { IfOk result (λ copy. copy ≡ point.now) }
{
    Ok(Point {
        basis: copied(alloc, point.basis.as_slice())?,
        degree: point.degree,
    })
}

/// Reads the deltas of the book's points, up to the first that is above the limit.
///
/// # Errors
/// Want of memory.
pub(crate) fn lines_of(alloc: Global, book: &Book) -> Result<Lines, NoMemory>
    requires whole { IsWhole book.now.curve book.now.points book.now.limit book.now }
    ensures { IfOk result (AreRead (data_of book.now.curve) book.now.limit book.now.points) }
{
    let points = book.points();
    let mut lines = List::new(alloc);
    for place in 0..points.len() {
        let point = copy_of_point(alloc, &points[place])?;
        match delta_at(book, place) {
            Some(delta) => lines.push(PointLine { point, delta })?,
            None => return Ok(Lines::Above(point)),
        }
    }
    Ok(Lines::Within(lines))
}

/// The lines of the points with a delta above 0, in their order.
///
/// # Errors
/// Want of memory.
pub(crate) fn without_zeros(
    alloc: Global,
    lines: List<PointLine>,
) -> Result<List<PointLine>, NoMemory>
    ensures { IfOk result (λ rest. rest ≡ with_delta lines) }
{
    let mut rest = List::new(alloc);
    for line in lines.into_vec() {
        if line.delta != 0 {
            rest.push(line)?;
        }
    }
    Ok(rest)
}
