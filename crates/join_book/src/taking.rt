// Which work a book takes, by its fields.
ghost use Rattle.std.specs.Prelude.{◌≡◌, ◌↔◌, IsTrue, option_map};
ghost use Rattle.join_book.specs.Answers.{IsAt, IsEntryIn, IsTaken};
ghost use Rattle.join_book.specs.Book.{IsVacant};

use curve_model::Point;
use over_module::Done;
use polys::{Curve, are_same};

// Whether the bases and the degrees are equal.
fn is_same(one: &Point, other: &Point) -> bool
    ensures { IsTrue result ↔ (one.now ≡ other.now) }
{
    one.degree == other.degree && are_same(one.basis.as_slice(), other.basis.as_slice())
}

// Whether the lists have the same points in the same order.
pub(crate) fn are_same_points(a: &[Point], b: &[Point]) -> bool
    ensures { IsTrue result ↔ (a.now ≡ b.now) }
{
    if a.len() != b.len() {
        return false;
    }
    for i in 0..a.len() {
        if !is_same(&a[i], &b[i]) {
            return false;
        }
    }
    true
}

// The entry of the stratum, if there is one.
pub(crate) fn entry_in(entries: &[Done], stratum: u32) -> Option<&Done>
    ensures { IsEntryIn entries.now stratum (option_map (λ d. d.now) result) }
{
    for done in entries {
        if done.stratum() == stratum {
            return Some(done);
        }
    }
    None
}

// Whether the point stands at the place of the stratum.
fn is_at(points: &[Point], stratum: u32, point: &Point) -> bool
    ensures { IsTrue result ↔ IsAt points.now stratum point.now }
{
    1 <= stratum
        && (stratum as usize) <= points.len()
        && is_same(&points[(stratum - 1) as usize], point)
}

fn is_vacant(entries: &[Done], stratum: u32) -> bool
    ensures { IsTrue result ↔ IsVacant entries.now stratum }
{
    entry_in(entries, stratum).is_none()
}

// Whether this is work on this curve, these points and this limit, for a stratum that has no entry.
pub(crate) fn is_taken(
    curve: &Curve,
    points: &[Point],
    limit: u32,
    entries: &[Done],
    stratum: u32,
    done: &Done,
) -> bool
    ensures { IsTrue result ↔ IsTaken curve.now points.now limit entries.now stratum done.now }
{
    is_at(points, stratum, done.point())
        && done.stratum() == stratum
        && done.limit() == limit
        && done.curve().same(curve)
        && is_vacant(entries, stratum)
}
