// A race whose rest is worked by hand.
ghost use Rattle.std.specs.Prelude.{◌≡◌, ◌≤◌, length, IfOk};
ghost use Rattle.polys.specs.Curve.{Fit, HasDimModulo, data_of};
ghost use Rattle.race_core.specs.declared.machine.TheConstants.{MAX_STRATA};
ghost use Rattle.join_book.specs.Answers.{IsOf};
ghost use Rattle.join_book.specs.Book.{ArePointsOf};
ghost use Rattle.join_book.specs.Whole.{IsWhole};

use curve_model::Point;
use join_book::Book;
use lists::{List, NoMemory};
use over_module::Done;
use polys::Curve;
use race_table::{Job, Jobs, RaceTable};
use std::alloc::Global;
use std::sync::{Arc, Mutex, Wait};
use std::thread::Threads;
use strata_work::{ByHand, copies_of_points, settle_all, strata_among, work_rest};
use worker_gate::{Gate, race};

// A book of this curve, these points and this limit: the one that was raced, or a new one in its place. A book from under
// a lock is known by its type alone, so it has to be asked what it is of.
fn book_of(
    alloc: Global,
    book: Book,
    curve: Arc<Curve>,
    n: u32,
    points: List<Point>,
    limit: u32,
) -> Result<Book, NoMemory>
    requires fit { Fit curve.value }
    requires dimension { HasDimModulo (data_of curve.value) n }
    requires points { ArePointsOf curve.value points }
    requires limit { (1 ≤ limit) × (limit ≤ 64) }
    ensures { IfOk result (IsOf curve.value points limit) }
{
    if book.is_of(&curve, points.as_slice(), limit) {
        return Ok(book);
    }
    Book::open(alloc, curve, n, points, limit)
}

// The book, whose strata without an entry the hand works, with all entries settled.
fn finish<W: ByHand>(alloc: Global, book: Book, strata: u32, hand: &mut W) -> Result<Book, NoMemory>
    requires strata { (strata ≡ length book.points) × (strata ≤ MAX_STRATA) }
    requires hand { (W.of_curve hand.old ≡ book.curve) × (W.of_points hand.old ≡ book.points) × (W.of_limit hand.old ≡ book.limit) }
    ensures { IfOk result (IsWhole book.curve book.points book.limit) }
{
    let mut book = book;
    work_rest(alloc, &mut book, strata, hand)?;
    settle_all(&mut book)?;
    Ok(book)
}

/// The book of the points, with an entry for each of them, all settled. Workers race over the points by the jobs, and the
/// hand works those that they have not joined, one after the other.
///
/// The curve is fit, `n` is its dimension modulo I and d, the points are points of it, each once, the limit of delta is
/// 1 to 64, and the hand is of this curve, these points and this limit. There are 1 to 16 workers, and as many strata of
/// jobs as points. The caller waits for the workers and is none of them.
///
/// # Errors
/// Want of memory.
pub fn raced<R: Threads + Wait + Sync, J: Jobs + Sync, G: Gate + Sync, W: ByHand>(
    rt: &R,
    alloc: Global,
    curve: Arc<Curve>,
    n: u32,
    points: List<Point>,
    limit: u32,
    jobs: &J,
    gate: &G,
    workers: u32,
    hand: &mut W,
) -> Result<Book, NoMemory>
where
    J::Job: Job<Done = Done> + Send,
    requires fit { Fit curve.value }
    requires dimension { HasDimModulo (data_of curve.value) n }
    requires points { ArePointsOf curve.value points }
    requires limit { (1 ≤ limit) × (limit ≤ 64) }
    requires workers { (1 ≤ workers) × (workers ≤ 16) }
    requires strata { J.strata jobs.now ≡ length points }
    requires hand { (W.of_curve hand.old ≡ curve.value) × (W.of_points hand.old ≡ points) × (W.of_limit hand.old ≡ limit) }
    ensures { IfOk result (IsWhole curve.value points limit) }
{
    let strata = strata_among(&curve, points.as_slice());
    let shared = Arc::try_clone(&curve)?;
    let copies = copies_of_points(alloc, points.as_slice())?;
    let first = Book::open(alloc, shared, n, copies, limit)?;
    let (table, mut pass) = RaceTable::new(alloc, strata, workers + 1)?;
    let lock = Mutex::new(first);
    race(rt, alloc, &table, &mut pass, &lock, jobs, gate, workers)?;
    let book = book_of(alloc, lock.into_inner(), curve, n, points, limit)?;
    finish(alloc, book, strata, hand)
}
