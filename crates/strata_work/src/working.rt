// All the work by one seat.
ghost use Rattle.std.specs.Prelude.{◌≡◌, ℕ, ◌≤◌, length, IfOk, OnOk};
ghost use Rattle.polys.specs.Curve.{Fit, HasDimModulo, data_of};
ghost use Rattle.race_core.specs.declared.machine.TheConstants.{MAX_STRATA};
ghost use Rattle.join_book.specs.Answers.{IsOf};
ghost use Rattle.join_book.specs.Book.{ArePointsOf, IsVacant};
ghost use Rattle.join_book.specs.Whole.{IsWhole};
ghost use Rattle.strata_work.specs.Working.{IsWorked};

use super::few::strata_among;
use super::hand::ByHand;
use curve_model::Point;
use join_book::Book;
use lists::{List, NoMemory};
use polys::Curve;
use race_table::{BookOf, Join, RaceTable, Win, Won};
use std::alloc::Global;
use std::sync::Arc;

// A win of the stratum at a fresh table of one seat.
fn won_alone(alloc: Global, strata: u32, stratum: u32) -> Result<Won, NoMemory>
    requires strata { strata ≤ MAX_STRATA }
    requires stratum { (1 ≤ stratum) × (stratum ≤ strata) }
    ensures { IfOk result (λ won. won ≡ (stratum, 1)) }
{
    let (table, mut pass) = RaceTable::new(alloc, strata, 1)?;
    match table.win(&mut pass, stratum) {
        Win::Won(won) => Ok(won),
        Win::Lost(_) => unreachable!(),
    }
}

// Works the stratum, if the book has no entry for it.
fn work_one<W: ByHand>(
    alloc: Global,
    book: &mut Book,
    strata: u32,
    stratum: u32,
    hand: &mut W,
) -> Result<(), NoMemory>
    requires strata { (strata ≡ length book.old.points) × (strata ≤ MAX_STRATA) }
    requires stratum { (1 ≤ stratum) × (stratum ≤ strata) }
    requires hand { (W.of_curve hand.old ≡ book.old.curve) × (W.of_points hand.old ≡ book.old.points) × (W.of_limit hand.old ≡ book.old.limit) }
    ensures hand { (W.of_curve hand.new ≡ W.of_curve hand.old) × (W.of_points hand.new ≡ W.of_points hand.old) × (W.of_limit hand.new ≡ W.of_limit hand.old) }
    ensures same { IsOf book.old.curve book.old.points book.old.limit book.new }
    ensures worked { OnOk result (IsVacant book.new.entries stratum → ⊥) }
    ensures kept { (i : ℕ) → IsVacant book.new.entries i → IsVacant book.old.entries i }
{
    if book.entry(stratum).is_some() {
        return Ok(());
    }
    let done = hand.work(alloc, stratum)?;
    let won = won_alone(alloc, strata, stratum)?;
    match book.join(won, done) {
        Join::Kept => Ok(()),
        Join::Stranger(_) => unreachable!(),
    }
}

/// Works each stratum by hand that the book has no entry for, in order, and joins it. `strata` is the number of the book's
/// points, and the hand is of the book's curve, points and limit.
///
/// # Errors
/// Want of memory; what was joined before is kept.
pub fn work_rest<W: ByHand>(
    alloc: Global,
    book: &mut Book,
    strata: u32,
    hand: &mut W,
) -> Result<(), NoMemory>
    requires strata { (strata ≡ length book.old.points) × (strata ≤ MAX_STRATA) }
    requires hand { (W.of_curve hand.old ≡ book.old.curve) × (W.of_points hand.old ≡ book.old.points) × (W.of_limit hand.old ≡ book.old.limit) }
    ensures hand { (W.of_curve hand.new ≡ W.of_curve hand.old) × (W.of_points hand.new ≡ W.of_points hand.old) × (W.of_limit hand.new ≡ W.of_limit hand.old) }
    ensures same { IsOf book.old.curve book.old.points book.old.limit book.new }
    ensures worked { OnOk result (IsWorked strata book.new) }
    ensures kept { (i : ℕ) → IsVacant book.new.entries i → IsVacant book.old.entries i }
{
    for stratum in 1..=strata {
        work_one(alloc, book, strata, stratum, hand)?;
    }
    Ok(())
}

/// Settles every entry of the book, in the order of the joins.
///
/// # Errors
/// Want of memory; what was settled before is kept.
pub fn settle_all(book: &mut Book) -> Result<(), NoMemory>
    ensures same { IsOf book.old.curve book.old.points book.old.limit book.new }
    ensures entries { book.new.entries ≡ book.old.entries }
    ensures joined { book.new.joined ≡ book.old.joined }
    ensures settled { OnOk result (book.new.settled ≡ length book.new.entries) }
{
    while book.settle()? {}
    Ok(())
}

/// The book of the points, with an entry for each of them, all settled. The hand works them one after the other, each once.
///
/// The curve is fit, `n` is its dimension modulo I and d, the points are points of it, each once, the limit of delta is 1 to 64,
/// and the hand is of this curve, these points and this limit.
///
/// # Errors
/// Want of memory.
pub fn worked<W: ByHand>(
    alloc: Global,
    curve: Arc<Curve>,
    n: u32,
    points: List<Point>,
    limit: u32,
    hand: &mut W,
) -> Result<Book, NoMemory>
    requires fit { Fit curve.value }
    requires dimension { HasDimModulo (data_of curve.value) n }
    requires points { ArePointsOf curve.value points }
    requires limit { (1 ≤ limit) × (limit ≤ 64) }
    requires hand { (W.of_curve hand.old ≡ curve.value) × (W.of_points hand.old ≡ points) × (W.of_limit hand.old ≡ limit) }
    ensures { IfOk result (IsWhole curve.value points limit) }
{
    let strata = strata_among(&curve, points.as_slice());
    let mut book = Book::open(alloc, curve, n, points, limit)?;
    work_rest(alloc, &mut book, strata, hand)?;
    settle_all(&mut book)?;
    Ok(book)
}
