// Elimination on rows and pivots, below the type that keeps them.
ghost use Rattle.std.specs.Prelude.{◌≡◌, ℕ, ◌+◌, ◌-◌, ◌*◌, ◌%◌, ◌<◌, ◌≤◌, length, slice_index, IfOk, OnOk, OnErr, ◌∷◌, All};
ghost use Rattle.lane_rows.specs.Rows.{AreResidues, IsFirstNonzero};
ghost use Rattle.row_space.specs.Sums.{Covers};
ghost use Rattle.row_space.specs.Echelon.{IsRow, IsEchelon, IsRest, IsCleared, entries_at};

use lane_rows::{axpy, scale};
use lists::{List, NoMemory};
use prime_field::Prime;
use std::alloc::Global;
use std::mem;

pub(crate) fn copy_of(alloc: Global, row: &[u32]) -> Result<Vec<u32>, NoMemory>
    ensures { IfOk result (λ v. v.items ≡ row.now) }
{
    match row.to_vec(alloc) {
        Ok(copy) => Ok(copy),
        Err(_) => Err(NoMemory),
    }
}

// Takes c times `taken` from `row`.
pub(crate) fn subtract_multiple(p: u32, c: u32, taken: &[u32], row: &mut [u32])
    requires range { (2 ≤ p) × (p ≤ 32003) × (c < p) }
    requires same_length { length taken.now ≡ length row.old }
    requires taken { AreResidues p taken.now }
    requires row { AreResidues p row.old }
    ensures entries { (k : ℕ) → k < length row.old → slice_index row.new k ≡ (slice_index row.old k + (p - c) * slice_index taken.now k) % p }
    ensures residues { AreResidues p row.new }
{
    if c != 0 {
        axpy(p, p - c, taken, row);
    }
}

// Makes `row` 0 at the pivots.
pub(crate) fn reduce_by(prime: Prime, rows: &[List<u32>], pivots: &[usize], row: &mut [u32])
    requires echelon { IsEchelon prime (length row.old) rows.now pivots.now }
    requires row { AreResidues prime row.old }
    ensures range { (2 ≤ prime) × (prime ≤ 32003) }
    ensures residues { AreResidues prime row.new }
    ensures rest { IsRest prime (length row.old) rows.now pivots.now row.old row.new }
{
    let p = prime.get();
    for i in 0..rows.len() {
        let c = row[pivots[i]];
        subtract_multiple(p, c, rows[i].as_slice(), row);
    }
}

// The entries of `row` at the pivots.
pub(crate) fn at_pivots(alloc: Global, pivots: &[usize], row: &[u32]) -> Result<List<u32>, NoMemory>
    requires { (i : ℕ) → i < length pivots.now → slice_index pivots.now i < length row.now }
    ensures { IfOk result (λ residues. residues ≡ entries_at pivots.now row.now) }
{
    let mut residues = List::new(alloc);
    for pivot in pivots {
        residues.push(row[*pivot])?;
    }
    Ok(residues)
}

// The row with the multiple of `row` taken that makes it 0 at the pivot.
fn cleared(p: u32, pivot: usize, row: &[u32], old: List<u32>) -> List<u32>
    requires range { (2 ≤ p) × (p ≤ 32003) }
    requires pivot { pivot < length row.now }
    requires row { AreResidues p row.now }
    requires old { IsRow p (length row.now) old }
    ensures fits { IsRow p (length row.now) result }
    ensures entries { (k : ℕ) → k < length row.now → slice_index result k ≡ (slice_index old k + (p - slice_index old pivot) * slice_index row.now k) % p }
{
    let mut entries = old.into_vec();
    let c = entries[pivot];
    subtract_multiple(p, c, row, entries.as_mut_slice());
    List::of_vec(entries)
}

// Makes `rows` 0 at the pivot of `row`.
fn clear_column(alloc: Global, p: u32, pivot: usize, row: &[u32], rows: &mut [List<u32>])
    requires range { (2 ≤ p) × (p ≤ 32003) }
    requires pivot { pivot < length row.now }
    requires row { AreResidues p row.now }
    requires rows { All (IsRow p (length row.now)) rows.old }
    ensures { IsCleared p (length row.now) pivot row.now rows.old rows.new }
{
    for i in 0..rows.len() {
        let old = mem::replace(&mut rows[i], List::new(alloc));
        rows[i] = cleared(p, pivot, row, old);
    }
}

// Adds a row that is 0 at the pivots, and whose first entry that is not 0 stands at `pivot`. Where
// there is no memory, the rows and the pivots stay.
pub(crate) fn add_row(
    alloc: Global,
    prime: Prime,
    rows: &mut Vec<List<u32>>,
    pivots: &mut Vec<usize>,
    mut row: Vec<u32>,
    pivot: usize,
) -> Result<(), NoMemory>
    requires echelon { IsEchelon prime (length row.items) rows.old.items pivots.old.items }
    requires row { AreResidues prime row.items }
    requires zero { (j : ℕ) → j < length rows.old.items → slice_index row.items (slice_index pivots.old.items j) ≡ 0 }
    requires first { IsFirstNonzero row.items pivot }
    ensures echelon { OnOk result (IsEchelon prime (length row.items) rows.new.items pivots.new.items) }
    ensures more { OnOk result (length rows.new.items ≡ length rows.old.items + 1) }
    ensures covers { OnOk result (Covers prime (length row.items) rows.new.items (row.items ∷ rows.old.items)) }
    ensures covered { OnOk result (Covers prime (length row.items) (row.items ∷ rows.old.items) rows.new.items) }
    ensures err { OnErr result ((rows.new.items ≡ rows.old.items) × (pivots.new.items ≡ pivots.old.items)) }
{
    let p = prime.get();
    if rows.reserve(1).is_err() || pivots.reserve(1).is_err() {
        return Err(NoMemory);
    }
    let inverse = prime.inv(row[pivot]);
    scale(p, inverse, row.as_mut_slice());
    clear_column(alloc, p, pivot, row.as_slice(), rows.as_mut_slice());
    rows.push_reserved(List::of_vec(row));
    pivots.push_reserved(pivot);
    Ok(())
}
