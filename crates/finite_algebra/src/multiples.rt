// Sums of multiples of rows, and rows that are put together.
ghost use Rattle.std.specs.Prelude.{◌≡◌, ℕ, ◌+◌, ◌*◌, ◌%◌, ◌<◌, ◌≤◌, length, slice_index, replicate, All, IfOk};
ghost use Rattle.lane_rows.specs.Rows.{AreResidues};
ghost use Rattle.row_space.specs.Sums.{weighted};
ghost use Rattle.row_space.specs.Echelon.{IsRow};

use lane_rows::axpy;
use lists::{List, NoMemory};
use prime_field::Prime;
use std::alloc::Global;

pub(crate) fn copy_of(alloc: Global, row: &[u32]) -> Result<Vec<u32>, NoMemory>
    ensures { IfOk result (λ v. v.items ≡ row.now) }
{
    match row.to_vec(alloc) {
        Ok(copy) => Ok(copy),
        Err(_) => Err(NoMemory),
    }
}

pub(crate) fn zero_row(alloc: Global, length: usize) -> Result<Vec<u32>, NoMemory>
    ensures { IfOk result (λ row. row.items ≡ replicate length 0) }
{
    match vec![in alloc; 0u32; length] {
        Ok(row) => Ok(row),
        Err(_) => Err(NoMemory),
    }
}

// Adds c times `row` to `out`.
fn add_multiple(p: u32, c: u32, row: &[u32], out: &mut [u32])
    requires range { (2 ≤ p) × (p ≤ 32003) × (c < p) }
    requires same_length { length row.now ≡ length out.old }
    requires row { AreResidues p row.now }
    requires out { AreResidues p out.old }
    ensures entries { (t : ℕ) → t < length out.old → slice_index out.new t ≡ (slice_index out.old t + c * slice_index row.now t) % p }
    ensures residues { AreResidues p out.new }
{
    if c != 0 {
        axpy(p, c, row, out);
    }
}

// Adds c times the sum of the rows, each times its factor, to `out`.
pub(crate) fn add_multiples(
    prime: Prime,
    c: u32,
    factors: &[u32],
    rows: &[List<u32>],
    out: &mut [u32],
)
    requires c { c < prime }
    requires count { length rows.now ≡ length factors.now }
    requires factors { AreResidues prime factors.now }
    requires rows { All (IsRow prime (length out.old)) rows.now }
    requires out { AreResidues prime out.old }
    ensures entries { (t : ℕ) → t < length out.old → slice_index out.new t ≡ (slice_index out.old t + c * weighted factors.now rows.now t) % prime }
    ensures residues { AreResidues prime out.new }
{
    if c == 0 {
        return;
    }
    let p = prime.get();
    for j in 0..factors.len() {
        let multiple = prime.mul(c, factors[j]);
        add_multiple(p, multiple, rows[j].as_slice(), out);
    }
}
