// Rows that are put together from others.
ghost use Rattle.std.specs.Prelude.{◌≡◌, ℕ, ◌+◌, ◌<◌, List, [], ◌++◌, length, slice_index_or, slice_set, replicate, IfOk};

use super::elimination::copy_of;
use lists::{List, NoMemory};
use std::alloc::Global;

// The one row, and then the other.
pub(crate) fn joined(alloc: Global, left: &[u32], right: &[u32]) -> Result<Vec<u32>, NoMemory>
    ensures { IfOk result (λ row. row.items ≡ left.now ++ right.now) }
{
    let mut row = copy_of(alloc, left)?;
    match row.extend_from_slice(right) {
        Ok(()) => Ok(row),
        Err(_) => Err(NoMemory),
    }
}

pub(crate) fn joined_length(left: &[u32], right: &[u32]) -> usize
    ensures { result ≡ length left.now + length right.now }
{
    left.len() + right.len()
}

pub(crate) fn zero_row(alloc: Global, length: usize) -> Result<Vec<u32>, NoMemory>
    ensures { IfOk result (λ row. row.items ≡ replicate length 0) }
{
    match vec![in alloc; 0u32; length] {
        Ok(row) => Ok(row),
        Err(_) => Err(NoMemory),
    }
}

// The rows that are 1 at their own place and 0 elsewhere.
pub(crate) fn unit_rows(alloc: Global, count: usize) -> Result<List<List<u32>>, NoMemory>
    ensures long { IfOk result (λ rows. length rows ≡ count) }
    ensures rows { IfOk result (λ rows. (i : ℕ) → i < count → slice_index_or rows i [] ≡ slice_set (replicate count 0) i 1) }
{
    let mut rows = List::new(alloc);
    for i in 0..count {
        let mut row = zero_row(alloc, count)?;
        row[i] = 1;
        rows.push(List::of_vec(row))?;
    }
    Ok(rows)
}
