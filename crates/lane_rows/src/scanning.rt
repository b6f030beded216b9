// The first entry that is not 0.
ghost use Rattle.std.specs.Prelude.{◌≡◌, ℕ, ◌+◌, ◌<◌, ◌≤◌, length, slice_index, IsTrue, MatchOption};
ghost use Rattle.lane_rows.specs.Rows.{IsFirstNonzero, IsZeroRow};

use std::simd::prelude::*;

#[inline(always)]
fn are_zero(row: &[u32], at: usize) -> bool
    requires { at + 8 ≤ length row.now }
    ensures { IsTrue result → (k : ℕ) → at ≤ k → k < at + 8 → slice_index row.now k ≡ 0 }
{
    u32x8::from_slice(&row[at..])
        .simd_ne(u32x8::splat(0))
        .to_bitmask()
        == 0
}

// The length of a front of whole groups that is 0.
fn zero_front(row: &[u32]) -> usize
    ensures within { result ≤ length row.now }
    ensures zeros { (k : ℕ) → k < result → slice_index row.now k ≡ 0 }
{
    let groups = row.len() / 8;
    for i in 0..groups {
        if !are_zero(row, i * 8) {
            return i * 8;
        }
    }
    groups * 8
}

/// The least place whose entry is not 0, and `None` exactly where every entry is 0.
pub fn first_nonzero(row: &[u32]) -> Option<usize>
    ensures { MatchOption result (IsZeroRow row.now) (λ place. IsFirstNonzero row.now place) }
{
    for k in zero_front(row)..row.len() {
        if row[k] != 0 {
            return Some(k);
        }
    }
    None
}
