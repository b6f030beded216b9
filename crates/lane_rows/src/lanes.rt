// Single operations on eight lanes, each with its meaning lane by lane.
ghost use Rattle.std.specs.Prelude.{◌≡◌, ℕ, ◌+◌, ◌-◌, ◌*◌, ◌/◌, ◌%◌, ◌<◌, ◌^◌, slice_index, min};

use std::simd::u32x8;

#[inline(always)]
pub(crate) fn sum(a: u32x8, b: u32x8) -> u32x8
    ensures { (j : ℕ) → j < 8 → slice_index result j ≡ (slice_index a j + slice_index b j) % 2 ^ 32 }
{
    a + b
}

#[inline(always)]
pub(crate) fn product(a: u32x8, b: u32x8) -> u32x8
    ensures { (j : ℕ) → j < 8 → slice_index result j ≡ (slice_index a j * slice_index b j) % 2 ^ 32 }
{
    a * b
}

#[inline(always)]
pub(crate) fn difference(a: u32x8, b: u32x8) -> u32x8
    ensures { (j : ℕ) → j < 8 → slice_index result j ≡ (slice_index a j + (2 ^ 32 - slice_index b j)) % 2 ^ 32 }
{
    a - b
}

#[inline(always)]
pub(crate) fn every(c: u32) -> u32x8
    ensures { (j : ℕ) → j < 8 → slice_index result j ≡ c }
{
    u32x8::splat(c)
}

#[inline(always)]
pub(crate) fn upper_half(a: u32x8) -> u32x8
    ensures { (j : ℕ) → j < 8 → slice_index result j ≡ slice_index a j / 2 ^ 16 }
{
    a >> u32x8::splat(16)
}

#[inline(always)]
pub(crate) fn least(a: u32x8, b: u32x8) -> u32x8
    ensures { (j : ℕ) → j < 8 → slice_index result j ≡ min (slice_index a j) (slice_index b j) }
{
    a.simd_min(b)
}
