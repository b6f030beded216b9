// The sum of the products of two rows.
ghost use Rattle.std.specs.Prelude.{◌≡◌, ℕ, ◌+◌, ◌*◌, ◌%◌, ◌<◌, ◌≤◌, ◌^◌, ◌/◌, length, take};
ghost use Rattle.std.specs.Simd.Lanes.{sum_l, chunk};
ghost use Rattle.lane_rows.specs.Rows.{AreResidues, sum_of_products};

use std::simd::{u32x8, u64x8};

// As many entries are summed before a reduction.
const BLOCK: usize = 1048576;

#[inline(always)]
fn eight_products(a: &[u32], b: &[u32], at: usize) -> u64x8
    requires a { (at + 8 ≤ length a.now) × AreResidues 32768 a.now }
    requires b { (at + 8 ≤ length b.now) × AreResidues 32768 b.now }
    ensures long { length result ≡ 8 }
    ensures sum { sum_l result ≡ sum_of_products (chunk at 8 a.now) (chunk at 8 b.now) }
{
    let x = u32x8::from_slice(&a[at..]).cast::<u64>();
    let y = u32x8::from_slice(&b[at..]).cast::<u64>();
    x.strict_mul(y)
}

// The whole groups of eight.
fn group_sum(a: &[u32], b: &[u32]) -> u64
    requires same_length { length a.now ≡ length b.now }
    requires short { length a.now ≤ 1048576 }
    requires a { AreResidues 32768 a.now }
    requires b { AreResidues 32768 b.now }
    ensures sum { let whole = length a.now / 8 * 8 in result ≡ sum_of_products (take whole a.now) (take whole b.now) }
    ensures bound { result ≤ length a.now / 8 * 8 * 2 ^ 30 }
{
    let groups = a.len() / 8;
    let mut lanes = u64x8::splat(0);
    for i in 0..groups {
        lanes = lanes.strict_add(eight_products(a, b, i * 8));
    }
    lanes.strict_reduce_sum()
}

fn block_sum(a: &[u32], b: &[u32]) -> u64
    requires same_length { length a.now ≡ length b.now }
    requires short { length a.now ≤ 1048576 }
    requires a { AreResidues 32768 a.now }
    requires b { AreResidues 32768 b.now }
    ensures sum { result ≡ sum_of_products a.now b.now }
    ensures bound { result ≤ 2 ^ 50 }
{
    let mut total = group_sum(a, b);
    for k in a.len() / 8 * 8..a.len() {
        total += a[k] as u64 * b[k] as u64;
    }
    total
}

/// The sum of the products of the entries at the same place, modulo p. The rows have one length, and
/// their entries are residues.
///
/// A product is below 2^30, and the sums are reduced once for each block of 2^20 entries, so no sum
/// passes 2^50 by more than p.
pub fn dot(p: u32, a: &[u32], b: &[u32]) -> u32
    requires range { (2 ≤ p) × (p ≤ 32003) }
    requires same_length { length a.now ≡ length b.now }
    requires a { AreResidues p a.now }
    requires b { AreResidues p b.now }
    ensures { result ≡ sum_of_products a.now b.now % p }
{
    let modulus = p as u64;
    let blocks = a.len() / BLOCK;
    let mut total = 0u64;
    for i in 0..blocks {
        let (from, to) = (i * BLOCK, (i + 1) * BLOCK);
        total = (total + block_sum(&a[from..to], &b[from..to])) % modulus;
    }
    let rest = block_sum(&a[blocks * BLOCK..], &b[blocks * BLOCK..]);
    ((total + rest) % modulus) as u32
}
