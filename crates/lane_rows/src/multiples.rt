// Multiples of a row, by a quotient that is estimated with one factor for the whole row.
ghost use Rattle.std.specs.Prelude.{◌≡◌, ℕ, ◌+◌, ◌*◌, ◌/◌, ◌%◌, ◌<◌, ◌≤◌, ◌^◌, length, slice_index};
ghost use Rattle.lane_rows.specs.Rows.{AreResidues, multiple, plus_multiple};

use super::lanes::{difference, every, least, product, sum, upper_half};
use std::simd::u32x8;

// c * y modulo p. The estimate is the quotient or one less, so one subtraction is left.
#[inline(always)]
fn product_modulo(p: u32, c: u32, factor: u32, y: u32) -> u32
    requires range { (2 ≤ p) × (p ≤ 32003) × (c < p) }
    requires factor { factor ≡ c * 65536 / p }
    requires residue { y < p }
    ensures { result ≡ (c * y) % p }
{
    let estimate = (factor * y) >> 16;
    let rest = c * y - estimate * p;
    if rest < p { rest } else { rest - p }
}

// The sum of two residues modulo p.
#[inline(always)]
fn sum_modulo(p: u32, x: u32, y: u32) -> u32
    requires range { (2 ≤ p) × (p ≤ 32003) }
    requires residues { (x < p) × (y < p) }
    ensures { result ≡ (x + y) % p }
{
    let whole = x + y;
    if whole < p { whole } else { whole - p }
}

// Eight products.
#[inline(always)]
fn products_modulo(p: u32, c: u32, factor: u32, y: u32x8) -> u32x8
    requires range { (2 ≤ p) × (p ≤ 32003) × (c < p) }
    requires factor { factor ≡ c * 65536 / p }
    requires residues { (j : ℕ) → j < 8 → slice_index y j < p }
    ensures long { length result ≡ 8 }
    ensures products { (j : ℕ) → j < 8 → slice_index result j ≡ (c * slice_index y j) % p }
{
    let estimate = upper_half(product(y, every(factor)));
    let rest = difference(product(y, every(c)), product(estimate, every(p)));
    least(rest, difference(rest, every(p)))
}

// Eight sums.
#[inline(always)]
fn sums_modulo(p: u32, x: u32x8, y: u32x8) -> u32x8
    requires range { (2 ≤ p) × (p ≤ 32003) }
    requires x { (j : ℕ) → j < 8 → slice_index x j < p }
    requires y { (j : ℕ) → j < 8 → slice_index y j < p }
    ensures long { length result ≡ 8 }
    ensures sums { (j : ℕ) → j < 8 → slice_index result j ≡ (slice_index x j + slice_index y j) % p }
{
    let whole = sum(x, y);
    least(whole, difference(whole, every(p)))
}

#[inline(always)]
fn axpy_eight(p: u32, c: u32, factor: u32, row: &[u32], into: &mut [u32], at: usize)
    requires range { (2 ≤ p) × (p ≤ 32003) × (c < p) }
    requires factor { factor ≡ c * 65536 / p }
    requires row { (at + 8 ≤ length row.now) × ((k : ℕ) → k < 8 → slice_index row.now (at + k) < p) }
    requires into { (at + 8 ≤ length into.old) × ((k : ℕ) → k < 8 → slice_index into.old (at + k) < p) }
    ensures inside { (j : ℕ) → j < 8 → slice_index into.new (at + j) ≡ (slice_index into.old (at + j) + c * slice_index row.now (at + j)) % p }
    ensures below { (k : ℕ) → k < at → slice_index into.new k ≡ slice_index into.old k }
    ensures above { (k : ℕ) → at + 8 ≤ k → slice_index into.new k ≡ slice_index into.old k }
{
    let x = u32x8::from_slice(&into[at..]);
    let y = u32x8::from_slice(&row[at..]);
    let sums = sums_modulo(p, x, products_modulo(p, c, factor, y));
    sums.copy_to_slice(&mut into[at..]);
}

// The whole groups of eight; the count is that of their entries.
fn axpy_groups(p: u32, c: u32, factor: u32, row: &[u32], into: &mut [u32]) -> usize
    requires range { (2 ≤ p) × (p ≤ 32003) × (c < p) }
    requires factor { factor ≡ c * 65536 / p }
    requires same_length { length row.now ≡ length into.old }
    requires row { AreResidues p row.now }
    requires into { AreResidues p into.old }
    ensures within { result ≤ length into.old }
    ensures done { (k : ℕ) → k < result → slice_index into.new k ≡ (slice_index into.old k + c * slice_index row.now k) % p }
    ensures kept { (k : ℕ) → result ≤ k → slice_index into.new k ≡ slice_index into.old k }
{
    let groups = into.len() / 8;
    for i in 0..groups {
        axpy_eight(p, c, factor, row, into, i * 8);
    }
    groups * 8
}

// The entries from `start` on.
fn axpy_rest(p: u32, c: u32, factor: u32, row: &[u32], into: &mut [u32], start: usize)
    requires range { (2 ≤ p) × (p ≤ 32003) × (c < p) }
    requires factor { factor ≡ c * 65536 / p }
    requires same_length { length row.now ≡ length into.old }
    requires within { start ≤ length into.old }
    requires row { AreResidues p row.now }
    requires into { (k : ℕ) → start ≤ k → k < length into.old → slice_index into.old k < p }
    ensures done { (k : ℕ) → start ≤ k → k < length into.old → slice_index into.new k ≡ (slice_index into.old k + c * slice_index row.now k) % p }
    ensures kept { (k : ℕ) → k < start → slice_index into.new k ≡ slice_index into.old k }
{
    for k in start..into.len() {
        into[k] = sum_modulo(p, into[k], product_modulo(p, c, factor, row[k]));
    }
}

/// Adds c times `row` to `into`, entry by entry, modulo p. The rows have one length, and their
/// entries and c are residues.
///
/// No entry takes a division: with `factor`, the quotient of c * 65536 by p, the upper half of
/// `factor * y` is the quotient of c * y by p or one less. `factor` is below 2^16 and entries are
/// below 2^15, so all products stay below 2^31, and the sum of two residues below 2^16.
pub fn axpy(p: u32, c: u32, row: &[u32], into: &mut [u32])
    requires range { (2 ≤ p) × (p ≤ 32003) × (c < p) }
    requires same_length { length row.now ≡ length into.old }
    requires row { AreResidues p row.now }
    requires into { AreResidues p into.old }
    ensures sum { into.new ≡ plus_multiple p c into.old row.now }
    ensures residues { AreResidues p into.new }
{
    let factor = c * 65536 / p;
    let done = axpy_groups(p, c, factor, row, into);
    axpy_rest(p, c, factor, row, into, done);
}

#[inline(always)]
fn scale_eight(p: u32, c: u32, factor: u32, row: &mut [u32], at: usize)
    requires range { (2 ≤ p) × (p ≤ 32003) × (c < p) }
    requires factor { factor ≡ c * 65536 / p }
    requires row { (at + 8 ≤ length row.old) × ((k : ℕ) → k < 8 → slice_index row.old (at + k) < p) }
    ensures inside { (j : ℕ) → j < 8 → slice_index row.new (at + j) ≡ (c * slice_index row.old (at + j)) % p }
    ensures below { (k : ℕ) → k < at → slice_index row.new k ≡ slice_index row.old k }
    ensures above { (k : ℕ) → at + 8 ≤ k → slice_index row.new k ≡ slice_index row.old k }
{
    let y = u32x8::from_slice(&row[at..]);
    let products = products_modulo(p, c, factor, y);
    products.copy_to_slice(&mut row[at..]);
}

// The whole groups of eight; the count is that of their entries.
fn scale_groups(p: u32, c: u32, factor: u32, row: &mut [u32]) -> usize
    requires range { (2 ≤ p) × (p ≤ 32003) × (c < p) }
    requires factor { factor ≡ c * 65536 / p }
    requires row { AreResidues p row.old }
    ensures within { result ≤ length row.old }
    ensures done { (k : ℕ) → k < result → slice_index row.new k ≡ (c * slice_index row.old k) % p }
    ensures kept { (k : ℕ) → result ≤ k → slice_index row.new k ≡ slice_index row.old k }
{
    let groups = row.len() / 8;
    for i in 0..groups {
        scale_eight(p, c, factor, row, i * 8);
    }
    groups * 8
}

// The entries from `start` on.
fn scale_rest(p: u32, c: u32, factor: u32, row: &mut [u32], start: usize)
    requires range { (2 ≤ p) × (p ≤ 32003) × (c < p) }
    requires factor { factor ≡ c * 65536 / p }
    requires within { start ≤ length row.old }
    requires row { (k : ℕ) → start ≤ k → k < length row.old → slice_index row.old k < p }
    ensures done { (k : ℕ) → start ≤ k → k < length row.old → slice_index row.new k ≡ (c * slice_index row.old k) % p }
    ensures kept { (k : ℕ) → k < start → slice_index row.new k ≡ slice_index row.old k }
{
    for k in start..row.len() {
        row[k] = product_modulo(p, c, factor, row[k]);
    }
}

/// Multiplies each entry by c modulo p. The entries and c are residues; the numbers on the way are
/// those of `axpy`.
pub fn scale(p: u32, c: u32, row: &mut [u32])
    requires range { (2 ≤ p) × (p ≤ 32003) × (c < p) }
    requires row { AreResidues p row.old }
    ensures product { row.new ≡ multiple p c row.old }
    ensures residues { AreResidues p row.new }
{
    let factor = c * 65536 / p;
    let done = scale_groups(p, c, factor, row);
    scale_rest(p, c, factor, row, done);
}
