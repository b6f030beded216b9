// Sums of rows of products, block by block.
ghost use Rattle.std.specs.Prelude.{◌≡◌, ◌≢◌, ℕ, ◌+◌, ◌*◌, ◌%◌, ◌<◌, ◌≤◌, length, replicate, slice_index, IfOk, IfSome};
ghost use Rattle.lane_rows.specs.Rows.{AreResidues};
ghost use Rattle.digit_space.specs.Adding.{product_row, rows_from, sum_at, IsWithin};
ghost use Rattle.digit_space.specs.Model.{kept_at};

use crate::products::{Product, product_at};
use lane_rows::axpy;
use lists::{List, NoMemory};
use prime_field::Prime;
use std::alloc::Global;

pub(crate) fn zero_row(alloc: Global, length: usize) -> Result<Vec<u32>, NoMemory>
    ensures { IfOk result (λ row. row.items ≡ replicate length 0) }
{
    match vec![in alloc; 0u32; length] {
        Ok(row) => Ok(row),
        Err(_) => Err(NoMemory),
    }
}

// Adds c times the row, with zeros behind it, to `out`, as far as that reaches.
pub(crate) fn add_multiple(p: u32, c: u32, row: &[u32], out: &mut [u32])
    requires range { (2 ≤ p) × (p ≤ 32003) × (c < p) }
    requires row { AreResidues p row.now }
    requires out { AreResidues p out.old }
    ensures entries { (t : ℕ) → t < length out.old → slice_index out.new t ≡ (slice_index out.old t + c * slice_index row.now t) % p }
    ensures residues { AreResidues p out.new }
{
    let reach = row.len().min(out.len());
    axpy(p, c, &row[..reach], &mut out[..reach]);
}

// Adds c times the product to `out`, with one addition where it is a corner.
fn add_product(prime: Prime, c: u32, product: Product, border: &[List<u32>], out: &mut [u32])
    requires c { c < prime }
    requires product { IsWithin prime (length out.old) border.now product }
    requires out { AreResidues prime out.old }
    ensures entries { (t : ℕ) → t < length out.old → slice_index out.new t ≡ (slice_index out.old t + c * slice_index (product_row border.now product) t) % prime }
    ensures residues { AreResidues prime out.new }
{
    let p = prime.get();
    match product {
        Product::Corner(j) => out[j as usize] = prime.add(out[j as usize], c),
        Product::Border(r) => add_multiple(p, c, border[r as usize].as_slice(), out),
    }
}

// Adds the sum of the products from the number `first` on, each times its entry of the block, to `out`.
pub(crate) fn add_block(
    prime: Prime,
    products: &Option<List<Product>>,
    first: usize,
    border: &[List<u32>],
    block: &[u32],
    out: &mut [u32],
)
    requires listed { IfSome products.now (λ list. first + length block.now ≤ length list) }
    requires small { first + length block.now ≤ 1536 }
    requires products { (i : ℕ) → i < length block.now → IsWithin prime (length block.now) border.now (kept_at products.now (first + i)) }
    requires block { AreResidues prime block.now }
    requires room { length block.now ≤ length out.old }
    requires out { AreResidues prime out.old }
    ensures entries { (t : ℕ) → t < length out.old → slice_index out.new t ≡ (slice_index out.old t + sum_at block.now (rows_from border.now products.now first) t) % prime }
    ensures residues { AreResidues prime out.new }
{
    let _p = prime.get();
    for i in 0..block.len() {
        if block[i] != 0 {
            let product = product_at(products, first + i);
            add_product(prime, block[i], product, border, out);
        }
    }
}
