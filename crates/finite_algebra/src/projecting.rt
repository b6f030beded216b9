// The parts of a quotient: classes of unit rows, the places that are no pivots, and images.
ghost use Rattle.std.specs.Prelude.{◌≡◌, ℕ, ◌*◌, ◌<◌, ◌≤◌, [], ◌++◌, length, slice_index, slice_index_or, map, All, IfOk, OnOk};
ghost use Rattle.lane_rows.specs.Rows.{AreResidues};
ghost use Rattle.row_space.specs.Echelon.{IsRow, entries_at};
ghost use Rattle.row_space.specs.Subspace.{IsReduced, product};
ghost use Rattle.finite_algebra.specs.Projections.{IsClass, AreFree, images_of_products};

use super::multiples::{add_multiples, zero_row};
use lists::{List, NoMemory};
use prime_field::Prime;
use row_space::Space;
use std::alloc::Global;

// The row of the class of the unit row `k` that is 0 at the pivots.
fn reduced_unit(alloc: Global, ideal: &Space, n: usize, k: usize) -> Result<List<u32>, NoMemory>
    requires width { ideal.now.width ≡ n }
    requires two { 2 ≤ ideal.now.prime }
    requires k { k < n }
    ensures { IfOk result (λ row. IsClass ideal.now k row) }
{
    let mut row = zero_row(alloc, n)?;
    row[k] = 1;
    ideal.reduce(row.as_mut_slice());
    Ok(List::of_vec(row))
}

// For each unit row the row of its class that is 0 at the pivots.
pub(crate) fn reduced_units(
    alloc: Global,
    ideal: &Space,
    n: usize,
) -> Result<List<List<u32>>, NoMemory>
    requires width { ideal.now.width ≡ n }
    requires two { 2 ≤ ideal.now.prime }
    ensures reduced { IsReduced ideal.now }
    ensures long { IfOk result (λ rows. length rows ≡ n) }
    ensures classes { IfOk result (λ rows. (k : ℕ) → k < n → IsClass ideal.now k (slice_index_or rows k [])) }
{
    let _basis = ideal.rows();
    let mut rows = List::new(alloc);
    for k in 0..n {
        let row = reduced_unit(alloc, ideal, n, k)?;
        rows.push(row)?;
    }
    Ok(rows)
}

// The numbers of the rows that are not 0 at the place with their own number.
pub(crate) fn free_places(alloc: Global, rows: &[List<u32>]) -> Result<List<usize>, NoMemory>
    requires { (k : ℕ) → k < length rows.now → length (slice_index_or rows.now k []) ≡ length rows.now }
    ensures { IfOk result (λ places. AreFree rows.now (length rows.now) places) }
{
    let mut places = List::new(alloc);
    for k in 0..rows.len() {
        if rows[k].as_slice()[k] != 0 {
            places.push(k)?;
        }
    }
    Ok(places)
}

// The entries of the row at the places.
fn at_places(alloc: Global, places: &[usize], row: &[u32]) -> Result<List<u32>, NoMemory>
    requires { (a : ℕ) → a < length places.now → slice_index places.now a < length row.now }
    ensures { IfOk result (λ made. made ≡ entries_at places.now row.now) }
{
    let mut made = List::new(alloc);
    for place in places {
        made.push(row[*place])?;
    }
    Ok(made)
}

/// The entries of each row at the places.
pub fn at_all_places(
    alloc: Global,
    places: &[usize],
    rows: &[List<u32>],
) -> Result<List<List<u32>>, NoMemory>
    requires { (a k : ℕ) → a < length places.now → k < length rows.now → slice_index places.now a < length (slice_index_or rows.now k []) }
    ensures { IfOk result (λ made. made ≡ map (entries_at places.now) rows.now) }
{
    let mut made = List::new(alloc);
    for i in 0..rows.len() {
        let row = at_places(alloc, places, rows[i].as_slice())?;
        made.push(row)?;
    }
    Ok(made)
}

/// `v` times the matrix, whose rows have `columns` entries.
pub fn image(
    alloc: Global,
    prime: Prime,
    matrix: &[List<u32>],
    columns: usize,
    v: &[u32],
) -> Result<List<u32>, NoMemory>
    requires count { length matrix.now ≡ length v.now }
    requires v { AreResidues prime v.now }
    requires matrix { All (IsRow prime columns) matrix.now }
    ensures { IfOk result (λ w. w ≡ product prime columns v.now matrix.now) }
{
    let _p = prime.get();
    let mut out = zero_row(alloc, columns)?;
    add_multiples(prime, 1, v, matrix, out.as_mut_slice());
    Ok(List::of_vec(out))
}

/// Each of the rows `vs` times the matrix, whose rows have `columns` entries.
pub fn images_of(
    alloc: Global,
    prime: Prime,
    matrix: &[List<u32>],
    columns: usize,
    vs: &[List<u32>],
) -> Result<List<List<u32>>, NoMemory>
    requires matrix { All (IsRow prime columns) matrix.now }
    requires vs { All (IsRow prime (length matrix.now)) vs.now }
    ensures { IfOk result (λ made. made ≡ map (λ v. product prime columns v matrix.now) vs.now) }
{
    let mut made = List::new(alloc);
    for v in vs {
        made.push(image(alloc, prime, matrix, columns, v.as_slice())?)?;
    }
    Ok(made)
}

// Puts the images of the rows with these numbers at the end of `into`.
fn push_images(
    alloc: Global,
    prime: Prime,
    rows: &[List<u32>],
    places: &[usize],
    matrix: &[List<u32>],
    into: &mut List<List<u32>>,
) -> Result<(), NoMemory>
    requires rows { All (IsRow prime (length matrix.now)) rows.now }
    requires places { (b : ℕ) → b < length places.now → slice_index places.now b < length rows.now }
    requires matrix { All (IsRow prime (length places.now)) matrix.now }
    ensures { OnOk result (into.new ≡ into.old ++ map (λ b. product prime (length places.now) (slice_index_or rows.now b []) matrix.now) places.now) }
{
    for b in places {
        let made = image(alloc, prime, matrix, places.len(), rows[*b].as_slice())?;
        into.push(made)?;
    }
    Ok(())
}

// The images of the products of the basis elements at the places, those of the first with each of
// them, then those of the second.
pub(crate) fn image_products(
    alloc: Global,
    prime: Prime,
    n: usize,
    products: &[List<u32>],
    places: &[usize],
    matrix: &[List<u32>],
) -> Result<List<List<u32>>, NoMemory>
    requires count { length products.now ≡ n * n }
    requires products { All (IsRow prime n) products.now }
    requires places { (b : ℕ) → b < length places.now → slice_index places.now b < n }
    requires columns { length matrix.now ≡ n }
    requires matrix { All (IsRow prime (length places.now)) matrix.now }
    ensures { IfOk result (λ made. made ≡ images_of_products prime n products.now matrix.now places.now) }
{
    let mut made = List::new(alloc);
    for a in places {
        let from = *a * n;
        push_images(
            alloc,
            prime,
            &products[from..from + n],
            places,
            matrix,
            &mut made,
        )?;
    }
    Ok(made)
}
