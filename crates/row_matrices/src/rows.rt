// Rows of residues: copies, units, multiples, opposites.
ghost use Rattle.std.specs.Prelude.{◌++◌, map, ◌≡◌, ◌+◌, ◌-◌, ◌%◌, ◌<◌, [], ◌∷◌, length, replicate, slice_index, slice_set, All, IfOk};
ghost use Rattle.row_space.specs.Echelon.{IsRow};
ghost use Rattle.lane_rows.specs.Rows.{AreResidues};
ghost use Rattle.finite_algebra.specs.Elements.{unit_row as the_unit_row};
ghost use Rattle.row_matrices.specs.Rows.{AreLess, IsLess, IsScaled};

use lane_rows::{axpy, scale};
use lists::{List, NoMemory};
use prime_field::Prime;
use std::alloc::Global;

/// A copy of the row.
pub fn copy_of(alloc: Global, row: &[u32]) -> Result<Vec<u32>, NoMemory>
    ensures { IfOk result (λ v. v.items ≡ row.now) }
{
    Ok(row.to_vec(alloc)?)
}

/// The row of zeros.
pub fn zero_row(alloc: Global, length: usize) -> Result<Vec<u32>, NoMemory>
    ensures { IfOk result (λ row. row.items ≡ replicate length 0) }
{
    Ok(vec![in alloc; 0u32; length]?)
}

/// The row with 1 at the place k and 0 elsewhere.
pub fn unit_row(alloc: Global, length: usize, k: usize) -> Result<Vec<u32>, NoMemory>
    requires { k < length }
    ensures { IfOk result (λ row. row.items ≡ the_unit_row length k) }
{
    let mut row = zero_row(alloc, length)?;
    row[k] = 1;
    Ok(row)
}

// The row with c taken off at the place k.
fn less_at(
    alloc: Global,
    prime: Prime,
    row: &[u32],
    k: usize,
    c: u32,
) -> Result<List<u32>, NoMemory>
    requires c { c < prime }
    requires k { k < length row.now }
    requires row { AreResidues prime row.now }
    ensures set { IfOk result (λ made. made ≡ slice_set row.now k ((slice_index row.now k + (prime - c)) % prime)) }
    ensures residues { IfOk result (λ made. AreResidues prime made) }
{
    let mut made = copy_of(alloc, row)?;
    let entry = prime.sub(made[k], c);
    made[k] = entry;
    Ok(List::of_vec(made))
}

/// The square matrix with c taken off its diagonal.
pub fn less_scalar(
    alloc: Global,
    prime: Prime,
    matrix: &[List<u32>],
    c: u32,
) -> Result<List<List<u32>>, NoMemory>
    requires c { c < prime }
    requires rows { All (IsRow prime (length matrix.now)) matrix.now }
    ensures { IfOk result (λ made. AreLess prime c matrix.now made) }
{
    let _p = prime.get();
    let mut rows = List::new(alloc);
    for k in 0..matrix.len() {
        let row = less_at(alloc, prime, matrix[k].as_slice(), k, c)?;
        rows.push(row)?;
    }
    Ok(rows)
}

/// The list with the one row.
pub fn single(alloc: Global, row: &[u32]) -> Result<List<List<u32>>, NoMemory>
    ensures { IfOk result (λ rows. rows ≡ row.now ∷ []) }
{
    let mut rows = List::new(alloc);
    rows.push(List::of_vec(copy_of(alloc, row)?))?;
    Ok(rows)
}

/// The row times c.
pub fn scaled(alloc: Global, prime: Prime, c: u32, row: &[u32]) -> Result<List<u32>, NoMemory>
    requires c { c < prime }
    requires row { AreResidues prime row.now }
    ensures { IfOk result (λ made. IsScaled prime (length row.now) c row.now made) }
{
    let mut made = copy_of(alloc, row)?;
    scale(prime.get(), c, made.as_mut_slice());
    Ok(List::of_vec(made))
}

/// The row without c times the other one of its length.
pub fn less_multiple(
    alloc: Global,
    prime: Prime,
    row: &[u32],
    c: u32,
    other: &[u32],
) -> Result<List<u32>, NoMemory>
    requires c { c < prime }
    requires row { AreResidues prime row.now }
    requires other { IsRow prime (length row.now) other.now }
    ensures { IfOk result (λ made. IsLess prime (length row.now) row.now c other.now made) }
{
    let mut made = copy_of(alloc, row)?;
    axpy(prime.get(), prime.neg(c), other, made.as_mut_slice());
    Ok(List::of_vec(made))
}

/// The left row followed by the right one.
pub fn pair(alloc: Global, left: &[u32], right: &[u32]) -> Result<Vec<u32>, NoMemory>
    ensures { IfOk result (λ row. row.items ≡ left.now ++ right.now) }
{
    let mut row = copy_of(alloc, left)?;
    row.extend_from_slice(right)?;
    Ok(row)
}

/// The row of the opposites.
pub fn opposite(alloc: Global, prime: Prime, row: &[u32]) -> Result<List<u32>, NoMemory>
    requires { AreResidues prime row.now }
    ensures opposites { IfOk result (λ made. made ≡ map (λ x. (prime - x) % prime) row.now) }
    ensures residues { IfOk result (λ made. AreResidues prime made) }
{
    let mut made = List::new(alloc);
    for i in 0..row.len() {
        made.push(prime.neg(row[i]))?;
    }
    Ok(made)
}
