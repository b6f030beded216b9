// The inverse of a square matrix, by elimination and a trial of what it gives.
ghost use Rattle.std.specs.Prelude.{◌≡◌, ◌+◌, ◌<◌, ◌≤◌, ℕ, [], length, slice_index_or, map, All, IfOk, OnOk, IsTrue, MatchOption};
ghost use Rattle.row_space.specs.Echelon.{IsRow};
ghost use Rattle.row_space.specs.Subspace.{product};
ghost use Rattle.finite_algebra.specs.Elements.{unit_row as the_unit_row};
ghost use Rattle.row_matrices.specs.Inverses.{GivesUnits, IsInverse};

use super::rows::{opposite, pair, unit_row, zero_row};
use finite_algebra::image;
use lists::{List, NoMemory};
use prime_field::Prime;
use row_space::Space;
use std::alloc::Global;

// Adds the row with the unit row k after it.
fn put_beside_unit(
    alloc: Global,
    n: usize,
    space: &mut Space,
    row: &[u32],
    k: usize,
) -> Result<(), NoMemory>
    requires two { 2 ≤ space.old.prime }
    requires width { space.old.width ≡ n + n }
    requires row { IsRow space.old.prime n row.now }
    requires k { k < n }
    ensures { OnOk result ((space.new.prime ≡ space.old.prime) × (space.new.width ≡ space.old.width)) }
{
    let unit = unit_row(alloc, n, k)?;
    let whole = pair(alloc, row, unit.as_slice())?;
    let said = space.insert(whole.as_slice());
    match said {
        Ok(_said) => Ok(()),
        Err(_none) => Err(NoMemory),
    }
}

// The space of the rows, each with its own unit row after it.
fn beside_units(
    alloc: Global,
    prime: Prime,
    n: usize,
    rows: &[List<u32>],
) -> Result<Space, NoMemory>
    requires count { length rows.now ≡ n }
    requires rows { All (IsRow prime n) rows.now }
    ensures { IfOk result (λ space. (space.prime ≡ prime) × (space.width ≡ n + n)) }
{
    let _p = prime.get();
    let zero = zero_row(alloc, n)?;
    let zeros = pair(alloc, zero.as_slice(), zero.as_slice())?;
    let mut space = Space::new(alloc, prime, zeros.len());
    for k in 0..rows.len() {
        put_beside_unit(alloc, n, &mut space, rows[k].as_slice(), k)?;
    }
    Ok(space)
}

// The row k of the inverse, if the rows have one.
fn inverse_row(
    alloc: Global,
    prime: Prime,
    n: usize,
    space: &Space,
    k: usize,
) -> Result<List<u32>, NoMemory>
    requires prime { space.now.prime ≡ prime }
    requires width { space.now.width ≡ n + n }
    requires k { k < n }
    ensures { IfOk result (λ row. IsRow prime n row) }
{
    let _p = prime.get();
    let unit = unit_row(alloc, n, k)?;
    let zero = zero_row(alloc, n)?;
    let mut row = pair(alloc, unit.as_slice(), zero.as_slice())?;
    space.reduce(row.as_mut_slice());
    let made = opposite(alloc, prime, &row.as_slice()[n..])?;
    Ok(made)
}

// The rows of the inverse, if there is one.
fn inverse_rows(
    alloc: Global,
    prime: Prime,
    n: usize,
    rows: &[List<u32>],
) -> Result<List<List<u32>>, NoMemory>
    requires count { length rows.now ≡ n }
    requires rows { All (IsRow prime n) rows.now }
    ensures count { IfOk result (λ made. length made ≡ n) }
    ensures rows { IfOk result (λ made. All (IsRow prime n) made) }
{
    let space = beside_units(alloc, prime, n, rows)?;
    let mut made = List::new(alloc);
    for k in 0..n {
        let row = inverse_row(alloc, prime, n, &space, k)?;
        made.push(row)?;
    }
    Ok(made)
}

fn are_same(row: &[u32], other: &[u32]) -> bool
    ensures { IsTrue result → row.now ≡ other.now }
{
    row == other
}

// Whether each of the rows times the matrix is the unit row with its number.
fn gives_units(
    alloc: Global,
    prime: Prime,
    n: usize,
    rows: &[List<u32>],
    matrix: &[List<u32>],
) -> Result<bool, NoMemory>
    requires count { (length rows.now ≡ n) × (length matrix.now ≡ n) }
    requires rows { All (IsRow prime n) rows.now }
    requires matrix { All (IsRow prime n) matrix.now }
    ensures { IfOk result (λ yes. IsTrue yes → GivesUnits prime n rows.now matrix.now) }
{
    let _p = prime.get();
    for j in 0..n {
        let made = image(alloc, prime, matrix, n, rows[j].as_slice())?;
        let unit = unit_row(alloc, n, j)?;
        if !are_same(made.as_slice(), unit.as_slice()) {
            return Ok(false);
        }
    }
    Ok(true)
}

/// The inverse of the matrix of the rows, where there are n of them with n entries each and it has one.
///
/// It takes an elimination of n rows with 2 n entries, and 2 n products of a row with a matrix.
pub fn inverse_of(
    alloc: Global,
    prime: Prime,
    n: usize,
    rows: &[List<u32>],
) -> Result<Option<List<List<u32>>>, NoMemory>
    requires rows { All (IsRow prime n) rows.now }
    ensures { IfOk result (λ found. MatchOption found (Unit {0}) (λ inverse. IsInverse prime n rows.now inverse)) }
{
    if rows.len() != n {
        return Ok(None);
    }
    let inverse = inverse_rows(alloc, prime, n, rows)?;
    if !gives_units(alloc, prime, n, rows, inverse.as_slice())? {
        return Ok(None);
    }
    if !gives_units(alloc, prime, n, inverse.as_slice(), rows)? {
        return Ok(None);
    }
    Ok(Some(inverse))
}
