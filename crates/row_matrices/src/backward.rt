// The kernel of a matrix with few columns, from the last row on: so its rows come in echelon form.
ghost use Rattle.std.specs.Prelude.{◌≡◌, ◌↔◌, List, ℕ, ◌<◌, [], length, slice_index, slice_index_or, All, IfOk, OnOk};
ghost use Rattle.row_space.specs.Echelon.{IsRow};
ghost use Rattle.row_space.specs.Subspace.{IsIn, IsZero, product};
ghost use Rattle.finite_algebra.specs.Elements.{unit_row as the_unit_row};
ghost use Rattle.row_matrices.specs.Inverses.{AreRests, AreRowsAt, AreUnitsAt, IsInverse, IsRest};

use super::inverses::inverse_of;
use super::rows::{copy_of, less_multiple, unit_row};
use finite_algebra::image;
use lists::{List, NoMemory};
use prime_field::Prime;
use row_space::{Insert, Space, kernel};
use std::alloc::Global;

// Adds the row to the space, and its number to the list if it is new.
fn put_numbered(
    space: &mut Space,
    row: &[u32],
    places: List<usize>,
    i: usize,
) -> Result<List<usize>, NoMemory>
    requires row { IsRow space.old.prime space.old.width row.now }
    ensures space { OnOk result ((space.new.prime ≡ space.old.prime) × (space.new.width ≡ space.old.width)) }
    ensures places { IfOk result (λ made. (n : ℕ) → i < n → All (λ q. q < n) places → All (λ q. q < n) made) }
{
    let mut places = places;
    if let Insert::Inserted = space.insert(row)? {
        places.push(i)?;
    }
    Ok(places)
}

// The numbers of rows that span all the rows, from the last one on.
fn last_places(
    alloc: Global,
    prime: Prime,
    rows: &[List<u32>],
    columns: usize,
) -> Result<List<usize>, NoMemory>
    requires { All (IsRow prime columns) rows.now }
    ensures { IfOk result (λ places. All (λ q. q < length rows.now) places) }
{
    let _p = prime.get();
    let mut space = Space::new(alloc, prime, columns);
    let mut places = List::new(alloc);
    let mut i = rows.len();
    while i > 0 {
        i -= 1;
        places = put_numbered(&mut space, rows[i].as_slice(), places, i)?;
        if places.len() >= columns {
            return Ok(places);
        }
    }
    Ok(places)
}

// The rows with these numbers.
fn rows_at(alloc: Global, rows: &[List<u32>], places: &[usize]) -> Result<List<List<u32>>, NoMemory>
    requires { All (λ q. q < length rows.now) places.now }
    ensures { IfOk result (λ made. AreRowsAt rows.now places.now made) }
{
    let mut made = List::new(alloc);
    for t in 0..places.len() {
        let row = copy_of(alloc, rows[places[t]].as_slice())?;
        made.push(List::of_vec(row))?;
    }
    Ok(made)
}

// The unit rows with these numbers.
fn units_at(alloc: Global, n: usize, places: &[usize]) -> Result<List<List<u32>>, NoMemory>
    requires { All (λ q. q < n) places.now }
    ensures { IfOk result (λ made. AreUnitsAt n places.now made) }
{
    let mut made = List::new(alloc);
    for t in 0..places.len() {
        let row = unit_row(alloc, n, places[t])?;
        made.push(List::of_vec(row))?;
    }
    Ok(made)
}

// The unit row i without its part among the units, whose coordinates are the row times the inverse.
fn rest_of(
    alloc: Global,
    prime: Prime,
    n: usize,
    i: usize,
    row: &[u32],
    inverse: &[List<u32>],
    units: &[List<u32>],
) -> Result<List<u32>, NoMemory>
    requires i { i < n }
    requires row { IsRow prime (length inverse.now) row.now }
    requires inverse { All (IsRow prime (length units.now)) inverse.now }
    requires units { All (IsRow prime n) units.now }
    requires square { length units.now ≡ length inverse.now }
    ensures { IfOk result (λ made. IsRest prime n i row.now inverse.now units.now made) }
{
    let _p = prime.get();
    let coordinates = image(alloc, prime, inverse, units.len(), row)?;
    let part = image(alloc, prime, units, n, coordinates.as_slice())?;
    let unit = unit_row(alloc, n, i)?;
    let made = less_multiple(alloc, prime, unit.as_slice(), 1, part.as_slice())?;
    Ok(made)
}

// All the unit rows without these parts.
fn rests(
    alloc: Global,
    prime: Prime,
    rows: &[List<u32>],
    inverse: &[List<u32>],
    units: &[List<u32>],
) -> Result<List<List<u32>>, NoMemory>
    requires rows { All (IsRow prime (length inverse.now)) rows.now }
    requires inverse { All (IsRow prime (length units.now)) inverse.now }
    requires units { All (IsRow prime (length rows.now)) units.now }
    requires square { length units.now ≡ length inverse.now }
    ensures { IfOk result (λ made. AreRests prime rows.now inverse.now units.now (length rows.now) made) }
{
    let mut made = List::new(alloc);
    for i in 0..rows.len() {
        let row = rest_of(
            alloc,
            prime,
            rows.len(),
            i,
            rows[i].as_slice(),
            inverse,
            units,
        )?;
        made.push(row)?;
    }
    Ok(made)
}

// The kernel, where the rows with these numbers have an inverse matrix.
fn kernel_by(
    alloc: Global,
    prime: Prime,
    rows: &[List<u32>],
    columns: usize,
    places: &[usize],
    chosen: &[List<u32>],
    inverse: &[List<u32>],
) -> Result<Space, NoMemory>
    requires rows { All (IsRow prime columns) rows.now }
    requires places { All (λ q. q < length rows.now) places.now }
    requires chosen { AreRowsAt rows.now places.now chosen.now }
    requires inverse { IsInverse prime columns chosen.now inverse.now }
    ensures shape { IfOk result (λ s. (s.prime ≡ prime) × (s.width ≡ length rows.now)) }
    ensures members { IfOk result (λ s. (v : List ℕ) → length v ≡ length rows.now → IsIn s v ↔ IsZero prime columns (product prime columns v rows.now)) }
{
    let _p = prime.get();
    let units = units_at(alloc, rows.len(), places)?;
    let made = rests(alloc, prime, rows, inverse, units.as_slice())?;
    let mut space = Space::new(alloc, prime, rows.len());
    space.add_rows(made.as_slice())?;
    Ok(space)
}

/// All rows v for which v times the matrix is 0. The rows of the matrix have `columns` entries, and v
/// has one entry for each of them.
///
/// With g columns and n rows it takes g multiples of rows with n entries for each row, and n looks: the
/// coordinates that are not free are the last ones, so no row of the kernel changes another one.
pub fn kernel_backward(
    alloc: Global,
    prime: Prime,
    rows: &[List<u32>],
    columns: usize,
) -> Result<Space, NoMemory>
    requires { All (IsRow prime columns) rows.now }
    ensures shape { IfOk result (λ s. (s.prime ≡ prime) × (s.width ≡ length rows.now)) }
    ensures members { IfOk result (λ s. (v : List ℕ) → length v ≡ length rows.now → IsIn s v ↔ IsZero prime columns (product prime columns v rows.now)) }
{
    let places = last_places(alloc, prime, rows, columns)?;
    let chosen = rows_at(alloc, rows, places.as_slice())?;
    if let Some(inverse) = inverse_of(alloc, prime, columns, chosen.as_slice())? {
        let space = kernel_by(
            alloc,
            prime,
            rows,
            columns,
            places.as_slice(),
            chosen.as_slice(),
            inverse.as_slice(),
        )?;
        return Ok(space);
    }
    let space = kernel(alloc, prime, rows, columns)?;
    Ok(space)
}
