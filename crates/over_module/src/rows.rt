// Rows of digits: by blocks, with zeros before or behind, of the products with the corners, and the space that rows span.
ghost use Rattle.std.specs.Prelude.{◌≡◌, ◌≤◌, ◌<◌, ◌-◌, ◌*◌, ◌++◌, ℕ, [], map, length, replicate, slice_index_or, All, IfOk};
ghost use Rattle.polys.specs.Curve.{IsOver};
ghost use Rattle.row_space.specs.Echelon.{IsRow};
ghost use Rattle.digit_space.specs.Adding.{AreMultiples};
ghost use Rattle.digit_space.specs.Model.{IsDigitRow, IsDigitSpace};
ghost use Rattle.over_module.specs.Raising.{IsSpannedBy, behind_zeros};

use digit_space::Digits;
use lists::{List, NoMemory};
use polys::Poly;
use prime_field::Prime;
use row_space::Space;
use std::alloc::Global;

/// How many entries so many blocks have.
pub fn entries(digits: &Digits, blocks: u32) -> usize
    requires { blocks ≤ digits.now.depth }
    ensures value { result ≡ length digits.now.basis * blocks }
    ensures known { IsDigitSpace digits.now }
{
    digits.basis().len() * blocks as usize
}

/// So many zeros, and then the row.
///
/// # Errors
/// Want of memory.
pub fn behind(alloc: Global, zeros: usize, row: &[u32]) -> Result<List<u32>, NoMemory>
    ensures { IfOk result (λ made. made ≡ behind_zeros zeros row.now) }
{
    let mut made = List::of_vec(vec![in alloc; 0u32; zeros]?);
    made.extend_from_slice(row)?;
    Ok(made)
}

/// The rows, each behind so many zeros.
///
/// # Errors
/// Want of memory.
pub fn all_behind(
    alloc: Global,
    zeros: usize,
    rows: &[List<u32>],
) -> Result<List<List<u32>>, NoMemory>
    ensures { IfOk result (λ made. made ≡ map (behind_zeros zeros) rows.now) }
{
    let mut made = List::new(alloc);
    for row in rows {
        made.push(behind(alloc, zeros, row.as_slice())?)?;
    }
    Ok(made)
}

/// The row with zeros behind it, `width` entries in all.
///
/// # Errors
/// Want of memory.
pub fn filled(alloc: Global, width: usize, row: &[u32]) -> Result<List<u32>, NoMemory>
    requires { length row.now ≤ width }
    ensures { IfOk result (λ made. made ≡ row.now ++ replicate (width - length row.now) 0) }
{
    let mut made = List::from_slice(alloc, row)?;
    let mut zeros = List::of_vec(vec![in alloc; 0u32; width - row.len()]?);
    made.append(&mut zeros)?;
    Ok(made)
}

/// The digits of the polynomial times each corner.
///
/// # Errors
/// Want of memory.
pub fn multiples_of(digits: &Digits, f: &Poly) -> Result<List<List<u32>>, NoMemory>
    requires { IsOver digits.now.curve.prime digits.now.curve.variables f.now }
    ensures count { IfOk result (λ rows. length rows ≡ length digits.now.basis) }
    ensures fit { IfOk result (λ rows. (i : ℕ) → i < length digits.now.basis → IsDigitRow digits.now (slice_index_or rows i [])) }
    ensures multiples { IfOk result (AreMultiples digits.now f.now.terms) }
{
    let _basis = digits.basis();
    let row = digits.digits_of(f)?;
    let rows = digits.multiples(row.as_slice())?;
    Ok(rows)
}

/// The space that the rows span.
///
/// # Errors
/// Want of memory.
pub fn spanned(
    alloc: Global,
    prime: Prime,
    width: usize,
    rows: &[List<u32>],
) -> Result<Space, NoMemory>
    requires { All (IsRow prime width) rows.now }
    ensures { IfOk result (IsSpannedBy prime width rows.now) }
{
    let mut space = Space::new(alloc, prime, width);
    space.add_rows(rows)?;
    let _basis = space.rows();
    Ok(space)
}
