// The rows whose polynomials a generator takes into an ideal, out of those of a space.
ghost use Rattle.std.specs.Prelude.{◌≡◌, ◌↔◌, ℕ, ◌+◌, ◌*◌, ◌<◌, ◌≤◌, List, [], length, slice_index_or, All, IfOk};
ghost use Rattle.polys.specs.Terms.{mul};
ghost use Rattle.polys.specs.Curve.{IsOver, data_of};
ghost use Rattle.row_space.specs.Echelon.{IsRow};
ghost use Rattle.row_space.specs.Subspace.{IsIn};
ghost use Rattle.digit_laws.specs.Digits.{AreDigits, HasDigitsIn, IsOfDigits, value};
ghost use Rattle.digit_space.specs.Adding.{AreMultiples};
ghost use Rattle.digit_space.specs.Model.{IsDigitRow, IsDigitSpace};
ghost use Rattle.endo_ring.specs.Taken.{AreProducts, IsTaken};

use super::spaces::{behind_space, taken_sums};
use digit_space::Digits;
use lists::{List, NoMemory};
use over_module::{entries, filled, multiples_of, spanned};
use polys::Poly;
use row_space::Space;

// The first digits, of 2 times `blocks` blocks, of the generator times the row's polynomial.
fn product_row(
    digits: &Digits,
    blocks: u32,
    generator: &Poly,
    multiples: &[List<u32>],
    row: &[u32],
) -> Result<List<u32>, NoMemory>
    requires blocks { blocks + blocks ≤ digits.now.depth }
    requires generator { IsOver digits.now.curve.prime digits.now.curve.variables generator.now }
    requires count { length multiples.now ≡ length digits.now.basis }
    requires fit { (i : ℕ) → i < length digits.now.basis → IsDigitRow digits.now (slice_index_or multiples.now i []) }
    requires multiples { AreMultiples digits.now generator.now.terms multiples.now }
    requires row { IsRow digits.now.curve.prime (length digits.now.basis * blocks) row.now }
    ensures { IfOk result
        (λ made. AreDigits (data_of digits.now.curve) digits.now.basis (blocks + blocks)
        (mul digits.now.curve.prime generator.now.terms (value (data_of digits.now.curve) digits.now.basis blocks row.now)) made) }
{
    let width = entries(digits, digits.depth());
    let filled = filled(digits.allocator(), width, row)?;
    let whole = digits.product_by(filled.as_slice(), multiples)?;
    let front = entries(digits, blocks + blocks);
    Ok(List::from_slice(digits.allocator(), &whole.as_slice()[..front])?)
}

// The digits of the generator times the polynomial of each row.
fn products(
    digits: &Digits,
    blocks: u32,
    generator: &Poly,
    rows: &[List<u32>],
) -> Result<List<List<u32>>, NoMemory>
    requires blocks { blocks + blocks ≤ digits.now.depth }
    requires generator { IsOver digits.now.curve.prime digits.now.curve.variables generator.now }
    requires rows { All (IsRow digits.now.curve.prime (length digits.now.basis * blocks)) rows.now }
    ensures { IfOk result (AreProducts (data_of digits.now.curve) digits.now.basis blocks generator.now.terms rows.now) }
{
    let multiples = multiples_of(digits, generator)?;
    let mut made = List::new(digits.allocator());
    for i in 0..rows.len() {
        let row = rows[i].as_slice();
        made.push(product_row(digits, blocks, generator, multiples.as_slice(), row)?)?;
    }
    Ok(made)
}

// The rows of the space for which the digits of the generator times their polynomials are in the target.
fn narrowed(
    digits: &Digits,
    blocks: u32,
    present: &Space,
    generator: &Poly,
    target: &Space,
) -> Result<Space, NoMemory>
    requires blocks { blocks + blocks ≤ digits.now.depth }
    requires generator { IsOver digits.now.curve.prime digits.now.curve.variables generator.now }
    requires present { IsOfDigits (data_of digits.now.curve) digits.now.basis blocks present.now }
    requires target { IsOfDigits (data_of digits.now.curve) digits.now.basis (blocks + blocks) target.now }
    ensures of_digits { IfOk result (IsOfDigits (data_of digits.now.curve) digits.now.basis blocks) }
    ensures members { IfOk result
        (λ s. (row : List ℕ) → IsRow digits.now.curve.prime (length digits.now.basis * blocks) row → IsIn s row ↔ IsIn present.now row
        × HasDigitsIn (data_of digits.now.curve) digits.now.basis (blocks + blocks) target.now
        (mul digits.now.curve.prime generator.now.terms (value (data_of digits.now.curve) digits.now.basis blocks row))) }
{
    let width = entries(digits, blocks);
    let rows = present.rows();
    let images = products(digits, blocks, generator, rows)?;
    let found = taken_sums(digits.allocator(), target, images.as_slice(), width, rows)?;
    Ok(found)
}

// The rows of the ideal for which each generator times their polynomials is d^blocks times a member of the ideal.
pub(crate) fn solutions(
    digits: &Digits,
    blocks: u32,
    ideal: &Space,
    generators: &[Poly],
) -> Result<Space, NoMemory>
    requires blocks { blocks + blocks ≤ digits.now.depth }
    requires ideal { IsOfDigits (data_of digits.now.curve) digits.now.basis blocks ideal.now }
    requires generators { All (IsOver digits.now.curve.prime digits.now.curve.variables) generators.now }
    ensures of_digits { IfOk result (IsOfDigits (data_of digits.now.curve) digits.now.basis blocks) }
    ensures members { IfOk result
        (λ s. (row : List ℕ) → IsRow digits.now.curve.prime (length digits.now.basis * blocks) row → IsIn s row ↔ IsIn ideal.now row
        × All (λ v. IsTaken (data_of digits.now.curve) digits.now.basis blocks ideal.now v.terms row) generators.now) }
{
    let width = entries(digits, blocks);
    let alloc = digits.allocator();
    let target = behind_space(alloc, width, ideal, entries(digits, blocks + blocks))?;
    let mut found = spanned(alloc, ideal.prime(), width, ideal.rows())?;
    for i in 0..generators.len() {
        found = narrowed(digits, blocks, &found, &generators[i], &target)?;
    }
    Ok(found)
}
