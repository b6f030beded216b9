// The coordinates of the products of rows that are a basis modulo a space.
ghost use Rattle.std.specs.Prelude.{◌≡◌, ◌≤◌, ◌<◌, ◌+◌, ℕ, suc, List, [], take, drop, length, slice_index_or, All, IfOk};
ghost use Rattle.polys.specs.Terms.{mul};
ghost use Rattle.digit_space.specs.Adding.{AreMultiples};
ghost use Rattle.digit_space.specs.Model.{IsDigitRow, value_of};
ghost use Rattle.point_quotient.specs.Complements.{IsInWhole};
ghost use Rattle.point_quotient.specs.Quotients.{AreProductCoordinates, AreProductsWith, HasCoordinates, IsDividedProduct, IsProductTable};

use super::complement::coordinates;
use digit_space::Digits;
use lists::{List, NoMemory};
use over_module::entries;
use row_space::Space;
use std::alloc::Global;

// So many entries of the row, after the first ones.
fn part_of(alloc: Global, row: &[u32], first: usize, many: usize) -> Result<List<u32>, NoMemory>
    requires { first + many ≤ length row.now }
    ensures { IfOk result (λ made. made ≡ take many (drop first row.now)) }
{
    let rest = &row[first..];
    let made = List::from_slice(alloc, &rest[..many])?;
    Ok(made)
}

// The blocks from number `blocks` on, one more than so many, of the product of the factor, whose products with the corners are
// given, and the row.
fn divided_product(
    digits: &Digits,
    blocks: u32,
    factor: &[u32],
    multiples: &[List<u32>],
    row: &[u32],
) -> Result<List<u32>, NoMemory>
    requires blocks { blocks + suc blocks ≤ digits.now.depth }
    requires factor { IsDigitRow digits.now factor.now }
    requires count { length multiples.now ≡ length digits.now.basis }
    requires multiples { AreMultiples digits.now (value_of digits.now factor.now) multiples.now }
    requires row { IsDigitRow digits.now row.now }
    ensures { IfOk result (IsDividedProduct digits.now blocks (mul digits.now.curve.prime (value_of digits.now factor.now) (value_of digits.now row.now))) }
{
    let first = entries(digits, blocks);
    let width = entries(digits, blocks + 1);
    let whole = digits.product_by(row, multiples)?;
    let made = part_of(digits.allocator(), whole.as_slice(), first, width)?;
    Ok(made)
}

// The coordinates of the product of the factor, whose products with the corners are given, and the row, divided by d^k.
fn product_coordinates(
    digits: &Digits,
    power: u32,
    products: &Space,
    rest: &mut Space,
    factor: &[u32],
    multiples: &[List<u32>],
    row: &[u32],
) -> Result<List<u32>, NoMemory>
    requires power { power + suc power ≤ digits.now.depth }
    requires count { length multiples.now ≡ length digits.now.basis }
    requires multiples { AreMultiples digits.now (value_of digits.now factor.now) multiples.now }
    requires factor { IsDigitRow digits.now factor.now }
    requires row { IsDigitRow digits.now row.now }
    requires inside { (made : List ℕ) → IsDividedProduct digits.now power (mul digits.now.curve.prime (value_of digits.now factor.now) (value_of digits.now row.now)) made
        → IsInWhole products.now rest.old made }
    ensures kept { rest.new ≡ rest.old }
    ensures row { IfOk result (AreProductCoordinates digits.now power products.now rest.old (value_of digits.now factor.now) (value_of digits.now row.now)) }
{
    let _basis = digits.basis();
    let divided = divided_product(digits, power, factor, multiples, row)?;
    let found = coordinates(digits.allocator(), products, rest, divided.as_slice())?;
    Ok(found)
}

// The coordinates of the products of the factor and each row.
fn products_with(
    digits: &Digits,
    power: u32,
    products: &Space,
    rest: &mut Space,
    factor: &[u32],
    rows: &[List<u32>],
) -> Result<List<List<u32>>, NoMemory>
    requires power { power + suc power ≤ digits.now.depth }
    requires factor { IsDigitRow digits.now factor.now }
    requires rows { All (IsDigitRow digits.now) rows.now }
    requires inside { (j : ℕ) → j < length rows.now → (made : List ℕ)
        → IsDividedProduct digits.now power (mul digits.now.curve.prime (value_of digits.now factor.now) (value_of digits.now (slice_index_or rows.now j []))) made
        → IsInWhole products.now rest.old made }
    ensures kept { rest.new ≡ rest.old }
    ensures rows { IfOk result (AreProductsWith digits.now power products.now rest.old (value_of digits.now factor.now) (length rows.now) rows.now) }
{
    let multiples = digits.multiples(factor)?;
    let mut made = List::new(digits.allocator());
    for j in 0..rows.len() {
        let row = rows[j].as_slice();
        let found = product_coordinates(
            digits,
            power,
            products,
            rest,
            factor,
            multiples.as_slice(),
            row,
        )?;
        made.push(found)?;
    }
    Ok(made)
}

// The coordinates of the products of each two rows: row i n + j is that of the rows i and j, of n rows.
pub(crate) fn product_table(
    digits: &Digits,
    power: u32,
    products: &Space,
    rest: &mut Space,
    rows: &[List<u32>],
) -> Result<List<List<u32>>, NoMemory>
    requires power { power + suc power ≤ digits.now.depth }
    requires rows { All (IsDigitRow digits.now) rows.now }
    requires inside { HasCoordinates digits.now power products.now rest.old rows.now }
    ensures kept { rest.new ≡ rest.old }
    ensures table { IfOk result (IsProductTable digits.now power products.now rest.old rows.now (length rows.now)) }
{
    let mut table = List::new(digits.allocator());
    for i in 0..rows.len() {
        let factor = rows[i].as_slice();
        let mut made = products_with(digits, power, products, rest, factor, rows)?;
        table.append(&mut made)?;
    }
    Ok(table)
}
