// Digits of the same curve at a greater depth, begun with the rows that are kept.
ghost use Rattle.std.specs.Prelude.{◌≡◌, ◌++◌, ◌-◌, ◌≤◌, ◌<◌, length, replicate, All, IfOk, IfSome};
ghost use Rattle.polys.specs.Curve.{data_of};
ghost use Rattle.polys.specs.Terms.{IsAffine};
ghost use Rattle.digit_space.specs.Model.{AreFirstDigits};
ghost use Rattle.standard_monomials.specs.Standard.{polynomial_of};
ghost use Rattle.digit_make.specs.Blocks.{AreKnown, HasBlocks, HaveBlocks, IsKnown};
ghost use Rattle.digit_plan.specs.Lifts.{IsLiftedOf};
ghost use Rattle.digit_make.specs.Making.{HasFirstBlocks};

use crate::blocks::zero_block;
use crate::growing::longer;
use crate::making::{digits_from, no_digits};
use crate::rows::Rows;
use digit_plan::{find, plan_of, quotient};
use digit_space::Digits;
use lift_colon::Lifted;
use lists::{List, NoMemory};
use monomials::Mono;
use std::alloc::Global;
use std::cmp::Ordering;

// The row with zeros behind it, as many as it lacks.
fn padded(alloc: Global, wide: usize, row: &[u32]) -> Result<List<u32>, NoMemory>
    ensures { IfOk result (λ made. made ≡ row.now ++ replicate (wide - length row.now) 0) }
{
    let zeros = zero_block(alloc, wide.saturating_sub(row.len()))?;
    longer(List::from_slice(alloc, row)?, zeros.as_slice())
}

// The digits of the monomial without the zeros at their end, if it is the variable `v` times a corner and is none.
fn product_row<'a>(digits: &'a Digits, v: u32, m: &Mono) -> Option<&'a [u32]>
    requires six { v < 6 }
    requires v { v < digits.now.curve.variables }
    ensures { IfSome result (λ row. AreFirstDigits digits.now (polynomial_of m.now) row.now) }
{
    let factor = quotient(m, v)?;
    let i = find(digits.basis(), &factor)?;
    digits.border_row(v, i)
}

// The digits of the monomial as far as the border rows have them.
fn border_row(alloc: Global, digits: &Digits, m: &Mono) -> Result<List<u32>, NoMemory>
    requires { IsAffine digits.now.curve.variables m.now }
    ensures known { IfOk result (IsKnown (data_of digits.now.curve) digits.now.basis m.now) }
    ensures blocks { IfOk result (HasBlocks (length digits.now.basis) 0 digits.now.depth) }
{
    let wide = digits.basis().len() * digits.depth() as usize;
    for v in 0..digits.curve().variables {
        if let Some(row) = product_row(digits, v, m) {
            return padded(alloc, wide, row);
        }
    }
    Ok(List::new(alloc))
}

// The digits of the outer row number `j`, if it is the monomial's.
fn digits_at<'a>(digits: &'a Digits, j: usize, m: &Mono) -> Option<&'a [u32]>
    ensures known { IfSome result (λ row. IsKnown (data_of digits.now.curve) digits.now.basis m.now row.now) }
    ensures blocks { IfSome result (λ row. HasBlocks (length digits.now.basis) 0 (digits.now.depth - 1) row.now) }
{
    let outer = digits.outer();
    if outer.len() <= j {
        return None;
    }
    match Mono::cmp_dp(&outer[j].monomial, m) {
        Ordering::Equal => Some(outer[j].digits.as_slice()),
        Ordering::Less => None,
        Ordering::Greater => None,
    }
}

// The digits of the monomial that an outer row has, if it is among them.
fn outer_digits<'a>(digits: &'a Digits, m: &Mono) -> Option<&'a [u32]>
    ensures known { IfSome result (λ row. IsKnown (data_of digits.now.curve) digits.now.basis m.now row.now) }
    ensures blocks { IfSome result (λ row. HasBlocks (length digits.now.basis) 0 (digits.now.depth - 1) row.now) }
{
    match digits
        .outer()
        .binary_search_by(|row| Mono::cmp_dp(&row.monomial, m))
    {
        Ok(j) => digits_at(digits, j, m),
        Err(_) => None,
    }
}

// The digits of the monomial as far as the outer rows have them.
fn outer_row(alloc: Global, digits: &Digits, m: &Mono) -> Result<List<u32>, NoMemory>
    requires { IsAffine digits.now.curve.variables m.now }
    ensures known { IfOk result (IsKnown (data_of digits.now.curve) digits.now.basis m.now) }
    ensures blocks { IfOk result (HasBlocks (length digits.now.basis) 0 (digits.now.depth - 1)) }
{
    let _basis = digits.basis();
    match outer_digits(digits, m) {
        Some(row) => List::from_slice(alloc, row),
        None => Ok(List::new(alloc)),
    }
}

// The digits of the monomials of the border as far as they are kept.
fn border_rows(
    alloc: Global,
    digits: &Digits,
    monomials: &[Mono],
) -> Result<List<List<u32>>, NoMemory>
    requires { All (IsAffine digits.now.curve.variables) monomials.now }
    ensures known { IfOk result (AreKnown (data_of digits.now.curve) digits.now.basis monomials.now) }
    ensures blocks { IfOk result (HaveBlocks (length digits.now.basis) 0 digits.now.depth) }
{
    let mut rows = List::new(alloc);
    for j in 0..monomials.len() {
        let row = border_row(alloc, digits, &monomials[j])?;
        rows.push(row)?;
    }
    Ok(rows)
}

// The digits of the outer monomials as far as they are kept.
fn outer_rows(
    alloc: Global,
    digits: &Digits,
    monomials: &[Mono],
) -> Result<List<List<u32>>, NoMemory>
    requires { All (IsAffine digits.now.curve.variables) monomials.now }
    ensures known { IfOk result (AreKnown (data_of digits.now.curve) digits.now.basis monomials.now) }
    ensures blocks { IfOk result (HaveBlocks (length digits.now.basis) 0 (digits.now.depth - 1)) }
{
    let mut rows = List::new(alloc);
    for j in 0..monomials.len() {
        let row = outer_row(alloc, digits, &monomials[j])?;
        rows.push(row)?;
    }
    Ok(rows)
}

/// The digits of the same curve at the depth t, at least that of the digits and at most 200. Those of each polynomial begin
/// with its digits at the smaller depth.
///
/// The rows that the digits keep are begun with, so that only blocks behind them are made. With N corners, b of whose
/// products by a variable are no corners on the average, with M such products and monomials of the lifts in all, and from
/// the depth s on, it takes at most b M N (t - s) t multiplications, and one lift of each lead.
///
/// # Errors
/// Want of memory.
///
/// Greuel and Pfister, sections on standard bases and on lifts.
pub fn extended(digits: &Digits, lifted: &Lifted, t: u32) -> Result<Digits, NoMemory>
    requires lifted { IsLiftedOf digits.now.curve lifted.now }
    requires deeper { digits.now.depth ≤ t }
    requires depth { t ≤ 200 }
    ensures curve { IfOk result (λ g. g.curve ≡ digits.now.curve) }
    ensures basis { IfOk result (λ g. g.basis ≡ digits.now.basis) }
    ensures depth { IfOk result (λ g. g.depth ≡ t) }
    ensures blocks { IfOk result (HasFirstBlocks digits.now) }
{
    let alloc = digits.allocator();
    let corners = List::from_slice(alloc, digits.basis())?;
    if corners.len() == 0 {
        return no_digits(alloc, digits.curve(), corners, t);
    }
    let plan = plan_of(alloc, digits.curve(), lifted, corners)?;
    let rows = Rows {
        border: border_rows(alloc, digits, plan.border.as_slice())?,
        outer: outer_rows(alloc, digits, plan.outer.as_slice())?,
    };
    digits_from(alloc, plan, rows, t)
}
