// Digits of a curve, and deeper ones.
ghost use Rattle.std.specs.Prelude.{◌≡◌, ◌++◌, ◌*◌, ◌-◌, ◌<◌, ◌≤◌, [], length, replicate, IfOk};
ghost use Rattle.polys.specs.Curve.{Fit, data_of};
ghost use Rattle.digit_laws.specs.Digits.{AreCornersOf};
ghost use Rattle.digit_make.specs.Blocks.{AreLong, HaveBlocks};
ghost use Rattle.digit_plan.specs.Lifts.{IsLiftedOf};
ghost use Rattle.digit_make.specs.Making.{AreTrimmed, AreOuter};
ghost use Rattle.digit_plan.specs.Planned.{IsPlan};
ghost use Rattle.digit_make.specs.Rows.{AreRowsOf};

use crate::growing::grow;
use crate::rows::Rows;
use digit_plan::{Plan, corners_of, plan_of};
use digit_space::{Digits, OuterRow};
use lift_colon::Lifted;
use lists::{List, NoMemory};
use monomials::Mono;
use polys::Curve;
use std::alloc::Global;
use std::sync::Arc;

// As many empty rows.
pub(crate) fn empty_rows(alloc: Global, count: usize) -> Result<List<List<u32>>, NoMemory>
    ensures { IfOk result (λ rows. rows ≡ replicate count []) }
{
    let mut rows = List::new(alloc);
    for i in 0..count {
        let _number = i;
        rows.push(List::new(alloc))?;
    }
    Ok(rows)
}

// The row without the zeros at its end.
fn trimmed(alloc: Global, row: &[u32]) -> Result<List<u32>, NoMemory>
    ensures short { IfOk result (λ made. length made ≤ length row.now) }
    ensures zeros { IfOk result (λ made. made ++ replicate (length row.now - length made) 0 ≡ row.now) }
{
    let mut end = row.len();
    while 0 < end && row[end - 1] == 0 {
        end -= 1;
    }
    let made = List::from_slice(alloc, &row[..end])?;
    Ok(made)
}

// The rows of the border, each of the length, without the zeros at their ends.
fn border_rows(alloc: Global, wide: usize, rows: &[List<u32>]) -> Result<List<List<u32>>, NoMemory>
    requires { AreLong wide rows.now }
    ensures { IfOk result (AreTrimmed wide rows.now) }
{
    let _wide = wide;
    let mut border = List::new(alloc);
    for j in 0..rows.len() {
        let row = trimmed(alloc, rows[j].as_slice())?;
        border.push(row)?;
    }
    Ok(border)
}

// The monomial with its row.
fn outer_row(alloc: Global, monomial: &Mono, row: &[u32]) -> Result<OuterRow, NoMemory>
    ensures monomial { IfOk result (λ made. made.monomial ≡ monomial.now) }
    ensures digits { IfOk result (λ made. made.digits ≡ row.now) }
{
    let digits = List::from_slice(alloc, row)?;
    Ok(OuterRow {
        monomial: *monomial,
        digits,
    })
}

// The outer monomials with their rows, each of the length.
fn outer_rows(
    alloc: Global,
    wide: usize,
    monomials: &[Mono],
    rows: &[List<u32>],
) -> Result<List<OuterRow>, NoMemory>
    requires count { length rows.now ≡ length monomials.now }
    requires long { AreLong wide rows.now }
    ensures { IfOk result (AreOuter wide monomials.now rows.now) }
{
    let _wide = wide;
    let mut outer = List::new(alloc);
    for j in 0..monomials.len() {
        let made = outer_row(alloc, &monomials[j], rows[j].as_slice())?;
        outer.push(made)?;
    }
    Ok(outer)
}

// The digits of the plan's curve at the depth, from rows that may be begun.
pub(crate) fn digits_from(
    alloc: Global,
    plan: Plan,
    rows: Rows,
    depth: u32,
) -> Result<Digits, NoMemory>
    requires plan { IsPlan plan }
    requires rows { AreRowsOf plan rows }
    requires depth { depth ≤ 200 }
    requires border { HaveBlocks (length plan.corners) 0 depth rows.border }
    requires outer { HaveBlocks (length plan.corners) 0 (depth - 1) rows.outer }
    ensures { IfOk result (λ g. g ≡ record { curve = plan.curve.value; basis = plan.corners; depth = depth }) }
{
    let mut rows = rows;
    grow(alloc, &plan, &mut rows, depth as usize)?;
    let n = plan.corners.len();
    let border = border_rows(alloc, n * depth as usize, rows.border.as_slice())?;
    let before = (depth as usize).saturating_sub(1);
    let outer = outer_rows(
        alloc,
        n * before,
        plan.outer.as_slice(),
        rows.outer.as_slice(),
    )?;
    Ok(Digits::of_products(
        plan.curve,
        plan.corners,
        depth,
        plan.products,
        border,
        outer,
    ))
}

// The digits where 1 is in the ideal of the curve and the denominator: all rows are empty.
pub(crate) fn no_digits(
    alloc: Global,
    curve: &Arc<Curve>,
    corners: List<Mono>,
    depth: u32,
) -> Result<Digits, NoMemory>
    requires fit { Fit curve.now.value }
    requires corners { AreCornersOf (data_of curve.now.value) corners }
    requires none { corners ≡ [] }
    requires depth { depth ≤ 200 }
    ensures { IfOk result (λ g. g ≡ record { curve = curve.now.value; basis = corners; depth = depth }) }
{
    let _p = curve.prime.get();
    Ok(Digits::of_products(
        Arc::try_clone(curve)?,
        corners,
        depth,
        List::new(alloc),
        List::new(alloc),
        List::new(alloc),
    ))
}

/// The digits of the curve at the depth t, at most 200, with the rows from which `extended` goes on.
///
/// Each lead of the basis is lifted once; the digits of the other products of a variable and a corner, and of the
/// monomials that the lifts need, come from smaller ones, power of d by power of d. With N corners, b of whose products by
/// a variable are no corners on the average, and with M such products and monomials in all, it takes at most b M N t^2
/// multiplications.
///
/// # Errors
/// Want of memory.
///
/// Greuel and Pfister, sections on standard bases and on lifts.
pub fn make(alloc: Global, curve: &Arc<Curve>, lifted: &Lifted, t: u32) -> Result<Digits, NoMemory>
    requires fit { Fit curve.now.value }
    requires lifted { IsLiftedOf curve.now.value lifted.now }
    requires depth { t ≤ 200 }
    ensures curve { IfOk result (λ g. g.curve ≡ curve.now.value) }
    ensures depth { IfOk result (λ g. g.depth ≡ t) }
{
    let corners = corners_of(alloc, lifted)?;
    if corners.len() == 0 {
        return no_digits(alloc, curve, corners, t);
    }
    let plan = plan_of(alloc, curve, lifted, corners)?;
    let rows = Rows {
        border: empty_rows(alloc, plan.border.len())?,
        outer: empty_rows(alloc, plan.outer.len())?,
    };
    digits_from(alloc, plan, rows, t)
}
