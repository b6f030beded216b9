// Rows that grow block by block.
ghost use Rattle.std.specs.Prelude.{◌≡◌, ◌++◌, ◌+◌, ◌*◌, ◌-◌, ◌<◌, ◌≤◌, [], length, slice_index_or, slice_set, IfOk, OnOk};
ghost use Rattle.digit_make.specs.Blocks.{AreGrown, AreLong, HaveBlocks};
ghost use Rattle.digit_plan.specs.Planned.{IsPlan};
ghost use Rattle.digit_make.specs.Rows.{AreRowsOf};

use crate::blocks::block_of;
use crate::rows::Rows;
use digit_plan::Plan;
use lists::{List, NoMemory};
use std::alloc::Global;
use std::mem;

// The row with the block behind it.
pub(crate) fn longer(row: List<u32>, block: &[u32]) -> Result<List<u32>, NoMemory>
    ensures { IfOk result (λ made. made ≡ row ++ block.now) }
{
    let mut row = row;
    row.extend_from_slice(block)?;
    Ok(row)
}

// Puts the block behind the row number `j`.
fn lengthen(alloc: Global, rows: &mut [List<u32>], j: usize, block: &[u32]) -> Result<(), NoMemory>
    requires { j < length rows.old }
    ensures { OnOk result (rows.new ≡ slice_set rows.old j (slice_index_or rows.old j [] ++ block.now)) }
{
    let row = mem::replace(&mut rows[j], List::new(alloc));
    rows[j] = longer(row, block)?;
    Ok(())
}

// The rows with the block behind that number `j`.
fn with_longer(
    alloc: Global,
    list: List<List<u32>>,
    j: usize,
    block: &[u32],
) -> Result<List<List<u32>>, NoMemory>
    requires { j < length list }
    ensures { IfOk result (λ made. made ≡ slice_set list j (slice_index_or list j [] ++ block.now)) }
{
    let mut rows = list.into_vec();
    lengthen(alloc, rows.as_mut_slice(), j, block)?;
    Ok(List::of_vec(rows))
}

// Adds the block number `t` to the row number `j` of the border, if it has just the blocks before; no row has more than `most` blocks.
fn grow_border_row(
    alloc: Global,
    plan: &Plan,
    rows: &mut Rows,
    t: usize,
    most: usize,
    j: usize,
) -> Result<(), NoMemory>
    requires plan { IsPlan plan.now }
    requires rows { AreRowsOf plan.now rows.old }
    requires deep { (t < most) × (most ≤ 200) }
    requires grown { AreGrown (length plan.now.corners) t most j rows.old.border }
    requires outer { AreGrown (length plan.now.corners) t (most - 1) 0 rows.old.outer }
    requires j { j < length plan.now.border }
    ensures rows { OnOk result (AreRowsOf plan.now rows.new) }
    ensures grown { OnOk result (AreGrown (length plan.now.corners) t most (j + 1) rows.new.border) }
    ensures outer { OnOk result (rows.new.outer ≡ rows.old.outer) }
{
    if rows.border.as_slice()[j].len() != plan.corners.len() * t {
        return Ok(());
    }
    let monomial = &plan.border.as_slice()[j];
    let rule = &plan.border_rules.as_slice()[j];
    let block = block_of(alloc, plan, rows, monomial, rule, t)?;
    let list = mem::replace(&mut rows.border, List::new(alloc));
    rows.border = with_longer(alloc, list, j, block.as_slice())?;
    Ok(())
}

// Adds the block number `t` to the outer row number `j`, if it has just the blocks before; no row has more than `most` blocks.
fn grow_outer_row(
    alloc: Global,
    plan: &Plan,
    rows: &mut Rows,
    t: usize,
    most: usize,
    j: usize,
) -> Result<(), NoMemory>
    requires plan { IsPlan plan.now }
    requires rows { AreRowsOf plan.now rows.old }
    requires deep { (t < most) × (most ≤ 200) }
    requires grown { AreGrown (length plan.now.corners) t most j rows.old.outer }
    requires border { AreGrown (length plan.now.corners) (t + 1) (most + 1) 0 rows.old.border }
    requires j { j < length plan.now.outer }
    ensures rows { OnOk result (AreRowsOf plan.now rows.new) }
    ensures grown { OnOk result (AreGrown (length plan.now.corners) t most (j + 1) rows.new.outer) }
    ensures border { OnOk result (rows.new.border ≡ rows.old.border) }
{
    if rows.outer.as_slice()[j].len() != plan.corners.len() * t {
        return Ok(());
    }
    let monomial = &plan.outer.as_slice()[j];
    let rule = &plan.outer_rules.as_slice()[j];
    let block = block_of(alloc, plan, rows, monomial, rule, t)?;
    let list = mem::replace(&mut rows.outer, List::new(alloc));
    rows.outer = with_longer(alloc, list, j, block.as_slice())?;
    Ok(())
}

// Adds the block number `t` to each row of the border that lacks it.
fn grow_border(
    alloc: Global,
    plan: &Plan,
    rows: &mut Rows,
    t: usize,
    most: usize,
) -> Result<(), NoMemory>
    requires plan { IsPlan plan.now }
    requires rows { AreRowsOf plan.now rows.old }
    requires deep { (t < most) × (most ≤ 200) }
    requires grown { AreGrown (length plan.now.corners) t most 0 rows.old.border }
    requires outer { AreGrown (length plan.now.corners) t (most - 1) 0 rows.old.outer }
    ensures rows { OnOk result (AreRowsOf plan.now rows.new) }
    ensures grown { OnOk result (AreGrown (length plan.now.corners) (t + 1) most 0 rows.new.border) }
    ensures outer { OnOk result (rows.new.outer ≡ rows.old.outer) }
{
    for j in 0..plan.border.len() {
        grow_border_row(alloc, plan, rows, t, most, j)?;
    }
    Ok(())
}

// Gives each outer row that lacks it its block number `t` - 1, if 0 < t: so each has `t` blocks.
fn grow_outer(
    alloc: Global,
    plan: &Plan,
    rows: &mut Rows,
    t: usize,
    most: usize,
) -> Result<(), NoMemory>
    requires plan { IsPlan plan.now }
    requires rows { AreRowsOf plan.now rows.old }
    requires deep { (t ≤ most) × (most ≤ 200) }
    requires grown { AreGrown (length plan.now.corners) (t - 1) most 0 rows.old.outer }
    requires border { AreGrown (length plan.now.corners) t (most + 1) 0 rows.old.border }
    ensures rows { OnOk result (AreRowsOf plan.now rows.new) }
    ensures grown { OnOk result (AreGrown (length plan.now.corners) t most 0 rows.new.outer) }
    ensures border { OnOk result (rows.new.border ≡ rows.old.border) }
{
    if t == 0 {
        return Ok(());
    }
    for j in 0..plan.outer.len() {
        grow_outer_row(alloc, plan, rows, t - 1, most, j)?;
    }
    Ok(())
}

// Makes the rows of the border as deep as wanted, and the outer ones less deep by 1.
//
// A block needs those of smaller monomials at the same power of d, and others at smaller powers: so the powers come one
// after the other, and for each the monomials in rising order.
pub(crate) fn grow(
    alloc: Global,
    plan: &Plan,
    rows: &mut Rows,
    depth: usize,
) -> Result<(), NoMemory>
    requires plan { IsPlan plan.now }
    requires rows { AreRowsOf plan.now rows.old }
    requires deep { depth ≤ 200 }
    requires border { HaveBlocks (length plan.now.corners) 0 depth rows.old.border }
    requires outer { HaveBlocks (length plan.now.corners) 0 (depth - 1) rows.old.outer }
    ensures rows { OnOk result (AreRowsOf plan.now rows.new) }
    ensures border { OnOk result (AreLong (length plan.now.corners * depth) rows.new.border) }
    ensures outer { OnOk result (AreLong (length plan.now.corners * (depth - 1)) rows.new.outer) }
{
    for t in 0..depth {
        grow_outer(alloc, plan, rows, t, depth - 1)?;
        grow_border(alloc, plan, rows, t, depth)?;
    }
    Ok(())
}
