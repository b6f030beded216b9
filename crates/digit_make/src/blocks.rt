// One more block of the digits of a monomial, from those that are made.
ghost use Rattle.std.specs.Prelude.{◌≡◌, ℕ, ◌+◌, ◌-◌, ◌*◌, ◌%◌, ◌<◌, ◌≤◌, [], ◌∷◌, length, slice_index, slice_index_or, replicate, All, IfOk};
ghost use Rattle.lane_rows.specs.Rows.{AreResidues};
ghost use Rattle.monomials.specs.Mono.{unit, times, variable};
ghost use Rattle.polys.specs.Terms.{IsAffine};
ghost use Rattle.standard_monomials.specs.Standard.{polynomial_of};
ghost use Rattle.digit_make.specs.Blocks.{IsBlock, IsKnown};
ghost use Rattle.digit_plan.specs.Planned.{AreInner, IsPlaceIn, IsPlan, AreShares, IsPlace, IsRule, IsLeadSum, curve_of, monomial_at, sum_of};
ghost use Rattle.digit_make.specs.Rows.{HasBlock, HasBlockAt, HaveFactorRows, HaveProductRows, IsReadyFor, AreRowsOf, IsBlockRow, Adds, corners_multiple};

use crate::rows::Rows;
use digit_plan::{Place, Plan, Rule, Share};
use digit_space::Product;
use lane_rows::axpy;
use lists::NoMemory;
use monomials::Mono;
use std::alloc::Global;

pub(crate) fn zero_block(alloc: Global, length: usize) -> Result<Vec<u32>, NoMemory>
    ensures { IfOk result (λ row. row.items ≡ replicate length 0) }
{
    Ok(vec![in alloc; 0u32; length]?)
}

// Adds c times the block number `t` of the row to `out`.
fn add_row_block(p: u32, t: usize, c: u32, row: &[u32], out: &mut [u32])
    requires range { (2 ≤ p) × (p ≤ 32003) × (c < p) }
    requires deep { t ≤ 200 }
    requires few { length out.old ≤ 256 }
    requires row { AreResidues p row.now }
    requires made { length out.old * t + length out.old ≤ length row.now }
    requires out { AreResidues p out.old }
    ensures residues { AreResidues p out.new }
    ensures sum { (i : ℕ) → i < length out.old → slice_index out.new i ≡ (slice_index out.old i + c * slice_index row.now (length out.old * t + i)) % p }
{
    let start = out.len() * t;
    let end = start + out.len();
    axpy(p, c, &row[start..end], out);
}

// Adds c times the block number `t` of the corner number `i` to `out`.
fn add_corner_block(p: u32, t: usize, c: u32, i: usize, out: &mut [u32])
    requires range { (2 ≤ p) × (p ≤ 32003) × (c < p) }
    requires i { i < length out.old }
    requires out { AreResidues p out.old }
    ensures residues { AreResidues p out.new }
    ensures first { t ≡ 0 → slice_index out.new i ≡ (slice_index out.old i + c) % p }
    ensures others { (k : ℕ) → (k ≡ i → 0 < t) → slice_index out.new k ≡ slice_index out.old k }
{
    if t == 0 {
        out[i] = (out[i] + c) % p;
    }
}

// Adds c times the block number `t` of the monomial at the place to `out`.
fn add_block(plan: &Plan, rows: &Rows, place: Place, t: usize, c: u32, out: &mut [u32])
    requires plan { IsPlan plan.now }
    requires rows { AreRowsOf plan.now rows.now }
    requires place { IsPlace plan.now place }
    requires made { HasBlockAt plan.now rows.now t place }
    requires deep { t ≤ 200 }
    requires c { c < (curve_of plan.now).prime }
    requires out { IsBlockRow plan.now out.old }
    ensures fits { IsBlockRow plan.now out.new }
    ensures adds { Adds plan.now t out.old (record { coeff = c; mono = monomial_at plan.now place } ∷ []) out.new }
{
    let p = plan.curve.prime.get();
    match place {
        Place::Corner(i) => add_corner_block(p, t, c, i, out),
        Place::Border(j) => add_row_block(p, t, c, rows.border.as_slice()[j].as_slice(), out),
        Place::Outer(j) => add_row_block(p, t, c, rows.outer.as_slice()[j].as_slice(), out),
    }
}

// Adds the block number `t` of the sum of the shares to `out`.
fn add_shares(plan: &Plan, rows: &Rows, shares: &[Share], t: usize, out: &mut [u32])
    requires plan { IsPlan plan.now }
    requires rows { AreRowsOf plan.now rows.now }
    requires shares { AreShares plan.now shares.now }
    requires made { All (λ s. HasBlockAt plan.now rows.now t s.place) shares.now }
    requires deep { t ≤ 200 }
    requires out { IsBlockRow plan.now out.old }
    ensures fits { IsBlockRow plan.now out.new }
    ensures adds { Adds plan.now t out.old (sum_of plan.now shares.now) out.new }
{
    for k in 0..shares.len() {
        let share = shares[k];
        add_block(plan, rows, share.place, t, share.coeff, out);
    }
}

// Where the product of the variable `v` and the corner `i` is found.
fn product_place(plan: &Plan, v: u32, i: usize) -> Place
    requires plan { IsPlan plan.now }
    requires v { v < (curve_of plan.now).variables }
    requires i { i < length plan.now.corners }
    ensures place { IsPlace plan.now result }
    ensures inner { IsPlaceIn plan.now.corners plan.now.border [] result }
    ensures product { monomial_at plan.now result ≡ times (slice_index_or plan.now.corners i unit) (variable v) }
{
    match plan.products.as_slice()[v as usize * plan.corners.len() + i] {
        Product::Corner(j) => Place::Corner(j as usize),
        Product::Border(j) => Place::Border(j as usize),
    }
}

// Adds the block number `t` of the variable `v` times the sum of the corners, each times its factor, to `out`.
fn add_products(plan: &Plan, rows: &Rows, v: u32, factors: &[u32], t: usize, out: &mut [u32])
    requires plan { IsPlan plan.now }
    requires rows { AreRowsOf plan.now rows.now }
    requires v { v < (curve_of plan.now).variables }
    requires factors { IsBlockRow plan.now factors.now }
    requires made { HaveFactorRows plan.now rows.now t v factors.now }
    requires deep { t ≤ 200 }
    requires out { IsBlockRow plan.now out.old }
    ensures fits { IsBlockRow plan.now out.new }
    ensures adds { Adds plan.now t out.old (corners_multiple plan.now v factors.now) out.new }
{
    for i in 0..factors.len() {
        let c = factors[i];
        if c != 0 {
            add_block(plan, rows, product_place(plan, v, i), t, c, out);
        }
    }
}

// Puts the block number `t` of the variable `v` times the monomial `m`, whose row is given, into `out`, which is 0.
fn put_product_block(
    plan: &Plan,
    rows: &Rows,
    v: u32,
    m: &Mono,
    row: &[u32],
    t: usize,
    out: &mut [u32],
)
    requires plan { IsPlan plan.now }
    requires rows { AreRowsOf plan.now rows.now }
    requires v { v < (curve_of plan.now).variables }
    requires affine { IsAffine (curve_of plan.now).variables m.now }
    requires row { IsKnown (curve_of plan.now) plan.now.corners m.now row.now }
    requires long { HasBlock plan.now t row.now }
    requires products { HaveProductRows plan.now rows.now t v m.now }
    requires deep { t ≤ 200 }
    requires out { out.old ≡ replicate (length plan.now.corners) 0 }
    ensures { IsBlock (curve_of plan.now) plan.now.corners t (polynomial_of (times m.now (variable v))) out.new }
{
    let n = plan.corners.len();
    for r in 0..t + 1 {
        let start = n * (t - r);
        add_products(plan, rows, v, &row[start..start + n], r, out);
    }
}

// Puts the block number `t` of the lead `m`, which is the sum of the first shares plus d times that of the second ones, into
// `out`, which is 0.
fn put_lead_block(
    plan: &Plan,
    rows: &Rows,
    m: &Mono,
    tail: &[Share],
    lift: &[Share],
    t: usize,
    out: &mut [u32],
)
    requires plan { IsPlan plan.now }
    requires rows { AreRowsOf plan.now rows.now }
    requires affine { IsAffine (curve_of plan.now).variables m.now }
    requires tail { AreShares plan.now tail.now }
    requires lift { AreShares plan.now lift.now }
    requires lead { IsLeadSum plan.now m.now tail.now lift.now }
    requires inner { AreInner plan.now.corners tail.now }
    requires made { 0 < t → All (λ s. HasBlockAt plan.now rows.now (t - 1) s.place) lift.now }
    requires deep { t ≤ 200 }
    requires out { out.old ≡ replicate (length plan.now.corners) 0 }
    ensures { IsBlock (curve_of plan.now) plan.now.corners t (polynomial_of m.now) out.new }
{
    if 0 < t {
        add_shares(plan, rows, lift, t - 1, out);
    }
    add_shares(plan, rows, tail, t, out);
}

// Puts the block number `t` of the monomial `m` with the rule into `out`, which is 0.
fn put_block(plan: &Plan, rows: &Rows, m: &Mono, rule: &Rule, t: usize, out: &mut [u32])
    requires plan { IsPlan plan.now }
    requires rows { AreRowsOf plan.now rows.now }
    requires affine { IsAffine (curve_of plan.now).variables m.now }
    requires rule { IsRule plan.now m.now rule.now }
    requires ready { IsReadyFor plan.now rows.now t rule.now }
    requires deep { t ≤ 200 }
    requires out { out.old ≡ replicate (length plan.now.corners) 0 }
    ensures { IsBlock (curve_of plan.now) plan.now.corners t (polynomial_of m.now) out.new }
{
    match rule {
        Rule::Lead(tail, lift) => {
            put_lead_block(plan, rows, m, tail.as_slice(), lift.as_slice(), t, out)
        }
        Rule::Multiple(v, place) => match *place {
            Place::Corner(_) => unreachable!(),
            Place::Border(j) => {
                let factor = &plan.border.as_slice()[j];
                put_product_block(
                    plan,
                    rows,
                    *v,
                    factor,
                    rows.border.as_slice()[j].as_slice(),
                    t,
                    out,
                )
            }
            Place::Outer(j) => {
                let factor = &plan.outer.as_slice()[j];
                put_product_block(
                    plan,
                    rows,
                    *v,
                    factor,
                    rows.outer.as_slice()[j].as_slice(),
                    t,
                    out,
                )
            }
        },
    }
}

// Block number `t` of the monomial `m` with the rule.
pub(crate) fn block_of(
    alloc: Global,
    plan: &Plan,
    rows: &Rows,
    m: &Mono,
    rule: &Rule,
    t: usize,
) -> Result<Vec<u32>, NoMemory>
    requires plan { IsPlan plan.now }
    requires rows { AreRowsOf plan.now rows.now }
    requires affine { IsAffine (curve_of plan.now).variables m.now }
    requires rule { IsRule plan.now m.now rule.now }
    requires ready { IsReadyFor plan.now rows.now t rule.now }
    requires deep { t ≤ 200 }
    ensures { IfOk result (λ block. IsBlock (curve_of plan.now) plan.now.corners t (polynomial_of m.now) block.items) }
{
    let mut block = zero_block(alloc, plan.corners.len())?;
    put_block(plan, rows, m, rule, t, block.as_mut_slice());
    Ok(block)
}
