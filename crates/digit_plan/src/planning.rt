// The monomials outside the corners whose digits are needed.
ghost use Rattle.std.specs.Prelude.{◌≡◌, ℕ, ◌<◌, ◌≤◌, length, slice_index, slice_index_or, All, Contains, IfNone, IfOk, IfSome, OnOk};
ghost use Rattle.std.specs.Bool.{MatchBool};
ghost use Rattle.monomials.specs.declared.mono.TheConstants.{MAX_DEGREE};
ghost use Rattle.monomials.specs.Mono.{Monomial, unit, times, total_degree, variable};
ghost use Rattle.polys.specs.Curve.{HasDimModulo};
ghost use Rattle.polys.specs.Terms.{EachMono, IsAffine};
ghost use Rattle.standard_monomials.specs.Standard.{IsRising};
ghost use Rattle.digit_laws.specs.Digits.{AreCornersOf};
ghost use Rattle.digit_plan.specs.Lifts.{AreLifts, curve_of_lifted};
ghost use Rattle.digit_plan.specs.Playing.{AreClosed, AreLow, AreVariables, GainsOutside, GainsProducts, IsBorder, IsCovered, IsInPlay, IsOuter, IsQuotient};

use lift_colon::Lifted;
use lists::{List, NoMemory};
use monomials::Mono;
use polys::Poly;
use standard_monomials::{Standard, insert, standard_monomials};
use std::alloc::Global;

/// The greatest number of corners.
pub const MOST_CORNERS: u32 = 256;

/// The number of the monomial in the rising list.
pub fn find(list: &[Mono], m: &Mono) -> Option<usize>
    requires { IsRising list.now }
    ensures some { IfSome result (λ i. (i < length list.now) × (m.now ≡ slice_index_or list.now i unit)) }
    ensures none { IfNone result (Contains list.now m.now → ⊥) }
{
    match list.binary_search_by(|w| Mono::cmp_dp(w, m)) {
        Ok(i) => Some(i),
        Err(_) => None,
    }
}

// Whether the monomial is in the rising list.
fn holds(list: &[Mono], m: &Mono) -> bool
    requires { IsRising list.now }
    ensures { MatchBool result (Contains list.now m.now) (Contains list.now m.now → ⊥) }
{
    match find(list, m) {
        Some(_) => true,
        None => false,
    }
}

// The product with the variable `v`.
pub(crate) fn multiple(m: &Mono, v: u32) -> Mono
    requires v { v < 6 }
    requires room { total_degree m.now.exponents < MAX_DEGREE }
    ensures { result ≡ times m.now (variable v) }
{
    let _degree = m.degree();
    Mono::product(m, &Mono::var(v))
}

/// The quotient by the variable `v`, if it divides the monomial.
pub fn quotient(m: &Mono, v: u32) -> Option<Mono>
    requires { v < 6 }
    ensures some { IfSome result (λ w. times w (variable v) ≡ m.now) }
    ensures seven { IfSome result (λ w. length w.exponents ≡ 7) }
    ensures none { IfNone result (slice_index m.now.exponents v ≡ 0) }
{
    if m.exponent(v) == 0 {
        return None;
    }
    Some(Mono::quotient(m, &Mono::var(v)))
}

/// The corners of the ideal and the denominator of the bases, in rising order.
///
/// # Errors
/// Want of memory.
pub fn corners_of(alloc: Global, lifted: &Lifted) -> Result<List<Mono>, NoMemory>
    requires { (N : ℕ) × (N ≤ 256) × HasDimModulo (curve_of_lifted lifted.now) N }
    ensures { IfOk result (AreCornersOf (curve_of_lifted lifted.now)) }
{
    match standard_monomials(
        alloc,
        lifted.prime(),
        lifted.variables(),
        lifted.sum_basis(),
        MOST_CORNERS,
    )? {
        Standard::All(corners) => Ok(corners),
        Standard::Wide => unreachable!(),
        Standard::Infinite => unreachable!(),
    }
}

// The products of a variable and a corner that are no corners, in rising order.
pub(crate) fn border_of(
    alloc: Global,
    variables: u32,
    corners: &[Mono],
) -> Result<List<Mono>, NoMemory>
    requires variables { variables ≤ 6 }
    requires corners { AreClosed variables corners.now }
    ensures { IfOk result (IsBorder variables corners.now) }
{
    let mut border = Vec::new(alloc);
    for v in 0..variables {
        insert_products(v, corners, &mut border)?;
    }
    Ok(List::of_vec(border))
}

// Puts the products of the variable `v` and a corner that are no corners into the rising list.
fn insert_products(v: u32, corners: &[Mono], border: &mut Vec<Mono>) -> Result<(), NoMemory>
    requires v { v < 6 }
    requires low { AreLow corners.now }
    requires corners { IsRising corners.now }
    requires rising { IsRising border.old.items }
    ensures { OnOk result (GainsProducts v (length corners.now) corners.now border.old.items border.new.items) }
{
    for i in 0..corners.len() {
        insert_outside(corners, multiple(&corners[i], v), border)?;
    }
    Ok(())
}

// Puts the monomial at its place in the rising list, unless it is a corner or is there.
fn insert_outside(corners: &[Mono], m: Mono, border: &mut Vec<Mono>) -> Result<(), NoMemory>
    requires corners { IsRising corners.now }
    requires rising { IsRising border.old.items }
    ensures { OnOk result (GainsOutside corners.now m border.old.items border.new.items) }
{
    if holds(corners, &m) {
        return Ok(());
    }
    insert(border, m)?;
    Ok(())
}

// A lift of each member of the basis of the ideal and the denominator.
pub(crate) fn lifts_of(alloc: Global, lifted: &Lifted) -> Result<List<Poly>, NoMemory>
    ensures { IfOk result (AreLifts lifted.now) }
{
    let basis = lifted.sum_basis();
    let mut lifts = List::new(alloc);
    for i in 0..basis.len() {
        match lifted.lift(alloc, &basis[i])? {
            Some(lift) => lifts.push(lift)?,
            None => unreachable!(),
        }
    }
    Ok(lifts)
}

// The monomials of the lifts that are neither corners nor in the border, with their divisors down to the border, in rising
// order.
pub(crate) fn outer_of(
    alloc: Global,
    lifts: &[Poly],
    order: &[u32],
    corners: &[Mono],
    border: &[Mono],
) -> Result<List<Mono>, NoMemory>
    requires order { AreVariables (length order.now) order.now }
    requires six { length order.now ≤ 6 }
    requires corners { AreClosed (length order.now) corners.now }
    requires some { 0 < length corners.now }
    requires border { IsBorder (length order.now) corners.now border.now }
    requires lifts { All (λ f. EachMono (IsAffine (length order.now)) f.terms) lifts.now }
    ensures outer { IfOk result (IsOuter (length order.now) border.now) }
    ensures covered { IfOk result (λ outer. All (λ f. IsCovered corners.now border.now outer f.terms) lifts.now) }
{
    let mut outer = Vec::new(alloc);
    for i in 0..lifts.len() {
        insert_chains(order, corners, border, &lifts[i], &mut outer)?;
    }
    Ok(List::of_vec(outer))
}

// Puts the monomials of the polynomial and their quotients by variables into the list, down to those that are known.
fn insert_chains(
    order: &[u32],
    corners: &[Mono],
    border: &[Mono],
    f: &Poly,
    outer: &mut Vec<Mono>,
) -> Result<(), NoMemory>
    requires order { AreVariables (length order.now) order.now }
    requires six { length order.now ≤ 6 }
    requires corners { AreClosed (length order.now) corners.now }
    requires some { 0 < length corners.now }
    requires border { IsBorder (length order.now) corners.now border.now }
    requires affine { EachMono (IsAffine (length order.now)) f.now.terms }
    requires outer { IsOuter (length order.now) border.now outer.old.items }
    ensures outer { OnOk result (IsOuter (length order.now) border.now outer.new.items) }
    ensures kept { OnOk result ((w : Monomial) → Contains outer.old.items w → Contains outer.new.items w) }
    ensures covered { OnOk result (IsCovered corners.now border.now outer.new.items f.now.terms) }
{
    let terms = f.terms();
    for i in 0..terms.len() {
        insert_chain(order, corners, border, terms[i].mono, outer)?;
    }
    Ok(())
}

// Puts the monomial and its quotients by variables into the list, down to one that is known: 1 is a corner.
fn insert_chain(
    order: &[u32],
    corners: &[Mono],
    border: &[Mono],
    m: Mono,
    outer: &mut Vec<Mono>,
) -> Result<(), NoMemory>
    requires order { AreVariables (length order.now) order.now }
    requires six { length order.now ≤ 6 }
    requires corners { AreClosed (length order.now) corners.now }
    requires some { 0 < length corners.now }
    requires border { IsBorder (length order.now) corners.now border.now }
    requires affine { IsAffine (length order.now) m }
    requires outer { IsOuter (length order.now) border.now outer.old.items }
    ensures outer { OnOk result (IsOuter (length order.now) border.now outer.new.items) }
    ensures kept { OnOk result ((w : Monomial) → Contains outer.old.items w → Contains outer.new.items w) }
    ensures known { OnOk result (IsInPlay corners.now border.now outer.new.items m) }
{
    if is_known(corners, border, outer.as_slice(), &m) {
        return Ok(());
    }
    match first_quotient(order, &m) {
        Some(w) => {
            insert_chain(order, corners, border, w, outer)?;
            insert(outer, m)?;
            Ok(())
        }
        None => unreachable!(),
    }
}

// Whether the monomial is in one of the lists.
fn is_known(corners: &[Mono], border: &[Mono], outer: &[Mono], m: &Mono) -> bool
    requires corners { IsRising corners.now }
    requires border { IsRising border.now }
    requires outer { IsRising outer.now }
    ensures { MatchBool result (IsInPlay corners.now border.now outer.now m.now) (IsInPlay corners.now border.now outer.now m.now → ⊥) }
{
    holds(corners, m) || holds(border, m) || holds(outer, m)
}

// The quotient by the first variable of the list that divides the monomial.
fn first_quotient(order: &[u32], m: &Mono) -> Option<Mono>
    requires order { AreVariables (length order.now) order.now }
    requires six { length order.now ≤ 6 }
    requires affine { IsAffine (length order.now) m.now }
    ensures some { IfSome result (IsQuotient (length order.now) m.now) }
    ensures none { IfNone result (total_degree m.now.exponents ≡ 0) }
{
    for k in 0..order.len() {
        if let Some(w) = quotient(m, order[k]) {
            return Some(w);
        }
    }
    None
}

// How many products of the variable `v` and a corner are no corners.
fn border_count(alloc: Global, v: u32, corners: &[Mono]) -> Result<usize, NoMemory>
    requires v { v < 6 }
    requires low { AreLow corners.now }
    requires corners { IsRising corners.now }
{
    let mut outside = Vec::new(alloc);
    insert_products(v, corners, &mut outside)?;
    Ok(outside.len())
}

// The variables, those first that have the fewest products with corners outside the corners.
pub(crate) fn order_of(
    alloc: Global,
    variables: u32,
    corners: &[Mono],
) -> Result<Vec<u32>, NoMemory>
    requires variables { variables ≤ 6 }
    requires low { AreLow corners.now }
    requires corners { IsRising corners.now }
    ensures { IfOk result (λ order. AreVariables variables order.items) }
{
    let mut order: Vec<u32> = Vec::new(alloc);
    let mut counts: Vec<usize> = Vec::new(alloc);
    for v in 0..variables {
        let count = border_count(alloc, v, corners)?;
        let place = counts
            .iter()
            .position(|c| count < *c)
            .unwrap_or(counts.len());
        order.insert(place.min(order.len()), v)?;
        counts.insert(place, count)?;
    }
    Ok(order)
}
