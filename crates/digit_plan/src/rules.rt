// How the digits of each monomial outside the corners come from those of others.
ghost use Rattle.std.specs.Prelude.{◌≡◌, ◌⊎◌, ◌+◌, ◌*◌, ◌<◌, ◌≤◌, List, [], length, slice_index_or, All, Contains, IfNone, IfOk, OnOk, IfSome};
ghost use Rattle.std.specs.Bool.{MatchBool};
ghost use Rattle.monomials.specs.Mono.{Monomial};
ghost use Rattle.polys.specs.declared.term.Term.{Term};
ghost use Rattle.polys.specs.Curve.{IsOver};
ghost use Rattle.polys.specs.Poly.{Polynomial, terms_of};
ghost use Rattle.polys.specs.Terms.{EachMono, IsAffine, sub};
ghost use Rattle.lift_colon.specs.Lifted.{IsLift, IsLifted};
ghost use Rattle.standard_monomials.specs.Standard.{IsRising, polynomial_of};
ghost use Rattle.digit_plan.specs.Lifts.{curve_of_lifted};
ghost use Rattle.digit_plan.specs.Playing.{AreClosed, AreRising, AreVariables, HasLead, HasParent, HasQuotientIn, IsBorder, IsCovered, IsInPlay, chosen, seen};
ghost use Rattle.digit_plan.specs.Planned.{monomial_in, IsMultipleRule, IsPlaceIn, IsOutsidePlace, IsPlay, terms_in, AreInner, AreSharesIn, IsRuleIn, AreRulesIn, IsFoundIn, NamesOnly, AreFirstProducts};

use crate::plan::{Place, Rule, Share};
use crate::planning::{find, multiple, quotient};
use digit_space::Product;
use lift_colon::Lifted;
use lists::{List, NoMemory};
use monomials::Mono;
use polys::{Poly, Term};
use std::alloc::Global;
use std::cmp::Ordering;

/// The monomials whose digits are made, and the order in which variables are tried.
#[derive(Drop)]
pub struct Play {
    pub order: Vec<u32>,
    pub corners: List<Mono>,
    pub border: List<Mono>,
    /// A lift of each member of the basis of the ideal and the denominator.
    pub lifts: List<Poly>,
    pub outer: List<Mono>,
}

// What each product of a variable and a corner is.
pub(crate) fn products_of(
    alloc: Global,
    variables: u32,
    corners: &[Mono],
    border: &[Mono],
) -> Result<List<Product>, NoMemory>
    requires variables { variables ≤ 6 }
    requires corners { AreClosed variables corners.now }
    requires border { IsBorder variables corners.now border.now }
    ensures count { IfOk result (λ products. length products ≡ variables * length corners.now) }
    ensures each { IfOk result (AreFirstProducts corners.now border.now) }
{
    let mut products = List::new(alloc);
    for v in 0..variables {
        push_products(v, variables, corners, border, &mut products)?;
    }
    Ok(products)
}

// Appends the products of the variable `v` with the corners.
fn push_products(
    v: u32,
    variables: u32,
    corners: &[Mono],
    border: &[Mono],
    products: &mut List<Product>,
) -> Result<(), NoMemory>
    requires v { (v < variables) × (variables ≤ 6) }
    requires corners { AreClosed variables corners.now }
    requires border { IsBorder variables corners.now border.now }
    requires count { length products.old ≡ v * length corners.now }
    requires each { AreFirstProducts corners.now border.now products.old }
    ensures count { OnOk result (length products.new ≡ (v + 1) * length corners.now) }
    ensures each { OnOk result (AreFirstProducts corners.now border.now products.new) }
{
    let _variables = variables;
    for i in 0..corners.len() {
        let m = multiple(&corners[i], v);
        products.push(product_of(corners, border, &m))?;
    }
    Ok(())
}

// The corner or the monomial of the border that the monomial is.
fn product_of(corners: &[Mono], border: &[Mono], m: &Mono) -> Product
    requires corners { IsRising corners.now × (length corners.now ≤ 256) }
    requires border { IsRising border.now × (length border.now ≤ 1536) }
    requires inside { (Contains corners.now m.now → ⊥) → Contains border.now m.now }
    ensures { IsFoundIn corners.now border.now m.now result }
{
    match find(corners, m) {
        Some(i) => Product::Corner(i as u32),
        None => match find(border, m) {
            Some(j) => Product::Border(j as u32),
            None => unreachable!(),
        },
    }
}

// The place of the monomial outside the corners, within the border if that is asked.
fn outside_place(play: &Play, inside: bool, m: &Mono) -> Option<Place>
    requires { AreRising play.now.corners play.now.border play.now.outer }
    ensures inner { IfSome result (IsOutsidePlace play.now.border (seen inside play.now.outer)) }
    ensures some { IfSome result (λ place. IsOutsidePlace play.now.border play.now.outer place × (m.now ≡ monomial_in play.now.corners play.now.border play.now.outer place)) }
    ensures none { IfNone result (Contains play.now.border m.now ⊎ Contains (seen inside play.now.outer) m.now → ⊥) }
{
    if let Some(j) = find(play.border.as_slice(), m) {
        return Some(Place::Border(j));
    }
    if inside {
        return None;
    }
    match find(play.outer.as_slice(), m) {
        Some(j) => Some(Place::Outer(j)),
        None => None,
    }
}

// The place of the monomial, which has one.
fn place_of(play: &Play, m: &Mono) -> Place
    requires rising { AreRising play.now.corners play.now.border play.now.outer }
    requires known { IsInPlay play.now.corners play.now.border play.now.outer m.now }
    ensures place { IsPlaceIn play.now.corners play.now.border play.now.outer result }
    ensures monomial { m.now ≡ monomial_in play.now.corners play.now.border play.now.outer result }
    ensures inner { Contains play.now.corners m.now → IsPlaceIn play.now.corners [] [] result }
{
    if let Some(i) = find(play.corners.as_slice(), m) {
        return Place::Corner(i);
    }
    match outside_place(play, false, m) {
        Some(place) => place,
        None => unreachable!(),
    }
}

// The terms of the polynomial by their places.
fn shares_of(alloc: Global, play: &Play, f: &Poly) -> Result<List<Share>, NoMemory>
    requires rising { AreRising play.now.corners play.now.border play.now.outer }
    requires known { IsCovered play.now.corners play.now.border play.now.outer f.now.terms }
    ensures shares { IfOk result (AreSharesIn f.now.prime play.now.corners play.now.border play.now.outer) }
    ensures terms { IfOk result (λ shares. terms_in play.now.corners play.now.border play.now.outer shares ≡ f.now.terms) }
    ensures inner { EachMono (Contains play.now.corners) f.now.terms → IfOk result (AreInner play.now.corners) }
{
    let terms = f.terms();
    let mut shares = List::new(alloc);
    for i in 0..terms.len() {
        let term = terms[i];
        shares.push(Share {
            coeff: term.coeff,
            place: place_of(play, &term.mono),
        })?;
    }
    Ok(shares)
}

// The rule of a lead: with the lift u of the polynomial g of the basis, m is m - g + u d modulo the ideal.
fn lead_rule(
    alloc: Global,
    lifted: &Lifted,
    play: &Play,
    m: &Mono,
    g: &Poly,
    lift: &Poly,
) -> Result<Rule, NoMemory>
    requires known { IsLifted lifted.now }
    requires m { IsAffine lifted.now.variables m.now }
    requires over { IsOver lifted.now.prime lifted.now.variables g.now }
    requires prime { lift.now.prime ≡ lifted.now.prime }
    requires lift { IsLift lifted.now g.now.terms lift.now.terms }
    requires rising { AreRising play.now.corners play.now.border play.now.outer }
    requires inner { EachMono (Contains play.now.corners) (sub lifted.now.prime (polynomial_of m.now) g.now.terms) }
    requires tail { IsCovered play.now.corners play.now.border play.now.outer (sub lifted.now.prime (polynomial_of m.now) g.now.terms) }
    requires covered { IsCovered play.now.corners play.now.border play.now.outer lift.now.terms }
    ensures rule { IfOk result (IsRuleIn (curve_of_lifted lifted.now) play.now.corners play.now.border play.now.outer m.now) }
    ensures inner { (around : List Monomial) → IfOk result (NamesOnly play.now.corners play.now.border around) }
{
    let prime = lifted.prime();
    let _p = prime.get();
    let term = Term { coeff: 1, mono: *m };
    let lead = Poly::from_term(alloc, prime, term)?;
    let tail = lead.sub(g)?;
    let tail_shares = shares_of(alloc, play, &tail)?;
    let lift_shares = shares_of(alloc, play, lift)?;
    Ok(Rule::Lead(tail_shares, lift_shares))
}

// Whether the polynomial has this lead.
fn has_lead(f: &Poly, m: &Mono) -> bool
    ensures { MatchBool result (HasLead f.now.terms m.now) (HasLead f.now.terms m.now → ⊥) }
{
    match f.lead() {
        Some(t) => match Mono::cmp_dp(&t.mono, m) {
            Ordering::Equal => true,
            Ordering::Less => false,
            Ordering::Greater => false,
        },
        None => false,
    }
}

// The number of the polynomial with the lead `m`.
fn with_lead(basis: &[Poly], m: &Mono) -> Option<usize>
    ensures some { IfSome result (λ i. (i < length basis.now) × ((d : Polynomial) → HasLead (slice_index_or basis.now i d).terms m.now)) }
    ensures none { IfNone result ((g : List Term) → Contains (terms_of basis.now) g → HasLead g m.now → ⊥) }
{
    for i in 0..basis.len() {
        if has_lead(&basis[i], m) {
            return Some(i);
        }
    }
    None
}

// The rule by the variable, if the quotient has a place outside the corners.
fn rule_by(play: &Play, inside: bool, m: &Mono, v: u32) -> Option<Rule>
    requires v { v < 6 }
    requires rising { AreRising play.now.corners play.now.border play.now.outer }
    ensures some { IfSome result (IsMultipleRule v play.now.corners play.now.border play.now.outer m.now) }
    ensures inner { IfSome result (NamesOnly play.now.corners play.now.border (seen inside play.now.outer)) }
    ensures none { IfNone result (HasQuotientIn v play.now.border (seen inside play.now.outer) m.now → ⊥) }
{
    match quotient(m, v) {
        None => None,
        Some(w) => match outside_place(play, inside, &w) {
            None => None,
            Some(place) => Some(Rule::Multiple(v, place)),
        },
    }
}

// The rule by the first variable of the list whose quotient has a place outside the corners; there is one.
fn multiple_rule(lifted: &Lifted, play: &Play, inside: bool, m: &Mono) -> Rule
    requires variables { lifted.now.variables ≤ 6 }
    requires order { AreVariables lifted.now.variables play.now.order.items }
    requires rising { AreRising play.now.corners play.now.border play.now.outer }
    requires parent { HasParent lifted.now.variables play.now.border (seen inside play.now.outer) m.now }
    ensures rule { IsRuleIn (curve_of_lifted lifted.now) play.now.corners play.now.border play.now.outer m.now result }
    ensures inner { NamesOnly play.now.corners play.now.border (seen inside play.now.outer) result }
{
    let _variables = lifted.variables();
    let order = play.order.as_slice();
    for k in 0..order.len() {
        if let Some(rule) = rule_by(play, inside, m, order[k]) {
            return rule;
        }
    }
    unreachable!()
}

// The rule of the monomial: a lead has that of its polynomial in the basis, and another one comes from a quotient by a variable.
fn rule_of(
    alloc: Global,
    lifted: &Lifted,
    play: &Play,
    inside: bool,
    m: &Mono,
) -> Result<Rule, NoMemory>
    requires play { IsPlay lifted.now play.now }
    requires m { Contains (chosen inside play.now.border play.now.outer) m.now }
    ensures rule { IfOk result (IsRuleIn (curve_of_lifted lifted.now) play.now.corners play.now.border play.now.outer m.now) }
    ensures inner { IfOk result (NamesOnly play.now.corners play.now.border (seen inside play.now.outer)) }
{
    let basis = lifted.sum_basis();
    match with_lead(basis, m) {
        Some(i) => lead_rule(alloc, lifted, play, m, &basis[i], &play.lifts.as_slice()[i]),
        None => Ok(multiple_rule(lifted, play, inside, m)),
    }
}

// The rules of monomials of the border, or of outer ones.
pub(crate) fn rules_of(
    alloc: Global,
    lifted: &Lifted,
    play: &Play,
    inside: bool,
    monomials: &[Mono],
) -> Result<List<Rule>, NoMemory>
    requires play { IsPlay lifted.now play.now }
    requires each { All (Contains (chosen inside play.now.border play.now.outer)) monomials.now }
    ensures rules { IfOk result (AreRulesIn (curve_of_lifted lifted.now) play.now.corners play.now.border play.now.outer monomials.now) }
    ensures inner { IfOk result (All (NamesOnly play.now.corners play.now.border (seen inside play.now.outer))) }
{
    let mut rules = List::new(alloc);
    for i in 0..monomials.len() {
        let rule = rule_of(alloc, lifted, play, inside, &monomials[i])?;
        rules.push(rule)?;
    }
    Ok(rules)
}
