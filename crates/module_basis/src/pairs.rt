// S-vectors of pairs, and the criteria that settle a pair without a division.
ghost use Rattle.std.specs.Prelude.{◌≡◌, ◌↔◌, ◌+◌, ◌<◌, ◌≤◌, ℕ, length, All, IsTrue, IfOk, slice_index_or};
ghost use Rattle.monomials.specs.declared.mono.TheConstants.{MAX_DEGREE};
ghost use Rattle.monomials.specs.Mono.{total_degree, Divides, IsMono};
ghost use Rattle.polys.specs.Terms.{EachMono, IsMonic};
ghost use Rattle.polys.specs.Poly.{IsVector, IsPlain, terms_of};
ghost use Rattle.graded_modules.specs.Vector.{degree_at, lead_mono};
ghost use Rattle.graded_modules.specs.SVector.{raised, lead_lcm, s_vector};
ghost use Rattle.module_basis.specs.Gens.{AreGens};
ghost use Rattle.module_division.specs.Division.{IsDivisor};
ghost use Rattle.module_division.specs.Vectors.{member};
ghost use Rattle.module_basis.specs.Growing.{AreOfOneComponent, IsPair, IsParted, IsSettledPair, IsSettledPairOf, IsGrown};

use crate::Gens;
use lists::NoMemory;
use module_division::{degree_at, lead_mono};
use monomials::Mono;
use polys::{Poly, Term};
use prime_field::Prime;
use std::alloc::Global;

// Two members of a list by their numbers, the smaller one first, and the degree of the least common multiple of their
// leads.
#[derive(Clone, Copy)]
pub(crate) struct Pair {
    pub(crate) first: usize,
    pub(crate) second: usize,
    pub(crate) degree: u64,
}

// The multiple of a monic vector whose lead is the multiple `m` of its lead.
fn raised(p: Prime, f: &Poly, m: &Mono) -> Result<Poly, NoMemory>
    requires divisor { IsDivisor p f.now }
    requires mono { IsMono m.now }
    requires divides { Divides (lead_mono f.now.terms) m.now }
    ensures prime { IfOk result (λ g. g.prime ≡ p) }
    ensures value { IfOk result (λ g. g.terms ≡ raised p f.now.terms m.now) }
{
    let cofactor = Mono::quotient(m, &lead_mono(f));
    let multiple = f.mul_term(Term {
        coeff: 1,
        mono: cofactor,
    })?;
    Ok(multiple)
}

// The S-vector of two monic vectors with leads of one component.
pub(crate) fn s_vector(gens: &Gens, f: &Poly, g: &Poly) -> Result<Poly, NoMemory>
    requires left { IsDivisor gens.now.prime f.now }
    requires right { IsDivisor gens.now.prime g.now }
    requires one_component { (lead_mono f.now.terms).component ≡ (lead_mono g.now.terms).component }
    requires room { total_degree (lead_lcm f.now.terms g.now.terms).exponents ≤ MAX_DEGREE }
    ensures prime { IfOk result (λ s. s.prime ≡ gens.now.prime) }
    ensures value { IfOk result (λ s. s.terms ≡ s_vector gens.now.prime f.now.terms g.now.terms) }
{
    let m = Mono::lcm(&lead_mono(f), &lead_mono(g));
    let first = raised(gens.prime, f, &m)?;
    let second = raised(gens.prime, g, &m)?;
    let difference = first.sub(&second)?;
    Ok(difference)
}

// Whether both are polynomials whose leads, with the least common multiple `m`, have no variable in common.
pub(crate) fn are_coprime(f: &Poly, g: &Poly, m: &Mono) -> bool
    ensures { IsTrue result ↔ ((total_degree m.now.exponents ≡ total_degree (lead_mono f.now.terms).exponents + total_degree (lead_mono g.now.terms).exponents) × EachMono IsPlain f.now.terms × EachMono IsPlain g.now.terms) }
{
    m.degree() == lead_mono(f).degree() + lead_mono(g).degree() && f.is_plain() && g.is_plain()
}

// The pairs of a degree, and the others.
#[derive(Drop)]
pub(crate) struct Parted {
    pub(crate) due: Vec<Pair>,
    pub(crate) later: Vec<Pair>,
}

// The pairs, parted by whether they have degree e.
pub(crate) fn part_by_degree(alloc: Global, pairs: &[Pair], e: u32) -> Result<Parted, NoMemory>
    ensures { IfOk result (λ parts. IsParted e pairs.now parts.due.items parts.later.items) }
{
    let mut due = Vec::new(alloc);
    let mut later = Vec::new(alloc);
    for k in 0..pairs.len() {
        let pair = pairs[k];
        if pair.degree == u64::from(e) {
            due.push(pair)?;
        } else {
            later.push(pair)?;
        }
    }
    Ok(Parted { due, later })
}

// Whether the chain criterion settles the pair: whether the lead of another vector divides the least common multiple of those
// of the pair, and its pairs with both of them are settled: they have lower degrees, or are among those that are done.
pub(crate) fn is_chained(gens: &Gens, basis: &[Poly], done: &[Pair], pair: Pair) -> bool
    requires gens { AreGens gens.now }
    requires grown { IsGrown gens.now pair.degree (terms_of basis.now) }
    requires low { pair.degree ≤ 1000 }
    requires pair { IsPair gens.now.shift (terms_of basis.now) pair }
    requires done { All (IsSettledPairOf gens.now (terms_of basis.now)) done.now }
    ensures { IsTrue result → IsSettledPair gens.now (terms_of basis.now) pair.first pair.second }
{
    let m = Mono::lcm(
        &lead_mono(&basis[pair.first]),
        &lead_mono(&basis[pair.second]),
    );
    for k in 0..basis.len() {
        if is_link(gens, basis, done, pair, &m, k) {
            return true;
        }
    }
    false
}

// Whether the lead of the vector with this number divides the least common multiple m of those of the pair, and its pairs with
// both of them are settled.
fn is_link(gens: &Gens, basis: &[Poly], done: &[Pair], pair: Pair, m: &Mono, k: usize) -> bool
    requires gens { AreGens gens.now }
    requires grown { IsGrown gens.now pair.degree (terms_of basis.now) }
    requires low { pair.degree ≤ 1000 }
    requires pair { IsPair gens.now.shift (terms_of basis.now) pair }
    requires done { All (IsSettledPairOf gens.now (terms_of basis.now)) done.now }
    requires common { m.now ≡ lead_lcm (member (terms_of basis.now) pair.first) (member (terms_of basis.now) pair.second) }
    requires inside { k < length basis.now }
    ensures { IsTrue result → IsSettledPair gens.now (terms_of basis.now) pair.first pair.second }
{
    let _prime = gens.prime.get();
    if !Mono::divides(&lead_mono(&basis[k]), m) {
        return false;
    }
    if !is_settled(gens, basis, done, pair.degree, pair.first, k) {
        return false;
    }
    is_settled(gens, basis, done, pair.degree, k, pair.second)
}

// Whether two vectors with leads of one component have a least common multiple of a degree below e, or are a pair that is done.
// A vector and itself are not.
fn is_settled(gens: &Gens, basis: &[Poly], done: &[Pair], e: u64, i: usize, j: usize) -> bool
    requires gens { AreGens gens.now }
    requires grown { IsGrown gens.now e (terms_of basis.now) }
    requires low { e ≤ 1000 }
    requires inside { (i < length basis.now) × (j < length basis.now) }
    requires one_component { AreOfOneComponent (terms_of basis.now) i j }
    requires done { All (IsSettledPairOf gens.now (terms_of basis.now)) done.now }
    ensures { IsTrue result → IsSettledPair gens.now (terms_of basis.now) i j }
{
    let _prime = gens.prime.get();
    if i == j {
        return false;
    }
    let m = Mono::lcm(&lead_mono(&basis[i]), &lead_mono(&basis[j]));
    degree_at(gens.shift, &m) < e || is_done(done, i.min(j), i.max(j))
}

// Whether the pair of the two numbers is in the list.
fn is_done(done: &[Pair], first: usize, second: usize) -> bool
    ensures { IsTrue result → (k : _) × (k < length done.now) × ((d : _) → ((slice_index_or done.now k d).first ≡ first) × ((slice_index_or done.now k d).second ≡ second)) }
{
    for k in 0..done.len() {
        if done[k].first == first && done[k].second == second {
            return true;
        }
    }
    false
}
