// The full division of a vector by monic ones.
ghost use Rattle.std.specs.Prelude.{◌≡◌, ◌+◌, ◌<◌, ◌≤◌, [], ◌∷◌, ◌++◌, length, map, All, IfOk, OnOk, MatchOption, slice_index_or};
ghost use Rattle.monomials.specs.declared.mono.TheConstants.{MAX_DEGREE};
ghost use Rattle.monomials.specs.Mono.{total_degree, Divides, IsMono};
ghost use Rattle.prime_field.specs.Primes.{IsPrime};
ghost use Rattle.polys.specs.Terms.{EachMono, add, mul, degree_of};
ghost use Rattle.polys.specs.Poly.{IsVector, IsPlain, terms_of};
ghost use Rattle.graded_modules.specs.Vector.{lead_mono};
ghost use Rattle.graded_modules.specs.Module.{IsLeadMultiple};
ghost use Rattle.module_division.specs.Division.{IsDivisor, Reduces, term_product};

use crate::leads::{find_divisor, lead_mono, lead_rows};
use monomials::Mono;
use polys::{Poly, Term};
use prime_field::Prime;
use std::alloc::{AllocError, Global};
use std::cmp::Ordering;
use std::mem;

// The product of two terms, of which the second has component 0.
fn term_product(p: Prime, u: &Term, t: &Term) -> Term
    requires left { u.now.coeff < p }
    requires right { t.now.coeff < p }
    requires plain { IsPlain t.now.mono }
    requires room { total_degree u.now.mono.exponents + total_degree t.now.mono.exponents ≤ MAX_DEGREE }
    ensures { result ≡ term_product p t.now u.now }
{
    Term {
        coeff: p.mul(u.coeff, t.coeff),
        mono: Mono::product(&u.mono, &t.mono),
    }
}

// Puts the products of t and the terms at the end of `out`.
fn append_multiple(
    p: Prime,
    t: &Term,
    terms: &[Term],
    out: &mut Vec<Term>,
) -> Result<(), AllocError>
    requires terms { IsVector p terms.now }
    requires residue { t.now.coeff < p }
    requires plain { IsPlain t.now.mono }
    requires room { degree_of terms.now + total_degree t.now.mono.exponents ≤ MAX_DEGREE }
    ensures { OnOk result (out.new.items ≡ out.old.items ++ map (term_product p t.now) terms.now) }
{
    for u in terms {
        out.push(term_product(p, u, t))?;
    }
    Ok(())
}

// Writes a + b into `out`, by one merge that takes one step for each term of both.
fn merge_sum(p: Prime, a: &[Term], b: &[Term], out: &mut Vec<Term>) -> Result<(), AllocError>
    requires left { IsVector p a.now }
    requires right { IsVector p b.now }
    ensures { OnOk result (out.new.items ≡ add p a.now b.now) }
{
    out.clear();
    let mut i: usize = 0;
    let mut j: usize = 0;
    while i < a.len() && j < b.len() {
        let s = a[i];
        let u = b[j];
        match Mono::cmp_dp(&s.mono, &u.mono) {
            Ordering::Greater => {
                out.push(s)?;
                i += 1;
            }
            Ordering::Less => {
                out.push(u)?;
                j += 1;
            }
            Ordering::Equal => {
                let coeff = p.add(s.coeff, u.coeff);
                if coeff != 0 {
                    out.push(Term {
                        coeff,
                        mono: s.mono,
                    })?;
                }
                i += 1;
                j += 1;
            }
        }
    }
    out.extend_from_slice(&a[i..])?;
    out.extend_from_slice(&b[j..])?;
    Ok(())
}

// Writes t b into `product`, and a + t b into `out`.
fn add_multiple(
    p: Prime,
    a: &[Term],
    t: &Term,
    b: &[Term],
    product: &mut Vec<Term>,
    out: &mut Vec<Term>,
) -> Result<(), AllocError>
    requires prime { IsPrime p }
    requires left { IsVector p a.now }
    requires right { IsVector p b.now }
    requires residue { t.now.coeff < p }
    requires not_zero { 0 < t.now.coeff }
    requires mono { IsMono t.now.mono }
    requires plain { IsPlain t.now.mono }
    requires room { degree_of b.now + total_degree t.now.mono.exponents ≤ MAX_DEGREE }
    ensures value { OnOk result (out.new.items ≡ add p a.now (mul p b.now (t.now ∷ []))) }
    ensures known { OnOk result (IsVector p out.new.items) }
{
    product.clear();
    append_multiple(p, t, b, product)?;
    merge_sum(p, a, product, out)?;
    Ok(())
}

/// What is left of the vector `v` when the leads of the divisors divide no monomial any more. The divisors are monic, and
/// no monomial of one has more degree than its lead, with unit vectors not counted.
///
/// It works in three buffers. Each step takes away one monomial: it looks at the divisors' leads, which it has put into one
/// flat list, until one divides it, and then makes a multiple of that divisor and merges what is left with it, one step for each term of both.
///
/// Greuel and Pfister, section on normal forms.
pub fn vector_remainder(
    alloc: Global,
    p: Prime,
    v: Vec<Term>,
    divisors: &[Poly],
) -> Result<Vec<Term>, AllocError>
    requires vector { IsVector p v.items }
    requires divisors { All (IsDivisor p) divisors.now }
    ensures reduces { IfOk result (λ r. Reduces p (terms_of divisors.now) v.items r.items) }
    ensures known { IfOk result (λ r. IsVector p r.items) }
    ensures outside { IfOk result (λ r. EachMono (λ m. IsLeadMultiple (terms_of divisors.now) m → ⊥) r.items) }
{
    let _prime = p.get();
    let mut rest = v;
    let mut next = Vec::new(alloc);
    let mut product = Vec::new(alloc);
    let mut out = Vec::new(alloc);
    let leads = lead_rows(alloc, divisors)?;
    let mut i: usize = 0;
    while i < rest.len() {
        let t = rest[i];
        match find_divisor(&leads, divisors, &t.mono) {
            None => {
                out.push(t)?;
                i += 1;
            }
            Some(k) => {
                let b = &divisors[k];
                let factor = Term {
                    coeff: p.neg(t.coeff),
                    mono: Mono::quotient(&t.mono, &lead_mono(b)),
                };
                let left = &rest[i..];
                add_multiple(p, left, &factor, b.terms(), &mut product, &mut next)?;
                mem::swap(&mut rest, &mut next);
                i = 0;
            }
        }
    }
    Ok(out)
}
