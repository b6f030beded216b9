// Operations on falling lists of terms, below the type `Poly`.
ghost use Rattle.std.specs.Prelude.{◌≡◌, ◌+◌, ◌*◌, ◌<◌, ◌≤◌, [], ◌∷◌, ◌↔◌, IfOk, IsTrue};
ghost use Rattle.monomials.specs.declared.mono.TheConstants.{MAX_DEGREE};
ghost use Rattle.monomials.specs.Mono.{IsMono, total_degree};
ghost use Rattle.polys.specs.Terms.{add, multiple, mul, one, power, derivative, degree_of, EachMono, IsAffine, IsMonicOf};
ghost use Rattle.polys.specs.Poly.{IsVector, IsPlain};

use crate::Term;
use monomials::Mono;
use prime_field::Prime;
use std::alloc::{AllocError, Global};
use std::cmp::Ordering;

// The polynomial 1.
pub fn one(alloc: Global, p: Prime) -> Result<Vec<Term>, AllocError>
    ensures value { IfOk result (λ v. v.items ≡ one) }
    ensures known { IfOk result (λ v. IsVector p v.items) }
{
    let _modulus = p.get();
    let mut out = Vec::new(alloc);
    out.push(Term {
        coeff: 1,
        mono: Mono::one(),
    })?;
    Ok(out)
}

// The sum, by one merge.
pub fn sum(alloc: Global, p: Prime, a: &[Term], b: &[Term]) -> Result<Vec<Term>, AllocError>
    requires left { IsVector p a.now }
    requires right { IsVector p b.now }
    ensures value { IfOk result (λ v. v.items ≡ add p a.now b.now) }
    ensures known { IfOk result (λ v. IsVector p v.items) }
{
    let mut out = Vec::new(alloc);
    let mut i: usize = 0;
    let mut j: usize = 0;
    while i < a.len() && j < b.len() {
        let t = a[i];
        let u = b[j];
        match Mono::cmp_dp(&t.mono, &u.mono) {
            Ordering::Greater => {
                out.push(t)?;
                i += 1;
            }
            Ordering::Less => {
                out.push(u)?;
                j += 1;
            }
            Ordering::Equal => {
                let coeff = p.add(t.coeff, u.coeff);
                if coeff != 0 {
                    out.push(Term {
                        coeff,
                        mono: t.mono,
                    })?;
                }
                i += 1;
                j += 1;
            }
        }
    }
    out.extend_from_slice(&a[i..])?;
    out.extend_from_slice(&b[j..])?;
    Ok(out)
}

// The multiple by a residue that is not 0.
pub fn multiple(alloc: Global, p: Prime, c: u32, a: &[Term]) -> Result<Vec<Term>, AllocError>
    requires residue { c < p }
    requires not_zero { 0 < c }
    requires terms { IsVector p a.now }
    ensures value { IfOk result (λ v. v.items ≡ multiple p c a.now) }
    ensures known { IfOk result (λ v. IsVector p v.items) }
{
    let modulus = p.get();
    let mut out = Vec::new(alloc);
    for t in a {
        out.push(Term {
            coeff: c * t.coeff % modulus,
            mono: t.mono,
        })?;
    }
    Ok(out)
}

// The product with a term whose coefficient is not 0.
pub fn term_multiple(alloc: Global, p: Prime, a: &[Term], t: Term) -> Result<Vec<Term>, AllocError>
    requires residue { t.coeff < p }
    requires not_zero { 0 < t.coeff }
    requires plain { IsPlain t.mono }
    requires terms { IsVector p a.now }
    requires room { degree_of a.now + total_degree t.mono.exponents ≤ MAX_DEGREE }
    ensures value { IfOk result (λ v. v.items ≡ mul p a.now (t ∷ [])) }
    ensures known { IfOk result (λ v. IsVector p v.items) }
{
    let modulus = p.get();
    let mut out = Vec::new(alloc);
    for u in a {
        out.push(Term {
            coeff: u.coeff * t.coeff % modulus,
            mono: Mono::product(&u.mono, &t.mono),
        })?;
    }
    Ok(out)
}

// The product by halves: the second factor is cut in halves, and the products with both halves are merged: each term product
// goes through as many merges as it takes to halve the second factor down to one term.
fn product_by_halves(
    alloc: Global,
    p: Prime,
    a: &[Term],
    b: &[Term],
) -> Result<Vec<Term>, AllocError>
    requires left { IsVector p a.now }
    requires right { IsVector p b.now }
    requires plain { EachMono IsPlain b.now }
    requires room { degree_of a.now + degree_of b.now ≤ MAX_DEGREE }
    ensures value { IfOk result (λ v. v.items ≡ mul p a.now b.now) }
    ensures known { IfOk result (λ v. IsVector p v.items) }
{
    if b.len() == 0 {
        return Ok(Vec::new(alloc));
    }
    if b.len() == 1 {
        return term_multiple(alloc, p, a, b[0]);
    }
    let middle = b.len() / 2;
    let low = product_by_halves(alloc, p, a, &b[..middle])?;
    let high = product_by_halves(alloc, p, a, &b[middle..])?;
    sum(alloc, p, &low, &high)
}

// Whether all monomials have component 0.
pub fn is_plain(a: &[Term]) -> bool
    ensures { IsTrue result ↔ EachMono IsPlain a.now }
{
    for t in a {
        if t.mono.component() != 0 {
            return false;
        }
    }
    true
}

// Whether all monomials are without the homogenising variable and of component 0.
pub fn is_affine(a: &[Term]) -> bool
    requires { EachMono IsMono a.now }
    ensures { IsTrue result ↔ EachMono (IsAffine 6) a.now }
{
    for t in a {
        if t.mono.hom() != 0 || t.mono.component() != 0 {
            return false;
        }
    }
    true
}

// The product. The factor with fewer terms is halved, unless the other is a vector.
pub fn product(alloc: Global, p: Prime, a: &[Term], b: &[Term]) -> Result<Vec<Term>, AllocError>
    requires left { IsVector p a.now }
    requires right { IsVector p b.now }
    requires plain { EachMono IsPlain b.now }
    requires room { degree_of a.now + degree_of b.now ≤ MAX_DEGREE }
    ensures value { IfOk result (λ v. v.items ≡ mul p a.now b.now) }
    ensures known { IfOk result (λ v. IsVector p v.items) }
{
    if a.len() < b.len() && is_plain(a) {
        product_by_halves(alloc, p, b, a)
    } else {
        product_by_halves(alloc, p, a, b)
    }
}

// The power by n products with `a`.
fn power_by_products(alloc: Global, p: Prime, a: &[Term], n: u32) -> Result<Vec<Term>, AllocError>
    requires terms { IsVector p a.now }
    requires plain { EachMono IsPlain a.now }
    requires room { degree_of a.now * n ≤ MAX_DEGREE }
    ensures value { IfOk result (λ v. v.items ≡ power p a.now n) }
    ensures known { IfOk result (λ v. IsVector p v.items) }
{
    let start = one(alloc, p)?;
    let mut out = start;
    for _ in 0..n {
        out = product(alloc, p, &out, a)?;
    }
    Ok(out)
}

// The power by squares: as many products as n has binary digits, or twice as many.
fn power_by_squares(alloc: Global, p: Prime, a: &[Term], n: u32) -> Result<Vec<Term>, AllocError>
    requires terms { IsVector p a.now }
    requires plain { EachMono IsPlain a.now }
    requires room { degree_of a.now * n ≤ MAX_DEGREE }
    ensures value { IfOk result (λ v. v.items ≡ power p a.now n) }
    ensures known { IfOk result (λ v. IsVector p v.items) }
{
    if n < 2 {
        return power_by_products(alloc, p, a, n);
    }
    let root = power_by_squares(alloc, p, a, n / 2)?;
    let square = product(alloc, p, &root, &root)?;
    if n % 2 == 0 {
        Ok(square)
    } else {
        product(alloc, p, &square, a)
    }
}

// The power: by products where there are two terms or more, and otherwise by squares.
pub fn power(alloc: Global, p: Prime, a: &[Term], n: u32) -> Result<Vec<Term>, AllocError>
    requires terms { IsVector p a.now }
    requires plain { EachMono IsPlain a.now }
    requires room { degree_of a.now * n ≤ MAX_DEGREE }
    ensures value { IfOk result (λ v. v.items ≡ power p a.now n) }
    ensures known { IfOk result (λ v. IsVector p v.items) }
{
    if a.len() < 2 {
        power_by_squares(alloc, p, a, n)
    } else {
        power_by_products(alloc, p, a, n)
    }
}

// The partial derivative by the variable number `v`.
pub fn derivative(alloc: Global, p: Prime, v: u32, a: &[Term]) -> Result<Vec<Term>, AllocError>
    requires variable { v < 6 }
    requires terms { IsVector p a.now }
    ensures value { IfOk result (λ d. d.items ≡ derivative p v a.now) }
    ensures known { IfOk result (λ d. IsVector p d.items) }
{
    let modulus = p.get();
    let mut out = Vec::new(alloc);
    for t in a {
        let exponent = t.mono.exponent(v) % modulus;
        if exponent != 0 {
            out.push(Term {
                coeff: t.coeff * exponent % modulus,
                mono: Mono::quotient(&t.mono, &Mono::var(v)),
            })?;
        }
    }
    Ok(out)
}

// The multiple by the inverse of the lead's coefficient.
pub fn monic(alloc: Global, p: Prime, a: &[Term]) -> Result<Vec<Term>, AllocError>
    requires { IsVector p a.now }
    ensures value { IfOk result (λ v. IsMonicOf p a.now v.items) }
    ensures known { IfOk result (λ v. IsVector p v.items) }
{
    match a.first() {
        None => Ok(Vec::new(alloc)),
        Some(t) => multiple(alloc, p, p.inv(t.coeff), a),
    }
}

// The greatest degree of a monomial, or 0.
pub fn degree(a: &[Term]) -> u32
    ensures { result ≡ degree_of a.now }
{
    let mut degree = 0;
    for t in a {
        degree = t.mono.degree().max(degree);
    }
    degree
}
