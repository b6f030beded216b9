// Bases of graded modules by hand, modulo 7 in the variables x and y and the homogenising variable h. No problem's text
// has h, so that the vectors are lists of terms.
ghost use Rattle.std.specs.Prelude.{◌≡◌, ◌≤◌, All, IsTrue, IfOk};
ghost use Rattle.polys.specs.Poly.{IsPlain, terms_of};
ghost use Rattle.polys.specs.Terms.{EachMono};
ghost use Rattle.graded_modules.specs.Vector.{IsGenerator};
ghost use Rattle.module_basis.specs.Gens.{AreGens, IsHomogeneousOver};

use lists::List;
use module_basis::{BasisStop, Gens, GradedBasis, graded_basis};
use module_division::{degree_at, lead_mono};
use monomials::Mono;
use polys::{Poly, Term};
use prime_field::Prime;
use std::alloc::Global;
use std::test::Fail;

// A coefficient and the exponents of x, y and h.
type Row = (u32, u32, u32, u32);

// Polynomials or vectors of one component.
type Rows<'a> = &'a [&'a [Row]];

// A vector by its two components.
type Parts<'a> = (&'a [Row], &'a [Row]);

// The product with a variable, where the degree allows it.
fn times(m: &Mono, v: u32) -> Result<Mono, Fail> {
    if v > 5 || m.degree() > 50000 {
        return Err("the degree is too high".into());
    }
    Ok(Mono::product(m, &Mono::var(v)))
}

// The monomial x^i y^j h^k in the component.
fn mono(i: u32, j: u32, k: u32, component: u32) -> Result<Mono, Fail> {
    let mut mono = Mono::one()
        .with_hom(k.min(1000))
        .with_component(component.min(1));
    for _ in 0..i {
        mono = times(&mono, 0)?;
    }
    for _ in 0..j {
        mono = times(&mono, 1)?;
    }
    Ok(mono)
}

// The sum of the terms in the component.
fn polynomial(alloc: Global, p: Prime, component: u32, rows: &[Row]) -> Result<Poly, Fail>
    ensures { IfOk result (λ f. f.prime ≡ p) }
{
    let mut sum = Poly::zero(alloc, p);
    for (c, i, j, k) in rows {
        let term = Term {
            coeff: c % p.get(),
            mono: mono(*i, *j, *k, component)?,
        };
        sum = sum.add(&Poly::from_term(alloc, p, term)?)?;
    }
    Ok(sum)
}

// The vector with these terms in the two components.
fn vector(alloc: Global, p: Prime, parts: Parts) -> Result<Poly, Fail>
    ensures { IfOk result (λ f. f.prime ≡ p) }
{
    let (first, second) = parts;
    let upper = polynomial(alloc, p, 0, first)?;
    let sum = upper.add(&polynomial(alloc, p, 1, second)?)?;
    Ok(sum)
}

// Whether all terms have one degree; there may be six variables.
fn is_homogeneous(f: &Poly, shift: u32) -> bool
    ensures { IsTrue result → IsGenerator f.now.prime 6 shift f.now.terms }
{
    let degree = degree_at(shift, &lead_mono(f));
    let terms = f.terms();
    for t in terms {
        if degree_at(shift, &t.mono) != degree {
            return false;
        }
    }
    true
}

// Whether it is such a vector over the prime.
fn is_over(p: Prime, f: &Poly, shift: u32) -> bool
    ensures { IsTrue result → IsHomogeneousOver p 6 shift f.now }
{
    let q = f.prime().get();
    if q != p.get() {
        return false;
    }
    is_homogeneous(f, shift)
}

// The vectors as generators in six variables, if they are homogeneous.
fn gens(p: Prime, shift: u32, vectors: List<Poly>) -> Result<Gens, Fail>
    ensures { IfOk result (λ gens. AreGens gens) }
{
    let fs = vectors.as_slice();
    for k in 0..fs.len() {
        if !is_over(p, &fs[k], shift) {
            return Err("not homogeneous".into());
        }
    }
    Ok(Gens {
        prime: p,
        variables: 6,
        shift,
        vectors,
    })
}

// Vectors of one component.
fn plain_gens(alloc: Global, rows: Rows) -> Result<Gens, Fail>
    ensures { IfOk result (λ gens. AreGens gens) }
{
    let p = Prime::new(7).ok_or("7 is in the table")?;
    let mut vectors = List::new(alloc);
    for row in rows {
        vectors.push(polynomial(alloc, p, 0, row)?)?;
    }
    gens(p, 0, vectors)
}

// Whether all have one component.
fn are_plain(fs: &[Poly]) -> bool
    ensures { IsTrue result → All (EachMono IsPlain) (terms_of fs.now) }
{
    for k in 0..fs.len() {
        if !fs[k].is_plain() {
            return false;
        }
    }
    true
}

// Whether the terms of the component are exactly these, in this order.
fn has_rows(f: &Poly, component: u32, rows: &[Row]) -> bool {
    f.terms()
        .iter()
        .filter(|t| t.mono.component() == component)
        .map(|t| (
            t.coeff,
            t.mono.exponent(0),
            t.mono.exponent(1),
            t.mono.hom(),
        ))
        .eq(rows.iter().copied())
}

// Whether the vector is this one.
fn has_parts(f: &Poly, parts: Parts) -> bool {
    let (first, second) = parts;
    has_rows(f, 0, first) && has_rows(f, 1, second)
}

// Whether this vector has this number.
fn is_at(fs: &[Poly], place: usize, parts: Parts) -> bool {
    match fs.get(place) {
        Some(f) => has_parts(f, parts),
        None => false,
    }
}

// Whether the vectors are exactly these, in one component.
fn are_rows(fs: &[Poly], rows: Rows) -> bool {
    for i in 0..rows.len() {
        if !is_at(fs, i, (rows[i], &[])) {
            return false;
        }
    }
    fs.len() == rows.len()
}

// The basis, or nothing where the module is deep.
fn answered(alloc: Global, gens: &Gens, cap: u32) -> Result<Option<GradedBasis>, Fail>
    requires gens { AreGens gens.now }
    requires some { 1 ≤ cap }
    requires within { cap ≤ 1000 }
{
    match graded_basis(alloc, gens, cap) {
        Ok(basis) => Ok(Some(basis)),
        Err(BasisStop::Deep) => Ok(None),
        Err(BasisStop::Memory) => Err("no memory".into()),
    }
}

// The basis of vectors of one component, or nothing where they are deep.
fn plain_basis(alloc: Global, rows: Rows, cap: u32) -> Result<Option<GradedBasis>, Fail>
    requires some { 1 ≤ cap }
    requires within { cap ≤ 1000 }
{
    let gens = plain_gens(alloc, rows)?;
    answered(alloc, &gens, cap)
}

// Whether the basis and the basis with h = 1 are the wanted ones.
fn are_bases(found: &GradedBasis, basis: Rows, affine: Rows) -> Result<bool, Fail> {
    if !are_plain(found.vectors()) {
        return Ok(false);
    }
    let ds = found.dehomogenised()?;
    Ok(are_rows(found.vectors(), basis) && are_rows(ds.as_slice(), affine))
}

// Whether these are the bases of the polynomials under the cap.
fn has_bases(alloc: Global, rows: Rows, cap: u32, basis: Rows, affine: Rows) -> Result<bool, Fail>
    requires some { 1 ≤ cap }
    requires within { cap ≤ 1000 }
{
    match plain_basis(alloc, rows, cap)? {
        Some(found) => are_bases(&found, basis, affine),
        None => Ok(false),
    }
}

#[test]
fn bases_of_no_and_of_one_polynomial(rt: HostRuntime) -> Result<(), Fail> {
    let none: Rows = &[];
    let zeros: Rows = &[&[], &[]];
    let one: Rows = &[&[(3, 2, 1, 0)]];
    let monic: Rows = &[&[(1, 2, 1, 0)]];
    assert!(rt; has_bases(rt.alloc(), none, 1, none, none)?);
    assert!(rt; has_bases(rt.alloc(), zeros, 1, none, none)?);
    assert!(rt; has_bases(rt.alloc(), one, 3, monic, monic)?);
    Ok(())
}

#[test]
fn bases_of_polynomials(rt: HostRuntime) -> Result<(), Fail> {
    let cubics: Rows = &[&[(1, 3, 0, 0), (6, 0, 1, 2)], &[(1, 0, 3, 0), (6, 1, 0, 2)]];
    let rising: Rows = &[&[(1, 0, 3, 0), (6, 1, 0, 2)], &[(1, 3, 0, 0), (6, 0, 1, 2)]];
    let affine: Rows = &[&[(1, 0, 3, 0), (6, 1, 0, 0)], &[(1, 3, 0, 0), (6, 0, 1, 0)]];
    let mixed: Rows = &[
        &[(1, 0, 2, 0)],
        &[(1, 2, 0, 0), (1, 1, 1, 0)],
        &[(1, 0, 1, 1)],
    ];
    let sorted: Rows = &[
        &[(1, 0, 1, 1)],
        &[(1, 0, 2, 0)],
        &[(1, 2, 0, 0), (1, 1, 1, 0)],
    ];
    // y^2 is a multiple of y then, and x y in the tail too.
    let two: Rows = &[&[(1, 0, 1, 0)], &[(1, 2, 0, 0)]];
    assert!(rt; has_bases(rt.alloc(), cubics, 6, rising, affine)?);
    assert!(rt; has_bases(rt.alloc(), mixed, 4, sorted, two)?);
    Ok(())
}

// Whether the polynomials are deep under the cap.
fn are_deep(alloc: Global, rows: Rows, cap: u32) -> Result<bool, Fail>
    requires some { 1 ≤ cap }
    requires within { cap ≤ 1000 }
{
    Ok(plain_basis(alloc, rows, cap)?.is_none())
}

#[test]
fn deep_modules(rt: HostRuntime) -> Result<(), Fail> {
    let cubics: Rows = &[&[(1, 3, 0, 0), (6, 0, 1, 2)], &[(1, 0, 3, 0), (6, 1, 0, 2)]];
    let one: Rows = &[&[(3, 2, 1, 0)]];
    assert!(rt; are_deep(rt.alloc(), cubics, 4)?);
    assert!(rt; are_deep(rt.alloc(), cubics, 5)?);
    assert!(rt; !are_deep(rt.alloc(), cubics, 6)?);
    assert!(rt; are_deep(rt.alloc(), one, 2)?);
    assert!(rt; !are_deep(rt.alloc(), one, 3)?);
    Ok(())
}

// The basis of the module of (x^2, 1) and (y^2 h - x^3, 0), whose second unit vector has degree 2, or nothing where it
// is deep.
fn basis_of_two(alloc: Global, cap: u32) -> Result<Option<GradedBasis>, Fail>
    requires some { 1 ≤ cap }
    requires within { cap ≤ 1000 }
{
    let p = Prime::new(7).ok_or("7 is in the table")?;
    let mut vectors = List::new(alloc);
    vectors.push(vector(alloc, p, (&[(1, 2, 0, 0)], &[(1, 0, 0, 0)]))?)?;
    vectors.push(vector(alloc, p, (&[(1, 0, 2, 1), (6, 3, 0, 0)], &[]))?)?;
    let module = gens(p, 2, vectors)?;
    answered(alloc, &module, cap)
}

// The normal form, where the vector is homogeneous.
fn form(basis: &GradedBasis, v: &Poly) -> Result<Poly, Fail>
    requires six { basis.now.variables ≡ 6 }
{
    if v.prime() != basis.prime() || !is_homogeneous(v, basis.shift()) {
        return Err("not homogeneous".into());
    }
    Ok(basis.normal_form(v)?)
}

// Whether this is the normal form of the vector.
fn has_form(alloc: Global, basis: &GradedBasis, v: Parts, wanted: Parts) -> Result<bool, Fail> {
    if basis.variables() != 6 {
        return Err("six variables".into());
    }
    let v = vector(alloc, basis.prime(), v)?;
    let found = form(basis, &v)?;
    Ok(has_parts(&found, wanted))
}

// Whether these three vectors are the basis.
fn are_three(fs: &[Poly], wanted: [Parts; 3]) -> bool {
    fs.len() == 3 && is_at(fs, 0, wanted[0]) && is_at(fs, 1, wanted[1]) && is_at(fs, 2, wanted[2])
}

#[test]
fn a_module_of_two_components(rt: HostRuntime) -> Result<(), Fail> {
    assert!(rt; basis_of_two(rt.alloc(), 4)?.is_none());
    let basis = basis_of_two(rt.alloc(), 5)?.ok_or("deep")?;
    let wanted: [Parts; 3] = [
        (&[], &[(1, 3, 0, 0), (6, 0, 2, 1)]),
        (&[(1, 2, 0, 0)], &[(1, 0, 0, 0)]),
        (&[(1, 0, 2, 1)], &[(1, 1, 0, 0)]),
    ];
    assert!(rt; are_three(basis.vectors(), wanted));
    Ok(())
}

// x (x^2, 1) is a member, and (x^2, 0) differs by one from (0, -1).
#[test]
fn normal_forms_of_two_components(rt: HostRuntime) -> Result<(), Fail> {
    let basis = basis_of_two(rt.alloc(), 5)?.ok_or("deep")?;
    let member: Parts = (&[(1, 3, 0, 0)], &[(1, 1, 0, 0)]);
    assert!(rt; has_form(rt.alloc(), &basis, member, (&[], &[]))?);
    let other: Parts = (&[(1, 2, 0, 0)], &[]);
    assert!(rt; has_form(rt.alloc(), &basis, other, (&[], &[(6, 0, 0, 0)]))?);
    Ok(())
}
