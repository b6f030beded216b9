// Digits by hand: those made at a depth, and those made at each smaller one and extended.
ghost use Rattle.std.specs.Prelude.{◌≤◌};
ghost use Rattle.polys.specs.Curve.{Fit};
ghost use Rattle.digit_plan.specs.Lifts.{IsLiftedOf};

use crate::samples::{CUSP, Sample, UNIT, problem_of, sample_of};
use digit_make::{extended, make};
use digit_space::Digits;
use monomials::Mono;
use std::alloc::Global;
use std::test::Fail;

// Polynomials as the generators of a problem, and the digits of each.
type Known<'a> = (&'a str, &'a [&'a [u32]]);

// Whether the polynomials have these digits.
fn has_digits(digits: &Digits, known: Known) -> Result<bool, Fail> {
    let (text, rows) = known;
    let problem = problem_of(digits.allocator(), text)?;
    let curve = digits.curve();
    let generators = problem.generators.as_slice();
    if problem.prime.get() != curve.prime.get() || generators.len() != rows.len() {
        return Ok(false);
    }
    if problem.letters.as_slice().len() != curve.variables as usize {
        return Ok(false);
    }
    for i in 0..generators.len() {
        let row = digits.digits_of(&generators[i])?;
        if row.as_slice() != rows[i] {
            return Ok(false);
        }
    }
    Ok(true)
}

// Whether the monomial with this number is x^i y^j.
fn is_monomial(basis: &[Mono], place: usize, i: u32, j: u32) -> bool {
    match basis.get(place) {
        Some(m) => m.exponent(0) == i && m.exponent(1) == j,
        None => false,
    }
}

// Whether the basis is the monomials with these exponents.
fn has_basis(digits: &Digits, exponents: &[(u32, u32)]) -> bool {
    let basis = digits.basis();
    for place in 0..exponents.len() {
        let (i, j) = exponents[place];
        if !is_monomial(basis, place, i, j) {
            return false;
        }
    }
    basis.len() == exponents.len()
}

// Whether the polynomials have these digits, made at the depth.
fn has_made(s: &Sample, alloc: Global, depth: u32, known: Known) -> Result<bool, Fail>
    requires fit { Fit s.now.curve.value }
    requires lifted { IsLiftedOf s.now.curve.value s.now.lifted }
    requires depth { depth ≤ 200 }
{
    let digits = make(alloc, &s.curve, &s.lifted, depth)?;
    has_digits(&digits, known)
}

// Whether the polynomials have these digits, made at the smaller depth and extended.
fn has_grown(s: &Sample, alloc: Global, before: u32, depth: u32, known: Known) -> Result<bool, Fail>
    requires fit { Fit s.now.curve.value }
    requires lifted { IsLiftedOf s.now.curve.value s.now.lifted }
    requires deeper { before ≤ depth }
    requires depth { depth ≤ 200 }
{
    let digits = grown(s, alloc, before, depth)?;
    has_digits(&digits, known)
}

// Whether the digits at the depth have this basis, and the polynomials these digits.
fn is_made(
    alloc: Global,
    curve: &str,
    depth: u32,
    exponents: &[(u32, u32)],
    known: Known,
) -> Result<bool, Fail>
    requires { depth ≤ 200 }
{
    let s = sample_of(alloc, curve)?;
    let digits = make(alloc, &s.curve, &s.lifted, depth)?;
    Ok(has_basis(&digits, exponents) && has_digits(&digits, known)?)
}

// The digits at the greater depth, made at the smaller one and extended.
fn grown(s: &Sample, alloc: Global, before: u32, depth: u32) -> Result<Digits, Fail>
    requires fit { Fit s.now.curve.value }
    requires lifted { IsLiftedOf s.now.curve.value s.now.lifted }
    requires deeper { before ≤ depth }
    requires depth { depth ≤ 200 }
{
    let digits = make(alloc, &s.curve, &s.lifted, before)?;
    Ok(extended(&digits, &s.lifted, depth)?)
}

// Whether the polynomials have these digits at the depth, made there, and made at any smaller one and extended.
fn is_grown(alloc: Global, curve: &str, depth: u32, known: Known) -> Result<bool, Fail>
    requires { depth ≤ 100 }
{
    let s = sample_of(alloc, curve)?;
    if !has_made(&s, alloc, depth, known)? {
        return Ok(false);
    }
    for before in 0..depth + 1 {
        if !has_grown(&s, alloc, before, depth, known)? {
            return Ok(false);
        }
    }
    Ok(true)
}

// Whether the digits at the depth, made at the smaller one and extended, have this dimension and are empty.
fn is_empty_at(
    alloc: Global,
    curve: &str,
    before: u32,
    depth: u32,
    dimension: u32,
) -> Result<bool, Fail>
    requires deeper { before ≤ depth }
    requires depth { depth ≤ 200 }
{
    let s = sample_of(alloc, curve)?;
    let digits = grown(&s, alloc, before, depth)?;
    if digits.dimension() != dimension || digits.depth() != depth {
        return Ok(false);
    }
    has_digits(
        &digits,
        ("ring r = 7,(x,y),dp; ideal I = x,1;", &[&[], &[]]),
    )
}

#[test]
fn corners_and_digits_of_the_cusp(rt: HostRuntime) -> Result<(), Fail> {
    let exponents = [(0, 0), (0, 1), (1, 0), (1, 1)];
    let known: Known = (
        "ring r = 7,(x,y),dp; ideal I = y2;",
        &[&[0, 0, 0, 0, 0, 0, 1, 0]],
    );
    assert!(rt; is_made(rt.alloc(), CUSP, 2, &exponents, known)?);
    Ok(())
}

// Since x^3 is x d, the digits of y^2 are those of x one block on.
#[test]
fn deeper_digits_of_the_cusp(rt: HostRuntime) -> Result<(), Fail> {
    let known: Known = (
        "ring r = 7,(x,y),dp; ideal I = y2,y3,x5y,x2+3;",
        &[
            &[0, 0, 0, 0, 0, 0, 1, 0, 0, 0, 0, 0],
            &[0, 0, 0, 0, 0, 0, 0, 1, 0, 0, 0, 0],
            &[0, 0, 0, 0, 0, 0, 0, 0, 0, 0, 0, 1],
            &[3, 0, 0, 0, 1, 0, 0, 0, 0, 0, 0, 0],
        ],
    );
    assert!(rt; is_grown(rt.alloc(), CUSP, 3, known)?);
    Ok(())
}

// y^2 = x^2 + x^3 with the denominator x: y^2 is d^2 + d^3. The lift of y^2 is x + x^2, and x^2 is neither a corner nor the
// product of a variable and one.
#[test]
fn digits_of_a_node(rt: HostRuntime) -> Result<(), Fail> {
    let node = "ring r = 7,(x,y),dp; ideal I = y2-x3-x2; poly d = x;";
    let known: Known = (
        "ring r = 7,(x,y),dp; ideal I = y2,y3,y4,2x2y+5x;",
        &[
            &[0, 0, 0, 0, 1, 0, 1, 0],
            &[0, 0, 0, 0, 0, 1, 0, 1],
            &[0, 0, 0, 0, 0, 0, 0, 0],
            &[0, 0, 5, 0, 0, 2, 0, 0],
        ],
    );
    assert!(rt; is_grown(rt.alloc(), node, 4, known)?);
    Ok(())
}

// y^2 = x^5 + 1 with the denominator y: x^5 is -1 + d^2.
#[test]
fn digits_at_five_corners(rt: HostRuntime) -> Result<(), Fail> {
    let quintic = "ring r = 7,(x,y),dp; ideal I = x5-y2+1; poly d = y;";
    let known: Known = (
        "ring r = 7,(x,y),dp; ideal I = x5,x6,4xy;",
        &[
            &[6, 0, 0, 0, 0, 0, 0, 0, 0, 0, 1, 0, 0, 0, 0],
            &[0, 6, 0, 0, 0, 0, 0, 0, 0, 0, 0, 1, 0, 0, 0],
            &[0, 0, 0, 0, 0, 0, 4, 0, 0, 0, 0, 0, 0, 0, 0],
        ],
    );
    assert!(rt; is_grown(rt.alloc(), quintic, 3, known)?);
    Ok(())
}

// With the denominator 1 there are no corners.
#[test]
fn no_corners(rt: HostRuntime) -> Result<(), Fail> {
    assert!(rt; is_empty_at(rt.alloc(), UNIT, 2, 3, 0)?);
    Ok(())
}

#[test]
fn no_depth(rt: HostRuntime) -> Result<(), Fail> {
    assert!(rt; is_empty_at(rt.alloc(), CUSP, 0, 0, 4)?);
    Ok(())
}
