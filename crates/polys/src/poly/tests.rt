// Values computed by hand modulo 7, in the variables x and y.
ghost use Rattle.std.specs.Prelude.{◌≡◌, IfOk, length};

use super::Poly;
use crate::{Curve, Term, are_same, copied};
use lists::List;
use monomials::{MAX_DEGREE, Mono};
use prime_field::Prime;
use std::alloc::Global;
use std::test::Fail;

// The product of two monomials, where the degree allows it.
fn product(a: &Mono, b: &Mono) -> Result<Mono, Fail> {
    if b.component() != 0 || a.degree() + b.degree() > MAX_DEGREE {
        return Err("the degree is too high".into());
    }
    Ok(Mono::product(a, b))
}

// The monomial x^i y^j.
fn mono(i: u32, j: u32) -> Result<Mono, Fail> {
    let mut mono = Mono::one();
    for _ in 0..i {
        mono = product(&mono, &Mono::var(0))?;
    }
    for _ in 0..j {
        mono = product(&mono, &Mono::var(1))?;
    }
    Ok(mono)
}

// The sum of the terms c x^i y^j, given as (c, i, j).
fn polynomial(alloc: Global, p: Prime, terms: &[(u32, u32, u32)]) -> Result<Poly, Fail>
    ensures { IfOk result (λ f. f.prime ≡ p) }
{
    let mut sum = Poly::zero(alloc, p);
    for (c, i, j) in terms {
        let term = Term {
            coeff: c % p.get(),
            mono: mono(*i, *j)?,
        };
        sum = sum.add(&Poly::from_term(alloc, p, term)?)?;
    }
    Ok(sum)
}

// Whether the terms are exactly c x^i y^j for the given (c, i, j), in this order.
fn has_terms(f: &Poly, want: &[(u32, u32, u32)]) -> bool {
    f.terms()
        .iter()
        .map(|t| (t.coeff, t.mono.exponent(0), t.mono.exponent(1)))
        .eq(want.iter().copied())
}

// One call on f, or on f and g.
#[derive(Clone, Copy)]
enum Call {
    Add,
    Sub,
    Mul,
    MulTerm,
    Power(u32),
    Derivative(u32),
    Monic,
    Clone,
}

// The product, where the degrees allow it.
fn times(f: &Poly, g: &Poly) -> Result<Poly, Fail>
    requires { f.now.prime ≡ g.now.prime }
{
    if !g.is_plain() || f.degree() > 30000 || g.degree() > 30000 {
        return Err("the degrees are too high".into());
    }
    Ok(f.mul(g)?)
}

// The product with a term, where the degrees allow it.
fn times_term(f: &Poly, t: Term) -> Result<Poly, Fail> {
    if t.coeff >= f.prime().get() || t.mono.component() != 0 {
        return Err("no residue, or no plain monomial".into());
    }
    if f.degree() > 30000 || t.mono.degree() > 30000 {
        return Err("the degrees are too high".into());
    }
    Ok(f.mul_term(t)?)
}

// The power, where the degree allows it.
fn raised(f: &Poly, n: u32) -> Result<Poly, Fail> {
    match f.degree().checked_mul(n) {
        Some(degree) if degree <= MAX_DEGREE && f.is_plain() => Ok(f.power(n)?),
        _ => Err("the degree is too high".into()),
    }
}

fn called(call: &Call, f: &Poly, g: &Poly) -> Result<Poly, Fail>
    requires { f.now.prime ≡ g.now.prime }
{
    match call {
        Call::Add => Ok(f.add(g)?),
        Call::Sub => Ok(f.sub(g)?),
        Call::Mul => times(f, g),
        Call::MulTerm => times_term(f, g.lead().ok_or("a term")?),
        Call::Power(n) => raised(f, *n),
        Call::Derivative(v) if *v < 6 => Ok(f.derivative(*v)?),
        Call::Derivative(_) => Err("no variable".into()),
        Call::Monic => Ok(f.monic()?),
        Call::Clone => Ok(f.clone_poly()?),
    }
}

type Terms<'a> = &'a [(u32, u32, u32)];

// Whether the call gives the wanted terms.
fn gives(alloc: Global, call: &Call, f: Terms, g: Terms, want: Terms) -> Result<bool, Fail> {
    let p = Prime::new(7).ok_or("7 is in the table")?;
    let f = polynomial(alloc, p, f)?;
    let g = polynomial(alloc, p, g)?;
    Ok(has_terms(&called(call, &f, &g)?, want))
}

#[test]
fn calls_on_examples(rt: HostRuntime) -> Result<(), Fail> {
    let none: Terms = &[];
    let a: Terms = &[(1, 2, 0), (3, 0, 1)];
    let b: Terms = &[(6, 2, 0), (1, 0, 1)];
    let sum: Terms = &[(1, 1, 0), (1, 0, 1)];
    let long: Terms = &[(1, 3, 0), (1, 2, 0), (1, 1, 0), (1, 0, 0)];
    let short: Terms = &[(1, 1, 0), (6, 0, 0)];
    let quartic: Terms = &[(1, 4, 0), (6, 0, 0)];
    let mixed: Terms = &[(1, 7, 0), (1, 3, 1), (1, 0, 1)];
    let table = [
        (Call::Add, a, b, [(4, 0, 1)].as_slice()),
        (Call::Sub, a, b, [(2, 2, 0), (2, 0, 1)].as_slice()),
        (
            Call::Mul,
            a,
            b,
            [(6, 4, 0), (5, 2, 1), (3, 0, 2)].as_slice(),
        ),
        (Call::Mul, long, short, quartic),
        (Call::Mul, short, long, quartic),
        (
            Call::MulTerm,
            a,
            [(2, 1, 1)].as_slice(),
            [(2, 3, 1), (6, 1, 2)].as_slice(),
        ),
        (
            Call::Power(3),
            sum,
            none,
            [(1, 3, 0), (3, 2, 1), (3, 1, 2), (1, 0, 3)].as_slice(),
        ),
        (Call::Power(7), sum, none, [(1, 7, 0), (1, 0, 7)].as_slice()),
        (Call::Power(0), sum, none, [(1, 0, 0)].as_slice()),
        (
            Call::Power(5),
            [(2, 1, 0)].as_slice(),
            none,
            [(4, 5, 0)].as_slice(),
        ),
        (Call::Derivative(0), mixed, none, [(3, 2, 1)].as_slice()),
        (
            Call::Derivative(1),
            mixed,
            none,
            [(1, 3, 0), (1, 0, 0)].as_slice(),
        ),
        (
            Call::Monic,
            [(3, 2, 0), (6, 0, 1)].as_slice(),
            none,
            [(1, 2, 0), (2, 0, 1)].as_slice(),
        ),
        (Call::Monic, none, none, none),
        (Call::Clone, mixed, none, mixed),
    ];
    for (i, (call, f, g, want)) in table.iter().enumerate() {
        assert!(rt; gives(rt.alloc(), call, f, g, want)?, "row {i}");
    }
    Ok(())
}

#[test]
fn same_data(rt: HostRuntime) -> Result<(), Fail> {
    let alloc = rt.alloc();
    let p = Prime::new(7).ok_or("7 is in the table")?;
    let q = Prime::new(5).ok_or("5 is in the table")?;
    let curve = Curve {
        prime: p,
        variables: 2,
        ideal: List::new(alloc),
        denominator: Poly::zero(alloc, p),
    };
    let other = Curve {
        prime: p,
        variables: 2,
        ideal: List::new(alloc),
        denominator: Poly::zero(alloc, q),
    };
    assert!(rt; curve.same(&curve) && !curve.same(&other));
    Ok(())
}

#[test]
fn affine_and_copied(rt: HostRuntime) -> Result<(), Fail> {
    let alloc = rt.alloc();
    let p = Prime::new(7).ok_or("7 is in the table")?;
    let one = Poly::one(alloc, p)?;
    assert!(rt; has_terms(&one, [(1, 0, 0)].as_slice()) && one.is_affine());
    let square = Term {
        coeff: 1,
        mono: Mono::one().with_hom(2),
    };
    let homogeneous = Poly::from_term(alloc, p, square)?;
    assert!(rt; !homogeneous.is_affine());
    let mut list = List::new(alloc);
    list.push(one)?;
    list.push(homogeneous)?;
    let copies = copied(alloc, list.as_slice())?;
    assert!(rt; are_same(copies.as_slice(), list.as_slice()));
    assert!(rt; !are_same(copies.as_slice(), &list.as_slice()[1..]));
    Ok(())
}

// How many terms the power has, or nothing where it has more than the limit.
fn terms_within(f: &Poly, n: u32, limit: usize) -> Result<Option<usize>, Fail> {
    match f.degree().checked_mul(n) {
        Some(degree) if degree <= MAX_DEGREE && f.is_plain() => match f.power_within(n, limit)? {
            None => Ok(None),
            Some(power) => Ok(Some(power.terms().len())),
        },
        _ => Err("the degree is too high".into()),
    }
}

#[test]
fn powers_within_limits(rt: HostRuntime) -> Result<(), Fail> {
    let p = Prime::new(7).ok_or("7 is in the table")?;
    let f = polynomial(rt.alloc(), p, [(1, 1, 0), (1, 0, 1), (1, 0, 0)].as_slice())?;
    // (x + y + 1)^7 has 3 terms modulo 7, the 6th power all 28, and the 60th power, of the digits 1, 1 and 4, 3 * 3 * 15.
    let table = [
        (7, 3, Some(3)),
        (7, 2, None),
        (6, 28, Some(28)),
        (6, 27, None),
        (60, 135, Some(135)),
        (60, 134, None),
        (0, 1, Some(1)),
        (0, 0, None),
    ];
    for (i, (n, limit, want)) in table.iter().enumerate() {
        assert!(rt; terms_within(&f, *n, *limit)? == *want, "row {i}");
    }
    Ok(())
}
