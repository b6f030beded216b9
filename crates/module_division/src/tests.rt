// Values computed by hand modulo 7, in the variables x and y.
ghost use Rattle.std.specs.Prelude.{◌≡◌, All, IsTrue, IfOk};
ghost use Rattle.module_division.specs.Division.{IsDivisor};
ghost use Rattle.polys.specs.Terms.{IsMonic};

use crate::{Columns, interreduced_vectors, lead_mono, vector_remainder};
use lists::List;
use monomials::Mono;
use polys::{Poly, Term};
use prime_field::Prime;
use std::alloc::Global;
use std::test::Fail;

// A coefficient and the exponents of x and y.
type Row = (u32, u32, u32);

// Polynomials.
type Rows<'a> = &'a [&'a [Row]];

// The monomial x^i y^j, with exponents of at most 100.
fn mono(i: u32, j: u32) -> Mono {
    let mut product = Mono::one();
    for (v, exponent) in [(0, i), (1, j)] {
        for _ in 0..exponent.min(100) {
            if product.degree() < 1000 {
                product = Mono::product(&product, &Mono::var(v));
            }
        }
    }
    product
}

// The sum of the terms.
fn polynomial(alloc: Global, p: Prime, rows: &[Row]) -> Result<Poly, Fail>
    ensures { IfOk result (λ f. f.prime ≡ p) }
{
    let mut sum = Poly::zero(alloc, p);
    for (c, i, j) in rows {
        let term = Term {
            coeff: c % p.get(),
            mono: mono(*i, *j),
        };
        sum = sum.add(&Poly::from_term(alloc, p, term)?)?;
    }
    Ok(sum)
}

// Whether the lead has the coefficient 1.
fn is_monic(f: &Poly) -> bool
    ensures { IsTrue result → IsMonic f.now.terms }
{
    match f.lead() {
        None => false,
        Some(t) => t.coeff == 1,
    }
}

// Whether it is monic over the prime, and no term has more degree than the lead.
fn is_divisor(p: Prime, f: &Poly) -> bool
    ensures { IsTrue result → IsDivisor p f.now }
{
    let _terms = f.terms();
    let q = f.prime().get();
    if q != p.get() {
        return false;
    }
    if f.degree() > lead_mono(f).degree() {
        return false;
    }
    is_monic(f)
}

// The polynomials, if they are such.
fn divisors(alloc: Global, p: Prime, rows: Rows) -> Result<List<Poly>, Fail>
    ensures { IfOk result (All (IsDivisor p)) }
{
    let mut fs = List::new(alloc);
    for row in rows {
        let f = polynomial(alloc, p, row)?;
        if !is_divisor(p, &f) {
            return Err("no divisor".into());
        }
        fs.push(f)?;
    }
    Ok(fs)
}

// Whether the terms are exactly these, in this order.
fn has_rows(terms: &[Term], rows: &[Row]) -> bool {
    terms
        .iter()
        .map(|t| (t.coeff, t.mono.exponent(0), t.mono.exponent(1)))
        .eq(rows.iter().copied())
}

// Whether the division of the polynomial by the others leaves these terms.
fn leaves(alloc: Global, v: &[Row], by: Rows, rest: &[Row]) -> Result<bool, Fail> {
    let p = Prime::new(7).ok_or("7 is in the table")?;
    let fs = divisors(alloc, p, by)?;
    let terms = polynomial(alloc, p, v)?.into_terms();
    Ok(has_rows(&vector_remainder(alloc, p, terms, fs.as_slice())?, rest))
}

#[test]
fn divisions(rt: HostRuntime) -> Result<(), Fail> {
    let none: Rows = &[];
    let one: Rows = &[&[(1, 2, 0), (6, 0, 1)]];
    let two: Rows = &[&[(1, 2, 0), (6, 0, 1)], &[(1, 0, 2), (6, 0, 0)]];
    let cubic: &[Row] = &[(1, 3, 0), (1, 0, 1)];
    let quartic: &[Row] = &[(3, 2, 2)];
    let table: [(&[Row], Rows, &[Row]); 4] = [
        (cubic, none, cubic),
        (cubic, one, &[(1, 1, 1), (1, 0, 1)]),
        (quartic, two, &[(3, 0, 1)]),
        (&[(1, 2, 0), (6, 0, 1)], one, &[]),
    ];
    for (i, (v, by, rest)) in table.iter().enumerate() {
        assert!(rt; leaves(rt.alloc(), v, by, rest)?, "row {i}");
    }
    Ok(())
}

// Whether the division by rows over the monomials of the degree in x and y leaves these terms.
fn leaves_by_rows(
    alloc: Global,
    degree: u32,
    v: &[Row],
    by: Rows,
    rest: &[Row],
) -> Result<bool, Fail> {
    let p = Prime::new(7).ok_or("7 is in the table")?;
    let fs = divisors(alloc, p, by)?;
    let terms = polynomial(alloc, p, v)?.into_terms();
    let mut columns = Columns::of_degree(alloc, 2, None, degree, 1000)?;
    let left = columns.remainder(alloc, p, terms, fs.as_slice())?;
    Ok(has_rows(&left, rest))
}

// The third vector has another degree than the columns.
#[test]
fn divisions_by_rows(rt: HostRuntime) -> Result<(), Fail> {
    let one: Rows = &[&[(1, 2, 0), (6, 0, 2)]];
    let two: Rows = &[&[(1, 2, 0), (1, 1, 1)], &[(1, 0, 3)]];
    let table: [(u32, &[Row], Rows, &[Row]); 4] = [
        (3, &[(1, 3, 0), (1, 1, 2)], one, &[(2, 1, 2)]),
        (4, &[(3, 4, 0), (5, 0, 4)], one, &[(1, 0, 4)]),
        (4, &[(1, 3, 0), (1, 1, 2)], one, &[(2, 1, 2)]),
        (4, &[(1, 4, 0), (2, 1, 3)], two, &[]),
    ];
    for (i, (degree, v, by, rest)) in table.iter().enumerate() {
        assert!(rt;
            leaves_by_rows(rt.alloc(), *degree, v, by, rest)?,
            "row {i}"
        );
    }
    Ok(())
}

// x^2 y is superfluous, and y^2 in the tail of x^2 + y^2 becomes -x.
#[test]
fn vectors_reduced_by_one_another(rt: HostRuntime) -> Result<(), Fail> {
    let alloc = rt.alloc();
    let p = Prime::new(7).ok_or("7 is in the table")?;
    let rows: Rows = &[
        &[(1, 2, 1)],
        &[(1, 0, 2), (1, 1, 0)],
        &[(1, 2, 0), (1, 0, 2)],
    ];
    let fs = divisors(alloc, p, rows)?;
    let reduced = interreduced_vectors(alloc, p, fs.as_slice())?;
    assert!(rt; reduced.len() == 2);
    assert!(rt; has_rows(reduced[0].terms(), &[(1, 0, 2), (1, 1, 0)]));
    assert!(rt; has_rows(reduced[1].terms(), &[(1, 2, 0), (6, 1, 0)]));
    Ok(())
}
