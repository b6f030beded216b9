// Ideals of monomials, whose standard monomials are listed by hand.
ghost use Rattle.std.specs.Prelude.{◌≡◌, ◌<◌, ◌≤◌, All, IfOk, IsTrue, map};
ghost use Rattle.std.specs.declared.cmp.Ordering.TheVariants.{Less};
ghost use Rattle.monomials.specs.Mono.{Divides, cmp_dp};
ghost use Rattle.polys.specs.Reduced.{Reduced};
ghost use Rattle.polys.specs.Terms.{IsAffine};
ghost use Rattle.standard_monomials.specs.Finding.{terms_of};
ghost use Rattle.standard_monomials.specs.Standard.{AreMinimal, polynomial_of};

use super::{Dimension, Standard, dimension_modulo, standard_monomials};
use monomials::Mono;
use polys::{Poly, Term};
use prime_field::Prime;
use std::alloc::Global;
use std::cmp::Ordering;
use std::test::Fail;

// The exponents of the six variables.
type Row = [u32; 6];

// The product with a power of a variable.
fn raised(variables: u32, m: Mono, v: u32, exponent: u32) -> Result<Mono, Fail>
    requires variables { variables ≤ 6 }
    requires among { v < variables }
    requires affine { IsAffine variables m }
    ensures { IfOk result (IsAffine variables) }
{
    let mut product = m;
    for _ in 0..exponent {
        if product.degree() >= 60000 {
            return Err("the degree is too high".into());
        }
        product = Mono::product(&product, &Mono::var(v));
    }
    Ok(product)
}

// The monomial with these exponents of the first variables.
fn mono(variables: u32, row: &Row) -> Result<Mono, Fail>
    requires { variables ≤ 6 }
    ensures { IfOk result (IsAffine variables) }
{
    let mut m = Mono::one();
    for v in 0..variables {
        m = raised(variables, m, v, row[v as usize])?;
    }
    Ok(m)
}

// Whether the monomials are less than m and do not divide it.
fn are_apart_below(ms: &[Mono], m: &Mono) -> bool
    ensures { IsTrue result → All (λ w. (cmp_dp w m.now ≡ Less) × (Divides w m.now → ⊥)) ms.now }
{
    for w in ms {
        if Mono::cmp_dp(w, m) != Ordering::Less || Mono::divides(w, m) {
            return false;
        }
    }
    true
}

// The monomials, if they rise and none divides a later one.
fn minimal_monomials(alloc: Global, variables: u32, rows: &[Row]) -> Result<Vec<Mono>, Fail>
    requires { variables ≤ 6 }
    ensures affine { IfOk result (λ ms. All (IsAffine variables) ms.items) }
    ensures minimal { IfOk result (λ ms. AreMinimal ms.items) }
{
    let mut ms = Vec::new(alloc);
    for row in rows {
        let m = mono(variables, row)?;
        if !are_apart_below(ms.as_slice(), &m) {
            return Err("no reduced basis".into());
        }
        ms.push(m)?;
    }
    Ok(ms)
}

// The monomials as polynomials.
fn polynomials(alloc: Global, prime: Prime, ms: &[Mono]) -> Result<Vec<Poly>, Fail>
    ensures { IfOk result (λ fs. terms_of fs.items ≡ map polynomial_of ms.now) }
{
    let _prime = prime.get();
    let mut fs = Vec::new(alloc);
    for m in ms {
        let f = Poly::from_term(alloc, prime, Term { coeff: 1, mono: *m })?;
        fs.push(f)?;
    }
    Ok(fs)
}

// The reduced basis of the ideal of these monomials.
fn basis_of(alloc: Global, prime: Prime, variables: u32, rows: &[Row]) -> Result<Vec<Poly>, Fail>
    requires { variables ≤ 6 }
    ensures { IfOk result (λ fs. Reduced prime variables (terms_of fs.items)) }
{
    let _prime = prime.get();
    let ms = minimal_monomials(alloc, variables, rows)?;
    polynomials(alloc, prime, ms.as_slice())
}

fn row_of(m: &Mono) -> Row {
    [
        m.exponent(0),
        m.exponent(1),
        m.exponent(2),
        m.exponent(3),
        m.exponent(4),
        m.exponent(5),
    ]
}

// The standard monomials modulo x^2, x y and y^3 are 1, y, x and y^2, in this order.
const STAIRCASE: [Row; 3] = [[1, 1, 0, 0, 0, 0], [2, 0, 0, 0, 0, 0], [0, 3, 0, 0, 0, 0]];

#[test]
fn lists_of_examples(rt: HostRuntime) -> Result<(), Fail> {
    let alloc = rt.alloc();
    let prime = Prime::new(7).ok_or("7 is in the table")?;
    let none: &[Row] = &[];
    let squares: &[Row] = &[[0, 2, 0, 0, 0, 0], [2, 0, 0, 0, 0, 0]];
    let under_stairs: &[Row] = &[
        [0, 0, 0, 0, 0, 0],
        [0, 1, 0, 0, 0, 0],
        [1, 0, 0, 0, 0, 0],
        [0, 2, 0, 0, 0, 0],
    ];
    let under_squares: &[Row] = &[
        [0, 0, 0, 0, 0, 0],
        [0, 1, 0, 0, 0, 0],
        [1, 0, 0, 0, 0, 0],
        [1, 1, 0, 0, 0, 0],
    ];
    let table = [
        (2, STAIRCASE.as_slice(), under_stairs),
        (2, squares, under_squares),
        (6, [[0; 6]].as_slice(), none),
    ];
    for (variables, rows, want) in table {
        let basis = basis_of(alloc, prime, variables, rows)?;
        match standard_monomials(alloc, prime, variables, basis.as_slice(), 4)? {
            Standard::All(found) => {
                let rows = found.as_slice().iter().map(row_of);
                assert!(rt; rows.eq(want.iter().copied()));
            }
            _ => assert!(rt; false),
        }
    }
    Ok(())
}

#[test]
fn dimensions_of_examples(rt: HostRuntime) -> Result<(), Fail> {
    let alloc = rt.alloc();
    let prime = Prime::new(7).ok_or("7 is in the table")?;
    let none: &[Row] = &[];
    let six_squares: &[Row] = &[
        [0, 0, 0, 0, 0, 2],
        [0, 0, 0, 0, 2, 0],
        [0, 0, 0, 2, 0, 0],
        [0, 0, 2, 0, 0, 0],
        [0, 2, 0, 0, 0, 0],
        [2, 0, 0, 0, 0, 0],
    ];
    let table = [
        (2, STAIRCASE.as_slice(), 4, Dimension::Finite(4)),
        (2, STAIRCASE.as_slice(), 3, Dimension::Wide),
        (3, STAIRCASE.as_slice(), 4, Dimension::Infinite),
        (2, [[1, 1, 0, 0, 0, 0]].as_slice(), 4, Dimension::Infinite),
        (2, [[0, 1, 0, 0, 0, 0]].as_slice(), 4, Dimension::Infinite),
        (2, [[1, 0, 0, 0, 0, 0]].as_slice(), 4, Dimension::Infinite),
        (2, none, 4, Dimension::Infinite),
        (2, [[0; 6]].as_slice(), 0, Dimension::Finite(0)),
        (1, [[257, 0, 0, 0, 0, 0]].as_slice(), 256, Dimension::Wide),
        (
            1,
            [[257, 0, 0, 0, 0, 0]].as_slice(),
            257,
            Dimension::Finite(257),
        ),
        (6, six_squares, 64, Dimension::Finite(64)),
        (6, six_squares, 63, Dimension::Wide),
    ];
    for (variables, rows, limit, want) in table {
        let basis = basis_of(alloc, prime, variables, rows)?;
        let found = dimension_modulo(alloc, prime, variables, basis.as_slice(), limit)?;
        assert_eq!(rt; found, want);
    }
    Ok(())
}
