// Texts written by hand.
ghost use Rattle.std.specs.Prelude.{◌≡◌, IfOk};

use crate::{PolyFault, print_poly, read_poly};
use lists::List;
use monomials::Mono;
use polys::{Poly, Term};
use prime_field::Prime;
use problem::Letters;
use std::alloc::Global;
use std::test::Fail;

// The monomial x^i y^j.
fn mono(i: u32, j: u32) -> Result<Mono, Fail> {
    let mut mono = Mono::one();
    for (v, exponent) in [(0, i), (1, j)] {
        for _ in 0..exponent {
            if mono.degree() >= 60000 {
                return Err("the degree is too high".into());
            }
            mono = Mono::product(&mono, &Mono::var(v));
        }
    }
    Ok(mono)
}

// The sum of the terms c x^i y^j, given as (c, i, j).
fn polynomial(alloc: Global, p: Prime, terms: &[(u32, u32, u32)]) -> Result<Poly, Fail>
    ensures { IfOk result (λ f. f.prime ≡ p) }
{
    let mut sum = Poly::zero(alloc, p);
    for (c, i, j) in terms {
        let term = Term {
            coeff: c % p.get(),
            mono: mono(*i, *j)?,
        };
        sum = sum.add(&Poly::from_term(alloc, p, term)?)?;
    }
    Ok(sum)
}

#[test]
fn polynomials_have_one_text(rt: HostRuntime) -> Result<(), Fail> {
    let letters = Letters::new(b"xy").ok_or("letters")?;
    for (p, terms, text) in [
        (
            7,
            [(1, 3, 0), (2, 2, 0), (4, 1, 0)].as_slice(),
            "x^3+2*x^2-3*x",
        ),
        (7, [(6, 1, 0), (1, 0, 0)].as_slice(), "-x+1"),
        (7, [].as_slice(), "0"),
        (7, [(1, 0, 0)].as_slice(), "1"),
        (7, [(6, 0, 0)].as_slice(), "-1"),
        (7, [(3, 0, 0)].as_slice(), "3"),
        (7, [(4, 0, 2)].as_slice(), "-3*y^2"),
        (2, [(1, 1, 1), (1, 0, 2)].as_slice(), "x*y+y^2"),
        (32003, [(1, 2, 0), (21336, 1, 0)].as_slice(), "x^2-10667*x"),
        (32003, [(7112, 1, 0), (1, 0, 2)].as_slice(), "y^2+7112*x"),
        (
            7,
            [(1, 2, 0), (4, 0, 2), (6, 1, 0)].as_slice(),
            "x^2-3*y^2-x",
        ),
        (7, [(1, 12, 0), (6, 1, 10)].as_slice(), "x^12-x*y^10"),
    ] {
        let prime = Prime::new(p).ok_or("prime")?;
        let poly = polynomial(rt.alloc(), prime, terms)?;
        let mut out = List::new(rt.alloc());
        out.push(b':')?;
        print_poly(&letters, &poly, &mut out)?;
        assert_eq!(rt; out.as_slice()[0], b':');
        assert_eq!(rt; &out.as_slice()[1..], text.as_bytes());
        let read = read_poly(rt.alloc(), prime, &letters, text.as_bytes())?;
        assert!(rt; read.same(&poly), "at {text}");
    }
    Ok(())
}

#[test]
fn only_the_one_text_is_read(rt: HostRuntime) -> Result<(), Fail> {
    let letters = Letters::new(b"xy").ok_or("letters")?;
    let prime = Prime::new(7).ok_or("prime")?;
    for text in [
        "",
        "-",
        "+",
        "x^1",
        "x^",
        "^2",
        "+x",
        "1*x",
        "x*1",
        "2x",
        "2*3*x",
        "x^0",
        "x^02",
        "x+x",
        "1+x",
        "x+0",
        "x+",
        "00",
        "-0",
        "6*x",
        "4",
        "7",
        "x*y^2*x",
        "y*x",
        "xy",
        "x^2^2",
        "x--1",
        "x^-1",
        "x^60001",
        "x^60000*y",
        "x^1000000000000000000000",
        "1000000000000000000000",
        "z",
        "X",
        "x ",
        " x",
        "x + 1",
        "(x)",
    ] {
        let read = read_poly(rt.alloc(), prime, &letters, text.as_bytes());
        assert!(rt; matches!(read, Err(PolyFault::NotPoly)), "at {text}");
    }
    Ok(())
}

#[test]
fn great_degrees_are_read(rt: HostRuntime) -> Result<(), Fail> {
    let letters = Letters::new(b"xy").ok_or("letters")?;
    let prime = Prime::new(32003).ok_or("prime")?;
    for text in ["x^60000", "-16001*x^59999*y+16001"] {
        let poly = read_poly(rt.alloc(), prime, &letters, text.as_bytes())?;
        assert_eq!(rt; poly.degree(), 60000);
        assert_eq!(rt; poly.prime(), prime);
        let mut out = List::new(rt.alloc());
        print_poly(&letters, &poly, &mut out)?;
        assert_eq!(rt; out.as_slice(), text.as_bytes());
    }
    Ok(())
}
