// Answers that are known, in both versions of the text.
ghost use Rattle.std.specs.Prelude.{◌≡◌, IfOk, All};

use crate::{Answer, AnswerFault, PointLine, print_answer, read_answer};
use curve_model::Point;
use lists::List;
use monomials::Mono;
use polys::{Poly, Term};
use prime_field::Prime;
use problem::Letters;
use std::alloc::Global;
use std::test::Fail;

// The monomial x^i y^j.
fn mono(i: u32, j: u32) -> Result<Mono, Fail> {
    let mut mono = Mono::one();
    for (v, exponent) in [(0, i), (1, j)] {
        for _ in 0..exponent {
            if mono.degree() >= 60000 {
                return Err("the degree is too high".into());
            }
            mono = Mono::product(&mono, &Mono::var(v));
        }
    }
    Ok(mono)
}

// The sum of the terms c x^i y^j, given as (c, i, j).
fn polynomial(alloc: Global, p: Prime, terms: &[(u32, u32, u32)]) -> Result<Poly, Fail>
    ensures { IfOk result (λ f. f.prime ≡ p) }
{
    let mut sum = Poly::zero(alloc, p);
    for (c, i, j) in terms {
        let term = Term {
            coeff: c % p.get(),
            mono: mono(*i, *j)?,
        };
        sum = sum.add(&Poly::from_term(alloc, p, term)?)?;
    }
    Ok(sum)
}

// Some polynomials.
fn list(alloc: Global, p: Prime, polys: &[&[(u32, u32, u32)]]) -> Result<List<Poly>, Fail>
    ensures { IfOk result (λ fs. All (λ f. f.prime ≡ p) fs) }
{
    let mut list = Vec::new(alloc);
    for terms in polys {
        list.push(polynomial(alloc, p, terms)?)?;
    }
    Ok(List::of_vec(list))
}

// The answer with one point of degree 1 and delta 1 at the origin.
fn text_of(
    alloc: Global,
    denominator: &[(u32, u32, u32)],
    dimension: u32,
    named: Option<u32>,
    numerators: &[&[(u32, u32, u32)]],
) -> Result<List<u8>, Fail> {
    let prime = Prime::new(7).ok_or("prime")?;
    let basis = list(alloc, prime, &[&[(1, 0, 1)], &[(1, 1, 0)]])?;
    let mut points = List::new(alloc);
    points.push(PointLine {
        point: Point { basis, degree: 1 },
        delta: 1,
    })?;
    let answer = Answer {
        prime,
        letters: Letters::new(b"xy").ok_or("letters")?,
        denominator: polynomial(alloc, prime, denominator)?,
        dimension,
        named,
        points,
        power: 1,
        numerators: list(alloc, prime, numerators)?,
    };
    Ok(print_answer(alloc, &answer)?)
}

#[test]
fn the_cusp_and_a_named_point(rt: HostRuntime) -> Result<(), Fail> {
    let cusp = text_of(
        rt.alloc(),
        &[(1, 2, 0)],
        4,
        None,
        &[&[(1, 0, 2)], &[(1, 1, 1)], &[(1, 2, 0)]],
    )?;
    let want =
        "locnormal 1\ncharacteristic 7\nvariables x,y\ndenominator x^2\ndimension 4\npoint y, x; degree 1; delta 1\npower 1\nnumerator y^2\nnumerator x*y\nnumerator x^2\nend\n";
    assert_eq!(rt; cusp.as_slice(), want.as_bytes());
    let read = read_answer(rt.alloc(), want.as_bytes())?;
    assert!(rt; read.named.is_none() && read.dimension == 4 && read.numerators.len() == 3);
    let named = text_of(
        rt.alloc(),
        &[(1, 3, 0), (2, 2, 0), (4, 1, 0)],
        6,
        Some(1),
        &[
            &[(1, 2, 0), (4, 0, 2), (6, 1, 0)],
            &[(1, 0, 3), (1, 1, 1), (6, 0, 1)],
            &[(1, 1, 2), (3, 0, 2)],
        ],
    )?;
    let want =
        "locnormal 2\ncharacteristic 7\nvariables x,y\ndenominator x^3+2*x^2-3*x\ndimension 6\nnamed 1\npoint y, x; degree 1; delta 1\npower 1\nnumerator x^2-3*y^2-x\nnumerator y^3+x*y-y\nnumerator x*y^2+3*y^2\nend\n";
    assert_eq!(rt; named.as_slice(), want.as_bytes());
    let read = read_answer(rt.alloc(), want.as_bytes())?;
    assert!(rt; read.named == Some(1) && read.points.len() == 1 && read.power == 1);
    Ok(())
}

// The text of an answer on the cusp with one line put in place of another.
fn changed(alloc: Global, place: usize, line: &str) -> Result<List<u8>, Fail> {
    let mut text = List::new(alloc);
    for (i, own) in [
        "locnormal 1\n",
        "characteristic 7\n",
        "variables x,y\n",
        "denominator x^2\n",
        "dimension 4\n",
        "point y, x; degree 1; delta 1\n",
        "power 1\n",
        "numerator x*y\n",
        "end\n",
    ]
    .iter()
    .enumerate()
    {
        let bytes = if i == place { line } else { *own };
        text.extend_from_slice(bytes.as_bytes())?;
    }
    Ok(text)
}

#[test]
fn only_the_one_text_is_read(rt: HostRuntime) -> Result<(), Fail> {
    for (place, line) in [
        (4, "dimension 256\n"),
        (5, "point 0; degree 256; delta 64\n"),
        (5, ""),
        (7, "numerator 0\nnumerator -3*x*y^2+1\n"),
    ] {
        let text = changed(rt.alloc(), place, line)?;
        let read = read_answer(rt.alloc(), text.as_slice())?;
        assert_eq!(rt;
            print_answer(rt.alloc(), &read)?.as_slice(),
            text.as_slice()
        );
    }
    for (place, line) in [
        (0, "locnormal 2\n"),
        (0, "locnormal 3\n"),
        (1, "characteristic 9\n"),
        (1, "characteristic 07\n"),
        (2, "variables x,x\n"),
        (2, "variables x,y \n"),
        (4, "dimension 257\n"),
        (4, "dimension 4\r\n"),
        (4, "dimension 4\nnamed 1\n"),
        (5, "point ; degree 1; delta 1\n"),
        (5, "point y, x; degree 0; delta 1\n"),
        (5, "point y, x; degree 1; delta 0\n"),
        (5, "point y,x; degree 1; delta 1\n"),
        (6, "power 65\n"),
        (7, ""),
        (8, "end"),
        (8, "end\nend\n"),
        (8, "end\n\n"),
    ] {
        let text = changed(rt.alloc(), place, line)?;
        let read = read_answer(rt.alloc(), text.as_slice());
        assert!(rt; matches!(read, Err(AnswerFault::NotAnswer)), "at {line}");
    }
    Ok(())
}
