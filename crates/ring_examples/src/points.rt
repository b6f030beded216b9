// Points of curves modulo 7 by hand: the cusp, a curve with two nodes, and one whose point has the degree 2.
use digit_examples::samples::{CUSP, UNIT, problem_of, sample_of};
use digit_make::make;
use lists::List;
use polys::Poly;
use split_points::{CurvePoint, points_of};
use std::alloc::Global;
use std::test::Fail;

// The nodes are at x = 0 and at x = 1.
const NODES: &str = "ring r = 7,(x,y),dp; ideal I = y2-x4+2x3-x2; poly d = x2-x;";

// Modulo 7 no square is -1.
const DOUBLE: &str = "ring r = 7,(x,y),dp; ideal I = y2-x6-3x4-3x2-1; poly d = x2+1;";

fn points(alloc: Global, curve: &str) -> Result<List<CurvePoint>, Fail> {
    let s = sample_of(alloc, curve)?;
    let digits = make(alloc, &s.curve, &s.lifted, 1)?;
    let found = points_of(&digits)?;
    Ok(found)
}

// Whether the polynomial is the one with this number.
fn is_at(list: &[Poly], place: usize, f: &Poly) -> bool {
    match list.get(place) {
        Some(g) => g.same(f),
        None => false,
    }
}

// Whether these are the generators of the problem, in this order.
fn are(alloc: Global, found: &[Poly], wanted: &str) -> Result<bool, Fail> {
    let problem = problem_of(alloc, wanted)?;
    let generators = problem.generators.as_slice();
    for i in 0..found.len() {
        if !is_at(generators, i, &found[i]) {
            return Ok(false);
        }
    }
    Ok(found.len() == generators.len())
}

// Whether the rows one after the other are this list.
fn are_rows(rows: &[List<u32>], wanted: &[u32]) -> bool {
    let mut rest = wanted;
    for i in 0..rows.len() {
        match rest.strip_prefix(rows[i].as_slice()) {
            Some(behind) => rest = behind,
            None => return false,
        }
    }
    rest.is_empty()
}

// What is wanted of a point: the reduced basis, the digits of the idempotent, and the values of the corners, row after row.
#[derive(Drop)]
struct Wanted<'a> {
    basis: &'a str,
    degree: u32,
    idempotent: &'a [u32],
    values: &'a [u32],
}

fn is_wanted(alloc: Global, found: &CurvePoint, wanted: &Wanted) -> Result<bool, Fail> {
    let same = are(alloc, found.point.basis.as_slice(), wanted.basis)?;
    Ok(
        same && found.point.degree == wanted.degree
            && found.idempotent.as_slice() == wanted.idempotent
            && are_rows(found.values.as_slice(), wanted.values),
    )
}

fn has(alloc: Global, found: &[CurvePoint], wanted: &Wanted) -> Result<bool, Fail> {
    for i in 0..found.len() {
        if is_wanted(alloc, &found[i], wanted)? {
            return Ok(true);
        }
    }
    Ok(false)
}

// The corners of each of these curves are 1, y, x and x y.

#[test]
fn one_point(rt: HostRuntime) -> Result<(), Fail> {
    let found = points(rt.alloc(), CUSP)?;
    let origin = Wanted {
        basis: "ring r = 7,(x,y),dp; ideal I = y,x;",
        degree: 1,
        idempotent: &[1, 0, 0, 0],
        values: &[1, 0, 0, 0],
    };
    assert_eq!(rt; found.len(), 1);
    assert!(rt; has(rt.alloc(), found.as_slice(), &origin)?);
    Ok(())
}

#[test]
fn two_points(rt: HostRuntime) -> Result<(), Fail> {
    let found = points(rt.alloc(), NODES)?;
    let at_0 = Wanted {
        basis: "ring r = 7,(x,y),dp; ideal I = y,x;",
        degree: 1,
        idempotent: &[1, 0, 6, 0],
        values: &[1, 0, 0, 0],
    };
    let at_1 = Wanted {
        basis: "ring r = 7,(x,y),dp; ideal I = y,x-1;",
        degree: 1,
        idempotent: &[0, 0, 1, 0],
        values: &[1, 0, 1, 0],
    };
    assert_eq!(rt; found.len(), 2);
    assert!(rt; has(rt.alloc(), found.as_slice(), &at_0)?);
    assert!(rt; has(rt.alloc(), found.as_slice(), &at_1)?);
    Ok(())
}

#[test]
fn point_of_degree_two(rt: HostRuntime) -> Result<(), Fail> {
    let found = points(rt.alloc(), DOUBLE)?;
    let double = Wanted {
        basis: "ring r = 7,(x,y),dp; ideal I = y,x2+1;",
        degree: 2,
        idempotent: &[1, 0, 0, 0],
        values: &[1, 0, 0, 0, 0, 1, 0, 0],
    };
    assert_eq!(rt; found.len(), 1);
    assert!(rt; has(rt.alloc(), found.as_slice(), &double)?);
    Ok(())
}

#[test]
fn no_point(rt: HostRuntime) -> Result<(), Fail> {
    let found = points(rt.alloc(), UNIT)?;
    assert_eq!(rt; found.len(), 0);
    Ok(())
}
