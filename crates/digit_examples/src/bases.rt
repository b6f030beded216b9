// Reduced bases by hand: the multiples of a power of the denominator, on the cusp y^2 = x^3 with the denominator x^2.
ghost use Rattle.std.specs.Prelude.{◌≤◌};

use crate::samples::{CUSP, UNIT, problem_of, sample_of};
use corner_basis::{reduced_basis_of, reduced_basis_of_front, zero_space};
use digit_make::make;
use polys::Poly;
use std::alloc::Global;
use std::test::Fail;

// Whether the polynomial is the one with this number.
fn is_at(list: &[Poly], place: usize, f: &Poly) -> bool {
    match list.get(place) {
        Some(g) => g.same(f),
        None => false,
    }
}

// Whether these are the generators of the problem, in this order.
fn are(alloc: Global, found: &[Poly], wanted: &str) -> Result<bool, Fail> {
    let problem = problem_of(alloc, wanted)?;
    let generators = problem.generators.as_slice();
    for i in 0..found.len() {
        if !is_at(generators, i, &found[i]) {
            return Ok(false);
        }
    }
    Ok(found.len() == generators.len())
}

// Whether the first blocks of digits give this basis, the digits having so many blocks.
fn gives(alloc: Global, curve: &str, depth: u32, blocks: u32, wanted: &str) -> Result<bool, Fail>
    requires blocks { blocks ≤ depth }
    requires depth { depth ≤ 200 }
{
    let s = sample_of(alloc, curve)?;
    let digits = make(alloc, &s.curve, &s.lifted, depth)?;
    let space = zero_space(&digits, blocks);
    let found = reduced_basis_of_front(&digits, blocks, &space)?;
    are(alloc, found.as_slice(), wanted)
}

// Whether all blocks of digits do.
fn gives_all(alloc: Global, curve: &str, depth: u32, wanted: &str) -> Result<bool, Fail>
    requires { depth ≤ 200 }
{
    let s = sample_of(alloc, curve)?;
    let digits = make(alloc, &s.curve, &s.lifted, depth)?;
    let space = zero_space(&digits, digits.depth());
    let found = reduced_basis_of(&digits, &space)?;
    are(alloc, found.as_slice(), wanted)
}

const ONE: &str = "ring r = 7,(x,y),dp; ideal I = 1;";

const FIRST: &str = "ring r = 7,(x,y),dp; ideal I = y2,x2;";

const SECOND: &str = "ring r = 7,(x,y),dp; ideal I = xy2,x3-y2,y4;";

#[test]
fn multiples_of_the_denominator(rt: HostRuntime) -> Result<(), Fail> {
    assert!(rt; gives(rt.alloc(), CUSP, 1, 1, FIRST)?);
    assert!(rt; gives(rt.alloc(), CUSP, 2, 2, SECOND)?);
    Ok(())
}

#[test]
fn first_blocks(rt: HostRuntime) -> Result<(), Fail> {
    assert!(rt; gives(rt.alloc(), CUSP, 2, 1, FIRST)?);
    Ok(())
}

#[test]
fn all_polynomials(rt: HostRuntime) -> Result<(), Fail> {
    assert!(rt; gives(rt.alloc(), CUSP, 0, 0, ONE)?);
    assert!(rt; gives(rt.alloc(), CUSP, 2, 0, ONE)?);
    assert!(rt; gives(rt.alloc(), UNIT, 2, 2, ONE)?);
    Ok(())
}

#[test]
fn all_blocks(rt: HostRuntime) -> Result<(), Fail> {
    assert!(rt; gives_all(rt.alloc(), CUSP, 2, SECOND)?);
    Ok(())
}
