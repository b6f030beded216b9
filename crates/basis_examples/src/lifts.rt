// Bases, colon ideals, lifts and dimensions by hand, modulo 7 in six variables.
ghost use Rattle.std.specs.Prelude.{◌≤◌};

use crate::samples::{are, is, problem_of};
use lift_colon::{Dimension, Lifted, ideal_basis};
use module_basis::BasisStop;
use polys::Poly;
use std::alloc::Global;
use std::test::Fail;

// The bases of the text's ideal and of its denominator, or nothing where they are deep.
fn made(alloc: Global, text: &str, cap: u32) -> Result<Option<Lifted>, Fail>
    requires some { 1 ≤ cap }
    requires within { cap ≤ 1000 }
{
    let problem = problem_of(alloc, text)?;
    let variables = problem.letters.as_slice().len() as u32;
    let ideal = problem.generators.as_slice();
    let Some(d) = &problem.denominator else {
        return Err("no denominator".into());
    };
    match Lifted::make(alloc, problem.prime, variables, ideal, d, cap) {
        Ok(l) => Ok(Some(l)),
        Err(BasisStop::Deep) => Ok(None),
        Err(BasisStop::Memory) => Err("no memory".into()),
    }
}

// The same by the reduced basis of the ideal.
fn by_a_basis(alloc: Global, text: &str, cap: u32) -> Result<Option<Lifted>, Fail>
    requires some { 1 ≤ cap }
    requires within { cap ≤ 1000 }
{
    let problem = problem_of(alloc, text)?;
    let variables = problem.letters.as_slice().len() as u32;
    let ideal = problem.generators.as_slice();
    let Some(d) = &problem.denominator else {
        return Err("no denominator".into());
    };
    let basis = match ideal_basis(alloc, problem.prime, variables, ideal, cap) {
        Ok(basis) => basis,
        Err(BasisStop::Deep) => return Ok(None),
        Err(BasisStop::Memory) => return Err("no memory".into()),
    };
    match Lifted::over_basis(alloc, problem.prime, variables, ideal, basis, d, cap) {
        Ok(l) => Ok(Some(l)),
        Err(BasisStop::Deep) => Ok(None),
        Err(BasisStop::Memory) => Err("no memory".into()),
    }
}

// The bases where they are not deep under the cap 100.
fn shallow(alloc: Global, text: &str) -> Result<Lifted, Fail> {
    match made(alloc, text, 100)? {
        Some(l) => Ok(l),
        None => Err("deep".into()),
    }
}

// The bases of the ideal, of the sum and of the colon ideal, and whether the denominator is regular.
type Known<'a> = (&'a str, &'a str, &'a str, bool);

// Whether the bases are these, and the denominator is regular as is said.
fn are_bases(alloc: Global, l: &Lifted, known: Known) -> Result<bool, Fail> {
    let (ideal, sum, colon, regular) = known;
    if !are(alloc, l.ideal_basis(), ideal)? {
        return Ok(false);
    }
    if !are(alloc, l.sum_basis(), sum)? {
        return Ok(false);
    }
    if !are(alloc, l.colon_gens(), colon)? {
        return Ok(false);
    }
    Ok(l.is_regular()? == regular)
}

// The same of the text's ideal and denominator.
fn has_bases(alloc: Global, text: &str, known: Known) -> Result<bool, Fail> {
    let l = shallow(alloc, text)?;
    are_bases(alloc, &l, known)
}

const ONE: &str = "ring r = 7,(x,y,z,u,v,w),dp; ideal I = 1;";

const X: &str = "ring r = 7,(x,y,z,u,v,w),dp; ideal I = x;";

const Y: &str = "ring r = 7,(x,y,z,u,v,w),dp; ideal I = y;";

const SQUARE: &str = "ring r = 7,(x,y,z,u,v,w),dp; ideal I = x2;";

const CROSS: &str = "ring r = 7,(x,y,z,u,v,w),dp; ideal I = xy;";

const PRODUCT: &str = "ring r = 7,(x,y,z,u,v,w),dp; ideal I = x2y;";

const CUSP: &str = "ring r = 7,(x,y,z,u,v,w),dp; ideal I = x3-y2;";

const CUSP_AND_X: &str = "ring r = 7,(x,y,z,u,v,w),dp; ideal I = x,y2;";

const BY_X: &str = "ring r = 7,(x,y,z,u,v,w),dp; ideal I = x3-y2; poly d = x;";

const CROSS_BY_X: &str = "ring r = 7,(x,y,z,u,v,w),dp; ideal I = xy; poly d = x;";

const DOUBLED_BY_X: &str = "ring r = 7,(x,y,z,u,v,w),dp; ideal I = 3x2y; poly d = x;";

const BY_ONE: &str = "ring r = 7,(x,y,z,u,v,w),dp; ideal I = x3-y2; poly d = 1;";

const Y_BY_CROSS: &str = "ring r = 7,(x,y,z,u,v,w),dp; ideal I = y; poly d = xy;";

const SQUARE_BY_X: &str = "ring r = 7,(x,y,z,u,v,w),dp; ideal I = x2; poly d = x;";

#[test]
fn sums_and_colons(rt: HostRuntime) -> Result<(), Fail> {
    assert!(rt; has_bases(rt.alloc(), BY_X, (CUSP, CUSP_AND_X, CUSP, true))?);
    assert!(rt; has_bases(rt.alloc(), CROSS_BY_X, (CROSS, X, Y, false))?);
    assert!(rt; has_bases(rt.alloc(), DOUBLED_BY_X, (PRODUCT, X, CROSS, false))?);
    assert!(rt; has_bases(rt.alloc(), BY_ONE, (CUSP, ONE, CUSP, true))?);
    assert!(rt; has_bases(rt.alloc(), Y_BY_CROSS, (Y, Y, ONE, false))?);
    // a zero divisor
    assert!(rt; has_bases(rt.alloc(), SQUARE_BY_X, (SQUARE, X, X, false))?);
    Ok(())
}

const TWO_BY_Y: &str = "ring r = 7,(x,y,z,u,v,w),dp; ideal I = 3x2+2xy,xy; poly d = y;";

const CROSS_AND_SQUARE: &str = "ring r = 7,(x,y,z,u,v,w),dp; ideal I = xy,x2;";

const Y_AND_SQUARE: &str = "ring r = 7,(x,y,z,u,v,w),dp; ideal I = y,x2;";

#[test]
fn bases_by_a_basis(rt: HostRuntime) -> Result<(), Fail> {
    let known: Known = (CROSS_AND_SQUARE, Y_AND_SQUARE, X, false);
    match by_a_basis(rt.alloc(), TWO_BY_Y, 100)? {
        Some(l) => assert!(rt; are_bases(rt.alloc(), &l, known)?),
        None => return Err("deep".into()),
    }
    assert!(rt; by_a_basis(rt.alloc(), TWO_BY_Y, 1)?.is_none());
    Ok(())
}

#[test]
fn deep_denominators(rt: HostRuntime) -> Result<(), Fail> {
    assert!(rt; made(rt.alloc(), BY_X, 2)?.is_none());
    assert!(rt; made(rt.alloc(), BY_X, 4)?.is_some());
    Ok(())
}

// The lift of the one generator of the text's problem, or nothing.
fn lift_of(alloc: Global, l: &Lifted, text: &str) -> Result<Option<Poly>, Fail> {
    let problem = problem_of(alloc, text)?;
    let gs = problem.generators.as_slice();
    if problem.prime.get() != l.prime().get() || gs.len() != 1 {
        return Err("another prime".into());
    }
    if problem.letters.as_slice().len() != l.variables() as usize {
        return Err("other variables".into());
    }
    Ok(l.lift(alloc, &gs[0])?)
}

// Whether the lift of g by x on the cusp is u.
fn is_lift(alloc: Global, g: &str, u: &str) -> Result<bool, Fail> {
    let l = shallow(alloc, BY_X)?;
    match lift_of(alloc, &l, g)? {
        Some(found) => is(alloc, &found, u),
        None => Ok(false),
    }
}

// Whether g has no lift by x on the cusp.
fn has_no_lift(alloc: Global, g: &str) -> Result<bool, Fail> {
    let l = shallow(alloc, BY_X)?;
    Ok(lift_of(alloc, &l, g)?.is_none())
}

const SQUARES: &str = "ring r = 7,(x,y,z,u,v,w),dp; ideal I = y2;";

const MULTIPLE: &str = "ring r = 7,(x,y,z,u,v,w),dp; ideal I = xy+3x;";

const QUOTIENT: &str = "ring r = 7,(x,y,z,u,v,w),dp; ideal I = y+3;";

const ZERO: &str = "ring r = 7,(x,y,z,u,v,w),dp; ideal I = 0;";

#[test]
fn lifts(rt: HostRuntime) -> Result<(), Fail> {
    // y^2 is x^2 times x on the curve, and x y + 3 x is (y + 3) x
    assert!(rt; is_lift(rt.alloc(), SQUARES, SQUARE)?);
    assert!(rt; is_lift(rt.alloc(), MULTIPLE, QUOTIENT)?);
    assert!(rt; is_lift(rt.alloc(), ZERO, ZERO)?);
    assert!(rt; has_no_lift(rt.alloc(), Y)?);
    Ok(())
}

// Whether the dimension modulo the text's ideal and denominator is this.
fn has_dimension(alloc: Global, text: &str, limit: u32, wanted: Dimension) -> Result<bool, Fail> {
    let l = shallow(alloc, text)?;
    Ok(l.dimension(alloc, limit)? == wanted)
}

const PLANE_BY_X: &str = "ring r = 7,(x,y,z,u,v,w),dp; ideal I = x3-y2,z,u,v,w; poly d = x;";

const PLANE_BY_Y: &str = "ring r = 7,(x,y,z,u,v,w),dp; ideal I = x3-y2,z,u,v,w; poly d = y;";

const PLANE_BY_ONE: &str = "ring r = 7,(x,y,z,u,v,w),dp; ideal I = x3-y2,z,u,v,w; poly d = 1;";

const PLANE_CROSS: &str = "ring r = 7,(x,y,z,u,v,w),dp; ideal I = xy,z,u,v,w; poly d = x;";

#[test]
fn dimensions(rt: HostRuntime) -> Result<(), Fail> {
    assert!(rt; has_dimension(rt.alloc(), PLANE_BY_X, 2, Dimension::Finite(2))?);
    assert!(rt; has_dimension(rt.alloc(), PLANE_BY_X, 1, Dimension::Wide)?);
    assert!(rt; has_dimension(rt.alloc(), PLANE_BY_Y, 3, Dimension::Finite(3))?);
    assert!(rt; has_dimension(rt.alloc(), PLANE_BY_ONE, 0, Dimension::Finite(0))?);
    assert!(rt; has_dimension(rt.alloc(), PLANE_CROSS, 100, Dimension::Infinite)?);
    assert!(rt; has_dimension(rt.alloc(), PLANE_BY_X, u32::MAX, Dimension::Finite(2))?);
    Ok(())
}
