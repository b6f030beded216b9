// Problems whose candidates and denominators were worked out by hand.
ghost use Rattle.std.specs.Prelude.{◌≤◌, IfOk};
ghost use Rattle.problem.specs.Problem.{HasFitPolynomials};
ghost use Rattle.jacobian_pick.specs.Lists.{IsBasisOf};

use crate::samples::{are, is, is_at, problem_of};
use jacobian_pick::{PickStop, candidates, pick};
use lift_colon::ideal_basis;
use lists::List;
use module_basis::BasisStop;
use polys::Poly;
use problem::Problem;
use std::alloc::Global;
use std::test::Fail;

// The reduced basis of the ideal of the problem.
fn basis_of(alloc: Global, problem: &Problem) -> Result<List<Poly>, Fail>
    requires { HasFitPolynomials problem.now }
    ensures { IfOk result (IsBasisOf problem.now) }
{
    let variables = problem.letters.as_slice().len() as u32;
    let ideal = problem.generators.as_slice();
    match ideal_basis(alloc, problem.prime, variables, ideal, 200) {
        Ok(basis) => Ok(basis),
        Err(BasisStop::Deep) => Err("deep".into()),
        Err(BasisStop::Memory) => Err("no memory".into()),
    }
}

// The candidates for a denominator of the text's problem.
fn candidates_of(alloc: Global, text: &str) -> Result<List<Poly>, Fail> {
    let problem = problem_of(alloc, text)?;
    let basis = basis_of(alloc, &problem)?;
    Ok(candidates(alloc, &problem, basis.as_slice())?)
}

// Whether the list begins with the generators of the text's problem.
fn begins(alloc: Global, list: &[Poly], wanted: &str) -> Result<bool, Fail> {
    let problem = problem_of(alloc, wanted)?;
    let generators = problem.generators.as_slice();
    for i in 0..generators.len() {
        if !is_at(list, i, &generators[i]) {
            return Ok(false);
        }
    }
    Ok(true)
}

// Whether the text's problem has these candidates, in this order.
fn has_candidates(alloc: Global, text: &str, wanted: &str) -> Result<bool, Fail> {
    let list = candidates_of(alloc, text)?;
    are(alloc, list.as_slice(), wanted)
}

// Whether its candidates begin with these.
fn has_first_candidates(alloc: Global, text: &str, wanted: &str) -> Result<bool, Fail> {
    let list = candidates_of(alloc, text)?;
    begins(alloc, list.as_slice(), wanted)
}

// Whether it has none.
fn has_no_candidates(alloc: Global, text: &str) -> Result<bool, Fail> {
    let list = candidates_of(alloc, text)?;
    Ok(list.len() == 0)
}

const NODE: &str = "ring r = 5,(x,y),dp; ideal I = xy;";

const OF_NODE: &str = "ring r = 5,(x,y),dp; ideal I = y,x,x+y,x+3y,x+2y,x+4y,x2+y,xy+y,xy+x,y2+x;";

const LINE: &str = "ring r = 2,(x),dp; ideal I = 0;";

const OF_LINE: &str = "ring r = 2,(x),dp; ideal I = 1;";

const FOUR: &str = "ring r = 7,(w,x,y,z),dp; ideal I = w+6x,x+6y;";

#[test]
fn candidates_of_problems(rt: HostRuntime) -> Result<(), Fail> {
    assert!(rt; has_candidates(rt.alloc(), NODE, OF_NODE)?);
    assert!(rt; has_candidates(rt.alloc(), LINE, OF_LINE)?);
    assert!(rt; has_no_candidates(rt.alloc(), FOUR)?);
    Ok(())
}

const SPACE: &str = "ring r = 101,(x,y,z),dp; ideal I = y2+100xz,x3+100yz,z2+100x2y;";

const OF_SPACE: &str = "ring r = 101,(x,y,z),dp; ideal I = x2y+84z2;";

#[test]
fn first_candidate_of_a_space_curve(rt: HostRuntime) -> Result<(), Fail> {
    assert!(rt; has_first_candidates(rt.alloc(), SPACE, OF_SPACE)?);
    Ok(())
}

// Whether the choice stops for this reason.
fn stops(alloc: Global, text: &str, cap: u32, wanted: PickStop) -> Result<bool, Fail>
    requires some { 1 ≤ cap }
    requires within { cap ≤ 1000 }
{
    let problem = problem_of(alloc, text)?;
    match pick(alloc, &problem, cap) {
        Ok(_) => Ok(false),
        Err(stop) => Ok(stop == wanted),
    }
}

const CROSSED: &str = "ring r = 7,(x,y),dp; ideal I = x3+6y,y3+6x;";

const UNIT: &str = "ring r = 7,(x,y),dp; ideal I = 1;";

const NODE_BY_X: &str = "ring r = 5,(x,y),dp; ideal I = xy; poly d = x;";

const PLANE_BY_X: &str = "ring r = 5,(x,y),dp; ideal I = 0; poly d = x;";

const PLANE: &str = "ring r = 5,(x,y),dp; ideal I = 0;";

const HIGH: &str = "ring r = 7,(x,y),dp; ideal I = y5+6x6; poly d = x60;";

const CUSP_BY_A_SUM: &str = "ring r = 7,(x,y),dp; ideal I = y2+6x3; poly d = x2+y;";

#[test]
fn reasons_without_a_denominator(rt: HostRuntime) -> Result<(), Fail> {
    assert!(rt; stops(rt.alloc(), CROSSED, 4, PickStop::Deep)?);
    assert!(rt; stops(rt.alloc(), UNIT, 200, PickStop::Unit)?);
    assert!(rt; stops(rt.alloc(), NODE_BY_X, 200, PickStop::ZeroDivisor)?);
    assert!(rt; stops(rt.alloc(), PLANE_BY_X, 200, PickStop::Infinite)?);
    assert!(rt; stops(rt.alloc(), PLANE, 200, PickStop::NoDenominator)?);
    assert!(rt; stops(rt.alloc(), HIGH, 200, PickStop::Wide)?);
    assert!(rt; stops(rt.alloc(), CUSP_BY_A_SUM, 3, PickStop::DenominatorDeep)?);
    Ok(())
}

// Whether this is the denominator.
fn picks(alloc: Global, text: &str, wanted: &str) -> Result<bool, Fail> {
    let problem = problem_of(alloc, text)?;
    match pick(alloc, &problem, 200) {
        Ok(lifted) => is(alloc, lifted.denominator(), wanted),
        Err(_) => Ok(false),
    }
}

const SUM: &str = "ring r = 5,(x,y),dp; ideal I = x+y;";

const CUSP: &str = "ring r = 7,(x,y),dp; ideal I = y2+6x3; poly d = 3x;";

const X: &str = "ring r = 7,(x,y),dp; ideal I = x;";

#[test]
fn denominators_of_problems(rt: HostRuntime) -> Result<(), Fail> {
    assert!(rt; picks(rt.alloc(), NODE, SUM)?);
    assert!(rt; picks(rt.alloc(), CUSP, X)?);
    Ok(())
}
