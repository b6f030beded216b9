// Problems and lists of polynomials by their texts.
ghost use Rattle.std.specs.Prelude.{IfOk};
ghost use Rattle.problem.specs.Problem.{HasFitPolynomials};

use polys::Poly;
use problem::Problem;
use singular_text::read_problem;
use std::alloc::Global;
use std::test::Fail;

// The problem of the text.
pub(crate) fn problem_of(alloc: Global, text: &str) -> Result<Problem, Fail>
    ensures { IfOk result HasFitPolynomials }
{
    match read_problem(alloc, text.as_bytes()) {
        Ok(problem) => Ok(problem),
        Err(_) => Err("no problem".into()),
    }
}

// Whether the polynomial is the one with this number.
pub(crate) fn is_at(list: &[Poly], place: usize, f: &Poly) -> bool {
    match list.get(place) {
        Some(g) => g.same(f),
        None => false,
    }
}

// Whether these are the generators of the text's problem, in this order.
pub(crate) fn are(alloc: Global, found: &[Poly], wanted: &str) -> Result<bool, Fail> {
    let problem = problem_of(alloc, wanted)?;
    let generators = problem.generators.as_slice();
    for i in 0..found.len() {
        if !is_at(generators, i, &found[i]) {
            return Ok(false);
        }
    }
    Ok(found.len() == generators.len())
}

// Whether this is the one generator of the text's problem.
pub(crate) fn is(alloc: Global, found: &Poly, wanted: &str) -> Result<bool, Fail> {
    let problem = problem_of(alloc, wanted)?;
    let generators = problem.generators.as_slice();
    Ok(generators.len() == 1 && is_at(generators, 0, found))
}
