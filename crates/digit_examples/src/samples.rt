// Curves and polynomials modulo 7, in the variables x and y, by their texts.
ghost use Rattle.std.specs.Prelude.{◌≡◌, IfOk};
ghost use Rattle.polys.specs.Curve.{Fit};
ghost use Rattle.problem.specs.Problem.{HasFitPolynomials};
ghost use Rattle.jacobian_pick.specs.Choice.{curve_of_lifted};
ghost use Rattle.digit_plan.specs.Lifts.{IsLiftedOf};

use jacobian_pick::pick;
use lift_colon::Lifted;
use polys::{Curve, copied};
use problem::Problem;
use singular_text::read_problem;
use std::alloc::Global;
use std::sync::Arc;
use std::test::Fail;

/// The cusp, with a denominator of four corners.
pub const CUSP: &str = "ring r = 7,(x,y),dp; ideal I = x3-y2; poly d = x2;";

/// The denominator 1 leaves no corners.
pub const UNIT: &str = "ring r = 7,(x,y),dp; ideal I = x3-y2; poly d = 1;";

/// A curve that is fit, and its bases.
#[derive(Drop)]
pub struct Sample {
    pub curve: Arc<Curve>,
    pub lifted: Lifted,
}

/// The problem of the text.
///
/// # Errors
/// A text that is no problem; want of memory.
pub fn problem_of(alloc: Global, text: &str) -> Result<Problem, Fail>
    ensures { IfOk result HasFitPolynomials }
{
    match read_problem(alloc, text.as_bytes()) {
        Ok(problem) => Ok(problem),
        Err(_) => Err("no problem".into()),
    }
}

// The bases of the problem's ideal and denominator.
fn bases(alloc: Global, text: &str) -> Result<Lifted, Fail>
    ensures { IfOk result (λ l. Fit (curve_of_lifted l)) }
{
    let problem = problem_of(alloc, text)?;
    match pick(alloc, &problem, 200) {
        Ok(lifted) => Ok(lifted),
        Err(_) => Err("no denominator".into()),
    }
}

/// The curve of the text, and its bases.
///
/// # Errors
/// A text that is no problem, or whose denominator is refused; want of memory.
pub fn sample_of(alloc: Global, text: &str) -> Result<Sample, Fail>
    ensures fit { IfOk result (λ s. Fit s.curve.value) }
    ensures lifted { IfOk result (λ s. IsLiftedOf s.curve.value s.lifted) }
{
    let lifted = bases(alloc, text)?;
    let curve = Curve {
        prime: lifted.prime(),
        variables: lifted.variables(),
        ideal: copied(alloc, lifted.ideal_basis())?,
        denominator: lifted.denominator().clone_poly()?,
    };
    Ok(Sample {
        curve: Arc::new(alloc, curve)?,
        lifted,
    })
}
