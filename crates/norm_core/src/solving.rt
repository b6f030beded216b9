// From a problem to the text of its answer.
ghost use Rattle.std.specs.Prelude.{◌≡◌, ◌⊎◌, ◌≤◌, ℕ, List, length, map, IfOk, IfErr};
ghost use Rattle.module_basis.specs.declared.cap.TheConstants.{MAX_CAP};
ghost use Rattle.polys.specs.Curve.{Fit, data_of};
ghost use Rattle.curve_model.specs.Point.{basis_of};
ghost use Rattle.problem.specs.Problem.{IsFitProblem, problem_data};
ghost use Rattle.jacobian_pick.specs.Choice.{IsLiftedOf as IsBasesOf, curve_of_lifted};
ghost use Rattle.digit_plan.specs.Lifts.{IsLiftedOf};
ghost use Rattle.join_book.specs.Whole.{IsWhole};
ghost use Rattle.norm_text.specs.Named.{IsNamedList};
ghost use Rattle.curve_answer.specs.Telling.{Tells};
ghost use Rattle.norm_core.specs.Refusals.{line_of, status_of};
ghost use Rattle.norm_core.specs.Solved.{HaveOneDimension, IsRefusedByDelta, IsSolved, own_delta_line};
ghost use Rattle.norm_core.specs.Telling.{IsSolvable, Solves, HasStatus};

use crate::refusals::Refusal;
use curve_answer::{Told, answer_of};
use curve_model::Point;
use digit_make::make;
use digit_space::Digits;
use jacobian_pick::pick;
use join_book::Book;
use lift_colon::Lifted;
use lists::{List, NoMemory};
use named_points::named_points;
use norm_text::{print_answer, print_list};
use poly_text::print_bytes;
use polys::{Curve, copied};
use singular_text::{Letters, Problem};
use std::alloc::Global;
use std::sync::Arc;
use strata_work::{Hand, copies_of_points, worked};

// The curve whose bases these are.
fn curve_of(alloc: Global, lifted: &Lifted) -> Result<Arc<Curve>, NoMemory>
    ensures { IfOk result (λ curve. curve.value ≡ curve_of_lifted lifted.now) }
{
    let curve = Curve {
        prime: lifted.prime(),
        variables: lifted.variables(),
        ideal: copied(alloc, lifted.ideal_basis())?,
        denominator: lifted.denominator().clone_poly()?,
    };
    Ok(Arc::new(alloc, curve)?)
}

// The book of all work on the named points, in their order.
fn book_of(
    alloc: Global,
    problem: &Problem,
    digits: &Digits,
    lifted: Arc<Lifted>,
    limit: u32,
) -> Result<Book, NoMemory>
    requires problem { IsFitProblem problem.now }
    requires depth { digits.now.depth ≡ 1 }
    requires lifted { IsLiftedOf digits.now.curve lifted.value }
    requires prime { digits.now.curve.prime ≡ problem.now.prime }
    requires variables { digits.now.curve.variables ≡ length problem.now.letters }
    requires limit { (1 ≤ limit) × (limit ≤ 64) }
    ensures whole { IfOk result (λ book. IsWhole digits.now.curve book.points limit book) }
    ensures named { IfOk result (λ book. IsNamedList (problem_data problem.now) (data_of digits.now.curve) (map basis_of book.points)) }
{
    let _basis = digits.basis();
    let points = named_points(problem, digits)?;
    let own = copies_of_points(alloc, points.as_slice())?;
    let curve = Arc::try_clone(digits.curve())?;
    let mut hand = Hand::new(alloc, Arc::try_clone(&curve)?, lifted, own, limit)?;
    worked(alloc, curve, digits.dimension(), points, limit, &mut hand)
}

// The line of the refusal by the delta of the point.
fn delta_line(alloc: Global, letters: &Letters, point: &Point) -> Result<List<u8>, NoMemory>
    ensures { IfOk result (λ line. line ≡ own_delta_line letters.now point.now) }
{
    let mut line = List::new(alloc);
    print_bytes(b"refused: delta ", &mut line)?;
    print_list(letters, point.basis.as_slice(), &mut line)?;
    line.push(b'\n')?;
    Ok(line)
}

// The answer to the problem, or the first named point whose delta is above the limit.
fn told_of(alloc: Global, problem: &Problem, lifted: Lifted, limit: u32) -> Result<Told, NoMemory>
    requires problem { IsFitProblem problem.now }
    requires bases { IsBasesOf (problem_data problem.now) lifted }
    requires fit { Fit (curve_of_lifted lifted) }
    requires dimension { HaveOneDimension (problem_data problem.now) lifted }
    requires limit { (1 ≤ limit) × (limit ≤ 64) }
    ensures { IfOk result (Tells problem.now lifted.denominator.terms limit) }
{
    let curve = curve_of(alloc, &lifted)?;
    let lifted = Arc::new(alloc, lifted)?;
    let digits = make(alloc, &curve, &lifted, 1)?;
    let book = book_of(alloc, problem, &digits, Arc::try_clone(&lifted)?, limit)?;
    answer_of(alloc, problem, &lifted, digits.dimension(), &book)
}

// The text of the answer, or the refusal by delta.
fn answer_with(
    alloc: Global,
    problem: &Problem,
    lifted: Lifted,
    limit: u32,
) -> Result<List<u8>, Refusal>
    requires problem { IsFitProblem problem.now }
    requires bases { IsBasesOf (problem_data problem.now) lifted }
    requires fit { Fit (curve_of_lifted lifted) }
    requires dimension { HaveOneDimension (problem_data problem.now) lifted }
    requires limit { (1 ≤ limit) × (limit ≤ 64) }
    ensures answered { IfOk result (λ text. IsSolved (problem_data problem.now) lifted.denominator.terms limit text) }
    ensures refused { IfErr result (λ refusal. (status_of refusal ≡ 30) ⊎ ((status_of refusal ≡ 10) × IsRefusedByDelta (problem_data problem.now) lifted.denominator.terms limit (line_of refusal))) }
{
    match told_of(alloc, problem, lifted, limit)? {
        Told::Answer(answer) => Ok(print_answer(alloc, &answer)?),
        Told::Above(point) => {
            let line = delta_line(alloc, &problem.letters, &point)?;
            Err(Refusal::Delta(line))
        }
    }
}

/// The text of the answer to the problem under the degree cap and the limit of delta, or why there is none.
pub fn solve(alloc: Global, problem: &Problem, cap: u32, limit: u32) -> Result<List<u8>, Refusal>
    requires fit { IsFitProblem problem.now }
    requires cap { (1 ≤ cap) × (cap ≤ MAX_CAP) }
    requires limit { (1 ≤ limit) × (limit ≤ 64) }
    ensures answered { IfOk result (λ text. Solves (problem_data problem.now) cap limit 0 text) }
    ensures refused { IfErr result (λ refusal. (status_of refusal ≡ 30) ⊎ Solves (problem_data problem.now) cap limit (status_of refusal) (line_of refusal)) }
    ensures exact { (status : ℕ) (text : List ℕ) → Solves (problem_data problem.now) cap limit status text → HasStatus result status }
    ensures complete { IsSolvable (problem_data problem.now) cap limit → HasStatus result 0 }
{
    let _prime = problem.prime.get();
    let lifted = pick(alloc, problem, cap)?;
    answer_with(alloc, problem, lifted, limit)
}
