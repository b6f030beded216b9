// From a book to what is told.
ghost use Rattle.std.specs.Prelude.{◌≡◌, ◌≤◌, length, map, IfOk};
ghost use Rattle.polys.specs.Curve.{HasDimModulo, data_of};
ghost use Rattle.curve_model.specs.Point.{basis_of};
ghost use Rattle.problem.specs.Problem.{IsFitProblem, curve_of, problem_data};
ghost use Rattle.jacobian_pick.specs.Choice.{IsLiftedOf as IsBasesOf};
ghost use Rattle.digit_plan.specs.Lifts.{IsLiftedOf};
ghost use Rattle.join_book.specs.Whole.{IsWhole};
ghost use Rattle.norm_text.specs.Answers.{named_number};
ghost use Rattle.norm_text.specs.Named.{IsNamedList};
ghost use Rattle.curve_answer.specs.Reading.{AreLinesOf};
ghost use Rattle.curve_answer.specs.Telling.{IsRight, Tells};

use super::closing::closure_at;
use super::reading::{Lines, lines_of, without_zeros};
use super::told::Told;
use curve_laws::laws::one_ideal_has_one_closure;
use join_book::Book;
use lift_colon::Lifted;
use lists::{List, NoMemory};
use norm_text::{Answer, PointLine};
use problem::{Letters, Problem};
use std::alloc::Global;

// How many points the book has: distinct points of a fit curve are few.
fn count_of(book: &Book) -> usize
    ensures count { result ≡ length book.now.points }
    ensures few { result ≤ 256 }
{
    let _known = book.sum();
    book.points().len()
}

// The number that version 2 of the text tells, where points are named.
fn named_of(problem: &Problem, count: usize) -> Option<u32>
    requires { count ≤ 256 }
    ensures { result ≡ named_number (problem_data problem.now).at count }
{
    if problem.at.as_slice().is_empty() {
        return None;
    }
    Some(count as u32)
}

// The same letters again.
fn copy_of_letters(letters: &Letters) -> Letters
    ensures { result ≡ letters.now }
{
    match Letters::new(letters.as_slice()) {
        Some(copy) => copy,
        None => unreachable!(),
    }
}

// The answer, where delta is at most the limit at each point.
fn right(
    alloc: Global,
    problem: &Problem,
    lifted: &Lifted,
    dimension: u32,
    book: &Book,
    lines: List<PointLine>,
) -> Result<Answer, NoMemory>
    requires problem { IsFitProblem problem.now }
    requires bases { IsBasesOf (problem_data problem.now) lifted.now }
    requires lifted { IsLiftedOf book.now.curve lifted.now }
    requires dimension { HasDimModulo (curve_of (problem_data problem.now) lifted.now.denominator.terms) dimension }
    requires whole { IsWhole book.now.curve book.now.points book.now.limit book.now }
    requires named { IsNamedList (problem_data problem.now) (data_of book.now.curve) (map basis_of book.now.points) }
    requires lines { AreLinesOf (data_of book.now.curve) book.now.limit book.now.points lines }
    ensures { IfOk result (IsRight problem.now lifted.now.denominator.terms book.now.limit) }
{
    one_ideal_has_one_closure();
    let _known = book.sum();
    let made = closure_at(alloc, lifted, book)?;
    let named = named_of(problem, count_of(book));
    Ok(Answer {
        prime: problem.prime,
        letters: copy_of_letters(&problem.letters),
        denominator: lifted.denominator().clone_poly()?,
        dimension,
        named,
        points: without_zeros(alloc, lines)?,
        power: made.power,
        numerators: made.numerators,
    })
}

/// What is told of the problem by a book in which all work on its named points is done: the answer, where delta is at most the
/// limit at each of them, and else the first point at which it is above.
///
/// The problem's polynomials are small enough; `lifted` has the bases of its ideal and of the denominator, of which the book's curve
/// is made; `dimension` is that of the polynomials modulo both; and the book's points are the named ones, in byte order of their
/// texts.
///
/// # Errors
/// Want of memory.
///
/// Greuel and Pfister, section on normalization; Böhm, Decker, Laplagne, Pfister, Steenpass and Steidel, Parallel Algorithms for
/// Normalization, the sum of the local contributions.
pub fn answer_of(
    alloc: Global,
    problem: &Problem,
    lifted: &Lifted,
    dimension: u32,
    book: &Book,
) -> Result<Told, NoMemory>
    requires problem { IsFitProblem problem.now }
    requires bases { IsBasesOf (problem_data problem.now) lifted.now }
    requires lifted { IsLiftedOf book.now.curve lifted.now }
    requires dimension { HasDimModulo (curve_of (problem_data problem.now) lifted.now.denominator.terms) dimension }
    requires whole { IsWhole book.now.curve book.now.points book.now.limit book.now }
    requires named { IsNamedList (problem_data problem.now) (data_of book.now.curve) (map basis_of book.now.points) }
    ensures { IfOk result (Tells problem.now lifted.now.denominator.terms book.now.limit) }
{
    one_ideal_has_one_closure();
    let _known = book.sum();
    match lines_of(alloc, book)? {
        Lines::Within(lines) => {
            let answer = right(alloc, problem, lifted, dimension, book, lines)?;
            Ok(Told::Answer(answer))
        }
        Lines::Above(point) => Ok(Told::Above(point)),
    }
}
