// The named points.
ghost use Rattle.std.specs.Prelude.{◌≡◌, map, length, All, IfOk};
ghost use Rattle.polys.specs.Curve.{data_of};
ghost use Rattle.curve_model.specs.Point.{IsPointOf, basis_of};
ghost use Rattle.problem.specs.Problem.{IsFitProblem, problem_data};
ghost use Rattle.norm_text.specs.Named.{IsNamedList};
ghost use Rattle.digit_space.specs.Model.{IsDigitRow};
ghost use Rattle.split_points.specs.Splitting.{AreValuesAt};
ghost use Rattle.named_points.specs.Deciding.{AreChosen};
ghost use Rattle.named_points.specs.Naming.{AreNamed};

use crate::deciding::{is_named, statement_digits};
use crate::ordering::ordered;
use crate::telling::texts_tell_points;
use curve_model::Point;
use digit_space::Digits;
use lists::{List, NoMemory};
use problem::Problem;
use split_points::{CurvePoint, points_of};

// The points that the statements name, in the order in which they stand.
fn chosen(
    digits: &Digits,
    found: List<CurvePoint>,
    statements: &[List<List<u32>>],
) -> Result<List<Point>, NoMemory>
    requires depth { digits.now.depth ≡ 1 }
    requires values { All (λ local. AreValuesAt digits.now local.point local.values) found }
    requires rows { All (All (IsDigitRow digits.now)) statements.now }
    ensures { IfOk result (λ points. AreChosen digits.now statements.now found points) }
{
    let mut points = List::new(digits.allocator());
    for local in found.into_vec() {
        let named = is_named(digits, &local, statements)?;
        if named {
            points.push(local.point)?;
        }
    }
    Ok(points)
}

// The named points in the order in which the splitting gives them.
fn unordered(problem: &Problem, digits: &Digits) -> Result<List<Point>, NoMemory>
    requires fit { IsFitProblem problem.now }
    requires depth { digits.now.depth ≡ 1 }
    requires prime { digits.now.curve.prime ≡ problem.now.prime }
    requires variables { digits.now.curve.variables ≡ length problem.now.letters }
    ensures { IfOk result (AreNamed problem.now (data_of digits.now.curve)) }
{
    let found = points_of(digits)?;
    let statements = statement_digits(digits, problem.at.as_slice())?;
    let points = chosen(digits, found, statements.as_slice())?;
    Ok(points)
}

/// The points of the digits' curve that the problem names, each once, in byte order of their texts: all points where it
/// has no `at` statement, and else those at which all polynomials of some statement are 0. The digits have the depth 1,
/// and their curve has the prime and the variables of the problem.
///
/// It takes the points of the curve, the digits of each polynomial once, the product of these with the values at each
/// point, and a text for each named point.
///
/// Greuel and Pfister, section on primary decomposition in dimension 0.
///
/// # Errors
/// Want of memory.
pub fn named_points(problem: &Problem, digits: &Digits) -> Result<List<Point>, NoMemory>
    requires fit { IsFitProblem problem.now }
    requires depth { digits.now.depth ≡ 1 }
    requires prime { digits.now.curve.prime ≡ problem.now.prime }
    requires variables { digits.now.curve.variables ≡ length problem.now.letters }
    ensures each { IfOk result (All (IsPointOf (data_of digits.now.curve))) }
    ensures named { IfOk result (λ points. IsNamedList (problem_data problem.now) (data_of digits.now.curve) (map basis_of points)) }
{
    let points = unordered(problem, digits)?;
    texts_tell_points(problem, digits, points.as_slice());
    let sorted = ordered(digits.allocator(), &problem.letters, points)?;
    Ok(sorted)
}
