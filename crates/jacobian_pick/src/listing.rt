// The candidates for a denominator.
ghost use Rattle.std.specs.Prelude.{◌≡◌, ◌≤◌, ℕ, All, IfOk, length, take};
ghost use Rattle.polys.specs.declared.curve.TheConstants.{MAX_DENOMINATOR_DEGREE};
ghost use Rattle.jacobian_pick.specs.declared.jacobian.TheConstants.{MAX_MINOR_DEGREE};
ghost use Rattle.jacobian_pick.specs.Candidates.{jacobian_of, number_sums_of, variable_sums_of, AreFirst, AreSecond, AreThird, AreCandidates};
ghost use Rattle.jacobian_pick.specs.Lists.{IsBasisOf, IsUpTo};
ghost use Rattle.problem.specs.Problem.{HasFitPolynomials, problem_data};
ghost use Rattle.polys.specs.Poly.{terms_of};

use crate::jacobian::jacobian;
use crate::membership::{kept, variables_of};
use crate::sums::{sums_by_numbers, sums_by_variables};
use lists::{List, NoMemory};
use polys::Poly;
use problem::Problem;
use std::alloc::Global;

// The first six, or all where there are fewer.
fn six(list: &[Poly]) -> &[Poly]
    ensures { result.now ≡ take 6 list.now }
{
    &list[..list.len().min(6)]
}

/// What the Jacobian matrix gives.
pub fn entries(alloc: Global, problem: &Problem) -> Result<List<Poly>, NoMemory>
    requires ready { HasFitPolynomials problem.now }
    ensures low { IfOk result (λ fs. All (IsUpTo problem.now.prime (length problem.now.letters) MAX_MINOR_DEGREE) fs) }
    ensures exact { IfOk result (λ fs. terms_of fs ≡ jacobian_of (problem_data problem.now)) }
{
    let _prime = problem.prime.get();
    jacobian(
        alloc,
        problem.prime,
        variables_of(problem),
        problem.generators.as_slice(),
    )
}

/// The sums of two of the first six of the list by numbers.
pub fn number_sums(alloc: Global, problem: &Problem, first: &[Poly]) -> Result<List<Poly>, NoMemory>
    requires { All (IsUpTo problem.now.prime (length problem.now.letters) MAX_MINOR_DEGREE) first.now }
    ensures low { IfOk result (λ fs. All (IsUpTo problem.now.prime (length problem.now.letters) MAX_DENOMINATOR_DEGREE) fs) }
    ensures exact { IfOk result (λ fs. terms_of fs ≡ number_sums_of (problem_data problem.now) (terms_of first.now)) }
{
    let _prime = problem.prime.get();
    sums_by_numbers(alloc, problem.prime, variables_of(problem), six(first))
}

/// The sums of two of the first six of the list by variables.
pub fn variable_sums(
    alloc: Global,
    problem: &Problem,
    first: &[Poly],
) -> Result<List<Poly>, NoMemory>
    requires { All (IsUpTo problem.now.prime (length problem.now.letters) MAX_MINOR_DEGREE) first.now }
    ensures low { IfOk result (λ fs. All (IsUpTo problem.now.prime (length problem.now.letters) MAX_DENOMINATOR_DEGREE) fs) }
    ensures exact { IfOk result (λ fs. terms_of fs ≡ variable_sums_of (problem_data problem.now) (terms_of first.now)) }
{
    let _prime = problem.prime.get();
    sums_by_variables(alloc, problem.prime, variables_of(problem), six(first))
}

/// What is kept of the entries of the Jacobian matrix: without the members of the ideal, and monic.
pub fn first_list(
    alloc: Global,
    problem: &Problem,
    basis: &[Poly],
    entries: &[Poly],
) -> Result<List<Poly>, NoMemory>
    requires ready { HasFitPolynomials problem.now }
    requires basis { IsBasisOf problem.now basis.now }
    requires low { All (IsUpTo problem.now.prime (length problem.now.letters) MAX_MINOR_DEGREE) entries.now }
    requires exact { terms_of entries.now ≡ jacobian_of (problem_data problem.now) }
    ensures low { IfOk result (λ ms. All (IsUpTo problem.now.prime (length problem.now.letters) MAX_MINOR_DEGREE) ms) }
    ensures exact { IfOk result (λ ms. AreFirst (problem_data problem.now) (terms_of ms)) }
{
    let _prime = problem.prime.get();
    kept(alloc, problem, basis, entries)
}

// What is kept of the sums by numbers.
fn second_list(
    alloc: Global,
    problem: &Problem,
    basis: &[Poly],
    first: &[Poly],
) -> Result<List<Poly>, NoMemory>
    requires ready { HasFitPolynomials problem.now }
    requires basis { IsBasisOf problem.now basis.now }
    requires first { All (IsUpTo problem.now.prime (length problem.now.letters) MAX_MINOR_DEGREE) first.now }
    ensures low { IfOk result (λ ms. All (IsUpTo problem.now.prime (length problem.now.letters) MAX_DENOMINATOR_DEGREE) ms) }
    ensures exact { IfOk result (λ ms. AreSecond (problem_data problem.now) (terms_of first.now) (terms_of ms)) }
{
    let _prime = problem.prime.get();
    let raw = number_sums(alloc, problem, first)?;
    kept(alloc, problem, basis, raw.as_slice())
}

// What is kept of the sums by variables.
fn third_list(
    alloc: Global,
    problem: &Problem,
    basis: &[Poly],
    first: &[Poly],
) -> Result<List<Poly>, NoMemory>
    requires ready { HasFitPolynomials problem.now }
    requires basis { IsBasisOf problem.now basis.now }
    requires first { All (IsUpTo problem.now.prime (length problem.now.letters) MAX_MINOR_DEGREE) first.now }
    ensures low { IfOk result (λ ms. All (IsUpTo problem.now.prime (length problem.now.letters) MAX_DENOMINATOR_DEGREE) ms) }
    ensures exact { IfOk result (λ ms. AreThird (problem_data problem.now) (terms_of first.now) (terms_of ms)) }
{
    let _prime = problem.prime.get();
    let raw = variable_sums(alloc, problem, first)?;
    kept(alloc, problem, basis, raw.as_slice())
}

/// The candidates for a denominator, each monic and of degree at most
/// [`polys::MAX_DENOMINATOR_DEGREE`], where `basis` is the reduced basis of the
/// ideal of the problem.
///
/// They come from the Jacobian matrix (Greuel and Pfister, section on the singular locus): with one variable the
/// polynomial 1, with two the partial derivatives, with three the minors of two rows, with more nothing. Then follow
/// sums of two of the first six of these by numbers, and then those by variables. Members of the ideal are left out.
///
/// # Errors
/// `NoMemory` when out of memory.
pub fn candidates(alloc: Global, problem: &Problem, basis: &[Poly]) -> Result<List<Poly>, NoMemory>
    requires ready { HasFitPolynomials problem.now }
    requires basis { IsBasisOf problem.now basis.now }
    ensures low { IfOk result (λ cs. All (IsUpTo problem.now.prime (length problem.now.letters) MAX_DENOMINATOR_DEGREE) cs) }
    ensures exact { IfOk result (λ cs. AreCandidates (problem_data problem.now) (terms_of cs)) }
{
    let raw = entries(alloc, problem)?;
    let mut all = first_list(alloc, problem, basis, raw.as_slice())?;
    let mut second = second_list(alloc, problem, basis, all.as_slice())?;
    let mut third = third_list(alloc, problem, basis, all.as_slice())?;
    all.append(&mut second)?;
    all.append(&mut third)?;
    Ok(all)
}
