// Which polynomials are in the ideal of a problem.
ghost use Rattle.std.specs.Prelude.{◌≡◌, ◌↔◌, ◌≤◌, ℕ, All, IfOk, IsTrue, length};
ghost use Rattle.monomials.specs.declared.mono.TheConstants.{MAX_VARIABLES};
ghost use Rattle.jacobian_pick.specs.Candidates.{AreKept};
ghost use Rattle.jacobian_pick.specs.Lists.{IsBasisOf};
ghost use Rattle.problem.specs.Problem.{HasFitPolynomials};
ghost use Rattle.polys.specs.Poly.{terms_of};
ghost use Rattle.polys.specs.Curve.{IsOver};
ghost use Rattle.polys.specs.Ideal.{InIdeal};

use lists::{List, NoMemory};
use module_basis::remainder;
use polys::Poly;
use problem::Problem;
use std::alloc::Global;

/// The number of variables, from 1 to 6.
pub fn variables_of(problem: &Problem) -> u32
    ensures value { result ≡ length problem.now.letters }
    ensures some { 1 ≤ result }
    ensures six { result ≤ MAX_VARIABLES }
{
    problem.letters.as_slice().len() as u32
}

/// Whether the polynomial is in the ideal of the problem, by the reduced basis of that ideal.
pub fn is_member(problem: &Problem, basis: &[Poly], f: &Poly) -> Result<bool, NoMemory>
    requires ready { HasFitPolynomials problem.now }
    requires basis { IsBasisOf problem.now basis.now }
    requires over { IsOver problem.now.prime (length problem.now.letters) f.now }
    ensures { IfOk result (λ yes. IsTrue yes ↔ InIdeal problem.now.prime (length problem.now.letters) (terms_of problem.now.generators) f.now.terms) }
{
    let _prime = problem.prime.get();
    let rest = remainder(variables_of(problem), f, basis)?;
    Ok(rest.lead().is_none())
}

/// The polynomials that are not in the ideal of the problem, made monic, in order.
pub fn kept(
    alloc: Global,
    problem: &Problem,
    basis: &[Poly],
    polynomials: &[Poly],
) -> Result<List<Poly>, NoMemory>
    requires ready { HasFitPolynomials problem.now }
    requires basis { IsBasisOf problem.now basis.now }
    requires over { All (IsOver problem.now.prime (length problem.now.letters)) polynomials.now }
    ensures primes { IfOk result (λ ms. All (λ m. m.prime ≡ problem.now.prime) ms) }
    ensures kept { IfOk result (λ ms. AreKept problem.now.prime (length problem.now.letters) (terms_of problem.now.generators) (terms_of polynomials.now) (terms_of ms)) }
{
    let mut kept = List::new(alloc);
    for f in polynomials {
        if !is_member(problem, basis, f)? {
            kept.push(f.monic()?)?;
        }
    }
    Ok(kept)
}
