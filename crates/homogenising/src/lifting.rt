// Homogenising, and setting the homogenising variable to 1.
ghost use Rattle.std.specs.Prelude.{◌≡◌, ◌≤◌, ℕ, IfOk};
ghost use Rattle.monomials.specs.declared.mono.TheConstants.{MAX_VARIABLES, MAX_DEGREE};
ghost use Rattle.homogenising.specs.Homogenised.{homogenised_to, dehomogenised, without_hom, IsUnlifted};
ghost use Rattle.homogenising.specs.Laws.{IsHomogeneousPoly};
ghost use Rattle.monomials.specs.Mono.{IsMono};
ghost use Rattle.polys.specs.Terms.{EachMono, IsPoly, degree_of};

use lists::NoMemory;
use polys::{Poly, Term};
use std::alloc::{AllocError, Global};

// The terms, each lifted to the degree.
fn lifted_terms(alloc: Global, f: &[Term], degree: u32) -> Result<Vec<Term>, AllocError>
    requires monos { EachMono IsUnlifted f.now }
    requires no_smaller { degree_of f.now ≤ degree }
    requires room { degree ≤ MAX_DEGREE }
    ensures { IfOk result (λ v. v.items ≡ homogenised_to degree f.now) }
{
    let mut terms = Vec::new(alloc);
    for t in f {
        let mono = t.mono.with_hom(degree - t.mono.degree());
        terms.push(Term {
            coeff: t.coeff,
            mono,
        })?;
    }
    Ok(terms)
}

/// A polynomial in the first `variables` variables, homogenised to a degree that is no smaller than its own: each term
/// is lifted by a power of the homogenising variable. It takes one step for each term.
///
/// Greuel and Pfister, section on homogenisation.
pub fn homogenised_to(
    alloc: Global,
    variables: u32,
    degree: u32,
    f: &Poly,
) -> Result<Poly, NoMemory>
    requires variables { variables ≤ MAX_VARIABLES }
    requires poly { IsPoly f.now.prime variables f.now.terms }
    requires no_smaller { degree_of f.now.terms ≤ degree }
    requires room { degree ≤ MAX_DEGREE }
    ensures prime { IfOk result (λ g. g.prime ≡ f.now.prime) }
    ensures terms { IfOk result (λ g. g.terms ≡ homogenised_to degree f.now.terms) }
{
    let _six = variables;
    let terms = lifted_terms(alloc, f.terms(), degree)?;
    Ok(Poly::of_terms(f.prime(), terms))
}

// The terms with the homogenising exponent 0.
fn lowered_terms(alloc: Global, f: &[Term]) -> Result<Vec<Term>, AllocError>
    requires { EachMono IsMono f.now }
    ensures { IfOk result (λ v. v.items ≡ without_hom f.now) }
{
    let mut terms = Vec::new(alloc);
    for t in f {
        terms.push(Term {
            coeff: t.coeff,
            mono: t.mono.with_hom(0),
        })?;
    }
    Ok(terms)
}

/// A homogeneous polynomial where the homogenising variable is 1. No two terms meet, so it takes one step for each.
///
/// Greuel and Pfister, section on homogenisation.
pub fn dehomogenised(alloc: Global, variables: u32, f: &Poly) -> Result<Poly, NoMemory>
    requires variables { variables ≤ MAX_VARIABLES }
    requires homogeneous { IsHomogeneousPoly f.now.prime variables f.now.terms }
    ensures prime { IfOk result (λ g. g.prime ≡ f.now.prime) }
    ensures terms { IfOk result (λ g. g.terms ≡ dehomogenised f.now.prime f.now.terms) }
{
    let _six = variables;
    let terms = lowered_terms(alloc, f.terms())?;
    Ok(Poly::of_terms(f.prime(), terms))
}
