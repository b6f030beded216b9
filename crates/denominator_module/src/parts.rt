// The two parts of a pair.
ghost use Rattle.std.specs.Prelude.{◌≡◌, IfOk};
ghost use Rattle.denominator_module.specs.Module.{first, second};

use lists::NoMemory;
use polys::{Poly, Term};
use std::alloc::{AllocError, Global};

// The terms of component 0.
#[tactic(auto, using(crate::proofs::Taken::first_kept, crate::proofs::Taken::first_left))]
fn first_terms(alloc: Global, f: &[Term]) -> Result<Vec<Term>, AllocError>
    ensures { IfOk result (λ v. v.items ≡ first f.now) }
{
    let mut terms = Vec::new(alloc);
    for t in f {
        if t.mono.component() == 0 {
            terms.push(*t)?;
        }
    }
    Ok(terms)
}

/// The first part of a pair, as a polynomial: its terms of component 0. It takes one step for each term.
pub fn first_part(alloc: Global, f: &Poly) -> Result<Poly, NoMemory>
    ensures prime { IfOk result (λ g. g.prime ≡ f.now.prime) }
    ensures terms { IfOk result (λ g. g.terms ≡ first f.now.terms) }
{
    let terms = first_terms(alloc, f.terms())?;
    Ok(Poly::of_terms(f.prime(), terms))
}

// The terms of component 1, moved to component 0.
#[tactic(auto, using(crate::proofs::Taken::second_kept, crate::proofs::Taken::second_left))]
fn second_terms(alloc: Global, f: &[Term]) -> Result<Vec<Term>, AllocError>
    ensures { IfOk result (λ v. v.items ≡ second f.now) }
{
    let mut terms = Vec::new(alloc);
    for t in f {
        if t.mono.component() != 0 {
            terms.push(Term {
                coeff: t.coeff,
                mono: t.mono.with_component(0),
            })?;
        }
    }
    Ok(terms)
}

/// The second part of a pair, as a polynomial: its terms of component 1. It takes one step for each term.
pub fn second_part(alloc: Global, f: &Poly) -> Result<Poly, NoMemory>
    ensures prime { IfOk result (λ g. g.prime ≡ f.now.prime) }
    ensures terms { IfOk result (λ g. g.terms ≡ second f.now.terms) }
{
    let terms = second_terms(alloc, f.terms())?;
    Ok(Poly::of_terms(f.prime(), terms))
}
