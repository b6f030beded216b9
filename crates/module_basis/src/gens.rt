// Generators of a graded module.
ghost use Rattle.std.specs.Prelude.{◌≡◌, ◌≤◌, IfOk, All, map};
ghost use Rattle.monomials.specs.declared.mono.TheConstants.{MAX_VARIABLES, MAX_DEGREE};
ghost use Rattle.monomials.specs.Mono.{total_degree};
ghost use Rattle.polys.specs.Curve.{IsOver};
ghost use Rattle.polys.specs.Poly.{IsPlain, terms_of};
ghost use Rattle.polys.specs.Terms.{EachMono};
ghost use Rattle.homogenising.specs.Homogenised.{all_homogenised};
ghost use Rattle.module_basis.specs.Gens.{AreGens, homogenised_of, lifted};

use homogenising::laws::homogenising_is_undone;
use lists::{List, NoMemory};
use polys::{Poly, Term};
use prime_field::Prime;
use std::alloc::{AllocError, Global};

/// Homogeneous vectors of one or two components over F_p in the first `variables` variables and the homogenising one.
/// The second unit vector has the degree `shift`. The list may be empty, and vectors may be 0.
#[derive(Debug, Drop)]
pub struct Gens {
    pub prime: Prime,
    pub variables: u32,
    pub shift: u32,
    pub vectors: List<Poly>,
}

/// Why there is no basis.
#[derive(Clone, Copy, PartialEq, Eq, Debug, Drop)]
pub enum BasisStop {
    /// The module is deep under the cap.
    Deep,
    /// No memory was to be had.
    Memory,
}

impl From<NoMemory> for BasisStop {
    ghost use Rattle.std.specs.Prelude.{◌≡◌};
    ghost use Rattle.module_basis.specs.declared.gens.BasisStop.TheVariants.{Memory};

    ghost from_gives = { λ _ stop. stop ≡ Memory };

    fn from(_: NoMemory) -> BasisStop {
        BasisStop::Memory
    }
}

impl From<AllocError> for BasisStop {
    ghost use Rattle.std.specs.Prelude.{◌≡◌};
    ghost use Rattle.module_basis.specs.declared.gens.BasisStop.TheVariants.{Memory};

    ghost from_gives = { λ _ stop. stop ≡ Memory };

    fn from(_: AllocError) -> BasisStop {
        BasisStop::Memory
    }
}

impl Gens {
    /// The homogenised polynomials of the list, as vectors of one component: each term is lifted to the degree of its
    /// polynomial by a power of the homogenising variable. It takes one step for each term.
    ///
    /// Greuel and Pfister, section on homogenisation.
    pub fn homogenised(
        alloc: Global,
        prime: Prime,
        variables: u32,
        ideal: &[Poly],
    ) -> Result<Gens, NoMemory>
        requires some_variables { 1 ≤ variables }
        requires six_variables { variables ≤ MAX_VARIABLES }
        requires ideal { All (IsOver prime variables) ideal.now }
        ensures ring { IfOk result (λ gens. (gens.prime ≡ prime) × (gens.variables ≡ variables) × (gens.shift ≡ 0)) }
        ensures vectors { IfOk result (λ gens. terms_of gens.vectors ≡ all_homogenised (terms_of ideal.now)) }
        ensures gens { IfOk result (λ gens. AreGens gens) }
        ensures plain { IfOk result (λ gens. All (EachMono IsPlain) (terms_of gens.vectors)) }
    {
        homogenising_is_undone();
        let mut vectors = List::new(alloc);
        for f in ideal {
            vectors.push(homogenised_poly(alloc, prime, variables, f)?)?;
        }
        Ok(Gens {
            prime,
            variables,
            shift: 0,
            vectors,
        })
    }
}

// The homogenised polynomial.
fn homogenised_poly(alloc: Global, prime: Prime, variables: u32, f: &Poly) -> Result<Poly, NoMemory>
    requires six_variables { variables ≤ MAX_VARIABLES }
    requires poly { IsOver prime variables f.now }
    ensures { IfOk result (λ g. g ≡ homogenised_of prime f.now) }
{
    let _prime = prime.get();
    homogenising_is_undone();
    let degree = f.degree();
    let mut terms = Vec::new(alloc);
    for t in f.terms() {
        let lifted = lifted_term(t, degree);
        terms.push(lifted)?;
    }
    Ok(Poly::of_terms(prime, terms))
}

// The term lifted to the degree.
fn lifted_term(t: &Term, degree: u32) -> Term
    requires low { total_degree t.now.mono.exponents ≤ degree }
    requires bounded { degree ≤ MAX_DEGREE }
    ensures { result ≡ lifted degree t.now }
{
    let room = degree - t.mono.degree();
    Term {
        coeff: t.coeff,
        mono: t.mono.with_hom(room),
    }
}
