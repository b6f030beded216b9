// The module of a denominator, and the two parts of its basis.
ghost use Rattle.std.specs.Prelude.{◌≡◌, ◌<◌, ◌≤◌, ◌↔◌, ℕ, [], map, All, IfOk, IsTrue};
ghost use Rattle.monomials.specs.declared.mono.TheConstants.{MAX_VARIABLES, MAX_DEGREE};
ghost use Rattle.denominator_module.specs.Module.{with_unit, module_of, sum_members, colon_members, first, quotient_of};
ghost use Rattle.graded_modules.specs.Vector.{IsGenerator, lead_mono};
ghost use Rattle.lift_colon.specs.Parts.{opposed};
ghost use Rattle.module_basis.specs.Gens.{AreGens, IsHomogeneousOver};
ghost use Rattle.polys.specs.Poly.{IsVector, terms_of};
ghost use Rattle.polys.specs.Curve.{IsOver};
ghost use Rattle.prime_field.specs.Primes.{IsPrime};
ghost use Rattle.polys.specs.Terms.{degree_of};

use denominator_module::{first_part, second_part};
use homogenising::{dehomogenised, homogenised_to};
use lists::{List, NoMemory};
use module_basis::Gens;
use monomials::Mono;
use polys::{Poly, Term};
use prime_field::Prime;
use std::alloc::{AllocError, Global};

// The vector (d, 1), homogenised: the second unit vector has the degree of d.
fn unit_vector(alloc: Global, prime: Prime, variables: u32, d: &Poly) -> Result<Poly, NoMemory>
    requires prime { IsPrime prime }
    requires variables { variables ≤ MAX_VARIABLES }
    requires denominator { IsOver prime variables d.now }
    requires room { degree_of d.now.terms ≤ MAX_DEGREE }
    ensures prime { IfOk result (λ v. v.prime ≡ prime) }
    ensures terms { IfOk result (λ v. v.terms ≡ with_unit d.now.terms) }
{
    let mut terms = homogenised_to(alloc, variables, d.degree(), d)?.into_terms();
    terms.push(Term {
        coeff: 1,
        mono: Mono::one().with_component(1),
    })?;
    Ok(Poly::of_terms(prime, terms))
}

/// The vectors (d, 1) and (g, 0) for each generator g of the ideal, homogenised.
pub fn module_gens(
    alloc: Global,
    prime: Prime,
    variables: u32,
    ideal: &[Poly],
    d: &Poly,
) -> Result<Gens, NoMemory>
    requires prime { IsPrime prime }
    requires some_variables { 1 ≤ variables }
    requires six_variables { variables ≤ MAX_VARIABLES }
    requires ideal { All (IsOver prime variables) ideal.now }
    requires denominator { IsOver prime variables d.now }
    requires room { degree_of d.now.terms ≤ MAX_DEGREE }
    ensures prime { IfOk result (λ gens. gens.prime ≡ prime) }
    ensures variables { IfOk result (λ gens. gens.variables ≡ variables) }
    ensures shift { IfOk result (λ gens. gens.shift ≡ degree_of d.now.terms) }
    ensures vectors { IfOk result (λ gens. terms_of gens.vectors ≡ module_of d.now.terms (terms_of ideal.now)) }
    ensures gens { IfOk result (λ gens. AreGens gens) }
{
    let gens = Gens::homogenised(alloc, prime, variables, ideal)?;
    let mut others = gens.vectors;
    let mut vectors = List::new(alloc);
    vectors.push(unit_vector(alloc, prime, variables, d)?)?;
    vectors.append(&mut others)?;
    Ok(Gens {
        prime,
        variables,
        shift: d.degree(),
        vectors,
    })
}

/// The first parts of the vectors whose leads lie there, where the homogenising variable is 1.
pub fn sum_part(
    alloc: Global,
    prime: Prime,
    variables: u32,
    vectors: &[Poly],
) -> Result<List<Poly>, NoMemory>
    requires prime { IsPrime prime }
    requires six_variables { variables ≤ MAX_VARIABLES }
    requires vectors { (shift : ℕ) × All (IsHomogeneousOver prime variables shift) vectors.now }
    ensures primes { IfOk result (λ v. All (λ f. f.prime ≡ prime) v) }
    ensures terms { IfOk result (λ v. terms_of v ≡ sum_members prime (terms_of vectors.now)) }
{
    let mut parts = List::new(alloc);
    for v in vectors {
        if is_first(v) {
            parts.push(dehomogenised(alloc, variables, &first_part(alloc, v)?)?)?;
        }
    }
    Ok(parts)
}

/// The second parts of the vectors whose leads lie there, where the homogenising variable is 1.
pub fn colon_part(
    alloc: Global,
    prime: Prime,
    variables: u32,
    vectors: &[Poly],
) -> Result<List<Poly>, NoMemory>
    requires prime { IsPrime prime }
    requires six_variables { variables ≤ MAX_VARIABLES }
    requires vectors { (shift : ℕ) × All (IsHomogeneousOver prime variables shift) vectors.now }
    ensures primes { IfOk result (λ v. All (λ f. f.prime ≡ prime) v) }
    ensures terms { IfOk result (λ v. terms_of v ≡ colon_members prime (terms_of vectors.now)) }
{
    let mut parts = List::new(alloc);
    for v in vectors {
        if !is_first(v) {
            parts.push(dehomogenised(alloc, variables, &second_part(alloc, v)?)?)?;
        }
    }
    Ok(parts)
}

// Whether the lead lies in the first component.
fn is_first(v: &Poly) -> bool
    ensures { IsTrue result ↔ ((lead_mono v.now.terms).component ≡ 0) }
{
    match v.lead() {
        None => true,
        Some(t) => t.mono.component() == 0,
    }
}

/// Whether the first part is 0: whether there is no lead, or it lies in the second component.
pub fn has_no_first_part(v: &Poly) -> bool
    ensures { IsTrue result ↔ (first v.now.terms ≡ []) }
{
    let _terms = v.terms();
    match v.lead() {
        None => true,
        Some(t) => t.mono.component() != 0,
    }
}

/// The polynomial u of a pair (0, -u) that is homogeneous: the negatives of the terms of the second part, where the
/// homogenising variable is 1. No two of them meet, so it takes one step for each.
pub fn quotient_of(alloc: Global, variables: u32, v: &Poly) -> Result<Poly, NoMemory>
    requires six_variables { variables ≤ MAX_VARIABLES }
    requires homogeneous { (shift : ℕ) × IsGenerator v.now.prime variables shift v.now.terms }
    requires second { first v.now.terms ≡ [] }
    ensures prime { IfOk result (λ u. u.prime ≡ v.now.prime) }
    ensures terms { IfOk result (λ u. u.terms ≡ quotient_of v.now.prime v.now.terms) }
{
    let p = v.prime();
    let _prime = p.get();
    let terms = opposed_terms(alloc, p, v.terms())?;
    Ok(Poly::of_terms(p, terms))
}

// The opposed terms of a pair without a first part.
fn opposed_terms(alloc: Global, p: Prime, v: &[Term]) -> Result<Vec<Term>, AllocError>
    requires { IsVector p v.now }
    ensures { IfOk result (λ terms. terms.items ≡ map (opposed p) v.now) }
{
    let mut terms = Vec::new(alloc);
    for t in v {
        terms.push(opposed_term(p, t))?;
    }
    Ok(terms)
}

// The negative of the term, where the homogenising variable is 1, in the first component.
fn opposed_term(p: Prime, t: &Term) -> Term
    requires residue { t.now.coeff < p }
    ensures { result ≡ opposed p t.now }
{
    let _degree = t.mono.degree();
    Term {
        coeff: p.neg(t.coeff),
        mono: t.mono.with_hom(0).with_component(0),
    }
}
