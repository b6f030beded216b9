// The reduction of monic vectors by one another.
ghost use Rattle.std.specs.Prelude.{◌≡◌, ◌+◌, ◌<◌, ◌≤◌, ℕ, [], ◌∷◌, ◌++◌, length, All, Contains, IfOk, OnOk, slice_index_or};
ghost use Rattle.std.specs.List.Sorted.{IsPermutation};
ghost use Rattle.polys.specs.Poly.{Polynomial, IsVector, terms_of};
ghost use Rattle.module_division.specs.Division.{IsDivisor};
ghost use Rattle.module_division.specs.Reduction.{IsTailReduced, AreSorted, IsCore, IsInterreduced, IsKept};

use crate::division::vector_remainder;
use crate::leads::{find_divisor, lead_mono, lead_rows};
use lists::NoMemory;
use monomials::Mono;
use polys::{Poly, Term};
use prime_field::Prime;
use std::alloc::{AllocError, Global};

/// The vectors with the superfluous ones left out, and the tails of the rest divided by them: their leads rise, and divide
/// no lower monomial. A vector is superfluous where the lead of another one divides its lead. They are monic, and no
/// monomial of one has more degree than its lead, with unit vectors not counted.
///
/// It sorts the vectors, compares each with those before it, and divides each tail once.
///
/// Greuel and Pfister, section on reduced standard bases.
pub fn interreduced_vectors(
    alloc: Global,
    p: Prime,
    vectors: &[Poly],
) -> Result<Vec<Poly>, NoMemory>
    requires { All (IsDivisor p) vectors.now }
    ensures { IfOk result (λ qs. IsInterreduced p (terms_of vectors.now) qs.items) }
{
    let mut sorted = copied(alloc, vectors)?;
    sort_by_leads(&mut sorted)?;
    let kept = without_superfluous(alloc, &sorted)?;
    let reduced = with_reduced_tails(alloc, p, &kept)?;
    Ok(reduced)
}

// The same vectors again.
fn copied(alloc: Global, vectors: &[Poly]) -> Result<Vec<Poly>, NoMemory>
    ensures { IfOk result (λ copy. copy.items ≡ vectors.now) }
{
    let mut copy = Vec::new(alloc);
    for f in vectors {
        let g = f.clone_poly()?;
        copy.push(g)?;
    }
    Ok(copy)
}

// Sorts the vectors by their leads, from the least one on.
fn sort_by_leads(vectors: &mut Vec<Poly>) -> Result<(), AllocError>
    ensures same { IsPermutation vectors.old.items vectors.new.items }
    ensures sorted { OnOk result (AreSorted vectors.new.items) }
{
    vectors.sort_by(|f, g| Mono::cmp_dp(&lead_mono(f), &lead_mono(g)))?;
    Ok(())
}

// Leaves out each vector whose lead that of an earlier one divides.
fn without_superfluous(alloc: Global, vectors: &[Poly]) -> Result<Vec<Poly>, NoMemory>
    requires { AreSorted vectors.now }
    ensures core { IfOk result (λ kept. IsCore (terms_of vectors.now) (terms_of kept.items)) }
    ensures same { IfOk result (λ kept. (f : Polynomial) → Contains kept.items f → Contains vectors.now f) }
{
    let mut kept = Vec::new(alloc);
    for k in 0..vectors.len() {
        keep_unless_superfluous(&mut kept, &vectors[k])?;
    }
    Ok(kept)
}

// Puts the vector at the end, unless an earlier lead divides its lead.
fn keep_unless_superfluous(kept: &mut Vec<Poly>, f: &Poly) -> Result<(), NoMemory>
    ensures { OnOk result (IsKept kept.old.items f.now kept.new.items) }
{
    let leads = lead_rows(*kept.allocator(), kept)?;
    match find_divisor(&leads, kept, &lead_mono(f)) {
        Some(_) => Ok(()),
        None => {
            let copy = f.clone_poly()?;
            kept.push(copy)?;
            Ok(())
        }
    }
}

// The vectors with their tails divided by all of them.
fn with_reduced_tails(alloc: Global, p: Prime, vectors: &[Poly]) -> Result<Vec<Poly>, NoMemory>
    requires { All (IsDivisor p) vectors.now }
    ensures as_many { IfOk result (λ qs. length qs.items ≡ length vectors.now) }
    ensures primes { IfOk result (λ qs. All (λ f. f.prime ≡ p) qs.items) }
    ensures tails { IfOk result (λ qs. (k : ℕ) (d e : Polynomial) → k < length vectors.now → IsTailReduced p (terms_of vectors.now) (slice_index_or vectors.now k d).terms (slice_index_or qs.items k e).terms) }
{
    let mut reduced = Vec::new(alloc);
    for k in 0..vectors.len() {
        let g = with_reduced_tail(alloc, p, &vectors[k], vectors)?;
        reduced.push(g)?;
    }
    Ok(reduced)
}

// The vector with its tail divided by the divisors.
fn with_reduced_tail(alloc: Global, p: Prime, f: &Poly, divisors: &[Poly]) -> Result<Poly, NoMemory>
    requires vector { IsDivisor p f.now }
    requires divisors { All (IsDivisor p) divisors.now }
    ensures prime { IfOk result (λ g. g.prime ≡ p) }
    ensures tail { IfOk result (λ g. IsTailReduced p (terms_of divisors.now) f.now.terms g.terms) }
{
    let terms = f.terms();
    let tail = Vec::from_slice(alloc, &terms[1..])?;
    let rest = vector_remainder(alloc, p, tail, divisors)?;
    let whole = joined(alloc, terms[0], &rest)?;
    Ok(Poly::of_terms(p, whole))
}

// The terms with one more at the front.
fn joined(alloc: Global, t: Term, tail: &[Term]) -> Result<Vec<Term>, AllocError>
    ensures { IfOk result (λ whole. whole.items ≡ t ∷ tail.now) }
{
    let mut whole = Vec::new(alloc);
    whole.push(t)?;
    whole.extend_from_slice(tail)?;
    Ok(whole)
}
