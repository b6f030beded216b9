// The standard monomials of an ideal and their number, by its reduced basis.
ghost use Rattle.std.specs.Prelude.{◌≡◌, ◌↔◌, ℕ, ◌+◌, ◌<◌, ◌≤◌, ◌⊎◌, List, length, All, Contains, IsTrue, IfOk, OnOk};
ghost use Rattle.std.specs.Bool.{MatchBool};
ghost use Rattle.monomials.specs.declared.mono.TheConstants.{MAX_VARIABLES, MAX_DEGREE};
ghost use Rattle.monomials.specs.Mono.{Monomial, total_degree};
ghost use Rattle.polys.specs.Ideal.{HasDim, HasInfiniteDim};
ghost use Rattle.polys.specs.Reduced.{Reduced};
ghost use Rattle.graded_modules.specs.Module.{IsLeadMultiple};
ghost use Rattle.graded_modules.specs.Vector.{lead_mono};
ghost use Rattle.standard_monomials.specs.Finding.{terms_of, HasDimUpTo, HasDimAbove, IfListed, IsListed, IsInReach, HasLowStandard, HasPowerLead, GainsMonomial, GainsMultiples};
ghost use Rattle.standard_monomials.specs.Standard.{IsStandard, AreStandard, IsRising};

use lists::{List, NoMemory};
use monomials::Mono;
use polys::Poly;
use prime_field::Prime;
use std::alloc::{AllocError, Global};

/// The standard monomials of an ideal.
#[derive(Debug, Drop)]
pub enum Standard {
    /// All of them, in rising order.
    All(List<Mono>),
    /// They are finitely many, and more than the limit.
    Wide,
    /// They are infinitely many.
    Infinite,
}

/// The dimension of the polynomials modulo an ideal.
#[derive(Clone, Copy, PartialEq, Eq, Debug, Drop)]
pub enum Dimension {
    /// This number, at most the limit.
    Finite(u32),
    /// Finite, and above the limit.
    Wide,
    /// Infinite.
    Infinite,
}

// The monomial of the lead, and 1 for the polynomial 0.
fn lead_mono(f: &Poly) -> Mono
    ensures { result ≡ lead_mono f.now.terms }
{
    match f.lead() {
        Some(t) => t.mono,
        None => Mono::one(),
    }
}

// Whether the monomial is a multiple of a lead.
fn is_lead_multiple(basis: &[Poly], m: &Mono) -> bool
    ensures { IsTrue result ↔ IsLeadMultiple (terms_of basis.now) m.now }
{
    for f in basis {
        if Mono::divides(&lead_mono(f), m) {
            return true;
        }
    }
    false
}

// Whether some lead is a power of the variable number `v`: its degree is its exponent there.
fn has_power_lead(basis: &[Poly], v: u32) -> bool
    requires { v < 6 }
    ensures { IsTrue result ↔ HasPowerLead (terms_of basis.now) v }
{
    for f in basis {
        let lead = lead_mono(f);
        if lead.degree() == lead.exponent(v) {
            return true;
        }
    }
    false
}

// Whether each variable has a power among the leads.
fn has_all_power_leads(variables: u32, basis: &[Poly]) -> bool
    requires { variables ≤ MAX_VARIABLES }
    ensures { MatchBool result ((v : ℕ) → v < variables → HasPowerLead (terms_of basis.now) v) ((v : ℕ) × (v < variables) × (HasPowerLead (terms_of basis.now) v → ⊥)) }
{
    for v in 0..variables {
        if !has_power_lead(basis, v) {
            return false;
        }
    }
    true
}

/// Puts the monomial at its place in the rising list, unless it is there.
///
/// # Errors
/// Want of memory.
pub fn insert(found: &mut Vec<Mono>, m: Mono) -> Result<(), AllocError>
    requires { IsRising found.old.items }
    ensures gains { OnOk result (GainsMonomial m found.old.items found.new.items) }
    ensures one { OnOk result (length found.new.items ≤ length found.old.items + 1) }
{
    if let Err(place) = found.as_slice().binary_search_by(|w| Mono::cmp_dp(w, &m)) {
        found.insert(place, m)?;
    }
    Ok(())
}

// Puts the multiples of `m` by the variables, as far as no lead divides them, into the rising list.
fn insert_multiples(
    variables: u32,
    basis: &[Poly],
    m: Mono,
    found: &mut Vec<Mono>,
) -> Result<(), AllocError>
    requires variables { variables ≤ MAX_VARIABLES }
    requires room { total_degree m.exponents < MAX_DEGREE }
    requires seven { length m.exponents ≡ 7 }
    requires rising { IsRising found.old.items }
    ensures { OnOk result (GainsMultiples (terms_of basis.now) variables m found.old.items found.new.items) }
{
    for v in 0..variables {
        let next = Mono::product(&m, &Mono::var(v));
        if !is_lead_multiple(basis, &next) {
            insert(found, next)?;
        }
    }
    Ok(())
}

// The standard monomials in rising order, or more than `limit` of them.
fn search(
    alloc: Global,
    variables: u32,
    basis: &[Poly],
    limit: usize,
) -> Result<Vec<Mono>, AllocError>
    requires variables { variables ≤ MAX_VARIABLES }
    requires reach { (limit ≤ MAX_DEGREE) ⊎ HasLowStandard variables (terms_of basis.now) }
    ensures rising { IfOk result (λ found. IsRising found.items) }
    ensures each { IfOk result (λ found. All (IsStandard variables (terms_of basis.now)) found.items) }
    ensures whole { IfOk result (λ found. length found.items ≤ limit → (m : Monomial) → IsStandard variables (terms_of basis.now) m → Contains found.items m) }
{
    let mut found = Vec::new(alloc);
    let one = Mono::one();
    if !is_lead_multiple(basis, &one) {
        found.push(one)?;
    }
    let mut next = 0;
    while next < found.len() && found.len() <= limit {
        let m = found[next];
        insert_multiples(variables, basis, m, &mut found)?;
        next += 1;
    }
    Ok(found)
}

/// The standard monomials of an ideal, in rising order of dp: the monomials in the first `variables` variables that no
/// lead of the ideal divides. They are a basis of the polynomials modulo the ideal. `basis` is the ideal's reduced basis
/// over `prime`, empty for the ideal 0, and `limit` the greatest number of monomials that is wanted: at most 60,000, or
/// any number where the leads have degrees of at most 9,000.
///
/// They are finitely many exactly where each variable has a power among the leads. Then a search from 1 on multiplies
/// each monomial found by each variable, and stops once more than `limit` are found, so no degree is above `limit`. For N
/// monomials found it tests at most N times `variables` multiples against each lead, and looks as often for a place in
/// the list by a binary search.
///
/// Greuel and Pfister, sections on standard bases and on dimension.
pub fn standard_monomials(
    alloc: Global,
    prime: Prime,
    variables: u32,
    basis: &[Poly],
    limit: u32,
) -> Result<Standard, NoMemory>
    requires variables { variables ≤ MAX_VARIABLES }
    requires reduced { Reduced prime variables (terms_of basis.now) }
    requires limit { IsInReach (terms_of basis.now) limit }

    // The list has the standard monomials and no other, each once.
    ensures standard { IfOk result (IfListed (AreStandard variables (terms_of basis.now))) }
    ensures rising { IfOk result (IfListed IsRising) }
    ensures within { IfOk result (IfListed (λ ms. length ms ≤ limit)) }
    ensures dimension { IfOk result (IfListed (λ ms. HasDim prime variables (terms_of basis.now) (length ms))) }

    // Each answer stands exactly for its case.
    ensures all { IfOk result (λ answer. IsListed answer ↔ HasDimUpTo prime variables (terms_of basis.now) limit) }
    ensures wide { IfOk result (λ answer. (answer ≡ Standard.Wide) ↔ HasDimAbove prime variables (terms_of basis.now) limit) }
    ensures infinite { IfOk result (λ answer. (answer ≡ Standard.Infinite) ↔ HasInfiniteDim prime variables (terms_of basis.now)) }
{
    let _prime = prime.get();
    if !has_all_power_leads(variables, basis) {
        return Ok(Standard::Infinite);
    }
    let found = search(alloc, variables, basis, limit as usize)?;
    if found.len() > limit as usize {
        return Ok(Standard::Wide);
    }
    Ok(Standard::All(List::of_vec(found)))
}

/// The dimension of the polynomials in the first `variables` variables modulo an ideal: the number of its standard
/// monomials. `basis` is the ideal's reduced basis over `prime`. It takes as long as [`standard_monomials`].
///
/// Greuel and Pfister, sections on standard bases and on dimension.
pub fn dimension_modulo(
    alloc: Global,
    prime: Prime,
    variables: u32,
    basis: &[Poly],
    limit: u32,
) -> Result<Dimension, NoMemory>
    requires variables { variables ≤ MAX_VARIABLES }
    requires reduced { Reduced prime variables (terms_of basis.now) }
    requires limit { IsInReach (terms_of basis.now) limit }
    ensures finite { IfOk result (λ answer. (N : ℕ) → (answer ≡ Dimension.Finite N) ↔ ((N ≤ limit) × HasDim prime variables (terms_of basis.now) N)) }
    ensures wide { IfOk result (λ answer. (answer ≡ Dimension.Wide) ↔ HasDimAbove prime variables (terms_of basis.now) limit) }
    ensures infinite { IfOk result (λ answer. (answer ≡ Dimension.Infinite) ↔ HasInfiniteDim prime variables (terms_of basis.now)) }
{
    Ok(
        match standard_monomials(alloc, prime, variables, basis, limit)? {
            Standard::All(found) => Dimension::Finite(found.len() as u32),
            Standard::Wide => Dimension::Wide,
            Standard::Infinite => Dimension::Infinite,
        },
    )
}

#[cfg(test)]
mod tests;
