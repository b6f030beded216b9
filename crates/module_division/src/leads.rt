// Leads of vectors and their degrees, and the search for one that divides a monomial.
ghost use Rattle.std.specs.Prelude.{◌≡◌, ◌↔◌, ◌<◌, ◌≤◌, ℕ, length, slice_index, slice_index_or, IsTrue, IfOk, MatchOption};
ghost use Rattle.monomials.specs.Mono.{Divides};
ghost use Rattle.polys.specs.Poly.{terms_of};
ghost use Rattle.graded_modules.specs.Vector.{degree_at, lead_mono};
ghost use Rattle.graded_modules.specs.Module.{IsLeadMultiple};
ghost use Rattle.module_division.specs.Leads.{IsRowOf, AreLeadRows};

use monomials::Mono;
use polys::Poly;
use std::alloc::{AllocError, Global};

/// The monomial of the lead, and 1 for the vector 0.
pub fn lead_mono(f: &Poly) -> Mono
    ensures { result ≡ lead_mono f.now.terms }
{
    match f.terms().first() {
        None => Mono::one(),
        Some(t) => t.mono,
    }
}

/// The degree, where the second unit vector has the degree `shift`. It may pass 2^32.
pub fn degree_at(shift: u32, m: &Mono) -> u64
    ensures { result ≡ degree_at shift m.now }
{
    u64::from(m.degree()) + u64::from(m.component()) * u64::from(shift)
}

// The seven exponents of a monomial, the homogenising one last, and then its component. Two such rows are compared at once.
#[derive(Clone, Copy)]
pub(crate) struct LeadRow {
    entries: [u32; 8],
}

// The row of the monomial.
fn mono_row(m: &Mono) -> LeadRow
    ensures { IsRowOf result.entries m.now }
{
    let mut entries = [0; 8];
    for v in 0..6 {
        entries[v as usize] = m.exponent(v);
    }
    entries[6] = m.hom();
    entries[7] = m.component();
    LeadRow { entries }
}

// The rows of the leads of the vectors, in one flat list.
pub(crate) fn lead_rows(alloc: Global, vectors: &[Poly]) -> Result<Vec<LeadRow>, AllocError>
    ensures { IfOk result (λ rows. AreLeadRows rows.items vectors.now) }
{
    let mut rows = Vec::new(alloc);
    for k in 0..vectors.len() {
        rows.push(mono_row(&lead_mono(&vectors[k])))?;
    }
    Ok(rows)
}

// Whether no entry of `a` is greater than the one of `b`.
fn is_within(a: &LeadRow, b: &LeadRow) -> bool
    ensures { ((i : ℕ) → i < 8 → slice_index a.now.entries i ≤ slice_index b.now.entries i) → IsTrue result }
{
    let mut within = true;
    for i in 0..8 {
        if a.entries[i] > b.entries[i] {
            within = false;
        }
    }
    within
}

// Whether the lead of the vector divides the monomial, where the rows of both are at hand.
fn divides(lead: &LeadRow, f: &Poly, row: &LeadRow, m: &Mono) -> bool
    requires lead { IsRowOf lead.now.entries (lead_mono f.now.terms) }
    requires row { IsRowOf row.now.entries m.now }
    ensures { IsTrue result ↔ Divides (lead_mono f.now.terms) m.now }
{
    is_within(lead, row) && Mono::divides(&lead_mono(f), m)
}

// The number of the first vector whose lead divides the monomial.
pub(crate) fn find_divisor(leads: &[LeadRow], divisors: &[Poly], m: &Mono) -> Option<usize>
    requires { AreLeadRows leads.now divisors.now }
    ensures { MatchOption result (IsLeadMultiple (terms_of divisors.now) m.now → ⊥) (λ k. (k < length divisors.now) × ((d : _) → Divides (lead_mono (slice_index_or divisors.now k d).terms) m.now)) }
{
    let row = mono_row(m);
    for i in 0..divisors.len() {
        if divides(&leads[i], &divisors[i], &row, m) {
            return Some(i);
        }
    }
    None
}
