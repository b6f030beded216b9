// Division of a vector of one degree as a row of coefficients over the monomials of the degree.
ghost use Rattle.std.specs.Prelude.{◌≡◌, ◌+◌, ◌%◌, ◌<◌, ◌≤◌, [], ◌∷◌, length, map, drop, replicate, All, IfOk, IfSome, IsTrue};
ghost use Rattle.monomials.specs.declared.mono.TheConstants.{MAX_DEGREE};
ghost use Rattle.monomials.specs.Mono.{total_degree};
ghost use Rattle.polys.specs.Terms.{EachMono, add, normal, degree_of};
ghost use Rattle.polys.specs.Poly.{IsVector, IsPlain, terms_of};
ghost use Rattle.graded_modules.specs.Module.{IsLeadMultiple};
ghost use Rattle.module_division.specs.Division.{IsDivisor, Reduces, term_product};
ghost use Rattle.module_division.specs.declared.rows.TheConstants.{ENTRY_LIMIT};
ghost use Rattle.module_division.specs.Rows.{AreFalling, row_terms};

use crate::columns::{Columns, Guesses, Places, is_column};
use crate::division::vector_remainder;
use crate::leads::{find_divisor, lead_mono, lead_rows};
use monomials::Mono;
use polys::{Poly, Term};
use prime_field::Prime;
use std::alloc::{AllocError, Global};

// Entries of rows stay below 2^62: only a larger one is divided by the prime.
const ENTRY_LIMIT: u64 = 1 << 62;

// The residue of an entry.
fn residue(p: Prime, c: u64) -> u32
    ensures value { result ≡ c % p }
    ensures below { result < p }
{
    (c % u64::from(p.get())) as u32
}

// A number below the limit that is c modulo p.
fn kept_small(p: Prime, c: u64) -> u64
    ensures small { result < ENTRY_LIMIT }
    ensures same { result % p ≡ c % p }
{
    if c < ENTRY_LIMIT {
        c
    } else {
        u64::from(residue(p, c))
    }
}

// Adds c times the monomial to the row, if the guess is its column, from `from` on.
fn add_at(
    p: Prime,
    columns: &[Mono],
    from: usize,
    guess: usize,
    m: &Mono,
    c: u64,
    row: &mut Vec<u64>,
) -> bool
    requires small { c < ENTRY_LIMIT }
    requires same_length { length row.old.items ≡ length columns.now }
    requires entries { All (λ k. k < ENTRY_LIMIT) row.old.items }
    ensures same_length { length row.new.items ≡ length row.old.items }
    ensures entries { All (λ k. k < ENTRY_LIMIT) row.new.items }
    ensures sum { IsTrue result → normal p (row_terms (drop from columns.now) (drop from row.new.items)) ≡ add p (row_terms (drop from columns.now) (drop from row.old.items)) (record { coeff = c; mono = m.now } ∷ []) }
{
    if guess < from || !is_column(columns, guess, m) {
        return false;
    }
    row[guess] = kept_small(p, row[guess] + c);
    true
}

// Adds the multiple of the terms by t to the row, if each product has its column from `from` on where it is guessed.
fn add_multiple(
    p: Prime,
    guesses: &Guesses,
    start: usize,
    columns: &[Mono],
    from: usize,
    t: &Term,
    terms: &[Term],
    row: &mut Vec<u64>,
) -> bool
    requires terms { IsVector p terms.now }
    requires residue { t.now.coeff < p }
    requires plain { IsPlain t.now.mono }
    requires room { degree_of terms.now + total_degree t.now.mono.exponents ≤ MAX_DEGREE }
    requires same_length { length row.old.items ≡ length columns.now }
    requires entries { All (λ k. k < ENTRY_LIMIT) row.old.items }
    ensures same_length { length row.new.items ≡ length row.old.items }
    ensures entries { All (λ k. k < ENTRY_LIMIT) row.new.items }
    ensures sum { IsTrue result → normal p (row_terms (drop from columns.now) (drop from row.new.items)) ≡ add p (row_terms (drop from columns.now) (drop from row.old.items)) (map (term_product p t.now) terms.now) }
{
    let _prime = p.get();
    for j in 0..terms.len() {
        let u = terms[j];
        let guess = guesses.get(start.wrapping_add(j));
        let m = Mono::product(&u.mono, &t.mono);
        let c = u64::from(u.coeff * t.coeff);
        if !add_at(p, columns, from, guess, &m, c, row) {
            return false;
        }
    }
    true
}

// A row of zeros.
fn zeros(alloc: Global, count: usize) -> Result<Vec<u64>, AllocError>
    ensures { IfOk result (λ row. row.items ≡ replicate count 0) }
{
    Ok(vec![in alloc; 0u64; count]?)
}

// The row of the vector, if each of its monomials has a column.
fn row_of(
    alloc: Global,
    p: Prime,
    places: &Places,
    columns: &[Mono],
    v: &[Term],
) -> Result<Option<Vec<u64>>, AllocError>
    requires vector { IsVector p v.now }
    ensures same_length { IfOk result (λ r. IfSome r (λ row. length row.items ≡ length columns.now)) }
    ensures entries { IfOk result (λ r. IfSome r (λ row. All (λ k. k < ENTRY_LIMIT) row.items)) }
    ensures value { IfOk result (λ r. IfSome r (λ row. normal p (row_terms columns.now row.items) ≡ v.now)) }
{
    let _prime = p.get();
    let mut row = zeros(alloc, columns.len())?;
    for u in v {
        let guess = places.guess(&u.mono);
        if !add_at(p, columns, 0, guess, &u.mono, u64::from(u.coeff), &mut row) {
            return Ok(None);
        }
    }
    Ok(Some(row))
}

// What is left of the vector when the leads of the divisors divide no monomial any more, if all columns that it takes are there.
fn row_remainder(
    alloc: Global,
    p: Prime,
    places: &Places,
    guesses: &mut Guesses,
    columns: &[Mono],
    v: &[Term],
    divisors: &[Poly],
) -> Result<Option<Vec<Term>>, AllocError>
    requires falling { AreFalling columns.now }
    requires vector { IsVector p v.now }
    requires divisors { All (IsDivisor p) divisors.now }
    ensures reduces { IfOk result (λ o. IfSome o (λ r. Reduces p (terms_of divisors.now) v.now r.items)) }
    ensures known { IfOk result (λ o. IfSome o (λ r. IsVector p r.items)) }
    ensures outside { IfOk result (λ o. IfSome o (λ r. EachMono (λ m. IsLeadMultiple (terms_of divisors.now) m → ⊥) r.items)) }
{
    let _prime = p.get();
    let Some(mut row) = row_of(alloc, p, places, columns, v)? else {
        return Ok(None);
    };
    let mut out = Vec::new(alloc);
    let leads = lead_rows(alloc, divisors)?;
    for i in 0..columns.len() {
        let coeff = residue(p, row[i]);
        if coeff != 0 {
            let mono = columns[i];
            match find_divisor(&leads, divisors, &mono) {
                None => out.push(Term { coeff, mono })?,
                Some(k) => {
                    let b = &divisors[k];
                    let factor = Term {
                        coeff: p.neg(coeff),
                        mono: Mono::quotient(&mono, &lead_mono(b)),
                    };
                    let terms = b.terms();
                    let start = guesses.start(places, i, &factor.mono, terms)?;
                    let found = add_multiple(
                        p, guesses, start, columns, i, &factor, terms, &mut row,
                    );
                    if !found || residue(p, row[i]) != 0 {
                        return Ok(None);
                    }
                }
            }
        }
    }
    Ok(Some(out))
}

impl Columns {
    /// What is left of the vector `v` when the leads of the divisors divide no monomial any more, as of [`vector_remainder`],
    /// which it is faster than where vectors are long: where all monomials have columns, each multiple that is taken away
    /// costs a step for each of its terms, and the columns are gone through once.
    ///
    /// Greuel and Pfister, section on normal forms.
    pub fn remainder(
        &mut self,
        alloc: Global,
        p: Prime,
        v: Vec<Term>,
        divisors: &[Poly],
    ) -> Result<Vec<Term>, AllocError>
        requires vector { IsVector p v.items }
        requires divisors { All (IsDivisor p) divisors.now }
        ensures reduces { IfOk result (λ r. Reduces p (terms_of divisors.now) v.items r.items) }
        ensures known { IfOk result (λ r. IsVector p r.items) }
        ensures outside { IfOk result (λ r. EachMono (λ m. IsLeadMultiple (terms_of divisors.now) m → ⊥) r.items) }
    {
        let places = &self.places;
        let columns = &self.columns;
        let guesses = &mut self.guesses;
        match row_remainder(alloc, p, places, guesses, columns, &v, divisors)? {
            Some(rest) => Ok(rest),
            None => vector_remainder(alloc, p, v, divisors),
        }
    }
}
