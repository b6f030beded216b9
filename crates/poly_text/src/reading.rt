// Polynomials read back from their texts.
ghost use Rattle.std.specs.Prelude.{◌≡◌, ◌+◌, ◌≤◌, ◌<◌, ◌⊎◌, ◌↔◌, ◌++◌, ◌∷◌, List, length, ℕ, Ok, Err, IfOk, IfSome, IsTrue};
ghost use Rattle.monomials.specs.declared.mono.TheConstants.{MAX_DEGREE};
ghost use Rattle.problem.specs.declared.limits.TheConstants.{MAX_LETTERS};
ghost use Rattle.monomials.specs.Mono.{IsMono};
ghost use Rattle.polys.specs.declared.term.Term.{Term};
ghost use Rattle.polys.specs.Terms.{IsCanonical, Under};
ghost use Rattle.poly_text.specs.PolyText.{poly_text};
ghost use Rattle.poly_text.specs.PolyReading.{IsPolyText, TextsTellPolynomials};
ghost use Rattle.poly_text.specs.TermReading.{begun, raised_within, settled, with_digit, with_letter, with_byte, residue_of, finished, is_sign, terms_in, all_terms, IsPartialTerm};
ghost use Rattle.poly_text.specs.declared.reading.PolyFault.TheVariants.{NotPoly, Memory};

use crate::powers::{digit_value, raised};
use crate::printing::print_poly;
use lists::NoMemory;
use monomials::Mono;
use polys::{Poly, Term};
use prime_field::Prime;
use problem::{Letters, is_among, place};
use std::alloc::Global;
use std::cmp::Ordering;
use thiserror::Error;

/// Why no polynomial was read.
#[derive(Clone, Copy, Debug, Drop, PartialEq, Eq, Error)]
pub enum PolyFault {
    /// The bytes are the text of no polynomial over the letters with degree at most 60,000.
    #[error("no polynomial")]
    NotPoly,
    /// Out of memory.
    #[error("no memory")]
    Memory,
}

impl From<NoMemory> for PolyFault {
    ghost use Rattle.std.specs.Prelude.{◌≡◌};
    ghost use Rattle.poly_text.specs.declared.reading.PolyFault.TheVariants.{Memory};

    ghost from_gives = { λ _ e. e ≡ Memory };

    fn from(_: NoMemory) -> PolyFault {
        PolyFault::Memory
    }
}

// The greatest degree of a monomial. It is above each coefficient too.
const MOST: u32 = 60000;

// A term that is being read: its sign, its size and its monomial so far, and the letter and the number that were
// read last and are not in them yet. A number that no letter stands before is the size.
#[derive(Drop)]
struct PartialTerm {
    is_negative: bool,
    size: u32,
    mono: Mono,
    letter: Option<u32>,
    number: Option<u32>,
}

// The power `e` of the variable `v` put to a monomial, so far as the degree stays within 60,000.
fn raised_within(mono: &Mono, v: u32, e: u32) -> Mono
    requires variable { v < 6 }
    ensures value { result ≡ raised_within mono.now v e }
    ensures known { IsMono result }
{
    let room = MOST - mono.degree();
    raised(*mono, v, e.min(room))
}

impl PartialTerm {
    fn new(is_negative: bool) -> PartialTerm
        ensures { result ≡ begun is_negative }
    {
        PartialTerm {
            is_negative,
            size: 1,
            mono: Mono::one(),
            letter: None,
            number: None,
        }
    }

    // The size and the monomial of what was read.
    fn settled(&self) -> Term
        requires letter { IfSome self.now.letter (λ v. v < 6) }
        ensures { result ≡ settled self.now }
    {
        match self.letter {
            None => Term {
                coeff: self.number.unwrap_or(self.size),
                mono: self.mono,
            },
            Some(v) => Term {
                coeff: self.size,
                mono: raised_within(&self.mono, v, self.number.unwrap_or(1)),
            },
        }
    }

    fn with_digit(self, digit: u8) -> PartialTerm
        requires number { IfSome self.number (λ k. k ≤ MAX_DEGREE) }
        ensures { result ≡ with_digit self digit }
    {
        let number = self.number.unwrap_or(0) * 10 + digit_value(digit);
        PartialTerm {
            is_negative: self.is_negative,
            size: self.size,
            mono: self.mono,
            letter: self.letter,
            number: Some(number.min(MOST)),
        }
    }

    fn with_letter(self, letters: &[u8], letter: u8) -> PartialTerm
        requires few { length letters.now ≤ MAX_LETTERS }
        requires known { IsPartialTerm (length letters.now) self }
        ensures { result ≡ with_letter letters.now self letter }
    {
        let settled = self.settled();
        PartialTerm {
            is_negative: self.is_negative,
            size: settled.coeff,
            mono: settled.mono,
            letter: Some(place(letters, letter) as u32),
            number: None,
        }
    }

    // What is read with a byte more that is no sign.
    fn with_byte(self, letters: &[u8], byte: u8) -> PartialTerm
        requires few { length letters.now ≤ MAX_LETTERS }
        requires known { IsPartialTerm (length letters.now) self }
        ensures value { result ≡ with_byte letters.now self byte }
        ensures known { IsPartialTerm (length letters.now) result }
    {
        if byte.is_ascii_digit() {
            return self.with_digit(byte);
        }
        if is_among(letters, byte) {
            return self.with_letter(letters, byte);
        }
        self
    }
}

fn is_sign(byte: u8) -> bool
    ensures { result ≡ is_sign byte }
{
    byte == b'+' || byte == b'-'
}

fn residue_of(p: u32, is_negative: bool, size: u32) -> u32
    ensures { result ≡ residue_of p is_negative size }
{
    if is_negative {
        return p.saturating_sub(size);
    }
    size
}

// Appends the term that was read, unless its coefficient is 0.
fn finish(p: u32, partial: &PartialTerm, terms: &mut Vec<Term>) -> Result<(), NoMemory>
    requires letter { IfSome partial.now.letter (λ v. v < 6) }
    ensures { IfOk result (λ _. terms.new.items ≡ terms.old.items ++ finished p partial.now) }
{
    let settled = partial.settled();
    let coeff = residue_of(p, partial.is_negative, settled.coeff);
    if coeff == 0 {
        return Ok(());
    }
    terms.push(Term {
        coeff,
        mono: settled.mono,
    })?;
    Ok(())
}

// Reads a byte more.
fn step(
    p: u32,
    letters: &[u8],
    partial: PartialTerm,
    byte: u8,
    terms: &mut Vec<Term>,
) -> Result<PartialTerm, NoMemory>
    requires few { length letters.now ≤ MAX_LETTERS }
    requires known { IsPartialTerm (length letters.now) partial }
    ensures known { IfOk result (λ s. IsPartialTerm (length letters.now) s) }
    ensures terms { IfOk result (λ s. (rest : List ℕ) → terms.new.items ++ terms_in p letters.now s rest ≡ terms.old.items ++ terms_in p letters.now partial (byte ∷ rest)) }
{
    if !is_sign(byte) {
        return Ok(partial.with_byte(letters, byte));
    }
    finish(p, &partial, terms)?;
    Ok(PartialTerm::new(byte == b'-'))
}

// The terms of the bytes behind the first sign.
fn terms_behind(
    alloc: Global,
    p: u32,
    letters: &[u8],
    is_negative: bool,
    bytes: &[u8],
) -> Result<Vec<Term>, NoMemory>
    requires few { length letters.now ≤ MAX_LETTERS }
    ensures { IfOk result (λ terms. terms.items ≡ terms_in p letters.now (begun is_negative) bytes.now) }
{
    let mut terms = Vec::new(alloc);
    let mut partial = PartialTerm::new(is_negative);
    for byte in bytes {
        partial = step(p, letters, partial, *byte, &mut terms)?;
    }
    finish(p, &partial, &mut terms)?;
    Ok(terms)
}

// The terms of the bytes.
fn all_terms(alloc: Global, p: u32, letters: &[u8], bytes: &[u8]) -> Result<Vec<Term>, NoMemory>
    requires few { length letters.now ≤ MAX_LETTERS }
    ensures { IfOk result (λ terms. terms.items ≡ all_terms p letters.now bytes.now) }
{
    match bytes {
        [b'-', rest @ ..] => terms_behind(alloc, p, letters, true, rest),
        _ => terms_behind(alloc, p, letters, false, bytes),
    }
}

// Whether a monomial is greater than the first of these terms.
fn is_above(mono: &Mono, rest: &[Term]) -> bool
    ensures { IsTrue result ↔ Under mono.now rest.now }
{
    match rest.first() {
        Some(term) => Mono::cmp_dp(mono, &term.mono) == Ordering::Greater,
        None => true,
    }
}

fn is_unit(p: u32, coeff: u32) -> bool
    ensures { IsTrue result ↔ ((0 < coeff) × (coeff < p)) }
{
    0 < coeff && coeff < p
}

// Whether a term may stand before these terms.
fn may_precede(p: u32, term: &Term, rest: &[Term]) -> bool
    ensures { IsTrue result ↔ ((0 < term.now.coeff) × (term.now.coeff < p) × Under term.now.mono rest.now) }
{
    is_unit(p, term.coeff) && is_above(&term.mono, rest)
}

// Whether the terms fall in dp and their coefficients are from 1 to p - 1.
fn are_canonical(p: u32, terms: &[Term]) -> bool
    ensures { IsTrue result ↔ IsCanonical p terms.now }
{
    for (i, term) in terms.iter().enumerate() {
        if !may_precede(p, term, &terms[i + 1..]) {
            return false;
        }
    }
    true
}

// Whether the bytes are the text of the polynomial.
fn is_text(alloc: Global, letters: &Letters, poly: &Poly, bytes: &[u8]) -> Result<bool, NoMemory>
    ensures { IfOk result (λ b. IsTrue b ↔ (bytes.now ≡ poly_text poly.now.prime letters.now poly.now.terms)) }
{
    let mut text = lists::List::new(alloc);
    print_poly(letters, poly, &mut text)?;
    Ok(text.as_slice() == bytes)
}

/// The polynomial over these letters modulo p whose text the bytes are, as `print_poly` writes it, with no monomial of
/// a degree above 60,000. `NotPoly` comes exactly where they are the text of none: each other way to write a polynomial
/// is refused. It takes about as many steps as there are bytes.
pub fn read_poly(
    alloc: Global,
    prime: Prime,
    letters: &Letters,
    bytes: &[u8],
) -> Result<Poly, PolyFault>
    ensures text { IfOk result (λ f. (f.prime ≡ prime) × IsPolyText prime letters.now bytes.now f.terms) }
    ensures exact { (f : List Term) → IsPolyText prime letters.now bytes.now f → (result ≡ Ok (record { prime = prime; terms = f })) ⊎ (result ≡ Err Memory) }
    ensures not_poly { result ≡ Err NotPoly → (f : List Term) → IsPolyText prime letters.now bytes.now f → ⊥ }
{
    let p = prime.get();
    let terms = all_terms(alloc, p, letters.as_slice(), bytes)?;
    if !are_canonical(p, &terms) {
        return Err(PolyFault::NotPoly);
    }
    let poly = Poly::of_terms(prime, terms);
    if !is_text(alloc, letters, &poly, bytes)? {
        return Err(PolyFault::NotPoly);
    }
    Ok(poly)
}

/// No two polynomials without monomials of a degree above 60,000 have the same text.
pub fn texts_tell_polynomials()
    ensures { TextsTellPolynomials }
{}
