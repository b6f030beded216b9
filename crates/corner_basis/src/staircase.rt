// The monomials that are no leads of an ideal, and its least leads, in rising order.
ghost use Rattle.std.specs.Prelude.{◌≡◌, ◌↔◌, ℕ, ◌+◌, ◌*◌, ◌<◌, ◌≤◌, List, [], ◌∷◌, ◌++◌, length, map, take, replicate, slice_index_or, IsTrue, IfOk, OnOk, IfSome, All, Contains};
ghost use Rattle.std.specs.Bool.{MatchBool};
ghost use Rattle.monomials.specs.Mono.{Monomial, times, unit, variable};
ghost use Rattle.polys.specs.Terms.{IsAffine};
ghost use Rattle.polys.specs.Curve.{data_of};
ghost use Rattle.row_space.specs.Subspace.{FitsIn};
ghost use Rattle.standard_monomials.specs.Standard.{IsRising, polynomial_of};
ghost use Rattle.digit_space.specs.Model.{IsDigitRow, IsDigitsOf, times_variable, value_of};
ghost use Rattle.corner_basis.specs.Staircase.{HasDivisor, IsPassed};
ghost use Rattle.corner_basis.specs.Tried.{AreTried, HaveDigits, IsFront, IsNew, IsPutLead, IsPutStandard, IsSearched, left};

use crate::front::Front;
use crate::queue::insert_multiples;
use digit_space::Digits;
use lists::{List, NoMemory};
use monomials::Mono;
use polys::{Poly, Term};
use row_space::{Insert, Space};
use std::alloc::Global;

// A variable, and the number of a monomial.
#[derive(Clone, Copy)]
struct Parent {
    variable: u32,
    place: usize,
}

// The monomials as far as they are tried: those that are no leads, and the leads that no other one divides, each with its
// digits. The span is of the space of the ideal and the digits of the first.
#[derive(Drop)]
pub(crate) struct Staircase {
    pub(crate) standard: List<Mono>,
    pub(crate) standard_rows: List<List<u32>>,
    pub(crate) leads: List<Mono>,
    pub(crate) lead_rows: List<List<u32>>,
    pub(crate) span: Space,
}

// Whether one of the monomials divides `m`.
fn has_divisor(leads: &[Mono], m: &Mono) -> bool
    ensures { IsTrue result ↔ HasDivisor leads.now m.now }
{
    for lead in leads {
        if Mono::divides(lead, m) {
            return true;
        }
    }
    false
}

// The number of the monomial that gives `m` by the variable `v`.
fn place_by(standard: &[Mono], v: u32, m: &Mono) -> Option<usize>
    requires v { v < 6 }
    requires rising { IsRising standard.now }
    ensures { IfSome result (λ i. (i < length standard.now) × (times (slice_index_or standard.now i unit) (variable v) ≡ m.now)) }
{
    if m.exponent(v) == 0 {
        return None;
    }
    let factor = Mono::quotient(m, &Mono::var(v));
    match standard.binary_search_by(|w| Mono::cmp_dp(w, &factor)) {
        Ok(i) => Some(i),
        Err(_) => None,
    }
}

// A monomial of the list that gives `m` by a variable.
fn find_parent(standard: &[Mono], variables: u32, m: &Mono) -> Option<Parent>
    requires variables { variables ≤ 6 }
    requires rising { IsRising standard.now }
    ensures { IfSome result
        (λ p. (p.variable < variables) × (p.place < length standard.now) × (times (slice_index_or standard.now p.place unit) (variable p.variable) ≡ m.now)) }
{
    for v in 0..variables {
        if let Some(place) = place_by(standard, v, m) {
            return Some(Parent { variable: v, place });
        }
    }
    None
}

pub(crate) fn zero_row(alloc: Global, length: usize) -> Result<Vec<u32>, NoMemory>
    ensures { IfOk result (λ row. row.items ≡ replicate length 0) }
{
    Ok(vec![in alloc; 0u32; length]?)
}

// The digits of the variable `v` times the row's polynomial.
fn variable_multiple(digits: &Digits, v: u32, row: &[u32]) -> Result<List<u32>, NoMemory>
    requires v { v < digits.now.curve.variables }
    requires row { IsDigitRow digits.now row.now }
    ensures { IfOk result (λ made. IsDigitsOf digits.now (times_variable digits.now v (value_of digits.now row.now)) made) }
{
    let mut made = zero_row(digits.allocator(), row.len())?;
    digits.times_var(v, row, made.as_mut_slice());
    Ok(List::of_vec(made))
}

// Adds the first entries of each row, so many of them, to the list.
fn add_fronts(
    alloc: Global,
    rows: &[List<u32>],
    entries: usize,
    matrix: &mut List<List<u32>>,
) -> Result<(), NoMemory>
    requires { All (λ row. entries ≤ length row) rows.now }
    ensures { OnOk result (matrix.new ≡ matrix.old ++ map (take entries) rows.now) }
{
    for row in rows {
        matrix.push(List::from_slice(alloc, &row.as_slice()[..entries])?)?;
    }
    Ok(())
}

impl Staircase {
    // No monomial is tried.
    fn new(front: &Front) -> Result<Staircase, NoMemory>
        requires { IsFront front.now }
        ensures tried { IfOk result (λ s. AreTried front.now s) }
        ensures none { IfOk result (λ s. (s.standard ≡ []) × (s.leads ≡ [])) }
    {
        let alloc = front.digits.allocator();
        let mut span = Space::new(alloc, front.space.prime(), front.entries());
        span.add_rows(front.space.rows())?;
        let _rows = span.rows();
        Ok(Staircase {
            standard: List::new(alloc),
            standard_rows: List::new(alloc),
            leads: List::new(alloc),
            lead_rows: List::new(alloc),
            span,
        })
    }

    // The digits of the monomial.
    fn row_of(&self, digits: &Digits, m: &Mono) -> Result<List<u32>, NoMemory>
        requires affine { IsAffine digits.now.curve.variables m.now }
        requires standard { All (IsAffine digits.now.curve.variables) self.now.standard }
        requires rising { IsRising self.now.standard }
        requires rows { HaveDigits digits.now self.now.standard self.now.standard_rows }
        ensures { IfOk result (λ row. IsDigitsOf digits.now (polynomial_of m.now) row) }
    {
        let alloc = digits.allocator();
        let curve = digits.curve();
        let _corners = digits.basis();
        match find_parent(self.standard.as_slice(), curve.variables, m) {
            Some(p) => {
                let before = self.standard_rows.as_slice()[p.place].as_slice();
                variable_multiple(digits, p.variable, before)
            }
            None => {
                let term = Term { coeff: 1, mono: *m };
                digits.digits_of(&Poly::from_term(alloc, curve.prime, term)?)
            }
        }
    }

    // Puts the monomial, which has these digits, to those that are no leads, or to the leads; the answer is whether it is no
    // lead.
    fn put(&mut self, front: &Front, m: Mono, row: List<u32>) -> Result<bool, NoMemory>
        requires front { IsFront front.now }
        requires tried { AreTried front.now self.old }
        requires new { IsNew front.now.digits.now.curve.variables self.old m }
        requires row { IsDigitsOf front.now.digits.now (polynomial_of m) row }
        ensures tried { OnOk result (AreTried front.now self.new) }
        ensures put { IfOk result (λ standard. MatchBool standard (IsPutStandard m self.old self.new) (IsPutLead m self.old self.new)) }
    {
        match self.span.insert(&row.as_slice()[..front.entries()])? {
            Insert::Inserted => {
                self.standard.push(m)?;
                self.standard_rows.push(row)?;
                let _rows = self.span.rows();
                Ok(true)
            }
            Insert::Dependent(_) => {
                self.leads.push(m)?;
                self.lead_rows.push(row)?;
                Ok(false)
            }
        }
    }

    // Tries the monomial number `next` of the queue, unless a lead divides it. Where it is no lead, its multiples by the
    // variables join the queue.
    fn visit(&mut self, front: &Front, next: usize, queue: &mut Vec<Mono>) -> Result<(), NoMemory>
        requires front { IsFront front.now }
        requires tried { AreTried front.now self.old }
        requires search { IsSearched front.now next queue.old.items self.old }
        requires next { next < length queue.old.items }
        ensures tried { OnOk result (AreTried front.now self.new) }
        ensures search { OnOk result (IsSearched front.now (next + 1) queue.new.items self.new) }
        ensures fewer { OnOk result (left front.now (next + 1) queue.new.items self.new < left front.now next queue.old.items self.old) }
    {
        let _entries = front.entries();
        let m = queue[next];
        if has_divisor(self.leads.as_slice(), &m) {
            return Ok(());
        }
        let row = self.row_of(front.digits, &m)?;
        if self.put(front, m, row)? {
            insert_multiples(front.digits.curve().variables, m, queue)?;
        }
        Ok(())
    }

    // All monomials that are no leads, and all least leads.
    pub(crate) fn of_front(front: &Front) -> Result<Staircase, NoMemory>
        requires { IsFront front.now }
        ensures tried { IfOk result (λ s. AreTried front.now s) }
        ensures whole { IfOk result (λ s. (m : Monomial) → IsAffine front.now.digits.now.curve.variables m → IsPassed s.standard s.leads m) }
    {
        let mut found = Staircase::new(front)?;
        let mut queue = Vec::new(front.digits.allocator());
        queue.push(Mono::one())?;
        let mut next = 0;
        while next < queue.len() {
            found.visit(front, next, &mut queue)?;
            next += 1;
        }
        Ok(found)
    }

    // The first blocks of the digits of the leads, and then of those of the other monomials.
    pub(crate) fn matrix(&self, front: &Front) -> Result<List<List<u32>>, NoMemory>
        requires front { IsFront front.now }
        requires tried { AreTried front.now self.now }
        ensures { IfOk result (λ rows. rows ≡ map (take (length front.now.digits.now.basis * front.now.blocks)) (self.now.lead_rows ++ self.now.standard_rows)) }
    {
        let alloc = front.digits.allocator();
        let entries = front.entries();
        let mut matrix = List::new(alloc);
        add_fronts(alloc, self.lead_rows.as_slice(), entries, &mut matrix)?;
        add_fronts(alloc, self.standard_rows.as_slice(), entries, &mut matrix)?;
        Ok(matrix)
    }
}
