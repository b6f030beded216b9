// How problems are read.
ghost use Rattle.std.specs.Prelude.{◌≡◌, ◌<◌, [], drop, length, nat_lt, if◌then◌else◌, IfOk, IfErr, IfSome, MatchOption, Some, None, Err};
ghost use Rattle.std.specs.List.{AllByRecursion};
ghost use Rattle.prime_field.specs.Primes.{IsCharacteristic};
ghost use Rattle.singular_text.specs.declared.faults.ReadFault.TheVariants.{Syntax, Characteristic, Limit};
ghost use Rattle.problem_form.specs.Tokens.{tokens};
ghost use Rattle.poly_text.specs.Digits.{number};
ghost use Rattle.singular_text.specs.Evaluating.{IsReadAs};
ghost use Rattle.problem.specs.Problem.{IsFit, IsFitProblem, IsProblem, problem_data};
ghost use Rattle.problem_form.specs.ProblemText.{ProblemText, IsTextOf, HasText};
ghost use Rattle.singular_text.specs.Meanings.{IsOfText, Answers};
ghost use Rattle.singular_text.specs.Checks.{HasFitPolys, fault_of, count_fault, denominator_at, points_at, problem_at, problem_by};
ghost use Rattle.problem_form.specs.Forms.{AreRingLetters};

use crate::evaluation::Ground;
use crate::faults::{ReadFault, Which};
use crate::laws::texts_state_problems;
use crate::values::number_up_to;
use lists::List;
use polys::Poly;
use prime_field::Prime;
use problem::limits::{
    MAX_DIGITS, MAX_GENERATORS, MAX_NESTING, MAX_POINT_POLYNOMIALS, MAX_STATEMENTS,
    NO_CHARACTERISTIC,
};
use problem::{Letters, Problem};
use problem_form::{Form, Scan, begun_at, form_of, next_token};
use std::alloc::Global;

// The prime, where it is in the table; all its numbers have at most five digits.
fn characteristic(digits: &[u8]) -> Result<Prime, ReadFault>
    ensures value { IfOk result (λ p. (p ≡ number digits.now) × IsCharacteristic p) }
    ensures fault { IfErr result (λ fault. (fault ≡ Characteristic) × (IsCharacteristic (number digits.now) → ⊥)) }
{
    Prime::new(number_up_to(NO_CHARACTERISTIC, digits)).ok_or(ReadFault::Characteristic)
}

fn at_most(count: usize, most: usize, which: Which) -> Result<(), ReadFault>
    ensures { fault_of result ≡ (if nat_lt most count then Some (Limit which) else None) }
{
    if count > most {
        return Err(ReadFault::Limit(which));
    }
    Ok(())
}

// The counts of a text against their limits, in order.
fn check_counts(scan: &Scan) -> Result<(), ReadFault>
    ensures { fault_of result ≡ count_fault scan.now }
{
    at_most(scan.generators, MAX_GENERATORS, Which::Generators)?;
    at_most(scan.statements, MAX_STATEMENTS, Which::Points)?;
    at_most(scan.longest, MAX_POINT_POLYNOMIALS, Which::Points)?;
    at_most(scan.nesting, MAX_NESTING, Which::Nesting)?;
    at_most(scan.digits, MAX_DIGITS, Which::Digits)
}

// The text behind its first token.
fn behind_token(text: &[u8]) -> &[u8]
    ensures { tokens result.now ≡ drop 1 (tokens text.now) }
{
    match next_token(text) {
        Some((_, rest)) => rest,
        None => text,
    }
}

// The value of a denominator, if its statement stands here, and the text behind it.
#[tactic(auto, unfolding(crate::specs::Checks::denominator_at))]
fn denominator<'a>(ground: &Ground, text: &'a [u8]) -> Result<(Option<Poly>, &'a [u8]), ReadFault>
    ensures exact { IsReadAs (λ r. (r.0, tokens r.1.now)) result (denominator_at ground.now.prime ground.now.letters (tokens text.now)) }
    ensures fit { IfOk result (λ r. IfSome r.0 (IsFit ground.now.prime (length ground.now.letters))) }
{
    let Some(behind) = begun_at(text, b"poly") else {
        return Ok((None, text));
    };
    let (values, rest) = ground.list(behind)?;
    Ok((values.into_vec().pop(), rest))
}

// The values of so many `at` statements.
fn points(ground: &Ground, count: usize, text: &[u8]) -> Result<List<List<Poly>>, ReadFault>
    ensures exact { IsReadAs (λ r. r) result (points_at ground.now.prime ground.now.letters [] count (tokens text.now)) }
    ensures fit { IfOk result (AllByRecursion (AllByRecursion (IsFit ground.now.prime (length ground.now.letters)))) }
{
    let mut at = List::new(ground.alloc);
    let mut rest = text;
    for _ in 0..count {
        let (values, after) = ground.list(behind_token(rest))?;
        at.push(values)?;
        rest = after;
    }
    Ok(at)
}

// The problem of statements that have their form and are within their limits.
#[tactic(auto, unfolding(crate::specs::Checks::problem_at))]
fn evaluate(ground: Ground, count: usize, text: &[u8]) -> Result<Problem, ReadFault>
    ensures exact { IsReadAs (λ r. r) result (problem_at ground.prime ground.letters count (tokens text.now)) }
    ensures fit { IfOk result HasFitPolys }
{
    let (generators, rest) = ground.list(text)?;
    let (denominator, rest) = denominator(&ground, rest)?;
    let at = points(&ground, count, rest)?;
    let Ground {
        alloc: _,
        prime,
        letters,
    } = ground;
    Ok(Problem {
        prime,
        letters,
        generators,
        denominator,
        at,
    })
}

// The problem of a text of this form, after the checks in their order.
#[tactic(auto, unfolding(crate::specs::Checks::problem_by))]
fn checked_problem(alloc: Global, form: &Form) -> Result<Problem, ReadFault>
    requires { AreRingLetters form.now.letters }
    ensures exact { IsReadAs (λ r. r) result (problem_by form.now.characteristic.now form.now.letters form.now.scan (tokens form.now.text.now)) }
    ensures fit { IfOk result HasFitPolys }
{
    let prime = characteristic(form.characteristic)?;
    let Some(letters) = Letters::new(form.letters.as_slice()) else {
        return Err(ReadFault::Limit(Which::Variables));
    };
    check_counts(&form.scan)?;
    let ground = Ground {
        alloc,
        prime,
        letters,
    };
    evaluate(ground, form.scan.statements, form.text)
}

/// The problem that the bytes state in a small part of Singular's language: a ring, an ideal, a denominator or none,
/// and `at` statements. `Syntax` exactly where the bytes are not of the grammar; then the checks are made over the
/// whole text one after the other, in this order: `Characteristic`, and the limits of `Which` as they are listed.
/// `Memory` where memory ran out.
pub fn read_problem(alloc: Global, bytes: &[u8]) -> Result<Problem, ReadFault>
    ensures syntax { result ≡ Err Syntax → HasText bytes.now → ⊥ }
    ensures spelled { IsOfText result → HasText bytes.now }
    ensures exact { (t : ProblemText) → IsTextOf bytes.now t → Answers result t }
    ensures fit { IfOk result IsFitProblem }
    ensures problem { IfOk result (λ problem. IsProblem (problem_data problem)) }
{
    texts_state_problems();
    let Some(form) = form_of(alloc, bytes)? else {
        return Err(ReadFault::Syntax);
    };
    checked_problem(alloc, &form)
}
