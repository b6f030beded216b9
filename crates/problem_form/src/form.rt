// The form of a whole text.
ghost use Rattle.std.specs.Prelude.{◌≡◌, IfOk, IfSome, MatchOption};
ghost use Rattle.problem_form.specs.Tokens.{tokens};
ghost use Rattle.problem_form.specs.Reading.{Gives};
ghost use Rattle.problem_form.specs.ProblemText.{HasText};
ghost use Rattle.problem_form.specs.Forms.{IsForm, AreRingLetters, statements_at};

use crate::ring::{begun_at, ring_at};
use crate::scanning::{Place, Scan, scan_statements};
use lists::{List, NoMemory};
use problem::are_distinct_letters;
use std::alloc::Global;

// The counts of the statements behind the ring, and their text behind `ideal`, its name and `=`.
#[tactic(auto, unfolding(crate::specs::Forms::statements_at))]
fn statements<'a>(letters: &[u8], text: &'a [u8]) -> Option<(Scan, &'a [u8])>
    ensures { Gives (λ r. (r.0, tokens r.1.now)) result (statements_at letters.now (tokens text.now)) }
{
    let rest = begun_at(text, b"ideal")?;
    let scan = scan_statements(letters, rest)?;
    if scan.place != Place::Between {
        return None;
    }
    Some((scan, rest))
}

/// A text of the form that the grammar gives: the digits of the characteristic, the letters of the ring, the counts of
/// the other statements, and these statements behind `ideal`, its name and `=`.
#[derive(Debug, Drop)]
pub struct Form<'a> {
    pub characteristic: &'a [u8],
    pub letters: List<u8>,
    pub scan: Scan,
    pub text: &'a [u8],
}

/// The form of a text, or `None` where it is not of the grammar.
pub fn form_of(alloc: Global, bytes: &[u8]) -> Result<Option<Form>, NoMemory>
    ensures form { IfOk result (λ found. MatchOption found (HasText bytes.now → ⊥) (λ f. IsForm bytes.now f.characteristic.now f.letters f.scan (tokens f.text.now))) }
    ensures letters { IfOk result (λ found. IfSome found (λ f. AreRingLetters f.letters)) }
{
    let Some(ring) = ring_at(alloc, bytes)? else {
        return Ok(None);
    };
    if !are_distinct_letters(ring.letters.as_slice()) {
        return Ok(None);
    }
    let Some((scan, text)) = statements(ring.letters.as_slice(), ring.rest) else {
        return Ok(None);
    };
    Ok(Some(Form {
        characteristic: ring.characteristic,
        letters: ring.letters,
        scan,
        text,
    }))
}
