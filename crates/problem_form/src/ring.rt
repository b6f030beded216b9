// The statement of the ring, and the words that begin the statements behind it.
ghost use Rattle.std.specs.Prelude.{◌≡◌, ◌<◌, length, codes, IfOk, IfSome, [], ◌∷◌};
ghost use Rattle.problem_form.specs.Tokens.{tokens};
ghost use Rattle.problem_form.specs.Reading.{Gives, after_token, after_name, number_at, begun_at, letter_of, letter_at, listed_at, single_at, letters_at, ring_start, ring_end, ring_at};

use crate::tokens::next_token;
use crate::words::{is_name, is_number, is_token};
use lists::{List, NoMemory};
use std::alloc::Global;

// The text behind this token.
fn after_token<'a>(text: &'a [u8], word: &[u8]) -> Option<&'a [u8]>
    ensures { Gives (λ r. tokens r.now) result (after_token word.now (tokens text.now)) }
{
    let (token, rest) = next_token(text)?;
    if !is_token(token, word) {
        return None;
    }
    Some(rest)
}

// The text behind a name.
fn after_name(text: &[u8]) -> Option<&[u8]>
    ensures { Gives (λ r. tokens r.now) result (after_name (tokens text.now)) }
{
    let (token, rest) = next_token(text)?;
    if !is_name(token) {
        return None;
    }
    Some(rest)
}

// A number and the text behind it.
fn number_at(text: &[u8]) -> Option<(&[u8], &[u8])>
    ensures { Gives (λ r. (r.0.now, tokens r.1.now)) result (number_at (tokens text.now)) }
{
    let (token, rest) = next_token(text)?;
    if !is_number(token) {
        return None;
    }
    Some((token, rest))
}

/// The text behind this word, a name and `=`.
#[tactic(auto, unfolding(crate::specs::Reading::begun_at))]
pub fn begun_at<'a>(text: &'a [u8], word: &[u8]) -> Option<&'a [u8]>
    ensures { Gives (λ r. tokens r.now) result (begun_at word.now (tokens text.now)) }
{
    let rest = after_token(text, word)?;
    let rest = after_name(rest)?;
    after_token(rest, b"=")
}

// The letter that is the token.
fn letter_of(token: &[u8]) -> Option<u8>
    ensures { result ≡ letter_of token.now }
{
    match token {
        [letter] if letter.is_ascii_alphabetic() => Some(*letter),
        _ => None,
    }
}

// A letter and the text behind it.
fn letter_at(text: &[u8]) -> Option<(u8, &[u8])>
    ensures exact { Gives (λ r. (r.0, tokens r.1.now)) result (letter_at (tokens text.now)) }
    ensures shorter { IfSome result (λ r. length r.1.now < length text.now) }
{
    let (token, rest) = next_token(text)?;
    let letter = letter_of(token)?;
    Some((letter, rest))
}

// The letters up to a closing parenthesis, and the text behind it.
fn listed_letters(alloc: Global, text: &[u8]) -> Result<Option<(List<u8>, &[u8])>, NoMemory>
    ensures { IfOk result (λ found. Gives (λ r. (r.0, tokens r.1.now)) found (listed_at [] (tokens text.now))) }
{
    let mut letters = List::new(alloc);
    let mut rest = text;
    while let Some((letter, after)) = letter_at(rest) {
        letters.push(letter)?;
        let Some((mark, after)) = next_token(after) else {
            return Ok(None);
        };
        if is_token(mark, b")") {
            return Ok(Some((letters, after)));
        }
        if !is_token(mark, b",") {
            return Ok(None);
        }
        rest = after;
    }
    Ok(None)
}

// A letter without parentheses and the text behind it.
fn single_letter(alloc: Global, text: &[u8]) -> Result<Option<(List<u8>, &[u8])>, NoMemory>
    ensures { IfOk result (λ found. Gives (λ r. (r.0, tokens r.1.now)) found (single_at (tokens text.now))) }
{
    let Some((letter, rest)) = letter_at(text) else {
        return Ok(None);
    };
    let mut letters = List::new(alloc);
    letters.push(letter)?;
    Ok(Some((letters, rest)))
}

// The letters of the ring and the text behind them.
#[tactic(auto, unfolding(crate::specs::Reading::letters_at))]
fn letters_at(alloc: Global, text: &[u8]) -> Result<Option<(List<u8>, &[u8])>, NoMemory>
    ensures { IfOk result (λ found. Gives (λ r. (r.0, tokens r.1.now)) found (letters_at (tokens text.now))) }
{
    match after_token(text, b"(") {
        Some(rest) => listed_letters(alloc, rest),
        None => single_letter(alloc, text),
    }
}

// The characteristic and the text behind its comma.
#[tactic(auto, unfolding(crate::specs::Reading::ring_start))]
fn ring_start(text: &[u8]) -> Option<(&[u8], &[u8])>
    ensures { Gives (λ r. (r.0.now, tokens r.1.now)) result (ring_start (tokens text.now)) }
{
    let rest = begun_at(text, b"ring")?;
    let (characteristic, rest) = number_at(rest)?;
    let rest = after_token(rest, b",")?;
    Some((characteristic, rest))
}

// The text behind the order of the ring.
#[tactic(auto, unfolding(crate::specs::Reading::ring_end))]
fn ring_end(text: &[u8]) -> Option<&[u8]>
    ensures { Gives (λ r. tokens r.now) result (ring_end (tokens text.now)) }
{
    let rest = after_token(text, b",")?;
    let rest = after_token(rest, b"dp")?;
    after_token(rest, b";")
}

/// The statement of a ring.
#[derive(Debug, Drop)]
pub struct Ring<'a> {
    pub characteristic: &'a [u8],
    pub letters: List<u8>,
    pub rest: &'a [u8],
}

/// The ring at the front, or `None` where the text does not begin so. Its letters may repeat.
#[tactic(auto, unfolding(crate::specs::Reading::ring_at))]
pub fn ring_at(alloc: Global, text: &[u8]) -> Result<Option<Ring>, NoMemory>
    ensures { IfOk result (λ found. Gives (λ r. (r.characteristic.now, r.letters, tokens r.rest.now)) found (ring_at (tokens text.now))) }
{
    let Some((characteristic, rest)) = ring_start(text) else {
        return Ok(None);
    };
    let Some((letters, rest)) = letters_at(alloc, rest)? else {
        return Ok(None);
    };
    let Some(rest) = ring_end(rest) else {
        return Ok(None);
    };
    Ok(Some(Ring {
        characteristic,
        letters,
        rest,
    }))
}
