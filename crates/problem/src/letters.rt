// The letters of the variables.
ghost use Rattle.std.specs.Prelude.{◌≡◌, ◌≢◌, ℕ, ◌<◌, ◌≤◌, ◌↔◌, ◌⊎◌, length, All, IsTrue, MatchOption, slice_index};
ghost use Rattle.problem.specs.Letters.{AreLetters, IsLetter, is_among, place};
ghost use Rattle.problem.specs.declared.limits.TheConstants.{MAX_LETTERS};

use crate::limits::MAX_LETTERS;
use std::marker::Model;

/// 1 to 6 distinct ASCII letters, the names of the variables from the greatest on. Contracts see the list of
/// their bytes.
#[derive(Debug, Drop)]
pub struct Letters {
    bytes: [u8; MAX_LETTERS],
    count: usize,
}

impl Model for Letters {
    ghost use Rattle.std.specs.Prelude.{ℕ, List, take, ◌≤◌};
    ghost use Rattle.problem.specs.Letters.{AreLetters};
    ghost use Rattle.problem.specs.declared.limits.TheConstants.{MAX_LETTERS};

    ghost Value = { List ℕ };

    ghost view = { λ l. take l.count l.bytes };

    ghost invariant = { λ l. (l.count ≤ MAX_LETTERS) × AreLetters (take l.count l.bytes) };
}

impl Letters {
    /// The letters, or `None` exactly where the bytes are not 1 to 6 distinct ASCII letters.
    pub fn new(letters: &[u8]) -> Option<Letters>
        ensures { MatchOption result (AreLetters letters.now → ⊥) (λ l. (l ≡ letters.now) × AreLetters letters.now) }
    {
        let count = letters.len();
        if count == 0 || count > MAX_LETTERS || !are_distinct_letters(letters) {
            return None;
        }
        let mut bytes = [0; MAX_LETTERS];
        bytes[..count].copy_from_slice(letters);
        Some(Letters { bytes, count })
    }

    /// The bytes of the letters, in order.
    pub fn as_slice(&self) -> &[u8]
        ensures value { result.now ≡ self.now }
        ensures known { AreLetters result.now }
    {
        &self.bytes[..self.count]
    }
}

/// Whether each byte is a letter and none stands twice.
pub fn are_distinct_letters(letters: &[u8]) -> bool
    ensures { IsTrue result ↔ (All IsLetter letters.now × ((i : ℕ) → i < length letters.now → (j : ℕ) → j < i → slice_index letters.now j ≢ slice_index letters.now i)) }
{
    for (i, x) in letters.iter().enumerate() {
        if !x.is_ascii_alphabetic() || letters[..i].contains(x) {
            return false;
        }
    }
    true
}

/// Whether the byte is one of the letters.
pub fn is_among(letters: &[u8], byte: u8) -> bool
    ensures { result ≡ is_among letters.now byte }
{
    letters.contains(&byte)
}

/// The place of a letter, or the number of letters where it is none of them.
pub fn place(letters: &[u8], letter: u8) -> usize
    ensures { result ≡ place letters.now letter }
{
    for (i, x) in letters.iter().enumerate() {
        if *x == letter {
            return i;
        }
    }
    letters.len()
}
