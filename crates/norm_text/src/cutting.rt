// Bytes cut at marks, and the numbers that they write.
ghost use Rattle.std.specs.Prelude.{◌≡◌, ◌≤◌, ◌-◌, min, length, drop, IfOk};
ghost use Rattle.poly_text.specs.Digits.{number};
ghost use Rattle.norm_text.specs.Cutting.{until, behind, without, begins};
ghost use Rattle.norm_text.specs.declared.cutting.TheConstants.{MOST};

use lists::{List, NoMemory};
use poly_text::digit_value;
use std::alloc::Global;

// A number above all that an answer has, as which the greater numbers are read too.
const MOST: u32 = 99_999;

// The bytes before the first mark, or all where there is none, and the bytes behind it.
pub(crate) fn cut(bytes: &[u8], mark: u8) -> (&[u8], &[u8])
    ensures before { result.0.now ≡ until mark bytes.now }
    ensures behind { result.1.now ≡ behind mark bytes.now }
    ensures shorter { length result.1.now ≤ length bytes.now - 1 }
{
    for (i, byte) in bytes.iter().enumerate() {
        if *byte == mark {
            return (&bytes[..i], &bytes[i + 1..]);
        }
    }
    (bytes, &bytes[bytes.len()..])
}

// The bytes behind as many as the word has.
pub(crate) fn after<'a>(word: &[u8], bytes: &'a [u8]) -> &'a [u8]
    ensures value { result.now ≡ drop (length word.now) bytes.now }
    ensures shorter { length result.now ≤ length bytes.now }
{
    &bytes[word.len().min(bytes.len())..]
}

// What stands in the first line behind its word, and the bytes behind the line.
pub(crate) fn field<'a>(word: &[u8], bytes: &'a [u8]) -> (&'a [u8], &'a [u8])
    ensures field { result.0.now ≡ drop (length word.now) (until 10 bytes.now) }
    ensures behind { result.1.now ≡ behind 10 bytes.now }
    ensures shorter { length result.1.now ≤ length bytes.now - 1 }
{
    let (line, rest) = cut(bytes, b'\n');
    (after(word, line), rest)
}

// Whether the bytes begin with the word.
pub(crate) fn begins(word: &[u8], bytes: &[u8]) -> bool
    ensures { result ≡ begins word.now bytes.now }
{
    bytes.starts_with(word)
}

// The number that the digits write, or one that no answer has.
pub(crate) fn number(digits: &[u8]) -> u32
    ensures { result ≡ min (number digits.now) MOST }
{
    let mut n = 0;
    for digit in digits {
        n = (n * 10 + digit_value(*digit)).min(MOST);
    }
    n
}

// The bytes but the marks.
pub(crate) fn without(alloc: Global, mark: u8, bytes: &[u8]) -> Result<List<u8>, NoMemory>
    ensures { IfOk result (λ kept. kept ≡ without mark bytes.now) }
{
    let mut kept = List::new(alloc);
    for byte in bytes {
        if *byte != mark {
            kept.push(*byte)?;
        }
    }
    Ok(kept)
}
