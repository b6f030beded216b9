// The words read.
ghost use Rattle.std.specs.Prelude.{◌≡◌, ◌⊎◌, map, string_bytes, Ok, Err, IfOk};
ghost use Rattle.command_line.specs.Asks.{AskNothing, AsksFor, IsWithin};
ghost use Rattle.command_line.specs.declared.asking.Ask.{Ask};
ghost use Rattle.command_line.specs.declared.reading.WordFault.TheVariants.{Usage, Memory};

use crate::asking::{Ask, asked};
use crate::by_clap::asked_by;
use lists::NoMemory;
use std::alloc::Global;

/// Why words are not read.
#[derive(Clone, Copy, Debug, PartialEq, Eq)]
pub enum WordFault {
    /// They ask for nothing that is served.
    Usage,
    /// No memory was to be had.
    Memory,
}

impl From<NoMemory> for WordFault {
    ghost use Rattle.std.specs.Prelude.{◌≡◌};
    ghost use Rattle.command_line.specs.declared.reading.WordFault.TheVariants.{Memory};

    ghost from_gives = { λ _ fault. fault ≡ Memory };

    fn from(_: NoMemory) -> WordFault {
        WordFault::Memory
    }
}

/// What the words ask for: `alone` or `normal`, and behind it, in any order and each at most once, `--degree` with a cap on degrees
/// from 1 to 1,000, `--delta` with a limit of delta from 1 to 64, and for `normal` alone `--workers` with 1 to 16. An option's value
/// has 1 to 4 digits and is the next word, or stands behind `=` in the same one. Without the options the cap is 200, the limit 64,
/// and the workers are 4.
///
/// Whether words are of this grammar is decided here, which takes no memory; `clap` reads their values. It reads some lists of words
/// more widely, such as a last word `--`. Should it ever read words of the grammar otherwise, the answer is that of want of memory.
///
/// # Errors
/// `Usage` exactly where the words ask for nothing that is served; want of memory.
pub fn read_words(alloc: Global, words: &[String]) -> Result<Ask, WordFault>
    ensures asks { IfOk result (AsksFor (map string_bytes words.now)) }
    ensures within { IfOk result IsWithin }
    ensures exact { (ask : Ask) → AsksFor (map string_bytes words.now) ask → (result ≡ Ok ask) ⊎ (result ≡ Err Memory) }
    ensures usage { result ≡ Err Usage → AskNothing (map string_bytes words.now) }
    ensures not_asked { AskNothing (map string_bytes words.now) → result ≡ Err Usage }
{
    let Some(ask) = asked(words) else {
        return Err(WordFault::Usage);
    };
    match asked_by(alloc, words)? {
        Some(read) if read == ask => Ok(read),
        _ => Err(WordFault::Memory),
    }
}
