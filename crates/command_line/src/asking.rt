// What words ask for.
ghost use Rattle.std.specs.Prelude.{◌≡◌, ◌↔◌, List, ℕ, ◌∷◌, map, string_bytes, codes, IfSome, IsTrue, Some};
ghost use Rattle.command_line.specs.Asks.{AreLimits, AsksFor, IsWithin, Sets, command_of};
ghost use Rattle.command_line.specs.declared.asking.Ask.{Ask};

use crate::options::{Given, MAX_LIMIT, first_word, given_in, is_text};

/// The cap of the degrees where no option is given.
pub const DEFAULT_CAP: u32 = 200;

/// The workers where no option is given.
pub const DEFAULT_WORKERS: u32 = 4;

// The most words of options: each of three at most once, and in two words at most.
const MAX_OPTION_WORDS: usize = 6;

/// The cap of the degrees, 1 to 1,000, and the limit of delta, 1 to 64.
#[derive(Clone, Copy, PartialEq, Eq)]
pub struct Limits {
    pub cap: u32,
    pub limit: u32,
}

/// What is asked for.
#[derive(Clone, Copy, PartialEq, Eq)]
pub enum Ask {
    /// The answer to a problem, by one seat.
    Alone(Limits),
    /// The answer to a problem, by so many workers, 1 to 16.
    Normal(u32, Limits),
}

// The limits that the options set.
fn limits_of(given: Given) -> Limits
    ensures { AreLimits given result }
{
    Limits {
        cap: given.degree.unwrap_or(DEFAULT_CAP),
        limit: given.delta.unwrap_or(MAX_LIMIT),
    }
}

// What the command's word and its options ask for.
pub(crate) fn ask_of(command: &[u8], given: Given) -> Option<Ask>
    ensures found { IfSome result (λ ask. (command.now ≡ command_of ask) × Sets given ask) }
    ensures complete { (ask : Ask) → command.now ≡ command_of ask → Sets given ask → result ≡ Some ask }
{
    let limits = limits_of(given);
    if is_text(command, b"alone") && given.workers.is_none() {
        return Some(Ask::Alone(limits));
    }
    if is_text(command, b"normal") {
        return Some(Ask::Normal(given.workers.unwrap_or(DEFAULT_WORKERS), limits));
    }
    None
}

// What the words ask for, or `None` where they ask for nothing that is served. It takes no memory.
pub(crate) fn asked(words: &[String]) -> Option<Ask>
    ensures found { IfSome result (AsksFor (map string_bytes words.now)) }
    ensures complete { (ask : Ask) → AsksFor (map string_bytes words.now) ask → result ≡ Some ask }
    ensures within { IfSome result IsWithin }
{
    let (command, options) = first_word(words)?;
    if options.len() > MAX_OPTION_WORDS {
        return None;
    }
    let given = given_in(options)?;
    ask_of(command, given)
}

/// Whether the words begin with the command that works with threads.
pub fn is_threaded(words: &[String]) -> bool
    ensures { IsTrue result ↔ ((rest : List (List ℕ)) × (map string_bytes words.now ≡ codes "normal" ∷ rest)) }
{
    match first_word(words) {
        Some((command, _)) => is_text(command, b"normal"),
        None => false,
    }
}
