// What keeps a text from being read.
ghost use Rattle.std.specs.Prelude.{◌≡◌};

use lists::NoMemory;
use thiserror::Error;

/// The counted quantities of a problem, in the order in which they are checked: at most 6 variables, 12 generators,
/// 16 `at` statements of at most 12 polynomials each, 100 open parentheses at one place, 18 digits of a number in an
/// expression, and 2,000 terms and degree 60 of each value in an expression.
#[derive(Clone, Copy, Debug, Drop, PartialEq, Eq, Error)]
pub enum Which {
    #[error("variables")]
    Variables,
    #[error("generators")]
    Generators,
    #[error("points")]
    Points,
    #[error("nesting")]
    Nesting,
    #[error("digits")]
    Digits,
    #[error("size")]
    Size,
}

/// Why no problem was read.
#[derive(Clone, Copy, Debug, Drop, PartialEq, Eq, Error)]
pub enum ReadFault {
    /// The bytes are not of the grammar.
    #[error("syntax")]
    Syntax,
    /// The characteristic is not in the table of primes.
    #[error("characteristic")]
    Characteristic,
    /// A counted quantity passes its limit.
    #[error("limit {0}")]
    Limit(Which),
    /// No memory was to be had.
    #[error("no memory")]
    Memory,
}

impl From<NoMemory> for ReadFault {
    ghost use Rattle.std.specs.Prelude.{◌≡◌};
    ghost use Rattle.singular_text.specs.declared.faults.ReadFault.TheVariants.{Memory};

    ghost from_gives = { λ _ e. e ≡ Memory };

    fn from(_: NoMemory) -> ReadFault {
        ReadFault::Memory
    }
}
