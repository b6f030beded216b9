//! Modules of fractions between A and A over a power of d, by rows of digits; and what the work on a point comes to.
#![tactic(auto)]

mod adding;
mod comparing;
mod done;
mod lowering;
mod over;
mod plain;
mod raising;
mod rows;

pub use done::{Done, Verdict};
pub use over::Over;
pub use rows::{all_behind, behind, entries, filled, multiples_of, spanned};
