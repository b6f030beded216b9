//! Digits modulo powers of the denominator, made from lifts of the leads, block by block.
#![tactic(auto)]

mod blocks;
mod extending;
mod growing;
mod making;
mod rows;

pub use extending::extended;
pub use making::make;
