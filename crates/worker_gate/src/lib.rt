//! The workers of a race: threads that draw tickets, look, enlarge, win and join, or withdraw.
//!
//! The work, the book that keeps it and the gate that watches are traits, so nothing here knows of
//! algebra. The workers run by calls that cannot be refused: where no thread can be made they run
//! one after another, and no answer tells of it.
#![tactic(auto)]

mod crew;
mod gate;
mod member;
mod report;
mod ticket;
mod worker;

pub use crew::race;
pub use gate::{Gate, GatePoint};
pub use report::{End, Report, Reports};

#[cfg(test)]
mod tests;
