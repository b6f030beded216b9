//! The race for strata: seats draw tickets, look at words and win words, each in one atomic step.
//!
//! A table is shared by reference. What a seat knows stands in its pass, which only it steps with.
//! None of the calls waits, and none but `RaceTable::new` takes memory.
#![tactic(auto)]

mod claim;
mod jobs;
mod laws;
mod pass;
mod table;
mod view;

pub use claim::{Look, OpenLook, Ticket, Win, Won};
pub use jobs::{BookOf, Job, JobStop, Jobs, Join, Progress};
pub use laws::table_steps_are_events;
pub use pass::Pass;
pub use table::RaceTable;
pub use view::{Sizes, View};

#[cfg(test)]
mod tests;
