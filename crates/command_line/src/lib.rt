//! The words after the program's name, read as what they ask for.
#![tactic(auto)]

mod asking;
mod by_clap;
mod options;
mod reading;

pub use asking::{Ask, Limits, is_threaded};
pub use reading::{WordFault, read_words};
