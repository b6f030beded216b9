//! Where bytes come from and go to.
//!
//! A [`Source`] gives bytes in pieces and a [`Sink`] takes them in pieces. Each counts its faults: an
//! answer that says that one failed comes only where that object's count rose in that very call.
#![tactic(auto)]

mod memory;
mod reading;
mod sink;
mod sound;
mod source;
mod writing;

pub use lists::{List, NoMemory};
pub use memory::{MemSink, MemSource};
pub use reading::{ReadAll, read_all};
pub use sink::{Sink, StdSink};
pub use sound::{SoundSink, SoundSource, still_counts_have_no_cause};
pub use source::{Source, StdSource};
pub use writing::{WriteStop, write_all_of};

/// A read or a write that failed.
#[derive(Clone, Copy, PartialEq, Eq, Debug, Drop)]
pub struct Failed;

#[cfg(test)]
mod tests;
