//! Lists that contracts see as lists of their items, and the one error of calls that take memory.
#![tactic(auto)]

mod list;

pub use list::List;
use std::alloc::{AllocError, AllocFailed};

/// Out of memory.
#[derive(Clone, Copy, PartialEq, Eq, Debug, Drop)]
pub struct NoMemory;

impl From<AllocError> for NoMemory {
    fn from(_: AllocError) -> NoMemory {
        NoMemory
    }
}

impl<T: Drop> From<AllocFailed<T>> for NoMemory {
    fn from(_: AllocFailed<T>) -> NoMemory {
        NoMemory
    }
}

#[cfg(test)]
mod tests;
