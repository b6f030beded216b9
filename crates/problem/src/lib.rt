//! A curve over F_p with what is asked about it, as the program holds it and as plain data, and the limits within
//! which it is read.
#![tactic(auto)]

mod letters;
pub mod limits;
mod problem;

pub use letters::{Letters, are_distinct_letters, is_among, place};
pub use problem::Problem;

#[cfg(test)]
mod tests;
