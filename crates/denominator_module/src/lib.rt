//! The graded module of a denominator over an ideal: what its bases say of sums, colon ideals and lifts.
#![tactic(auto)]

pub mod laws;
mod parts;

pub use parts::{first_part, second_part};
