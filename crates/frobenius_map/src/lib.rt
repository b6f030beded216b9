//! The p-th power map of a finite-dimensional algebra over F_p.
//!
//! The p-th power keeps sums, products and the multiples by residues. The nilpotent elements are the
//! kernel of its iterates (Greuel and Pfister, chapter 4, on the radical).
#![tactic(auto)]

mod frobenius;
mod graph;

pub use frobenius::{fixed_elements, nilpotent_elements};
pub use graph::powers;
