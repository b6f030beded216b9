//! Linear algebra over F_p on rows of residues.
//!
//! A [`Space`] is a subspace of the rows of one length, kept as reduced echelon rows. The theory is
//! the Gaussian elimination of every course of linear algebra (Greuel and Pfister, chapter 2, on
//! modules over a field).
#![tactic(auto)]

mod elimination;
mod joining;
mod kernels;
mod space;

pub use kernels::kernel;
pub use space::{Insert, Space};

#[cfg(test)]
mod tests;
