//! Kernels on rows of residues, eight entries at a time.
//!
//! The rows of linear algebra over a prime field of at most fifteen bits. Whole groups of eight
//! entries go through vectors, and the entries that are left one by one; each call is the plain
//! definition at every length.
#![tactic(auto)]

mod lanes;
mod multiples;
mod products;
mod scanning;

pub use multiples::{axpy, scale};
pub use products::dot;
pub use scanning::first_nonzero;

#[cfg(test)]
mod tests;
