//! What the workers have joined, and the sum of A and of the rings that are settled.
//!
//! The book is known by its type: whenever nobody holds its lock, its sum is A plus the finished rings of the settled entries
//! (Böhm, Decker, Laplagne, Pfister, Steenpass and Steidel, Parallel Algorithms for Normalization, the sum of the local
//! contributions).
#![tactic(auto)]

mod adding;
mod book;
pub mod laws;
mod taking;

pub use book::Book;
