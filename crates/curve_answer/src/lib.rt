//! From a book in which all work on a curve's named points is done to the answer of the problem, or to the first of them whose
//! delta is above the limit.
//!
//! The closure at some points is the sum of A and of the rings of the points (Böhm, Decker, Laplagne, Pfister, Steenpass and
//! Steidel, Parallel Algorithms for Normalization, the sum of the local contributions; Greuel and Pfister, section on
//! normalization).
#![tactic(auto)]

mod answering;
mod closing;
pub mod laws;
mod reading;
mod told;

pub use answering::answer_of;
pub use told::Told;
