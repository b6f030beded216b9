//! Ideals of polynomials and the graded ideals that they become by a homogenising variable.
#![tactic(auto)]

pub mod laws;
mod lifting;

pub use lifting::{dehomogenised, homogenised_to};
