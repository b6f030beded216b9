//! Lifts over a denominator, colon ideals, and the decisions on a denominator.
#![tactic(auto)]

mod lifted;
mod parts;

pub use lifted::{Lifted, ideal_basis};
pub use standard_monomials::Dimension;
