//! The reduced basis of an ideal of finite dimension that is given by rows of digits.
//!
//! An ideal that holds I and a power d^t is a space of rows of digits, closed under the variables. Its monomials are tried in
//! rising order: one whose row is a sum of those of smaller monomials, up to the space, is a lead (Greuel and Pfister,
//! sections on standard bases and on Gröbner bases by linear algebra).
#![tactic(auto)]

mod basis;
mod front;
mod queue;
mod staircase;
mod zero;

pub use basis::{reduced_basis_of, reduced_basis_of_front};
pub use zero::zero_space;
