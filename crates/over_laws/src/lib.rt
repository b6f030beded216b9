//! The laws of modules of fractions by rows of digits: what rows say of fractions, the steps of a chain of rings of local
//! fractions at a point, the fractions that take a module into itself, and ideals of A modulo d by digits.
//!
//! A module lies between A and A over a power of d, and is kept by the digits of its numerators.
#![tactic(auto)]

pub mod laws;
