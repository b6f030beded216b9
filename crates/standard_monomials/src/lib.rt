//! The monomials that no lead of an ideal divides: they are a basis modulo the ideal, and count the dimension.
#![tactic(auto)]

mod finding;
pub mod laws;

pub use finding::{Dimension, Standard, dimension_modulo, insert, standard_monomials};
