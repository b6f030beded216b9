//! The closure of a curve at some of its points, from a module of fractions: the least power of d, and the reduced basis of the
//! numerators over it.
#![tactic(auto)]

mod closing;

pub use closing::{LocalClosure, closure_of};
