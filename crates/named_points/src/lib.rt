//! The points that a problem names, in the order in which answers list them.
//!
//! An `at` statement names the points at which all its polynomials are 0. The value of a polynomial at a point is its
//! class modulo the maximal ideal (Greuel and Pfister, sections on maximal ideals and on primary decomposition in
//! dimension 0), and the rows that split the curve give it by linear algebra.
#![tactic(auto)]

mod deciding;
mod naming;
mod ordering;
mod telling;

pub use naming::named_points;
