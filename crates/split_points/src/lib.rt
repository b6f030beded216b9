//! The points of a curve, from the splitting of A modulo the denominator.
//!
//! A modulo d is an algebra of finite dimension, and the points are its maximal ideals. Its splitting gives each of them once, with
//! an idempotent and the values of the corners there; the reduced basis of each ideal makes it a point (Greuel and Pfister, sections
//! on primary decomposition in dimension 0 and on standard bases).
#![tactic(auto)]

mod splitting;

pub use splitting::{CurvePoint, points_of};
