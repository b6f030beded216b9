//! From a point of a curve to the ring of all fractions that are local there, ring by ring.
//!
//! A chain begins with A, and each enlargement goes on to the fractions that take the radical of the ring at the point into
//! itself, until none is new (Greuel and Pfister, section on the algorithm for normalization; Böhm, Decker, Laplagne, Pfister,
//! Steenpass and Steidel, Parallel Algorithms for Normalization, section on local contributions).
#![tactic(auto)]

mod chain;

pub use chain::Chain;
