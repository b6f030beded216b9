//! The race of several workers over the points of a curve: each point is a stratum with two jobs, and a hand works the
//! strata that the workers have not joined.
//!
//! The closure at some points is the sum of A and of the local contributions, one for each point, in any order (Böhm,
//! Decker, Laplagne, Pfister, Steenpass and Steidel, Parallel Algorithms for Normalization; Greuel and Pfister, section
//! on the algorithm for normalization).
#![tactic(auto)]

mod racing;
mod rival;
mod rivals;

pub use racing::raced;
pub use rival::Rival;
pub use rivals::Rivals;
