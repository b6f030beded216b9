//! All the work on the points of a curve by one seat, joined into a book: each point has its chain, and the chains share the
//! digits of the curve.
//!
//! The closure at some points is the sum of A and of the local contributions, one for each point (Böhm, Decker, Laplagne, Pfister,
//! Steenpass and Steidel, Parallel Algorithms for Normalization; Greuel and Pfister, section on the algorithm for normalization).
#![tactic(auto)]

mod chains;
mod copies;
mod few;
mod hand;
mod working;

pub use chains::Chains;
pub use copies::{copies_of_points, copy_of_point};
pub use few::strata_among;
pub use hand::{ByHand, Hand};
pub use working::{settle_all, work_rest, worked};
