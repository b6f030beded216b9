//! The choice of a denominator for a curve: the one that is handed in, or the first good candidate that the Jacobian
//! matrix gives.
#![tactic(auto)]

mod choosing;
mod jacobian;
mod laws;
mod listing;
mod membership;
mod sums;

pub use choosing::{PickStop, pick};
pub use laws::choices_are_unique;
pub use listing::candidates;
