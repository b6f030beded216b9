//! How the digits of each monomial outside the corners come from those of others: what is made once for a curve.
#![tactic(auto)]

mod making;
mod plan;
mod planning;
mod rules;

pub use making::plan_of;
pub use plan::{Place, Plan, Rule, Share};
pub use planning::{corners_of, find, quotient};
