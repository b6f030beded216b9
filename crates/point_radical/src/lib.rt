//! The radical of a ring of fractions at a point, by rows of digits.
#![tactic(auto)]

mod radical;

pub use radical::point_radical;
