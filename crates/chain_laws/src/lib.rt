//! The laws of chains of rings of local fractions at a point: fractions over one power of the denominator, the steps of a
//! chain, sums that grow point by point, and what delta counts.
//!
//! The definitions stand in `curve_model`.
#![tactic(auto)]

pub mod laws;
