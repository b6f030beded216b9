//! The laws of fractions over a curve, from those over any ring: rings of local fractions, splitting by points, delta, and
//! the closure.
//!
//! The definitions stand in `curve_model`; the curve is a ring modulo an ideal, to which the laws of `fraction_laws` and
//! `point_laws` apply.
#![tactic(auto)]

pub mod laws;
