//! Modules of fractions and points that were worked by hand, as tests of `over_module`, `endo_ring` and `split_points`. They stand in
//! a crate of their own, so that those are proved once, and without the reader of problems.
#![tactic(auto)]

#[cfg(test)]
mod modules;
#[cfg(test)]
mod points;
