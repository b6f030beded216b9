//! Digits and reduced bases that were worked by hand, as tests of `digit_make` and `corner_basis`. They stand in a crate of
//! their own, so that those two are proved once, and without the reader of problems. `samples` has the curves of texts, for other
//! tests too.
#![tactic(auto)]

#[cfg(test)]
mod bases;
#[cfg(test)]
mod rows;
pub mod samples;
