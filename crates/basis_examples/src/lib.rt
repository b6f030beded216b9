//! Bases, lifts, colon ideals, candidates and denominators that were worked by hand, as tests of `module_basis`,
//! `lift_colon` and `jacobian_pick`. They stand in a crate of their own, so that those three are proved once.
#![tactic(auto)]

#[cfg(test)]
mod choices;
#[cfg(test)]
mod lifts;
#[cfg(test)]
mod modules;
#[cfg(test)]
mod samples;
