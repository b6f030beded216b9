//! The top call: words, a source and a sink in, a status out.
#![tactic(auto)]

mod answering;
mod refusals;
mod serving;
mod solving;

pub use serving::run_alone;

#[cfg(test)]
mod tests;
