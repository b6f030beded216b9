//! The answer's text, printed and read back, and when a text is the answer to a problem with a given denominator.
#![tactic(auto)]

mod answer;
mod cutting;
pub mod laws;
pub mod limits;
mod printing;
mod reading;

pub use answer::{Answer, PointLine};
pub use printing::{print_answer, print_list};
pub use reading::{AnswerFault, read_answer};

#[cfg(test)]
mod tests;
