//! Problems read from their texts, which are of a small part of Singular's language: the checks and the values.
#![tactic(auto)]

mod evaluation;
mod faults;
mod laws;
mod reading;
mod values;

pub use faults::{ReadFault, Which};
pub use laws::texts_state_problems;
pub use poly_text::{
    PolyFault, print_bytes, print_number, print_poly, read_poly, texts_tell_polynomials,
};
pub use problem::{Letters, Problem};
pub use problem_form::is_number;
pub use reading::read_problem;
pub use values::number_up_to;

#[cfg(test)]
mod reading_tests;
