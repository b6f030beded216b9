//! Polynomials as texts: printed in one form, and read in that form alone.
#![tactic(auto)]

mod powers;
mod printing;
mod reading;

pub use powers::{digit_value, raised};
pub use printing::{print_bytes, print_number, print_poly};
pub use reading::{PolyFault, read_poly, texts_tell_polynomials};

#[cfg(test)]
mod tests;
