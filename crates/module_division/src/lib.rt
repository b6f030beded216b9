//! Division of vectors and polynomials by monic ones, and the reduction of such vectors by one another.
#![tactic(auto)]

mod affine;
mod columns;
mod division;
mod leads;
mod reduction;
mod rows;

pub use affine::{interreduced, remainder};
pub use columns::Columns;
pub use division::vector_remainder;
pub use leads::{degree_at, lead_mono};
pub use reduction::interreduced_vectors;

#[cfg(test)]
mod tests;
