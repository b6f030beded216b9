//! Reduced bases of graded modules over F_p[x, h], or the answer that the module is deep under a cap.
#![tactic(auto)]

mod basis;
mod cap;
mod columns;
mod gens;
mod growing;
mod pairs;

pub use basis::{GradedBasis, graded_basis};
pub use cap::{Cap, MAX_CAP};
pub use gens::{BasisStop, Gens};
pub use module_division::{interreduced, remainder};
