//! Rows and square matrices of residues over F_p: multiples, inverses, and kernels of few columns.
#![tactic(auto)]

mod backward;
mod inverses;
mod rows;

pub use backward::kernel_backward;
pub use inverses::inverse_of;
pub use rows::{
    copy_of, less_multiple, less_scalar, opposite, pair, scaled, single, unit_row, zero_row,
};
