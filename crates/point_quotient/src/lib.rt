//! A ring of fractions modulo its products with a point, and A modulo d, as algebras of finite dimension.
#![tactic(auto)]

mod base;
mod complement;
mod fronts;
mod multiplying;
mod quotient;
mod table;

pub use base::base_algebra;
pub use multiplying::products;
pub use quotient::{quotient_algebra, quotient_by};
