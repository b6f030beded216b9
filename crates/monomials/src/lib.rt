//! Monomials of polynomials and of vectors of polynomials, in the order dp.
#![tactic(auto)]

mod laws;
mod mono;

pub use laws::{
    divisors_are_factors, dp_is_a_total_order, least_common_multiple, products_are_commutative,
    products_keep_dp,
};
pub use mono::{MAX_DEGREE, MAX_VARIABLES, Mono};
