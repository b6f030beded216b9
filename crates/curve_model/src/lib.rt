//! Fractions over a curve: which are integral, which are local at a point, and what the closure is.
#![tactic(auto)]

mod examples;
mod point;

pub use examples::{
    cusp_has_a_local_fraction, cusp_has_integral_fractions, cusp_has_the_origin,
    plane_with_a_unit_has_no_points, unit_denominators_leave_nothing, units_close_nothing,
};
pub use point::Point;
