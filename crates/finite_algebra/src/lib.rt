//! Finite-dimensional commutative algebras with one over F_p.
//!
//! An [`Algebra`] is kept by the products of its basis elements; an element is the row of its
//! coordinates. The theory is that of quotient rings of finite dimension (Greuel and Pfister,
//! chapter 1, on rings, ideals and quotients).
#![tactic(auto)]

mod algebra;
mod multiples;
mod projecting;

pub use algebra::{Algebra, basis_laws_suffice};
pub use projecting::{at_all_places, image, images_of};

#[cfg(test)]
mod tests;
