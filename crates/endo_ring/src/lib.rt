//! The fractions that take a module of fractions into itself, by rows of digits.
//!
//! Over a ring of fractions and its radical they are the next ring of the chain that ends at the integral closure (Greuel
//! and Pfister, section on integral closure, where the ring grows until it is that of the homomorphisms of its radical).
#![tactic(auto)]

mod enlarging;
mod narrowing;
mod spaces;

pub use enlarging::endomorphisms;
