//! Arithmetic modulo the primes of a fixed table.
//!
//! A residue is a `u32` below the prime; the residues are the field F_p (Greuel and Pfister, chapter 1).
//! No call takes memory.
#![tactic(auto)]

mod prime;

pub use prime::{Prime, characteristics_are_prime};
