//! The laws of digits: polynomials modulo an ideal and a power of the denominator, as rows of residues.
//!
//! The corners of a curve, the monomials that are no lead modulo the ideal and the denominator d, are a basis modulo d. Modulo
//! d^T a class has T blocks of one residue for each corner, block t times d^t (Greuel and Pfister, sections on standard bases
//! and on normal forms). The definitions stand here; the program over them in `digit_space`.
#![tactic(auto)]

pub mod laws;
