//! The laws of a ring of fractions B modulo its products with a point P: the rows of the products of a basis of B modulo PB are
//! a finite algebra, and the nilpotent elements of that algebra stand for the radical of PB.
#![tactic(auto)]

pub mod laws;
