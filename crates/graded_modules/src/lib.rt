//! Graded modules over F_p[x, h]: when they are deep under a degree, and what makes a list of members a basis.
#![tactic(auto)]

pub mod laws;
