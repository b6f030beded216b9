//! Every ideal of finite dimension has its standard monomials and a reduced basis, and membership in it is decided.
#![tactic(auto)]

pub mod laws;
