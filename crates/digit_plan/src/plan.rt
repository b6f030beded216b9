// What is known of the monomials outside the corners before any digits are made.
use digit_space::Product;
use lists::List;
use monomials::Mono;
use polys::Curve;
use std::sync::Arc;

/// Where the digits of a monomial are found.
#[derive(Clone, Copy, Debug, Drop)]
pub enum Place {
    /// The corner with this number.
    Corner(usize),
    /// The monomial with this number among the products of a variable and a corner that are no corners.
    Border(usize),
    /// The monomial with this number among those further outside.
    Outer(usize),
}

/// A term whose monomial is found at a place.
#[derive(Clone, Copy, Debug, Drop)]
pub struct Share {
    pub coeff: u32,
    pub place: Place,
}

/// How the digits of a monomial come from those of others.
#[derive(Drop)]
pub enum Rule {
    /// A lead: modulo the ideal it is the sum of the first shares, plus d times the sum of the second ones.
    Lead(List<Share>, List<Share>),
    /// The product of the variable and the monomial at the place.
    Multiple(u32, Place),
}

/// The monomials whose digits are made, and how.
#[derive(Drop)]
pub struct Plan {
    pub curve: Arc<Curve>,
    /// The corners, in rising order.
    pub corners: List<Mono>,
    /// Number v * N + i is the product of variable v and corner i.
    pub products: List<Product>,
    /// The products of a variable and a corner that are no corners, in rising order.
    pub border: List<Mono>,
    pub border_rules: List<Rule>,
    /// The monomials further outside that lifts need, in rising order.
    pub outer: List<Mono>,
    pub outer_rules: List<Rule>,
}
