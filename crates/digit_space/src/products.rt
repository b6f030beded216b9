// How products of a variable and a corner are kept.
ghost use Rattle.std.specs.Prelude.{◌≡◌, ◌<◌, ◌≤◌, length, IfSome};
ghost use Rattle.digit_space.specs.Model.{kept_at};

use lists::List;
use monomials::Mono;

/// The product of a variable and a corner.
#[derive(Clone, Copy, PartialEq, Eq, Debug, Drop)]
pub enum Product {
    /// The corner with this number.
    Corner(u32),
    /// A monomial outside the corners, whose digits are in the border row with this number.
    Border(u32),
}

/// A monomial outside the corners and their products with the variables, and its digits at a depth that is smaller by 1
/// than that of the digits that it is kept with. Whoever makes these digits deeper begins with it.
#[derive(Drop)]
pub struct OuterRow {
    pub monomial: Mono,
    pub digits: List<u32>,
}

// The product with this number.
pub(crate) fn product_at(products: &Option<List<Product>>, place: usize) -> Product
    requires listed { IfSome products.now (λ list. place < length list) }
    requires small { place ≤ 1536 }
    ensures { result ≡ kept_at products.now place }
{
    match products {
        None => Product::Border(place as u32),
        Some(list) => list.as_slice()[place],
    }
}
