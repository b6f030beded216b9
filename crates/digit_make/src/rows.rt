// Rows of digits that are being made.
use lists::List;

/// The rows of the monomials outside the corners, as far as they are made.
#[derive(Drop)]
pub struct Rows {
    pub border: List<List<u32>>,
    pub outer: List<List<u32>>,
}
