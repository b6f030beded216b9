// The multiples of a power of the denominator.
ghost use Rattle.std.specs.Prelude.{◌≡◌, ◌≤◌, []};
ghost use Rattle.corner_basis.specs.Fronts.{IsFrontIdeal};

use digit_space::Digits;
use row_space::Space;

/// The zero space of rows of `t` blocks, with no row: the ideal of the multiples of the power d^t of the denominator. `t` is at
/// most the depth of the digits. It takes no time to speak of.
pub fn zero_space(digits: &Digits, t: u32) -> Space
    requires { t ≤ digits.now.depth }
    ensures ideal { IsFrontIdeal digits.now t result }
    ensures none { result.basis ≡ [] }
{
    let width = digits.basis().len() * t as usize;
    Space::new(digits.allocator(), digits.curve().prime, width)
}
