// An ideal by its first blocks of digits.
ghost use Rattle.std.specs.Prelude.{◌≡◌, ◌*◌, ◌≤◌, length};
ghost use Rattle.digit_space.specs.Model.{IsDigitSpace};
ghost use Rattle.corner_basis.specs.Tried.{IsFront};

use digit_space::Digits;
use row_space::Space;

// The ideal of all polynomials whose first blocks of digits, so many of them, are in the space.
#[derive(Drop)]
pub(crate) struct Front<'a> {
    pub(crate) digits: &'a Digits,
    pub(crate) blocks: u32,
    pub(crate) space: &'a Space,
}

impl Front<'_> {
    // The entries of a row of the space.
    pub(crate) fn entries(&self) -> usize
        requires { IsFront self.now }
        ensures value { result ≡ length self.now.digits.now.basis * self.now.blocks }
        ensures small { result ≤ 51200 }
        ensures known { IsDigitSpace self.now.digits.now }
    {
        self.digits.basis().len() * self.blocks as usize
    }
}
