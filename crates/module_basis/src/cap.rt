// Caps on degrees.
ghost use Rattle.std.specs.Prelude.{◌≡◌, ◌≤◌};
ghost use Rattle.module_basis.specs.declared.cap.TheConstants.{MAX_CAP};

use std::marker::Model;

/// The greatest cap.
pub const MAX_CAP: u32 = 1000;

/// A cap on degrees, from 1 to [`MAX_CAP`]. Contracts see it as a number.
#[derive(Clone, Copy, Debug, Drop)]
pub struct Cap {
    value: u32,
}

impl Model for Cap {
    ghost use Rattle.std.specs.Prelude.{◌≤◌, ℕ};
    ghost use Rattle.module_basis.specs.declared.cap.TheConstants.{MAX_CAP};

    ghost Value = { ℕ };

    ghost view = { λ c. c.value };

    ghost inverse = { λ n. record { value = n } };

    ghost invariant = { λ c. (1 ≤ c.value) × (c.value ≤ MAX_CAP) };
}

impl Cap {
    /// The cap with this value.
    pub fn new(value: u32) -> Cap
        requires some { 1 ≤ value }
        requires within { value ≤ MAX_CAP }
        ensures { result ≡ value }
    {
        Cap { value }
    }

    /// The value.
    pub fn get(self) -> u32
        ensures value { result ≡ self }
        ensures some { 1 ≤ result }
        ensures within { result ≤ MAX_CAP }
    {
        self.value
    }
}
