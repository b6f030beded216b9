// From a module of fractions to a power of d and numerators.
ghost use Rattle.std.specs.Prelude.{◌≡◌, ◌≤◌, All, IfOk};
ghost use Rattle.polys.specs.Curve.{IsOver};
ghost use Rattle.local_closure.specs.Closing.{ClosesModule};

use corner_basis::reduced_basis_of_front;
use digit_space::Digits;
use lists::{List, NoMemory};
use over_module::Over;
use polys::Poly;

/// A power K of d, and the reduced basis of the numerators over d^K, in rising order of the leads.
#[derive(Debug, Drop)]
pub struct LocalClosure {
    pub power: u32,
    pub numerators: List<Poly>,
}

/// The least power of d that serves the module, and the reduced basis of the numerators over it. The digits are those of the
/// module's curve, and at least as deep as its power.
///
/// With N corners and the least power K it takes at most a reduced basis of a space of rows of N K residues.
///
/// # Errors
/// Want of memory.
///
/// Greuel and Pfister, sections on standard bases and on normalization.
pub fn closure_of(digits: &Digits, over: &Over) -> Result<LocalClosure, NoMemory>
    requires curve { digits.now.curve ≡ over.now.curve }
    requires depth { over.now.power ≤ digits.now.depth }
    ensures over { IfOk result (λ made. All (IsOver over.now.curve.prime over.now.curve.variables) made.numerators) }
    ensures power { IfOk result (λ made. made.power ≤ over.now.power) }
    ensures closure { IfOk result (ClosesModule over.now) }
{
    let least = over.least_power()?;
    let rows = least.rows();
    let _basis = digits.basis();
    let power = least.power();
    let numerators = reduced_basis_of_front(digits, power, rows)?;
    Ok(LocalClosure { power, numerators })
}
