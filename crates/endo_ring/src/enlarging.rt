// The fractions that take a module into itself.
ghost use Rattle.std.specs.Prelude.{◌≡◌, ◌↔◌, ◌+◌, ◌*◌, ◌≤◌, IfOk};
ghost use Rattle.polys.specs.Curve.{data_of};
ghost use Rattle.curve_model.specs.Fraction.{Fraction, IsFraction};
ghost use Rattle.digit_laws.specs.Digits.{IsIdealSpace};
ghost use Rattle.over_laws.specs.Over.{InOver, InRows, TakesIntoItself};

use super::narrowing::solutions;
use corner_basis::reduced_basis_of_front;
use digit_space::Digits;
use lists::NoMemory;
use over_laws::laws::generators_decide_endomorphisms;
use over_module::Over;
use row_space::Space;
use std::sync::Arc;

/// All fractions that take a module J into itself, as a module over d^(k+1), where k is the power of `over`.
///
/// J is given over d^k by `radical`, the digits of its numerators at depth k+1: N (k+1) residues a row, closed under
/// the variables. The digits have T blocks, and T is at least 2k+2. `NoMemory` is the one error.
///
/// A fraction takes J into itself exactly where it is some b over d^(k+1) with b in the ideal of J's numerators and
/// with b v in d^(k+1) times this ideal for each v of its reduced basis. The rows of such b are found by one pass for
/// each v over the rows that are left: N products by a variable, for each row at most N^2 T^2 / 2 steps, and one
/// elimination, of these rows and those of J, with 2 N (k+1) entries and one more for each row that is left.
///
/// Greuel and Pfister, section on integral closure: the criterion for normality by the homomorphisms of an ideal into
/// itself.
pub fn endomorphisms(digits: &Digits, over: &Over, radical: &Space) -> Result<Over, NoMemory>
    requires curve { digits.now.curve ≡ over.now.curve }
    requires depth { 2 * over.now.power + 2 ≤ digits.now.depth }
    requires ideal { IsIdealSpace (data_of digits.now.curve) digits.now.basis (over.now.power + 1) radical.now }
    ensures curve { IfOk result (λ o. o.curve ≡ over.now.curve) }
    ensures power { IfOk result (λ o. o.power ≡ over.now.power + 1) }
    ensures exact { IfOk result
        (λ o. (f : Fraction) → IsFraction (data_of over.now.curve) f → InOver o f
        ↔ TakesIntoItself (data_of over.now.curve) (InRows (data_of over.now.curve) over.now.power (over.now.power + 1) radical.now) f) }
{
    generators_decide_endomorphisms();
    let _basis = digits.basis();
    let _radical = radical.rows();
    let blocks = over.power() + 1;
    let generators = reduced_basis_of_front(digits, blocks, radical)?;
    let found = solutions(digits, blocks, radical, generators.as_slice())?;
    let _rows = found.rows();
    let curve = Arc::try_clone(digits.curve())?;
    Ok(Over::of_rows(curve, digits.dimension(), blocks, found))
}
