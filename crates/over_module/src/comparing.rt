// Which fractions are in a module, and whether two modules have the same.
ghost use Rattle.std.specs.Prelude.{◌≡◌, ◌≤◌, ◌↔◌, All, IfOk, IsTrue};
ghost use Rattle.polys.specs.Curve.{IsOver};
ghost use Rattle.curve_model.specs.Fraction.{over};
ghost use Rattle.row_space.specs.Subspace.{FitsIn, IsIn};
ghost use Rattle.over_laws.specs.Over.{InOver, HaveSameFractions};
ghost use Rattle.over_module.specs.Raising.{HoldsFractions};

use super::over::Over;
use super::rows::behind;
use digit_space::Digits;
use lists::{List, NoMemory};
use polys::Poly;
use row_space::Space;

// Whether the space has all the rows.
fn has_all(space: &Space, rows: &[List<u32>]) -> Result<bool, NoMemory>
    requires { All (FitsIn space.now) rows.now }
    ensures { IfOk result (λ yes. IsTrue yes ↔ All (IsIn space.now) rows.now) }
{
    for row in rows {
        if !space.contains(row.as_slice())? {
            return Ok(false);
        }
    }
    Ok(true)
}

impl Over {
    // Whether the polynomial over d^k is in the module, where k is at most its power.
    fn has(&self, digits: &Digits, f: &Poly, k: u32) -> Result<bool, NoMemory>
        requires curve { digits.now.curve ≡ self.now.curve }
        requires depth { k ≤ digits.now.depth }
        requires power { k ≤ self.now.power }
        requires poly { IsOver self.now.curve.prime self.now.curve.variables f.now }
        ensures { IfOk result (λ yes. IsTrue yes ↔ InOver self.now (over f.now.terms k)) }
    {
        let space = self.rows();
        let _basis = digits.basis();
        let corners = digits.dimension() as usize;
        let row = digits.digits_of(f)?;
        let first = &row.as_slice()[..corners * k as usize];
        let zeros = corners * (self.power() - k) as usize;
        let moved = behind(digits.allocator(), zeros, first)?;
        let found = space.contains(moved.as_slice())?;
        Ok(found)
    }

    /// Whether the polynomial over d^k is in the module. The digits are those of its curve, as deep as k and as its
    /// power.
    ///
    /// It takes the digits of the polynomial and one reduction of a row; where k is above the power it takes a copy of the
    /// rows over d^k.
    ///
    /// # Errors
    /// Want of memory.
    pub fn contains(&self, digits: &Digits, f: &Poly, k: u32) -> Result<bool, NoMemory>
        requires curve { digits.now.curve ≡ self.now.curve }
        requires depth { (k ≤ digits.now.depth) × (self.now.power ≤ digits.now.depth) }
        requires poly { IsOver self.now.curve.prime self.now.curve.variables f.now }
        ensures { IfOk result (λ yes. IsTrue yes ↔ InOver self.now (over f.now.terms k)) }
    {
        if k <= self.power() {
            let found = self.has(digits, f, k)?;
            return Ok(found);
        }
        let raised = self.raised(k)?;
        let found = raised.has(digits, f, k)?;
        Ok(found)
    }

    // Whether the other module's fractions are in this one. Both are over one power.
    fn holds(&self, other: &Over) -> Result<bool, NoMemory>
        requires curve { other.now.curve ≡ self.now.curve }
        requires power { other.now.power ≡ self.now.power }
        ensures { IfOk result (λ yes. IsTrue yes ↔ HoldsFractions self.now other.now) }
    {
        let space = self.rows();
        let rows = other.rows();
        let found = has_all(space, rows.rows())?;
        Ok(found)
    }

    /// Whether the two modules of one curve have the same fractions.
    ///
    /// It takes a copy of each over the greater of the two powers, and one reduction for each row.
    ///
    /// # Errors
    /// Want of memory.
    pub fn same(&self, other: &Over) -> Result<bool, NoMemory>
        requires { other.now.curve ≡ self.now.curve }
        ensures { IfOk result (λ yes. IsTrue yes ↔ HaveSameFractions self.now other.now) }
    {
        let power = self.power().max(other.power());
        let left = self.raised(power)?;
        let right = other.raised(power)?;
        if !left.holds(&right)? {
            return Ok(false);
        }
        let found = right.holds(&left)?;
        Ok(found)
    }
}
