// Sums of modules.
ghost use Rattle.std.specs.Prelude.{◌≡◌, ◌↔◌, max, IfOk};
ghost use Rattle.polys.specs.Curve.{data_of};
ghost use Rattle.curve_model.specs.Fraction.{Fraction, IsFraction};
ghost use Rattle.curve_model.specs.Steps.{IsSumOfTwo};
ghost use Rattle.over_laws.specs.Over.{InOver};

use super::over::Over;
use lists::NoMemory;
use std::sync::Arc;

impl Over {
    /// The sums of a fraction of this module and one of the other, over the greater of the two powers. The modules are of
    /// one curve.
    ///
    /// It takes a copy of each over that power, and adds the rows of the one to those of the other.
    ///
    /// # Errors
    /// Want of memory.
    ///
    /// Böhm, Decker, Laplagne, Pfister, Steenpass and Steidel, Parallel Algorithms for Normalization: the normalization is
    /// the sum of the local contributions.
    pub fn sum(&self, other: &Over) -> Result<Over, NoMemory>
        requires { other.now.curve ≡ self.now.curve }
        ensures curve { IfOk result (λ o. o.curve ≡ self.now.curve) }
        ensures power { IfOk result (λ o. o.power ≡ max self.now.power other.now.power) }
        ensures fractions { IfOk result
            (λ o. (f : Fraction) → IsFraction (data_of self.now.curve) f
            → InOver o f ↔ IsSumOfTwo (data_of self.now.curve) (InOver self.now) (InOver other.now) f) }
    {
        let _known = self.rows();
        let power = self.power().max(other.power());
        let left = self.raised(power)?;
        let right = other.raised(power)?;
        let left_rows = left.rows();
        let right_rows = right.rows();
        let whole = left_rows.sum(right_rows)?;
        let _basis = whole.rows();
        let curve = Arc::try_clone(self.curve())?;
        Ok(Over::of_rows(curve, self.corners(), power, whole))
    }
}
