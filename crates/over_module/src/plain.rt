// A itself as a module of fractions.
ghost use Rattle.std.specs.Prelude.{◌≡◌, ◌↔◌};
ghost use Rattle.polys.specs.Curve.{Fit, HasDimModulo, data_of};
ghost use Rattle.curve_model.specs.Fraction.{Fraction, IsFraction, InA};
ghost use Rattle.over_laws.specs.Over.{InOver};

use super::over::Over;
use polys::Curve;
use row_space::Space;
use std::alloc::Global;
use std::sync::Arc;

impl Over {
    /// A itself, with the power 0 and no rows. The curve is fit, and `n` is its dimension modulo I and d. It takes no
    /// memory.
    ///
    /// Greuel and Pfister, section on normalization: the first ring of the chain.
    pub fn plain(alloc: Global, curve: Arc<Curve>, n: u32) -> Over
        requires fit { Fit curve.value }
        requires dimension { HasDimModulo (data_of curve.value) n }
        ensures curve { result.curve ≡ curve.value }
        ensures dimension { result.dimension ≡ n }
        ensures power { result.power ≡ 0 }
        ensures fractions { (f : Fraction) → IsFraction (data_of curve.value) f
            → InOver result f ↔ InA (data_of curve.value) f }
    {
        let prime = curve.prime;
        let _p = prime.get();
        let rows = Space::new(alloc, prime, 0);
        Over::of_rows(curve, n, 0, rows)
    }
}
