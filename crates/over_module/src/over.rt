// A module of fractions by rows of digits.
ghost use Rattle.std.specs.Prelude.{◌≡◌, length};
ghost use Rattle.polys.specs.Curve.{data_of};

use polys::Curve;
use row_space::Space;
use std::marker::Model;
use std::sync::Arc;

/// A module B of fractions over a curve that holds A and lies within A over d^k.
///
/// It keeps the numerators over d^k as a space of rows of digits: k blocks of N residues, where N is the dimension modulo I and
/// d. Böhm, Decker, Laplagne, Pfister, Steenpass and Steidel, Parallel Algorithms for Normalization, section on the local
/// contributions.
#[derive(Drop)]
pub struct Over {
    curve: Arc<Curve>,
    dimension: u32,
    power: u32,
    rows: Space,
}

impl Model for Over {
    ghost use Rattle.over_laws.specs.Over.{OverData, HasRows};

    ghost Value = { OverData };

    ghost view = { λ o. record { curve = o.curve.value; dimension = o.dimension; power = o.power; rows = o.rows } };

    ghost invariant = { λ o. HasRows (record { curve = o.curve.value; dimension = o.dimension; power = o.power; rows = o.rows }) };
}

impl Over {
    ghost use Rattle.over_laws.specs.Over.{HasBasis, HasRows, InOver};

    /// The module with these rows over d^`power`. The curve is fit, `n` is its dimension modulo I and d, and the rows are an
    /// ideal modulo I and d^`power`. It takes no memory.
    pub fn of_rows(curve: Arc<Curve>, n: u32, power: u32, rows: Space) -> Over
        requires { HasRows (record { curve = curve.value; dimension = n; power = power; rows = rows }) }
        ensures { result ≡ record { curve = curve.value; dimension = n; power = power; rows = rows } }
    {
        Over {
            curve,
            dimension: n,
            power,
            rows,
        }
    }

    /// The curve.
    pub fn curve(&self) -> &Arc<Curve>
        ensures { result.now.value ≡ self.now.curve }
    {
        &self.curve
    }

    /// The dimension N modulo I and d, the number of the corners.
    pub fn corners(&self) -> u32
        ensures { result ≡ self.now.dimension }
    {
        self.dimension
    }

    /// The power k of d.
    pub fn power(&self) -> u32
        ensures { result ≡ self.now.power }
    {
        self.power
    }

    /// The rows, of k blocks of N residues.
    pub fn rows(&self) -> &Space
        ensures value { result.now ≡ self.now.rows }
        ensures known { HasRows self.now }
    {
        &self.rows
    }

    /// The dimension of B modulo A.
    pub fn dimension(&self) -> usize
        ensures rows { result ≡ length self.now.rows.basis }
        ensures basis { HasBasis (data_of self.now.curve) (InOver self.now) result }
    {
        self.rows.dimension()
    }
}
