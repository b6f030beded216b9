// The same fractions over another power of d.
ghost use Rattle.std.specs.Prelude.{◌≡◌, ◌≤◌, ◌-◌, ◌*◌, List, map, drop, length, All, IfOk};
ghost use Rattle.row_space.specs.Echelon.{IsRow};
ghost use Rattle.over_module.specs.Raising.{AreRowsAt, BeginsWithZeros, IsAtPower};

use super::over::Over;
use super::rows::{all_behind, spanned};
use lists::{List, NoMemory};
use polys::Curve;
use prime_field::Prime;
use row_space::Space;
use std::alloc::Global;
use std::sync::Arc;

// The allocator of the curve's polynomials. It takes a copy of the denominator.
fn allocator_of(curve: &Curve) -> Result<Global, NoMemory> {
    let terms = curve.denominator.clone_poly()?.into_terms();
    Ok(*terms.allocator())
}

// The rows, each without so many first entries.
fn all_without(
    alloc: Global,
    entries: usize,
    rows: &[List<u32>],
) -> Result<List<List<u32>>, NoMemory>
    requires { All (λ row. entries ≤ length row) rows.now }
    ensures { IfOk result (λ made. made ≡ map (drop entries) rows.now) }
{
    let mut made = List::new(alloc);
    for row in rows {
        made.push(List::from_slice(alloc, &row.as_slice()[entries..])?)?;
    }
    Ok(made)
}

impl Over {
    // The module over d^`power` whose rows are the sums of multiples of these.
    fn at_power(&self, alloc: Global, power: u32, rows: &[List<u32>]) -> Result<Over, NoMemory>
        requires { AreRowsAt self.now power rows.now }
        ensures { IfOk result (IsAtPower self.now power) }
    {
        let width = self.corners() as usize * power as usize;
        let space = spanned(alloc, self.rows().prime(), width, rows)?;
        let curve = Arc::try_clone(self.curve())?;
        Ok(Over::of_rows(curve, self.corners(), power, space))
    }

    // The same fractions over a power of d that is no smaller: each row behind blocks of zeros.
    pub(crate) fn raised(&self, power: u32) -> Result<Over, NoMemory>
        requires { self.now.power ≤ power }
        ensures { IfOk result (IsAtPower self.now power) }
    {
        let alloc = allocator_of(self.curve())?;
        let zeros = self.corners() as usize * (power - self.power()) as usize;
        let rows = all_behind(alloc, zeros, self.rows().rows())?;
        let made = self.at_power(alloc, power, rows.as_slice())?;
        Ok(made)
    }

    // The same fractions over a power of d that is smaller by the number of blocks of zeros that begin each row.
    pub(crate) fn lowered(&self, blocks: u32) -> Result<Over, NoMemory>
        requires power { blocks ≤ self.now.power }
        requires zeros { All (BeginsWithZeros (self.now.dimension * blocks)) self.now.rows.basis }
        ensures { IfOk result (IsAtPower self.now (self.now.power - blocks)) }
    {
        let alloc = allocator_of(self.curve())?;
        let zeros = self.corners() as usize * blocks as usize;
        let rows = all_without(alloc, zeros, self.rows().rows())?;
        let made = self.at_power(alloc, self.power() - blocks, rows.as_slice())?;
        Ok(made)
    }
}
