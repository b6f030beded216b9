// The least power of d that serves a module.
ghost use Rattle.std.specs.Prelude.{◌≡◌, ◌↔◌, ◌≤◌, ◌<◌, ◌+◌, ◌*◌, length, All, IfOk, IsTrue};
ghost use Rattle.over_laws.specs.Over.{HaveSameFractions, IsLeastPower};
ghost use Rattle.over_module.specs.Raising.{BeginsWithZeros};

use super::over::Over;
use lane_rows::first_nonzero;
use lists::{List, NoMemory};

// Whether the row begins with so many zeros.
fn begins_with_zeros(row: &[u32], zeros: usize) -> bool
    requires { zeros ≤ length row.now }
    ensures { IsTrue result ↔ BeginsWithZeros zeros row.now }
{
    first_nonzero(&row[..zeros]).is_none()
}

// Whether each row begins with so many zeros.
fn all_begin_with_zeros(rows: &[List<u32>], zeros: usize) -> bool
    requires { All (λ row. zeros ≤ length row) rows.now }
    ensures { IsTrue result ↔ All (BeginsWithZeros zeros) rows.now }
{
    for row in rows {
        if !begins_with_zeros(row.as_slice(), zeros) {
            return false;
        }
    }
    true
}

// How many blocks of `corners` entries are 0 at the beginning of each row; the rows have `power` blocks.
fn zero_blocks(rows: &[List<u32>], corners: u32, power: u32) -> u32
    requires { All (λ row. length row ≡ corners * power) rows.now }
    ensures most { result ≤ power }
    ensures zeros { All (BeginsWithZeros (corners * result)) rows.now }
    ensures more { result < power → ¬ (All (BeginsWithZeros (corners * (result + 1))) rows.now) }
{
    for blocks in 0..power {
        let zeros = corners as usize * (blocks as usize + 1);
        if !all_begin_with_zeros(rows, zeros) {
            return blocks;
        }
    }
    power
}

impl Over {
    /// The same module over the least power of d.
    ///
    /// It takes a look at the zeros that begin each row, and a copy of the rows without the blocks that are 0 in all of
    /// them.
    ///
    /// # Errors
    /// Want of memory.
    pub fn least_power(&self) -> Result<Over, NoMemory>
        ensures curve { IfOk result (λ o. o.curve ≡ self.now.curve) }
        ensures power { IfOk result (λ o. o.power ≤ self.now.power) }
        ensures same { IfOk result (λ o. HaveSameFractions self.now o) }
        ensures least { IfOk result (λ o. IsLeastPower o) }
        ensures dimension { IfOk result (λ o. length o.rows.basis ≡ length self.now.rows.basis) }
    {
        let rows = self.rows();
        let blocks = zero_blocks(rows.rows(), self.corners(), self.power());
        let made = self.lowered(blocks)?;
        let _made = made.rows();
        Ok(made)
    }
}
