// Rows whose first entries are in a space, and the numerators of a module over d^k modulo d^(k+1).
ghost use Rattle.std.specs.Prelude.{◌≡◌, ◌≤◌, ◌<◌, ◌+◌, ◌-◌, ◌*◌, ◌++◌, ℕ, suc, List, [], map, take, drop, length, replicate, slice_index_or, All, IfOk, OnOk};
ghost use Rattle.polys.specs.declared.term.Term.{Term};
ghost use Rattle.polys.specs.Terms.{mul};
ghost use Rattle.polys.specs.Curve.{IsOver, data_of};
ghost use Rattle.digit_space.specs.Adding.{AreMultiples};
ghost use Rattle.digit_space.specs.Model.{IsDigitRow, IsDigitSpace, value_of};
ghost use Rattle.row_space.specs.Subspace.{FitsIn};
ghost use Rattle.finite_algebra.specs.Elements.{unit_row};
ghost use Rattle.curve_model.specs.Fraction.{denominator_power};
ghost use Rattle.curve_model.specs.Point.{IsPointOf, basis_of};
ghost use Rattle.digit_laws.specs.Digits.{AreDigits};
ghost use Rattle.curve_model.specs.Rings.{IsFractionRing};
ghost use Rattle.over_laws.specs.Over.{InOver};
ghost use Rattle.quotient_laws.specs.OverQuotients.{HoldsProducts};
ghost use Rattle.quotient_laws.specs.ProductRows.{HoldsCurve, IsProductSpace};
ghost use Rattle.quotient_laws.specs.QuotientRows.{AreQuotientRows};
ghost use Rattle.quotient_laws.specs.Quotients.{IsQuotientAt};
ghost use Rattle.point_quotient.specs.Quotients.{AreAllProducts, AreGenerators, IsDividedProduct, AreTimes, HasFronts, HoldsNumerators};

use digit_space::Digits;
use lists::{List, NoMemory};
use over_module::{Over, entries, filled, spanned};
use row_space::Space;
use std::alloc::Global;

// The row of `width` entries with 1 at the place.
fn unit(alloc: Global, width: usize, place: usize) -> Result<List<u32>, NoMemory>
    requires { place < width }
    ensures { IfOk result (λ made. made ≡ unit_row width place) }
{
    let mut made = vec![in alloc; 0u32; width]?;
    made[place] = 1;
    Ok(List::of_vec(made))
}

// The rows, each with zeros behind it, `width` entries in all.
pub(crate) fn all_filled(
    alloc: Global,
    width: usize,
    rows: &[List<u32>],
) -> Result<List<List<u32>>, NoMemory>
    requires { All (λ row. length row ≤ width) rows.now }
    ensures { IfOk result (λ made. made ≡ map (λ row. row ++ replicate (width - length row) 0) rows.now) }
{
    let mut made = List::new(alloc);
    for row in rows {
        made.push(filled(alloc, width, row.as_slice())?)?;
    }
    Ok(made)
}

// The rows of `first` entries with zeros behind them, and the unit rows at the places from there on.
fn generators(
    alloc: Global,
    first: usize,
    width: usize,
    rows: &[List<u32>],
) -> Result<List<List<u32>>, NoMemory>
    requires places { first ≤ width }
    requires rows { All (λ row. length row ≡ first) rows.now }
    ensures { IfOk result (AreGenerators first width rows.now) }
{
    let mut made = all_filled(alloc, width, rows)?;
    for place in first..width {
        made.push(unit(alloc, width, place)?)?;
    }
    Ok(made)
}

// The space of the rows of `width` entries whose first entries are in the given space.
fn with_fronts(alloc: Global, first: usize, width: usize, low: &Space) -> Result<Space, NoMemory>
    requires places { first ≤ width }
    requires low { low.now.width ≡ first }
    requires rows { All (FitsIn low.now) low.now.basis }
    requires two { 2 ≤ low.now.prime }
    ensures { IfOk result (HasFronts width first low.now) }
{
    let basis = low.rows();
    let rows = generators(alloc, first, width, basis)?;
    let space = spanned(alloc, low.prime(), width, rows.as_slice())?;
    Ok(space)
}

// The digits at the depth k + 1 of the numerators over d^k.
pub(crate) fn numerators(digits: &Digits, over: &Over) -> Result<Space, NoMemory>
    requires curve { digits.now.curve ≡ over.now.curve }
    requires depth { over.now.power < digits.now.depth }
    ensures { IfOk result (HoldsNumerators over.now (length digits.now.basis)) }
{
    let rows = over.rows();
    let power = over.power();
    let first = entries(digits, power);
    let width = entries(digits, power + 1);
    let space = with_fronts(digits.allocator(), first, width, rows)?;
    Ok(space)
}
