// Which points the statements name: the values of their polynomials.
ghost use Rattle.std.specs.Prelude.{◌≡◌, ◌↔◌, All, IfOk, IsTrue};
ghost use Rattle.std.specs.List.{Any, AllZip};
ghost use Rattle.polys.specs.Curve.{IsOver};
ghost use Rattle.digit_space.specs.Model.{IsDigitRow};
ghost use Rattle.split_points.specs.Splitting.{AreValuesAt};
ghost use Rattle.named_points.specs.Deciding.{HaveDigits, IsNamedBy, IsZeroAt};

use digit_space::Digits;
use finite_algebra::image;
use lane_rows::first_nonzero;
use lists::{List, NoMemory};
use polys::Poly;
use split_points::CurvePoint;

// The digits of each polynomial.
fn digits_of_all(digits: &Digits, polys: &[Poly]) -> Result<List<List<u32>>, NoMemory>
    requires { All (IsOver digits.now.curve.prime digits.now.curve.variables) polys.now }
    ensures { IfOk result (λ rows. HaveDigits digits.now polys.now rows) }
{
    let mut rows = List::new(digits.allocator());
    for f in polys {
        let row = digits.digits_of(f)?;
        rows.push(row)?;
    }
    Ok(rows)
}

// The digits of the polynomials of each statement.
pub(crate) fn statement_digits(
    digits: &Digits,
    statements: &[List<Poly>],
) -> Result<List<List<List<u32>>>, NoMemory>
    requires { All (All (IsOver digits.now.curve.prime digits.now.curve.variables)) statements.now }
    ensures { IfOk result (λ made. AllZip (HaveDigits digits.now) statements.now made) }
{
    let mut made = List::new(digits.allocator());
    for polys in statements {
        let rows = digits_of_all(digits, polys.as_slice())?;
        made.push(rows)?;
    }
    Ok(made)
}

// Whether the value of the row at the point is 0.
fn is_zero_at(digits: &Digits, local: &CurvePoint, row: &[u32]) -> Result<bool, NoMemory>
    requires depth { digits.now.depth ≡ 1 }
    requires values { AreValuesAt digits.now local.now.point local.now.values }
    requires row { IsDigitRow digits.now row.now }
    ensures { IfOk result (λ zero. IsTrue zero ↔ IsZeroAt digits.now local.now row.now) }
{
    let prime = digits.curve().prime;
    let _p = prime.get();
    let degree = local.point.degree as usize;
    let matrix = local.values.as_slice();
    let value = image(digits.allocator(), prime, matrix, degree, row)?;
    Ok(first_nonzero(value.as_slice()).is_none())
}

// Whether the value of each row at the point is 0.
fn are_zero_at(digits: &Digits, local: &CurvePoint, rows: &[List<u32>]) -> Result<bool, NoMemory>
    requires depth { digits.now.depth ≡ 1 }
    requires values { AreValuesAt digits.now local.now.point local.now.values }
    requires rows { All (IsDigitRow digits.now) rows.now }
    ensures { IfOk result (λ zero. IsTrue zero ↔ All (IsZeroAt digits.now local.now) rows.now) }
{
    for row in rows {
        let zero = is_zero_at(digits, local, row.as_slice())?;
        if !zero {
            return Ok(false);
        }
    }
    Ok(true)
}

// Whether all rows of some statement have the value 0 at the point.
fn some_are_zero_at(
    digits: &Digits,
    local: &CurvePoint,
    statements: &[List<List<u32>>],
) -> Result<bool, NoMemory>
    requires depth { digits.now.depth ≡ 1 }
    requires values { AreValuesAt digits.now local.now.point local.now.values }
    requires rows { All (All (IsDigitRow digits.now)) statements.now }
    ensures { IfOk result (λ some. IsTrue some ↔ Any (All (IsZeroAt digits.now local.now)) statements.now) }
{
    for rows in statements {
        let zero = are_zero_at(digits, local, rows.as_slice())?;
        if zero {
            return Ok(true);
        }
    }
    Ok(false)
}

// Whether the statements name the point, by the digits of their polynomials. Where there is no statement, each point is
// named.
pub(crate) fn is_named(
    digits: &Digits,
    local: &CurvePoint,
    statements: &[List<List<u32>>],
) -> Result<bool, NoMemory>
    requires depth { digits.now.depth ≡ 1 }
    requires values { AreValuesAt digits.now local.now.point local.now.values }
    requires rows { All (All (IsDigitRow digits.now)) statements.now }
    ensures { IfOk result (λ named. IsTrue named ↔ IsNamedBy digits.now statements.now local.now) }
{
    if statements.is_empty() {
        return Ok(true);
    }
    some_are_zero_at(digits, local, statements)
}
