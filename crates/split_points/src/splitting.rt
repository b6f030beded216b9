// The points, each with its idempotent and the values of the corners.
ghost use Rattle.std.specs.Prelude.{◌≡◌, map, All, IfOk};
ghost use Rattle.curve_model.specs.Point.{IsPointOf, basis_of};
ghost use Rattle.curve_points.specs.Points.{AreThePoints};
ghost use Rattle.digit_space.specs.Model.{IsIdealIn};
ghost use Rattle.polys.specs.Curve.{data_of};
ghost use Rattle.split_points.specs.Splitting.{AreIdempotentsAt, AreValuesAt, HasIdeal};

use corner_basis::reduced_basis_of;
use curve_model::Point;
use digit_space::Digits;
use frobenius_split::{LocalPoint, local_points};
use lists::{List, NoMemory};
use over_laws::laws::ideals_are_generated_by_digits;
use point_quotient::base_algebra;

/// A point of a curve with N corners, of degree g; N digits of a polynomial that is 1 modulo the point's ideal and lies in the
/// ideals of all other points, and is idempotent modulo I and d; and the values of the corners at the point, N rows of g residues.
/// The value of a row of N digits is the sum of the rows, each times its digit, and it is 0 exactly where the polynomials with
/// these digits are in the point's ideal.
#[derive(Drop)]
pub struct CurvePoint {
    pub point: Point,
    pub idempotent: List<u32>,
    pub values: List<List<u32>>,
}

// The point of a maximal ideal of A modulo d, with what the splitting tells of it.
fn curve_point(digits: &Digits, local: LocalPoint) -> Result<CurvePoint, NoMemory>
    requires { IsIdealIn digits.now local.point.space }
    ensures { IfOk result (HasIdeal digits.now local) }
{
    let LocalPoint {
        point,
        idempotent,
        values,
    } = local;
    let basis = reduced_basis_of(digits, &point.space)?;
    let degree = point.degree;
    Ok(CurvePoint {
        point: Point { basis, degree },
        idempotent,
        values,
    })
}

/// The points of the curve, each once, with their idempotents and the values of the corners. The digits have the depth 1. Where
/// there are no corners, there is no point.
///
/// It takes the algebra A modulo d, its `local_points`, and a reduced basis for each of them. Want of memory is the one error.
///
/// Greuel and Pfister, sections on primary decomposition in dimension 0 and on standard bases.
pub fn points_of(digits: &Digits) -> Result<List<CurvePoint>, NoMemory>
    requires { digits.now.depth ≡ 1 }
    ensures each { IfOk result (λ found. All (λ local. IsPointOf (data_of digits.now.curve) local.point) found) }
    ensures exact { IfOk result (λ found. AreThePoints (data_of digits.now.curve) (map (λ local. basis_of local.point) found)) }
    ensures idempotents { IfOk result
        (λ found. AreIdempotentsAt digits.now (map (λ local. basis_of local.point) found) (map (λ local. local.idempotent) found)) }
    ensures values { IfOk result (λ found. All (λ local. AreValuesAt digits.now local.point local.values) found) }
{
    ideals_are_generated_by_digits();
    let _basis = digits.basis();
    let algebra = base_algebra(digits)?;
    let _one = algebra.one();
    let locals = local_points(&algebra)?;
    let mut found = List::new(digits.allocator());
    for local in locals.into_vec() {
        let made = curve_point(digits, local)?;
        found.push(made)?;
    }
    Ok(found)
}
