// The products of a module of fractions with a point.
ghost use Rattle.std.specs.Prelude.{◌≡◌, ◌≤◌, ◌<◌, ◌+◌, ◌-◌, ◌*◌, ◌++◌, ℕ, suc, List, [], map, take, drop, length, replicate, slice_index_or, All, IfOk, OnOk};
ghost use Rattle.polys.specs.declared.term.Term.{Term};
ghost use Rattle.polys.specs.Terms.{mul};
ghost use Rattle.polys.specs.Curve.{IsOver, data_of};
ghost use Rattle.digit_space.specs.Adding.{AreMultiples};
ghost use Rattle.digit_space.specs.Model.{IsDigitRow, IsDigitSpace, value_of};
ghost use Rattle.row_space.specs.Subspace.{FitsIn};
ghost use Rattle.finite_algebra.specs.Elements.{unit_row};
ghost use Rattle.curve_model.specs.Fraction.{denominator_power};
ghost use Rattle.curve_model.specs.Point.{IsPointOf, basis_of};
ghost use Rattle.digit_laws.specs.Digits.{AreDigits};
ghost use Rattle.curve_model.specs.Rings.{IsFractionRing};
ghost use Rattle.over_laws.specs.Over.{InOver};
ghost use Rattle.quotient_laws.specs.OverQuotients.{HoldsProducts};
ghost use Rattle.quotient_laws.specs.ProductRows.{HoldsCurve, IsProductSpace};
ghost use Rattle.quotient_laws.specs.QuotientRows.{AreQuotientRows};
ghost use Rattle.quotient_laws.specs.Quotients.{IsQuotientAt};
ghost use Rattle.point_quotient.specs.Quotients.{AreAllProducts, AreGenerators, IsDividedProduct, AreTimes, HasFronts, HoldsNumerators};

use super::fronts::{all_filled, numerators};
use curve_model::Point;
use digit_space::Digits;
use lists::{List, NoMemory};
use over_module::{Over, entries, multiples_of, spanned};
use polys::Poly;
use quotient_laws::laws::products_are_spaces;
use row_space::Space;

// The digits at the depth `depth` of the products of the polynomial, whose products with the corners are given, and those of the
// rows.
fn product_rows(
    digits: &Digits,
    depth: u32,
    f: &Poly,
    multiples: &[List<u32>],
    rows: &[List<u32>],
) -> Result<List<List<u32>>, NoMemory>
    requires depth { depth ≤ digits.now.depth }
    requires poly { IsOver digits.now.curve.prime digits.now.curve.variables f.now }
    requires count { length multiples.now ≡ length digits.now.basis }
    requires multiples { AreMultiples digits.now f.now.terms multiples.now }
    requires rows { All (IsDigitRow digits.now) rows.now }
    ensures { IfOk result (AreTimes digits.now depth f.now.terms rows.now) }
{
    let width = entries(digits, depth);
    let mut made = List::new(digits.allocator());
    for row in rows {
        let whole = digits.product_by(row.as_slice(), multiples)?;
        let front = List::from_slice(digits.allocator(), &whole.as_slice()[..width])?;
        made.push(front)?;
    }
    Ok(made)
}

// The digits at the depth `depth` of the products of each of the polynomials and each of the rows'.
fn all_products(
    digits: &Digits,
    depth: u32,
    factors: &[Poly],
    rows: &[List<u32>],
) -> Result<List<List<u32>>, NoMemory>
    requires depth { depth ≤ digits.now.depth }
    requires factors { All (IsOver digits.now.curve.prime digits.now.curve.variables) factors.now }
    requires rows { All (IsDigitRow digits.now) rows.now }
    ensures { IfOk result (AreAllProducts (data_of digits.now.curve) digits.now.basis depth (map (λ f. f.terms) factors.now) (map (value_of digits.now) rows.now)) }
{
    let mut made = List::new(digits.allocator());
    for f in factors {
        let multiples = multiples_of(digits, f)?;
        let mut products = product_rows(digits, depth, f, multiples.as_slice(), rows)?;
        made.append(&mut products)?;
    }
    Ok(made)
}

// The space that these products span.
fn product_space(
    digits: &Digits,
    depth: u32,
    factors: &[Poly],
    rows: &[List<u32>],
) -> Result<Space, NoMemory>
    requires depth { depth ≤ digits.now.depth }
    requires factors { All (IsOver digits.now.curve.prime digits.now.curve.variables) factors.now }
    requires rows { All (IsDigitRow digits.now) rows.now }
    ensures { IfOk result (IsProductSpace (data_of digits.now.curve) digits.now.basis depth (map (λ f. f.terms) factors.now) (map (value_of digits.now) rows.now)) }
{
    let width = entries(digits, depth);
    let products = all_products(digits, depth, factors, rows)?;
    let prime = digits.curve().prime;
    let space = spanned(digits.allocator(), prime, width, products.as_slice())?;
    Ok(space)
}

/// The digits at the depth k + 1 of the numerators over d^k of the sums of products of a member of the point and a fraction of
/// the module, where k is its power.
///
/// For each member of the point it takes N products by a variable and a product for each row of the module and each corner,
/// and the insertion of as many rows of N (k + 1) entries.
///
/// # Errors
/// Want of memory.
pub fn products(digits: &Digits, over: &Over, point: &Point) -> Result<Space, NoMemory>
    requires curve { digits.now.curve ≡ over.now.curve }
    requires ring { IsFractionRing (data_of over.now.curve) (InOver over.now) }
    requires point { IsPointOf (data_of over.now.curve) point.now }
    requires depth { over.now.power < digits.now.depth }
    ensures { IfOk result (HoldsProducts over.now digits.now.basis (basis_of point.now)) }
{
    products_are_spaces();
    let _known = over.rows();
    let alloc = digits.allocator();
    let numerators = numerators(digits, over)?;
    let width = entries(digits, digits.depth());
    let rows = all_filled(alloc, width, numerators.rows())?;
    let factors = point.basis.as_slice();
    let space = product_space(digits, over.power() + 1, factors, rows.as_slice())?;
    Ok(space)
}
