// A ring of fractions modulo its products with a point, as an algebra.
ghost use Rattle.std.specs.Prelude.{◌≡◌, ◌≤◌, ◌<◌, ◌+◌, ◌-◌, ◌*◌, ◌++◌, ℕ, suc, List, [], map, take, drop, length, replicate, slice_index_or, All, IfOk, OnOk};
ghost use Rattle.polys.specs.declared.term.Term.{Term};
ghost use Rattle.polys.specs.Terms.{mul};
ghost use Rattle.polys.specs.Curve.{IsOver, data_of};
ghost use Rattle.digit_space.specs.Adding.{AreMultiples};
ghost use Rattle.digit_space.specs.Model.{IsDigitRow, IsDigitSpace, value_of};
ghost use Rattle.row_space.specs.Subspace.{FitsIn};
ghost use Rattle.finite_algebra.specs.Elements.{unit_row};
ghost use Rattle.curve_model.specs.Fraction.{denominator_power};
ghost use Rattle.curve_model.specs.Point.{IsPointOf, basis_of};
ghost use Rattle.digit_laws.specs.Digits.{AreDigits};
ghost use Rattle.curve_model.specs.Rings.{IsFractionRing};
ghost use Rattle.over_laws.specs.Over.{InOver};
ghost use Rattle.quotient_laws.specs.OverQuotients.{HoldsProducts};
ghost use Rattle.quotient_laws.specs.ProductRows.{HoldsCurve, IsProductSpace};
ghost use Rattle.quotient_laws.specs.QuotientRows.{AreQuotientRows};
ghost use Rattle.quotient_laws.specs.Quotients.{IsQuotientAt};
ghost use Rattle.point_quotient.specs.Quotients.{AreAllProducts, AreGenerators, IsDividedProduct, AreTimes, HasFronts, HoldsNumerators};

use super::base::one_row;
use super::complement::{complement, coordinates};
use super::fronts::{all_filled, numerators};
use super::multiplying::products;
use super::table::product_table;
use curve_model::Point;
use digit_space::Digits;
use finite_algebra::Algebra;
use lists::{List, NoMemory};
use over_module::{Over, behind, entries};
use quotient_laws::laws::rows_give_quotients;
use row_space::Space;

// The digits of d^`power` at the depth that is one more: blocks of zeros, and then the first block of the digits of 1.
fn power_row(digits: &Digits, power: u32) -> Result<List<u32>, NoMemory>
    requires { power < digits.now.depth }
    ensures { IfOk result (AreDigits (data_of digits.now.curve) digits.now.basis (suc power) (denominator_power (data_of digits.now.curve) power)) }
{
    let zeros = entries(digits, power);
    let corners = entries(digits, 1);
    let one = one_row(digits)?;
    let row = behind(digits.allocator(), zeros, &one.as_slice()[..corners])?;
    Ok(row)
}

/// The algebra of the module's ring modulo its products with a point, which are given by their numerators' digits at the depth
/// k + 1, where k is the power; and for each basis element a row of digits of its numerator over d^k.
///
/// # Errors
/// Want of memory.
pub fn quotient_by(
    digits: &Digits,
    over: &Over,
    products: &Space,
) -> Result<(Algebra, List<List<u32>>), NoMemory>
    requires curve { digits.now.curve ≡ over.now.curve }
    requires ring { IsFractionRing (data_of over.now.curve) (InOver over.now) }
    requires depth { 2 * over.now.power + 2 ≤ digits.now.depth }
    requires products { (P : List (List Term)) × HoldsCurve (data_of over.now.curve) P × HoldsProducts over.now digits.now.basis P products.now }
    ensures rows { IfOk result (λ made. AreQuotientRows over.now digits.now.basis products.now made.0 (map (value_of digits.now) made.1)
        (map (take (length digits.now.basis * suc over.now.power)) made.1)) }
    ensures fit { IfOk result (λ made. All (IsDigitRow digits.now) made.1) }
{
    rows_give_quotients();
    let _known = over.rows();
    let _products = products.rows();
    let depth = entries(digits, digits.depth());
    let power = over.power();
    let alloc = digits.allocator();
    let numerators = numerators(digits, over)?;
    let width = entries(digits, power + 1);
    let mut rest = complement(alloc, width, products, &numerators)?;
    let rows = all_filled(alloc, depth, rest.rows())?;
    let unit = power_row(digits, power)?;
    let one = coordinates(alloc, products, &mut rest, unit.as_slice())?;
    let table = product_table(digits, power, products, &mut rest, rows.as_slice())?;
    let prime = digits.curve().prime;
    let algebra = Algebra::of_products(prime, rows.len(), one, table);
    Ok((algebra, rows))
}

/// The algebra of the module's ring modulo its products with a point, and for each basis element a row of digits of its
/// numerator over d^k, where k is the power.
///
/// Beside the products it takes a product for each two basis elements, and a reduction by the rows of the products for each of
/// these: the dimension of the algebra is at most the multiplicity of the curve at the point, times its degree.
///
/// # Errors
/// Want of memory.
///
/// Greuel and Pfister, sections on finite extensions and on the algorithm for normalization.
pub fn quotient_algebra(
    digits: &Digits,
    over: &Over,
    point: &Point,
) -> Result<(Algebra, List<List<u32>>), NoMemory>
    requires curve { digits.now.curve ≡ over.now.curve }
    requires ring { IsFractionRing (data_of over.now.curve) (InOver over.now) }
    requires point { IsPointOf (data_of over.now.curve) point.now }
    requires depth { 2 * over.now.power + 2 ≤ digits.now.depth }
    ensures { IfOk result (λ made. IsQuotientAt (data_of over.now.curve) (basis_of point.now) over.now.power (InOver over.now) made.0 (map (value_of digits.now) made.1)) }
{
    rows_give_quotients();
    let _basis = digits.basis();
    let _known = over.rows();
    let products = products(digits, over, point)?;
    let made = quotient_by(digits, over, &products)?;
    Ok(made)
}
