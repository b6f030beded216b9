// A modulo d as an algebra.
ghost use Rattle.std.specs.Prelude.{◌≡◌, ◌+◌, ◌<◌, length, slice_index_or, [], IfOk, OnOk};
ghost use Rattle.polys.specs.Terms.{one};
ghost use Rattle.standard_monomials.specs.Standard.{polynomial_of};
ghost use Rattle.digit_space.specs.Model.{IsDigitsOf, corner};
ghost use Rattle.point_quotient.specs.Algebras.{AreCornerRows, AreFirstProducts, IsBaseAlgebra};

use digit_space::Digits;
use finite_algebra::Algebra;
use lists::{List, NoMemory};
use monomials::Mono;
use over_laws::laws::corner_products_are_algebras;
use polys::{Poly, Term};

/// The algebra of the polynomials modulo I and d, with the corners as its basis: an element is the row of digits of its class
/// at depth 1.
///
/// The products of a corner with all corners come one after the other, each as a product by one variable: N times N products by
/// a variable, and N^3 numbers of memory.
///
/// Greuel and Pfister, section on finite maps and on finite-dimensional algebras.
pub fn base_algebra(digits: &Digits) -> Result<Algebra, NoMemory>
    requires { digits.now.depth ≡ 1 }
    ensures { IfOk result (λ a. IsBaseAlgebra digits.now a) }
{
    corner_products_are_algebras();
    let _basis = digits.basis();
    let unit = one_row(digits)?;
    let corners = corner_rows(digits, unit.as_slice())?;
    let mut products = List::new(digits.allocator());
    for i in 0..corners.len() {
        push_products(digits, i, corners.as_slice()[i].as_slice(), &mut products)?;
    }
    let prime = digits.curve().prime;
    Ok(Algebra::of_products(prime, corners.len(), unit, products))
}

// The digits of 1.
pub(crate) fn one_row(digits: &Digits) -> Result<List<u32>, NoMemory>
    ensures { IfOk result (λ row. IsDigitsOf digits.now one row) }
{
    let prime = digits.curve().prime;
    let _prime = prime.get();
    let term = Term {
        coeff: 1,
        mono: Mono::one(),
    };
    let f = Poly::from_term(digits.allocator(), prime, term)?;
    digits.digits_of(&f)
}

// The digits of the corners, by those of 1.
fn corner_rows(digits: &Digits, unit: &[u32]) -> Result<List<List<u32>>, NoMemory>
    requires { IsDigitsOf digits.now one unit.now }
    ensures { IfOk result (AreCornerRows digits.now) }
{
    let _basis = digits.basis();
    let rows = digits.multiples(unit)?;
    Ok(rows)
}

// Appends the products of the corner number `i`, whose digits are given, with all corners.
fn push_products(
    digits: &Digits,
    i: usize,
    row: &[u32],
    products: &mut List<List<u32>>,
) -> Result<(), NoMemory>
    requires i { i < length digits.now.basis }
    requires row { IsDigitsOf digits.now (polynomial_of (corner digits.now i)) row.now }
    requires before { AreFirstProducts digits.now i products.old }
    ensures { OnOk result (AreFirstProducts digits.now (i + 1) products.new) }
{
    let _basis = digits.basis();
    let mut rows = digits.multiples(row)?;
    products.append(&mut rows)?;
    Ok(())
}
