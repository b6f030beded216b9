// The fractions of a ring with a power in its products with a point.
ghost use Rattle.std.specs.Prelude.{◌≡◌, ◌↔◌, ◌+◌, ◌*◌, ◌≤◌, ℕ, suc, List, map, take, length, All, IfOk, OnOk};
ghost use Rattle.polys.specs.Curve.{data_of};
ghost use Rattle.row_space.specs.Echelon.{IsRow};
ghost use Rattle.row_space.specs.Subspace.{FitsIn, Joins, product};
ghost use Rattle.curve_model.specs.Fraction.{Fraction, IsFraction};
ghost use Rattle.curve_model.specs.Point.{IsPointOf, basis_of};
ghost use Rattle.curve_model.specs.Rings.{InRadical, IsFractionRing};
ghost use Rattle.digit_laws.specs.Digits.{IsIdealSpace};
ghost use Rattle.over_laws.specs.Over.{InOver, InRows};

use curve_model::Point;
use digit_space::Digits;
use finite_algebra::images_of;
use frobenius_split::radical;
use lists::{List, NoMemory};
use over_module::Over;
use point_quotient::{products, quotient_by};
use prime_field::Prime;
use quotient_laws::laws::rows_give_quotients;
use row_space::Space;
use std::alloc::Global;

// The first entries of each row.
fn fronts(alloc: Global, width: usize, rows: &[List<u32>]) -> Result<List<List<u32>>, NoMemory>
    requires { All (λ row. width ≤ length row) rows.now }
    ensures { IfOk result (λ made. made ≡ map (take width) rows.now) }
{
    let mut made = List::new(alloc);
    for row in rows {
        made.push(List::from_slice(alloc, &row.as_slice()[..width])?)?;
    }
    Ok(made)
}

// Adds to the space the sums of the rows by the coordinates of each of the elements.
fn join_images(
    alloc: Global,
    prime: Prime,
    width: usize,
    space: &mut Space,
    rows: &[List<u32>],
    elements: &[List<u32>],
) -> Result<(), NoMemory>
    requires prime { space.old.prime ≡ prime }
    requires width { space.old.width ≡ width }
    requires rows { All (IsRow prime width) rows.now }
    requires elements { All (IsRow prime (length rows.now)) elements.now }
    ensures { OnOk result (Joins space.old (map (λ x. product prime width x rows.now) elements.now) space.new) }
{
    let _known = prime.get();
    let made = images_of(alloc, prime, rows, width, elements)?;
    space.add_rows(made.as_slice())?;
    Ok(())
}

/// The numerators over d^k, by their digits at the depth k + 1, of the fractions of a ring with a power in its sums of products
/// with a point, where k is the power of the ring's module.
///
/// It takes the algebra of the ring modulo these products, the nilpotent elements of that algebra, and an insertion for each of
/// them.
///
/// # Errors
/// Want of memory.
///
/// Greuel and Pfister, section on the algorithm for normalization; Böhm, Decker, Laplagne, Pfister, Steenpass and Steidel, Parallel
/// Algorithms for Normalization, section on local contributions.
pub fn point_radical(digits: &Digits, over: &Over, point: &Point) -> Result<Space, NoMemory>
    requires curve { digits.now.curve ≡ over.now.curve }
    requires ring { IsFractionRing (data_of over.now.curve) (InOver over.now) }
    requires point { IsPointOf (data_of over.now.curve) point.now }
    requires depth { 2 * over.now.power + 2 ≤ digits.now.depth }
    ensures ideal { IfOk result (IsIdealSpace (data_of over.now.curve) digits.now.basis (over.now.power + 1)) }
    ensures exact { IfOk result (λ space. (f : Fraction) → IsFraction (data_of over.now.curve) f
        → InRows (data_of over.now.curve) over.now.power (over.now.power + 1) space f ↔ InRadical (data_of over.now.curve) (basis_of point.now) (InOver over.now) f) }
{
    rows_give_quotients();
    let basis = digits.basis();
    let _known = over.rows();
    let alloc = digits.allocator();
    let prime = digits.curve().prime;
    let mut space = products(digits, over, point)?;
    let (algebra, rows) = quotient_by(digits, over, &space)?;
    let nilpotent = radical(&algebra)?;
    let width = basis.len() * (over.power() as usize + 1);
    let list = fronts(alloc, width, rows.as_slice())?;
    join_images(
        alloc,
        prime,
        width,
        &mut space,
        list.as_slice(),
        nilpotent.rows(),
    )?;
    Ok(space)
}
