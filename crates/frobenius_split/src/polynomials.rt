// A polynomial in one element whose product with an idempotent is 0, and the values of polynomials.
ghost use Rattle.std.specs.Prelude.{◌≡◌, ◌⊎◌, List, ℕ, ◌+◌, ◌<◌, [], length, slice_index_or, All, IfOk};
ghost use Rattle.comm_ring.specs.Ring.{pow};
ghost use Rattle.lane_rows.specs.Rows.{AreResidues};
ghost use Rattle.row_space.specs.Echelon.{IsRow};
ghost use Rattle.row_space.specs.Subspace.{IsIn};
ghost use Rattle.finite_algebra.specs.Elements.{AreProducts, IsElement, elements, ring_of, times};
ghost use Rattle.frobenius_split.specs.Parts.{polynomial};
ghost use Rattle.frobenius_split.specs.Parts.{value as value_of};

use finite_algebra::{Algebra, image};
use lists::{List, NoMemory};
use prime_field::Prime;
use row_matrices::copy_of;
use row_space::{Insert, Space, kernel};
use std::alloc::Global;

// The product of the row and u, where the table has the products with u.
pub(crate) fn product_with(
    alloc: Global,
    a: &Algebra,
    u: &[u32],
    table: &[List<u32>],
    row: &[u32],
) -> Result<List<u32>, NoMemory>
    requires table { AreProducts a.now u.now table.now }
    requires row { IsElement a.now row.now }
    ensures element { IfOk result (λ made. IsElement a.now made) }
    ensures product { IfOk result (λ made. (elements a.now).◌≋◌ made (times a.now u.now row.now)) }
{
    let _one = a.one();
    let _p = a.prime().get();
    let made = image(alloc, a.prime(), table, a.dimension(), row)?;
    Ok(made)
}

// The products of e and the powers of u from 0 on, up to the first that depends on those before it.
fn powers_at(
    alloc: Global,
    a: &Algebra,
    u: &[u32],
    table: &[List<u32>],
    e: &[u32],
) -> Result<List<List<u32>>, NoMemory>
    requires table { AreProducts a.now u.now table.now }
    requires e { IsElement a.now e.now }
    ensures rows { IfOk result (λ rows. All (IsElement a.now) rows) }
    ensures powers { IfOk result (λ rows. (i : ℕ) → i < length rows → (elements a.now).◌≋◌ (slice_index_or rows i []) (times a.now (pow (ring_of a.now) u.now i) e.now)) }
{
    let _one = a.one();
    let _p = a.prime().get();
    let mut seen = Space::new(alloc, a.prime(), a.dimension());
    let mut rows = List::new(alloc);
    let mut power = List::of_vec(copy_of(alloc, e)?);
    for _exponent in 0..a.dimension() {
        let said = seen.insert(power.as_slice())?;
        let next = product_with(alloc, a, u, table, power.as_slice())?;
        rows.push(power)?;
        if let Insert::Dependent(_residues) = said {
            return Ok(rows);
        }
        power = next;
    }
    rows.push(power)?;
    Ok(rows)
}

// The first row of the space; the empty row where there is none.
fn first_row(alloc: Global, prime: Prime, space: &Space) -> Result<List<u32>, NoMemory>
    requires { space.now.prime ≡ prime }
    ensures { IfOk result (λ row. (row ≡ []) ⊎ (IsRow space.now.prime space.now.width row × IsIn space.now row)) }
{
    let _p = prime.get();
    let rows = space.rows();
    if rows.len() == 0 {
        return Ok(List::new(alloc));
    }
    let row = copy_of(alloc, rows[0].as_slice())?;
    Ok(List::of_vec(row))
}

/// The coefficients of a polynomial whose value at u has the product 0 with e, the lowest first. The
/// table has the products with u.
pub(crate) fn vanishing(
    alloc: Global,
    a: &Algebra,
    u: &[u32],
    table: &[List<u32>],
    e: &[u32],
) -> Result<List<u32>, NoMemory>
    requires table { AreProducts a.now u.now table.now }
    requires e { IsElement a.now e.now }
    ensures residues { IfOk result (λ coefficients. AreResidues a.now.prime coefficients) }
    ensures vanishes { IfOk result (λ coefficients. (elements a.now).◌≋◌ (times a.now (polynomial a.now coefficients u.now) e.now) (elements a.now).origin) }
{
    let _one = a.one();
    let _p = a.prime().get();
    let rows = powers_at(alloc, a, u, table, e)?;
    let relations = kernel(alloc, a.prime(), rows.as_slice(), a.dimension())?;
    let row = first_row(alloc, a.prime(), &relations)?;
    Ok(row)
}

/// The value at x of the polynomial with these coefficients, the lowest first.
pub(crate) fn value_at(prime: Prime, coefficients: &[u32], x: u32) -> u32
    requires coefficients { AreResidues prime coefficients.now }
    requires x { x < prime }
    ensures residue { result < prime }
    ensures value { result ≡ value_of prime coefficients.now x }
{
    let _p = prime.get();
    let mut value = 0;
    let mut place = coefficients.len();
    while place > 0 {
        place -= 1;
        value = prime.add(prime.mul(value, x), coefficients[place]);
    }
    value
}
