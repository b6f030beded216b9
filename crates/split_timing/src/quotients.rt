// The algebra F_p[x]/(x^n - r) by the powers of x.
ghost use Rattle.std.specs.Prelude.{◌≡◌, ℕ, suc, ◌+◌, ◌-◌, ◌*◌, ◌<◌, ◌≤◌, length, replicate, [], slice_index_or, IfOk};
ghost use Rattle.lane_rows.specs.Rows.{AreResidues};
ghost use Rattle.row_space.specs.Echelon.{IsRow};
ghost use Rattle.finite_algebra.specs.Elements.{unit_row as the_unit_row};
ghost use Rattle.split_timing.specs.Powers.{ArePowersOfX, AreProductsOfPowers, IsStep};

use finite_algebra::{Algebra, basis_laws_suffice, image};
use lists::{List, NoMemory};
use prime_field::Prime;
use std::alloc::Global;

// The row with 1 at the place k.
fn unit_row(alloc: Global, length: usize, k: usize) -> Result<List<u32>, NoMemory>
    requires { k < length }
    ensures { IfOk result (λ row. row ≡ the_unit_row length k) }
{
    let mut row = vec![in alloc; 0u32; length]?;
    row[k] = 1;
    Ok(List::of_vec(row))
}

// The matrix of the multiplication by x.
fn step(alloc: Global, prime: Prime, r: &[u32]) -> Result<List<List<u32>>, NoMemory>
    requires some { 0 < length r.now }
    requires r { AreResidues prime r.now }
    ensures { IfOk result (λ matrix. IsStep prime r.now matrix) }
{
    let _p = prime.get();
    let mut rows = List::new(alloc);
    for k in 1..r.len() {
        let row = unit_row(alloc, r.len(), k)?;
        rows.push(row)?;
    }
    rows.push(List::from_slice(alloc, r)?)?;
    Ok(rows)
}

// The first n powers.
fn basis(
    alloc: Global,
    prime: Prime,
    n: usize,
    matrix: &[List<u32>],
) -> Result<List<List<u32>>, NoMemory>
    ensures { IfOk result (λ powers. ArePowersOfX prime n matrix.now n powers) }
{
    let _p = prime.get();
    let mut powers = List::new(alloc);
    for k in 0..n {
        let row = unit_row(alloc, n, k)?;
        powers.push(row)?;
    }
    Ok(powers)
}

// The first 2 n powers.
fn powers(
    alloc: Global,
    prime: Prime,
    n: usize,
    matrix: &[List<u32>],
) -> Result<List<List<u32>>, NoMemory>
    requires n { (0 < n) × (n ≤ 1024) }
    requires count { length matrix.now ≡ n }
    requires matrix { (k : ℕ) → k < n → IsRow prime n (slice_index_or matrix.now k []) }
    ensures { IfOk result (λ powers. ArePowersOfX prime n matrix.now (n + n) powers) }
{
    let _p = prime.get();
    let mut powers = basis(alloc, prime, n, matrix)?;
    for k in n..n + n {
        let next = image(alloc, prime, matrix, n, powers.as_slice()[k - 1].as_slice())?;
        powers.push(next)?;
    }
    Ok(powers)
}

// The products of the basis elements.
fn products(alloc: Global, n: usize, powers: &[List<u32>]) -> Result<List<List<u32>>, NoMemory>
    requires n { (0 < n) × (n ≤ 1024) }
    requires powers { length powers.now ≡ n + n }
    ensures { IfOk result (λ rows. AreProductsOfPowers n powers.now (n * n) rows) }
{
    let mut rows = List::new(alloc);
    for k in 0..n * n {
        let row = List::from_slice(alloc, powers[k / n + k % n].as_slice())?;
        rows.push(row)?;
    }
    Ok(rows)
}

/// The algebra F_p[x]/(x^n - r) by the powers of x, where `r` has n residues, the coefficients of a
/// polynomial of degree below n, the lowest first; n is from 1 to 1024.
///
/// It takes n products of a row with a matrix, and n * n copies of rows.
pub(crate) fn algebra_modulo(alloc: Global, prime: Prime, r: &[u32]) -> Result<Algebra, NoMemory>
    requires n { (0 < length r.now) × (length r.now ≤ 1024) }
    requires r { AreResidues prime r.now }
    ensures prime { IfOk result (λ a. a.prime ≡ prime) }
    ensures dimension { IfOk result (λ a. a.dimension ≡ length r.now) }
{
    basis_laws_suffice();
    let _p = prime.get();
    let matrix = step(alloc, prime, r)?;
    let powers = powers(alloc, prime, r.len(), matrix.as_slice())?;
    let products = products(alloc, r.len(), powers.as_slice())?;
    let one = unit_row(alloc, r.len(), 0)?;
    Ok(Algebra::of_products(prime, r.len(), one, products))
}
