// The pairs of an element and its p-th power: they are closed under sums, multiples and products.
ghost use Rattle.std.specs.Prelude.{◌≡◌, ℕ, ◌+◌, ◌-◌, ◌%◌, ◌<◌, length, ◌++◌, take, drop, map, All, IfOk, OnOk, MatchOption};
ghost use Rattle.comm_ring.specs.Ring.{pow};
ghost use Rattle.lane_rows.specs.Rows.{AreResidues, IsZeroRow};
ghost use Rattle.row_space.specs.Echelon.{IsRow};
ghost use Rattle.row_space.specs.Subspace.{product};
ghost use Rattle.finite_algebra.specs.Elements.{IsElement, ring_of};
ghost use Rattle.frobenius_map.specs.Powers.{ArePowers, AreProductsOfPair, IsGraph, IsPair, IsPowerOfUnit};

use finite_algebra::{Algebra, image};
use lane_rows::first_nonzero;
use lists::{List, NoMemory};
use prime_field::Prime;
use row_matrices::{copy_of, opposite, pair, unit_row, zero_row};
use row_space::{Insert, Space};
use std::alloc::Global;

// The halves of the row times the two matrices.
fn multiplied(
    alloc: Global,
    prime: Prime,
    n: usize,
    row: &[u32],
    left: &[List<u32>],
    right: &[List<u32>],
) -> Result<Vec<u32>, NoMemory>
    requires row { IsRow prime (n + n) row.now }
    requires left { (length left.now ≡ n) × All (IsRow prime n) left.now }
    requires right { (length right.now ≡ n) × All (IsRow prime n) right.now }
    ensures { IfOk result (λ made. made.items ≡ product prime n (take n row.now) left.now ++ product prime n (drop n row.now) right.now) }
{
    let x = image(alloc, prime, left, n, &row[..n])?;
    let y = image(alloc, prime, right, n, &row[n..])?;
    pair(alloc, x.as_slice(), y.as_slice())
}

// The pair times the pair of the matrices.
fn next_pair(
    alloc: Global,
    a: &Algebra,
    row: &[u32],
    left: &[List<u32>],
    right: &[List<u32>],
) -> Result<Vec<u32>, NoMemory>
    requires row { IsPair a.now row.now }
    requires matrices { AreProductsOfPair a.now left.now right.now }
    ensures { IfOk result (λ made. IsPair a.now made.items) }
{
    let _one = a.one();
    let _p = a.prime().get();
    let made = multiplied(alloc, a.prime(), a.dimension(), row, left, right)?;
    Ok(made)
}

// Adds the pair, and says whether it is new.
fn gain(a: &Algebra, graph: &mut Space, row: &[u32]) -> Result<bool, NoMemory>
    requires graph { IsGraph a.now graph.old }
    requires row { IsPair a.now row.now }
    ensures { OnOk result (IsGraph a.now graph.new) }
{
    let _one = a.one();
    let _p = a.prime().get();
    match graph.insert(row)? {
        Insert::Inserted => Ok(true),
        Insert::Dependent(_residues) => Ok(false),
    }
}

// Adds the products of the pairs with the pair of the matrices, and gives those that are new.
fn step(
    alloc: Global,
    a: &Algebra,
    graph: &mut Space,
    pairs: &[List<u32>],
    left: &[List<u32>],
    right: &[List<u32>],
) -> Result<List<List<u32>>, NoMemory>
    requires graph { IsGraph a.now graph.old }
    requires pairs { All (IsPair a.now) pairs.now }
    requires matrices { AreProductsOfPair a.now left.now right.now }
    ensures graph { OnOk result (IsGraph a.now graph.new) }
    ensures pairs { IfOk result (λ fresh. All (IsPair a.now) fresh) }
{
    let mut fresh = List::new(alloc);
    for i in 0..pairs.len() {
        let row = next_pair(alloc, a, pairs[i].as_slice(), left, right)?;
        if gain(a, graph, row.as_slice())? {
            fresh.push(List::of_vec(row))?;
        }
    }
    Ok(fresh)
}

// The basis of the graph.
fn basis_of(alloc: Global, a: &Algebra, graph: &Space) -> Result<List<List<u32>>, NoMemory>
    requires { IsGraph a.now graph.now }
    ensures { IfOk result (λ made. All (IsPair a.now) made) }
{
    let _one = a.one();
    let _p = a.prime().get();
    let rows = graph.rows();
    let mut made = List::new(alloc);
    for i in 0..rows.len() {
        let row = copy_of(alloc, rows[i].as_slice())?;
        made.push(List::of_vec(row))?;
    }
    Ok(made)
}

// Closes the graph under products with the pair of x and its p-th power y.
fn close(
    alloc: Global,
    a: &Algebra,
    graph: &mut Space,
    x: &[u32],
    y: &[u32],
) -> Result<(), NoMemory>
    requires graph { IsGraph a.now graph.old }
    requires x { IsElement a.now x.now }
    requires y { IsElement a.now y.now }
    requires power { y.now ≡ pow (ring_of a.now) x.now a.now.prime }
    ensures { OnOk result (IsGraph a.now graph.new) }
{
    let left = a.multiplication(x)?;
    let right = a.multiplication(y)?;
    let mut pairs = basis_of(alloc, a, graph)?;
    for _round in 0..a.dimension() {
        pairs = step(
            alloc,
            a,
            graph,
            pairs.as_slice(),
            left.as_slice(),
            right.as_slice(),
        )?;
        if pairs.len() == 0 {
            return Ok(());
        }
    }
    Ok(())
}

// The opposite of the right half of the row, where the left half is 0.
fn opposite_right(
    alloc: Global,
    prime: Prime,
    n: usize,
    row: &[u32],
) -> Result<Option<List<u32>>, NoMemory>
    requires { IsRow prime (n + n) row.now }
    ensures { IfOk result (λ found. MatchOption found (Unit {0}) (λ made. IsZeroRow (take n row.now) × (made ≡ map (λ x. (prime - x) % prime) (drop n row.now)) × AreResidues prime made)) }
{
    if first_nonzero(&row[..n]).is_some() {
        return Ok(None);
    }
    let made = opposite(alloc, prime, &row[n..])?;
    Ok(Some(made))
}

// The p-th power of the basis element k, if the graph tells it.
fn told(alloc: Global, a: &Algebra, graph: &Space, k: usize) -> Result<Option<List<u32>>, NoMemory>
    requires graph { IsGraph a.now graph.now }
    requires k { k < a.now.dimension }
    ensures { IfOk result (λ found. MatchOption found (Unit {0}) (λ row. IsPowerOfUnit a.now k row)) }
{
    let _one = a.one();
    let _p = a.prime().get();
    let unit = unit_row(alloc, a.dimension(), k)?;
    let zero = zero_row(alloc, a.dimension())?;
    let mut row = pair(alloc, unit.as_slice(), zero.as_slice())?;
    graph.reduce(row.as_mut_slice());
    let made = opposite_right(alloc, a.prime(), a.dimension(), row.as_slice())?;
    Ok(made)
}

// The p-th power of the basis element k, from the graph or by multiplying; then the graph gains it.
fn found(alloc: Global, a: &Algebra, graph: &mut Space, k: usize) -> Result<List<u32>, NoMemory>
    requires graph { IsGraph a.now graph.old }
    requires k { k < a.now.dimension }
    ensures graph { OnOk result (IsGraph a.now graph.new) }
    ensures power { IfOk result (λ row. IsPowerOfUnit a.now k row) }
{
    if let Some(row) = told(alloc, a, graph, k)? {
        return Ok(row);
    }
    let _p = a.prime().get();
    let unit = unit_row(alloc, a.dimension(), k)?;
    let power = a.power(unit.as_slice(), a.prime().get() as u64)?;
    close(alloc, a, graph, unit.as_slice(), power.as_slice())?;
    Ok(power)
}

// The graph of the one alone.
fn first_graph(alloc: Global, a: &Algebra) -> Result<Space, NoMemory>
    ensures { IfOk result (λ graph. IsGraph a.now graph) }
{
    let _p = a.prime().get();
    let ones = pair(alloc, a.one(), a.one())?;
    let mut graph = Space::new(alloc, a.prime(), ones.len());
    let _new = gain(a, &mut graph, ones.as_slice())?;
    Ok(graph)
}

/// The p-th powers of the basis elements.
pub fn powers(alloc: Global, a: &Algebra) -> Result<List<List<u32>>, NoMemory>
    ensures { IfOk result (λ rows. ArePowers a.now rows) }
{
    let mut graph = first_graph(alloc, a)?;
    let mut rows = List::new(alloc);
    for k in 0..a.dimension() {
        let row = found(alloc, a, &mut graph, k)?;
        rows.push(row)?;
    }
    Ok(rows)
}
