// The splitting of the one into idempotents by the values of elements that the p-th power fixes.
ghost use Rattle.std.specs.Prelude.{◌≡◌, ◌⊎◌, ◌↔◌, ℕ, List, [], ◌∷◌, ◌+◌, ◌-◌, ◌*◌, ◌%◌, ◌<◌, ◌≤◌, ◌++◌, length, slice_index, slice_index_or, All, IfOk, IsTrue};
ghost use Rattle.comm_ring.specs.Modules.{InSpan};
ghost use Rattle.lane_rows.specs.Rows.{AreResidues, IsZeroRow};
ghost use Rattle.row_space.specs.Subspace.{IsIn, IsZero};
ghost use Rattle.finite_algebra.specs.Elements.{AreProducts, IsElement, elements, times};
ghost use Rattle.frobenius_split.specs.Idempotents.{AreDivided, AreEigenparts, AreIdempotents, AreIdempotentsIn, IsFixed, IsNumberAt, lowered_by};
ghost use Rattle.frobenius_map.specs.Powers.{AreFixed};
ghost use Rattle.frobenius_split.specs.Parts.{less_number, polynomial};

use super::polynomials::{product_with, value_at, vanishing};
use finite_algebra::{Algebra, image};
use lane_rows::first_nonzero;
use lists::{List, NoMemory};
use prime_field::Prime;
use row_matrices::{copy_of, less_multiple, scaled, single};
use row_space::Space;
use std::alloc::Global;

// Whether the row is c times the other.
fn is_multiple(prime: Prime, c: u32, one: &[u32], row: &[u32]) -> bool
    requires c { c < prime }
    requires long { length one.now ≡ length row.now }
    requires one { AreResidues prime one.now }
    ensures { IsTrue result → (i : ℕ) → i < length row.now → slice_index row.now i ≡ (c * slice_index one.now i) % prime }
{
    for i in 0..row.len() {
        if row[i] != prime.mul(c, one[i]) {
            return false;
        }
    }
    true
}

// Whether the row is a multiple of the other, which is not 0.
fn has_factor(prime: Prime, one: &[u32], row: &[u32]) -> bool
    requires long { length one.now ≡ length row.now }
    requires one { AreResidues prime one.now }
    requires row { AreResidues prime row.now }
    ensures { IsTrue result → (c : ℕ) × ((i : ℕ) → i < length row.now → slice_index row.now i ≡ (c * slice_index one.now i) % prime) }
{
    let _p = prime.get();
    match first_nonzero(one) {
        None => false,
        Some(place) => {
            let c = prime.mul(row[place], prime.inv(one[place]));
            is_multiple(prime, c, one, row)
        }
    }
}

// The list with c at its end where the value there is 0.
fn with_root(roots: List<u32>, c: u32, value: u32) -> Result<List<u32>, NoMemory>
    ensures { IfOk result (λ made. ((value ≡ 0) × (made ≡ roots ++ c ∷ [])) ⊎ (¬ (value ≡ 0) × (made ≡ roots))) }
{
    if value != 0 {
        return Ok(roots);
    }
    let mut made = roots;
    made.push(c)?;
    Ok(made)
}

// The residues at which the polynomial is 0, in rising order. Its value at u has the product 0 with e.
fn roots_of(
    alloc: Global,
    a: &Algebra,
    u: &[u32],
    e: &[u32],
    coefficients: &[u32],
) -> Result<List<u32>, NoMemory>
    requires fixed { IsFixed a.now u.now }
    requires coefficients { AreResidues a.now.prime coefficients.now }
    requires vanishes { (elements a.now).◌≋◌ (times a.now (polynomial a.now coefficients.now u.now) e.now) (elements a.now).origin }
    ensures residues { IfOk result (λ roots. AreResidues a.now.prime roots) }
    ensures rising { IfOk result (λ roots. (i j : ℕ) → i < j → j < length roots → slice_index roots i < slice_index roots j) }
    ensures lowered { IfOk result (λ roots. (elements a.now).◌≋◌ (lowered_by a.now u.now roots e.now) (elements a.now).origin) }
{
    let _one = a.one();
    let p = a.prime().get();
    let mut roots = List::new(alloc);
    for c in 0..p {
        let value = value_at(a.prime(), coefficients, c);
        roots = with_root(roots, c, value)?;
    }
    Ok(roots)
}

// The product of w and u - c, where the table has the products with u.
fn lowered(
    alloc: Global,
    a: &Algebra,
    u: &[u32],
    table: &[List<u32>],
    w: &[u32],
    c: u32,
) -> Result<List<u32>, NoMemory>
    requires table { AreProducts a.now u.now table.now }
    requires w { IsElement a.now w.now }
    requires c { c < a.now.prime }
    ensures element { IfOk result (λ made. IsElement a.now made) }
    ensures product { IfOk result (λ made. (elements a.now).◌≋◌ made (times a.now (less_number a.now u.now c) w.now)) }
{
    let _one = a.one();
    let _p = a.prime().get();
    let product = product_with(alloc, a, u, table, w)?;
    let made = less_multiple(alloc, a.prime(), product.as_slice(), c, w)?;
    Ok(made)
}

fn is_zero(row: &[u32]) -> bool
    ensures { IsTrue result → IsZeroRow row.now }
{
    match first_nonzero(row) {
        None => true,
        Some(_place) => false,
    }
}

// Whether the product of w and u - c for all the roots c is 0.
fn vanishes(
    alloc: Global,
    a: &Algebra,
    u: &[u32],
    table: &[List<u32>],
    w: &[u32],
    roots: &[u32],
) -> Result<bool, NoMemory>
    requires table { AreProducts a.now u.now table.now }
    requires w { IsElement a.now w.now }
    requires residues { AreResidues a.now.prime roots.now }
    ensures { IfOk result (λ yes. IsTrue yes → (elements a.now).◌≋◌ (lowered_by a.now u.now roots.now w.now) (elements a.now).origin) }
{
    let _one = a.one();
    let _p = a.prime().get();
    if roots.len() == 0 {
        let yes = is_zero(w);
        return Ok(yes);
    }
    let last = roots.len() - 1;
    let next = lowered(alloc, a, u, table, w, roots[last])?;
    let yes = vanishes(alloc, a, u, table, next.as_slice(), &roots[..last])?;
    Ok(yes)
}

// The residues 0, 1 and -1, in rising order.
fn few_residues(alloc: Global, prime: Prime) -> Result<List<u32>, NoMemory>
    ensures residues { IfOk result (λ roots. AreResidues prime roots) }
    ensures rising { IfOk result (λ roots. (i j : ℕ) → i < j → j < length roots → slice_index roots i < slice_index roots j) }
{
    let p = prime.get();
    let mut roots = List::new(alloc);
    roots.push(0)?;
    roots.push(1)?;
    if p == 2 {
        return Ok(roots);
    }
    roots.push(p - 1)?;
    Ok(roots)
}

// Residues c, in rising order, for which the product of e and all u - c is 0: 0, 1 and -1 if they do,
// else the roots of a polynomial.
fn roots_at(
    alloc: Global,
    a: &Algebra,
    u: &[u32],
    table: &[List<u32>],
    e: &[u32],
) -> Result<List<u32>, NoMemory>
    requires fixed { IsFixed a.now u.now }
    requires table { AreProducts a.now u.now table.now }
    requires e { IsElement a.now e.now }
    ensures residues { IfOk result (λ roots. AreResidues a.now.prime roots) }
    ensures rising { IfOk result (λ roots. (i j : ℕ) → i < j → j < length roots → slice_index roots i < slice_index roots j) }
    ensures lowered { IfOk result (λ roots. (elements a.now).◌≋◌ (lowered_by a.now u.now roots e.now) (elements a.now).origin) }
{
    let _p = a.prime().get();
    let few = few_residues(alloc, a.prime())?;
    if vanishes(alloc, a, u, table, e, few.as_slice())? {
        return Ok(few);
    }
    let coefficients = vanishing(alloc, a, u, table, e)?;
    let roots = roots_of(alloc, a, u, e, coefficients.as_slice())?;
    Ok(roots)
}

// The parts, each divided by its number less c, and w without their sum.
fn divided(
    alloc: Global,
    a: &Algebra,
    values: &[u32],
    parts: &[List<u32>],
    c: u32,
    w: &[u32],
) -> Result<(List<List<u32>>, List<u32>), NoMemory>
    requires w { IsElement a.now w.now }
    requires c { c < a.now.prime }
    requires count { length values.now ≡ length parts.now }
    requires values { All (λ x. x < c) values.now }
    requires parts { All (IsElement a.now) parts.now }
    ensures { IfOk result (λ made. AreDivided a.now values.now parts.now c w.now (length parts.now) made.0 made.1) }
{
    let _one = a.one();
    let _p = a.prime().get();
    let mut made = List::new(alloc);
    let mut rest = List::of_vec(copy_of(alloc, w)?);
    for j in 0..parts.len() {
        let factor = a.prime().inv(a.prime().sub(values[j], c));
        let part = scaled(alloc, a.prime(), factor, parts[j].as_slice())?;
        rest = less_multiple(alloc, a.prime(), rest.as_slice(), 1, part.as_slice())?;
        made.push(part)?;
    }
    Ok((made, rest))
}

// The parts and their numbers with the row and c at the ends, unless the row is 0.
fn with_rest(
    values: List<u32>,
    parts: List<List<u32>>,
    c: u32,
    rest: List<u32>,
) -> Result<(List<u32>, List<List<u32>>), NoMemory>
    ensures { IfOk result (λ made. ((made.0 ≡ values ++ c ∷ []) × (made.1 ≡ parts ++ rest ∷ []) × ¬ (IsZeroRow rest)) ⊎ ((made.0 ≡ values) × (made.1 ≡ parts) × IsZeroRow rest)) }
{
    let mut values = values;
    let mut parts = parts;
    match first_nonzero(rest.as_slice()) {
        None => Ok((values, parts)),
        Some(_place) => {
            values.push(c)?;
            parts.push(rest)?;
            Ok((values, parts))
        }
    }
}

// The parts of w at which u is a number, with these numbers, which are among the roots. The product of
// w and u - c for all the roots c is 0.
fn eigenparts(
    alloc: Global,
    a: &Algebra,
    u: &[u32],
    table: &[List<u32>],
    w: &[u32],
    roots: &[u32],
) -> Result<(List<u32>, List<List<u32>>), NoMemory>
    requires table { AreProducts a.now u.now table.now }
    requires w { IsElement a.now w.now }
    requires residues { AreResidues a.now.prime roots.now }
    requires rising { (i j : ℕ) → i < j → j < length roots.now → slice_index roots.now i < slice_index roots.now j }
    requires lowered { (elements a.now).◌≋◌ (lowered_by a.now u.now roots.now w.now) (elements a.now).origin }
    ensures parts { IfOk result (λ made. AreEigenparts a.now u.now w.now made.0 made.1) }
    ensures below { IfOk result (λ made. (c : ℕ) → All (λ x. x < c) roots.now → All (λ x. x < c) made.0) }
    ensures inside { IfOk result (λ made. (e : List ℕ) → (elements a.now).◌≋◌ (times a.now e w.now) w.now → All (λ f. (elements a.now).◌≋◌ (times a.now e f) f) made.1) }
{
    let _one = a.one();
    let _p = a.prime().get();
    if roots.len() == 0 {
        return Ok((List::new(alloc), List::new(alloc)));
    }
    let last = roots.len() - 1;
    let c = roots[last];
    let next = lowered(alloc, a, u, table, w, c)?;
    let (values, parts) = eigenparts(alloc, a, u, table, next.as_slice(), &roots[..last])?;
    let (made, rest) = divided(alloc, a, values.as_slice(), parts.as_slice(), c, w)?;
    let found = with_rest(values, made, c, rest)?;
    Ok(found)
}

// The parts of e at which u is a number.
fn pieces(
    alloc: Global,
    a: &Algebra,
    u: &[u32],
    table: &[List<u32>],
    e: &[u32],
) -> Result<List<List<u32>>, NoMemory>
    requires fixed { IsFixed a.now u.now }
    requires table { AreProducts a.now u.now table.now }
    requires e { IsElement a.now e.now }
    requires nonzero { ¬ (IsZero a.now.prime a.now.dimension e.now) }
    requires square { (elements a.now).◌≋◌ (times a.now e.now e.now) e.now }
    ensures parts { IfOk result (λ parts. AreIdempotentsIn a.now e.now parts) }
    ensures numbers { IfOk result (λ parts. All (IsNumberAt a.now u.now) parts) }
{
    let _one = a.one();
    let _p = a.prime().get();
    let product = product_with(alloc, a, u, table, e)?;
    if has_factor(a.prime(), e, product.as_slice()) {
        let whole = single(alloc, e)?;
        return Ok(whole);
    }
    let roots = roots_at(alloc, a, u, table, e)?;
    let (_values, parts) = eigenparts(alloc, a, u, table, e, roots.as_slice())?;
    Ok(parts)
}

// The second list after the first.
fn put_together(into: List<List<u32>>, more: List<List<u32>>) -> Result<List<List<u32>>, NoMemory>
    ensures { IfOk result (λ whole. whole ≡ into ++ more) }
{
    let mut whole = into;
    let mut rest = more;
    whole.append(&mut rest)?;
    Ok(whole)
}

// The parts of each of the idempotents at which u is a number.
fn split(
    alloc: Global,
    a: &Algebra,
    u: &[u32],
    es: &[List<u32>],
) -> Result<List<List<u32>>, NoMemory>
    requires u { IsElement a.now u.now }
    requires fixed { IsFixed a.now u.now }
    requires es { AreIdempotents a.now es.now }
    ensures parts { IfOk result (λ parts. AreIdempotents a.now parts) }
    ensures numbers { IfOk result (λ parts. All (IsNumberAt a.now u.now) parts) }
    ensures keeps { IfOk result (λ parts. (v : List ℕ) → All (IsNumberAt a.now v) es.now → All (IsNumberAt a.now v) parts) }
{
    let _one = a.one();
    let _p = a.prime().get();
    let table = a.multiplication(u)?;
    let mut found = List::new(alloc);
    for i in 0..es.len() {
        let parts = pieces(alloc, a, u, table.as_slice(), es[i].as_slice())?;
        found = put_together(found, parts)?;
    }
    Ok(found)
}

// Residues of a fixed sequence that begins at the seed.
pub(crate) fn mixture(
    alloc: Global,
    prime: Prime,
    count: usize,
    seed: u32,
) -> Result<List<u32>, NoMemory>
    ensures { IfOk result (λ row. (length row ≡ count) × AreResidues prime row) }
{
    let p = prime.get();
    let mut row = List::new(alloc);
    let mut state = seed;
    for _place in 0..count {
        state = state.wrapping_mul(1664525).wrapping_add(1013904223);
        row.push(state / 65536 % p)?;
    }
    Ok(row)
}

// So many sums of fixed elements are tried before the elements themselves: nearly always one of them
// has another value at each idempotent where p is large.
const TRIES: u32 = 16;

// Up to this dimension, and from this prime on, powers of the element are cheaper than all residues.
const SMALL_DIMENSION: usize = 24;

const LARGE_PRIME: u32 = 1024;

// The element to the power (p - 1) / 2, which is 0, 1 or -1 at each idempotent, where that is cheap; else
// the element itself.
fn character(a: &Algebra, u: List<u32>) -> Result<List<u32>, NoMemory>
    requires element { IsElement a.now u }
    requires fixed { IsFixed a.now u }
    ensures element { IfOk result (λ v. IsElement a.now v) }
    ensures fixed { IfOk result (λ v. IsFixed a.now v) }
{
    let _one = a.one();
    let p = a.prime().get();
    if a.dimension() > SMALL_DIMENSION || p < LARGE_PRIME {
        return Ok(u);
    }
    let v = a.power(u.as_slice(), (p / 2) as u64)?;
    Ok(v)
}

// The parts of the idempotents by a sum of multiples of the fixed elements; the idempotents themselves
// where there are as many of them as of the fixed elements.
fn split_by_sum(
    alloc: Global,
    a: &Algebra,
    us: &[List<u32>],
    seed: u32,
    es: List<List<u32>>,
) -> Result<List<List<u32>>, NoMemory>
    requires fixed { AreFixed a.now us.now }
    requires es { AreIdempotents a.now es }
    ensures { IfOk result (λ parts. AreIdempotents a.now parts) }
{
    let _one = a.one();
    let _p = a.prime().get();
    if us.len() <= es.len() {
        return Ok(es);
    }
    let factors = mixture(alloc, a.prime(), us.len(), seed)?;
    let u = image(alloc, a.prime(), us, a.dimension(), factors.as_slice())?;
    let v = character(a, u)?;
    let parts = split(alloc, a, v.as_slice(), es.as_slice())?;
    Ok(parts)
}

// The one, split by sums of multiples of the fixed elements.
fn split_by_sums(alloc: Global, a: &Algebra, us: &[List<u32>]) -> Result<List<List<u32>>, NoMemory>
    requires dimension { 0 < a.now.dimension }
    requires fixed { AreFixed a.now us.now }
    ensures { IfOk result (λ es. AreIdempotents a.now es) }
{
    let _one = a.one();
    let _p = a.prime().get();
    let mut es = single(alloc, a.one())?;
    for seed in 0..TRIES {
        es = split_by_sum(alloc, a, us, seed, es)?;
    }
    Ok(es)
}

// The space that the elements span.
fn span(a: &Algebra, es: &[List<u32>]) -> Result<Space, NoMemory>
    requires { All (IsElement a.now) es.now }
    ensures shape { IfOk result (λ space. (space.prime ≡ a.now.prime) × (space.width ≡ a.now.dimension)) }
    ensures members { IfOk result (λ space. (f : List ℕ) → IsIn space f → InSpan (elements a.now) es.now f) }
{
    let _p = a.prime().get();
    let mut space = Space::new(a.allocator(), a.prime(), a.dimension());
    space.add_rows(es)?;
    Ok(space)
}

// The parts by u with the space that they span; the idempotents and their space themselves where u is
// in it.
fn split_outside(
    alloc: Global,
    a: &Algebra,
    u: &[u32],
    es: List<List<u32>>,
    space: Space,
) -> Result<(List<List<u32>>, Space), NoMemory>
    requires u { IsElement a.now u.now }
    requires fixed { IsFixed a.now u.now }
    requires es { AreIdempotents a.now es }
    requires shape { (space.prime ≡ a.now.prime) × (space.width ≡ a.now.dimension) }
    requires members { (f : List ℕ) → IsIn space f → InSpan (elements a.now) es f }
    ensures parts { IfOk result (λ made. AreIdempotents a.now made.0) }
    ensures numbers { IfOk result (λ made. All (IsNumberAt a.now u.now) made.0) }
    ensures keeps { IfOk result (λ made. (v : List ℕ) → All (IsNumberAt a.now v) es → All (IsNumberAt a.now v) made.0) }
    ensures shape { IfOk result (λ made. (made.1.prime ≡ a.now.prime) × (made.1.width ≡ a.now.dimension)) }
    ensures members { IfOk result (λ made. (f : List ℕ) → IsIn made.1 f → InSpan (elements a.now) made.0 f) }
{
    let _one = a.one();
    let _p = a.prime().get();
    let inside = space.contains(u)?;
    if inside {
        return Ok((es, space));
    }
    let parts = split(alloc, a, u, es.as_slice())?;
    let whole = span(a, parts.as_slice())?;
    Ok((parts, whole))
}

/// Orthogonal idempotents with the one as their sum, at each of which each of the fixed elements `us` is
/// a number.
pub(crate) fn idempotents(
    alloc: Global,
    a: &Algebra,
    us: &[List<u32>],
) -> Result<List<List<u32>>, NoMemory>
    requires dimension { 0 < a.now.dimension }
    requires fixed { AreFixed a.now us.now }
    ensures idempotents { IfOk result (λ es. AreIdempotents a.now es) }
    ensures numbers { IfOk result (λ es. (k : ℕ) → k < length us.now → All (IsNumberAt a.now (slice_index_or us.now k [])) es) }
{
    let _one = a.one();
    let _p = a.prime().get();
    let mut es = split_by_sums(alloc, a, us)?;
    let mut whole = span(a, es.as_slice())?;
    for k in 0..us.len() {
        let (parts, space) = split_outside(alloc, a, us[k].as_slice(), es, whole)?;
        es = parts;
        whole = space;
    }
    Ok(es)
}
