// Elements in the parts of idempotents that span the algebra together with the nilpotent elements, and
// the ideals at the idempotents by the coordinates that they give.
ghost use Rattle.std.specs.Prelude.{◌≡◌, ℕ, ◌++◌, ◌∷◌, ◌<◌, [], length, slice_index_or, All, IfOk, OnOk, MatchOption};
ghost use Rattle.row_space.specs.Echelon.{IsRow};
ghost use Rattle.finite_algebra.specs.Elements.{AreProducts, IsElement, elements, times};
ghost use Rattle.frobenius_map.specs.Nilpotent.{IsRadicalOf};
ghost use Rattle.frobenius_split.specs.Points.{at};
ghost use Rattle.frobenius_split.specs.Idempotents.{AreIdempotents, IsIdealAt};
ghost use Rattle.frobenius_split.specs.Frames.{ArePlacesOf, IsFrame};
ghost use Rattle.row_matrices.specs.Inverses.{IsInverse};

use super::idempotents::mixture;
use super::polynomials::product_with;
use finite_algebra::{Algebra, at_all_places};
use lists::{List, NoMemory};
use row_matrices::{copy_of, inverse_of, kernel_backward};
use row_space::{Insert, Space};
use std::alloc::Global;

// Elements, and beside each the number of an idempotent whose product with it is the element.
#[derive(Drop)]
struct Frame {
    rows: List<List<u32>>,
    numbers: List<usize>,
}

// The frame with one more element.
fn with_row(frame: Frame, row: List<u32>, k: usize) -> Result<Frame, NoMemory>
    ensures rows { IfOk result (λ made. made.rows ≡ frame.rows ++ row ∷ []) }
    ensures numbers { IfOk result (λ made. made.numbers ≡ frame.numbers ++ k ∷ []) }
{
    let mut frame = frame;
    frame.rows.push(row)?;
    frame.numbers.push(k)?;
    Ok(frame)
}

// Adds the row to the space, and says whether it is new.
fn put(space: &mut Space, row: &[u32]) -> Result<bool, NoMemory>
    requires { IsRow space.old.prime space.old.width row.now }
    ensures { OnOk result ((space.new.prime ≡ space.old.prime) × (space.new.width ≡ space.old.width)) }
{
    match space.insert(row)? {
        Insert::Inserted => Ok(true),
        Insert::Dependent(_residues) => Ok(false),
    }
}

// The frame with the element, if that is new in the space, and whether it is.
fn offered(
    a: &Algebra,
    es: &[List<u32>],
    k: usize,
    row: &[u32],
    frame: Frame,
    space: &mut Space,
) -> Result<(Frame, bool), NoMemory>
    requires k { k < length es.now }
    requires row { IsElement a.now row.now }
    requires inside { (elements a.now).◌≋◌ (times a.now row.now (slice_index_or es.now k [])) row.now }
    requires frame { IsFrame a.now es.now frame.rows frame.numbers }
    requires space { (space.old.prime ≡ a.now.prime) × (space.old.width ≡ a.now.dimension) }
    ensures frame { IfOk result (λ made. IsFrame a.now es.now made.0.rows made.0.numbers) }
    ensures space { OnOk result ((space.new.prime ≡ a.now.prime) × (space.new.width ≡ a.now.dimension)) }
{
    let new = put(space, row)?;
    if !new {
        return Ok((frame, false));
    }
    let copy = List::of_vec(copy_of(a.allocator(), row)?);
    let more = with_row(frame, copy, k)?;
    Ok((more, true))
}

// The frame with those of the idempotents that are new in the space.
fn first_frame(
    alloc: Global,
    a: &Algebra,
    es: &[List<u32>],
    space: &mut Space,
) -> Result<Frame, NoMemory>
    requires es { AreIdempotents a.now es.now }
    requires space { (space.old.prime ≡ a.now.prime) × (space.old.width ≡ a.now.dimension) }
    ensures frame { IfOk result (λ made. IsFrame a.now es.now made.rows made.numbers) }
    ensures space { OnOk result ((space.new.prime ≡ a.now.prime) × (space.new.width ≡ a.now.dimension)) }
{
    let _one = a.one();
    let _p = a.prime().get();
    let mut frame = Frame {
        rows: List::new(alloc),
        numbers: List::new(alloc),
    };
    for k in 0..es.len() {
        let (more, _new) = offered(a, es, k, es[k].as_slice(), frame, space)?;
        frame = more;
    }
    Ok(frame)
}

// The frame with the products of the idempotent k and the powers of y from 1 on, up to the first that is
// not new in the space. The table has the products with y.
fn grown(
    alloc: Global,
    a: &Algebra,
    es: &[List<u32>],
    k: usize,
    y: &[u32],
    table: &[List<u32>],
    frame: Frame,
    space: &mut Space,
) -> Result<Frame, NoMemory>
    requires es { AreIdempotents a.now es.now }
    requires k { k < length es.now }
    requires table { AreProducts a.now y.now table.now }
    requires frame { IsFrame a.now es.now frame.rows frame.numbers }
    requires space { (space.old.prime ≡ a.now.prime) × (space.old.width ≡ a.now.dimension) }
    ensures frame { IfOk result (λ made. IsFrame a.now es.now made.rows made.numbers) }
    ensures space { OnOk result ((space.new.prime ≡ a.now.prime) × (space.new.width ≡ a.now.dimension)) }
{
    let _one = a.one();
    let _p = a.prime().get();
    let mut frame = frame;
    let mut row = product_with(alloc, a, y, table, es[k].as_slice())?;
    for _exponent in 0..a.dimension() {
        let (more, new) = offered(a, es, k, row.as_slice(), frame, space)?;
        frame = more;
        if !new {
            return Ok(frame);
        }
        row = product_with(alloc, a, y, table, row.as_slice())?;
    }
    Ok(frame)
}

// The frame with such products for each of the idempotents.
fn grown_by(
    alloc: Global,
    a: &Algebra,
    es: &[List<u32>],
    y: &[u32],
    frame: Frame,
    space: &mut Space,
) -> Result<Frame, NoMemory>
    requires es { AreIdempotents a.now es.now }
    requires y { IsElement a.now y.now }
    requires frame { IsFrame a.now es.now frame.rows frame.numbers }
    requires space { (space.old.prime ≡ a.now.prime) × (space.old.width ≡ a.now.dimension) }
    ensures frame { IfOk result (λ made. IsFrame a.now es.now made.rows made.numbers) }
    ensures space { OnOk result ((space.new.prime ≡ a.now.prime) × (space.new.width ≡ a.now.dimension)) }
{
    let _one = a.one();
    let _p = a.prime().get();
    let table = a.multiplication(y)?;
    let mut frame = frame;
    for k in 0..es.len() {
        frame = grown(alloc, a, es, k, y, table.as_slice(), frame, space)?;
    }
    Ok(frame)
}

// The frame grown by an element of a fixed sequence, unless the space is the whole algebra.
fn grown_by_seed(
    alloc: Global,
    a: &Algebra,
    es: &[List<u32>],
    seed: u32,
    frame: Frame,
    space: &mut Space,
) -> Result<Frame, NoMemory>
    requires es { AreIdempotents a.now es.now }
    requires frame { IsFrame a.now es.now frame.rows frame.numbers }
    requires space { (space.old.prime ≡ a.now.prime) × (space.old.width ≡ a.now.dimension) }
    ensures frame { IfOk result (λ made. IsFrame a.now es.now made.rows made.numbers) }
    ensures space { OnOk result ((space.new.prime ≡ a.now.prime) × (space.new.width ≡ a.now.dimension)) }
{
    let _p = a.prime().get();
    if space.dimension() == a.dimension() {
        return Ok(frame);
    }
    let y = mixture(alloc, a.prime(), a.dimension(), seed)?;
    let made = grown_by(alloc, a, es, y.as_slice(), frame, space)?;
    Ok(made)
}

// So many elements are tried: one nearly always gives all residue fields where p is large.
const TRIES: u32 = 8;

// Elements in the parts of the idempotents that nearly always span the algebra together with the
// nilpotent elements, and are independent modulo these.
fn frame_at(
    alloc: Global,
    a: &Algebra,
    nilpotent: &Space,
    es: &[List<u32>],
) -> Result<Frame, NoMemory>
    requires nilpotent { IsRadicalOf a.now nilpotent.now }
    requires es { AreIdempotents a.now es.now }
    ensures { IfOk result (λ made. IsFrame a.now es.now made.rows made.numbers) }
{
    let _one = a.one();
    let _p = a.prime().get();
    let mut space = Space::new(alloc, a.prime(), a.dimension());
    space.add_rows(nilpotent.rows())?;
    let mut frame = first_frame(alloc, a, es, &mut space)?;
    for seed in 0..TRIES {
        frame = grown_by_seed(alloc, a, es, seed, frame, &mut space)?;
    }
    Ok(frame)
}

// The rows, and then those of the second list.
fn joined(
    alloc: Global,
    rows: &[List<u32>],
    more: &[List<u32>],
) -> Result<List<List<u32>>, NoMemory>
    ensures { IfOk result (λ made. made ≡ rows.now ++ more.now) }
{
    let mut made = copies(alloc, rows)?;
    let mut rest = copies(alloc, more)?;
    made.append(&mut rest)?;
    Ok(made)
}

fn copies(alloc: Global, rows: &[List<u32>]) -> Result<List<List<u32>>, NoMemory>
    ensures { IfOk result (λ made. made ≡ rows.now) }
{
    let mut made = List::new(alloc);
    for i in 0..rows.len() {
        let row = copy_of(alloc, rows[i].as_slice())?;
        made.push(List::of_vec(row))?;
    }
    Ok(made)
}

// The places at which the number k stands.
fn places_of(alloc: Global, numbers: &[usize], k: usize) -> Result<List<usize>, NoMemory>
    ensures { IfOk result (λ places. ArePlacesOf numbers.now (length numbers.now) k places) }
{
    let mut places = List::new(alloc);
    for j in 0..numbers.len() {
        if numbers[j] == k {
            places.push(j)?;
        }
    }
    Ok(places)
}

// The ideal at the idempotent k: the elements whose coordinates at its own elements are 0.
fn ideal_of(
    alloc: Global,
    a: &Algebra,
    nilpotent: &Space,
    es: &[List<u32>],
    frame: &Frame,
    inverse: &[List<u32>],
    k: usize,
) -> Result<Space, NoMemory>
    requires nilpotent { IsRadicalOf a.now nilpotent.now }
    requires es { AreIdempotents a.now es.now }
    requires frame { IsFrame a.now es.now frame.now.rows frame.now.numbers }
    requires inverse { IsInverse a.now.prime a.now.dimension (frame.now.rows ++ nilpotent.now.basis) inverse.now }
    requires k { k < length es.now }
    ensures { IfOk result (λ space. IsIdealAt a.now nilpotent.now (slice_index_or es.now k []) space) }
{
    let _one = a.one();
    let _p = a.prime().get();
    let places = places_of(alloc, frame.numbers.as_slice(), k)?;
    let values = at_all_places(alloc, places.as_slice(), inverse)?;
    let space = kernel_backward(alloc, a.prime(), values.as_slice(), places.len())?;
    Ok(space)
}

// The ideals at all the idempotents.
fn ideals_of(
    alloc: Global,
    a: &Algebra,
    nilpotent: &Space,
    es: &[List<u32>],
    frame: &Frame,
    inverse: &[List<u32>],
) -> Result<List<Space>, NoMemory>
    requires nilpotent { IsRadicalOf a.now nilpotent.now }
    requires es { AreIdempotents a.now es.now }
    requires frame { IsFrame a.now es.now frame.now.rows frame.now.numbers }
    requires inverse { IsInverse a.now.prime a.now.dimension (frame.now.rows ++ nilpotent.now.basis) inverse.now }
    ensures count { IfOk result (λ spaces. length spaces ≡ length es.now) }
    ensures spaces { IfOk result (λ spaces. (i : ℕ) → i < length es.now → IsIdealAt a.now nilpotent.now (slice_index_or es.now i []) (at spaces i)) }
{
    let mut spaces = List::new(alloc);
    for k in 0..es.len() {
        let space = ideal_of(alloc, a, nilpotent, es, frame, inverse, k)?;
        spaces.push(space)?;
    }
    Ok(spaces)
}

/// The ideals at the idempotents, where elements in their parts and the nilpotent elements were found to
/// be a basis of the algebra.
///
/// It takes a matrix of multiplication for each element that was tried, some 5 n^3 steps once, and n^2
/// steps for each dimension of a residue field.
pub(crate) fn ideals_by_frame(
    alloc: Global,
    a: &Algebra,
    nilpotent: &Space,
    es: &[List<u32>],
) -> Result<Option<List<Space>>, NoMemory>
    requires nilpotent { IsRadicalOf a.now nilpotent.now }
    requires es { AreIdempotents a.now es.now }
    ensures { IfOk result (λ found. MatchOption found (Unit {0}) (λ spaces. (length spaces ≡ length es.now) × ((i : ℕ) → i < length es.now → IsIdealAt a.now nilpotent.now (slice_index_or es.now i []) (at spaces i)))) }
{
    let _one = a.one();
    let _p = a.prime().get();
    let frame = frame_at(alloc, a, nilpotent, es)?;
    let rows = joined(alloc, frame.rows.as_slice(), nilpotent.rows())?;
    match inverse_of(alloc, a.prime(), a.dimension(), rows.as_slice())? {
        None => Ok(None),
        Some(inverse) => {
            let spaces = ideals_of(alloc, a, nilpotent, es, &frame, inverse.as_slice())?;
            Ok(Some(spaces))
        }
    }
}
