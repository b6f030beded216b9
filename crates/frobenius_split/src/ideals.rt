// The ideals at idempotents.
ghost use Rattle.std.specs.Prelude.{◌≡◌, ℕ, ◌<◌, [], length, slice_index_or, All, IfOk};
ghost use Rattle.finite_algebra.specs.Elements.{IsElement};
ghost use Rattle.frobenius_map.specs.Nilpotent.{IsRadicalOf};
ghost use Rattle.frobenius_split.specs.Points.{at};
ghost use Rattle.frobenius_split.specs.Idempotents.{AreIdempotents, IsIdealAt};

use super::frames::ideals_by_frame;
use finite_algebra::Algebra;
use lists::{List, NoMemory};
use row_space::Space;
use std::alloc::Global;

// The elements whose product with e is nilpotent.
fn ideal_at(a: &Algebra, nilpotent: &Space, e: &[u32]) -> Result<Space, NoMemory>
    requires nilpotent { IsRadicalOf a.now nilpotent.now }
    requires e { IsElement a.now e.now }
    ensures { IfOk result (λ space. IsIdealAt a.now nilpotent.now e.now space) }
{
    let _one = a.one();
    let _p = a.prime().get();
    let table = a.multiplication(e)?;
    let space = nilpotent.preimage(table.as_slice())?;
    Ok(space)
}

// For each of the elements the space of those whose product with it is nilpotent.
fn ideals_one_by_one(
    alloc: Global,
    a: &Algebra,
    nilpotent: &Space,
    es: &[List<u32>],
) -> Result<List<Space>, NoMemory>
    requires nilpotent { IsRadicalOf a.now nilpotent.now }
    requires es { All (IsElement a.now) es.now }
    ensures count { IfOk result (λ spaces. length spaces ≡ length es.now) }
    ensures spaces { IfOk result (λ spaces. (i : ℕ) → i < length es.now → IsIdealAt a.now nilpotent.now (slice_index_or es.now i []) (at spaces i)) }
{
    let mut spaces = List::new(alloc);
    for i in 0..es.len() {
        let space = ideal_at(a, nilpotent, es[i].as_slice())?;
        spaces.push(space)?;
    }
    Ok(spaces)
}

/// For each of the idempotents the space of the elements whose product with it is nilpotent: by a basis
/// of the algebra in their parts, where one is found, and else one by one.
pub(crate) fn ideals_at(
    alloc: Global,
    a: &Algebra,
    nilpotent: &Space,
    es: &[List<u32>],
) -> Result<List<Space>, NoMemory>
    requires nilpotent { IsRadicalOf a.now nilpotent.now }
    requires es { AreIdempotents a.now es.now }
    ensures count { IfOk result (λ spaces. length spaces ≡ length es.now) }
    ensures spaces { IfOk result (λ spaces. (i : ℕ) → i < length es.now → IsIdealAt a.now nilpotent.now (slice_index_or es.now i []) (at spaces i)) }
{
    if let Some(spaces) = ideals_by_frame(alloc, a, nilpotent, es)? {
        return Ok(spaces);
    }
    let spaces = ideals_one_by_one(alloc, a, nilpotent, es)?;
    Ok(spaces)
}
