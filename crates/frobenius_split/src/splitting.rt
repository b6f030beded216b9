// The radical, and the maximal ideals.
ghost use Rattle.std.specs.Prelude.{◌≡◌, ◌+◌, ◌<◌, length, map, All, IfOk};
ghost use Rattle.frobenius_map.specs.Nilpotent.{IsRadicalOf};
ghost use Rattle.frobenius_split.specs.Points.{IsMaximalIdeal, AreMaximalIdeals};
ghost use Rattle.frobenius_split.specs.Idempotents.{AreIdempotentsOf};

use super::ideals::ideals_at;
use super::idempotents::idempotents;
use super::parts_are_maximal;
use finite_algebra::Algebra;
use frobenius_map::{fixed_elements, nilpotent_elements, powers};
use lists::{List, NoMemory};
use row_space::Space;
use std::alloc::Global;

/// A maximal ideal as a space of elements, and the dimension of the algebra modulo it.
#[derive(Drop)]
pub struct SplitPoint {
    pub space: Space,
    pub degree: u32,
}

/// The nilpotent elements.
pub fn radical(a: &Algebra) -> Result<Space, NoMemory>
    ensures { IfOk result (λ space. IsRadicalOf a.now space) }
{
    let alloc = a.allocator();
    let matrix = powers(alloc, a)?;
    let space = nilpotent_elements(alloc, a, matrix.as_slice())?;
    Ok(space)
}

// An ideal with the dimension modulo it.
pub(crate) fn point_of(a: &Algebra, space: Space) -> SplitPoint
    requires { IsMaximalIdeal a.now space }
    ensures space { result.space ≡ space }
    ensures degree { result.degree + length space.basis ≡ a.now.dimension }
{
    let _one = a.one();
    let _p = a.prime().get();
    let degree = a.dimension_u32() - space.dimension() as u32;
    SplitPoint { space, degree }
}

// The maximal ideals, where the dimension is not 0, and the idempotents that the fixed elements split no
// further: the ideals are those at them.
pub(crate) fn maximal_ideals(
    alloc: Global,
    a: &Algebra,
) -> Result<(List<Space>, List<List<u32>>), NoMemory>
    requires { 0 < a.now.dimension }
    ensures ideals { IfOk result (λ made. AreMaximalIdeals a.now made.0) }
    ensures idempotents { IfOk result (λ made. AreIdempotentsOf a.now made.0 made.1) }
{
    parts_are_maximal();
    let _one = a.one();
    let _p = a.prime().get();
    let matrix = powers(alloc, a)?;
    let nilpotent = nilpotent_elements(alloc, a, matrix.as_slice())?;
    let fixed = fixed_elements(alloc, a, matrix.as_slice())?;
    let es = idempotents(alloc, a, fixed.rows())?;
    let ideals = ideals_at(alloc, a, &nilpotent, es.as_slice())?;
    Ok((ideals, es))
}

/// The maximal ideals, each once, with the dimensions modulo them. An algebra of dimension 0 has none.
///
/// The elements that the p-th power fixes split the one into idempotents, by polynomials in one of them
/// and their roots; a maximal ideal holds the elements whose product with one idempotent is nilpotent.
/// It takes few matrices of multiplication and eliminations nearly always, n^3 steps each, and n^2 steps for
/// each dimension of a residue field.
pub fn points(a: &Algebra) -> Result<List<SplitPoint>, NoMemory>
    ensures ideals { IfOk result (λ points. AreMaximalIdeals a.now (map (λ point. point.space) points)) }
    ensures degrees { IfOk result (λ points. All (λ point. point.degree + length point.space.basis ≡ a.now.dimension) points) }
{
    let alloc = a.allocator();
    let _one = a.one();
    let _p = a.prime().get();
    let mut found = List::new(alloc);
    if a.dimension() == 0 {
        return Ok(found);
    }
    let (ideals, _es) = maximal_ideals(alloc, a)?;
    for space in ideals.into_vec() {
        found.push(point_of(a, space))?;
    }
    Ok(found)
}
