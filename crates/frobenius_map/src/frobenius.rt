// What the p-th power map takes to 0 at last, and what it fixes.
ghost use Rattle.std.specs.Prelude.{ℕ, suc, IfOk};
ghost use Rattle.frobenius_map.specs.Nilpotent.{IsRadicalOf};
ghost use Rattle.frobenius_map.specs.Powers.{ArePowers, IsStage, IsFixedSpace};

use finite_algebra::Algebra;
use lists::{List, NoMemory};
use row_matrices::less_scalar;
use row_space::{Space, kernel};
use std::alloc::Global;

// The elements that the matrix takes to the space.
fn one_back(a: &Algebra, space: &Space, matrix: &[List<u32>]) -> Result<Space, NoMemory>
    requires matrix { ArePowers a.now matrix.now }
    requires stage { (e : ℕ) × IsStage a.now e space.now }
    ensures { IfOk result (λ next. (e : ℕ) → IsStage a.now e space.now → IsStage a.now (suc e) next) }
{
    let _one = a.one();
    let _p = a.prime().get();
    let next = space.preimage(matrix)?;
    Ok(next)
}

/// The nilpotent elements, by the matrix of the p-th powers.
///
/// It takes the elements that go to 0 in no step, in one step, and so on, until a step gains nothing.
pub fn nilpotent_elements(
    alloc: Global,
    a: &Algebra,
    matrix: &[List<u32>],
) -> Result<Space, NoMemory>
    requires { ArePowers a.now matrix.now }
    ensures { IfOk result (λ space. IsRadicalOf a.now space) }
{
    let _one = a.one();
    let _p = a.prime().get();
    let mut found = Space::new(alloc, a.prime(), a.dimension());
    let mut next = one_back(a, &found, matrix)?;
    while found.dimension() < next.dimension() {
        let more = one_back(a, &next, matrix)?;
        found = next;
        next = more;
    }
    Ok(found)
}

/// The elements that the p-th power fixes, by its matrix.
pub fn fixed_elements(alloc: Global, a: &Algebra, matrix: &[List<u32>]) -> Result<Space, NoMemory>
    requires { ArePowers a.now matrix.now }
    ensures { IfOk result (λ space. IsFixedSpace a.now space) }
{
    let _one = a.one();
    let _p = a.prime().get();
    let less = less_scalar(alloc, a.prime(), matrix, 1)?;
    let fixed = kernel(alloc, a.prime(), less.as_slice(), a.dimension())?;
    let _rows = fixed.rows();
    Ok(fixed)
}
