// The maximal ideals, each with its idempotent and the values of the basis elements.
ghost use Rattle.std.specs.Prelude.{◌≡◌, ◌+◌, ◌<◌, length, map, All, IfOk};
ghost use Rattle.finite_algebra.specs.Projections.{IsProjection};
ghost use Rattle.frobenius_split.specs.Points.{IsMaximalIdeal, AreMaximalIdeals};
ghost use Rattle.frobenius_split.specs.Idempotents.{AreIdempotentsOf};

use super::splitting::{SplitPoint, maximal_ideals, point_of};
use finite_algebra::Algebra;
use lists::{List, NoMemory};
use row_space::Space;

/// A maximal ideal with its degree g; an idempotent that is 1 modulo it and lies in every other one; and
/// the values of the basis elements modulo it, n rows of g residues. The value of an element x is the sum
/// of all x_i times row i, and it is 0 exactly where x is in the ideal.
#[derive(Drop)]
pub struct LocalPoint {
    pub point: SplitPoint,
    pub idempotent: List<u32>,
    pub values: List<List<u32>>,
}

// An ideal with its degree, the element and the values of the basis.
fn local_point(a: &Algebra, space: Space, e: &[u32]) -> Result<LocalPoint, NoMemory>
    requires { IsMaximalIdeal a.now space }
    ensures space { IfOk result (λ local. local.point.space ≡ space) }
    ensures idempotent { IfOk result (λ local. local.idempotent ≡ e.now) }
    ensures values { IfOk result (λ local. IsProjection a.now local.point.space local.point.degree local.values) }
{
    let values = a.projection(&space)?;
    let point = point_of(a, space);
    let idempotent = List::from_slice(a.allocator(), e)?;
    Ok(LocalPoint {
        point,
        idempotent,
        values,
    })
}

/// The maximal ideals, each once, with their idempotents and the values of the basis elements; in the
/// order of `points`. An algebra of dimension 0 has none.
///
/// Beside the cost of `points`, each takes n looks at the basis of its ideal.
pub fn local_points(a: &Algebra) -> Result<List<LocalPoint>, NoMemory>
    ensures ideals { IfOk result (λ locals. AreMaximalIdeals a.now (map (λ local. local.point.space) locals)) }
    ensures idempotents { IfOk result (λ locals. AreIdempotentsOf a.now (map (λ local. local.point.space) locals) (map (λ local. local.idempotent) locals)) }
    ensures values { IfOk result (λ locals. All (λ local. IsProjection a.now local.point.space local.point.degree local.values) locals) }
{
    let alloc = a.allocator();
    let _one = a.one();
    let _p = a.prime().get();
    let mut found = List::new(alloc);
    if a.dimension() == 0 {
        return Ok(found);
    }
    let (ideals, idempotents) = maximal_ideals(alloc, a)?;
    let es = idempotents.as_slice();
    for space in ideals.into_vec() {
        let local = local_point(a, space, es[found.len()].as_slice())?;
        found.push(local)?;
    }
    Ok(found)
}
