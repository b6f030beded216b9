// A complement of a space of rows in a greater one, and coordinates over it.
ghost use Rattle.std.specs.Prelude.{◌≡◌, ℕ, List, All, IfOk};
ghost use Rattle.row_space.specs.Subspace.{FitsIn, IsIn};
ghost use Rattle.point_quotient.specs.Complements.{AreCoordinates, AreRests, IsComplement, IsInWhole, IsRestModulo};

use lists::{List, NoMemory};
use over_module::spanned;
use row_space::{Insert, Space};
use std::alloc::Global;

// The one row that differs from the given one by a row of the part and is 0 at the part's pivots.
fn rest_of(alloc: Global, part: &Space, row: &[u32]) -> Result<List<u32>, NoMemory>
    requires { FitsIn part.now row.now }
    ensures rest { IfOk result (IsRestModulo part.now row.now) }
    ensures only { IfOk result (λ rest. (other : List ℕ) → IsRestModulo part.now row.now other → other ≡ rest) }
{
    let mut rest = List::from_slice(alloc, row)?;
    part.reduce(rest.as_mut_slice());
    Ok(rest)
}

// The rests of the rows.
fn rests(alloc: Global, part: &Space, rows: &[List<u32>]) -> Result<List<List<u32>>, NoMemory>
    requires { All (FitsIn part.now) rows.now }
    ensures { IfOk result (AreRests part.now rows.now) }
{
    let mut made = List::new(alloc);
    for row in rows {
        made.push(rest_of(alloc, part, row.as_slice())?)?;
    }
    Ok(made)
}

// A complement of the part in the whole, whose rows have `width` entries: the space of the rests of the whole's basis.
pub(crate) fn complement(
    alloc: Global,
    width: usize,
    part: &Space,
    whole: &Space,
) -> Result<Space, NoMemory>
    requires entries { width ≡ whole.now.width }
    requires prime { part.now.prime ≡ whole.now.prime }
    requires width { part.now.width ≡ whole.now.width }
    requires inside { All (IsIn whole.now) part.now.basis }
    ensures { IfOk result (IsComplement part.now whole.now) }
{
    let prime = whole.prime();
    let _modulus = prime.get();
    let _part = part.rows();
    let rows = rests(alloc, part, whole.rows())?;
    let made = spanned(alloc, prime, width, rows.as_slice())?;
    Ok(made)
}

// The coordinates of the row over the rows of a complement, modulo the part.
pub(crate) fn coordinates(
    alloc: Global,
    part: &Space,
    made: &mut Space,
    row: &[u32],
) -> Result<List<u32>, NoMemory>
    requires { IsInWhole part.now made.old row.now }
    ensures kept { made.new ≡ made.old }
    ensures coordinates { IfOk result (AreCoordinates part.now made.old row.now) }
{
    let _modulus = part.prime().get();
    let _part = part.rows();
    let rest = rest_of(alloc, part, row)?;
    match made.insert(rest.as_slice())? {
        Insert::Inserted => unreachable!(),
        Insert::Dependent(residues) => Ok(residues),
    }
}
