// The rows that a matrix takes to 0.
ghost use Rattle.std.specs.Prelude.{◌≡◌, ◌↔◌, ℕ, List, length, All, IfOk};
ghost use Rattle.row_space.specs.Echelon.{IsRow};
ghost use Rattle.row_space.specs.Subspace.{IsIn, IsZero, product};

use super::Space;
use lists::{List, NoMemory};
use prime_field::Prime;
use std::alloc::Global;

/// All rows v for which v times the matrix is 0. The rows of the matrix have `columns` entries, and v
/// has one entry for each of them.
pub fn kernel(
    alloc: Global,
    prime: Prime,
    matrix: &[List<u32>],
    columns: usize,
) -> Result<Space, NoMemory>
    requires { All (IsRow prime columns) matrix.now }
    ensures shape { IfOk result (λ s. (s.prime ≡ prime) × (s.width ≡ length matrix.now)) }
    ensures members { IfOk result (λ s. (v : List ℕ) → length v ≡ length matrix.now → IsIn s v ↔ IsZero prime columns (product prime columns v matrix.now)) }
{
    let zero = Space::new(alloc, prime, columns);
    let taken = zero.preimage(matrix)?;
    Ok(taken)
}
