// Spaces of rows behind zeros, and spaces of sums that are taken into a space.
ghost use Rattle.std.specs.Prelude.{◌≡◌, ◌↔◌, ℕ, ◌+◌, List, length, All, IfOk};
ghost use Rattle.row_space.specs.Echelon.{IsRow};
ghost use Rattle.row_space.specs.Subspace.{FitsIn, IsIn};
ghost use Rattle.over_module.specs.Raising.{IsRaised};
ghost use Rattle.endo_ring.specs.Taken.{IsTakenSum};

use finite_algebra::images_of;
use lists::{List, NoMemory};
use over_module::{all_behind, spanned};
use row_space::Space;
use std::alloc::Global;

// The rows of the space, each behind so many zeros; they have `width` entries.
pub(crate) fn behind_space(
    alloc: Global,
    zeros: usize,
    space: &Space,
    width: usize,
) -> Result<Space, NoMemory>
    requires { width ≡ zeros + space.now.width }
    ensures { IfOk result (IsRaised zeros space.now) }
{
    let prime = space.prime();
    let _modulus = prime.get();
    let rows = all_behind(alloc, zeros, space.rows())?;
    let found = spanned(alloc, prime, width, rows.as_slice())?;
    Ok(found)
}

// The sums of multiples of the rows for which the sums of the same multiples of `images` are in the space.
pub(crate) fn taken_sums(
    alloc: Global,
    space: &Space,
    images: &[List<u32>],
    width: usize,
    rows: &[List<u32>],
) -> Result<Space, NoMemory>
    requires count { length images.now ≡ length rows.now }
    requires images { All (FitsIn space.now) images.now }
    requires rows { All (IsRow space.now.prime width) rows.now }
    ensures shape { IfOk result (λ s. (s.prime ≡ space.now.prime) × (s.width ≡ width)) }
    ensures members { IfOk result (λ s. (row : List ℕ) → IsIn s row ↔ IsTakenSum space.now images.now width rows.now row) }
{
    let prime = space.prime();
    let _modulus = prime.get();
    let coefficients = space.preimage(images)?;
    let sums = images_of(alloc, prime, rows, width, coefficients.rows())?;
    let found = spanned(alloc, prime, width, sums.as_slice())?;
    Ok(found)
}
