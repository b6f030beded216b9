// Hand-computed rows over small fields.
ghost use Rattle.std.specs.Prelude.{◌≡◌, ◌↔◌, IfOk, IsTrue, All, length};
ghost use Rattle.row_space.specs.Echelon.{IsRow};

use super::elimination::copy_of;
use super::{Insert, Space, kernel};
use lists::{List, NoMemory};
use prime_field::Prime;
use std::alloc::Global;
use std::process::Abort;
use std::test::Fail;

fn is_row(prime: Prime, width: usize, row: &[u32]) -> bool
    ensures { IsTrue result ↔ IsRow prime width row.now }
{
    let p = prime.get();
    row.len() == width && row.iter().all(|x| *x < p)
}

fn prime_of(rt: &impl Abort, p: u32) -> Prime
    ensures { result ≡ p }
{
    Prime::new(p).expect(rt, "a prime of the table")
}

// The row, which is checked to be one of residues.
fn row_of(rt: &impl Abort, alloc: Global, prime: Prime, row: &[u32]) -> Result<List<u32>, NoMemory>
    ensures { IfOk result (λ made. IsRow prime (length row.now) made) }
{
    assert!(rt; is_row(prime, row.len(), row));
    Ok(List::of_vec(copy_of(alloc, row)?))
}

fn rows_of(
    rt: &impl Abort,
    alloc: Global,
    prime: Prime,
    rows: &[[u32; 2]],
) -> Result<List<List<u32>>, NoMemory>
    ensures { IfOk result (λ made. All (IsRow prime 2) made) }
{
    let mut made = List::new(alloc);
    for row in rows {
        made.push(row_of(rt, alloc, prime, row)?)?;
    }
    Ok(made)
}

// Inserts the row and answers whether it was new, or else the residues that were said.
fn inserted(
    rt: &impl Abort,
    space: &mut Space,
    prime: Prime,
    row: &[u32],
) -> Result<Option<List<u32>>, NoMemory>
    requires { (space.old.prime ≡ prime) × (space.old.width ≡ length row.now) }
    ensures { IfOk result (λ _. (space.new.prime ≡ prime) × (space.new.width ≡ length row.now)) }
{
    assert!(rt; is_row(prime, row.len(), row));
    match space.insert(row)? {
        Insert::Inserted => Ok(None),
        Insert::Dependent(residues) => Ok(Some(residues)),
    }
}

// The space that the rows span.
fn spanned(
    rt: &impl Abort,
    alloc: Global,
    prime: Prime,
    rows: &[[u32; 3]],
) -> Result<Space, NoMemory>
    ensures { IfOk result (λ space. (space.prime ≡ prime) × (space.width ≡ 3)) }
{
    let mut space = Space::new(alloc, prime, 3);
    for row in rows {
        let _residues = inserted(rt, &mut space, prime, row)?;
    }
    Ok(space)
}

fn has_rows(space: &Space, expected: &[[u32; 3]]) -> bool {
    let rows = space.rows();
    rows.len() == expected.len()
        && rows
            .iter()
            .zip(expected)
            .all(|(row, wanted)| row.as_slice() == wanted.as_slice())
}

#[test]
fn inserting_reducing_and_containing(rt: HostRuntime) -> Result<(), Fail> {
    let prime = prime_of(&rt, 7);
    let mut space = Space::new(rt.alloc(), prime, 3);
    assert!(rt;
        inserted(&rt, &mut space, prime, &[0, 0, 0])?
            .ok_or("new")?
            .as_slice()
            .is_empty()
    );
    assert!(rt; inserted(&rt, &mut space, prime, &[1, 2, 3])?.is_none());
    assert_eq!(rt;
        inserted(&rt, &mut space, prime, &[2, 4, 6])?
            .ok_or("new")?
            .as_slice(),
        [2].as_slice()
    );
    assert!(rt; inserted(&rt, &mut space, prime, &[0, 5, 5])?.is_none());
    assert!(rt; has_rows(&space, &[[1, 0, 1], [0, 1, 1]]));
    assert_eq!(rt;
        inserted(&rt, &mut space, prime, &[3, 5, 1])?
            .ok_or("new")?
            .as_slice(),
        [3, 5].as_slice()
    );
    assert_eq!(rt; space.dimension(), 2);
    let mut row = [1, 1, 3];
    assert!(rt; is_row(prime, 3, &row));
    assert!(rt; !space.contains(&row)?);
    space.reduce(&mut row);
    assert_eq!(rt; row.as_slice(), [0, 0, 1].as_slice());
    assert!(rt; is_row(prime, 3, &[1, 1, 2]));
    assert!(rt; space.contains(&[1, 1, 2])?);
    Ok(())
}

#[test]
fn rows_of_length_zero(rt: HostRuntime) -> Result<(), Fail> {
    let prime = prime_of(&rt, 32003);
    let mut space = Space::new(rt.alloc(), prime, 0);
    assert!(rt;
        inserted(&rt, &mut space, prime, &[])?
            .ok_or("new")?
            .as_slice()
            .is_empty()
    );
    assert_eq!(rt; space.dimension(), 0);
    Ok(())
}

#[test]
fn sums_and_intersections(rt: HostRuntime) -> Result<(), Fail> {
    let prime = prime_of(&rt, 2);
    let one = spanned(&rt, rt.alloc(), prime, &[[1, 1, 0], [0, 1, 0]])?;
    let other = spanned(&rt, rt.alloc(), prime, &[[0, 1, 1], [0, 1, 0]])?;
    let both = one.intersect(&other)?;
    assert!(rt; has_rows(&both, &[[0, 1, 0]]));
    let whole = one.sum(&other)?;
    assert!(rt; has_rows(&whole, &[[1, 0, 0], [0, 1, 0], [0, 0, 1]]));
    let zero = spanned(&rt, rt.alloc(), prime, &[])?;
    assert_eq!(rt; one.intersect(&zero)?.dimension(), 0);
    assert!(rt; has_rows(&zero.sum(&both)?, &[[0, 1, 0]]));
    Ok(())
}

#[test]
fn kernels_and_preimages(rt: HostRuntime) -> Result<(), Fail> {
    let prime = prime_of(&rt, 5);
    let matrix = rows_of(&rt, rt.alloc(), prime, &[[1, 2], [2, 4], [0, 1]])?;
    let zero = kernel(rt.alloc(), prime, matrix.as_slice(), 2)?;
    assert!(rt; has_rows(&zero, &[[1, 2, 0]]));
    let mut diagonal = Space::new(rt.alloc(), prime, 2);
    assert!(rt; inserted(&rt, &mut diagonal, prime, &[1, 1])?.is_none());
    let taken = diagonal.preimage(matrix.as_slice())?;
    assert!(rt; has_rows(&taken, &[[1, 0, 4], [0, 1, 3]]));
    let all = kernel(rt.alloc(), prime, &[], 2)?;
    assert_eq!(rt; all.dimension(), 0);
    Ok(())
}
