// A subspace of the rows of one length.
ghost use Rattle.std.specs.Prelude.{◌≡◌, ℕ, ◌+◌, ◌*◌, ◌<◌, ◌≤◌, ◌↔◌, List, [], ◌∷◌, ◌++◌, length, slice_index, slice_index_or, IfOk, OnOk, OnErr, IsTrue, map, drop};
ghost use Rattle.std.specs.List.{All};

use super::elimination::{add_row, at_pivots, copy_of, reduce_by};
use super::joining::{joined, joined_length, unit_rows, zero_row};
use comm_ring::spans_have_a_dimension;
use lane_rows::first_nonzero;
use lists::{List, NoMemory};
use prime_field::Prime;
use std::alloc::Global;
use std::marker::Model;

/// What [`Space::insert`] says of a row.
#[derive(Debug, Drop)]
pub enum Insert {
    /// The row was not in the space, and is now.
    Inserted,
    /// One residue for each row of the basis: the row is the sum of these multiples of them.
    Dependent(List<u32>),
}

/// A subspace of the rows of one length over F_p, kept as reduced echelon rows, in the order in which
/// they came: each basis row is 1 at its pivot and 0 before it, and the others are 0 there.
#[derive(Drop)]
pub struct Space {
    prime: Prime,
    width: usize,
    rows: Vec<List<u32>>,
    pivots: Vec<usize>,
}

impl Model for Space {
    ghost use Rattle.row_space.specs.Subspace.{Subspace};
    ghost use Rattle.row_space.specs.Echelon.{IsEchelon};

    ghost Value = { Subspace };

    ghost view = { λ s. record { prime = s.prime; width = s.width; basis = s.rows.items } };

    ghost invariant = { λ s. IsEchelon s.prime s.width s.rows.items s.pivots.items };
}

impl Space {
    ghost use Rattle.comm_ring.specs.Modules.{DimensionOf, InSpan, combination};
    ghost use Rattle.row_space.specs.Subspace.{Subspace, FitsIn, IsIn, IsSumOf, DifferIn, IsZeroAtPivots, IsReduced, IsImage, Joins, all_rows, product};
    ghost use Rattle.row_space.specs.Sums.{IsWeighted, IsRightPart, side_by_side};
    ghost use Rattle.row_space.specs.Echelon.{IsRow, IsEchelon};
    ghost use Rattle.row_space.specs.Insertion.{IsInsertion};

    /// The zero space of the rows with `length` entries.
    pub fn new(alloc: Global, prime: Prime, length: usize) -> Space
        ensures { result ≡ record { prime = prime; width = length; basis = [] } }
    {
        Space {
            prime,
            width: length,
            rows: Vec::new(alloc),
            pivots: Vec::new(alloc),
        }
    }

    /// The prime p.
    pub fn prime(&self) -> Prime
        ensures { result ≡ self.now.prime }
    {
        self.prime
    }

    /// Adds the row, unless it is in the space: then the answer says which sum of basis rows it is.
    /// Where there is no memory, the space stays.
    pub fn insert(&mut self, row: &[u32]) -> Result<Insert, NoMemory>
        requires { FitsIn self.old row.now }
        ensures ok { IfOk result (IsInsertion self.old row.now self.new) }
        ensures err { OnErr result (self.new ≡ self.old) }
    {
        let alloc = *self.rows.allocator();
        let mut rest = copy_of(alloc, row)?;
        reduce_by(
            self.prime,
            self.rows.as_slice(),
            self.pivots.as_slice(),
            rest.as_mut_slice(),
        );
        match first_nonzero(rest.as_slice()) {
            None => {
                let residues = at_pivots(alloc, self.pivots.as_slice(), row)?;
                Ok(Insert::Dependent(residues))
            }
            Some(pivot) => {
                add_row(
                    alloc,
                    self.prime,
                    &mut self.rows,
                    &mut self.pivots,
                    rest,
                    pivot,
                )?;
                Ok(Insert::Inserted)
            }
        }
    }

    /// Puts the one row in place of `row` that differs from it by a row of the space and is 0 at
    /// every pivot.
    pub fn reduce(&self, row: &mut [u32])
        requires { FitsIn self.now row.old }
        ensures fits { FitsIn self.now row.new }
        ensures same_class { DifferIn self.now row.old row.new }
        ensures zero { IsZeroAtPivots self.now row.new }
        ensures only { (other : List ℕ) → FitsIn self.now other → DifferIn self.now row.old other → IsZeroAtPivots self.now other → other ≡ row.new }
    {
        reduce_by(
            self.prime,
            self.rows.as_slice(),
            self.pivots.as_slice(),
            row,
        );
    }

    /// Whether the row is in the space.
    pub fn contains(&self, row: &[u32]) -> Result<bool, NoMemory>
        requires { FitsIn self.now row.now }
        ensures { IfOk result (λ found. IsTrue found ↔ IsIn self.now row.now) }
    {
        let mut rest = copy_of(*self.rows.allocator(), row)?;
        reduce_by(
            self.prime,
            self.rows.as_slice(),
            self.pivots.as_slice(),
            rest.as_mut_slice(),
        );
        match first_nonzero(rest.as_slice()) {
            None => Ok(true),
            Some(_) => Ok(false),
        }
    }

    /// The dimension: so many rows span the space, and no fewer do.
    pub fn dimension(&self) -> usize
        ensures rows { result ≡ length self.now.basis }
        ensures dimension { DimensionOf (all_rows self.now) (IsIn self.now) result }
    {
        spans_have_a_dimension();
        let _prime = self.prime.get();
        self.rows.len()
    }

    /// The basis, one row for each dimension.
    pub fn rows(&self) -> &[List<u32>]
        ensures basis { result.now ≡ self.now.basis }
        ensures reduced { IsReduced self.now }
    {
        self.rows.as_slice()
    }

    // Adds the row, unless it is in the space.
    fn put(&mut self, mut row: Vec<u32>) -> Result<(), NoMemory>
        requires { FitsIn self.old row.items }
        ensures { OnOk result (Joins self.old (row.items ∷ []) self.new) }
    {
        reduce_by(
            self.prime,
            self.rows.as_slice(),
            self.pivots.as_slice(),
            row.as_mut_slice(),
        );
        match first_nonzero(row.as_slice()) {
            None => Ok(()),
            Some(pivot) => {
                let alloc = *self.rows.allocator();
                add_row(
                    alloc,
                    self.prime,
                    &mut self.rows,
                    &mut self.pivots,
                    row,
                    pivot,
                )?;
                Ok(())
            }
        }
    }

    /// Adds the rows; afterwards the space is spanned by its old basis and them. It takes for each row
    /// at most as many multiples of rows as twice the dimension.
    pub fn add_rows(&mut self, rows: &[List<u32>]) -> Result<(), NoMemory>
        requires { All (FitsIn self.old) rows.now }
        ensures { OnOk result (Joins self.old rows.now self.new) }
    {
        for i in 0..rows.len() {
            let row = copy_of(*self.rows.allocator(), rows[i].as_slice())?;
            self.put(row)?;
        }
        Ok(())
    }

    // Adds the rows, each with the row `zero` after it.
    fn put_padded(&mut self, rows: &[List<u32>], zero: &[u32]) -> Result<(), NoMemory>
        requires { All (FitsIn self.old) (map (λ row. row ++ zero.now) rows.now) }
        ensures { OnOk result (Joins self.old (map (λ row. row ++ zero.now) rows.now) self.new) }
    {
        for i in 0..rows.len() {
            let row = joined(*self.rows.allocator(), rows[i].as_slice(), zero)?;
            self.put(row)?;
        }
        Ok(())
    }

    // Adds the rows of the first list, each with the one of the second after it.
    fn put_pairs(&mut self, left: &[List<u32>], right: &[List<u32>]) -> Result<(), NoMemory>
        requires count { length left.now ≡ length right.now }
        requires fit { All (FitsIn self.old) (side_by_side left.now right.now) }
        ensures { OnOk result (Joins self.old (side_by_side left.now right.now) self.new) }
    {
        for i in 0..left.len() {
            let row = joined(
                *self.rows.allocator(),
                left[i].as_slice(),
                right[i].as_slice(),
            )?;
            self.put(row)?;
        }
        Ok(())
    }

    // Adds the part of the row from `left` on, if the pivot is not before it.
    fn put_right_part(&mut self, row: &[u32], pivot: usize, left: usize) -> Result<(), NoMemory>
        requires fit { IsRow self.old.prime (left + self.old.width) row.now }
        ensures skipped { OnOk result (pivot < left → self.new ≡ self.old) }
        ensures joined { OnOk result (left ≤ pivot → Joins self.old (drop left row.now ∷ []) self.new) }
    {
        if pivot < left {
            return Ok(());
        }
        let part = copy_of(*self.rows.allocator(), &row[left..])?;
        self.put(part)?;
        Ok(())
    }

    // Adds the right parts of the rows that are 0 on the left.
    fn put_right_parts(
        &mut self,
        rows: &[List<u32>],
        pivots: &[usize],
        left: usize,
    ) -> Result<(), NoMemory>
        requires empty { self.old.basis ≡ [] }
        requires echelon { IsEchelon self.old.prime (left + self.old.width) rows.now pivots.now }
        ensures shape { OnOk result ((self.new.prime ≡ self.old.prime) × (self.new.width ≡ self.old.width)) }
        ensures members { OnOk result ((f : ℕ → ℕ) → IsWeighted self.old.prime self.old.width self.new.basis f ↔ IsRightPart self.old.prime left self.old.width rows.now f) }
    {
        for i in 0..rows.len() {
            self.put_right_part(rows[i].as_slice(), pivots[i], left)?;
        }
        Ok(())
    }

    // All v times `images`, for the v that `matrix` takes into the space. The images have `width`
    // entries.
    fn images(
        &self,
        matrix: &[List<u32>],
        images: &[List<u32>],
        width: usize,
    ) -> Result<Space, NoMemory>
        requires count { length matrix.now ≡ length images.now }
        requires matrix { All (FitsIn self.now) matrix.now }
        requires images { All (IsRow self.now.prime width) images.now }
        ensures shape { IfOk result (λ s. (s.prime ≡ self.now.prime) × (s.width ≡ width)) }
        ensures members { IfOk result (λ s. (f : ℕ → ℕ) → IsWeighted self.now.prime width s.basis f ↔ IsImage self.now width matrix.now images.now f) }
    {
        let alloc = *self.rows.allocator();
        let _modulus = self.prime.get();
        let mut found = Space::new(alloc, self.prime, width);
        if matrix.is_empty() {
            return Ok(found);
        }
        let zero = zero_row(alloc, width)?;
        let whole_width = joined_length(matrix[0].as_slice(), images[0].as_slice());
        let mut whole = Space::new(alloc, self.prime, whole_width);
        whole.put_padded(self.rows(), zero.as_slice())?;
        whole.put_pairs(matrix, images)?;
        found.put_right_parts(whole.rows.as_slice(), whole.pivots.as_slice(), self.width)?;
        Ok(found)
    }

    /// The sums of a row of this space and a row of the other one. The spaces have one prime and rows
    /// of one length.
    pub fn sum(&self, other: &Space) -> Result<Space, NoMemory>
        requires prime { other.now.prime ≡ self.now.prime }
        requires length { other.now.width ≡ self.now.width }
        ensures shape { IfOk result (λ s. (s.prime ≡ self.now.prime) × (s.width ≡ self.now.width)) }
        ensures members { IfOk result (λ s. (f : List ℕ) → IsIn s f ↔ IsSumOf self.now other.now f) }
    {
        let mut whole = Space::new(*self.rows.allocator(), self.prime, self.width);
        whole.add_rows(self.rows())?;
        whole.add_rows(other.rows())?;
        Ok(whole)
    }

    /// The rows that are in this space and in the other one. The spaces have one prime and rows of one
    /// length.
    pub fn intersect(&self, other: &Space) -> Result<Space, NoMemory>
        requires prime { other.now.prime ≡ self.now.prime }
        requires length { other.now.width ≡ self.now.width }
        ensures shape { IfOk result (λ s. (s.prime ≡ self.now.prime) × (s.width ≡ self.now.width)) }
        ensures members { IfOk result (λ s. (f : List ℕ) → IsIn s f ↔ IsIn self.now f × IsIn other.now f) }
    {
        let both = self.images(other.rows(), other.rows(), self.width)?;
        Ok(both)
    }

    /// All rows v whose product with the matrix is in this space. The rows of the matrix are rows of
    /// the space's length, and v has one entry for each of them.
    pub fn preimage(&self, matrix: &[List<u32>]) -> Result<Space, NoMemory>
        requires { All (FitsIn self.now) matrix.now }
        ensures shape { IfOk result (λ s. (s.prime ≡ self.now.prime) × (s.width ≡ length matrix.now)) }
        ensures members { IfOk result (λ s. (v : List ℕ) → length v ≡ length matrix.now → IsIn s v ↔ IsIn self.now (product self.now.prime self.now.width v matrix.now)) }
    {
        let _modulus = self.prime.get();
        let units = unit_rows(*self.rows.allocator(), matrix.len())?;
        let taken = self.images(matrix, units.as_slice(), matrix.len())?;
        Ok(taken)
    }
}
