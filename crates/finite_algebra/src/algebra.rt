// A finite-dimensional commutative algebra by the products of its basis elements.
ghost use Rattle.std.specs.Prelude.{◌≡◌, ℕ, ◌+◌, ◌*◌, ◌<◌, [], length, slice_index_or, All, IfOk, IsTrue, false};
ghost use Rattle.comm_ring.specs.Ring.{IsCommRing, pow};
ghost use Rattle.finite_algebra.specs.Elements.{BasisLawsSuffice};

use super::multiples::{add_multiples, copy_of, zero_row};
use super::projecting::{at_all_places, free_places, image, image_products, reduced_units};
use lists::{List, NoMemory};
use prime_field::Prime;
use row_space::Space;
use std::alloc::Global;
use std::marker::Model;
use std::mem;

/// A commutative algebra with one over F_p of a finite dimension n. An element is a row of n
/// residues, its coordinates.
///
/// It is kept by n * n rows of n residues each: the row i * n + j is the product of the basis
/// elements i and j.
#[derive(Drop)]
pub struct Algebra {
    prime: Prime,
    dimension: usize,
    one: List<u32>,
    products: Vec<List<u32>>,
}

impl Model for Algebra {
    ghost use Rattle.finite_algebra.specs.Elements.{FiniteAlgebra, IsAlgebra};

    ghost Value = { FiniteAlgebra };

    ghost view = { λ a. record { prime = a.prime; dimension = a.dimension; one = a.one; products = a.products.items } };

    ghost invariant = { λ a. IsAlgebra (record { prime = a.prime; dimension = a.dimension; one = a.one; products = a.products.items }) };
}

impl Algebra {
    ghost use Rattle.finite_algebra.specs.Elements.{FiniteAlgebra, AreProducts, IsAlgebra, IsBilinear, IsElement, ring_of, times, unit_row};
    ghost use Rattle.finite_algebra.specs.Projections.{IsGeneratedBy, IsIdealOf, IsProjection, IsQuotient};

    /// The algebra of dimension `n` with the row `one` as its one. The row i * n + j of `products` is
    /// the product of the basis elements i and j, so the product of the elements x and y is the sum
    /// over all i and j of x_i * y_j times this row. It must be commutative and associative, and
    /// `one` its one; it is enough that this holds at the basis elements (`basis_laws_suffice`).
    pub fn of_products(prime: Prime, n: usize, one: List<u32>, products: List<List<u32>>) -> Algebra
        requires { IsAlgebra (record { prime = prime; dimension = n; one = one; products = products }) }
        ensures { result ≡ record { prime = prime; dimension = n; one = one; products = products } }
    {
        Algebra {
            prime,
            dimension: n,
            one,
            products: products.into_vec(),
        }
    }

    /// The prime p.
    pub fn prime(&self) -> Prime
        ensures { result ≡ self.now.prime }
    {
        self.prime
    }

    /// The dimension n, the number of coordinates of an element.
    pub fn dimension(&self) -> usize
        ensures { result ≡ self.now.dimension }
    {
        self.dimension
    }

    /// The dimension as a smaller number: there is no room for the products of 2^32 basis elements.
    pub fn dimension_u32(&self) -> u32
        ensures { result ≡ self.now.dimension }
    {
        let _count = self.products.len();
        self.dimension as u32
    }

    /// The allocator of its rows.
    pub fn allocator(&self) -> Global {
        *self.products.allocator()
    }

    /// The one, as a row of n residues.
    pub fn one(&self) -> &[u32]
        ensures value { result.now ≡ self.now.one }
        ensures laws { IsAlgebra self.now }
        ensures ring { IsCommRing (ring_of self.now) }
        ensures bilinear { IsBilinear self.now }
    {
        let _p = self.prime.get();
        self.one.as_slice()
    }

    /// Puts the product of the elements `a` and `b` into `out`. All three rows have n entries.
    ///
    /// It takes a multiple of a row for each entry of `a` and each entry of `b` that are both not 0,
    /// at most n * n multiples of rows with n entries.
    pub fn product(&self, a: &[u32], b: &[u32], out: &mut [u32])
        requires left { IsElement self.now a.now }
        requires right { IsElement self.now b.now }
        requires out { length out.old ≡ self.now.dimension }
        ensures element { IsElement self.now out.new }
        ensures product { out.new ≡ times self.now a.now b.now }
    {
        let _p = self.prime.get();
        out.fill(0);
        for i in 0..self.dimension {
            let from = i * self.dimension;
            let rows = &self.products[from..from + self.dimension];
            add_multiples(self.prime, a[i], b, rows, out);
        }
    }

    // Puts the product of `row` and `factor` into `row`, by way of `spare`.
    fn multiply(&self, row: &mut Vec<u32>, factor: &[u32], spare: &mut Vec<u32>)
        requires row { IsElement self.now row.old.items }
        requires factor { IsElement self.now factor.now }
        requires spare { length spare.old.items ≡ self.now.dimension }
        ensures element { IsElement self.now row.new.items }
        ensures product { row.new.items ≡ times self.now row.old.items factor.now }
        ensures spare { length spare.new.items ≡ self.now.dimension }
    {
        self.product(row.as_slice(), factor, spare.as_mut_slice());
        mem::swap(row, spare);
    }

    // Multiplies `row` by `factor` only where that is wanted.
    fn multiply_if(&self, wanted: bool, row: &mut Vec<u32>, factor: &[u32], spare: &mut Vec<u32>)
        requires row { IsElement self.now row.old.items }
        requires factor { IsElement self.now factor.now }
        requires spare { length spare.old.items ≡ self.now.dimension }
        ensures element { IsElement self.now row.new.items }
        ensures product { IsTrue wanted → row.new.items ≡ times self.now row.old.items factor.now }
        ensures same { wanted ≡ false → row.new.items ≡ row.old.items }
        ensures spare { length spare.new.items ≡ self.now.dimension }
    {
        if wanted {
            self.multiply(row, factor, spare);
        }
    }

    // Puts the square of `row` into `row`, by way of `spare`.
    fn square(&self, row: &mut Vec<u32>, spare: &mut Vec<u32>)
        requires row { IsElement self.now row.old.items }
        requires spare { length spare.old.items ≡ self.now.dimension }
        ensures element { IsElement self.now row.new.items }
        ensures square { row.new.items ≡ times self.now row.old.items row.old.items }
        ensures spare { length spare.new.items ≡ self.now.dimension }
    {
        self.product(row.as_slice(), row.as_slice(), spare.as_mut_slice());
        mem::swap(row, spare);
    }

    // The power by squares, from the highest binary digit of `n` on.
    fn power_by_squares(&self, a: &[u32], n: u64) -> Result<Vec<u32>, NoMemory>
        requires a { IsElement self.now a.now }
        requires n { 0 < n }
        ensures element { IfOk result (λ x. IsElement self.now x.items) }
        ensures power { IfOk result (λ x. x.items ≡ pow (ring_of self.now) a.now n) }
    {
        let alloc = *self.products.allocator();
        let _p = self.prime.get();
        if n == 1 {
            let row = copy_of(alloc, a)?;
            return Ok(row);
        }
        let mut row = self.power_by_squares(a, n / 2)?;
        let mut spare = zero_row(alloc, self.dimension)?;
        self.square(&mut row, &mut spare);
        self.multiply_if(n % 2 == 1, &mut row, a, &mut spare);
        Ok(row)
    }

    /// The element `a` to the power `n`; to the power 0 it is the one.
    ///
    /// It takes a product for each binary digit of `n` but the first, and for each further digit that is
    /// 1 a product with `a`, over as many rows of memory as `n` has digits.
    pub fn power(&self, a: &[u32], n: u64) -> Result<List<u32>, NoMemory>
        requires { IsElement self.now a.now }
        ensures element { IfOk result (λ x. IsElement self.now x) }
        ensures power { IfOk result (λ x. x ≡ pow (ring_of self.now) a.now n) }
    {
        let _one = self.one();
        let _p = self.prime.get();
        if n == 0 {
            let one = copy_of(*self.products.allocator(), self.one())?;
            return Ok(List::of_vec(one));
        }
        let row = self.power_by_squares(a, n)?;
        Ok(List::of_vec(row))
    }

    /// The product of the basis elements `i` and `j`.
    pub fn basis_product(&self, i: usize, j: usize) -> &[u32]
        requires i { i < self.now.dimension }
        requires j { j < self.now.dimension }
        ensures { result.now ≡ slice_index_or self.now.products (i * self.now.dimension + j) [] }
    {
        let _p = self.prime.get();
        self.products[i * self.dimension + j].as_slice()
    }

    // The product of the basis element `k` and `x`.
    fn basis_multiple(&self, k: usize, x: &[u32]) -> Result<List<u32>, NoMemory>
        requires k { k < self.now.dimension }
        requires x { IsElement self.now x.now }
        ensures element { IfOk result (λ row. IsElement self.now row) }
        ensures product { IfOk result (λ row. row ≡ times self.now (unit_row self.now.dimension k) x.now) }
    {
        let alloc = *self.products.allocator();
        let _p = self.prime.get();
        let from = k * self.dimension;
        let rows = &self.products[from..from + self.dimension];
        let row = image(alloc, self.prime, rows, self.dimension, x)?;
        Ok(row)
    }

    /// The matrix of the multiplication by `x`: n rows, of which row k is the product of the basis
    /// element k and `x`. The product of any element with `x` is its row times the matrix.
    ///
    /// It takes n * n multiples of rows with n entries.
    pub fn multiplication(&self, x: &[u32]) -> Result<List<List<u32>>, NoMemory>
        requires { IsElement self.now x.now }
        ensures { IfOk result (λ rows. AreProducts self.now x.now rows) }
    {
        let _p = self.prime.get();
        let mut rows = List::new(*self.products.allocator());
        for k in 0..self.dimension {
            let row = self.basis_multiple(k, x)?;
            rows.push(row)?;
        }
        Ok(rows)
    }

    /// The ideal that the elements generate: their multiples by the basis elements span it. It takes a
    /// matrix of multiplication and n insertions into a space for each of them.
    pub fn ideal(&self, generators: &[List<u32>]) -> Result<Space, NoMemory>
        requires { All (IsElement self.now) generators.now }
        ensures { IfOk result (λ space. IsGeneratedBy self.now generators.now space) }
    {
        let _one = self.one();
        let _p = self.prime.get();
        let mut space = Space::new(*self.products.allocator(), self.prime, self.dimension);
        for i in 0..generators.len() {
            let rows = self.multiplication(generators[i].as_slice())?;
            space.add_rows(rows.as_slice())?;
        }
        Ok(space)
    }

    /// The matrix of the projection onto the quotient by an ideal: n rows of m residues, where m is the
    /// dimension of the quotient.
    ///
    /// Its columns are the coordinates at the classes of the basis elements at which no row of the ideal
    /// has its first entry that is not 0. It takes n looks at the basis of the ideal.
    pub fn projection(&self, ideal: &Space) -> Result<List<List<u32>>, NoMemory>
        requires { IsIdealOf self.now ideal.now }
        ensures { IfOk result (λ matrix. (m : ℕ) → m + length ideal.now.basis ≡ self.now.dimension → IsProjection self.now ideal.now m matrix) }
    {
        let alloc = *self.products.allocator();
        let _p = self.prime.get();
        let units = reduced_units(alloc, ideal, self.dimension)?;
        let places = free_places(alloc, units.as_slice())?;
        let matrix = at_all_places(alloc, places.as_slice(), units.as_slice())?;
        Ok(matrix)
    }

    /// The quotient by an ideal, and the matrix of the projection onto it: n rows of m residues, where
    /// m is the dimension of the quotient. The image of an element is its row times the matrix.
    ///
    /// The basis of the quotient is that of the classes of the basis elements at which no row of the
    /// ideal has its first entry that is not 0. It takes the images of m * m products, each a sum of
    /// at most n multiples of rows with m entries.
    pub fn quotient(&self, ideal: &Space) -> Result<(Algebra, List<List<u32>>), NoMemory>
        requires { IsIdealOf self.now ideal.now }
        ensures { IfOk result (λ made. IsQuotient self.now ideal.now made.0 made.1) }
    {
        let alloc = *self.products.allocator();
        let _p = self.prime.get();
        let classes = reduced_units(alloc, ideal, self.dimension)?;
        let places = free_places(alloc, classes.as_slice())?;
        let matrix = at_all_places(alloc, places.as_slice(), classes.as_slice())?;
        let dimension = places.len();
        let one = image(
            alloc,
            self.prime,
            matrix.as_slice(),
            dimension,
            self.one.as_slice(),
        )?;
        let products = image_products(
            alloc,
            self.prime,
            self.dimension,
            self.products.as_slice(),
            places.as_slice(),
            matrix.as_slice(),
        )?;
        let made = Algebra {
            prime: self.prime,
            dimension,
            one,
            products: products.into_vec(),
        };
        Ok((made, matrix))
    }
}

/// The laws of an algebra hold at all elements where they hold at its basis elements.
pub fn basis_laws_suffice()
    ensures { BasisLawsSuffice }
{}
