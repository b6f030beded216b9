// A modulo a power of the denominator, by rows of digits.
ghost use Rattle.std.specs.Prelude.{◌≡◌, ◌≤◌, ◌+◌, ◌*◌, ℕ, List, [], ◌∷◌, slice_index_or, ◌<◌, ◌++◌, length, drop, replicate, min, IfOk, OnOk, IfSome, IsNone, Contains};
ghost use Rattle.monomials.specs.Mono.{times, unit, variable};
ghost use Rattle.polys.specs.Curve.{IsOver, HasDimModulo, data_of};
ghost use Rattle.polys.specs.declared.curve.TheConstants.{LARGEST_DIMENSION, MAX_DENOMINATOR_DEGREE};
ghost use Rattle.polys.specs.declared.term.Term.{Term};
ghost use Rattle.polys.specs.Terms.{IsAffine, IsPoly, add, degree_of, mul};
ghost use Rattle.row_space.specs.Echelon.{IsRow};
ghost use Rattle.digit_space.specs.Adding.{AreMultiples, HasMultiples, IsWithin, corner_multiple, corner_sum, rows_from};
ghost use Rattle.standard_monomials.specs.Standard.{polynomial_of};

use crate::dividing::{by_variable, position};
use crate::multiplying::{add_block, zero_row};
use crate::products::product_at;
use crate::{OuterRow, Product};
use lane_rows::axpy;
use lists::{List, NoMemory};
use monomials::Mono;
use polys::{Curve, Poly, Term};
use std::alloc::Global;
use std::marker::Model;
use std::sync::Arc;

// A corner as the product of a variable and another corner.
#[derive(Clone, Copy)]
struct Parent {
    variable: u32,
    corner: usize,
}

/// The polynomials modulo an ideal I and the power d^T of a denominator, by digits: a row has T blocks of N residues, one
/// for each corner, and stands for the sum of block t times d^t.
///
/// Contracts see the curve, the corners and the depth T, which fix the digits of each polynomial.
#[derive(Drop)]
pub struct Digits {
    curve: Arc<Curve>,
    basis: List<Mono>,
    depth: u32,
    // the digits of the products of a variable and a corner that are no corners, without the zeros at the end
    border: Vec<List<u32>>,
    // number v * N + i is variable v times corner i; where there is none, these are the border rows in their order
    products: Option<List<Product>>,
    outer: List<OuterRow>,
}

impl Model for Digits {
    ghost use Rattle.std.specs.Prelude.{◌≡◌};
    ghost use Rattle.digit_space.specs.Model.{DigitData, IsDigitSpace, AreKept, HasOuterRows};

    ghost Value = { DigitData };

    ghost view = { λ g. record { curve = g.curve.value; basis = g.basis; depth = g.depth } };

    ghost invariant = { λ g. let seen : DigitData = record { curve = g.curve.value; basis = g.basis; depth = g.depth } in
        IsDigitSpace seen × AreKept seen g.border.items g.products × HasOuterRows seen g.outer };
}

impl Digits {
    ghost use Rattle.digit_space.specs.Model.{DigitData, kept_at, IsDigitSpace, HasTables, HasProducts, HasOuterRows, AreFirstDigits, HasZeroBlock, IsDigitRow, IsDigitsOf, corner, times_variable, times_denominator, value_of, width};

    /// The digits with these tables: row v * N + i has the digits of variable v times corner i. The basis is the corners, in
    /// rising order. It takes no memory, and products by a variable take a multiple of a row for each entry.
    pub fn of_tables(
        curve: Arc<Curve>,
        basis: List<Mono>,
        depth: u32,
        tables: List<List<u32>>,
    ) -> Digits
        requires space { IsDigitSpace (record { curve = curve.value; basis = basis; depth = depth }) }
        requires tables { HasTables (record { curve = curve.value; basis = basis; depth = depth }) tables }
        ensures { result ≡ record { curve = curve.value; basis = basis; depth = depth } }
    {
        let border = tables.into_vec();
        let alloc = *border.allocator();
        Digits {
            curve,
            basis,
            depth,
            border,
            products: None,
            outer: List::new(alloc),
        }
    }

    /// The digits with these products: number v * N + i says what variable v times corner i is. A border row may lack zeros
    /// at its end, and the shorter it is, the less a product by a variable takes. The outer rows are kept for whoever makes
    /// the digits deeper. It takes no memory.
    pub fn of_products(
        curve: Arc<Curve>,
        basis: List<Mono>,
        depth: u32,
        products: List<Product>,
        border: List<List<u32>>,
        outer: List<OuterRow>,
    ) -> Digits
        requires space { IsDigitSpace (record { curve = curve.value; basis = basis; depth = depth }) }
        requires products { HasProducts (record { curve = curve.value; basis = basis; depth = depth }) border products }
        requires outer { HasOuterRows (record { curve = curve.value; basis = basis; depth = depth }) outer }
        ensures { result ≡ record { curve = curve.value; basis = basis; depth = depth } }
    {
        Digits {
            curve,
            basis,
            depth,
            border: border.into_vec(),
            products: Some(products),
            outer,
        }
    }

    /// The curve.
    pub fn curve(&self) -> &Arc<Curve>
        ensures { result.now.value ≡ self.now.curve }
    {
        &self.curve
    }

    /// The corners, in rising order.
    pub fn basis(&self) -> &[Mono]
        ensures value { result.now ≡ self.now.basis }
        ensures known { IsDigitSpace self.now }
    {
        self.basis.as_slice()
    }

    /// The dimension N modulo I and d, the number of the corners.
    pub fn dimension(&self) -> u32
        ensures corners { result ≡ length self.now.basis }
        ensures dimension { HasDimModulo (data_of self.now.curve) result }
    {
        self.basis.len() as u32
    }

    /// The depth T.
    pub fn depth(&self) -> u32
        ensures { result ≡ self.now.depth }
    {
        self.depth
    }

    /// The allocator of the rows.
    pub fn allocator(&self) -> Global {
        *self.border.allocator()
    }

    /// The digits of the variable `v` times the corner `i` without the zeros at their end, or `None`, only where this product is
    /// a corner.
    pub fn border_row(&self, v: u32, i: usize) -> Option<&[u32]>
        requires v { v < self.now.curve.variables }
        requires i { i < length self.now.basis }
        ensures some { IfSome result (λ row. AreFirstDigits self.now (times_variable self.now v (polynomial_of (corner self.now i))) row.now) }
        ensures none { IsNone result → Contains self.now.basis (times (corner self.now i) (variable v)) }
    {
        let place = v as usize * self.basis.len() + i;
        match product_at(&self.products, place) {
            Product::Corner(_) => None,
            Product::Border(r) => Some(self.border[r as usize].as_slice()),
        }
    }

    /// The outer rows that are kept, each a monomial with its digits at the depth T - 1, and at 0 where T is 0.
    pub fn outer(&self) -> &[OuterRow]
        ensures { HasOuterRows self.now result.now }
    {
        self.outer.as_slice()
    }

    /// Puts the digits of the variable `v` times the row's polynomial into `out`.
    ///
    /// For each entry that is not 0 it takes one addition, or a multiple of a border row as far as that is not 0 behind and
    /// within the depth: with b border rows of at most l blocks for the variable, at most b N T min(l, T / 2) + N T steps.
    pub fn times_var(&self, v: u32, row: &[u32], out: &mut [u32])
        requires v { v < self.now.curve.variables }
        requires row { IsDigitRow self.now row.now }
        requires out { length out.old ≡ width self.now }
        ensures { IsDigitsOf self.now (times_variable self.now v (value_of self.now row.now)) out.new }
    {
        out.fill(0);
        let first = v as usize * self.basis.len();
        let border = self.border.as_slice();
        self.add_products(&self.products, first, border, row, out);
    }

    // The digits of the variable `v` times the row's polynomial.
    fn variable_multiple(&self, v: u32, row: &[u32]) -> Result<List<u32>, NoMemory>
        requires v { v < self.now.curve.variables }
        requires row { IsDigitRow self.now row.now }
        ensures { IfOk result (λ made. IsDigitsOf self.now (times_variable self.now v (value_of self.now row.now)) made) }
    {
        let mut made = zero_row(self.allocator(), row.len())?;
        self.times_var(v, row, made.as_mut_slice());
        Ok(List::of_vec(made))
    }

    // The number of the border products of the variable.
    fn border_count(&self, v: u32) -> usize
        requires { v < self.now.curve.variables }
        ensures { result ≤ length self.now.basis }
    {
        let first = v as usize * self.basis.len();
        let mut count = 0;
        for i in 0..self.basis.len() {
            if let Product::Border(_) = product_at(&self.products, first + i) {
                count += 1;
            }
        }
        count
    }

    // The variable with the fewest border products.
    fn preferred(&self) -> u32
        ensures { result < self.now.curve.variables }
    {
        let variables = self.curve.variables;
        let mut best = 0;
        let mut fewest = self.border_count(0);
        for v in 1..variables {
            let count = self.border_count(v);
            if count < fewest {
                best = v;
                fewest = count;
            }
        }
        best
    }

    // A corner by a variable, the preferred one if that divides it, and a corner before it; `None` only for the corner 1.
    fn parent(&self, preferred: u32, i: usize) -> Option<Parent>
        requires preferred { preferred < self.now.curve.variables }
        requires i { i < length self.now.basis }
        ensures some { IfSome result
            (λ p. (p.variable < self.now.curve.variables) × (p.corner < i) × (times (corner self.now p.corner) (variable p.variable) ≡ corner self.now i)) }
        ensures none { IsNone result → corner self.now i ≡ unit }
    {
        let m = self.basis.as_slice()[i];
        if m.degree() == 0 {
            return None;
        }
        let found = by_variable(&m, preferred, self.curve.variables);
        match position(self.basis.as_slice(), &found.factor) {
            None => None,
            Some(corner) => Some(Parent {
                variable: found.variable,
                corner,
            }),
        }
    }

    // The digits of the row's polynomial times the corner `i`, where `rows` has those of the corners before it.
    fn multiple(
        &self,
        preferred: u32,
        row: &[u32],
        rows: &[List<u32>],
        i: usize,
    ) -> Result<List<u32>, NoMemory>
        requires preferred { preferred < self.now.curve.variables }
        requires row { IsDigitRow self.now row.now }
        requires i { i < length self.now.basis }
        requires count { i ≤ length rows.now }
        requires rows { (k : ℕ) → k < i → IsDigitsOf self.now (corner_multiple self.now row.now k) (slice_index_or rows.now k []) }
        ensures { IfOk result (λ made. IsDigitsOf self.now (corner_multiple self.now row.now i) made) }
    {
        let _depth = self.depth;
        match self.parent(preferred, i) {
            None => List::from_slice(self.allocator(), row),
            Some(parent) => {
                let before = rows[parent.corner].as_slice();
                self.variable_multiple(parent.variable, before)
            }
        }
    }

    /// The digits of the row's polynomial times each corner, in the order of the corners.
    ///
    /// Each but the first is a product by one variable of one before it: N times `times_var`.
    pub fn multiples(&self, row: &[u32]) -> Result<List<List<u32>>, NoMemory>
        requires { IsDigitRow self.now row.now }
        ensures count { IfOk result (λ rows. length rows ≡ length self.now.basis) }
        ensures rows { IfOk result
            (λ rows. (i : ℕ) → i < length self.now.basis → IsDigitsOf self.now (corner_multiple self.now row.now i) (slice_index_or rows i [])) }
    {
        let preferred = self.preferred();
        let mut rows = List::new(self.allocator());
        for i in 0..self.basis.len() {
            let made = self.multiple(preferred, row, rows.as_slice(), i)?;
            rows.push(made)?;
        }
        Ok(rows)
    }

    /// The digits of the product of the rows' polynomials.
    ///
    /// It takes the digits of `b` times each corner, each but the first as a product by one variable, and for each entry of `a`
    /// that is not 0 a multiple of one of these rows as far as it is within the depth: N times `times_var`, and N T * N T / 2
    /// steps, over N rows of memory.
    pub fn product(&self, a: &[u32], b: &[u32]) -> Result<List<u32>, NoMemory>
        requires left { IsDigitRow self.now a.now }
        requires right { IsDigitRow self.now b.now }
        ensures { IfOk result (λ row. IsDigitsOf self.now (mul self.now.curve.prime (value_of self.now a.now) (value_of self.now b.now)) row) }
    {
        let _depth = self.depth;
        let rows = self.multiples(b)?;
        let row = self.product_by(a, rows.as_slice())?;
        Ok(row)
    }

    /// The digits of the product of the row's polynomial and a polynomial q, by the digits of q times each corner.
    ///
    /// For each entry of `a` that is not 0 it takes a multiple of one of these rows as far as it is within the depth: at most
    /// N T * N T / 2 steps.
    pub fn product_by(&self, a: &[u32], multiples: &[List<u32>]) -> Result<List<u32>, NoMemory>
        requires row { IsDigitRow self.now a.now }
        requires count { length multiples.now ≡ length self.now.basis }
        requires fit { (i : ℕ) → i < length self.now.basis → IsDigitRow self.now (slice_index_or multiples.now i []) }
        ensures { IfOk result (λ row. (q : List Term) → IsPoly self.now.curve.prime self.now.curve.variables q → AreMultiples self.now q multiples.now
            → IsDigitsOf self.now (mul self.now.curve.prime q (value_of self.now a.now)) row) }
    {
        let _depth = self.depth;
        let mut made = zero_row(self.allocator(), a.len())?;
        let in_order: Option<List<Product>> = None;
        self.add_products(&in_order, 0, multiples, a, made.as_mut_slice());
        Ok(List::of_vec(made))
    }

    // The digits of the monomial, by one variable after another. There is a corner, and the depth is not 0.
    fn monomial_row(&self, preferred: u32, m: &Mono) -> Result<List<u32>, NoMemory>
        requires preferred { preferred < self.now.curve.variables }
        requires affine { IsAffine self.now.curve.variables m.now }
        requires some { 0 < width self.now }
        ensures { IfOk result (λ row. IsDigitsOf self.now (polynomial_of m.now) row) }
    {
        let variables = self.curve.variables;
        let corners = self.basis.len();
        let mut row = zero_row(self.allocator(), corners * self.depth as usize)?;
        row[0] = 1;
        let mut made = List::of_vec(row);
        let mut rest = *m;
        while rest.degree() > 0 {
            let found = by_variable(&rest, preferred, variables);
            made = self.variable_multiple(found.variable, made.as_slice())?;
            rest = found.factor;
        }
        Ok(made)
    }

    // Adds the digits of the term to `out`, with one addition where its monomial is a corner.
    fn add_term(&self, preferred: u32, t: Term, out: &mut [u32]) -> Result<(), NoMemory>
        requires preferred { preferred < self.now.curve.variables }
        requires term { IsPoly self.now.curve.prime self.now.curve.variables (t ∷ []) }
        requires some { 0 < width self.now }
        requires out { IsDigitRow self.now out.old }
        ensures { OnOk result
            ((f : List Term) → IsPoly self.now.curve.prime self.now.curve.variables f → IsDigitsOf self.now f out.old → IsDigitsOf self.now (add self.now.curve.prime (t ∷ []) f) out.new) }
    {
        let prime = self.curve.prime;
        match position(self.basis.as_slice(), &t.mono) {
            Some(j) => out[j] = prime.add(out[j], t.coeff),
            None => {
                let row = self.monomial_row(preferred, &t.mono)?;
                axpy(prime.get(), t.coeff, row.as_slice(), out);
            }
        }
        Ok(())
    }

    /// The digits of the polynomial.
    ///
    /// For each term it takes one addition where its monomial is a corner, and at most as many products by a variable as its
    /// degree where it is none.
    pub fn digits_of(&self, f: &Poly) -> Result<List<u32>, NoMemory>
        requires { IsOver self.now.curve.prime self.now.curve.variables f.now }
        ensures { IfOk result (λ row. IsDigitsOf self.now f.now.terms row) }
    {
        let entries = self.basis.len() * self.depth as usize;
        if entries == 0 {
            return Ok(List::new(self.allocator()));
        }
        let preferred = self.preferred();
        let mut out = zero_row(self.allocator(), entries)?;
        let terms = f.terms();
        let mut k = terms.len();
        while k > 0 {
            k -= 1;
            self.add_term(preferred, terms[k], out.as_mut_slice())?;
        }
        Ok(List::of_vec(out))
    }

    // The sum of the corners, each times its entry of the block.
    fn block_poly(&self, block: &[u32]) -> Result<Poly, NoMemory>
        requires { IsRow self.now.curve.prime (length self.now.basis) block.now }
        ensures { IfOk result (λ f. f ≡ record { prime = self.now.curve.prime; terms = corner_sum self.now block.now }) }
    {
        let corners = self.basis.as_slice();
        let mut terms = Vec::new(self.allocator());
        let mut i = block.len();
        while i > 0 {
            i -= 1;
            if block[i] != 0 {
                terms.push(Term {
                    coeff: block[i],
                    mono: corners[i],
                })?;
            }
        }
        Ok(Poly::of_terms(self.curve.prime, terms))
    }

    /// A polynomial with these digits, of degree below 256 + 119 T.
    ///
    /// It takes a product with d and a sum for each block, from the last one to the first.
    pub fn poly_of(&self, row: &[u32]) -> Result<Poly, NoMemory>
        requires { IsDigitRow self.now row.now }
        ensures over { IfOk result (λ f. IsOver self.now.curve.prime self.now.curve.variables f) }
        ensures digits { IfOk result (λ f. IsDigitsOf self.now f.terms row.now) }
        ensures low { IfOk result (λ f. degree_of f.terms < LARGEST_DIMENSION + MAX_DENOMINATOR_DEGREE * self.now.depth) }
    {
        let corners = self.basis.len();
        let mut f = Poly::zero(self.allocator(), self.curve.prime);
        let mut from = row.len();
        while from > 0 {
            from -= corners;
            let block = self.block_poly(&row[from..from + corners])?;
            let behind = self.curve.denominator.mul(&f)?;
            f = block.add(&behind)?;
        }
        Ok(f)
    }

    /// The row becomes that of d times its polynomial: the blocks move up by one, and the last one is dropped. It takes one
    /// copy.
    pub fn shift_up(&self, row: &mut [u32])
        requires { IsDigitRow self.now row.old }
        ensures { IsDigitsOf self.now (times_denominator self.now (value_of self.now row.old)) row.new }
    {
        if self.depth > 0 {
            let corners = self.basis.len();
            let kept = row.len() - corners;
            row.copy_within(..kept, corners);
            row[..corners].fill(0);
        }
    }

    /// The row, whose first block is 0, becomes one whose product with d it was: the blocks move down by one, and the last one
    /// is 0. It takes one copy.
    pub fn shift_down(&self, row: &mut [u32])
        requires row { IsDigitRow self.now row.old }
        requires first { HasZeroBlock self.now row.old }
        ensures row { IsDigitRow self.now row.new }
        ensures quotient { IsDigitsOf self.now (times_denominator self.now (value_of self.now row.new)) row.old }
        ensures blocks { row.new ≡ drop (length self.now.basis) row.old ++ replicate (min (length self.now.basis) (length row.old)) 0 }
    {
        if self.depth > 0 {
            let corners = self.basis.len();
            let kept = row.len() - corners;
            row.copy_within(corners.., 0);
            row[kept..].fill(0);
        }
    }

    // Puts the sum of the rows, each times its entry of `row` and the entry's power of d, into `out`, which is 0.
    fn add_products(
        &self,
        products: &Option<List<Product>>,
        first: usize,
        border: &[List<u32>],
        row: &[u32],
        out: &mut [u32],
    )
        requires listed { IfSome products.now (λ list. first + length self.now.basis ≤ length list) }
        requires small { first + length self.now.basis ≤ 1536 }
        requires within { (i : ℕ) → i < length self.now.basis → IsWithin self.now.curve.prime (length self.now.basis) border.now (kept_at products.now (first + i)) }
        requires row { IsDigitRow self.now row.now }
        requires out { out.old ≡ replicate (width self.now) 0 }
        ensures { (q : List Term) → IsPoly self.now.curve.prime self.now.curve.variables q → HasMultiples self.now q row.now (rows_from border.now products.now first)
            → IsDigitsOf self.now (mul self.now.curve.prime q (value_of self.now row.now)) out.new }
    {
        let prime = self.curve.prime;
        let corners = self.basis.len();
        let mut from = row.len();
        while from > 0 {
            from -= corners;
            let block = &row[from..from + corners];
            add_block(prime, products, first, border, block, &mut out[from..]);
        }
    }
}
