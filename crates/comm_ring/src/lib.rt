//! Commutative algebra for proofs: rings, sums, ideals and linear algebra modulo a prime.
//!
//! The definitions stand in `specs/` and take operations only; the laws stand in `proofs/`, over any commutative ring
//! and any module over a field. Each function here has an empty body: its contract is a law at the numbers modulo n, or
//! at rows of numbers modulo a prime of the table.
#![tactic(auto)]

ghost use Rattle.std.specs.Prelude.{◌≡◌, ℕ, ◌+◌, ◌*◌, ◌-◌, ◌%◌, ◌<◌, ◌≤◌};
ghost use Rattle.comm_ring.specs.Ring.{IsCommRing};
ghost use Rattle.comm_ring.specs.Modules.{IsModule, IsField};
ghost use Rattle.comm_ring.specs.Pigeonhole.{PigeonholePrinciple};
ghost use Rattle.comm_ring.specs.Laws.{
  AtResidues,
  AtPrimes,
  AtRows,
  RowsAreEqual,
  SumOfAppend,
  SumOfMap,
  SumOfFlatMap,
  SumScaled,
  SumOfSums,
  SumsSwap,
  SumOfPermutation,
  ProductOfSums,
  SumOverRange,
  GeometricSum,
  IdealOfAppend,
  ApartIdeals,
  TakenByGenerators,
  ExchangeLaw,
  FewIndependent,
  BasisIsDimension,
  DimensionIsBasis,
  DimensionIsLeast,
  DimensionIsUnique,
  UniqueCoordinates,
  DimensionsAdd,
};

/// The numbers modulo n are a commutative ring, and modulo a prime of the table a field.
pub fn residues_are_a_ring()
    ensures ring { AtResidues IsCommRing }
    ensures field { AtPrimes IsField }
{}

/// Identities between remainders, as the solver of ring identities proves them.
pub fn remainders_obey_identities()
    ensures square { (n : ℕ) → 0 < n → (a b : ℕ) → ((a + b) * (a + b)) % n ≡ (a * a + 2 * (a * b) + b * b) % n }
    ensures nested { (n : ℕ) → 0 < n → (a b c : ℕ) → ((a % n) * ((b + c) % n)) % n ≡ ((a * b) % n + a * c) % n }
    ensures opposite { (n : ℕ) → 0 < n → (a b : ℕ) → a ≤ n → (b * (n - a) + b * a) % n ≡ 0 % n }
{}

/// Finite sums over lists: append, map and flat_map, multiples, sums of sums, order, products and ranges.
pub fn sums_obey_their_laws()
    ensures append { AtResidues SumOfAppend }
    ensures map { AtResidues SumOfMap }
    ensures flat_map { AtResidues SumOfFlatMap }
    ensures scaled { AtResidues SumScaled }
    ensures sums { AtResidues SumOfSums }
    ensures swap { AtResidues SumsSwap }
    ensures permutation { AtResidues SumOfPermutation }
    ensures products { AtResidues ProductOfSums }
    ensures range { AtResidues SumOverRange }
    ensures geometric { AtResidues GeometricSum }
{}

/// Ideals by generators: sums, ideals that are apart, and what products of members take into an ideal.
pub fn ideals_obey_their_laws()
    ensures append { AtResidues IdealOfAppend }
    ensures apart { AtResidues ApartIdeals }
    ensures taken { AtResidues TakenByGenerators }
{}

/// Rows of one width modulo a prime are a module; rows with entries below the prime are equal there only where they are
/// equal as lists.
pub fn rows_are_a_module()
    ensures laws { AtRows IsModule }
    ensures equal { RowsAreEqual }
{}

/// Spans of rows: the exchange law, bases, dimension, coordinates, and the additivity of dimension.
pub fn spans_have_a_dimension()
    ensures exchange { AtRows ExchangeLaw }
    ensures few { AtRows FewIndependent }
    ensures basis { AtRows BasisIsDimension }
    ensures independent { AtRows DimensionIsBasis }
    ensures least { AtRows DimensionIsLeast }
    ensures unique { AtRows DimensionIsUnique }
    ensures coordinates { AtRows UniqueCoordinates }
    ensures additive { AtRows DimensionsAdd }
{}

/// Of m + 1 numbers below m two are equal.
pub fn two_of_many_are_equal()
    ensures { PigeonholePrinciple }
{}
