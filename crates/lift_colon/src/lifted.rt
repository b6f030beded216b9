// An ideal and a denominator with the bases that decide about them.
ghost use Rattle.std.specs.Prelude.{◌≡◌, ℕ, ◌<◌, ◌≤◌, ◌↔◌, ◌∷◌, All, IfOk, IfErr, IsTrue, IsNone, IfSome};
ghost use Rattle.monomials.specs.declared.mono.TheConstants.{MAX_VARIABLES, MAX_DEGREE};
ghost use Rattle.lift_colon.specs.Lifted.{IsLifted, IsDeepWith, IsDimension, IsLift, HasDimension, HasInfiniteDimension};
ghost use Rattle.polys.specs.declared.curve.TheConstants.{LARGEST_DIMENSION};
ghost use Rattle.polys.specs.Poly.{terms_of};
ghost use Rattle.module_basis.specs.declared.cap.TheConstants.{MAX_CAP};
ghost use Rattle.module_basis.specs.declared.gens.BasisStop.TheVariants.{Deep};
ghost use Rattle.denominator_module.specs.Module.{module_of, IsDeepDenominator};
ghost use Rattle.graded_modules.specs.Bases.{SpanOneModule};
ghost use Rattle.graded_modules.specs.Deep.{IsDeep};
ghost use Rattle.homogenising.specs.Homogenised.{all_homogenised};
ghost use Rattle.graded_modules.specs.Vector.{degree_at, lead_mono};
ghost use Rattle.polys.specs.Curve.{IsOver};
ghost use Rattle.polys.specs.Ideal.{InIdeal, Regular};
ghost use Rattle.polys.specs.Reduced.{IsReducedBasis};
ghost use Rattle.polys.specs.Terms.{IsPoly, degree_of};
ghost use Rattle.prime_field.specs.Primes.{IsPrime};

use crate::parts::{colon_part, has_no_first_part, module_gens, quotient_of, sum_part};
use homogenising::homogenised_to;
use lists::{List, NoMemory};
use module_basis::{BasisStop, Gens, GradedBasis, MAX_CAP, graded_basis, interreduced};
use polys::{LARGEST_DIMENSION, Poly, are_same};
use prime_field::Prime;
use standard_monomials::{Dimension, dimension_modulo};
use std::alloc::Global;
use std::marker::Model;

/// An ideal I and a denominator d, with the reduced bases of I, of I + (d) and of the colon ideal I : d, and the
/// reduced basis of the graded module of d, from which they come, and the dimension modulo I + (d).
///
/// Greuel and Pfister, sections on colon ideals and on syzygies.
#[derive(Debug, Drop)]
pub struct Lifted {
    prime: Prime,
    variables: u32,
    denominator: Poly,
    ideal: List<Poly>,
    sum: List<Poly>,
    colon: List<Poly>,
    graded: GradedBasis,
    dimension: Dimension,
}

impl Model for Lifted {
    ghost use Rattle.lift_colon.specs.Lifted.{LiftedData, IsLifted, HasModule, IsDimension};
    ghost use Rattle.polys.specs.declared.curve.TheConstants.{LARGEST_DIMENSION};

    ghost Value = { LiftedData };

    ghost view = { λ l. record { prime = l.prime; variables = l.variables; denominator = l.denominator; ideal = l.ideal; sum = l.sum; colon = l.colon } };

    ghost invariant = { λ l.
        IsLifted (record { prime = l.prime; variables = l.variables; denominator = l.denominator; ideal = l.ideal; sum = l.sum; colon = l.colon })
        × HasModule (record { prime = l.prime; variables = l.variables; denominator = l.denominator; ideal = l.ideal; sum = l.sum; colon = l.colon }) l.graded
        × IsDimension (record { prime = l.prime; variables = l.variables; denominator = l.denominator; ideal = l.ideal; sum = l.sum; colon = l.colon }) LARGEST_DIMENSION l.dimension };
}

/// The reduced basis of the ideal of the list, in rising order of the leads.
///
/// # Errors
/// `Deep` exactly where the homogenised polynomials of the list are deep under the cap; `Memory` for want of memory.
pub fn ideal_basis(
    alloc: Global,
    prime: Prime,
    variables: u32,
    ideal: &[Poly],
    cap: u32,
) -> Result<List<Poly>, BasisStop>
    requires some_variables { 1 ≤ variables }
    requires six_variables { variables ≤ MAX_VARIABLES }
    requires ideal { All (IsOver prime variables) ideal.now }
    requires some_cap { 1 ≤ cap }
    requires cap { cap ≤ MAX_CAP }
    ensures over { IfOk result (λ fs. All (IsOver prime variables) fs) }
    ensures basis { IfOk result (λ fs. IsReducedBasis prime variables (InIdeal prime variables (terms_of ideal.now)) (terms_of fs)) }
    ensures not_deep { IfOk result (λ fs. IsDeep prime variables 0 (all_homogenised (terms_of ideal.now)) cap → ⊥) }
    ensures deep { IfErr result (λ stop. stop ≡ Deep → IsDeep prime variables 0 (all_homogenised (terms_of ideal.now)) cap) }
{
    let _prime = prime.get();
    let gens = Gens::homogenised(alloc, prime, variables, ideal)?;
    Ok(graded_basis(alloc, &gens, cap)?.dehomogenised()?)
}

// The reduced basis of the module of a denominator.
fn denominator_basis(
    alloc: Global,
    prime: Prime,
    variables: u32,
    ideal: &[Poly],
    d: &Poly,
    cap: u32,
) -> Result<GradedBasis, BasisStop>
    requires prime { IsPrime prime }
    requires some_variables { 1 ≤ variables }
    requires six_variables { variables ≤ MAX_VARIABLES }
    requires ideal { All (IsOver prime variables) ideal.now }
    requires denominator { IsOver prime variables d.now }
    requires room { degree_of d.now.terms ≤ MAX_DEGREE }
    requires some_cap { 1 ≤ cap }
    requires cap { cap ≤ MAX_CAP }
    ensures ring { IfOk result (λ b. (b.prime ≡ prime) × (b.variables ≡ variables) × (b.shift ≡ degree_of d.now.terms)) }
    ensures span { IfOk result (λ b. SpanOneModule prime variables (module_of d.now.terms (terms_of ideal.now)) (terms_of b.vectors)) }
    ensures low { IfOk result (λ b. All (λ f. degree_at (degree_of d.now.terms) (lead_mono f) ≤ cap) (terms_of b.vectors)) }
    ensures not_deep { IfOk result (λ b. IsDeepDenominator prime variables d.now.terms (terms_of ideal.now) cap → ⊥) }
    ensures deep { IfErr result (λ stop. stop ≡ Deep → IsDeepDenominator prime variables d.now.terms (terms_of ideal.now) cap) }
{
    let pairs = module_gens(alloc, prime, variables, ideal, d)?;
    graded_basis(alloc, &pairs, cap)
}

// The bases of the parts of the module.
fn of_module(
    alloc: Global,
    prime: Prime,
    variables: u32,
    generators: &[Poly],
    d: &Poly,
    ideal: List<Poly>,
    graded: GradedBasis,
) -> Result<Lifted, NoMemory>
    requires prime { IsPrime prime }
    requires some_variables { 1 ≤ variables }
    requires six_variables { variables ≤ MAX_VARIABLES }
    requires generators { All (IsOver prime variables) generators.now }
    requires denominator { IsOver prime variables d.now }
    requires over { All (IsOver prime variables) ideal }
    requires ideal { IsReducedBasis prime variables (InIdeal prime variables (terms_of generators.now)) (terms_of ideal) }
    requires ring { (graded.prime ≡ prime) × (graded.variables ≡ variables) × (graded.shift ≡ degree_of d.now.terms) }
    requires span { SpanOneModule prime variables (module_of d.now.terms (terms_of generators.now)) (terms_of graded.vectors) }
    requires low { All (λ f. degree_at (degree_of d.now.terms) (lead_mono f) ≤ MAX_CAP) (terms_of graded.vectors) }
    ensures data { IfOk result (λ l. (l.prime ≡ prime) × (l.variables ≡ variables) × (l.denominator ≡ d.now) × (l.ideal ≡ ideal)) }
{
    let vectors = graded.vectors();
    let sums = sum_part(alloc, prime, variables, vectors)?;
    let sum = interreduced(alloc, prime, variables, sums.as_slice())?;
    let colons = colon_part(alloc, prime, variables, vectors)?;
    let colon = interreduced(alloc, prime, variables, colons.as_slice())?;
    let dimension = dimension_modulo(alloc, prime, variables, sum.as_slice(), LARGEST_DIMENSION)?;
    Ok(Lifted {
        prime,
        variables,
        denominator: d.clone_poly()?,
        ideal,
        sum,
        colon,
        graded,
        dimension,
    })
}

impl Lifted {
    /// The bases of the ideal of the list and of the denominator d, or `Deep`.
    ///
    /// # Errors
    /// `Deep` exactly where the homogenised polynomials of the list are deep under the cap, or the module of d is, with
    /// the list as it is; `Memory` for want of memory.
    pub fn make(
        alloc: Global,
        prime: Prime,
        variables: u32,
        ideal: &[Poly],
        d: &Poly,
        cap: u32,
    ) -> Result<Lifted, BasisStop>
        requires some_variables { 1 ≤ variables }
        requires six_variables { variables ≤ MAX_VARIABLES }
        requires ideal { All (IsOver prime variables) ideal.now }
        requires denominator { IsOver prime variables d.now }
        requires some_cap { 1 ≤ cap }
        requires cap { cap ≤ MAX_CAP }
        ensures data { IfOk result (λ l. (l.prime ≡ prime) × (l.variables ≡ variables) × (l.denominator ≡ d.now)) }
        ensures ideal { IfOk result (λ l. IsReducedBasis prime variables (InIdeal prime variables (terms_of ideal.now)) (terms_of l.ideal)) }
        ensures not_deep { IfOk result (λ l. IsDeepWith prime variables ideal.now d.now cap → ⊥) }
        ensures deep { IfErr result (λ stop. stop ≡ Deep → IsDeepWith prime variables ideal.now d.now cap) }
    {
        let basis = ideal_basis(alloc, prime, variables, ideal, cap)?;
        Lifted::over_basis(alloc, prime, variables, ideal, basis, d, cap)
    }

    /// The bases of an ideal and of the denominator d, where the reduced basis of the generators' ideal is at hand, or
    /// `Deep`.
    ///
    /// # Errors
    /// `Deep` exactly where the module of d over the generators is deep under the cap; `Memory` for want of memory.
    pub fn over_basis(
        alloc: Global,
        prime: Prime,
        variables: u32,
        generators: &[Poly],
        basis: List<Poly>,
        d: &Poly,
        cap: u32,
    ) -> Result<Lifted, BasisStop>
        requires some_variables { 1 ≤ variables }
        requires six_variables { variables ≤ MAX_VARIABLES }
        requires generators { All (IsOver prime variables) generators.now }
        requires over { All (IsOver prime variables) basis }
        requires basis { IsReducedBasis prime variables (InIdeal prime variables (terms_of generators.now)) (terms_of basis) }
        requires denominator { IsOver prime variables d.now }
        requires some_cap { 1 ≤ cap }
        requires cap { cap ≤ MAX_CAP }
        ensures data { IfOk result (λ l. (l.prime ≡ prime) × (l.variables ≡ variables) × (l.denominator ≡ d.now) × (l.ideal ≡ basis)) }
        ensures not_deep { IfOk result (λ l. IsDeepDenominator prime variables d.now.terms (terms_of generators.now) cap → ⊥) }
        ensures deep { IfErr result (λ stop. stop ≡ Deep → IsDeepDenominator prime variables d.now.terms (terms_of generators.now) cap) }
    {
        let _prime = prime.get();
        let _terms = d.terms();
        let graded = denominator_basis(alloc, prime, variables, generators, d, cap)?;
        Ok(of_module(alloc, prime, variables, generators, d, basis, graded)?)
    }

    /// The prime.
    pub fn prime(&self) -> Prime
        ensures { result ≡ self.now.prime }
    {
        self.prime
    }

    /// The number of variables, from 1 to 6.
    pub fn variables(&self) -> u32
        ensures { result ≡ self.now.variables }
    {
        self.variables
    }

    /// The denominator d.
    pub fn denominator(&self) -> &Poly
        ensures { result.now ≡ self.now.denominator }
    {
        &self.denominator
    }

    /// The reduced basis of I.
    pub fn ideal_basis(&self) -> &[Poly]
        ensures value { result.now ≡ self.now.ideal }
        ensures known { IsLifted self.now }
    {
        self.ideal.as_slice()
    }

    /// The reduced basis of I + (d).
    pub fn sum_basis(&self) -> &[Poly]
        ensures value { result.now ≡ self.now.sum }
        ensures known { IsLifted self.now }
    {
        self.sum.as_slice()
    }

    /// The reduced basis of the colon ideal I : d, of all polynomials whose product with d is in I. Its members have
    /// degree at most 1,000.
    pub fn colon_gens(&self) -> &[Poly]
        ensures value { result.now ≡ self.now.colon }
        ensures known { IsLifted self.now }
    {
        self.colon.as_slice()
    }

    /// The dimension of the polynomials modulo I + (d), where it is at most [`LARGEST_DIMENSION`]. It was counted when the
    /// bases were made.
    pub fn small_dimension(&self) -> Dimension
        ensures { IsDimension self.now LARGEST_DIMENSION result }
    {
        self.dimension
    }
}

impl Lifted {
    /// A polynomial u for which g - u d is in I, or `None` exactly where g is not in I + (d). Where u is not 0, its
    /// degree and that of d are together at most the degree of g plus 1,000.
    ///
    /// It is the normal form of g, lifted by 1,000 degrees, modulo the module of d.
    pub fn lift(&self, alloc: Global, g: &Poly) -> Result<Option<Poly>, NoMemory>
        requires prime { g.now.prime ≡ self.now.prime }
        requires poly { IsPoly self.now.prime self.now.variables g.now.terms }
        requires room { degree_of g.now.terms ≤ 59000 }
        ensures some { IfOk result (λ u. IfSome u (λ u. (u.prime ≡ self.now.prime) × IsLift self.now g.now.terms u.terms)) }
        ensures none { IfOk result (λ u. IsNone u ↔ (InIdeal self.now.prime self.now.variables (self.now.denominator.terms ∷ terms_of self.now.ideal) g.now.terms → ⊥)) }
    {
        let high = homogenised_to(alloc, self.variables, g.degree() + MAX_CAP, g)?;
        let rest = self.graded.normal_form_of(high)?;
        if !has_no_first_part(&rest) {
            return Ok(None);
        }
        Ok(Some(quotient_of(alloc, self.variables, &rest)?))
    }

    /// Whether d is regular modulo I: whether the colon ideal I : d is I.
    pub fn is_regular(&self) -> Result<bool, NoMemory>
        ensures { IfOk result (λ yes. IsTrue yes ↔ Regular self.now.prime self.now.variables (terms_of self.now.ideal) self.now.denominator.terms) }
    {
        Ok(are_same(self.ideal.as_slice(), self.colon.as_slice()))
    }

    /// The dimension of the polynomials modulo I + (d), up to the limit. It is the number of the standard monomials of the
    /// reduced basis of I + (d).
    pub fn dimension(&self, alloc: Global, limit: u32) -> Result<Dimension, NoMemory>
        ensures finite { IfOk result (λ a. (N : ℕ) → (a ≡ Dimension.Finite N) ↔ ((N ≤ limit) × HasDimension self.now N)) }
        ensures wide { IfOk result (λ a. (a ≡ Dimension.Wide) ↔ ((N : ℕ) × (limit < N) × HasDimension self.now N)) }
        ensures infinite { IfOk result (λ a. (a ≡ Dimension.Infinite) ↔ HasInfiniteDimension self.now) }
    {
        dimension_modulo(alloc, self.prime, self.variables, self.sum_basis(), limit)
    }
}
