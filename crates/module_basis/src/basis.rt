// Reduced bases of graded modules.
ghost use Rattle.std.specs.Prelude.{◌≡◌, ◌↔◌, ◌≤◌, ℕ, map, All, IsTrue, IfOk, IfErr};
ghost use Rattle.monomials.specs.declared.mono.TheConstants.{MAX_VARIABLES};
ghost use Rattle.monomials.specs.Mono.{IsMono};
ghost use Rattle.polys.specs.Curve.{IsOver};
ghost use Rattle.polys.specs.Poly.{IsPlain, IsVector, terms_of};
ghost use Rattle.polys.specs.Terms.{EachMono};
ghost use Rattle.graded_modules.specs.Vector.{IsGradedVector, IsGenerator, IsOfDegree, degree_at, lead_mono};
ghost use Rattle.graded_modules.specs.Deep.{HasHighVector, IsDeep};
ghost use Rattle.graded_modules.specs.Bases.{SpanOneModule, IsReduced, IsNormalForm};
ghost use Rattle.module_basis.specs.declared.gens.BasisStop.TheVariants.{Deep};
ghost use Rattle.module_basis.specs.declared.cap.TheConstants.{MAX_CAP};
ghost use Rattle.module_basis.specs.Gens.{AreGens};
ghost use Rattle.homogenising.specs.Laws.{IsHomogeneousPoly};
ghost use Rattle.module_basis.specs.Basis.{IsBasis, AreOverOneRing, IsHigh, lowered_of, lowered, IsLoweredBasis, HasLoweredLeads};

use crate::growing::Growing;
use crate::{BasisStop, Cap, Gens};
use homogenising::laws::{ideals_have_bases_by_leads, leads_lose_the_variable, leads_stay_leads};
use lists::{List, NoMemory};
use module_division::{degree_at, interreduced_vectors, vector_remainder};
use polys::{Poly, Term};
use prime_field::Prime;
use std::alloc::{AllocError, Global};
use std::marker::Model;

/// The reduced basis of a graded module over F_p in the first `variables` variables and the homogenising one.
///
/// Contracts see the same data as of [`Gens`]. The vectors are monic, their leads rise, and no monomial of one is a
/// multiple of the lead of another.
#[derive(Debug, Drop)]
pub struct GradedBasis {
    prime: Prime,
    variables: u32,
    shift: u32,
    vectors: Vec<Poly>,
}

impl Model for GradedBasis {
    ghost use Rattle.module_basis.specs.declared.gens.Gens.{Gens};
    ghost use Rattle.module_basis.specs.Basis.{IsBasis};

    ghost Value = { Gens };

    ghost view = { λ b. record { prime = b.prime; variables = b.variables; shift = b.shift; vectors = b.vectors.items } };

    ghost invariant = { λ b. IsBasis (record { prime = b.prime; variables = b.variables; shift = b.shift; vectors = b.vectors.items }) };
}

/// The reduced basis of the module that the vectors span, by Buchberger's algorithm, degree by degree. The cap is from 1
/// to 1,000.
///
/// `Deep` comes exactly where the module is deep under the cap: where a vector has a degree above it, or two minimal leads
/// of one component, among those of the members of degree at most the cap, have a least common multiple of a degree above
/// it. `Memory` where no memory was to be had.
///
/// For each degree it takes in the vectors of this degree and then the S-vectors of the pairs whose least common multiples
/// have this degree, unless the product or the chain criterion settles them, and divides each by the basis so far. The
/// pairs that wait are gone through once for each degree.
///
/// Greuel and Pfister, section on standard bases of modules.
pub fn graded_basis(alloc: Global, gens: &Gens, cap: u32) -> Result<GradedBasis, BasisStop>
    requires gens { AreGens gens.now }
    requires cap { (1 ≤ cap) × (cap ≤ MAX_CAP) }
    ensures reduced { IfOk result (λ basis. IsBasis basis) }
    ensures same_ring { IfOk result (λ basis. AreOverOneRing gens.now basis) }
    ensures one_module { IfOk result (λ basis. SpanOneModule gens.now.prime gens.now.variables (terms_of gens.now.vectors) (terms_of basis.vectors)) }
    ensures not_deep { IfOk result (λ basis. IsDeep gens.now.prime gens.now.variables gens.now.shift (terms_of gens.now.vectors) cap → ⊥) }
    ensures low { IfOk result (λ basis. All (λ b. degree_at gens.now.shift (lead_mono b) ≤ cap) (terms_of basis.vectors)) }
    ensures deep { IfErr result (λ stop. stop ≡ Deep → IsDeep gens.now.prime gens.now.variables gens.now.shift (terms_of gens.now.vectors) cap) }
{
    let _prime = gens.prime.get();
    if has_high_vector(gens.vectors.as_slice(), gens.shift, cap) {
        return Err(BasisStop::Deep);
    }
    let mut growing = Growing::new(alloc, Cap::new(cap));
    for e in 0..cap + 1 {
        growing.advance(gens, e)?;
    }
    let vectors = interreduced_vectors(alloc, gens.prime, &growing.basis)?;
    Ok(GradedBasis {
        prime: gens.prime,
        variables: gens.variables,
        shift: gens.shift,
        vectors,
    })
}

// Whether a vector that is not 0 has a degree above the cap.
fn has_high_vector(vectors: &[Poly], shift: u32, cap: u32) -> bool
    ensures { IsTrue result ↔ HasHighVector shift (terms_of vectors.now) cap }
{
    for k in 0..vectors.len() {
        if is_high(&vectors[k], shift, cap) {
            return true;
        }
    }
    false
}

// Whether the vector is not 0 and has a degree above the cap.
fn is_high(v: &Poly, shift: u32, cap: u32) -> bool
    ensures { IsTrue result ↔ IsHigh shift cap v.now.terms }
{
    match v.lead() {
        None => false,
        Some(t) => degree_at(shift, &t.mono) > u64::from(cap),
    }
}

impl GradedBasis {
    /// The prime.
    pub fn prime(&self) -> Prime
        ensures { result ≡ self.now.prime }
    {
        self.prime
    }

    /// The number of variables without the homogenising one.
    pub fn variables(&self) -> u32
        ensures { result ≡ self.now.variables }
    {
        self.variables
    }

    /// The degree of the second unit vector.
    pub fn shift(&self) -> u32
        ensures { result ≡ self.now.shift }
    {
        self.shift
    }

    /// The vectors of the reduced basis, in rising order of their leads.
    pub fn vectors(&self) -> &[Poly]
        ensures value { result.now ≡ self.now.vectors }
        ensures known { AreGens self.now × IsReduced self.now.prime self.now.variables self.now.shift (terms_of self.now.vectors) }
    {
        self.vectors.as_slice()
    }

    /// The one vector that differs from the homogeneous vector `v` by a member of the module and has no monomial that is
    /// the lead of a member. It has the degree of `v`, and is 0 exactly where `v` is in the module.
    pub fn normal_form(&self, v: &Poly) -> Result<Poly, NoMemory>
        requires prime { v.now.prime ≡ self.now.prime }
        requires vector { IsGenerator self.now.prime self.now.variables self.now.shift v.now.terms }
        ensures prime { IfOk result (λ r. r.prime ≡ self.now.prime) }
        ensures normal { IfOk result (λ r. IsNormalForm self.now.prime self.now.variables (terms_of self.now.vectors) v.now.terms r.terms) }
        ensures graded { IfOk result (λ r. IsGradedVector self.now.prime self.now.variables r.terms) }
        ensures degree { IfOk result (λ r. (e : ℕ) → IsOfDegree self.now.shift e v.now.terms → IsOfDegree self.now.shift e r.terms) }
    {
        self.normal_form_of(v.clone_poly()?)
    }

    /// The normal form of a vector that is handed over, as of [`normal_form`](GradedBasis::normal_form). The vector is not
    /// copied.
    pub fn normal_form_of(&self, v: Poly) -> Result<Poly, NoMemory>
        requires prime { v.prime ≡ self.now.prime }
        requires vector { IsGenerator self.now.prime self.now.variables self.now.shift v.terms }
        ensures prime { IfOk result (λ r. r.prime ≡ self.now.prime) }
        ensures normal { IfOk result (λ r. IsNormalForm self.now.prime self.now.variables (terms_of self.now.vectors) v.terms r.terms) }
        ensures graded { IfOk result (λ r. IsGradedVector self.now.prime self.now.variables r.terms) }
        ensures degree { IfOk result (λ r. (e : ℕ) → IsOfDegree self.now.shift e v.terms → IsOfDegree self.now.shift e r.terms) }
    {
        let _prime = self.prime.get();
        let terms = v.into_terms();
        let alloc = *terms.allocator();
        let rest = vector_remainder(alloc, self.prime, terms, &self.vectors)?;
        Ok(Poly::of_terms(self.prime, rest))
    }

    /// The reduced basis of the affine ideal, in rising order of the leads: the homogenising variable becomes 1 in each
    /// vector, and what is superfluous then is left out. The vectors have one component.
    ///
    /// Greuel and Pfister, section on homogenisation.
    pub fn dehomogenised(&self) -> Result<List<Poly>, NoMemory>
        requires plain { All (EachMono IsPlain) (terms_of self.now.vectors) }
        ensures over { IfOk result (λ ds. All (IsOver self.now.prime self.now.variables) ds) }
        ensures basis { IfOk result (λ ds. IsLoweredBasis self.now (terms_of ds)) }
        ensures leads { IfOk result (λ ds. HasLoweredLeads self.now (terms_of ds)) }
    {
        let _prime = self.prime.get();
        leads_lose_the_variable();
        leads_stay_leads();
        ideals_have_bases_by_leads();
        let alloc = *self.vectors.allocator();
        let affine = all_lowered(alloc, self.prime, self.variables, &self.vectors)?;
        let reduced = interreduced_vectors(alloc, self.prime, &affine)?;
        Ok(List::of_vec(reduced))
    }
}

// The polynomials with the homogenising variable set to 1.
fn all_lowered(
    alloc: Global,
    prime: Prime,
    variables: u32,
    vectors: &[Poly],
) -> Result<Vec<Poly>, NoMemory>
    requires six_variables { variables ≤ MAX_VARIABLES }
    requires homogeneous { All (IsHomogeneousPoly prime variables) (terms_of vectors.now) }
    ensures value { IfOk result (λ fs. fs.items ≡ map (lowered_of prime) vectors.now) }
    ensures known { IfOk result (λ fs. All (λ f. IsVector prime f.terms) fs.items) }
{
    let mut all = List::new(alloc);
    for k in 0..vectors.len() {
        let g = with_variable_one(alloc, prime, variables, &vectors[k])?;
        all.push(g)?;
    }
    Ok(all.into_vec())
}

// The polynomial with the homogenising variable set to 1. No terms meet.
fn with_variable_one(
    alloc: Global,
    prime: Prime,
    variables: u32,
    f: &Poly,
) -> Result<Poly, NoMemory>
    requires six_variables { variables ≤ MAX_VARIABLES }
    requires homogeneous { IsHomogeneousPoly prime variables f.now.terms }
    ensures value { IfOk result (λ g. g ≡ lowered_of prime f.now) }
    ensures known { IfOk result (λ g. IsVector prime g.terms) }
{
    leads_lose_the_variable();
    let _prime = prime.get();
    let terms = lowered_terms(alloc, f)?;
    Ok(Poly::of_terms(prime, terms))
}

// The terms with the homogenising exponent 0.
fn lowered_terms(alloc: Global, f: &Poly) -> Result<Vec<Term>, AllocError>
    ensures value { IfOk result (λ terms. terms.items ≡ map lowered f.now.terms) }
    ensures known { IfOk result (λ terms. EachMono IsMono terms.items) }
{
    let source = f.terms();
    let mut terms = Vec::new(alloc);
    for t in source {
        terms.push(lowered_term(t))?;
    }
    Ok(terms)
}

// The term with the homogenising exponent 0.
fn lowered_term(t: &Term) -> Term
    ensures value { result ≡ lowered t.now }
    ensures known { IsMono result.mono }
{
    let _degree = t.mono.degree();
    Term {
        coeff: t.coeff,
        mono: t.mono.with_hom(0),
    }
}
