// The growing basis: all of one degree before the next one.
ghost use Rattle.std.specs.Prelude.{◌≡◌, ◌⊎◌, ◌+◌, ◌<◌, ◌≤◌, List, [], ◌∷◌, ◌++◌, length, All, Contains, OnOk, IfErr};
ghost use Rattle.polys.specs.declared.term.Term.{Term};
ghost use Rattle.graded_modules.specs.Vector.{degree_at, lead_mono};
ghost use Rattle.graded_modules.specs.Module.{InModule};
ghost use Rattle.module_basis.specs.declared.gens.BasisStop.TheVariants.{Deep};
ghost use Rattle.module_basis.specs.Gens.{AreGens, IsHomogeneousOver};
ghost use Rattle.polys.specs.Poly.{terms_of};
ghost use Rattle.module_division.specs.Vectors.{member};
ghost use Rattle.module_basis.specs.Growing.{IsPair, IsSettledPair, IsSettledPairOf, AreAwaited, IsPairAwaited, IsLastAwaited, IsGrowing, MayGrow};
ghost use Rattle.module_basis.specs.Growing.{GainsPairs, GainsVector, IsMemberAt, IsTaken, AreTaken, IsNewAt, IsBelowAll, HasHighLeads};

use crate::columns::columns_for;
use crate::pairs::{Pair, Parted, are_coprime, is_chained, part_by_degree, s_vector};
use crate::{BasisStop, Cap, Gens};
use lists::NoMemory;
use module_division::{Columns, degree_at, lead_mono};
use monomials::Mono;
use polys::{Poly, Term};
use std::alloc::Global;

// Monic vectors of which no lead divides another one, and the pairs of them that wait.
#[derive(Drop)]
pub(crate) struct Growing {
    pub(crate) cap: Cap,
    pub(crate) basis: Vec<Poly>,
    pub(crate) pairs: Vec<Pair>,
}

impl Growing {
    // No vector yet.
    pub(crate) fn new(alloc: Global, cap: Cap) -> Growing
        ensures cap { result.cap ≡ cap }
        ensures basis { result.basis.items ≡ [] }
        ensures pairs { result.pairs.items ≡ [] }
    {
        Growing {
            cap,
            basis: Vec::new(alloc),
            pairs: Vec::new(alloc),
        }
    }

    // Goes from degree e to the next one.
    pub(crate) fn advance(&mut self, gens: &Gens, e: u32) -> Result<(), BasisStop>
        requires gens { AreGens gens.now }
        requires degree { e ≤ self.old.cap }
        requires ready { MayGrow gens.now e self.old }
        ensures ready { OnOk result (MayGrow gens.now (e + 1) self.new) }
        ensures low { OnOk result (All (λ b. degree_at gens.now.shift (lead_mono b) ≤ e) (terms_of self.new.basis.items)) }
        ensures cap { OnOk result (self.new.cap ≡ self.old.cap) }
        ensures deep { IfErr result (λ stop. stop ≡ Deep → HasHighLeads gens.now self.old.cap) }
    {
        let _prime = gens.prime.get();
        self.take_generators(gens, e)?;
        self.settle_pairs(gens, e)?;
        Ok(())
    }

    // Takes in the generators of degree e.
    fn take_generators(&mut self, gens: &Gens, e: u32) -> Result<(), BasisStop>
        requires gens { AreGens gens.now }
        requires degree { e ≤ self.old.cap }
        requires growing { IsGrowing gens.now e self.old }
        ensures growing { OnOk result (IsGrowing gens.now e self.new) }
        ensures gains { OnOk result (GainsVector gens.now e self.old self.new) }
        ensures members { OnOk result (AreTaken gens.now e (terms_of self.new.basis.items)) }
        ensures deep { IfErr result (λ stop. stop ≡ Deep → HasHighLeads gens.now self.old.cap) }
    {
        let _prime = gens.prime.get();
        let mut columns = Columns::none(*self.basis.allocator());
        let vectors = gens.vectors.as_slice();
        for k in 0..vectors.len() {
            self.take_generator(gens, &mut columns, &vectors[k], e)?;
        }
        Ok(())
    }

    // Takes in the generator, if it has degree e.
    fn take_generator(
        &mut self,
        gens: &Gens,
        columns: &mut Columns,
        v: &Poly,
        e: u32,
    ) -> Result<(), BasisStop>
        requires gens { AreGens gens.now }
        requires degree { e ≤ self.old.cap }
        requires growing { IsGrowing gens.now e self.old }
        requires vector { IsHomogeneousOver gens.now.prime gens.now.variables gens.now.shift v.now }
        requires member { InModule gens.now.prime gens.now.variables (terms_of gens.now.vectors) v.now.terms }
        ensures growing { OnOk result (IsGrowing gens.now e self.new) }
        ensures gains { OnOk result (GainsVector gens.now e self.old self.new) }
        ensures member { OnOk result (IsTaken gens.now e (terms_of self.new.basis.items) v.now.terms) }
        ensures deep { IfErr result (λ stop. stop ≡ Deep → HasHighLeads gens.now self.old.cap) }
    {
        if degree_at(gens.shift, &lead_mono(v)) != u64::from(e) {
            return Ok(());
        }
        let terms = v.clone_poly()?.into_terms();
        self.take(gens, columns, terms, e)?;
        Ok(())
    }

    // Settles the pairs of degree e; later ones go on waiting. New pairs have degrees above e.
    fn settle_pairs(&mut self, gens: &Gens, e: u32) -> Result<(), BasisStop>
        requires gens { AreGens gens.now }
        requires degree { e ≤ self.old.cap }
        requires ready { MayGrow gens.now e self.old }
        ensures growing { OnOk result (IsGrowing gens.now e self.new) }
        ensures cap { OnOk result (self.new.cap ≡ self.old.cap) }
        ensures vectors { OnOk result ((b : List Term) → Contains (terms_of self.old.basis.items) b → Contains (terms_of self.new.basis.items) b) }
        ensures late { OnOk result (All (λ q. e < q.degree) self.new.pairs.items) }
        ensures awaited { OnOk result (AreAwaited gens.now self.old.cap (terms_of self.new.basis.items) self.new.pairs.items (length self.new.basis.items)) }
        ensures deep { IfErr result (λ stop. stop ≡ Deep → HasHighLeads gens.now self.old.cap) }
    {
        let _prime = gens.prime.get();
        let alloc = *self.pairs.allocator();
        let Parted { due, later } = part_by_degree(alloc, &self.pairs, e)?;
        self.pairs = later;
        let mut columns = columns_for(alloc, gens, &self.basis, due.len(), e)?;
        for k in 0..due.len() {
            self.settle(gens, &mut columns, &due[..k], due[k], e)?;
        }
        Ok(())
    }

    // Settles the pair of degree e, unless a criterion says that it is. Those before it are done.
    fn settle(
        &mut self,
        gens: &Gens,
        columns: &mut Columns,
        done: &[Pair],
        pair: Pair,
        e: u32,
    ) -> Result<(), BasisStop>
        requires gens { AreGens gens.now }
        requires low { e ≤ self.old.cap }
        requires growing { IsGrowing gens.now e self.old }
        requires done { All (IsSettledPairOf gens.now (terms_of self.old.basis.items)) done.now }
        requires pair { IsPair gens.now.shift (terms_of self.old.basis.items) pair }
        requires degree { pair.degree ≡ e }
        ensures growing { OnOk result (IsGrowing gens.now e self.new) }
        ensures gains { OnOk result (GainsVector gens.now e self.old self.new) }
        ensures settled { OnOk result (IsSettledPair gens.now (terms_of self.new.basis.items) pair.first pair.second) }
        ensures deep { IfErr result (λ stop. stop ≡ Deep → HasHighLeads gens.now self.old.cap) }
    {
        let _prime = gens.prime.get();
        let _cap = self.cap.get();
        if is_chained(gens, &self.basis, done, pair) {
            return Ok(());
        }
        let s = s_vector(gens, &self.basis[pair.first], &self.basis[pair.second])?;
        self.take(gens, columns, s.into_terms(), e)?;
        Ok(())
    }

    // Takes in what the basis leaves of a vector of degree e, unless that is 0.
    fn take(
        &mut self,
        gens: &Gens,
        columns: &mut Columns,
        v: Vec<Term>,
        e: u32,
    ) -> Result<(), BasisStop>
        requires gens { AreGens gens.now }
        requires degree { e ≤ self.old.cap }
        requires growing { IsGrowing gens.now e self.old }
        requires vector { IsMemberAt gens.now e v.items }
        ensures growing { OnOk result (IsGrowing gens.now e self.new) }
        ensures gains { OnOk result (GainsVector gens.now e self.old self.new) }
        ensures member { OnOk result (InModule gens.now.prime gens.now.variables (terms_of self.new.basis.items) v.items) }
        ensures below { OnOk result (IsBelowAll gens.now e (terms_of self.new.basis.items) v.items) }
        ensures deep { IfErr result (λ stop. stop ≡ Deep → HasHighLeads gens.now self.old.cap) }
    {
        let _prime = gens.prime.get();
        let _cap = self.cap.get();
        let alloc = *self.basis.allocator();
        let rest = columns.remainder(alloc, gens.prime, v, &self.basis)?;
        if rest.is_empty() {
            return Ok(());
        }
        let b = Poly::of_terms(gens.prime, rest).monic()?;
        self.add(gens, b, e)?;
        Ok(())
    }

    // Adds a monic vector of degree e whose lead is no multiple of a lead.
    fn add(&mut self, gens: &Gens, b: Poly, e: u32) -> Result<(), BasisStop>
        requires gens { AreGens gens.now }
        requires degree { e ≤ self.old.cap }
        requires growing { IsGrowing gens.now e self.old }
        requires fresh { IsNewAt gens.now e (terms_of self.old.basis.items) b }
        ensures growing { OnOk result (IsGrowing gens.now e self.new) }
        ensures gains { OnOk result (GainsVector gens.now e self.old self.new) }
        ensures vectors { OnOk result (self.new.basis.items ≡ self.old.basis.items ++ b ∷ []) }
        ensures deep { IfErr result (λ stop. stop ≡ Deep → HasHighLeads gens.now self.old.cap) }
    {
        let _prime = gens.prime.get();
        self.push(b)?;
        self.pair_up(gens, e)?;
        Ok(())
    }

    // Puts the vector at the end.
    fn push(&mut self, b: Poly) -> Result<(), NoMemory>
        ensures cap { self.new.cap ≡ self.old.cap }
        ensures vectors { OnOk result (self.new.basis.items ≡ self.old.basis.items ++ b ∷ []) }
        ensures pairs { self.new.pairs.items ≡ self.old.pairs.items }
    {
        Ok(self.basis.push(b)?)
    }

    // Puts the pair at the end.
    fn wait(&mut self, pair: Pair) -> Result<(), NoMemory>
        ensures cap { self.new.cap ≡ self.old.cap }
        ensures vectors { self.new.basis.items ≡ self.old.basis.items }
        ensures pairs { OnOk result (self.new.pairs.items ≡ self.old.pairs.items ++ pair ∷ []) }
    {
        Ok(self.pairs.push(pair)?)
    }

    // Forms the pairs of the last vector, which has the degree e, with the others.
    fn pair_up(&mut self, gens: &Gens, e: u32) -> Result<(), BasisStop>
        requires gens { AreGens gens.now }
        requires degree { e ≤ self.old.cap }
        requires growing { IsGrowing gens.now e self.old }
        requires some { 0 < length self.old.basis.items }
        requires last { (k : _) → k + 1 ≡ length self.old.basis.items → degree_at gens.now.shift (lead_mono (member (terms_of self.old.basis.items) k)) ≡ e }
        ensures growing { OnOk result (IsGrowing gens.now e self.new) }
        ensures gains { OnOk result (GainsPairs e self.old self.new) }
        ensures awaited { OnOk result (IsLastAwaited gens.now self.old.cap (terms_of self.old.basis.items) self.new.pairs.items (length self.old.basis.items)) }
        ensures deep { IfErr result (λ stop. stop ≡ Deep → HasHighLeads gens.now self.old.cap) }
    {
        let last = self.basis.len() - 1;
        for first in 0..last {
            self.join(gens, first, last, e)?;
        }
        Ok(())
    }

    // Lets the pair wait, where it is one and the product criterion does not settle it. The second vector has degree e.
    fn join(&mut self, gens: &Gens, first: usize, second: usize, e: u32) -> Result<(), BasisStop>
        requires gens { AreGens gens.now }
        requires degree { e ≤ self.old.cap }
        requires growing { IsGrowing gens.now e self.old }
        requires rising { first < second }
        requires inside { second < length self.old.basis.items }
        requires last { degree_at gens.now.shift (lead_mono (member (terms_of self.old.basis.items) second)) ≡ e }
        ensures growing { OnOk result (IsGrowing gens.now e self.new) }
        ensures gains { OnOk result (GainsPairs e self.old self.new) }
        ensures awaited { OnOk result (IsPairAwaited gens.now self.old.cap (terms_of self.old.basis.items) self.new.pairs.items first second) }
        ensures deep { IfErr result (λ stop. stop ≡ Deep → HasHighLeads gens.now self.old.cap) }
    {
        let _prime = gens.prime.get();
        let cap = self.cap.get();
        let f = &self.basis[first];
        let g = &self.basis[second];
        let a = lead_mono(f);
        let b = lead_mono(g);
        if a.component() != b.component() {
            return Ok(());
        }
        let m = Mono::lcm(&a, &b);
        let degree = degree_at(gens.shift, &m);
        if degree > u64::from(cap) {
            return Err(BasisStop::Deep);
        }
        if are_coprime(f, g, &m) {
            return Ok(());
        }
        self.wait(Pair {
            first,
            second,
            degree,
        })?;
        Ok(())
    }
}
