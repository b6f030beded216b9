// Polynomials, and vectors of two of them, as falling lists of terms.
ghost use Rattle.std.specs.Prelude.{◌≡◌, ◌≢◌, ◌+◌, ◌*◌, ◌<◌, ◌≤◌, ◌↔◌, [], ◌∷◌, IsTrue, IfOk, IfSome, IsNone, length};
ghost use Rattle.monomials.specs.declared.mono.TheConstants.{MAX_DEGREE};
ghost use Rattle.monomials.specs.Mono.{total_degree};
ghost use Rattle.polys.specs.Terms.{normal, one, lead, degree_of, EachMono, IsAffine, IsMonicOf};
ghost use Rattle.polys.specs.Poly.{IsVector, IsPlain, sum_of, difference_of, product_of, term_multiple_of, power_of, derivative_of};

use crate::{Term, terms, top};
use lists::NoMemory;
use prime_field::Prime;
use std::alloc::Global;
use std::marker::Model;

/// A polynomial over a prime field, or a vector of two of them.
///
/// Contracts see the prime and the list of its terms. The terms fall in dp, each monomial stands once, and the
/// coefficients are from 1 to p - 1. In a polynomial all monomials have component 0, and in an affine one the
/// homogenising exponent 0 too.
#[derive(Debug, Drop)]
pub struct Poly {
    prime: Prime,
    terms: Vec<Term>,
}

impl Model for Poly {
    ghost use Rattle.polys.specs.Poly.{Polynomial, IsVector};

    ghost Value = { Polynomial };

    ghost view = { λ f. record { prime = f.prime; terms = f.terms.items } };

    ghost invariant = { λ f. IsVector f.prime f.terms.items };
}

impl Poly {
    /// The polynomial 0, which takes no memory.
    pub fn zero(alloc: Global, p: Prime) -> Poly
        ensures { result ≡ record { prime = p; terms = [] } }
    {
        Poly {
            prime: p,
            terms: Vec::new(alloc),
        }
    }

    /// The polynomial 1.
    pub fn one(alloc: Global, p: Prime) -> Result<Poly, NoMemory>
        ensures { IfOk result (λ f. f ≡ record { prime = p; terms = one }) }
    {
        let terms = terms::one(alloc, p)?;
        Ok(Poly { prime: p, terms })
    }

    /// The polynomial whose terms these are, moved; they fall in dp and have coefficients from 1 to p - 1.
    pub fn of_terms(p: Prime, terms: Vec<Term>) -> Poly
        requires { IsVector p terms.items }
        ensures { result ≡ record { prime = p; terms = terms.items } }
    {
        Poly { prime: p, terms }
    }

    /// The terms, moved, in falling order.
    pub fn into_terms(self) -> Vec<Term>
        ensures value { result.items ≡ self.terms }
        ensures known { IsVector self.prime self.terms }
    {
        let Poly { prime: _, terms } = self;
        terms
    }

    /// The polynomial of one term, whose coefficient is a residue. The coefficient 0 gives 0.
    pub fn from_term(alloc: Global, p: Prime, t: Term) -> Result<Poly, NoMemory>
        requires { t.coeff < p }
        ensures { IfOk result (λ f. f ≡ record { prime = p; terms = normal p (t ∷ []) }) }
    {
        let mut terms = Vec::new(alloc);
        if t.coeff != 0 {
            terms.push(t)?;
        }
        Ok(Poly { prime: p, terms })
    }

    /// The prime.
    pub fn prime(&self) -> Prime
        ensures { result ≡ self.now.prime }
    {
        self.prime
    }

    /// The terms, from the greatest monomial to the least.
    pub fn terms(&self) -> &[Term]
        ensures value { result.now ≡ self.now.terms }
        ensures known { IsVector self.now.prime self.now.terms }
    {
        self.terms.as_slice()
    }

    /// The term with the greatest monomial, or `None` exactly for 0.
    pub fn lead(&self) -> Option<Term>
        ensures { result ≡ lead self.now.terms }
    {
        self.terms.first().copied()
    }

    /// The greatest degree of a monomial, with the homogenising exponent counted, and 0 for the polynomial 0.
    pub fn degree(&self) -> u32
        ensures { result ≡ degree_of self.now.terms }
    {
        terms::degree(&self.terms)
    }

    /// Whether all monomials have component 0, as those of a second factor must.
    pub fn is_plain(&self) -> bool
        ensures { IsTrue result ↔ EachMono IsPlain self.now.terms }
    {
        terms::is_plain(&self.terms)
    }

    /// Whether all monomials are without the homogenising variable and of component 0: a polynomial in the six variables.
    pub fn is_affine(&self) -> bool
        ensures { IsTrue result ↔ EachMono (IsAffine 6) self.now.terms }
    {
        terms::is_affine(&self.terms)
    }

    /// Whether the primes and the terms are equal.
    pub fn same(&self, other: &Poly) -> bool
        ensures { IsTrue result ↔ (self.now ≡ other.now) }
    {
        self.prime == other.prime && self.terms.as_slice() == other.terms.as_slice()
    }

    /// The same polynomial again.
    pub fn clone_poly(&self) -> Result<Poly, NoMemory>
        ensures { IfOk result (λ f. f ≡ self.now) }
    {
        let alloc = *self.terms.allocator();
        let terms = self.terms.as_slice().to_vec(alloc)?;
        Ok(Poly {
            prime: self.prime,
            terms,
        })
    }

    /// The sum. It takes one step for each term of both.
    pub fn add(&self, other: &Poly) -> Result<Poly, NoMemory>
        requires { self.now.prime ≡ other.now.prime }
        ensures { IfOk result (λ f. f ≡ sum_of self.now other.now) }
    {
        let alloc = *self.terms.allocator();
        let terms = terms::sum(alloc, self.prime, &self.terms, &other.terms)?;
        Ok(Poly {
            prime: self.prime,
            terms,
        })
    }

    /// The difference. It takes one step for each term of `self` and two for each of `other`.
    pub fn sub(&self, other: &Poly) -> Result<Poly, NoMemory>
        requires { self.now.prime ≡ other.now.prime }
        ensures { IfOk result (λ f. f ≡ difference_of self.now other.now) }
    {
        let alloc = *self.terms.allocator();
        let p = self.prime;
        let negative = terms::multiple(alloc, p, p.get() - 1, &other.terms)?;
        let terms = terms::sum(alloc, p, &self.terms, &negative)?;
        Ok(Poly { prime: p, terms })
    }

    /// The product. All monomials of `other` have component 0, and the degrees add up to at most `MAX_DEGREE`.
    ///
    /// The factor with fewer terms is halved again and again and the products of its parts are merged, so with m terms
    /// and n fewer terms it takes about m n log n steps. A vector with fewer terms than `other` is not halved: then it
    /// takes m n log m.
    pub fn mul(&self, other: &Poly) -> Result<Poly, NoMemory>
        requires prime { self.now.prime ≡ other.now.prime }
        requires plain { EachMono IsPlain other.now.terms }
        requires room { degree_of self.now.terms + degree_of other.now.terms ≤ MAX_DEGREE }
        ensures { IfOk result (λ f. f ≡ product_of self.now other.now) }
    {
        let alloc = *self.terms.allocator();
        let terms = terms::product(alloc, self.prime, &self.terms, &other.terms)?;
        Ok(Poly {
            prime: self.prime,
            terms,
        })
    }

    /// The product with the term `t` of component 0, whose coefficient is a residue. Unless that is 0, the degrees add
    /// up to at most `MAX_DEGREE`. It takes one step for each term.
    pub fn mul_term(&self, t: Term) -> Result<Poly, NoMemory>
        requires residue { t.coeff < self.now.prime }
        requires plain { IsPlain t.mono }
        requires room { t.coeff ≢ 0 → degree_of self.now.terms + total_degree t.mono.exponents ≤ MAX_DEGREE }
        ensures { IfOk result (λ f. f ≡ term_multiple_of self.now t) }
    {
        let alloc = *self.terms.allocator();
        if t.coeff == 0 {
            return Ok(Poly::zero(alloc, self.prime));
        }
        let terms = terms::term_multiple(alloc, self.prime, &self.terms, t)?;
        Ok(Poly {
            prime: self.prime,
            terms,
        })
    }

    /// The power with the exponent `n`. All monomials have component 0, and `n` times the degree is at most `MAX_DEGREE`.
    ///
    /// With two or more terms it takes n products with `self`, which for many terms costs less than squaring does.
    /// With one term or none it takes about log n products of one term.
    pub fn power(&self, n: u32) -> Result<Poly, NoMemory>
        requires plain { EachMono IsPlain self.now.terms }
        requires room { degree_of self.now.terms * n ≤ MAX_DEGREE }
        ensures { IfOk result (λ f. f ≡ power_of self.now n) }
    {
        let alloc = *self.terms.allocator();
        let terms = terms::power(alloc, self.prime, &self.terms, n)?;
        Ok(Poly {
            prime: self.prime,
            terms,
        })
    }

    /// The power, or `None` exactly where it has more terms than the limit. All monomials of `self` have component 0.
    ///
    /// A power with more terms is found out by its first terms, with no more than a few times as many terms as the limit
    /// at a time, unless terms cancel out: then more and more of them are made, at last the whole power.
    pub fn power_within(&self, n: u32, limit: usize) -> Result<Option<Poly>, NoMemory>
        requires plain { EachMono IsPlain self.now.terms }
        requires room { degree_of self.now.terms * n ≤ MAX_DEGREE }
        ensures few { IfOk result (λ r. IfSome r (λ f. (f ≡ power_of self.now n) × (length f.terms ≤ limit))) }
        ensures many { IfOk result (λ r. IsNone r → limit < length (power_of self.now n).terms) }
    {
        let alloc = *self.terms.allocator();
        let p = self.prime;
        match top::power_within(alloc, p, &self.terms, n, limit)? {
            None => Ok(None),
            Some(terms) => Ok(Some(Poly { prime: p, terms })),
        }
    }

    /// The partial derivative by the variable number `v`, counted from 0.
    pub fn derivative(&self, v: u32) -> Result<Poly, NoMemory>
        requires { v < 6 }
        ensures { IfOk result (λ f. f ≡ derivative_of self.now v) }
    {
        let alloc = *self.terms.allocator();
        let terms = terms::derivative(alloc, self.prime, v, &self.terms)?;
        Ok(Poly {
            prime: self.prime,
            terms,
        })
    }

    /// The multiple by a residue whose lead has the coefficient 1. The polynomial 0 stays 0.
    pub fn monic(&self) -> Result<Poly, NoMemory>
        ensures prime { IfOk result (λ f. f.prime ≡ self.now.prime) }
        ensures monic { IfOk result (λ f. IsMonicOf self.now.prime self.now.terms f.terms) }
    {
        let alloc = *self.terms.allocator();
        let terms = terms::monic(alloc, self.prime, &self.terms)?;
        Ok(Poly {
            prime: self.prime,
            terms,
        })
    }
}

#[cfg(test)]
mod tests;
