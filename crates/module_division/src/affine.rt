// Polynomials divided by monic ones, and standard bases of ideals reduced.
ghost use Rattle.std.specs.Prelude.{◌≤◌, ◌≡◌, ℕ, All, IfOk};
ghost use Rattle.monomials.specs.declared.mono.TheConstants.{MAX_VARIABLES};
ghost use Rattle.module_division.specs.Ideals.{IsMonicStandardBasis, IsDivisionRemainder};
ghost use Rattle.polys.specs.Poly.{terms_of, IsVector};
ghost use Rattle.polys.specs.Curve.{IsOver};
ghost use Rattle.polys.specs.Ideal.{InIdeal};
ghost use Rattle.polys.specs.Reduced.{IsReducedBasis};
ghost use Rattle.polys.specs.Terms.{IsMonic, IsPoly, degree_of};

use crate::{interreduced_vectors, vector_remainder};
use lists::{List, NoMemory};
use polys::Poly;
use prime_field::Prime;
use std::alloc::Global;

// What each polynomial of the program keeps, said of a list.
fn keep_vectors(fs: &[Poly])
    ensures { All (λ f. IsVector f.prime f.terms) fs.now }
{
    for f in fs {
        let _terms = f.terms();
    }
}

/// The reduced basis of the ideal of monic polynomials that have all leads of their ideal: superfluous members are left
/// out, and the tails of the rest divided by them. The members stand in rising order of their leads, and none is of
/// higher degree than all that are given.
///
/// It sorts the members, compares each with those before it, and divides each tail once. Greuel and Pfister, section on
/// reduced standard bases.
pub fn interreduced(
    alloc: Global,
    prime: Prime,
    variables: u32,
    members: &[Poly],
) -> Result<List<Poly>, NoMemory>
    requires some_variables { 1 ≤ variables }
    requires six_variables { variables ≤ MAX_VARIABLES }
    requires standard { IsMonicStandardBasis prime variables members.now }
    ensures over { IfOk result (λ ds. All (IsOver prime variables) ds) }
    ensures basis { IfOk result (λ ds. IsReducedBasis prime variables (InIdeal prime variables (terms_of members.now)) (terms_of ds)) }
    ensures low { IfOk result (λ ds. (D : ℕ) → All (λ f. degree_of f ≤ D) (terms_of members.now) → All (λ f. degree_of f ≤ D) (terms_of ds)) }
{
    let _prime = prime.get();
    let _variables = variables;
    keep_vectors(members);
    Ok(List::of_vec(interreduced_vectors(alloc, prime, members)?))
}

/// What is left of a polynomial in the first `variables` variables by monic divisors: it differs by a member of their
/// ideal, no lead divides one of its monomials, and its degree is no higher. It takes a step for each multiple of a
/// divisor that is taken away, and each step goes over the terms that are left.
///
/// Greuel and Pfister, section on normal forms.
pub fn remainder(variables: u32, v: &Poly, divisors: &[Poly]) -> Result<Poly, NoMemory>
    requires some_variables { 1 ≤ variables }
    requires six_variables { variables ≤ MAX_VARIABLES }
    requires poly { IsPoly v.now.prime variables v.now.terms }
    requires divisors { All (IsOver v.now.prime variables) divisors.now }
    requires monic { All IsMonic (terms_of divisors.now) }
    ensures prime { IfOk result (λ r. r.prime ≡ v.now.prime) }
    ensures remainder { IfOk result (λ r. IsDivisionRemainder v.now.prime variables (terms_of divisors.now) v.now.terms r.terms) }
{
    let _variables = variables;
    let prime = v.prime();
    let _prime = prime.get();
    keep_vectors(divisors);
    let terms = v.clone_poly()?.into_terms();
    let alloc = *terms.allocator();
    let rest = vector_remainder(alloc, prime, terms, divisors)?;
    Ok(Poly::of_terms(prime, rest))
}
