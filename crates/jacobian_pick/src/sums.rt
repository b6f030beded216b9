// Sums of a polynomial with multiples of another one.
ghost use Rattle.std.specs.Prelude.{◌≡◌, ◌<◌, ◌≤◌, ◌++◌, ℕ, [], All, IfOk, OnOk, flat_map};
ghost use Rattle.jacobian_pick.specs.declared.jacobian.TheConstants.{MAX_MINOR_DEGREE};
ghost use Rattle.monomials.specs.declared.mono.TheConstants.{MAX_VARIABLES};
ghost use Rattle.jacobian_pick.specs.Candidates.{over_pairs, over_others, number_sums, variable_sums};
ghost use Rattle.jacobian_pick.specs.Lists.{polynomials, IsUpTo};
ghost use Rattle.polys.specs.Poly.{terms_of};

use lists::{List, NoMemory};
use monomials::Mono;
use polys::{Poly, Term};
use prime_field::Prime;
use std::alloc::Global;

// Puts f + c g at the end of `into`, for c from 1 to the smaller of p - 1 and 7.
fn push_number_sums(
    prime: Prime,
    variables: u32,
    f: &Poly,
    g: &Poly,
    into: &mut List<Poly>,
) -> Result<(), NoMemory>
    requires f { IsUpTo prime variables MAX_MINOR_DEGREE f.now }
    requires g { IsUpTo prime variables MAX_MINOR_DEGREE g.now }
    ensures { OnOk result (into.new ≡ into.old ++ polynomials prime (number_sums prime f.now.terms g.now.terms)) }
{
    let last = (prime.get() - 1).min(7);
    for c in 0..last {
        let factor = Term {
            coeff: c + 1,
            mono: Mono::one(),
        };
        into.push(f.add(&g.mul_term(factor)?)?)?;
    }
    Ok(())
}

// Puts these sums of `f` with multiples of each of the others at the end of `into`.
fn push_all_number_sums(
    prime: Prime,
    variables: u32,
    f: &Poly,
    others: &[Poly],
    into: &mut List<Poly>,
) -> Result<(), NoMemory>
    requires f { IsUpTo prime variables MAX_MINOR_DEGREE f.now }
    requires others { All (IsUpTo prime variables MAX_MINOR_DEGREE) others.now }
    ensures { OnOk result (into.new ≡ into.old ++ polynomials prime (flat_map (number_sums prime f.now.terms) (terms_of others.now))) }
{
    for g in others {
        push_number_sums(prime, variables, f, g, into)?;
    }
    Ok(())
}

/// The sums f + c g for each f of the list, each later g, and c from 1 to the smaller of p - 1 and 7.
pub fn sums_by_numbers(
    alloc: Global,
    prime: Prime,
    variables: u32,
    members: &[Poly],
) -> Result<List<Poly>, NoMemory>
    requires { All (IsUpTo prime variables MAX_MINOR_DEGREE) members.now }
    ensures { IfOk result (λ fs. fs ≡ polynomials prime (over_pairs (number_sums prime) (terms_of members.now))) }
{
    let mut sums = List::new(alloc);
    for i in 0..members.len() {
        push_all_number_sums(prime, variables, &members[i], &members[i + 1..], &mut sums)?;
    }
    Ok(sums)
}

// Puts f + x g at the end of `into`, for each variable x.
fn push_variable_sums(
    prime: Prime,
    variables: u32,
    f: &Poly,
    g: &Poly,
    into: &mut List<Poly>,
) -> Result<(), NoMemory>
    requires variables { variables ≤ MAX_VARIABLES }
    requires f { IsUpTo prime variables MAX_MINOR_DEGREE f.now }
    requires g { IsUpTo prime variables MAX_MINOR_DEGREE g.now }
    ensures { OnOk result (into.new ≡ into.old ++ polynomials prime (variable_sums prime variables f.now.terms g.now.terms)) }
{
    let _prime = prime.get();
    for v in 0..variables {
        let factor = Term {
            coeff: 1,
            mono: Mono::var(v),
        };
        into.push(f.add(&g.mul_term(factor)?)?)?;
    }
    Ok(())
}

// Puts these sums of `f` with multiples of each of the others at the end of `into`.
fn push_all_variable_sums(
    prime: Prime,
    variables: u32,
    f: &Poly,
    others: &[Poly],
    into: &mut List<Poly>,
) -> Result<(), NoMemory>
    requires variables { variables ≤ MAX_VARIABLES }
    requires f { IsUpTo prime variables MAX_MINOR_DEGREE f.now }
    requires others { All (IsUpTo prime variables MAX_MINOR_DEGREE) others.now }
    ensures { OnOk result (into.new ≡ into.old ++ polynomials prime (flat_map (variable_sums prime variables f.now.terms) (terms_of others.now))) }
{
    for g in others {
        push_variable_sums(prime, variables, f, g, into)?;
    }
    Ok(())
}

/// The sums f + x g for each f of the list, each other g, and each variable x.
pub fn sums_by_variables(
    alloc: Global,
    prime: Prime,
    variables: u32,
    members: &[Poly],
) -> Result<List<Poly>, NoMemory>
    requires variables { variables ≤ MAX_VARIABLES }
    requires members { All (IsUpTo prime variables MAX_MINOR_DEGREE) members.now }
    ensures { IfOk result (λ fs. fs ≡ polynomials prime (over_others (variable_sums prime variables) [] (terms_of members.now))) }
{
    let mut sums = List::new(alloc);
    for i in 0..members.len() {
        push_all_variable_sums(prime, variables, &members[i], &members[..i], &mut sums)?;
        push_all_variable_sums(prime, variables, &members[i], &members[i + 1..], &mut sums)?;
    }
    Ok(sums)
}
