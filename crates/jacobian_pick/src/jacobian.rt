// The entries and the 2-by-2 minors of the Jacobian matrix.
ghost use Rattle.std.specs.Prelude.{◌≡◌, ◌<◌, ◌++◌, [], ◌∷◌, All, IfOk, OnOk, flat_map};
ghost use Rattle.jacobian_pick.specs.Candidates.{over_pairs, partials, minor, row_minors, jacobian};
ghost use Rattle.jacobian_pick.specs.Lists.{polynomials, IsUpTo};
ghost use Rattle.problem.specs.declared.limits.TheConstants.{MAX_VALUE_DEGREE};
ghost use Rattle.polys.specs.Poly.{terms_of};
ghost use Rattle.polys.specs.Terms.{one};

use lists::{List, NoMemory};
use polys::Poly;
use prime_field::Prime;
use std::alloc::Global;

/// The greatest degree of an entry or a minor: twice the greatest degree of a value, less two.
pub const MAX_MINOR_DEGREE: u32 = 118;

// The partial derivatives of each polynomial by the first variable and by the second.
fn partials(alloc: Global, prime: Prime, gens: &[Poly]) -> Result<List<Poly>, NoMemory>
    requires { All (IsUpTo prime 2 MAX_VALUE_DEGREE) gens.now }
    ensures { IfOk result (λ fs. fs ≡ polynomials prime (flat_map (partials prime) (terms_of gens.now))) }
{
    let mut entries = List::new(alloc);
    for f in gens {
        entries.push(f.derivative(0)?)?;
        entries.push(f.derivative(1)?)?;
    }
    Ok(entries)
}

// The minor of the rows of `f` and `g` and of the columns `k` and `l`.
fn minor(prime: Prime, f: &Poly, g: &Poly, k: u32, l: u32) -> Result<Poly, NoMemory>
    requires f { IsUpTo prime 3 MAX_VALUE_DEGREE f.now }
    requires g { IsUpTo prime 3 MAX_VALUE_DEGREE g.now }
    requires k { k < 3 }
    requires l { l < 3 }
    ensures { IfOk result (λ m. m ≡ record { prime = prime; terms = minor prime k l f.now.terms g.now.terms }) }
{
    let straight = f.derivative(k)?.mul(&g.derivative(l)?)?;
    let crossed = f.derivative(l)?.mul(&g.derivative(k)?)?;
    straight.sub(&crossed)
}

// Puts the minors of the rows of `f` and `g` at the end of `into`.
fn push_row_minors(prime: Prime, f: &Poly, g: &Poly, into: &mut List<Poly>) -> Result<(), NoMemory>
    requires f { IsUpTo prime 3 MAX_VALUE_DEGREE f.now }
    requires g { IsUpTo prime 3 MAX_VALUE_DEGREE g.now }
    ensures { OnOk result (into.new ≡ into.old ++ polynomials prime (row_minors prime f.now.terms g.now.terms)) }
{
    into.push(minor(prime, f, g, 0, 1)?)?;
    into.push(minor(prime, f, g, 0, 2)?)?;
    into.push(minor(prime, f, g, 1, 2)?)
}

// Puts the minors of the row of `f` and each of the rows at the end of `into`.
fn push_minors(prime: Prime, f: &Poly, rows: &[Poly], into: &mut List<Poly>) -> Result<(), NoMemory>
    requires f { IsUpTo prime 3 MAX_VALUE_DEGREE f.now }
    requires rows { All (IsUpTo prime 3 MAX_VALUE_DEGREE) rows.now }
    ensures { OnOk result (into.new ≡ into.old ++ polynomials prime (flat_map (row_minors prime f.now.terms) (terms_of rows.now))) }
{
    for g in rows {
        push_row_minors(prime, f, g, into)?;
    }
    Ok(())
}

// The minors of each two rows of three columns.
fn minors(alloc: Global, prime: Prime, gens: &[Poly]) -> Result<List<Poly>, NoMemory>
    requires { All (IsUpTo prime 3 MAX_VALUE_DEGREE) gens.now }
    ensures { IfOk result (λ fs. fs ≡ polynomials prime (over_pairs (row_minors prime) (terms_of gens.now))) }
{
    let mut minors = List::new(alloc);
    for i in 0..gens.len() {
        push_minors(prime, &gens[i], &gens[i + 1..], &mut minors)?;
    }
    Ok(minors)
}

// The polynomial 1 alone.
fn one_alone(alloc: Global, prime: Prime) -> Result<List<Poly>, NoMemory>
    ensures { IfOk result (λ fs. fs ≡ polynomials prime (one ∷ [])) }
{
    let mut alone = List::new(alloc);
    alone.push(Poly::one(alloc, prime)?)?;
    Ok(alone)
}

/// With one variable the polynomial 1, with two the partial derivatives of each generator, with three the minors of
/// each two rows of the Jacobian matrix, and nothing with more.
pub fn jacobian(
    alloc: Global,
    prime: Prime,
    variables: u32,
    gens: &[Poly],
) -> Result<List<Poly>, NoMemory>
    requires { All (IsUpTo prime variables MAX_VALUE_DEGREE) gens.now }
    ensures { IfOk result (λ fs. fs ≡ polynomials prime (jacobian prime variables (terms_of gens.now))) }
{
    match variables {
        1 => one_alone(alloc, prime),
        2 => partials(alloc, prime, gens),
        3 => minors(alloc, prime, gens),
        _ => Ok(List::new(alloc)),
    }
}
