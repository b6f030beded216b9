//! The reduced basis of a graded module, for times: prints how many members it has and the sum of the degrees of their leads,
//! and the time where a word is given.
//!
//! The input is numbers between blanks: the prime, the cap, the number of variables without the homogenising one, the degree of
//! the second unit vector, and for each generator the number of its terms, then for each term the coefficient, the component, 0
//! or 1, and the exponents of the variables, the homogenising one last. Generators must be homogeneous.
#![tactic(auto)]

ghost use Rattle.std.specs.Prelude.{◌≡◌, ◌≤◌, ◌<◌, All, IfOk, OnOk, IsTrue};
ghost use Rattle.graded_modules.specs.Vector.{IsGraded, IsGenerator};
ghost use Rattle.module_basis.specs.Gens.{AreGens, IsHomogeneousOver};

use lists::{List, NoMemory};
use module_basis::{BasisStop, Gens, graded_basis};
use module_division::{degree_at, lead_mono};
use monomials::Mono;
use polys::{Poly, Term};
use prime_field::Prime;
use std::alloc::Global;
use std::time::Instant;
use std::{env, io};

// Numbers that are taken one after another.
#[derive(Drop)]
struct Numbers {
    all: Vec<u32>,
    taken: usize,
}

impl Numbers {
    // The next number, and 0 at the end.
    fn next(&mut self) -> u32 {
        let number = self.all.get(self.taken).copied().unwrap_or(0);
        self.taken = self.taken.saturating_add(1);
        number
    }

    fn is_done(&self) -> bool {
        self.taken >= self.all.len()
    }
}

// The power of a variable, up to the exponent 1000.
fn times_power(mono: &Mono, v: u32, exponent: u32) -> Mono
    requires { v < 6 }
{
    let mut product = *mono;
    for _ in 0..exponent.min(1000) {
        if product.degree() < 50000 {
            product = Mono::product(&product, &Mono::var(v));
        }
    }
    product
}

// The next term, of `variables` variables and the homogenising one.
fn term(p: Prime, variables: u32, numbers: &mut Numbers) -> Term
    ensures { result.coeff < p }
{
    let coeff = numbers.next() % p.get();
    let component = numbers.next().min(1);
    let mut mono = Mono::one();
    for v in 0..variables.min(6) {
        mono = times_power(&mono, v, numbers.next());
    }
    let homogenising = Mono::one().with_hom(numbers.next().min(1000));
    if mono.degree() < 50000 && mono.component() == 0 {
        mono = Mono::product(&homogenising.with_component(component), &mono);
    }
    Term { coeff, mono }
}

// The next vector.
fn vector(alloc: Global, p: Prime, variables: u32, numbers: &mut Numbers) -> Result<Poly, NoMemory>
    ensures { IfOk result (λ f. f.prime ≡ p) }
{
    let mut sum = Poly::zero(alloc, p);
    for _ in 0..numbers.next() {
        if !numbers.is_done() {
            let one = Poly::from_term(alloc, p, term(p, variables, numbers))?;
            sum = sum.add(&one)?;
        }
    }
    Ok(sum)
}
// Whether the monomial is one of the first `variables` variables and the homogenising one.
fn is_graded(m: &Mono, variables: u32) -> bool
    ensures { IsTrue result → IsGraded variables m.now }
{
    let _degree = m.degree();
    for v in variables..6 {
        if m.exponent(v) != 0 {
            return false;
        }
    }
    true
}

// Whether all terms have such monomials, of one degree.
fn is_homogeneous(f: &Poly, variables: u32, shift: u32) -> bool
    ensures { IsTrue result → IsGenerator f.now.prime variables shift f.now.terms }
{
    let degree = degree_at(shift, &lead_mono(f));
    let terms = f.terms();
    for t in terms {
        if degree_at(shift, &t.mono) != degree || !is_graded(&t.mono, variables) {
            return false;
        }
    }
    true
}

// Puts the vector at the end, unless it is not homogeneous.
fn gather(
    p: Prime,
    variables: u32,
    shift: u32,
    f: Poly,
    all: &mut List<Poly>,
) -> Result<(), NoMemory>
    requires prime { f.prime ≡ p }
    requires all { All (IsHomogeneousOver p variables shift) all.old }
    ensures { OnOk result (All (IsHomogeneousOver p variables shift) all.new) }
{
    if !is_homogeneous(&f, variables, shift) {
        return Ok(());
    }
    all.push(f)?;
    Ok(())
}

// All vectors that are left, and no more than 100.
fn vectors(
    alloc: Global,
    p: Prime,
    variables: u32,
    shift: u32,
    numbers: &mut Numbers,
) -> Result<List<Poly>, NoMemory>
    ensures { IfOk result (λ fs. All (IsHomogeneousOver p variables shift) fs) }
{
    let mut all = List::new(alloc);
    for _ in 0..100 {
        if numbers.is_done() {
            return Ok(all);
        }
        gather(
            p,
            variables,
            shift,
            vector(alloc, p, variables, numbers)?,
            &mut all,
        )?;
    }
    Ok(all)
}

// The number of the members of the reduced basis and the sum of the degrees of their leads.
fn basis(alloc: Global, gens: &Gens, cap: u32) -> Result<(usize, u64), BasisStop>
    requires gens { AreGens gens.now }
    requires some_cap { 1 ≤ cap }
    requires cap { cap ≤ 1000 }
{
    let graded = graded_basis(alloc, gens, cap)?;
    let mut degrees = 0u64;
    for f in graded.vectors() {
        degrees = degrees.saturating_add(u64::from(f.degree()));
    }
    Ok((graded.vectors().len(), degrees))
}

// The numbers of the input.
fn read_input(rt: &HostRuntime) -> io::Result<Numbers> {
    let text = io::read_to_string(rt.alloc(), rt.stdin())?;
    let mut all = Vec::new(rt.alloc());
    for word in text.split_whitespace() {
        all.push(word.parse::<u32>().unwrap_or(0))?;
    }
    Ok(Numbers { all, taken: 0 })
}

fn main(rt: HostRuntime) -> io::Result<()> {
    let mut numbers = read_input(&rt)?;
    let Some(p) = Prime::new(numbers.next()) else {
        println!(rt; "not a prime of the table")?;
        return Ok(());
    };
    let cap = numbers.next().clamp(1, 1000);
    let variables = numbers.next().clamp(1, 6);
    let shift = numbers.next();
    let Ok(vectors) = vectors(rt.alloc(), p, variables, shift, &mut numbers) else {
        println!(rt; "no memory")?;
        return Ok(());
    };
    let gens = Gens {
        prime: p,
        variables,
        shift,
        vectors,
    };
    let start = Instant::now(&rt)?;
    let found = basis(rt.alloc(), &gens, cap);
    let time = start.elapsed(&rt)?.as_nanos();
    match found {
        Ok((members, degrees)) => println!(rt; "members {members} degrees {degrees}")?,
        Err(BasisStop::Deep) => println!(rt; "deep")?,
        Err(BasisStop::Memory) => println!(rt; "no memory")?,
    }
    if env::args(&rt)?.count() > 1 {
        println!(rt; "{time} ns")?;
    }
    Ok(())
}
