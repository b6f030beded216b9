//! The maximal ideals of the algebra F_p[x]/(f), for times: prints its dimension, how many there are and how many of each
//! degree, and the time that they alone took where a word is given.
//!
//! The input is numbers between blanks: the prime, then the coefficients of the monic polynomial f but the highest, the
//! lowest first. Its degree is from 1 to 1024.
#![tactic(auto)]

mod quotients;

ghost use Rattle.std.specs.Prelude.{◌≡◌, length, IfOk};
ghost use Rattle.lane_rows.specs.Rows.{AreResidues};

use frobenius_split::{SplitPoint, points};
use lists::{List, NoMemory};
use prime_field::Prime;
use quotients::algebra_modulo;
use std::alloc::Global;
use std::time::Instant;
use std::{env, io};

// The opposites of the numbers modulo p.
fn opposites(alloc: Global, prime: Prime, numbers: &[u32]) -> Result<List<u32>, NoMemory>
    ensures residues { IfOk result (λ row. AreResidues prime row) }
    ensures long { IfOk result (λ row. length row ≡ length numbers.now) }
{
    let p = prime.get();
    let mut row = List::new(alloc);
    for c in numbers {
        row.push(prime.neg(*c % p))?;
    }
    Ok(row)
}

// The numbers of the input.
fn read_input(rt: &HostRuntime) -> io::Result<Vec<u32>> {
    let text = io::read_to_string(rt.alloc(), rt.stdin())?;
    let mut all = Vec::new(rt.alloc());
    for word in text.split_whitespace() {
        all.push(word.parse::<u32>().unwrap_or(0))?;
    }
    Ok(all)
}

// How many of the points have the degree.
fn count_of(points: &[SplitPoint], degree: u32) -> usize {
    points.iter().filter(|point| point.degree == degree).count()
}

fn write_points(rt: &HostRuntime, dimension: u32, points: &[SplitPoint]) -> io::Result<()> {
    println!(rt; "dimension {} points {}", dimension, points.len())?;
    for degree in 1..dimension.saturating_add(1) {
        let count = count_of(points, degree);
        if count > 0 {
            println!(rt; "degree {degree}: {count}")?;
        }
    }
    Ok(())
}

fn main(rt: HostRuntime) -> io::Result<()> {
    let numbers = read_input(&rt)?;
    let Some(prime) = Prime::new(numbers.get(0).copied().unwrap_or(0)) else {
        println!(rt; "not a prime of the table")?;
        return Ok(());
    };
    if numbers.len() < 2 || numbers.len() > 1025 {
        println!(rt; "not a degree from 1 to 1024")?;
        return Ok(());
    }
    let Ok(r) = opposites(rt.alloc(), prime, &numbers[1..]) else {
        println!(rt; "no memory")?;
        return Ok(());
    };
    let Ok(a) = algebra_modulo(rt.alloc(), prime, r.as_slice()) else {
        println!(rt; "no memory")?;
        return Ok(());
    };
    let start = Instant::now(&rt)?;
    let found = points(&a);
    let time = start.elapsed(&rt)?.as_nanos();
    match found {
        Ok(found) => write_points(&rt, a.dimension_u32(), found.as_slice())?,
        Err(NoMemory) => println!(rt; "no memory")?,
    }
    if env::args(&rt)?.count() > 1 {
        println!(rt; "{time} ns")?;
    }
    Ok(())
}
