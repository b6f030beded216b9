//! Sums and insertions of long rows over the built kernels: prints checksums, and their times where
//! a further word is given. The words are the prime, the number of rows and their length.
#![tactic(auto)]

ghost use Rattle.std.specs.Prelude.{◌≡◌, ◌≤◌, length, IfOk, OnOk};
ghost use Rattle.lane_rows.specs.Rows.{AreResidues};

use lane_rows::axpy;
use lists::NoMemory;
use prime_field::Prime;
use row_space::Space;
use std::alloc::Global;
use std::time::Instant;
use std::{env, io};

// Residues of a fixed sequence that begins at the seed.
fn row_of(alloc: Global, p: u32, width: usize, seed: u32) -> Result<Vec<u32>, NoMemory>
    requires { 2 ≤ p }
    ensures { IfOk result (λ row. (length row.items ≡ width) × AreResidues p row.items) }
{
    let mut row = Vec::new(alloc);
    let mut state = seed;
    for _place in 0..width {
        state = state.wrapping_mul(1664525).wrapping_add(1013904223);
        if row.push(state / 65536 % p).is_err() {
            return Err(NoMemory);
        }
    }
    Ok(row)
}

fn checksum(row: &[u32]) -> u32 {
    row.iter()
        .fold(0u32, |sum, x| sum.wrapping_mul(31).wrapping_add(*x))
}

// Adds a multiple of the row to itself's neighbour, once for each number below `times`.
fn sums(alloc: Global, prime: Prime, times: u32, length: usize) -> Result<u32, NoMemory> {
    let p = prime.get();
    let row = row_of(alloc, p, length, 1)?;
    let mut into = row_of(alloc, p, length, 2)?;
    add_many(p, times, row.as_slice(), into.as_mut_slice());
    Ok(checksum(into.as_slice()))
}

fn add_many(p: u32, times: u32, row: &[u32], into: &mut [u32])
    requires range { (2 ≤ p) × (p ≤ 32003) }
    requires same_length { length row.now ≡ length into.old }
    requires row { AreResidues p row.now }
    requires into { AreResidues p into.old }
{
    for c in 0..times {
        axpy(p, c % p, row, into);
    }
}

// Inserts the row of the seed.
fn insert_row(
    alloc: Global,
    prime: Prime,
    seed: u32,
    width: usize,
    space: &mut Space,
) -> Result<(), NoMemory>
    requires { (space.old.prime ≡ prime) × (space.old.width ≡ width) }
    ensures { OnOk result ((space.new.prime ≡ prime) × (space.new.width ≡ width)) }
{
    let p = prime.get();
    let row = row_of(alloc, p, width, seed)?;
    let _said = space.insert(row.as_slice())?;
    Ok(())
}

// Inserts as many rows into a space and sums up its basis.
fn insertions(alloc: Global, prime: Prime, count: u32, width: usize) -> Result<u32, NoMemory> {
    let mut space = Space::new(alloc, prime, width);
    for seed in 0..count {
        insert_row(alloc, prime, seed.wrapping_mul(40503), width, &mut space)?;
    }
    let mut sum = 0u32;
    for row in space.rows() {
        sum = sum.wrapping_mul(31).wrapping_add(checksum(row.as_slice()));
    }
    Ok(sum)
}

// The number that stands at the place among the words.
fn number(rt: &HostRuntime, place: usize) -> io::Result<usize> {
    let mut found = 0;
    for (i, word) in env::args(rt)?.enumerate() {
        if i == place {
            found = word.as_str().parse::<usize>().unwrap_or(0);
        }
    }
    Ok(found)
}

fn main(rt: HostRuntime) -> io::Result<()> {
    let (p, count, length) = (number(&rt, 1)?, number(&rt, 2)?, number(&rt, 3)?);
    let Some(prime) = Prime::new(p.min(65536) as u32) else {
        println!(rt; "not a prime of the table")?;
        return Ok(());
    };
    let count = count.min(100000) as u32;
    let start = Instant::now(&rt)?;
    let sum = sums(rt.alloc(), prime, 50 * count, length);
    let middle = start.elapsed(&rt)?.as_nanos();
    let space = insertions(rt.alloc(), prime, count, length);
    let whole = start.elapsed(&rt)?.as_nanos();
    println!(rt; "axpy {} insert {}", sum.unwrap_or(0), space.unwrap_or(0))?;
    if number(&rt, 4)? > 0 {
        println!(rt;
            "axpy {} ns insert {} ns",
            middle,
            whole.saturating_sub(middle)
        )?;
    }
    Ok(())
}
