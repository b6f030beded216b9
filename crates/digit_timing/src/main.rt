//! The digits of a curve, for times: prints the dimension modulo the denominator, the depth and a checksum of the digits of the
//! products of a variable and a corner, whether digits at half the depth become these when they are made deeper, and the time
//! that the digits took.
//!
//! The input is a problem, whose denominator is handed in or chosen; the first word is the depth, from 0 to 200, and a number
//! above 0 behind it asks for the time.
#![tactic(auto)]

ghost use Rattle.std.specs.Prelude.{◌≡◌, ◌≤◌, ◌<◌, length, IfOk, IfSome};
ghost use Rattle.polys.specs.Curve.{Fit};
ghost use Rattle.jacobian_pick.specs.Choice.{curve_of_lifted};
ghost use Rattle.lift_colon.specs.Lifted.{LiftedData};

use digit_make::{extended, make};
use digit_space::Digits;
use jacobian_pick::pick;
use lift_colon::Lifted;
use lists::NoMemory;
use polys::{Curve, copied};
use singular_text::read_problem;
use std::alloc::Global;
use std::sync::Arc;
use std::time::Instant;
use std::{env, io};

// The degree up to which bases are sought.
const CAP: u32 = 200;

// The curve of the problem of the text and the bases of its denominator, or `None` where it has none of them or memory runs out.
fn lifted_of(alloc: Global, text: &[u8]) -> Option<Lifted>
    ensures { IfSome result (λ l. Fit (curve_of_lifted l)) }
{
    let Ok(problem) = read_problem(alloc, text) else {
        return None;
    };
    match pick(alloc, &problem, CAP) {
        Ok(lifted) => Some(lifted),
        Err(_) => None,
    }
}

// The curve over which the bases are.
fn curve_of(alloc: Global, lifted: &Lifted) -> Result<Arc<Curve>, NoMemory>
    ensures { IfOk result (λ curve. curve.value ≡ curve_of_lifted lifted.now) }
{
    let curve = Curve {
        prime: lifted.prime(),
        variables: lifted.variables(),
        ideal: copied(alloc, lifted.ideal_basis())?,
        denominator: lifted.denominator().clone_poly()?,
    };
    Ok(Arc::new(alloc, curve)?)
}

// The sum of the entries, each times its place counted from 1, so that zeros at the end count nothing.
fn weight(row: &[u32]) -> u32 {
    let mut sum = 0u32;
    let mut place = 0u32;
    for x in row {
        place = place.wrapping_add(1);
        sum = sum.wrapping_add(place.wrapping_mul(*x));
    }
    sum
}

// The checksum of the digits of the products of a variable and a corner that are no corners.
fn checksum(digits: &Digits) -> u32 {
    let mut sum = 0u32;
    for v in 0..digits.curve().variables {
        for i in 0..digits.basis().len() {
            if let Some(row) = digits.border_row(v, i) {
                sum = sum.wrapping_mul(31).wrapping_add(weight(row));
            }
        }
    }
    sum
}

// The digits at half the depth, made deeper.
fn grown(alloc: Global, curve: &Arc<Curve>, lifted: &Lifted, depth: u32) -> Result<Digits, NoMemory>
    requires fit { Fit curve.now.value }
    requires lifted { curve.now.value ≡ curve_of_lifted lifted.now }
    requires depth { depth ≤ 200 }
{
    let low = make(alloc, curve, lifted, depth / 2)?;
    extended(&low, lifted, depth)
}

// Digits, whether those at half of their depth, made deeper, are the same, and the microseconds that they took.
#[derive(Drop)]
struct Timed {
    digits: Digits,
    alike: bool,
    time: u128,
}

// The digits of the curve at the depth, or `None` where memory runs out.
fn made_of(
    rt: &HostRuntime,
    curve: &Arc<Curve>,
    lifted: &Lifted,
    depth: u32,
) -> io::Result<Option<Timed>>
    requires fit { Fit curve.now.value }
    requires lifted { curve.now.value ≡ curve_of_lifted lifted.now }
{
    let depth = depth.min(200);
    let start = Instant::now(rt)?;
    let made = make(rt.alloc(), curve, lifted, depth);
    let time = start.elapsed(rt)?.as_micros();
    match (made, grown(rt.alloc(), curve, lifted, depth)) {
        (Ok(digits), Ok(others)) => {
            let alike = checksum(&digits) == checksum(&others);
            Ok(Some(Timed {
                digits,
                alike,
                time,
            }))
        }
        _ => Ok(None),
    }
}

// The digits of the problem of the text, or `None` where it has none or memory runs out.
fn made_of_problem(rt: &HostRuntime, text: &[u8], depth: u32) -> io::Result<Option<Timed>> {
    let Some(lifted) = lifted_of(rt.alloc(), text) else {
        return Ok(None);
    };
    match curve_of(rt.alloc(), &lifted) {
        Ok(curve) => made_of(rt, &curve, &lifted, depth),
        Err(_) => Ok(None),
    }
}

// The number that stands at the place among the words, and 0 where there is none.
fn number(rt: &HostRuntime, place: usize) -> io::Result<u32> {
    let mut found = 0;
    for (i, word) in env::args(rt)?.enumerate() {
        if i == place {
            found = word.as_str().parse::<u32>().unwrap_or(0);
        }
    }
    Ok(found)
}

fn tell(rt: &HostRuntime, made: &Timed) -> io::Result<()> {
    let digits = &made.digits;
    let (dimension, depth, sum) = (digits.dimension(), digits.depth(), checksum(digits));
    println!(rt; "dimension {dimension} depth {depth} checksum {sum}")?;
    let word = if made.alike { "alike" } else { "otherwise" };
    println!(rt; "grown {word}")
}

fn main(rt: HostRuntime) -> io::Result<()> {
    let text = io::read_to_string(rt.alloc(), rt.stdin())?;
    let depth = number(&rt, 1)?;
    let Some(made) = made_of_problem(&rt, text.as_bytes(), depth)? else {
        println!(rt; "no denominator")?;
        return Ok(());
    };
    tell(&rt, &made)?;
    if number(&rt, 2)? > 0 {
        println!(rt; "{} us", made.time)?;
    }
    Ok(())
}
