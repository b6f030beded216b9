// Each kernel beside a plain loop, at every length from 0 to 70.
ghost use Rattle.std.specs.Prelude.{◌<◌, ◌≤◌};
ghost use Rattle.lane_rows.specs.Rows.{AreResidues};

use super::{axpy, dot, first_nonzero, scale};
use std::process::Abort;

// Some residues, which depend on the seed.
fn residues(p: u32, seed: u32) -> [u32; 70]
    requires { 2 ≤ p }
    ensures { AreResidues p result }
{
    let mut row = [0; 70];
    let mut state = seed;
    for place in 0..70 {
        state = state.wrapping_mul(1664525).wrapping_add(1013904223);
        row[place] = state / 65536 % p;
    }
    row
}

fn check_multiples(rt: &impl Abort, p: u32, c: u32, length: usize)
    requires { (2 ≤ p) × (p ≤ 32003) × (c < p) × (length ≤ 70) }
{
    let (row, old) = (residues(p, 1), residues(p, 2));
    let (mut sum, mut product) = (residues(p, 2), residues(p, 1));
    axpy(p, c, &row[..length], &mut sum[..length]);
    scale(p, c, &mut product[..length]);
    for k in 0..70 {
        let multiple = c as u64 * row[k] as u64;
        let whole = (old[k] as u64 + multiple) % p as u64;
        let (wanted_sum, wanted_product) = if k < length {
            (whole, multiple % p as u64)
        } else {
            (old[k] as u64, row[k] as u64)
        };
        assert_eq!(rt; sum[k] as u64, wanted_sum);
        assert_eq!(rt; product[k] as u64, wanted_product);
    }
}

fn check_dot(rt: &impl Abort, p: u32, length: usize)
    requires { (2 ≤ p) × (p ≤ 32003) × (length ≤ 70) }
{
    let (a, b) = (residues(p, 3), residues(p, 4));
    let mut whole = 0u64;
    for k in 0..length {
        whole = whole.wrapping_add(a[k] as u64 * b[k] as u64);
    }
    let found = dot(p, &a[..length], &b[..length]);
    assert_eq!(rt; found as u64, whole % p as u64);
}

fn check_first(rt: &impl Abort, length: usize)
    requires { length ≤ 70 }
{
    let zero = [0; 70];
    assert_eq!(rt; first_nonzero(&zero[..length]), None);
    for place in 0..length {
        let mut row = [0; 70];
        row[place] = 5;
        row[69] = 1;
        assert_eq!(rt; first_nonzero(&row[..length]), Some(place));
    }
}

#[test]
fn kernels_and_plain_loops(rt: HostRuntime) {
    for length in 0..71 {
        for p in [2, 7, 32003] {
            for c in [0, 1, p - 1, p / 2] {
                check_multiples(&rt, p, c, length);
            }
            check_dot(&rt, p, length);
        }
        check_first(&rt, length);
    }
}
