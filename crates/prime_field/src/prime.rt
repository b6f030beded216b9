// A prime of the table, and the arithmetic of its residues.
ghost use Rattle.std.specs.Prelude.{◌≡◌, ℕ, ◌+◌, ◌-◌, ◌*◌, ◌/◌, ◌%◌, ◌<◌, ◌≤◌, MatchOption, pos, ◌-ℤ◌};
ghost use Rattle.prime_field.specs.Primes.{IsCharacteristic, IsPrime, CharacteristicsArePrime};

use std::marker::Model;

/// A prime of the table: 2, 3, 5, 7, 11, 13, 17, 19, 23, 29, 31, 37, 41, 43, 47, 101, 251 or 32003.
/// Contracts see it as that number.
#[derive(Clone, Copy, PartialEq, Eq, Debug, Drop)]
pub struct Prime {
    value: u32,
}

impl Model for Prime {
    ghost use Rattle.std.specs.Prelude.{ℕ};
    ghost use Rattle.prime_field.specs.Primes.{IsCharacteristic};

    ghost Value = { ℕ };

    ghost view = { λ p. p.value };

    ghost invariant = { λ p. IsCharacteristic p.value };

    ghost inverse = { λ n. record { value = n } };
}

impl Prime {
    /// The prime `p`, or `None` exactly where `p` is not in the table.
    pub fn new(p: u32) -> Option<Prime>
        ensures { MatchOption result (IsCharacteristic p → ⊥) (λ prime. (prime ≡ p) × IsCharacteristic p) }
    {
        match p {
            2
            | 3
            | 5
            | 7
            | 11
            | 13
            | 17
            | 19
            | 23
            | 29
            | 31
            | 37
            | 41
            | 43
            | 47
            | 101
            | 251
            | 32003 => Some(Prime { value: p }),
            _ => None,
        }
    }

    /// The number itself, from 2 to 32003.
    pub fn get(self) -> u32
        ensures value { result ≡ self }
        ensures known { IsCharacteristic result }
        ensures range { (2 ≤ result) × (result ≤ 32003) }
        ensures prime { IsPrime result }
    {
        self.value
    }

    /// The residue of the sum of two residues.
    pub fn add(self, a: u32, b: u32) -> u32
        requires left { a < self }
        requires right { b < self }
        ensures residue { result < self }
        ensures sum { result ≡ (a + b) % self }
    {
        let p = self.get();
        let sum = a + b;
        if sum < p { sum } else { sum - p }
    }

    /// The residue of the difference of two residues.
    pub fn sub(self, a: u32, b: u32) -> u32
        requires left { a < self }
        requires right { b < self }
        ensures residue { result < self }
        ensures difference { result ≡ (a + (self - b)) % self }
    {
        let p = self.get();
        if a < b { a + p - b } else { a - b }
    }

    /// The residue whose sum with `a` is 0.
    pub fn neg(self, a: u32) -> u32
        requires { a < self }
        ensures residue { result < self }
        ensures opposite { result ≡ (self - a) % self }
    {
        let p = self.get();
        if a == 0 { 0 } else { p - a }
    }

    /// The residue of the product of two residues. The product is below 2^30, so it fits.
    pub fn mul(self, a: u32, b: u32) -> u32
        requires left { a < self }
        requires right { b < self }
        ensures residue { result < self }
        ensures product { result ≡ (a * b) % self }
    {
        let p = self.get();
        a * b % p
    }

    /// The one residue whose product with `a` is 1. It takes one division for each halving of `a`
    /// at the most.
    pub fn inv(self, a: u32) -> u32
        requires residue { a < self }
        requires not_zero { 0 < a }
        ensures residue { result < self }
        ensures inverse { (a * result) % self ≡ 1 }
    {
        let p = self.get();
        let mut rest = a;
        let mut factor = 1;
        while rest > 1 {
            let quotient = p / rest;
            factor = (p - quotient * factor % p) % p;
            rest = p % rest;
        }
        factor
    }

    /// The number between -p/2 and p/2 that stands for the residue `a`: `a` itself where it is at
    /// most p/2 rounded down, and `a` - p otherwise.
    pub fn symmetric(self, a: u32) -> i32
        requires { a < self }
        ensures small { a ≤ self / 2 → result ≡ pos a }
        ensures large { self / 2 < a → result ≡ pos a -ℤ pos self }
    {
        let p = self.get();
        if a <= p / 2 {
            a as i32
        } else {
            a as i32 - p as i32
        }
    }
}

/// Each number of the table is prime.
pub fn characteristics_are_prime()
    ensures { CharacteristicsArePrime }
{}

#[cfg(test)]
mod tests;
