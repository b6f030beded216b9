// One monomial with its degree.
ghost use Rattle.std.specs.Prelude.{◌≡◌, ℕ, ◌+◌, ◌<◌, ◌≤◌, ◌↔◌, IsTrue, slice_index, slice_set};
ghost use Rattle.monomials.specs.declared.mono.TheConstants.{MAX_DEGREE};
ghost use Rattle.monomials.specs.Mono.{cmp_dp, times, unit, variable, total_degree, common_multiple, Divides, IsMono};

use std::cmp::Ordering;
use std::marker::Model;

/// The greatest degree of a monomial.
pub const MAX_DEGREE: u32 = 60_000;

/// The most variables of a polynomial; the place after them is the homogenising variable's.
pub const MAX_VARIABLES: u32 = 6;

/// A monomial in six variables and the homogenising variable, times one of two unit vectors.
///
/// Contracts see the list of its seven exponents, the homogenising one last, and its component, 0 or 1.
/// Its degree counts all seven exponents and is at most `MAX_DEGREE`.
#[derive(Clone, Copy, Debug, PartialEq, Eq)]
pub struct Mono {
    exponents: [u16; 7],
    component: u8,
    degree: u16,
}

impl Model for Mono {
    ghost use Rattle.std.specs.Prelude.{◌≡◌};
    ghost use Rattle.monomials.specs.Mono.{Monomial, IsMono, total_degree};

    ghost Value = { Monomial };

    ghost view = { λ m. record { exponents = m.exponents; component = m.component } };

    ghost invariant = { λ m. (m.degree ≡ total_degree m.exponents) × IsMono (record { exponents = m.exponents; component = m.component }) };

    ghost inverse = { λ v. record { exponents = v.exponents; component = v.component; degree = total_degree v.exponents } };
}

impl Mono {
    /// The monomial 1, of component 0.
    pub fn one() -> Mono
        ensures value { result ≡ unit }
        ensures known { IsMono result }
    {
        Mono {
            exponents: [0; 7],
            component: 0,
            degree: 0,
        }
    }

    /// The variable number `v`, counted from 0, of component 0.
    pub fn var(v: u32) -> Mono
        requires { v < 6 }
        ensures value { result ≡ variable v }
        ensures known { IsMono result }
    {
        let mut exponents = [0; 7];
        exponents[v as usize] = 1;
        Mono {
            exponents,
            component: 0,
            degree: 1,
        }
    }

    /// The exponent of the variable number `v`, counted from 0.
    pub fn exponent(&self, v: u32) -> u32
        requires { v < 6 }
        ensures { result ≡ slice_index self.now.exponents v }
    {
        u32::from(self.exponents[v as usize])
    }

    /// The exponent of the homogenising variable.
    pub fn hom(&self) -> u32
        ensures { result ≡ slice_index self.now.exponents 6 }
    {
        u32::from(self.exponents[6])
    }

    /// The number of the unit vector, 0 or 1.
    pub fn component(&self) -> u32
        ensures { result ≡ self.now.component }
    {
        u32::from(self.component)
    }

    /// The degree, with the homogenising exponent counted.
    pub fn degree(&self) -> u32
        ensures value { result ≡ total_degree self.now.exponents }
        ensures known { IsMono self.now }
    {
        u32::from(self.degree)
    }

    /// This monomial with the homogenising exponent `e`.
    pub fn with_hom(self, e: u32) -> Mono
        requires { total_degree (slice_set self.exponents 6 e) ≤ MAX_DEGREE }
        ensures value { result ≡ record self { exponents = slice_set self.exponents 6 e } }
        ensures known { IsMono result }
    {
        let mut exponents = self.exponents;
        exponents[6] = e as u16;
        Mono {
            exponents,
            component: self.component,
            degree: self.degree - self.exponents[6] + e as u16,
        }
    }

    /// This monomial with the component `c`.
    pub fn with_component(self, c: u32) -> Mono
        requires { c ≤ 1 }
        ensures value { result ≡ record self { component = c } }
        ensures known { IsMono result }
    {
        let exponents = self.exponents;
        Mono {
            exponents,
            component: c as u8,
            degree: self.degree,
        }
    }

    /// Degree reverse lexicographic, after the component: component 0 is greater than component 1, then the greater
    /// degree is greater, then the smaller exponent at the last place where the exponents differ. The homogenising
    /// variable is the last place and so the smallest variable.
    ///
    /// Greuel and Pfister, section on monomial orderings, where this order is called dp.
    pub fn cmp_dp(a: &Mono, b: &Mono) -> Ordering
        ensures { result ≡ cmp_dp a.now b.now }
    {
        if a.component != b.component {
            return b.component.cmp(&a.component);
        }
        if a.degree != b.degree {
            return a.degree.cmp(&b.degree);
        }
        let mut i: usize = 7;
        while i > 0 {
            i -= 1;
            if a.exponents[i] != b.exponents[i] {
                return b.exponents[i].cmp(&a.exponents[i]);
            }
        }
        Ordering::Equal
    }

    /// Whether the components are the same and no exponent of `a` is greater than that of `b`.
    pub fn divides(a: &Mono, b: &Mono) -> bool
        ensures { IsTrue result ↔ Divides a.now b.now }
    {
        if a.component != b.component || a.degree > b.degree {
            return false;
        }
        for i in 0..7 {
            if a.exponents[i] > b.exponents[i] {
                return false;
            }
        }
        true
    }

    /// The least common multiple of two monomials of one component.
    pub fn lcm(a: &Mono, b: &Mono) -> Mono
        requires component { a.now.component ≡ b.now.component }
        requires room { total_degree (common_multiple a.now b.now).exponents ≤ MAX_DEGREE }
        ensures value { result ≡ common_multiple a.now b.now }
        ensures known { IsMono result }
    {
        let mut exponents = a.exponents;
        for i in 0..7 {
            exponents[i] = exponents[i].max(b.exponents[i]);
        }
        Mono {
            exponents,
            component: a.component,
            degree: degree_of(&exponents),
        }
    }

    /// The product of a monomial and one of component 0, with the component of the first.
    pub fn product(a: &Mono, b: &Mono) -> Mono
        requires component { b.now.component ≡ 0 }
        requires room { total_degree a.now.exponents + total_degree b.now.exponents ≤ MAX_DEGREE }
        ensures value { result ≡ times a.now b.now }
        ensures known { IsMono result }
    {
        let mut exponents = a.exponents;
        for i in 0..7 {
            exponents[i] += b.exponents[i];
        }
        Mono {
            exponents,
            component: a.component,
            degree: a.degree + b.degree,
        }
    }

    /// The one monomial whose product with `b` is `a`. No exponent and no component of `b` is greater than that of `a`.
    pub fn quotient(a: &Mono, b: &Mono) -> Mono
        requires component { b.now.component ≤ a.now.component }
        requires exponents { (i : ℕ) → slice_index b.now.exponents i ≤ slice_index a.now.exponents i }
        ensures value { times result b.now ≡ a.now }
        ensures known { IsMono result }
    {
        let mut exponents = a.exponents;
        for i in 0..7 {
            exponents[i] -= b.exponents[i];
        }
        Mono {
            exponents,
            component: a.component - b.component,
            degree: a.degree - b.degree,
        }
    }
}

fn degree_of(exponents: &[u16; 7]) -> u16
    requires { total_degree exponents.now ≤ MAX_DEGREE }
    ensures { result ≡ total_degree exponents.now }
{
    let mut degree = 0;
    for e in exponents {
        degree += e;
    }
    degree
}

#[cfg(test)]
mod tests;
