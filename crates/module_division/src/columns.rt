// The monomials of one degree as columns, and where each of them stands.
ghost use Rattle.std.specs.Prelude.{◌≡◌, ◌<◌, ◌≤◌, [], length, IsTrue, slice_index_or};
ghost use Rattle.std.specs.declared.cmp.Ordering.TheVariants.{Greater};
ghost use Rattle.monomials.specs.Mono.{cmp_dp};
ghost use Rattle.module_division.specs.Rows.{AreFalling};

use lists::NoMemory;
use monomials::{MAX_DEGREE, Mono};
use polys::Term;
use std::alloc::{AllocError, Global};
use std::cmp::Ordering;
use std::marker::Model;

// No degree gets more columns than this.
const MAX_COLUMNS: usize = 1 << 20;

// Where the monomials of one degree stand in the falling list of all of them. It is a guess, which the list decides.
#[derive(Debug, Drop)]
pub(crate) struct Places {
    variables: u32,
    width: usize,
    // for each variable and each sum of exponents up to it, how many monomials with a smaller sum come later
    later: Vec<usize>,
    // the last column of each component
    last: [usize; 2],
}

impl Places {
    // The column where the monomial ought to stand.
    pub(crate) fn guess(&self, m: &Mono) -> usize {
        let mut sum = 0u32;
        let mut start = 0usize;
        let mut later = 0usize;
        for v in 0..6 {
            if v < self.variables {
                sum = sum.wrapping_add(m.exponent(v));
                let place = start.wrapping_add(sum as usize);
                later = later.wrapping_add(self.later.get(place).copied().unwrap_or(0));
                start = start.wrapping_add(self.width);
            }
        }
        let last = if m.component() == 0 {
            self.last[0]
        } else {
            self.last[1]
        };
        last.wrapping_sub(later)
    }

    // The column where the product ought to stand.
    fn guess_product(&self, a: &Mono, b: &Mono) -> usize {
        if b.component() != 0 || a.degree() > MAX_DEGREE / 2 || b.degree() > MAX_DEGREE / 2 {
            return 0;
        }
        self.guess(&Mono::product(a, b))
    }
}

// Whether the column is that of the monomial.
pub(crate) fn is_column(columns: &[Mono], z: usize, m: &Mono) -> bool
    ensures { IsTrue result → (z < length columns.now) × ((d : _) → slice_index_or columns.now z d ≡ m.now) }
{
    z < columns.len() && columns[z] == *m
}

// Guesses of columns for multiples, kept from one vector to the next.
#[derive(Debug, Drop)]
pub(crate) struct Guesses {
    // for each column one more than where the guesses for the multiple with this lead begin, or 0
    starts: Vec<usize>,
    all: Vec<usize>,
}

impl Guesses {
    // Where the guesses for the multiple by `t`, whose lead stands in the column, begin. They are made when first asked for.
    pub(crate) fn start(
        &mut self,
        places: &Places,
        column: usize,
        t: &Mono,
        terms: &[Term],
    ) -> Result<usize, AllocError> {
        let known = self.starts.get(column).copied().unwrap_or(0);
        if known > 0 {
            return Ok(known - 1);
        }
        let start = self.all.len();
        for u in terms {
            let guess = places.guess_product(&u.mono, t);
            self.all.push(guess)?;
        }
        if column < self.starts.len() {
            self.starts[column] = start.saturating_add(1);
        }
        Ok(start)
    }

    // The guess with this number.
    pub(crate) fn get(&self, number: usize) -> usize {
        self.all.get(number).copied().unwrap_or(0)
    }
}

// How many monomials of one degree less than `width` - 1 come after those with a sum of exponents, for each of the variables in
// turn: the number of monomials of lesser sums, by the rule of Pascal's triangle.
fn later(alloc: Global, variables: u32, width: usize) -> Result<Vec<usize>, AllocError> {
    let mut all: Vec<usize> = Vec::new(alloc);
    for v in 0..variables {
        let above = all.len().wrapping_sub(width);
        let mut sum = 0usize;
        for s in 0..width {
            all.push(sum)?;
            let step = if v == 0 {
                1
            } else {
                all.get(above.wrapping_add(s).wrapping_add(1))
                    .copied()
                    .unwrap_or(0)
            };
            sum = sum.wrapping_add(step);
        }
    }
    Ok(all)
}

// The monomial with one factor in the place of another, where that divides it.
fn exchanged(m: &Mono, from: &Mono, to: &Mono) -> Mono {
    if !Mono::divides(from, m) || to.component() != 0 || to.degree() > 1 {
        return *m;
    }
    let rest = Mono::quotient(m, from);
    if rest.degree() > MAX_DEGREE - 1 {
        return *m;
    }
    Mono::product(&rest, to)
}

// The variable after this one, where the homogenising one is the last.
fn variable_after(variables: u32, v: u32) -> Mono {
    if v < 5 && v + 1 < variables {
        Mono::var(v + 1)
    } else {
        Mono::one().with_hom(1)
    }
}

// The next lower monomial of the degree in the variables from `first` on and the homogenising one, where `v` is the first one in
// it: of its power, one factor goes to the variable after it, and the others to the first one.
fn lowered(variables: u32, first: u32, m: &Mono, v: u32) -> Mono
    requires { (v < 6) × (first < 6) }
{
    let x = Mono::var(v);
    let mut lower = exchanged(m, &x, &variable_after(variables, v));
    if v > first {
        for _ in 1..m.exponent(v) {
            lower = exchanged(&lower, &x, &Mono::var(first));
        }
    }
    lower
}

// The next lower monomial of the degree in the variables from `first` on, and the same one for a power of the homogenising
// variable.
fn next(variables: u32, first: u32, m: &Mono) -> Mono
    requires { first < 6 }
{
    for v in first..6 {
        if v < variables && m.exponent(v) > 0 {
            return lowered(variables, first, m, v);
        }
    }
    *m
}

// The power of the variable.
fn power_of(v: u32, degree: u32) -> Mono
    requires { v < 6 }
{
    let mut m = Mono::one();
    for _ in 0..degree {
        m = exchanged(&m, &Mono::one(), &Mono::var(v));
    }
    m
}

// For each degree up to `degree` the monomials of the first two variables, falling.
fn pairs_of_powers(alloc: Global, degree: u32) -> Result<Vec<Vec<Mono>>, AllocError> {
    let mut all: Vec<Vec<Mono>> = Vec::new(alloc);
    for s in 0..degree {
        let mut row = Vec::new(alloc);
        if let Some(before) = all.last() {
            for m in before {
                row.push(exchanged(m, &Mono::one(), &Mono::var(0)))?;
            }
        }
        row.push(power_of(1, s))?;
        all.push(row)?;
    }
    Ok(all)
}

// Puts the monomials at the end in which the power of the second variable in m is shared between the first two.
fn push_shared(
    m: &Mono,
    component: u32,
    powers: &[Vec<Mono>],
    columns: &mut Vec<Mono>,
) -> Result<(), AllocError>
    requires { component ≤ 1 }
{
    let Some(row) = powers.get(m.exponent(1) as usize) else {
        return Ok(());
    };
    let Some(whole) = row.last() else {
        return Ok(());
    };
    if !Mono::divides(whole, m) {
        return Ok(());
    }
    let rest = Mono::quotient(m, whole).with_component(component);
    for share in row {
        if share.component() == 0 && rest.degree() + share.degree() <= MAX_DEGREE {
            columns.push(Mono::product(&rest, share))?;
        }
    }
    Ok(())
}

// Puts the monomials of the degree and the component at the end, falling; no more than `count` steps.
fn list_monomials(
    variables: u32,
    degree: u32,
    component: u32,
    powers: &[Vec<Mono>],
    count: usize,
    columns: &mut Vec<Mono>,
) -> Result<(), AllocError>
    requires { component ≤ 1 }
{
    let first = if variables > 1 { 1 } else { 0 };
    let mut m = power_of(first, degree);
    for _ in 0..count {
        push_shared(&m, component, powers, columns)?;
        if m.hom() == degree {
            return Ok(());
        }
        m = next(variables, first, &m);
    }
    Ok(())
}

// Whether a is greater than b.
fn is_greater(a: &Mono, b: &Mono) -> bool
    ensures { IsTrue result → cmp_dp a.now b.now ≡ Greater }
{
    match Mono::cmp_dp(a, b) {
        Ordering::Greater => true,
        Ordering::Less | Ordering::Equal => false,
    }
}

// Whether each monomial is greater than all later ones.
fn are_falling(columns: &[Mono]) -> bool
    ensures { IsTrue result → AreFalling columns.now }
{
    let mut i = columns.len();
    while i > 0 {
        i -= 1;
        if i + 1 < columns.len() && !is_greater(&columns[i], &columns[i + 1]) {
            return false;
        }
    }
    true
}

/// The monomials of one degree, falling: those of the first component, and then those of the second one. Contracts see the list.
#[derive(Debug, Drop)]
pub struct Columns {
    pub(crate) places: Places,
    pub(crate) columns: Vec<Mono>,
    pub(crate) guesses: Guesses,
}

impl Model for Columns {
    ghost use Rattle.std.specs.Prelude.{List};
    ghost use Rattle.monomials.specs.Mono.{Monomial};
    ghost use Rattle.module_division.specs.Rows.{AreFalling};

    ghost Value = { List Monomial };

    ghost view = { λ c. c.columns.items };

    ghost invariant = { λ c. AreFalling c.columns.items };
}

impl Columns {
    /// No columns.
    pub fn none(alloc: Global) -> Columns
        ensures { result ≡ [] }
    {
        Columns {
            places: Places {
                variables: 0,
                width: 0,
                later: Vec::new(alloc),
                last: [0; 2],
            },
            columns: Vec::new(alloc),
            guesses: Guesses {
                starts: Vec::new(alloc),
                all: Vec::new(alloc),
            },
        }
    }

    /// The monomials of the degree in the first `variables` variables and the homogenising one, falling, and then those of
    /// the second component, whose unit vector has the degree `shift`, where there is one; no columns where they are more
    /// than `limit` or 2^20. It takes some steps for each column.
    pub fn of_degree(
        alloc: Global,
        variables: u32,
        shift: Option<u32>,
        degree: u32,
        limit: usize,
    ) -> Result<Columns, NoMemory> {
        let width = (degree as usize).saturating_add(2);
        let later = later(alloc, variables.min(6), width)?;
        let mut columns = Vec::new(alloc);
        let first = count(&later, width, degree);
        let second = match shift {
            Some(s) if s <= degree => count(&later, width, degree - s),
            _ => 0,
        };
        if first.saturating_add(second) > limit.min(MAX_COLUMNS) {
            return Ok(Columns::none(alloc));
        }
        let powers = pairs_of_powers(alloc, degree.saturating_add(1))?;
        list_monomials(variables, degree, 0, &powers, first, &mut columns)?;
        if let Some(s) = shift {
            let lower = degree.saturating_sub(s);
            list_monomials(variables, lower, 1, &powers, second, &mut columns)?;
        }
        if !are_falling(&columns) {
            return Ok(Columns::none(alloc));
        }
        let last = [first.wrapping_sub(1), columns.len().wrapping_sub(1)];
        let places = Places {
            variables,
            width,
            later,
            last,
        };
        let guesses = Guesses {
            starts: vec![in alloc; 0usize; columns.len()]?,
            all: Vec::new(alloc),
        };
        Ok(Columns {
            places,
            columns,
            guesses,
        })
    }
}

// How many monomials have the degree.
fn count(later: &[usize], width: usize, degree: u32) -> usize {
    let start = later.len().wrapping_sub(width);
    later
        .get(start.wrapping_add(degree as usize).wrapping_add(1))
        .copied()
        .unwrap_or(0)
}
