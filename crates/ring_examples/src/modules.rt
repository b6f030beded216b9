// The cusp y^2 = x^3 modulo 7 with the denominator x^2, by hand: what takes d A into itself is A.
ghost use Rattle.std.specs.Prelude.{◌≡◌, ◌≤◌, IfOk};
ghost use Rattle.corner_basis.specs.Fronts.{IsFrontIdeal};

use digit_examples::samples::{CUSP, problem_of, sample_of};
use digit_make::make;
use digit_space::Digits;
use endo_ring::endomorphisms;
use lists::List;
use over_module::Over;
use row_space::Space;
use std::alloc::Global;
use std::sync::Arc;
use std::test::Fail;

// The zero space of the rows of so many blocks: the ideal of the multiples of a power of the denominator.
fn zero_space(digits: &Digits, blocks: u32) -> Space
    requires { blocks ≤ digits.now.depth }
    ensures { IsFrontIdeal digits.now blocks result }
{
    let width = digits.basis().len() * blocks as usize;
    Space::new(digits.allocator(), digits.curve().prime, width)
}

// The module of what takes d A into itself, and digits of its curve.
fn over_denominator(alloc: Global, text: &str) -> Result<(Digits, Over), Fail>
    ensures curve { IfOk result (λ made. made.0.curve ≡ made.1.curve) }
    ensures power { IfOk result (λ made. made.1.power ≡ 1) }
    ensures depth { IfOk result (λ made. made.0.depth ≡ 2) }
{
    let s = sample_of(alloc, text)?;
    let digits = make(alloc, &s.curve, &s.lifted, 2)?;
    let over = Over::plain(alloc, Arc::try_clone(digits.curve())?, digits.dimension());
    let space = zero_space(&digits, 1);
    let made = endomorphisms(&digits, &over, &space)?;
    Ok((digits, made))
}

// Which of the polynomials, each over d, are in the module.
fn members(digits: &Digits, over: &Over, text: &str) -> Result<List<bool>, Fail>
    requires curve { digits.now.curve ≡ over.now.curve }
    requires depth { (1 ≤ digits.now.depth) × (over.now.power ≤ digits.now.depth) }
{
    let problem = problem_of(digits.allocator(), text)?;
    let curve = digits.curve();
    if problem.prime.get() != curve.prime.get()
        || problem.letters.as_slice().len() != curve.variables as usize
    {
        return Err("other polynomials".into());
    }
    let mut answers = List::new(digits.allocator());
    for f in problem.generators.as_slice() {
        answers.push(over.contains(digits, f, 1)?)?;
    }
    Ok(answers)
}

#[test]
fn multiples_of_the_denominator(rt: HostRuntime) -> Result<(), Fail> {
    let (_, made) = over_denominator(rt.alloc(), CUSP)?;
    assert_eq!(rt; made.power(), 1);
    assert_eq!(rt; made.dimension(), 0);
    Ok(())
}

// Of x^3, 3 x^2 + y^2, x y and 1, each over x^2, the first two are in A.
#[test]
fn fractions_over_the_denominator(rt: HostRuntime) -> Result<(), Fail> {
    let (digits, made) = over_denominator(rt.alloc(), CUSP)?;
    let answers = members(
        &digits,
        &made,
        "ring r = 7,(x,y),dp; ideal I = x3,3x2+y2,xy,1;",
    )?;
    assert!(rt; answers.as_slice() == [true, true, false, false].as_slice());
    Ok(())
}

// The module is A, whose least power is 0, and its sum with A too.
#[test]
fn sums_and_least_powers(rt: HostRuntime) -> Result<(), Fail> {
    let (digits, made) = over_denominator(rt.alloc(), CUSP)?;
    let curve = Arc::try_clone(digits.curve())?;
    let plain = Over::plain(rt.alloc(), curve, digits.dimension());
    assert!(rt; made.same(&plain)?);
    assert_eq!(rt; made.least_power()?.power(), 0);
    let sum = plain.sum(&made)?;
    assert_eq!(rt; sum.power(), 1);
    assert_eq!(rt; sum.dimension(), 0);
    Ok(())
}
