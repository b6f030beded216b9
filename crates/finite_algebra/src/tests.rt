// Algebras over small fields, with values worked by hand.
ghost use Rattle.std.specs.Prelude.{◌≡◌, ◌↔◌, IfOk, IsTrue, length};
ghost use Rattle.finite_algebra.specs.Elements.{IsAlgebra, IsElement};
ghost use Rattle.finite_algebra.specs.Projections.{IsIdealOf};

use super::Algebra;
use super::multiples::{copy_of, zero_row};
use lists::{List, NoMemory};
use prime_field::Prime;
use row_space::Space;
use std::alloc::Global;
use std::process::Abort;
use std::test::Fail;

fn rows_of<const N: usize>(alloc: Global, rows: &[[u32; N]]) -> Result<List<List<u32>>, NoMemory>
    ensures { IfOk result (λ made. made ≡ rows.now) }
{
    let mut made = List::new(alloc);
    for row in rows {
        let copy = copy_of(alloc, row)?;
        made.push(List::of_vec(copy))?;
    }
    Ok(made)
}

fn algebra_of<const N: usize>(
    rt: &impl Abort,
    alloc: Global,
    p: u32,
    one: &[u32],
    products: &[[u32; N]],
) -> Result<Algebra, NoMemory>
    requires { IsAlgebra (record { prime = p; dimension = N; one = one.now; products = products.now }) }
{
    let prime = Prime::new(p).expect(rt, "a prime of the table");
    let rows = rows_of(alloc, products)?;
    let row = copy_of(alloc, one)?;
    Ok(Algebra::of_products(prime, N, List::of_vec(row), rows))
}

// F_2[x]/(x^2), by 1 and x.
fn dual_numbers(rt: &impl Abort, alloc: Global) -> Result<Algebra, NoMemory> {
    algebra_of(rt, alloc, 2, &[1, 0], &[[1, 0], [0, 1], [0, 1], [0, 0]])
}

// F_3[x]/(x^2 + 1), by 1 and x.
fn field_of_nine(rt: &impl Abort, alloc: Global) -> Result<Algebra, NoMemory> {
    algebra_of(rt, alloc, 3, &[1, 0], &[[1, 0], [0, 1], [0, 1], [2, 0]])
}

// F_7[x]/(x^3 - x), by 1, x and x^2.
fn three_points(rt: &impl Abort, alloc: Global) -> Result<Algebra, NoMemory> {
    algebra_of(
        rt,
        alloc,
        7,
        &[1, 0, 0],
        &[
            [1, 0, 0],
            [0, 1, 0],
            [0, 0, 1],
            [0, 1, 0],
            [0, 0, 1],
            [0, 1, 0],
            [0, 0, 1],
            [0, 1, 0],
            [0, 0, 1],
        ],
    )
}

fn zero_algebra(rt: &impl Abort, alloc: Global) -> Result<Algebra, NoMemory> {
    algebra_of::<0>(rt, alloc, 5, &[], &[])
}

fn is_element(a: &Algebra, row: &[u32]) -> bool
    ensures { IsTrue result ↔ IsElement a.now row.now }
{
    let p = a.prime().get();
    row.len() == a.dimension() && row.iter().all(|x| *x < p)
}

// Each case is two elements and their product.
fn check_products<const N: usize>(
    rt: &impl Abort,
    alloc: Global,
    a: &Algebra,
    cases: &[[[u32; N]; 3]],
) -> Result<(), NoMemory> {
    for [left, right, expected] in cases {
        assert!(rt; is_element(a, left));
        assert!(rt; is_element(a, right));
        let mut out = zero_row(alloc, a.dimension())?;
        a.product(left, right, out.as_mut_slice());
        assert!(rt; out.as_slice() == expected.as_slice());
    }
    Ok(())
}

// Each case is an element, an exponent and the power.
fn check_powers<const N: usize>(
    rt: &impl Abort,
    a: &Algebra,
    cases: &[([u32; N], u64, [u32; N])],
) -> Result<(), NoMemory> {
    for (row, n, expected) in cases {
        assert!(rt; is_element(a, row));
        let found = a.power(row, *n)?;
        assert!(rt; found.as_slice() == expected.as_slice());
    }
    Ok(())
}

// The ideal that the row generates.
fn ideal_of(rt: &impl Abort, alloc: Global, a: &Algebra, row: &[u32]) -> Result<Space, NoMemory>
    ensures { IfOk result (λ ideal. IsIdealOf a.now ideal) }
{
    assert!(rt; is_element(a, row));
    let mut generators = List::new(alloc);
    generators.push(List::of_vec(copy_of(alloc, row)?))?;
    let ideal = a.ideal(generators.as_slice())?;
    Ok(ideal)
}

fn has_rows<const N: usize>(rows: &[List<u32>], expected: &[[u32; N]]) -> bool {
    rows.len() == expected.len()
        && rows
            .iter()
            .zip(expected)
            .all(|(row, wanted)| row.as_slice() == wanted.as_slice())
}

// The quotient by the ideal that the row generates has this one, projection and products.
fn check_quotient<const N: usize>(
    rt: &impl Abort,
    alloc: Global,
    a: &Algebra,
    generator: &[u32],
    one: &[u32],
    projection: &[[u32; N]],
    cases: &[[[u32; N]; 3]],
) -> Result<(), NoMemory> {
    let ideal = ideal_of(rt, alloc, a, generator)?;
    let (made, matrix) = a.quotient(&ideal)?;
    assert!(rt; made.dimension() == N);
    assert!(rt; made.prime().get() == a.prime().get());
    assert!(rt; made.one() == one);
    assert!(rt; has_rows(matrix.as_slice(), projection));
    check_products(rt, alloc, &made, cases)
}

#[test]
fn square_zero(rt: HostRuntime) -> Result<(), Fail> {
    let dual = dual_numbers(&rt, rt.alloc())?;
    assert_eq!(rt; dual.one(), [1, 0].as_slice());
    check_products(
        &rt,
        rt.alloc(),
        &dual,
        &[[[1, 1], [1, 1], [1, 0]], [[0, 1], [0, 1], [0, 0]]],
    )?;
    check_powers(&rt, &dual, &[([1, 1], 5, [1, 1]), ([0, 1], 2, [0, 0])])?;
    Ok(())
}

#[test]
fn nine_elements(rt: HostRuntime) -> Result<(), Fail> {
    let nine = field_of_nine(&rt, rt.alloc())?;
    assert_eq!(rt; nine.dimension(), 2);
    assert_eq!(rt; nine.prime().get(), 3);
    check_products(&rt, rt.alloc(), &nine, &[[[1, 1], [1, 2], [2, 0]]])?;
    check_powers(
        &rt,
        &nine,
        &[
            ([1, 1], 0, [1, 0]),
            ([1, 1], 2, [0, 2]),
            ([1, 1], 9, [1, 1]),
            ([2, 1], 9, [2, 1]),
        ],
    )?;
    Ok(())
}

#[test]
fn dimension_three_and_zero(rt: HostRuntime) -> Result<(), Fail> {
    let three = three_points(&rt, rt.alloc())?;
    check_products(
        &rt,
        rt.alloc(),
        &three,
        &[[[1, 1, 0], [2, 0, 1], [2, 3, 1]]],
    )?;
    check_powers(
        &rt,
        &three,
        &[
            ([0, 3, 0], 7, [0, 3, 0]),
            ([0, 1, 0], 9223372036854775808, [0, 0, 1]),
        ],
    )?;
    let zero = zero_algebra(&rt, rt.alloc())?;
    assert_eq!(rt; zero.dimension(), 0);
    check_products::<0>(&rt, rt.alloc(), &zero, &[[[], [], []]])?;
    check_powers::<0>(&rt, &zero, &[([], 3, [])])?;
    Ok(())
}

// By x, by x^2 - 1, by 0 and by 1.
#[test]
fn quotients(rt: HostRuntime) -> Result<(), Fail> {
    let three = three_points(&rt, rt.alloc())?;
    check_quotient(
        &rt,
        rt.alloc(),
        &three,
        &[0, 1, 0],
        &[1],
        &[[1], [0], [0]],
        &[[[3], [5], [1]]],
    )?;
    check_quotient(
        &rt,
        rt.alloc(),
        &three,
        &[6, 0, 1],
        &[0, 1],
        &[[0, 1], [1, 0], [0, 1]],
        &[[[2, 3], [1, 1], [5, 5]]],
    )?;
    check_quotient(
        &rt,
        rt.alloc(),
        &three,
        &[0, 0, 0],
        &[1, 0, 0],
        &[[1, 0, 0], [0, 1, 0], [0, 0, 1]],
        &[[[1, 1, 0], [2, 0, 1], [2, 3, 1]]],
    )?;
    check_quotient::<0>(
        &rt,
        rt.alloc(),
        &three,
        &[1, 0, 0],
        &[],
        &[[], [], []],
        &[[[], [], []]],
    )?;
    Ok(())
}

// The multiplication by x, a product of the basis, and the projection modulo x.
#[test]
fn matrices_and_projections(rt: HostRuntime) -> Result<(), Fail> {
    let three = three_points(&rt, rt.alloc())?;
    assert!(rt; is_element(&three, &[0, 1, 0]));
    let matrix = three.multiplication(&[0, 1, 0])?;
    assert!(rt; has_rows(matrix.as_slice(), &[[0, 1, 0], [0, 0, 1], [0, 1, 0]]));
    assert_eq!(rt; three.dimension(), 3);
    assert_eq!(rt; three.basis_product(1, 2), [0, 1, 0].as_slice());
    let x = ideal_of(&rt, rt.alloc(), &three, &[0, 1, 0])?;
    assert!(rt; has_rows(three.projection(&x)?.as_slice(), &[[1], [0], [0]]));
    Ok(())
}
