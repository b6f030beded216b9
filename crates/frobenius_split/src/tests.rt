// Radicals and maximal ideals worked by hand.
ghost use Rattle.std.specs.Prelude.{◌≡◌, IfOk};
ghost use Rattle.finite_algebra.specs.Elements.{IsAlgebra};

use super::{LocalPoint, local_points, points, radical};
use finite_algebra::Algebra;
use lists::{List, NoMemory};
use prime_field::Prime;
use std::alloc::Global;
use std::process::Abort;
use std::test::Fail;

fn algebra_of<const N: usize>(
    rt: &impl Abort,
    alloc: Global,
    p: u32,
    one: &[u32],
    products: &[[u32; N]],
) -> Result<Algebra, NoMemory>
    requires { IsAlgebra (record { prime = p; dimension = N; one = one.now; products = products.now }) }
{
    let prime = Prime::new(p).expect(rt, "a prime of the table");
    let rows = rows_of(alloc, products)?;
    let row = List::from_slice(alloc, one)?;
    Ok(Algebra::of_products(prime, N, row, rows))
}

fn rows_of<const N: usize>(alloc: Global, rows: &[[u32; N]]) -> Result<List<List<u32>>, NoMemory>
    ensures { IfOk result (λ made. made ≡ rows.now) }
{
    let mut made = List::new(alloc);
    for row in rows {
        let copy = List::from_slice(alloc, row)?;
        made.push(copy)?;
    }
    Ok(made)
}

// F_2[x]/(x^2), by 1 and x.
fn dual_numbers(rt: &impl Abort, alloc: Global) -> Result<Algebra, NoMemory> {
    algebra_of(rt, alloc, 2, &[1, 0], &[[1, 0], [0, 1], [0, 1], [0, 0]])
}

// F_3[x]/(x^2 + 1), by 1 and x.
fn field_of_nine(rt: &impl Abort, alloc: Global) -> Result<Algebra, NoMemory> {
    algebra_of(rt, alloc, 3, &[1, 0], &[[1, 0], [0, 1], [0, 1], [2, 0]])
}

// F_7[x]/(x^3 - x), by 1, x and x^2.
fn three_points(rt: &impl Abort, alloc: Global) -> Result<Algebra, NoMemory> {
    algebra_of(
        rt,
        alloc,
        7,
        &[1, 0, 0],
        &[
            [1, 0, 0],
            [0, 1, 0],
            [0, 0, 1],
            [0, 1, 0],
            [0, 0, 1],
            [0, 1, 0],
            [0, 0, 1],
            [0, 1, 0],
            [0, 0, 1],
        ],
    )
}

// F_2[x]/(x^4 + x^2 + 1), by 1, x, x^2 and x^3: x^4 + x^2 + 1 is the square of x^2 + x + 1.
fn double_quartic(rt: &impl Abort, alloc: Global) -> Result<Algebra, NoMemory> {
    algebra_of(
        rt,
        alloc,
        2,
        &[1, 0, 0, 0],
        &[
            [1, 0, 0, 0],
            [0, 1, 0, 0],
            [0, 0, 1, 0],
            [0, 0, 0, 1],
            [0, 1, 0, 0],
            [0, 0, 1, 0],
            [0, 0, 0, 1],
            [1, 0, 1, 0],
            [0, 0, 1, 0],
            [0, 0, 0, 1],
            [1, 0, 1, 0],
            [0, 1, 0, 1],
            [0, 0, 0, 1],
            [1, 0, 1, 0],
            [0, 1, 0, 1],
            [1, 0, 0, 0],
        ],
    )
}

// F_2[x]/(x^4), by 1, x, x^2 and x^3.
fn fourth_powers(rt: &impl Abort, alloc: Global) -> Result<Algebra, NoMemory> {
    algebra_of(
        rt,
        alloc,
        2,
        &[1, 0, 0, 0],
        &[
            [1, 0, 0, 0],
            [0, 1, 0, 0],
            [0, 0, 1, 0],
            [0, 0, 0, 1],
            [0, 1, 0, 0],
            [0, 0, 1, 0],
            [0, 0, 0, 1],
            [0, 0, 0, 0],
            [0, 0, 1, 0],
            [0, 0, 0, 1],
            [0, 0, 0, 0],
            [0, 0, 0, 0],
            [0, 0, 0, 1],
            [0, 0, 0, 0],
            [0, 0, 0, 0],
            [0, 0, 0, 0],
        ],
    )
}

// F_2[x, y]/(x^2 + x, y^2 + y), by 1, x, y and x y.
fn four_points(rt: &impl Abort, alloc: Global) -> Result<Algebra, NoMemory> {
    algebra_of(
        rt,
        alloc,
        2,
        &[1, 0, 0, 0],
        &[
            [1, 0, 0, 0],
            [0, 1, 0, 0],
            [0, 0, 1, 0],
            [0, 0, 0, 1],
            [0, 1, 0, 0],
            [0, 1, 0, 0],
            [0, 0, 0, 1],
            [0, 0, 0, 1],
            [0, 0, 1, 0],
            [0, 0, 0, 1],
            [0, 0, 1, 0],
            [0, 0, 0, 1],
            [0, 0, 0, 1],
            [0, 0, 0, 1],
            [0, 0, 0, 1],
            [0, 0, 0, 1],
        ],
    )
}

// F_32003^8, by a basis with random coordinates.
fn eight_points(rt: &impl Abort, alloc: Global) -> Result<Algebra, NoMemory> {
    algebra_of(
        rt,
        alloc,
        32003,
        &[9362, 29765, 13730, 26167, 15311, 16998, 4828, 30672],
        &[
            [29860, 21581, 7995, 28932, 15808, 10620, 7840, 19333],
            [1985, 8070, 6292, 18493, 17174, 6211, 7141, 9097],
            [17317, 3097, 16316, 28414, 12620, 21849, 7656, 19851],
            [27281, 19550, 22581, 28946, 21137, 17540, 29610, 20544],
            [31733, 31793, 8241, 4460, 3012, 26742, 18310, 14302],
            [7728, 151, 1424, 12487, 31773, 24244, 29266, 21313],
            [27638, 12386, 5641, 6657, 6159, 15491, 3393, 3987],
            [5980, 25120, 26640, 9653, 28761, 17707, 581, 26127],
            [1985, 8070, 6292, 18493, 17174, 6211, 7141, 9097],
            [18180, 31504, 14772, 907, 28132, 18381, 19403, 23899],
            [4736, 2190, 10663, 22006, 26262, 616, 10755, 5871],
            [21358, 24182, 23220, 18155, 18742, 6918, 31076, 12752],
            [31732, 8000, 9914, 17302, 23931, 31187, 22723, 22382],
            [18856, 7518, 3196, 6660, 14357, 28575, 22748, 21511],
            [12787, 14556, 26270, 17494, 11224, 6783, 25966, 26105],
            [19426, 886, 6724, 28108, 7812, 12489, 29577, 21589],
            [17317, 3097, 16316, 28414, 12620, 21849, 7656, 19851],
            [4736, 2190, 10663, 22006, 26262, 616, 10755, 5871],
            [27353, 25945, 27640, 5499, 3384, 25962, 1913, 19412],
            [15338, 13349, 26017, 10331, 11795, 16629, 2499, 12825],
            [29578, 21249, 18003, 5052, 3015, 3592, 6833, 715],
            [22031, 27237, 2146, 1121, 10683, 12135, 21245, 9620],
            [28665, 29711, 2292, 20586, 17585, 5377, 5881, 31490],
            [7536, 20086, 13988, 15039, 20333, 30570, 9518, 2073],
            [27281, 19550, 22581, 28946, 21137, 17540, 29610, 20544],
            [21358, 24182, 23220, 18155, 18742, 6918, 31076, 12752],
            [15338, 13349, 26017, 10331, 11795, 16629, 2499, 12825],
            [31273, 27299, 17641, 21539, 8802, 28032, 17473, 12816],
            [5455, 30570, 9825, 10200, 29649, 4928, 29173, 26426],
            [28748, 6403, 28614, 5158, 3310, 7593, 29254, 28498],
            [3676, 24416, 28613, 1737, 30754, 11340, 4960, 8861],
            [6493, 23985, 8822, 3273, 14506, 24934, 30147, 3298],
            [31733, 31793, 8241, 4460, 3012, 26742, 18310, 14302],
            [31732, 8000, 9914, 17302, 23931, 31187, 22723, 22382],
            [29578, 21249, 18003, 5052, 3015, 3592, 6833, 715],
            [5455, 30570, 9825, 10200, 29649, 4928, 29173, 26426],
            [4635, 9619, 24546, 9128, 12090, 4594, 4701, 28224],
            [16767, 4374, 8570, 4407, 23426, 21165, 29620, 30803],
            [11974, 31156, 19143, 11019, 7371, 17084, 17552, 9699],
            [26288, 195, 14467, 28282, 1826, 28544, 28039, 31697],
            [7728, 151, 1424, 12487, 31773, 24244, 29266, 21313],
            [18856, 7518, 3196, 6660, 14357, 28575, 22748, 21511],
            [22031, 27237, 2146, 1121, 10683, 12135, 21245, 9620],
            [28748, 6403, 28614, 5158, 3310, 7593, 29254, 28498],
            [16767, 4374, 8570, 4407, 23426, 21165, 29620, 30803],
            [15810, 1856, 28204, 17497, 27845, 14714, 27586, 7492],
            [12116, 7859, 16532, 14024, 8062, 27537, 5193, 28606],
            [320, 27894, 20993, 12404, 4080, 26130, 31804, 23433],
            [27638, 12386, 5641, 6657, 6159, 15491, 3393, 3987],
            [12787, 14556, 26270, 17494, 11224, 6783, 25966, 26105],
            [28665, 29711, 2292, 20586, 17585, 5377, 5881, 31490],
            [3676, 24416, 28613, 1737, 30754, 11340, 4960, 8861],
            [11974, 31156, 19143, 11019, 7371, 17084, 17552, 9699],
            [12116, 7859, 16532, 14024, 8062, 27537, 5193, 28606],
            [19171, 13803, 7178, 17019, 22423, 19556, 14425, 8086],
            [25788, 15532, 1845, 18203, 20875, 26997, 18009, 8383],
            [5980, 25120, 26640, 9653, 28761, 17707, 581, 26127],
            [19426, 886, 6724, 28108, 7812, 12489, 29577, 21589],
            [7536, 20086, 13988, 15039, 20333, 30570, 9518, 2073],
            [6493, 23985, 8822, 3273, 14506, 24934, 30147, 3298],
            [26288, 195, 14467, 28282, 1826, 28544, 28039, 31697],
            [320, 27894, 20993, 12404, 4080, 26130, 31804, 23433],
            [25788, 15532, 1845, 18203, 20875, 26997, 18009, 8383],
            [31597, 1804, 19745, 14849, 8901, 25160, 30613, 17593],
        ],
    )
}

fn zero_algebra(rt: &impl Abort, alloc: Global) -> Result<Algebra, NoMemory> {
    algebra_of::<0>(rt, alloc, 5, &[], &[])
}

// The dimension of the radical, the number of maximal ideals, and the degree that all of them have.
fn check(
    rt: &impl Abort,
    a: Algebra,
    nilpotent: usize,
    count: usize,
    degree: u32,
) -> Result<(), NoMemory> {
    assert_eq!(rt; radical(&a)?.dimension(), nilpotent);
    let found = points(&a)?;
    assert_eq!(rt; found.len(), count);
    assert!(rt; found.as_slice().iter().all(|point| point.degree == degree));
    Ok(())
}

#[test]
fn radicals_and_points_are_found(rt: HostRuntime) -> Result<(), Fail> {
    let alloc = rt.alloc();
    check(&rt, dual_numbers(&rt, alloc)?, 1, 1, 1)?;
    check(&rt, field_of_nine(&rt, alloc)?, 0, 1, 2)?;
    check(&rt, three_points(&rt, alloc)?, 0, 3, 1)?;
    check(&rt, double_quartic(&rt, alloc)?, 2, 1, 2)?;
    check(&rt, fourth_powers(&rt, alloc)?, 3, 1, 1)?;
    check(&rt, four_points(&rt, alloc)?, 0, 4, 1)?;
    check(&rt, eight_points(&rt, alloc)?, 0, 8, 1)?;
    check(&rt, zero_algebra(&rt, alloc)?, 0, 0, 0)?;
    Ok(())
}

fn has_rows<const G: usize>(rows: &[List<u32>], expected: &[[u32; G]]) -> bool {
    rows.len() == expected.len()
        && rows
            .iter()
            .zip(expected)
            .all(|(row, wanted)| row.as_slice() == wanted.as_slice())
}

// Some point has this idempotent, the degree G and these values of the basis.
fn is_there<const G: usize>(found: &[LocalPoint], e: &[u32], values: &[[u32; G]]) -> bool {
    found.iter().any(|local| {
        local.idempotent.as_slice() == e
            && local.point.degree as usize == G
            && has_rows(local.values.as_slice(), values)
    })
}

// Modulo x^3 - x the idempotents are 1 - x^2, (x^2 + x)/2 and (x^2 - x)/2.
#[test]
fn idempotents_and_values_are_found(rt: HostRuntime) -> Result<(), Fail> {
    let alloc = rt.alloc();
    let three = local_points(&three_points(&rt, alloc)?)?;
    assert_eq!(rt; three.len(), 3);
    assert!(rt; is_there(three.as_slice(), &[1, 0, 6], &[[1], [0], [0]]));
    assert!(rt; is_there(three.as_slice(), &[0, 4, 4], &[[1], [1], [1]]));
    assert!(rt; is_there(three.as_slice(), &[0, 3, 4], &[[1], [6], [1]]));
    let dual = local_points(&dual_numbers(&rt, alloc)?)?;
    assert_eq!(rt; dual.len(), 1);
    assert!(rt; is_there(dual.as_slice(), &[1, 0], &[[1], [0]]));
    let nine = local_points(&field_of_nine(&rt, alloc)?)?;
    assert_eq!(rt; nine.len(), 1);
    assert!(rt; is_there(nine.as_slice(), &[1, 0], &[[1, 0], [0, 1]]));
    assert_eq!(rt; local_points(&zero_algebra(&rt, alloc)?)?.len(), 0);
    Ok(())
}
