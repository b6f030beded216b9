// Values from the definition of dp in Greuel and Pfister's textbook, and computed by hand.
ghost use Rattle.std.specs.Prelude.{◌≡◌, ◌<◌, ◌∷◌, []};

use super::Mono;
use std::cmp::Ordering;

// A monomial in the first three variables and the homogenising one.
fn mono(x: u16, y: u16, z: u16, hom: u16, component: u8) -> Mono
    requires x { x < 100 }
    requires y { y < 100 }
    requires z { z < 100 }
    requires hom { hom < 100 }
    requires component { component < 2 }
    ensures { result ≡ record { exponents = x ∷ y ∷ z ∷ 0 ∷ 0 ∷ 0 ∷ hom ∷ []; component = component } }
{
    Mono {
        exponents: [x, y, z, 0, 0, 0, hom],
        component,
        degree: x + y + z + hom,
    }
}

#[test]
fn dp_orders_a_chain(rt: HostRuntime) {
    let falling = [
        mono(0, 3, 0, 0, 0),
        mono(2, 0, 0, 0, 0),
        mono(1, 1, 0, 0, 0),
        mono(0, 2, 0, 0, 0),
        mono(1, 0, 1, 0, 0),
        mono(0, 1, 1, 0, 0),
        mono(0, 0, 2, 0, 0),
        mono(1, 0, 0, 1, 0),
        mono(0, 0, 1, 1, 0),
        mono(0, 0, 0, 2, 0),
        mono(1, 0, 0, 0, 0),
        mono(0, 0, 0, 1, 0),
        mono(0, 0, 0, 0, 0),
        mono(0, 3, 0, 0, 1),
        mono(2, 0, 0, 0, 1),
        mono(0, 0, 0, 0, 1),
    ];
    for (i, a) in falling.iter().enumerate() {
        for (j, b) in falling.iter().enumerate() {
            assert_eq!(rt; Mono::cmp_dp(a, b), j.cmp(&i), "at {i} and {j}");
        }
    }
}

#[test]
fn calls_on_examples(rt: HostRuntime) {
    let a = mono(2, 1, 0, 0, 0);
    let b = mono(1, 3, 0, 0, 0);
    assert_eq!(rt; Mono::lcm(&a, &b), mono(2, 3, 0, 0, 0));
    assert_eq!(rt; Mono::product(&a, &b), mono(3, 4, 0, 0, 0));
    assert_eq!(rt;
        Mono::quotient(&mono(3, 4, 0, 0, 1), &b),
        mono(2, 1, 0, 0, 1)
    );
    assert_eq!(rt; a.with_hom(4).with_component(1), mono(2, 1, 0, 4, 1));
    assert_eq!(rt;
        Mono::product(&Mono::var(0), &Mono::var(2)),
        mono(1, 0, 1, 0, 0)
    );
    assert_eq!(rt;
        Mono::cmp_dp(&Mono::one(), &mono(0, 0, 0, 0, 0)),
        Ordering::Equal
    );
    assert!(rt; Mono::divides(&a, &mono(2, 3, 0, 0, 0)));
    assert!(rt; !Mono::divides(&a, &b), "x^2 y does not divide x y^3");
    assert!(rt; !Mono::divides(&a, &mono(2, 3, 0, 0, 1)), "two components");
    let c = mono(2, 1, 0, 4, 1);
    assert_eq!(rt; (c.degree(), c.hom(), c.component()), (7, 4, 1));
    assert_eq!(rt; (c.exponent(0), c.exponent(1), c.exponent(2)), (2, 1, 0));
}
