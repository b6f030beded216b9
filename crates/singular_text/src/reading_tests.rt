// Problems as texts, each with what is read of it. The values are computed by hand.
use crate::{Problem, ReadFault, Which, print_poly, read_problem};
use lists::List;
use polys::Poly;
use std::alloc::Global;
use std::test::Fail;

// Polynomials, each followed by a semicolon.
fn append_polys(problem: &Problem, polys: &[Poly], out: &mut List<u8>) -> Result<(), Fail> {
    for f in polys {
        print_poly(&problem.letters, f, out)?;
        out.push(b';')?;
    }
    Ok(())
}

// The generators, a bar, the denominator if there is one, and for each `at` statement a bar and its polynomials.
fn shown(alloc: Global, problem: &Problem) -> Result<List<u8>, Fail> {
    let mut out = List::new(alloc);
    append_polys(problem, problem.generators.as_slice(), &mut out)?;
    out.push(b'|')?;
    if let Some(d) = &problem.denominator {
        print_poly(&problem.letters, d, &mut out)?;
        out.push(b';')?;
    }
    for polys in problem.at.as_slice() {
        out.push(b'|')?;
        append_polys(problem, polys.as_slice(), &mut out)?;
    }
    Ok(out)
}

#[test]
fn problems_are_read(rt: HostRuntime) -> Result<(), Fail> {
    for (text, p, letters, polys) in [
        (
            "ring r = 7,(x,y),dp; ideal I = 0; poly d = 2;",
            7,
            "xy",
            "0;|2;",
        ),
        (
            "ring r = 7,(x,y),dp; ideal I = y2-x3;",
            7,
            "xy",
            "-x^3+y^2;|",
        ),
        (
            "ring r = 5,(x,y),dp; ideal I = x*y; poly d = x;",
            5,
            "xy",
            "x*y;|x;",
        ),
        ("ring r = 2,(x),dp; ideal I = 0;", 2, "x", "0;|"),
        ("ring r = 2,x,dp; ideal I = 0;", 2, "x", "0;|"),
        (
            "ring r = 7,(x,y),dp; ideal I = y2-x4+2x3-x2;",
            7,
            "xy",
            "-x^4+2*x^3-x^2+y^2;|",
        ),
        (
            "ring r = 3,(x,y),dp; ideal I = y2-(x2+1)^2;",
            3,
            "xy",
            "-x^4+x^2+y^2-1;|",
        ),
        (
            "ring r = 101,(x,y,z),dp; ideal I = y2-xz, x3-yz, z2-x2y;",
            101,
            "xyz",
            "y^2-x*z;x^3-y*z;-x^2*y+z^2;|",
        ),
        (
            "ring r = 7,(w,x,y,z),dp; ideal I = w-x,x-y;",
            7,
            "wxyz",
            "w-x;x-y;|",
        ),
        (
            "ring r = 7,(x,y),dp; ideal I = 0, y2-x3, 2*(y2-x3);",
            7,
            "xy",
            "0;-x^3+y^2;-2*x^3+2*y^2;|",
        ),
        (
            "// nodal cubic\nring r = 32003,(x,y),dp;\nideal I = y2-x3-x2;\n",
            32003,
            "xy",
            "-x^3-x^2+y^2;|",
        ),
        (
            "ring r = 7,(x,y),dp; ideal I = y5-x6; poly d = x60;",
            7,
            "xy",
            "-x^6+y^5;|x^60;",
        ),
        (
            "ring r = 7,(x,y),dp; ideal I = y2; at x,y; at x-1;",
            7,
            "xy",
            "y^2;||x;y;|x-1;",
        ),
        (
            "ring r=00007,(x,y),dp;ideal I=-x//end;\n+y;",
            7,
            "xy",
            "-x+y;|",
        ),
        (
            "ring ring = 7,(x,y),dp; ideal poly = 2x3y, x0, 0^0, -x, +x; poly at = xx2x; at 1;",
            7,
            "xy",
            "2*x^3*y;1;1;-x;x;|x^4;|1;",
        ),
        (
            "ring r = 5,(x,y),dp; ideal I = 0*x40*x40, (x+y)^5, 2^999999999999999999, 0x61, x^0, 10-3*x-y;",
            5,
            "xy",
            "0;x^5+y^5;-2;0;1;2*x-y;|",
        ),
        (
            "ring r = 3,(x,y),dp; ideal I = (((x)))^007, ((x+1)*(x-1))^2*y;",
            3,
            "xy",
            "x^7;x^4*y+x^2*y+y;|",
        ),
        (
            "ring r = 47,(a,b,c,d,e,f),dp; ideal I = (a+b+c+d+e+f+1)^47;",
            47,
            "abcdef",
            "a^47+b^47+c^47+d^47+e^47+f^47+1;|",
        ),
    ] {
        match read_problem(rt.alloc(), text.as_bytes()) {
            Ok(problem) => {
                assert_eq!(rt; problem.prime.get(), p);
                assert_eq!(rt; problem.letters.as_slice(), letters.as_bytes());
                let out = shown(rt.alloc(), &problem)?;
                assert!(rt; out.as_slice() == polys.as_bytes(), "at {text}");
            }
            Err(fault) => return Err(format!(in rt.alloc(); "{fault} at {text}")?.into()),
        }
    }
    Ok(())
}

#[test]
fn faults_come_in_order(rt: HostRuntime) -> Result<(), Fail> {
    for (text, fault) in [
        // not of the grammar
        ("", ReadFault::Syntax),
        ("ring r = 7,(x,y),dp; ideal I = y2-x3", ReadFault::Syntax),
        ("ring r = 7,(x,y),dp; ideal I = 2x^2;", ReadFault::Syntax),
        ("ring r = 7,(x,y),dp; ideal I = xy^2;", ReadFault::Syntax),
        ("ring r = 7,(x,y),dp; ideal I = x^2^2;", ReadFault::Syntax),
        ("ring r = 7,(x,y),dp; ideal I = z;", ReadFault::Syntax),
        ("ring r = 7,(x,y),dp; ideal I = 2z;", ReadFault::Syntax),
        ("ring r = 7,(x,y),dp; ideal I = x--y;", ReadFault::Syntax),
        ("ring r = 7,(x,y),dp; ideal I = (x;", ReadFault::Syntax),
        ("ring r = 7,(x,y),dp; ideal I = x);", ReadFault::Syntax),
        ("ring r = 7,(x,y),dp; ideal I = ();", ReadFault::Syntax),
        ("ring r = 7,(x,y),dp; ideal I = x,;", ReadFault::Syntax),
        ("ring r = 7,(x,y),dp; ideal I = x/2;", ReadFault::Syntax),
        ("ring r = 7,(x,x),dp; ideal I = x;", ReadFault::Syntax),
        ("ring r = 7,x,y,dp; ideal I = x;", ReadFault::Syntax),
        ("ring r = 7,(x,y),lp; ideal I = x;", ReadFault::Syntax),
        (
            "ring r = 7,(x,y),dp; ideal I = x; poly d = x,y;",
            ReadFault::Syntax,
        ),
        (
            "ring r = 7,(x,y),dp; ideal I = x; at x; poly d = x;",
            ReadFault::Syntax,
        ),
        ("ring r = 7,(x,y),dp; ideal I = x; at;", ReadFault::Syntax),
        ("ring r = 7,(x,y),dp; ideal 1 = x;", ReadFault::Syntax),
        ("ring r = 7,(x,y),dp; ideal I = x; /", ReadFault::Syntax),
        // each check, before all later ones
        (
            "ring r = 9,(a,b,c,d,e,f,g),dp; ideal I = x",
            ReadFault::Syntax,
        ),
        (
            "ring r = 9,(a,b,c,d,e,f,g),dp; ideal I = a61;",
            ReadFault::Characteristic,
        ),
        (
            "ring r = 4294967303,(a),dp; ideal I = a;",
            ReadFault::Characteristic,
        ),
        (
            "ring r = 7,(a,b,c,d,e,f,g),dp; ideal I = a,a,a,a,a,a,a,a,a,a,a,a,a;",
            ReadFault::Limit(Which::Variables),
        ),
        (
            "ring r = 7,(x,y),dp; ideal I = x,x,x,x,x,x,x,x,x,x,x,x,x; at x,x,x,x,x,x,x,x,x,x,x,x,x;",
            ReadFault::Limit(Which::Generators),
        ),
        (
            "ring r = 7,(x,y),dp; ideal I = x; at x;at x;at x;at x;at x;at x;at x;at x;at x;at x;at x;at x;at x;at x;at x;at x;at x61;",
            ReadFault::Limit(Which::Points),
        ),
        (
            "ring r = 7,(x,y),dp; ideal I = x61; at x,x,x,x,x,x,x,x,x,x,x,x,x;",
            ReadFault::Limit(Which::Points),
        ),
        (
            "ring r = 7,(x,y),dp; ideal I = x61; poly d = x^0000000000000000001;",
            ReadFault::Limit(Which::Digits),
        ),
        (
            "ring r = 7,(x,y),dp; ideal I = 1000000000000000000;",
            ReadFault::Limit(Which::Digits),
        ),
        (
            "ring r = 7,(x,y),dp; ideal I = y2-x61;",
            ReadFault::Limit(Which::Size),
        ),
        (
            "ring r = 7,(x,y),dp; ideal I = x40*x40*0;",
            ReadFault::Limit(Which::Size),
        ),
        (
            "ring r = 7,(x,y),dp; ideal I = x61-x61;",
            ReadFault::Limit(Which::Size),
        ),
        (
            "ring r = 7,(x,y),dp; ideal I = (x2+y)^31;",
            ReadFault::Limit(Which::Size),
        ),
        (
            "ring r = 7,(x,y),dp; ideal I = 0; at x^999999999999999999;",
            ReadFault::Limit(Which::Size),
        ),
        (
            "ring r = 32003,(u,v,w,x,y,z),dp; ideal I = (1+u+v+w+x+y+z)^8;",
            ReadFault::Limit(Which::Size),
        ),
        (
            "ring r = 32003,(a,b,c,d,e,f),dp; ideal I = (a+b+c+d+e+f+1)^60;",
            ReadFault::Limit(Which::Size),
        ),
    ] {
        let read = read_problem(rt.alloc(), text.as_bytes());
        assert!(rt; matches!(read, Err(found) if found == fault), "at {text}");
    }
    Ok(())
}

// An ideal whose generator is `x` in so many parentheses.
fn nested(alloc: Global, depth: usize) -> Result<List<u8>, Fail> {
    let mut text = List::new(alloc);
    for byte in b"ring r = 7,(x,y),dp; ideal I = " {
        text.push(*byte)?;
    }
    for _ in 0..depth {
        text.push(b'(')?;
    }
    text.push(b'x')?;
    for _ in 0..depth {
        text.push(b')')?;
    }
    text.push(b';')?;
    Ok(text)
}

#[test]
fn parentheses_are_counted(rt: HostRuntime) -> Result<(), Fail> {
    for (depth, is_read) in [(100, true), (101, false), (200_000, false)] {
        let text = nested(rt.alloc(), depth)?;
        let read = read_problem(rt.alloc(), text.as_slice());
        match read {
            Ok(_) => assert!(rt; is_read, "at {depth}"),
            Err(fault) => {
                assert!(rt;
                    !is_read && fault == ReadFault::Limit(Which::Nesting),
                    "at {depth}"
                )
            }
        }
    }
    Ok(())
}
