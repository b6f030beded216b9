// Texts and what is counted of them, by hand.
use crate::form_of;
use std::alloc::Global;
use std::test::Fail;

// The generators, the `at` statements, the most polynomials of one, the most open parentheses and the most digits, or
// `None` where the text is not of the grammar.
fn counts(alloc: Global, text: &str) -> Result<Option<[usize; 5]>, Fail> {
    let Some(form) = form_of(alloc, text.as_bytes())? else {
        return Ok(None);
    };
    let scan = form.scan;
    Ok(Some([
        scan.generators,
        scan.statements,
        scan.longest,
        scan.nesting,
        scan.digits,
    ]))
}

#[test]
fn texts_have_counts(rt: HostRuntime) -> Result<(), Fail> {
    let alloc = rt.alloc();
    for (text, want) in [
        ("ring r=2,x,dp;ideal I=0;", [1, 0, 0, 0, 1]),
        (
            "ring r = 7,(x,y),dp; ideal I = x, ((y)), 12; poly d = 3; at x, y; at 1;",
            [3, 2, 2, 2, 2],
        ),
        (
            "ring r = 7,(x,y),dp; // a comment\nideal I = 2x3y*(x+(y)^123);",
            [1, 0, 0, 2, 3],
        ),
    ] {
        assert!(rt; counts(alloc, text)? == Some(want), "at {text}");
    }
    Ok(())
}

#[test]
fn other_texts_have_no_form(rt: HostRuntime) -> Result<(), Fail> {
    let alloc = rt.alloc();
    for text in [
        "",
        "ring r = 7,(x,y),dp;",
        "ring r = 7,(x,x),dp; ideal I = x;",
        "ring r = 7,(x,y),lp; ideal I = x;",
        "ring r = 7,(x,y),dp; ideal I = x",
        "ring r = 7,(x,y),dp; ideal I = z;",
        "ring r = 7,(x,y),dp; ideal I = 2x^3;",
        "ring r = 7,(x,y),dp; ideal I = (x;",
        "ring r = 7,(x,y),dp; ideal I = x; at 1; poly d = 3;",
    ] {
        assert!(rt; counts(alloc, text)?.is_none(), "at {text}");
    }
    Ok(())
}
