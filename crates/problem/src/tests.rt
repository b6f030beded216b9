// Letters.
use crate::{Letters, is_among, place};

#[test]
fn letters_are_one_to_six_and_distinct(rt: HostRuntime) {
    for known in ["x", "X", "xy", "xyzuvw", "xXyYzZ"] {
        let letters = Letters::new(known.as_bytes());
        assert!(rt;
            letters.is_some_and(|l| l.as_slice() == known.as_bytes()),
            "at {known}"
        );
    }
    for unknown in [
        "", "xyzuvwa", "xx", "xyx", "x1", "x ", "_", "@", "[", "`", "{",
    ] {
        assert!(rt; Letters::new(unknown.as_bytes()).is_none(), "at {unknown}");
    }
}

#[test]
fn letters_have_places(rt: HostRuntime) {
    assert!(rt; is_among(b"xyz", b'z') && !is_among(b"xyz", b'X'));
    assert!(rt; place(b"xyz", b'x') == 0 && place(b"xyz", b'z') == 2 && place(b"xyz", b'X') == 3);
}
