ghost use Rattle.std.specs.Prelude.{◌≡◌, ◌≢◌, ℕ, ◌<◌};

use crate::run_alone;
use lists::List;
use norm_outside::{MemSink, MemSource, SoundSink, SoundSource};
use std::alloc::{AllocError, Global};
use std::test::Fail;

const TRIVIAL: &str = "ring r = 7,(x,y),dp; ideal I = 0; poly d = 2;";

const TRIVIAL_ANSWER: &str =
    "locnormal 1\ncharacteristic 7\nvariables x,y\ndenominator 1\ndimension 0\npower 0\nnumerator 1\nend\n";

// x is a unit on the point x = 1 of the line.
const POINT: &str = "ring r = 7,(x),dp; ideal I = x-1; poly d = x;";

const POINT_ANSWER: &str =
    "locnormal 1\ncharacteristic 7\nvariables x\ndenominator x\ndimension 0\npower 0\nnumerator 1\nend\n";

const LINE: &str = "ring r = 2,(x),dp; ideal I = 0;";

const LINE_ANSWER: &str =
    "locnormal 1\ncharacteristic 2\nvariables x\ndenominator 1\ndimension 0\npower 0\nnumerator 1\nend\n";

const CUSP: &str = "ring r = 7,(x,y),dp; ideal I = y2-x3;";

const CUSP_ANSWER: &str =
    "locnormal 1\ncharacteristic 7\nvariables x,y\ndenominator x^2\ndimension 4\npoint y, x; degree 1; delta 1\npower 1\nnumerator y^2\nnumerator x*y\nnumerator x^2\nend\n";

// Two branches that meet in two points, at one of which the program is asked what is local.
const PARTIAL: &str = "ring r = 7,(x,y),dp; ideal I = y2-x4+2x3-x2; at x, y;";

const PARTIAL_ANSWER: &str =
    "locnormal 2\ncharacteristic 7\nvariables x,y\ndenominator x^3+2*x^2-3*x\ndimension 6\nnamed 1\npoint y, x; degree 1; delta 1\npower 1\nnumerator x^2-3*y^2-x\nnumerator y^3+x*y-y\nnumerator x*y^2+3*y^2\nend\n";

// A double line: delta of its point is above every limit.
const DOUBLE: &str = "ring r = 7,(x,y),dp; ideal I = y2; poly d = x;";

const TACNODE: &str = "ring r = 3,(x,y),dp; ideal I = y2-x4;";

const TACNODE_ANSWER: &str =
    "locnormal 1\ncharacteristic 3\nvariables x,y\ndenominator x^3\ndimension 6\npoint y, x; degree 1; delta 2\npower 1\nnumerator y^2\nnumerator x*y\nnumerator x^3\nend\n";

// Nine distinct points: the second partial derivative of the first generator is -1, so the denominator is 1.
const CUBES: &str = "ring r = 7,(x,y),dp; ideal I = x3-y, y3-x;";

fn words_of(alloc: Global, words: &[&str]) -> Result<Vec<String>, AllocError> {
    let mut list = Vec::new(alloc);
    for word in words {
        list.push(String::from_str(alloc, word)?)?;
    }
    Ok(list)
}

// One run over memory in pieces of 16 bytes: the status, and what was written.
fn run(
    alloc: Global,
    words: &[&str],
    input: &str,
    read_fails: &[u64],
    write_fails: &[u64],
) -> Result<(u8, Vec<u8>), Fail> {
    let words = words_of(alloc, words)?;
    let bytes = List::of_vec(Vec::from_slice(alloc, input.as_bytes())?);
    let mut source = MemSource::new(bytes, 16, List::of_vec(Vec::from_slice(alloc, read_fails)?));
    let write_fails = List::of_vec(Vec::from_slice(alloc, write_fails)?);
    let mut sink = MemSink::new(alloc, 4096, 16, write_fails)
        .ok()
        .ok_or("room")?;
    let status = run_alone(alloc, words.as_slice(), &mut source, &mut sink);
    Ok((status, Vec::from_slice(alloc, sink.bytes())?))
}

// Over a source and a sink whose counts of faults are constant neither fault is answered.
fn run_sound(alloc: Global, words: &[String], source: &mut SoundSource, sink: &mut SoundSink) -> u8
    ensures no_read_fault { result ≢ 20 }
    ensures no_write_fault { result ≢ 21 }
{
    run_alone(alloc, words, source, sink)
}

// Whether a run without faults gives the status and the text.
fn gives(alloc: Global, words: &[&str], input: &str, status: u8, text: &str) -> Result<bool, Fail> {
    let (found, written) = run(alloc, words, input, &[], &[])?;
    Ok(found == status && written.as_slice() == text.as_bytes())
}

#[test]
fn problems_are_answered(rt: HostRuntime) -> Result<(), Fail> {
    let none = "ring r = 7,(x,y),dp; ideal I = y2; poly d = x; at x-1;";
    let none_answer =
        "locnormal 2\ncharacteristic 7\nvariables x,y\ndenominator x\ndimension 2\nnamed 0\npower 0\nnumerator 1\nend\n";
    for (input, text) in [
        (TRIVIAL, TRIVIAL_ANSWER),
        (POINT, POINT_ANSWER),
        (LINE, LINE_ANSWER),
        (CUSP, CUSP_ANSWER),
        (PARTIAL, PARTIAL_ANSWER),
        (none, none_answer),
    ] {
        assert!(rt;
            gives(rt.alloc(), &["alone"], input, 0, text)?,
            "at {input}"
        );
    }
    Ok(())
}

#[test]
fn denominators_are_refused(rt: HostRuntime) -> Result<(), Fail> {
    let crossed = "ring r = 5,(x,y),dp; ideal I = x*y; poly d = x;";
    // The dimension modulo d^2 is twice that modulo d, and yet x times x is in the ideal.
    let double = "ring r = 7,(x),dp; ideal I = x2; poly d = x;";
    let plane = "ring r = 5,(x,y),dp; ideal I = 0; poly d = x;";
    let none = "ring r = 5,(x,y),dp; ideal I = 0;";
    let four = "ring r = 7,(w,x,y,z),dp; ideal I = w-x,x-y;";
    let unit = "ring r = 7,(x,y),dp; ideal I = 1;";
    let wide = "ring r = 7,(x,y),dp; ideal I = y5-x6; poly d = x60;";
    for (input, status, line) in [
        (crossed, 8, "refused: zero divisor\n"),
        (double, 8, "refused: zero divisor\n"),
        (plane, 9, "refused: infinite\n"),
        (none, 7, "refused: no denominator\n"),
        (four, 7, "refused: no denominator\n"),
        (unit, 5, "refused: unit ideal\n"),
        (wide, 9, "refused: wide\n"),
    ] {
        assert!(rt;
            gives(rt.alloc(), &["alone"], input, status, line)?,
            "at {input}"
        );
    }
    Ok(())
}

#[test]
fn texts_are_refused(rt: HostRuntime) -> Result<(), Fail> {
    let syntax = "ring r = 7,(x,y),dp; ideal I = y2-x3";
    let nine = "ring r = 9,(x,y),dp; ideal I = y2-x3;";
    let seven_letters = "ring r = 7,(a,b,c,d,e,f,g),dp; ideal I = a;";
    let generators = "ring r = 7,(x),dp; ideal I = x,x,x,x,x,x,x,x,x,x,x,x,x;";
    let points = "ring r = 7,(x),dp; ideal I = x; at x,x,x,x,x,x,x,x,x,x,x,x,x;";
    let digits = "ring r = 7,(x),dp; ideal I = 1234567890123456789;";
    let size = "ring r = 7,(x,y),dp; ideal I = y2-x61;";
    for (input, status, line) in [
        (syntax, 3, "refused: syntax\n"),
        (nine, 4, "refused: characteristic\n"),
        (seven_letters, 4, "refused: limit variables\n"),
        (generators, 4, "refused: limit generators\n"),
        (points, 4, "refused: limit points\n"),
        (digits, 4, "refused: limit digits\n"),
        (size, 4, "refused: limit size\n"),
    ] {
        assert!(rt;
            gives(rt.alloc(), &["alone"], input, status, line)?,
            "at {input}"
        );
    }
    Ok(())
}

#[test]
fn words_ask_for_a_cap_and_a_limit(rt: HostRuntime) -> Result<(), Fail> {
    let deep = "refused: deep ideal\n";
    let cusp = "ring r = 7,(x,y),dp; ideal I = y2-x3; poly d = x2+y;";
    let deep_denominator = "refused: deep denominator\n";
    let delta = "refused: delta y, x\n";
    for (words, input, status, text) in [
        (["alone", "--degree", "4"].as_slice(), CUBES, 6, deep),
        (["alone", "--degree=0004"].as_slice(), CUBES, 6, deep),
        (
            ["alone", "--delta", "64", "--degree", "1000"].as_slice(),
            CUBES,
            0,
            TRIVIAL_ANSWER,
        ),
        (["alone"].as_slice(), CUBES, 0, TRIVIAL_ANSWER),
        (
            ["alone", "--degree", "3"].as_slice(),
            cusp,
            6,
            deep_denominator,
        ),
        (["alone"].as_slice(), DOUBLE, 10, delta),
        (["alone", "--delta", "1"].as_slice(), TACNODE, 10, delta),
        (
            ["alone", "--degree=200", "--delta=2"].as_slice(),
            TACNODE,
            0,
            TACNODE_ANSWER,
        ),
    ] {
        assert!(rt; gives(rt.alloc(), words, input, status, text)?);
    }
    Ok(())
}

#[test]
fn other_words_are_refused(rt: HostRuntime) -> Result<(), Fail> {
    for (words, status) in [
        ([].as_slice(), 2),
        (["normal"].as_slice(), 2),
        (["normal", "--workers", "2"].as_slice(), 2),
        (["Alone"].as_slice(), 2),
        (["alone", "alone"].as_slice(), 2),
        (["alone", "--degree"].as_slice(), 2),
        (["alone", "--degree="].as_slice(), 2),
        (["alone", "--degree", "0"].as_slice(), 2),
        (["alone", "--degree", "1001"].as_slice(), 2),
        (["alone", "--degree=00200"].as_slice(), 2),
        (["alone", "--degree=+200"].as_slice(), 2),
        (["alone", "--degree", "4", "--degree", "4"].as_slice(), 2),
        (["alone", "--delta=1", "--delta", "1"].as_slice(), 2),
        (["alone", "--delta", "65"].as_slice(), 2),
        (["alone", "--delta=0"].as_slice(), 2),
        (["alone", "--workers", "2"].as_slice(), 2),
        (["alone", "--degree", "4", "--"].as_slice(), 2),
    ] {
        assert!(rt; gives(rt.alloc(), words, CUBES, status, "refused: usage\n")?);
    }
    Ok(())
}

#[test]
fn faults_write_nothing_or_a_prefix(rt: HostRuntime) -> Result<(), Fail> {
    for (read_fails, write_fails, status, text) in [
        ([].as_slice(), [2].as_slice(), 21, "locnormal 1\nchar"),
        ([].as_slice(), [1].as_slice(), 21, ""),
        ([].as_slice(), [9].as_slice(), 0, TRIVIAL_ANSWER),
        ([1].as_slice(), [].as_slice(), 20, ""),
        ([4].as_slice(), [].as_slice(), 20, ""),
        ([5].as_slice(), [].as_slice(), 0, TRIVIAL_ANSWER),
    ] {
        let (found, written) = run(rt.alloc(), &["alone"], TRIVIAL, read_fails, write_fails)?;
        assert_eq!(rt; found, status);
        assert_eq!(rt; written.as_slice(), text.as_bytes());
    }
    Ok(())
}

#[test]
fn too_many_bytes_are_refused(rt: HostRuntime) -> Result<(), Fail> {
    let words = words_of(rt.alloc(), &["alone"])?;
    for (length, line) in [
        (1048576, "refused: syntax\n"),
        (1048577, "refused: limit bytes\n"),
    ] {
        let bytes = List::of_vec(vec![in rt.alloc(); 32u8; length]?);
        let mut source = SoundSource::new(bytes);
        let failing = List::new(rt.alloc());
        let mut sink = MemSink::new(rt.alloc(), 64, 64, failing)
            .ok()
            .ok_or("room")?;
        let status = run_alone(rt.alloc(), words.as_slice(), &mut source, &mut sink);
        assert_eq!(rt; sink.bytes(), line.as_bytes());
        assert!(rt; (length > 1048576 && status == 4) || (length <= 1048576 && status == 3));
    }
    Ok(())
}

#[test]
fn sound_ends_meet_no_fault(rt: HostRuntime) -> Result<(), Fail> {
    let words = words_of(rt.alloc(), &["alone"])?;
    let bytes = List::of_vec(Vec::from_slice(rt.alloc(), TRIVIAL.as_bytes())?);
    let mut source = SoundSource::new(bytes);
    let mut sink = SoundSink::new();
    assert_eq!(rt;
        run_sound(rt.alloc(), words.as_slice(), &mut source, &mut sink),
        0
    );
    assert_eq!(rt; sink.taken(), 93);
    Ok(())
}
