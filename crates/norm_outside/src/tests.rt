ghost use Rattle.std.specs.Prelude.{◌≡◌, ℕ, ◌<◌, ◌≤◌, length, None, IsErrOf, IsOk};
ghost use Rattle.std.specs.Io.{ReadsAtMost};
ghost use Rattle.std.specs.Io.KnownBytes.{ReadConsumes};
ghost use Rattle.norm_outside.specs.Causes.{HasCause};

use crate::{
    Failed, MemSink, MemSource, ReadAll, SoundSink, SoundSource, Source, StdSink, StdSource,
    WriteStop, read_all, write_all_of,
};
use lists::List;
use std::alloc::{AllocError, Global};
use std::test::Fail;

fn list_of(alloc: Global, bytes: &[u8]) -> Result<List<u8>, AllocError> {
    Ok(List::of_vec(Vec::from_slice(alloc, bytes)?))
}

fn numbers_of(alloc: Global, numbers: &[u64]) -> Result<List<u64>, AllocError> {
    Ok(List::of_vec(Vec::from_slice(alloc, numbers)?))
}

// A source of so many bytes that notes the least room that it was offered.
#[derive(Drop)]
struct Noting {
    left: usize,
    least: usize,
}

impl Source for Noting {
    ghost left = { λ _. None };

    ghost faults = { λ _. 0 };

    fn read(&mut self, buf: &mut [u8]) -> Result<usize, Failed> {
        self.least = self.least.min(buf.len());
        let count = self.left.min(buf.len());
        self.left -= count;
        Ok(count)
    }
}

// Over a source whose count of faults is constant a fault is never answered: its contract shows it.
fn read_sound(alloc: Global, source: &mut SoundSource, limit: usize) -> Result<List<u8>, ReadAll>
    ensures { IsErrOf result ReadAll.Fault → ⊥ }
{
    read_all(alloc, source, limit)
}

// Over such a sink a write never stops.
fn write_sound(sink: &mut SoundSink, bytes: &[u8]) -> Result<(), WriteStop>
    ensures { IsOk result }
{
    write_all_of(sink, bytes)
}

#[test]
fn reads_to_the_end_or_says_why_not(rt: HostRuntime) -> Result<(), Fail> {
    let text = b"affine curve";
    let empty: [u64; 0] = [];
    for (piece, failing, limit, want) in [
        (5, empty.as_slice(), 12, Ok(())),
        (1, [14].as_slice(), 1000, Ok(())),
        (12, empty.as_slice(), 12, Ok(())),
        (5, empty.as_slice(), 11, Err(ReadAll::TooLong)),
        (5, [1].as_slice(), 12, Err(ReadAll::Fault)),
        (5, [4].as_slice(), 12, Err(ReadAll::Fault)),
        (5, [4].as_slice(), 9, Err(ReadAll::TooLong)),
    ] {
        let bytes = list_of(rt.alloc(), text)?;
        let mut source = MemSource::new(bytes, piece, numbers_of(rt.alloc(), failing)?);
        match (read_all(rt.alloc(), &mut source, limit), want) {
            (Ok(all), Ok(())) => assert_eq!(rt; all.as_slice(), text.as_slice()),
            (Err(stop), Err(wanted)) => assert_eq!(rt; stop, wanted, "at {piece}, {limit}"),
            _ => assert!(rt; false, "at {piece}, {limit}"),
        }
    }
    Ok(())
}

#[test]
fn writes_all_or_a_front(rt: HostRuntime) -> Result<(), Fail> {
    let text = b"affine curve";
    let empty: [u64; 0] = [];
    for (room, piece, failing, want) in [
        (12, 5, empty.as_slice(), 12),
        (40, 1, [13].as_slice(), 12),
        (40, 5, [1].as_slice(), 0),
        (40, 5, [3].as_slice(), 10),
        (7, 5, empty.as_slice(), 7),
        (0, 5, empty.as_slice(), 0),
    ] {
        let failing = numbers_of(rt.alloc(), failing)?;
        let mut sink = MemSink::new(rt.alloc(), room, piece, failing)
            .ok()
            .ok_or("room")?;
        let written = match write_all_of(&mut sink, text) {
            Ok(()) => text.len(),
            Err(stop) => stop.written,
        };
        assert_eq!(rt; written, want, "at {room}, {piece}");
        assert!(rt; written <= text.len());
        assert_eq!(rt; sink.bytes(), &text[..written]);
    }
    Ok(())
}

#[test]
fn sound_ends_never_fail(rt: HostRuntime) -> Result<(), Fail> {
    let mut source = SoundSource::new(list_of(rt.alloc(), b"cusp")?);
    let all = read_sound(rt.alloc(), &mut source, 4).ok().ok_or("bytes")?;
    assert_eq!(rt; all.as_slice(), b"cusp".as_slice());
    let mut sink = SoundSink::new();
    assert!(rt; write_sound(&mut sink, b"node").is_ok());
    assert_eq!(rt; sink.taken(), 4);
    Ok(())
}

#[test]
fn at_least_64_bytes_are_offered(rt: HostRuntime) -> Result<(), Fail> {
    let mut source = Noting {
        left: 100000,
        least: usize::MAX,
    };
    let all = read_all(rt.alloc(), &mut source, 200000)
        .ok()
        .ok_or("bytes")?;
    assert_eq!(rt; all.len(), 100000);
    assert!(rt; source.least >= 64);
    Ok(())
}

#[test]
fn readers_and_writers_of_the_system(rt: HostRuntime) -> Result<(), Fail> {
    let text: &[u8] = b"tacnode";
    let mut source = StdSource::new(text);
    let all = read_all(rt.alloc(), &mut source, 7).ok().ok_or("bytes")?;
    assert_eq!(rt; all.as_slice(), text);
    assert_eq!(rt; source.faults, 0);
    let mut sink = StdSink::new(Vec::new(rt.alloc()));
    assert!(rt; write_all_of(&mut sink, text).is_ok());
    assert_eq!(rt; sink.inner.as_slice(), text);
    assert_eq!(rt; sink.faults, 0);
    Ok(())
}
