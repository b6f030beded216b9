// Sources of bytes.
ghost use Rattle.std.specs.Prelude.{◌≡◌, ℕ, ◌+◌, ◌-◌, ◌<◌, ◌≤◌, ◌^◌, List, length, take, drop, min};
ghost use Rattle.std.specs.Io.{ReadsAtMost};
ghost use Rattle.std.specs.Io.KnownBytes.{ReadConsumes};
ghost use Rattle.std.specs.declared.option.Option.{Option};
ghost use Rattle.norm_outside.specs.Causes.{HasCause};

use super::Failed;
use std::io::Read;

/// Bytes that come in pieces, with a count of the reads that failed.
pub trait Source {
    // The bytes that are left, where the source tells them.
    ghost left: { Self → Option (List ℕ) };

    // The reads that failed so far. It never falls.
    ghost faults: { Self → ℕ };

    /// Puts the next bytes at the front of `buf`, and gives their number, at most its length. `Ok(0)`
    /// is the end of the input. `Failed` takes nothing, and comes only where the count of faults rose.
    fn read(&mut self, buf: &mut [u8]) -> Result<usize, Failed>
        requires { 0 < length buf.old }
        ensures bound { ReadsAtMost result buf.new }
        ensures bytes { ReadConsumes (left self.old) (left self.new) result buf.new }
        ensures cause { HasCause (faults self.old) (faults self.new) result };
}

/// A source over a reader of the system, as standard input.
#[derive(Drop)]
pub struct StdSource<R: Read + Drop> {
    pub inner: R,
    pub faults: u64,
}

impl<R: Read + Drop> StdSource<R> {
    /// A source over `inner`, with no fault yet.
    pub fn new(inner: R) -> StdSource<R>
        ensures { (result.inner ≡ inner) × (result.faults ≡ 0) }
    {
        StdSource { inner, faults: 0 }
    }
}

impl<R: Read + Drop> Source for StdSource<R> {
    ghost left = { λ s. R.remaining s.inner };

    ghost faults = { λ s. s.faults };

    fn read(&mut self, buf: &mut [u8]) -> Result<usize, Failed> {
        match self.inner.read(buf) {
            Ok(count) => Ok(count),
            Err(_) => {
                self.faults = self.faults.saturating_add(1);
                Err(Failed)
            }
        }
    }
}

// Copies what there is from `place` on to the front of `to`, and no more than `most` bytes.
pub(super) fn copy_from(from: &[u8], place: usize, most: usize, to: &mut [u8]) -> usize
    ensures within { result ≤ length from.now - place }
    ensures bytes { take result to.new ≡ take result (drop place from.now) }
    ensures count { result ≡ min (min most (length to.new)) (length from.now - place) }
{
    if place >= from.len() {
        return 0;
    }
    let count = most.min(to.len()).min(from.len() - place);
    to[..count].copy_from_slice(&from[place..place + count]);
    count
}
