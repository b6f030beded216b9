// Sinks of bytes.
ghost use Rattle.std.specs.Prelude.{◌≡◌, ℕ, ◌+◌, ◌-◌, ◌<◌, ◌≤◌, ◌^◌, List, length, IfOk};
ghost use Rattle.std.specs.Io.{WritesAtMost};
ghost use Rattle.std.specs.Io.KnownBytes.{WriteAppends};
ghost use Rattle.std.specs.declared.option.Option.{Option};
ghost use Rattle.norm_outside.specs.Causes.{HasCause};

use super::Failed;
use std::io::Write;

/// Bytes that are taken in pieces, with a count of the writes that failed.
pub trait Sink {
    // The bytes that the sink holds, where it tells them.
    ghost held: { Self → Option (List ℕ) };

    // The writes that failed so far. It never falls.
    ghost faults: { Self → ℕ };

    /// Appends some of the bytes, from the front, and gives their number, at least 1. `Failed` appends
    /// nothing, and comes only where the count of faults rose.
    fn write(&mut self, bytes: &[u8]) -> Result<usize, Failed>
        requires { 0 < length bytes.now }
        ensures bound { WritesAtMost result bytes.now }
        ensures some { IfOk result (λ n. 0 < n) }
        ensures bytes { WriteAppends (held self.old) (held self.new) result bytes.now }
        ensures cause { HasCause (faults self.old) (faults self.new) result };
}

/// A sink over a writer of the system, as standard output. A write that takes nothing is a fault.
#[derive(Drop)]
pub struct StdSink<W: Write + Drop> {
    pub inner: W,
    pub faults: u64,
}

impl<W: Write + Drop> StdSink<W> {
    /// A sink over `inner`, with no fault yet.
    pub fn new(inner: W) -> StdSink<W>
        ensures { (result.inner ≡ inner) × (result.faults ≡ 0) }
    {
        StdSink { inner, faults: 0 }
    }
}

impl<W: Write + Drop> Sink for StdSink<W> {
    ghost held = { λ s. W.contents s.inner };

    ghost faults = { λ s. s.faults };

    fn write(&mut self, bytes: &[u8]) -> Result<usize, Failed> {
        match self.inner.write(bytes) {
            Ok(0) => {
                self.faults = self.faults.saturating_add(1);
                Err(Failed)
            }
            Ok(count) => Ok(count),
            Err(_) => {
                self.faults = self.faults.saturating_add(1);
                Err(Failed)
            }
        }
    }
}
