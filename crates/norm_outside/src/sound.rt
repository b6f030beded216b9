// A source and a sink that never fail.
ghost use Rattle.std.specs.Prelude.{◌≡◌, ℕ, ◌+◌, ◌-◌, ◌<◌, ◌≤◌, ◌^◌, List, length, take, drop, min, Some, None, IsOk, IfOk};
ghost use Rattle.std.specs.Io.{ReadsAtMost, WritesAtMost};
ghost use Rattle.std.specs.Io.KnownBytes.{ReadConsumes, WriteAppends};
ghost use Rattle.norm_outside.specs.Causes.{HasCause, StillCountsHaveNoCause};

use super::Failed;
use super::sink::Sink;
use super::source::{Source, copy_from};
use lists::List;
use std::marker::Model;

/// A source over bytes in memory that never fails. Contracts see it as the bytes left.
#[derive(Drop)]
pub struct SoundSource {
    bytes: Vec<u8>,
    place: usize,
}

impl Model for SoundSource {
    ghost use Rattle.std.specs.Prelude.{List, ℕ, drop};

    ghost Value = { List ℕ };

    ghost view = { λ s. drop s.place s.bytes.items };
}

impl SoundSource {
    /// A source that gives these bytes.
    pub fn new(bytes: List<u8>) -> SoundSource
        ensures { result ≡ bytes }
    {
        SoundSource {
            bytes: bytes.into_vec(),
            place: 0,
        }
    }
}

impl Source for SoundSource {
    ghost left = { λ s. Some s };

    ghost faults = { λ _. 0 };

    fn read(&mut self, buf: &mut [u8]) -> Result<usize, Failed>
        requires { 0 < length buf.old }
        ensures sound { IsOk result }
        ensures count { IfOk result (λ n. n ≡ min (length buf.new) (length self.old)) }
        ensures bound { ReadsAtMost result buf.new }
        ensures bytes { ReadConsumes (Some self.old) (Some self.new) result buf.new }
        ensures cause { HasCause 0 0 result }
    {
        let count = copy_from(self.bytes.as_slice(), self.place, usize::MAX, buf);
        self.place += count;
        Ok(count)
    }
}

/// A sink that never fails. It counts the bytes that it took, up to 2^64 - 1, and keeps none of them.
/// Contracts see it as that number.
#[derive(Drop)]
pub struct SoundSink {
    taken: u64,
}

impl Model for SoundSink {
    ghost use Rattle.std.specs.Prelude.{ℕ};

    ghost Value = { ℕ };

    ghost view = { λ s. s.taken };
}

impl SoundSink {
    /// A sink that took nothing yet.
    pub fn new() -> SoundSink
        ensures { result ≡ 0 }
    {
        SoundSink { taken: 0 }
    }

    /// The number of bytes taken.
    pub fn taken(&self) -> u64
        ensures { result ≡ self.now }
    {
        self.taken
    }
}

impl Sink for SoundSink {
    ghost held = { λ _. None };

    ghost faults = { λ _. 0 };

    fn write(&mut self, bytes: &[u8]) -> Result<usize, Failed>
        requires { 0 < length bytes.now }
        ensures sound { IsOk result }
        ensures all { IfOk result (λ n. n ≡ length bytes.now) }
        ensures taken { self.new ≡ min (self.old + length bytes.now) (2 ^ 64 - 1) }
        ensures bound { WritesAtMost result bytes.now }
        ensures some { IfOk result (λ n. 0 < n) }
        ensures cause { HasCause 0 0 result }
    {
        self.taken = self.taken.saturating_add(bytes.len() as u64);
        Ok(bytes.len())
    }
}

/// Over a source or a sink whose count stands still below 2^64 - 1, as over these two, no answer that
/// rests on a count that rose is given.
pub fn still_counts_have_no_cause()
    ensures { StillCountsHaveNoCause }
{}
