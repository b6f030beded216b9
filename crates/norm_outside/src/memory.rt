// A source and a sink over memory, whose calls fail where a list says so.
ghost use Rattle.std.specs.Prelude.{◌≡◌, ℕ, ◌+◌, ◌-◌, ◌<◌, ◌≤◌, ◌^◌, ◌↔◌, [], List, length, Some, min, IsErr, IfOk, OnErr};
ghost use Rattle.std.specs.Io.{ReadsAtMost, WritesAtMost};
ghost use Rattle.std.specs.Io.KnownBytes.{ReadConsumes, WriteAppends};
ghost use Rattle.norm_outside.specs.Causes.{HasCause};
ghost use Rattle.norm_outside.specs.Memory.{FeedFails, Gives, GivesNothing, StoreFails, Takes, TakesNothing};

use super::Failed;
use super::sink::Sink;
use super::source::{Source, copy_from};
use lists::{List, NoMemory};
use std::alloc::Global;
use std::marker::Model;

/// A source over bytes in memory that gives them in pieces and fails at chosen calls. Contracts see it
/// as a `Feed`.
#[derive(Drop)]
pub struct MemSource {
    bytes: Vec<u8>,
    place: usize,
    piece: usize,
    failing: Vec<u64>,
    calls: u64,
    faults: u64,
}

impl Model for MemSource {
    ghost use Rattle.std.specs.Prelude.{drop, ◌<◌};
    ghost use Rattle.norm_outside.specs.Memory.{Feed};

    ghost Value = { Feed };

    ghost view = { λ s. record { left = drop s.place s.bytes.items; piece = s.piece; failing = s.failing.items; calls = s.calls; faults = s.faults } };

    ghost invariant = { λ s. 0 < s.piece };
}

impl MemSource {
    /// A source that gives these bytes, at most `piece` of them at one call, and fails exactly at the
    /// calls whose numbers, from 1, are in `failing`.
    pub fn new(bytes: List<u8>, piece: usize, failing: List<u64>) -> MemSource
        requires { 0 < piece }
        ensures { result ≡ record { left = bytes; piece = piece; failing = failing; calls = 0; faults = 0 } }
    {
        MemSource {
            bytes: bytes.into_vec(),
            place: 0,
            piece,
            failing: failing.into_vec(),
            calls: 0,
            faults: 0,
        }
    }
}

impl Source for MemSource {
    ghost left = { λ s. Some s.left };

    ghost faults = { λ s. s.faults };

    fn read(&mut self, buf: &mut [u8]) -> Result<usize, Failed>
        requires { 0 < length buf.old }
        ensures chosen { IsErr result ↔ FeedFails self.old }
        ensures gives { IfOk result (λ n. Gives self.old self.new n buf.new) }
        ensures fails { OnErr result (GivesNothing self.old self.new) }
        ensures bound { ReadsAtMost result buf.new }
        ensures bytes { ReadConsumes (Some self.old.left) (Some self.new.left) result buf.new }
        ensures cause { HasCause self.old.faults self.new.faults result }
    {
        self.calls = self.calls.saturating_add(1);
        if self.failing.contains(&self.calls) {
            self.faults = self.faults.saturating_add(1);
            return Err(Failed);
        }
        let count = copy_from(self.bytes.as_slice(), self.place, self.piece, buf);
        self.place += count;
        Ok(count)
    }
}

/// A sink over memory with a fixed room that takes bytes in pieces and fails at chosen calls. Contracts
/// see it as a `Store`.
#[derive(Drop)]
pub struct MemSink {
    bytes: Vec<u8>,
    room: usize,
    piece: usize,
    failing: Vec<u64>,
    calls: u64,
    faults: u64,
}

impl Model for MemSink {
    ghost use Rattle.std.specs.Prelude.{◌<◌, ◌≤◌, vec_capacity};
    ghost use Rattle.norm_outside.specs.Memory.{Store};

    ghost Value = { Store };

    ghost view = { λ s. record { held = s.bytes.items; room = s.room; piece = s.piece; failing = s.failing.items; calls = s.calls; faults = s.faults } };

    ghost invariant = { λ s. (0 < s.piece) × (s.room ≤ vec_capacity s.bytes) };
}

impl MemSink {
    /// An empty sink with room for `room` bytes, which it takes now. It takes at most `piece` bytes at
    /// one call, and fails exactly at the calls whose numbers, from 1, are in `failing` and at those
    /// that find no room left.
    pub fn new(
        alloc: Global,
        room: usize,
        piece: usize,
        failing: List<u64>,
    ) -> Result<MemSink, NoMemory>
        requires { 0 < piece }
        ensures { IfOk result (λ sink. sink ≡ record { held = []; room = room; piece = piece; failing = failing; calls = 0; faults = 0 }) }
    {
        Ok(MemSink {
            bytes: Vec::with_capacity(alloc, room)?,
            room,
            piece,
            failing: failing.into_vec(),
            calls: 0,
            faults: 0,
        })
    }

    /// The bytes held, in order.
    pub fn bytes(&self) -> &[u8]
        ensures { result.now ≡ self.now.held }
    {
        self.bytes.as_slice()
    }
}

impl Sink for MemSink {
    ghost held = { λ s. Some s.held };

    ghost faults = { λ s. s.faults };

    fn write(&mut self, bytes: &[u8]) -> Result<usize, Failed>
        requires { 0 < length bytes.now }
        ensures chosen { IsErr result ↔ StoreFails self.old }
        ensures takes { IfOk result (λ n. Takes self.old self.new n bytes.now) }
        ensures fails { OnErr result (TakesNothing self.old self.new) }
        ensures bound { WritesAtMost result bytes.now }
        ensures some { IfOk result (λ n. 0 < n) }
        ensures bytes { WriteAppends (Some self.old.held) (Some self.new.held) result bytes.now }
        ensures cause { HasCause self.old.faults self.new.faults result }
    {
        self.calls = self.calls.saturating_add(1);
        if self.bytes.len() >= self.room || self.failing.contains(&self.calls) {
            self.faults = self.faults.saturating_add(1);
            return Err(Failed);
        }
        let room = self.room - self.bytes.len();
        let count = self.piece.min(bytes.len()).min(room);
        self.bytes.extend_from_slice(&bytes[..count]).unwrap();
        Ok(count)
    }
}
