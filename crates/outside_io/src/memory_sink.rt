// A sink that keeps what is written.
ghost use Rattle.std.specs.Prelude.{◌≡◌, ◌≤◌, Some, [], Contains, IfOk, OnOk, OnErr, length};
ghost use Rattle.outside_io.specs.Counts.{Quiet, Rose};
ghost use Rattle.outside_io.specs.Memories.{next_call};
ghost use Rattle.outside_io.specs.Sinks.{SinkCause, SinkTakes};

use crate::{Failed, Sink};
use std::alloc::Global;
use std::marker::Model;

/// It keeps what is written, in memory of an allocator that it keeps. It fails in chosen calls of `write`, and where it
/// gets no memory.
#[derive(Drop)]
pub struct MemorySink {
    bytes: Vec<u8>,
    fail: Vec<u64>,
    calls: u64,
    faults: u64,
    starved: u64,
}

impl Model for MemorySink {
    ghost use Rattle.outside_io.specs.Memories.{SinkMemory};

    ghost Value = { SinkMemory };

    ghost view = { λ s. record { bytes = s.bytes.items; fail = s.fail.items; calls = s.calls; faults = s.faults; starved = s.starved } };
}

impl MemorySink {
    /// `fail` lists the calls of `write` that are to fail, from 1 on.
    pub fn new(alloc: Global, fail: Vec<u64>) -> MemorySink
        ensures told { ⟦<MemorySink as Sink>⟧.written result ≡ Some [] }
        ensures faults { ⟦<MemorySink as Sink>⟧.faults result ≡ 0 }
        ensures fail { result.fail ≡ fail.items }
        ensures calls { result.calls ≡ 0 }
        ensures starved { result.starved ≡ 0 }
    {
        MemorySink {
            bytes: Vec::new(alloc),
            fail,
            calls: 0,
            faults: 0,
            starved: 0,
        }
    }

    /// What was written.
    pub fn bytes(&self) -> &[u8]
        ensures value { result.now ≡ self.now.bytes }
        ensures told { ⟦<MemorySink as Sink>⟧.written self.now ≡ Some result.now }
    {
        &self.bytes
    }

    /// How often `write` was called.
    pub fn calls(&self) -> u64
        ensures { result ≡ self.now.calls }
    {
        self.calls
    }

    /// How often it got no memory for a piece.
    pub fn starved(&self) -> u64
        ensures { result ≡ self.now.starved }
    {
        self.starved
    }
}

impl Sink for MemorySink {
    ghost written = { λ s. Some s.bytes };

    ghost faults = { λ s. s.faults };

    /// Takes the whole piece, or fails: where the list names the call's number, and else only for want of memory.
    fn write(&mut self, bytes: &[u8]) -> Result<usize, Failed>
        ensures cause { SinkCause self.old.faults self.new.faults bytes.now result }
        ensures bound { IfOk result (λ n. n ≤ length bytes.now) }
        ensures told { SinkTakes (Some self.old.bytes) (Some self.new.bytes) bytes.now result }
        ensures whole { IfOk result (λ n. n ≡ length bytes.now) }
        ensures listed { OnOk result (¬ (Contains self.old.fail (next_call self.old.calls))) }
        ensures starved { OnErr result (¬ (Contains self.old.fail (next_call self.old.calls)) → Rose self.old.starved self.new.starved) }
        ensures fed { OnOk result (self.new.starved ≡ self.old.starved) }
        ensures chosen { Contains self.old.fail (next_call self.old.calls) → self.new.starved ≡ self.old.starved }
        ensures quiet { ¬ (Contains self.old.fail (next_call self.old.calls)) → Quiet self.old.starved self.new.starved → self.new.faults ≡ self.old.faults }
        ensures rises { self.old.starved ≤ self.new.starved }
        ensures calls { self.new.calls ≡ next_call self.old.calls }
        ensures later { self.old.calls ≤ self.new.calls }
        ensures fail { self.new.fail ≡ self.old.fail }
    {
        self.calls = self.calls.saturating_add(1);
        if self.fail.contains(&self.calls) {
            self.faults = self.faults.saturating_add(1);
            return Err(Failed);
        }
        if self.bytes.extend_from_slice(bytes).is_err() {
            self.starved = self.starved.saturating_add(1);
            self.faults = self.faults.saturating_add(1);
            return Err(Failed);
        }
        Ok(bytes.len())
    }
}
