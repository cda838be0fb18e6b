//! A source and a sink in memory, which fail where they are told to.

ghost use Rattle.std.specs.Prelude.{◌≡◌, ◌+◌, ◌-◌, ◌^◌, ◌<◌, ◌≤◌, ◌↔◌, [], ◌++◌, length, min, take, Some, Contains, IsErr, IfOk};
ghost use Rattle.std.specs.Io.{ReadsAtMost, WritesAtMost};
ghost use Rattle.std.specs.Io.KnownBytes.{ReadConsumes, WriteAppends};
ghost use Rattle.qe_base.specs.Faults.{HasCause};

use crate::{Bytes, Failed, NoMemory, Sink, Source};
use std::alloc::Global;
use std::marker::Model;

/// A source over bytes in memory, some of whose read calls fail.
#[derive(Drop)]
pub struct MemorySource {
    bytes: Bytes,
    failing: Bytes,
    taken: usize,
    calls: u64,
    faults: u64,
}

impl Model for MemorySource {
    ghost use Rattle.std.specs.Prelude.{◌≤◌, length, drop};
    ghost use Rattle.qe_base.specs.Memory.{MemoryInput};

    ghost Value = { MemoryInput };

    ghost view = { λ s. record { left = drop s.taken s.bytes; failing = s.failing; calls = s.calls; faults = s.faults } };

    ghost invariant = { λ s. s.taken ≤ length s.bytes };
}

impl MemorySource {
    /// A source of these bytes. `failing` has the numbers of the read calls that fail, one byte each, from 0.
    pub fn new(bytes: Bytes, failing: Bytes) -> MemorySource
        ensures { result ≡ record { left = bytes; failing = failing; calls = 0; faults = 0 } }
    {
        MemorySource {
            bytes,
            failing,
            taken: 0,
            calls: 0,
            faults: 0,
        }
    }
}

// Copies as much of `from` as there is room for behind the first `at` bytes of `into`, which stay.
fn fill(into: &mut [u8], at: usize, from: &[u8]) -> usize
    requires { at ≤ length into.old }
    ensures count { result ≡ min (length into.old - at) (length from.now) }
    ensures front { take (at + result) into.new ≡ take at into.old ++ take result from.now }
{
    let count = (into.len() - at).min(from.len());
    into[at..at + count].copy_from_slice(&from[..count]);
    count
}

impl Source for MemorySource {
    ghost left = { λ s. Some s.left };

    ghost faults = { λ s. s.faults };

    fn read(&mut self, into: &mut [u8]) -> Result<usize, Failed>
        ensures bound { ReadsAtMost result into.new }
        ensures bytes { ReadConsumes (Some self.old.left) (Some self.new.left) result into.new }
        ensures cause { HasCause self.old.faults self.new.faults result }
        ensures fails { IsErr result ↔ ((self.old.calls < 256) × Contains self.old.failing self.old.calls) }
        ensures count { IfOk result (λ n. n ≡ min (length into.old) (length self.old.left)) }
        ensures next { (self.new.calls ≡ min (self.old.calls + 1) (2 ^ 64 - 1)) × (self.new.failing ≡ self.old.failing) }
    {
        let call = self.calls;
        self.calls = call.saturating_add(1);
        if call < 256 && self.failing.slice().contains(&(call as u8)) {
            self.faults = self.faults.saturating_add(1);
            return Err(Failed);
        }
        let count = fill(into, 0, &self.bytes.slice()[self.taken..]);
        self.taken += count;
        Ok(count)
    }
}

/// A sink in memory with room for so many bytes.
#[derive(Drop)]
pub struct MemorySink {
    bytes: Vec<u8>,
    used: usize,
    faults: u64,
}

impl Model for MemorySink {
    ghost use Rattle.std.specs.Prelude.{◌-◌, ◌≤◌, vec_len, take};
    ghost use Rattle.qe_base.specs.Memory.{MemoryOutput};

    ghost Value = { MemoryOutput };

    ghost view = { λ s. record { held = take s.used s.bytes.items; room = vec_len s.bytes - s.used; faults = s.faults } };

    ghost invariant = { λ s. s.used ≤ vec_len s.bytes };
}

impl MemorySink {
    /// An empty sink. It takes all its memory here.
    pub fn new(alloc: Global, room: u64) -> Result<MemorySink, NoMemory>
        ensures { IfOk result (λ sink. sink ≡ record { held = []; room = room; faults = 0 }) }
    {
        let bytes = vec![in alloc; 0u8; room as usize]?;
        Ok(MemorySink {
            bytes,
            used: 0,
            faults: 0,
        })
    }

    /// The bytes that it holds.
    pub fn held(&self) -> &[u8]
        ensures { result.now ≡ self.now.held }
    {
        &self.bytes[..self.used]
    }
}

impl Sink for MemorySink {
    ghost holds = { λ s. Some s.held };

    ghost faults = { λ s. s.faults };

    fn put(&mut self, piece: &[u8]) -> Result<usize, Failed>
        ensures bound { WritesAtMost result piece.now }
        ensures some { IfOk result (λ count. 0 < length piece.now → 0 < count) }
        ensures bytes { WriteAppends (Some self.old.held) (Some self.new.held) result piece.now }
        ensures cause { HasCause self.old.faults self.new.faults result }
        ensures fails { IsErr result ↔ ((0 < length piece.now) × (self.old.room ≡ 0)) }
        ensures room { IfOk result (λ count. (count ≡ min (length piece.now) self.old.room) × (self.new.room + count ≡ self.old.room)) }
    {
        let count = fill(&mut self.bytes, self.used, piece);
        if count == 0 && !piece.is_empty() {
            self.faults = self.faults.saturating_add(1);
            return Err(Failed);
        }
        self.used += count;
        Ok(count)
    }
}
