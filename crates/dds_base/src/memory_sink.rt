//! A sink over memory with a bound on its room, whose calls fail as it is told.

ghost use Rattle.std.specs.Prelude.{◌≡◌, ℕ, ◌-◌, ◌^◌, ◌<◌, ◌≤◌, ◌++◌, ◌↔◌, min, [], Option, List, length, take, IfOk, OnOk, OnErr, IsErr, IsTrue, Some};
ghost use Rattle.dds_base.specs.Outside.{Added, Rose, one_more, refuses, MemorySinkState};

use crate::memory::{Failed, Memory};
use crate::memory_source::is_listed;
use crate::sink::Sink;
use crate::source::one_more;
use std::alloc::Global;
use std::marker::Model;

/// Keeps the bytes written to it. What was written is told. The calls are counted from 0, failed
/// ones too, and the last number is kept from the call of number `2^64 - 1` on.
#[derive(Drop)]
pub struct MemorySink {
    bytes: Vec<u8>,
    failing: Vec<u64>,
    most: usize,
    room: usize,
    calls: u64,
    faults: u64,
}

impl Model for MemorySink {
    ghost use Rattle.std.specs.Prelude.{◌<◌, ◌≤◌, length, vec_capacity};
    ghost use Rattle.dds_base.specs.Outside.{MemorySinkState};

    ghost Value = { MemorySinkState };

    ghost view = { λ a. record { written = a.bytes.items; failing = a.failing.items; most = a.most; room = a.room; calls = a.calls; faults = a.faults } };

    ghost invariant = { λ a. (0 < a.most) × (length a.bytes.items ≤ a.room) × (a.room ≤ vec_capacity a.bytes) };
}

impl MemorySink {
    /// Makes an empty sink, and takes the memory for `room` bytes, all that it will ever keep.
    /// One write takes at most `most` bytes. `failing` lists the numbers of the calls that fail, in
    /// any order; a failed call adds nothing.
    pub fn new(
        alloc: Global,
        failing: &[u64],
        most: usize,
        room: usize,
    ) -> Result<MemorySink, Memory>
        requires { 1 ≤ most }
        ensures { IfOk result (λ sink. sink ≡ record { written = []; failing = failing.now; most = most; room = room; calls = 0; faults = 0 }) }
    {
        Ok(MemorySink {
            bytes: Vec::with_capacity(alloc, room)?,
            failing: Vec::from_slice(alloc, failing)?,
            most,
            room,
            calls: 0,
            faults: 0,
        })
    }

    /// The bytes written so far.
    pub fn written(&self) -> &[u8]
        ensures { result.now ≡ self.now.written }
    {
        self.bytes.as_slice()
    }

    /// How many of its calls failed.
    pub fn faults(&self) -> u64
        ensures { result ≡ self.now.faults }
    {
        self.faults
    }

    /// Says whether a write of the piece is to fail now.
    fn refuses(&self, piece: &[u8]) -> bool
        ensures { result ≡ refuses self.now piece.now }
    {
        is_listed(self.calls, self.failing.as_slice())
            || (!piece.is_empty() && self.room <= self.bytes.len())
    }
}

impl Sink for MemorySink {
    ghost written = { λ sink. Some sink.written };

    ghost faults = { λ sink. sink.faults };

    /// Fails at just the listed calls, and where a piece that isn't empty finds no room. Else it
    /// takes as much of the piece as one write may and as there is room for.
    fn write(&mut self, piece: &[u8]) -> Result<usize, Failed>
        ensures within { IfOk result (λ n. n ≤ length piece.now) }
        ensures some { IfOk result (λ n. 0 < length piece.now → 0 < n) }
        ensures added { IfOk result (λ n. Added (Some self.old.written) (take n piece.now) (Some self.new.written)) }
        ensures kept { OnErr result (Some self.new.written ≡ Some self.old.written) }
        ensures rose { OnErr result (Rose self.old.faults self.new.faults) }
        ensures never_falls { self.old.faults ≤ self.new.faults }
        ensures fails { IsErr result ↔ IsTrue (refuses self.old piece.now) }
        ensures takes { IfOk result (λ n. n ≡ min (length piece.now) (min self.old.most (self.old.room - length self.old.written))) }
        ensures ok { IfOk result (λ n. self.new ≡ record self.old { written = self.old.written ++ take n piece.now; calls = one_more self.old.calls }) }
        ensures err { OnErr result (self.new ≡ record self.old { calls = one_more self.old.calls; faults = one_more self.old.faults }) }
    {
        let refused = self.refuses(piece);
        self.calls = one_more(self.calls);
        if refused {
            self.faults = one_more(self.faults);
            return Err(Failed);
        }
        let n = piece.len().min(self.most.min(self.room - self.bytes.len()));
        match self.bytes.extend_from_slice(&piece[..n]) {
            Ok(()) => Ok(n),
            Err(_) => Err(Failed),
        }
    }
}
