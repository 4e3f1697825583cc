//! A source over bytes in memory, whose calls fail as it is told.

ghost use Rattle.std.specs.Prelude.{◌≡◌, ℕ, ◌-◌, ◌^◌, ◌<◌, ◌≤◌, ◌↔◌, min, Option, List, length, take, drop, IfOk, OnOk, OnErr, IsErr, IsTrue, Some};
ghost use Rattle.dds_base.specs.Outside.{Took, IsEnded, Rose, one_more, is_listed, MemorySourceState};

use crate::memory::{Failed, Memory};
use crate::source::{Source, one_more};
use std::alloc::Global;
use std::marker::Model;

/// Says whether the call of this number is among those that are to fail.
pub fn is_listed(number: u64, failing: &[u64]) -> bool
    ensures { result ≡ is_listed number failing.now }
{
    failing.contains(&number)
}

/// Copies as many bytes as there are and as there is room for, to the front of `into`.
fn copy_front(from: &[u8], into: &mut [u8]) -> usize
    ensures value { result ≡ min (length into.old) (length from.now) }
    ensures copied { take result into.new ≡ take result from.now }
{
    let n = into.len().min(from.len());
    into[..n].copy_from_slice(&from[..n]);
    n
}

/// Gives the bytes it was made with, as many in each call as there is room for. What is left is
/// told. The calls are counted from 0, failed ones too, and the last number is kept from the call
/// of number `2^64 - 1` on.
#[derive(Drop)]
pub struct MemorySource {
    bytes: Vec<u8>,
    at: usize,
    failing: Vec<u64>,
    calls: u64,
    faults: u64,
}

impl Model for MemorySource {
    ghost use Rattle.std.specs.Prelude.{◌≤◌, length, drop};
    ghost use Rattle.dds_base.specs.Outside.{MemorySourceState};

    ghost Value = { MemorySourceState };

    ghost view = { λ a. record { left = drop a.at a.bytes.items; failing = a.failing.items; calls = a.calls; faults = a.faults } };

    ghost invariant = { λ a. a.at ≤ length a.bytes.items };
}

impl MemorySource {
    /// Makes a source of these bytes. `failing` lists the numbers of the calls that fail, in any
    /// order; a failed call takes nothing.
    pub fn new(alloc: Global, bytes: &[u8], failing: &[u64]) -> Result<MemorySource, Memory>
        ensures { IfOk result (λ source. source ≡ record { left = bytes.now; failing = failing.now; calls = 0; faults = 0 }) }
    {
        Ok(MemorySource {
            bytes: Vec::from_slice(alloc, bytes)?,
            at: 0,
            failing: Vec::from_slice(alloc, failing)?,
            calls: 0,
            faults: 0,
        })
    }

    /// The bytes that it has still to give.
    pub fn left(&self) -> &[u8]
        ensures { result.now ≡ self.now.left }
    {
        &self.bytes[self.at..]
    }

    /// How many of its calls failed.
    pub fn faults(&self) -> u64
        ensures { result ≡ self.now.faults }
    {
        self.faults
    }
}

impl Source for MemorySource {
    ghost left = { λ source. Some source.left };

    ghost faults = { λ source. source.faults };

    /// Fails at just the listed calls, and else gives as many bytes as are left and fit.
    fn read(&mut self, into: &mut [u8]) -> Result<usize, Failed>
        ensures within { IfOk result (λ n. n ≤ length into.new) }
        ensures taken { IfOk result (λ n. Took (Some self.old.left) (take n into.new) (Some self.new.left)) }
        ensures end { IfOk result (λ n. n ≡ 0 → 0 < length into.new → IsEnded (Some self.new.left)) }
        ensures kept { OnErr result (Some self.new.left ≡ Some self.old.left) }
        ensures rose { OnErr result (Rose self.old.faults self.new.faults) }
        ensures never_falls { self.old.faults ≤ self.new.faults }
        ensures fails { IsErr result ↔ IsTrue (is_listed self.old.calls self.old.failing) }
        ensures gives { IfOk result (λ n. n ≡ min (length into.new) (length self.old.left)) }
        ensures ok { IfOk result (λ n. self.new ≡ record self.old { left = drop n self.old.left; calls = one_more self.old.calls }) }
        ensures err { OnErr result (self.new ≡ record self.old { calls = one_more self.old.calls; faults = one_more self.old.faults }) }
    {
        let call = self.calls;
        self.calls = one_more(call);
        if is_listed(call, self.failing.as_slice()) {
            self.faults = one_more(self.faults);
            return Err(Failed);
        }
        let n = copy_front(&self.bytes[self.at..], into);
        self.at += n;
        Ok(n)
    }
}
