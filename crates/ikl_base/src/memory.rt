// A source and a sink in memory, each with a list of the calls that are to fail or with none.
ghost use Rattle.std.specs.Prelude.{◌≡◌, ◌+◌, ◌<◌, ◌≤◌, ◌↔◌, List, ℕ, Some, [], ◌++◌, length, drop, IfOk, IsOk, OnOk, OnErr, IsErr, IsTrue, true, false, vec_len, vec_capacity, min, max, is_err, ◌-◌, ◌^◌, ◌==◌};
ghost use Rattle.std.specs.List.{list_any};
ghost use Rattle.ikl_base.specs.Outside.{ReadGives, WriteTakes, HasCause, TellsOutcome, count_after, writes_after};
ghost use Rattle.ikl_base.specs.Room.{HasRoom};

use crate::fault::{Failed, NoMemory};
use crate::outside::{Sink, Source};
use std::alloc::Global;

/// A source of these octets, which gives at most `piece` of them at a time and never fails.
#[derive(Drop)]
pub struct MemorySource<'a> {
    pub rest: &'a [u8],
    pub piece: usize,
    pub faults: u64,
}

impl<'a> MemorySource<'a> {
    /// A source of these octets, in pieces of at most `piece`.
    pub fn new(octets: &'a [u8], piece: usize) -> Self
        requires { 0 < piece }
        ensures rest { result.rest.now ≡ octets.now }
        ensures count { result.faults ≡ 0 }
    {
        MemorySource {
            rest: octets,
            piece,
            faults: 0,
        }
    }
}

impl Source for MemorySource<'_> {
    ghost left = { λ s. Some s.rest.now };

    ghost faults = { λ s. s.faults };

    ghost last_failed = { λ _. Some false };

    fn read(&mut self, buf: &mut [u8]) -> Result<usize, Failed>
        ensures gives { ReadGives (Some self.old.rest.now) (Some self.new.rest.now) result buf.new }
        ensures cause { HasCause self.old.faults self.new.faults result }
        ensures outcome { TellsOutcome (Some false) result }
        ensures size { IfOk result (λ n. n ≡ min (min (length self.old.rest.now) (length buf.new)) (max self.old.piece 1)) }
        ensures piece { self.new.piece ≡ self.old.piece }
    {
        let n = self.rest.len().min(buf.len()).min(self.piece.max(1));
        let (front, rest) = self.rest.split_at(n);
        buf[..n].copy_from_slice(front);
        self.rest = rest;
        Ok(n)
    }
}

/// A source in memory of which the calls named in a list fail, counted from 1.
#[derive(Drop)]
pub struct FaultySource<'a> {
    pub source: MemorySource<'a>,
    pub fails: &'a [u64],
    pub calls: u64,
    pub faults: u64,
    pub failed: bool,
}

impl<'a> FaultySource<'a> {
    /// A source of these octets, in pieces of at most `piece`, whose calls with these numbers fail.
    pub fn new(octets: &'a [u8], piece: usize, fails: &'a [u64]) -> Self
        requires { 0 < piece }
        ensures rest { result.source.rest.now ≡ octets.now }
        ensures fails { result.fails.now ≡ fails.now }
        ensures calls { result.calls ≡ 0 }
        ensures count { result.faults ≡ 0 }
        ensures failed { result.failed ≡ false }
    {
        FaultySource {
            source: MemorySource::new(octets, piece),
            fails,
            calls: 0,
            faults: 0,
            failed: false,
        }
    }
}

impl Source for FaultySource<'_> {
    ghost left = { λ s. Some s.source.rest.now };

    ghost faults = { λ s. s.faults };

    ghost last_failed = { λ s. Some s.failed };

    fn read(&mut self, buf: &mut [u8]) -> Result<usize, Failed>
        ensures gives { ReadGives (Some self.old.source.rest.now) (Some self.new.source.rest.now) result buf.new }
        ensures cause { HasCause self.old.faults self.new.faults result }
        ensures outcome { TellsOutcome (Some self.new.failed) result }
        ensures calls { self.new.calls ≡ min (self.old.calls + 1) (2 ^ 64 - 1) }
        ensures fails { self.new.fails ≡ self.old.fails }
        ensures listed { is_err result ≡ list_any (λ k. k == self.new.calls) self.old.fails.now }
        ensures size { IfOk result (λ n. n ≡ min (min (length self.old.source.rest.now) (length buf.new)) (max self.old.source.piece 1)) }
        ensures none { OnErr result (self.new.source ≡ self.old.source) }
        ensures piece { self.new.source.piece ≡ self.old.source.piece }
        ensures count { self.new.faults ≡ count_after self.old.faults result }
    {
        self.calls = self.calls.saturating_add(1);
        self.failed = self.fails.contains(&self.calls);
        if self.failed {
            self.faults = self.faults.saturating_add(1);
            return Err(Failed);
        }
        self.source.read(buf)
    }
}

/// A sink with room for a number of octets and of writes, taken when it is made.
///
/// A write that doesn't fit takes nothing and fails. Nothing else makes it fail.
#[derive(Drop)]
pub struct MemorySink {
    pub octets: Vec<u8>,
    pub writes: u64,
    pub faults: u64,
    pub failed: bool,
}

impl MemorySink {
    /// An empty sink with room for `room` octets in `writes` writes.
    pub fn new(alloc: Global, room: usize, writes: u64) -> Result<Self, NoMemory>
        ensures empty { IfOk result (λ s. s.octets.items ≡ []) }
        ensures room { IfOk result (λ s. vec_capacity s.octets ≡ room) }
        ensures writes { IfOk result (λ s. s.writes ≡ writes) }
        ensures count { IfOk result (λ s. s.faults ≡ 0) }
        ensures failed { IfOk result (λ s. s.failed ≡ false) }
    {
        Ok(MemorySink {
            octets: Vec::with_capacity(alloc, room)?,
            writes,
            faults: 0,
            failed: false,
        })
    }

    /// Whether a piece of this many octets fits.
    pub fn has_room(&self, octets: usize) -> bool
        ensures { IsTrue result ↔ HasRoom self.now octets }
    {
        self.writes > 0 && self.octets.capacity() - self.octets.len() >= octets
    }
}

// Adds a piece for which there is room.
fn fill(octets: &mut Vec<u8>, piece: &[u8])
    requires { vec_len octets.old + length piece.now ≤ vec_capacity octets.old }
    ensures octets { octets.new.items ≡ octets.old.items ++ piece.now }
    ensures room { vec_capacity octets.new ≡ vec_capacity octets.old }
{
    for octet in piece {
        octets.push_reserved(*octet);
    }
}

impl Sink for MemorySink {
    ghost written = { λ s. Some s.octets.items };

    ghost faults = { λ s. s.faults };

    ghost last_failed = { λ s. Some s.failed };

    fn write(&mut self, buf: &[u8]) -> Result<usize, Failed>
        ensures takes { WriteTakes (Some self.old.octets.items) (Some self.new.octets.items) result buf.now }
        ensures cause { HasCause self.old.faults self.new.faults result }
        ensures outcome { TellsOutcome (Some self.new.failed) result }
        ensures fits { IsOk result ↔ HasRoom self.old (length buf.now) }
        ensures whole { OnOk result (self.new.octets.items ≡ self.old.octets.items ++ buf.now) }
        ensures size { IfOk result (λ n. n ≡ length buf.now) }
        ensures none { OnErr result (self.new.octets.items ≡ self.old.octets.items) }
        ensures writes { self.new.writes ≡ writes_after self.old.writes result }
        ensures room { vec_capacity self.new.octets ≡ vec_capacity self.old.octets }
        ensures count { self.new.faults ≡ count_after self.old.faults result }
    {
        self.failed = !self.has_room(buf.len());
        if self.failed {
            self.faults = self.faults.saturating_add(1);
            return Err(Failed);
        }
        fill(&mut self.octets, buf);
        self.writes -= 1;
        Ok(buf.len())
    }
}

/// A sink in memory of which the calls named in a list fail, counted from 1.
#[derive(Drop)]
pub struct FaultySink<'a> {
    pub sink: MemorySink,
    pub fails: &'a [u64],
    pub calls: u64,
    pub faults: u64,
    pub failed: bool,
}

impl<'a> FaultySink<'a> {
    /// A sink over another one, whose calls with these numbers fail.
    pub fn new(sink: MemorySink, fails: &'a [u64]) -> Self
        ensures sink { result.sink ≡ sink }
        ensures fails { result.fails.now ≡ fails.now }
        ensures calls { result.calls ≡ 0 }
        ensures count { result.faults ≡ 0 }
        ensures failed { result.failed ≡ false }
    {
        FaultySink {
            sink,
            fails,
            calls: 0,
            faults: 0,
            failed: false,
        }
    }
}

impl Sink for FaultySink<'_> {
    ghost written = { λ s. Some s.sink.octets.items };

    ghost faults = { λ s. s.faults };

    ghost last_failed = { λ s. Some s.failed };

    fn write(&mut self, buf: &[u8]) -> Result<usize, Failed>
        ensures takes { WriteTakes (Some self.old.sink.octets.items) (Some self.new.sink.octets.items) result buf.now }
        ensures cause { HasCause self.old.faults self.new.faults result }
        ensures outcome { TellsOutcome (Some self.new.failed) result }
        ensures calls { self.new.calls ≡ min (self.old.calls + 1) (2 ^ 64 - 1) }
        ensures fails { self.new.fails ≡ self.old.fails }
        ensures listed { list_any (λ k. k == self.new.calls) self.old.fails.now ≡ true → IsErr result }
        ensures fits { list_any (λ k. k == self.new.calls) self.old.fails.now ≡ false
            → (IsOk result ↔ HasRoom self.old.sink (length buf.now)) }
        ensures whole { OnOk result (self.new.sink.octets.items ≡ self.old.sink.octets.items ++ buf.now) }
        ensures size { IfOk result (λ n. n ≡ length buf.now) }
        ensures none { OnErr result (self.new.sink.octets.items ≡ self.old.sink.octets.items) }
        ensures writes { self.new.sink.writes ≡ writes_after self.old.sink.writes result }
        ensures room { vec_capacity self.new.sink.octets ≡ vec_capacity self.old.sink.octets }
        ensures count { self.new.faults ≡ count_after self.old.faults result }
    {
        self.calls = self.calls.saturating_add(1);
        let is_listed = self.fails.contains(&self.calls);
        if !is_listed {
            if let Ok(n) = self.sink.write(buf) {
                self.failed = false;
                return Ok(n);
            }
        }
        self.failed = true;
        self.faults = self.faults.saturating_add(1);
        Err(Failed)
    }
}
