// Wires in memory, one with a list of the calls that are to fail and one without.
ghost use Rattle.std.specs.Prelude.{◌≡◌, ◌↔◌, ◌+◌, ◌<◌, ◌≤◌, ◌++◌, ◌∷◌, List, ℕ, [], length, min, take, Some, true, false, IfOk, IsOk, IsErr, IsTrue, is_err, vec_len, vec_capacity};
ghost use Rattle.ikl_base.specs.Outside.{HasCause, TellsOutcome};
ghost use Rattle.live_devices.specs.Tallies.{is_listed, list_after, tally_after};
ghost use Rattle.live_devices.specs.Wires.{RecvGives, SendTakes};
ghost use Rattle.live_devices.specs.WireMemory.{HasRoom, wire_held};

use crate::tally::{Listed, Tally};
use crate::wire::Wire;
use ikl_base::{Failed, NoMemory, Octets};
use std::alloc::Global;

/// A wire in memory, with room for a number of octets and of datagrams, taken when it is made.
///
/// A datagram that doesn't fit isn't sent, and that call fails. Nothing else makes a call fail.
#[derive(Drop)]
pub struct MemoryWire<'a> {
    pub coming: &'a [Option<Octets>],
    pub sent: Vec<u8>,
    pub sizes: Vec<usize>,
    pub tally: Tally,
}

impl<'a> MemoryWire<'a> {
    /// A wire to which this comes, one item for each receipt: a datagram, or None where nothing waits in that call.
    pub fn new(
        alloc: Global,
        coming: &'a [Option<Octets>],
        room: usize,
        writes: usize,
    ) -> Result<Self, NoMemory>
        ensures coming { IfOk result (λ w. w.coming.now ≡ coming.now) }
        ensures sent { IfOk result (λ w. (w.sent.items ≡ []) × (w.sizes.items ≡ [])) }
        ensures room { IfOk result (λ w. (vec_capacity w.sent ≡ room) × (vec_capacity w.sizes ≡ writes)) }
        ensures count { IfOk result (λ w. (w.tally.faults ≡ 0) × (w.tally.failed ≡ false)) }
    {
        Ok(MemoryWire {
            coming,
            sent: Vec::with_capacity(alloc, room)?,
            sizes: Vec::with_capacity(alloc, writes)?,
            tally: Tally::new(),
        })
    }

    /// Whether a datagram of this many octets fits.
    pub fn has_room(&self, octets: usize) -> bool
        ensures { IsTrue result ↔ HasRoom self.now octets }
    {
        self.sizes.len() < self.sizes.capacity() && self.sent.capacity() - self.sent.len() >= octets
    }
}

/// Copies the front of these octets for which there is room, and answers how many.
pub fn copy_front(octets: &[u8], into: &mut [u8]) -> usize
    ensures size { result ≡ min (length octets.now) (length into.new) }
    ensures front { take result into.new ≡ take result octets.now }
    ensures room { length into.new ≡ length into.old }
{
    let n = octets.len().min(into.len());
    into[..n].copy_from_slice(&octets[..n]);
    n
}

/// Adds octets for which there is room.
pub fn fill(octets: &mut Vec<u8>, piece: &[u8])
    requires { vec_len octets.old + length piece.now ≤ vec_capacity octets.old }
    ensures octets { octets.new.items ≡ octets.old.items ++ piece.now }
    ensures room { vec_capacity octets.new ≡ vec_capacity octets.old }
{
    for octet in piece {
        octets.push_reserved(*octet);
    }
}

impl Wire for MemoryWire<'_> {
    ghost held = { λ w. Some (wire_held w) };

    ghost faults = { λ w. w.tally.faults };

    ghost last_failed = { λ w. Some w.tally.failed };

    fn recv(&mut self, into: &mut [u8]) -> Result<Option<usize>, Failed>
        ensures gives { RecvGives (Some (wire_held self.old)) (Some (wire_held self.new)) result into.new }
        ensures cause { HasCause self.old.tally.faults self.new.tally.faults result }
        ensures outcome { TellsOutcome (Some self.new.tally.failed) result }
        ensures ok { IsOk result }
        ensures count { self.new.tally ≡ tally_after false self.old.tally }
        ensures room { (vec_capacity self.new.sent ≡ vec_capacity self.old.sent)
            × (vec_capacity self.new.sizes ≡ vec_capacity self.old.sizes) }
    {
        self.tally.pass();
        let Some((found, rest)) = self.coming.split_first() else {
            return Ok(None);
        };
        self.coming = rest;
        match found {
            None => Ok(None),
            Some(datagram) => Ok(Some(copy_front(datagram.as_slice(), into))),
        }
    }

    fn send(&mut self, datagram: &[u8]) -> Result<(), Failed>
        ensures takes { SendTakes (Some (wire_held self.old)) (Some (wire_held self.new)) result datagram.now }
        ensures cause { HasCause self.old.tally.faults self.new.tally.faults result }
        ensures outcome { TellsOutcome (Some self.new.tally.failed) result }
        ensures fits { IsOk result ↔ HasRoom self.old (length datagram.now) }
        ensures count { self.new.tally ≡ tally_after (is_err result) self.old.tally }
        ensures room { (vec_capacity self.new.sent ≡ vec_capacity self.old.sent)
            × (vec_capacity self.new.sizes ≡ vec_capacity self.old.sizes) }
    {
        if !self.has_room(datagram.len()) {
            self.tally.fail();
            return Err(Failed);
        }
        fill(&mut self.sent, datagram);
        self.sizes.push_reserved(datagram.len());
        self.tally.pass();
        Ok(())
    }
}

/// A wire in memory of which the calls named in a list fail, counted from 1.
#[derive(Drop)]
pub struct FaultyWire<'a> {
    pub wire: MemoryWire<'a>,
    pub listed: Listed<'a>,
    pub tally: Tally,
}

impl<'a> FaultyWire<'a> {
    /// A wire over another one, whose calls with these numbers fail.
    pub fn new(wire: MemoryWire<'a>, fails: &'a [u64]) -> Self
        ensures wire { result.wire ≡ wire.entry }
        ensures fails { (result.listed.fails.now ≡ fails.now) × (result.listed.calls ≡ 0) }
        ensures count { (result.tally.faults ≡ 0) × (result.tally.failed ≡ false) }
    {
        FaultyWire {
            wire,
            listed: Listed::new(fails),
            tally: Tally::new(),
        }
    }
}

impl Wire for FaultyWire<'_> {
    ghost held = { λ w. Some (wire_held w.wire) };

    ghost faults = { λ w. w.tally.faults };

    ghost last_failed = { λ w. Some w.tally.failed };

    fn recv(&mut self, into: &mut [u8]) -> Result<Option<usize>, Failed>
        ensures gives { RecvGives (Some (wire_held self.old.wire)) (Some (wire_held self.new.wire)) result into.new }
        ensures cause { HasCause self.old.tally.faults self.new.tally.faults result }
        ensures outcome { TellsOutcome (Some self.new.tally.failed) result }
        ensures listed { is_err result ≡ is_listed self.old.listed }
        ensures call { self.new.listed ≡ list_after self.old.listed }
        ensures count { self.new.tally ≡ tally_after (is_err result) self.old.tally }
        ensures room { (vec_capacity self.new.wire.sent ≡ vec_capacity self.old.wire.sent)
            × (vec_capacity self.new.wire.sizes ≡ vec_capacity self.old.wire.sizes) }
    {
        if self.listed.take_call() {
            self.tally.fail();
            return Err(Failed);
        }
        self.tally.pass();
        self.wire.recv(into)
    }

    fn send(&mut self, datagram: &[u8]) -> Result<(), Failed>
        ensures takes { SendTakes (Some (wire_held self.old.wire)) (Some (wire_held self.new.wire)) result datagram.now }
        ensures cause { HasCause self.old.tally.faults self.new.tally.faults result }
        ensures outcome { TellsOutcome (Some self.new.tally.failed) result }
        ensures listed { is_listed self.old.listed ≡ true → IsErr result }
        ensures fits { is_listed self.old.listed ≡ false → (IsOk result ↔ HasRoom self.old.wire (length datagram.now)) }
        ensures call { self.new.listed ≡ list_after self.old.listed }
        ensures count { self.new.tally ≡ tally_after (is_err result) self.old.tally }
        ensures room { (vec_capacity self.new.wire.sent ≡ vec_capacity self.old.wire.sent)
            × (vec_capacity self.new.wire.sizes ≡ vec_capacity self.old.wire.sizes) }
    {
        let is_listed = self.listed.take_call();
        if is_listed || self.wire.send(datagram).is_err() {
            self.tally.fail();
            return Err(Failed);
        }
        self.tally.pass();
        Ok(())
    }
}
