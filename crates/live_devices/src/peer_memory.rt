// One peer of a dialer in memory.
ghost use Rattle.std.specs.Prelude.{◌≡◌, ◌↔◌, ◌+◌, ◌<◌, ◌≤◌, [], length, true, false, IfOk, IfSome, IsOk, IsTrue, OnErr, OnOk, is_err, vec_capacity};
ghost use Rattle.live_devices.specs.Dialers.{dialled, hung_up, wrote};
ghost use Rattle.live_devices.specs.PeerMemory.{HasRoom, KeepsRoom, peer_held};
ghost use Rattle.live_devices.specs.Streams.{Read, silent};
ghost use Rattle.live_devices.specs.StreamMemory.{stream_held};
ghost use Rattle.live_devices.specs.Tallies.{tally_after};

use crate::stream::{MemoryStream, Script};
use crate::tally::Tally;
use crate::wire_memory::fill;
use ikl_base::{Failed, NoMemory};
use std::alloc::Global;

/// What comes in a session, on its two streams.
#[derive(Drop)]
pub struct PairScript {
    pub control: Script,
    pub notices: Script,
}

/// A peer in memory, with room for a number of octets and of writes, taken when it is made.
///
/// A write that doesn't fit takes nothing and fails. Nothing else makes a call fail.
#[derive(Drop)]
pub struct MemoryPeer<'a> {
    pub coming: &'a [PairScript],
    pub is_up: bool,
    pub control: MemoryStream<'a>,
    pub notices: MemoryStream<'a>,
    pub dials: u64,
    pub written: Vec<u8>,
    pub pieces: Vec<(u64, usize)>,
    pub tally: Tally,
}

impl<'a> MemoryPeer<'a> {
    /// A peer that isn't up, from which this comes in the sessions that are dialled, and nothing in later ones.
    pub fn new(
        alloc: Global,
        coming: &'a [PairScript],
        room: usize,
        writes: usize,
    ) -> Result<Self, NoMemory>
        ensures coming { IfOk result (λ p. p.coming.now ≡ coming.now) }
        ensures down { IfOk result (λ p. (p.is_up ≡ false) × (p.dials ≡ 0) × (stream_held p.control ≡ silent)
            × (stream_held p.notices ≡ silent)) }
        ensures written { IfOk result (λ p. (p.written.items ≡ []) × (p.pieces.items ≡ [])) }
        ensures room { IfOk result (λ p. (vec_capacity p.written ≡ room) × (vec_capacity p.pieces ≡ writes)) }
        ensures count { IfOk result (λ p. (p.tally.faults ≡ 0) × (p.tally.failed ≡ false)) }
    {
        Ok(MemoryPeer {
            coming,
            is_up: false,
            control: MemoryStream::silent(),
            notices: MemoryStream::silent(),
            dials: 0,
            written: Vec::with_capacity(alloc, room)?,
            pieces: Vec::with_capacity(alloc, writes)?,
            tally: Tally::new(),
        })
    }

    /// Whether a piece of this many octets fits.
    pub fn has_room(&self, octets: usize) -> bool
        ensures { IsTrue result ↔ HasRoom self.now octets }
    {
        self.pieces.len() < self.pieces.capacity()
            && self.written.capacity() - self.written.len() >= octets
    }

    /// Opens a session.
    pub fn dial(&mut self)
        ensures held { peer_held self.new ≡ dialled (peer_held self.old) }
        ensures count { self.new.tally ≡ tally_after false self.old.tally }
        ensures room { KeepsRoom self.old self.new }
    {
        self.tally.pass();
        self.is_up = true;
        self.dials = self.dials.saturating_add(1);
        let Some((pair, rest)) = self.coming.split_first() else {
            self.control = MemoryStream::silent();
            self.notices = MemoryStream::silent();
            return;
        };
        self.coming = rest;
        self.control = MemoryStream::new(&pair.control);
        self.notices = MemoryStream::new(&pair.notices);
    }

    /// Reads octets of the control stream.
    pub fn read(&mut self, buf: &mut [u8]) -> Option<usize>
        requires { 0 < length buf.old }
        ensures held { peer_held self.new ≡ record (peer_held self.old) { control = stream_held self.new.control } }
        ensures read { Read (stream_held self.old.control) (stream_held self.new.control) result buf.new }
        ensures bound { IfSome result (λ n. n ≤ length buf.new) }
        ensures count { self.new.tally ≡ tally_after false self.old.tally }
        ensures room { KeepsRoom self.old self.new }
    {
        self.tally.pass();
        self.control.read(buf)
    }

    /// Reads octets of the notice stream.
    pub fn read_notice(&mut self, buf: &mut [u8]) -> Option<usize>
        requires { 0 < length buf.old }
        ensures held { peer_held self.new ≡ record (peer_held self.old) { notices = stream_held self.new.notices } }
        ensures read { Read (stream_held self.old.notices) (stream_held self.new.notices) result buf.new }
        ensures bound { IfSome result (λ n. n ≤ length buf.new) }
        ensures count { self.new.tally ≡ tally_after false self.old.tally }
        ensures room { KeepsRoom self.old self.new }
    {
        self.tally.pass();
        self.notices.read(buf)
    }

    /// Writes octets, all or none of them.
    pub fn write(&mut self, octets: &[u8]) -> Result<(), Failed>
        ensures fits { IsOk result ↔ HasRoom self.old (length octets.now) }
        ensures whole { OnOk result (peer_held self.new ≡ wrote octets.now (peer_held self.old)) }
        ensures none { OnErr result (peer_held self.new ≡ peer_held self.old) }
        ensures count { self.new.tally ≡ tally_after (is_err result) self.old.tally }
        ensures later { self.old.tally.faults ≤ self.new.tally.faults }
        ensures room { KeepsRoom self.old self.new }
    {
        if !self.has_room(octets.len()) {
            self.tally.fail();
            return Err(Failed);
        }
        fill(&mut self.written, octets);
        self.pieces.push_reserved((self.dials, octets.len()));
        self.tally.pass();
        Ok(())
    }

    /// Ends the session, where there is one.
    pub fn hang_up(&mut self)
        ensures held { peer_held self.new ≡ hung_up (peer_held self.old) }
        ensures count { self.new.tally ≡ self.old.tally }
        ensures room { KeepsRoom self.old self.new }
    {
        self.is_up = false;
        self.control = MemoryStream::silent();
        self.notices = MemoryStream::silent();
    }
}
