// One peer of a dialer in memory of which some calls fail.
ghost use Rattle.std.specs.Prelude.{◌≡◌, ◌↔◌, ◌<◌, ◌≤◌, length, true, false, IfOk, IfSome, IsErr, IsOk, OnErr, OnOk, is_err};
ghost use Rattle.live_devices.specs.Dialers.{dialled, hung_up, wrote};
ghost use Rattle.live_devices.specs.PeerMemory.{HasRoom, peer_held};
ghost use Rattle.live_devices.specs.Streams.{Read};
ghost use Rattle.live_devices.specs.StreamMemory.{stream_held};
ghost use Rattle.live_devices.specs.Tallies.{is_listed, list_after, tally_after};

use crate::peer_memory::MemoryPeer;
use crate::tally::{Listed, Tally};
use ikl_base::Failed;

/// A peer in memory of which the calls named in a list fail, counted from 1. Hanging up is none of them.
#[derive(Drop)]
pub struct FaultyPeer<'a> {
    pub peer: MemoryPeer<'a>,
    pub listed: Listed<'a>,
    pub tally: Tally,
}

impl<'a> FaultyPeer<'a> {
    /// A peer over another one, whose calls with these numbers fail.
    pub fn new(peer: MemoryPeer<'a>, fails: &'a [u64]) -> Self
        ensures peer { result.peer ≡ peer.entry }
        ensures fails { (result.listed.fails.now ≡ fails.now) × (result.listed.calls ≡ 0) }
        ensures count { (result.tally.faults ≡ 0) × (result.tally.failed ≡ false) }
    {
        FaultyPeer {
            peer,
            listed: Listed::new(fails),
            tally: Tally::new(),
        }
    }

    /// Opens a session.
    pub fn dial(&mut self) -> Result<(), Failed>
        ensures listed { is_err result ≡ is_listed self.old.listed }
        ensures held { OnOk result (peer_held self.new.peer ≡ dialled (peer_held self.old.peer)) }
        ensures none { OnErr result (self.new.peer ≡ self.old.peer) }
        ensures call { self.new.listed ≡ list_after self.old.listed }
        ensures count { self.new.tally ≡ tally_after (is_err result) self.old.tally }
        ensures later { self.old.tally.faults ≤ self.new.tally.faults }
    {
        if self.listed.take_call() {
            self.tally.fail();
            return Err(Failed);
        }
        self.tally.pass();
        self.peer.dial();
        Ok(())
    }

    /// Reads octets of the control stream.
    pub fn read(&mut self, buf: &mut [u8]) -> Result<Option<usize>, Failed>
        requires { 0 < length buf.old }
        ensures listed { is_err result ≡ is_listed self.old.listed }
        ensures held { peer_held self.new.peer ≡ record (peer_held self.old.peer) { control = stream_held self.new.peer.control } }
        ensures read { IfOk result (λ answer. Read (stream_held self.old.peer.control) (stream_held self.new.peer.control) answer buf.new) }
        ensures bound { IfOk result (λ answer. IfSome answer (λ n. n ≤ length buf.new)) }
        ensures none { OnErr result (self.new.peer ≡ self.old.peer) }
        ensures call { self.new.listed ≡ list_after self.old.listed }
        ensures count { self.new.tally ≡ tally_after (is_err result) self.old.tally }
        ensures later { self.old.tally.faults ≤ self.new.tally.faults }
    {
        if self.listed.take_call() {
            self.tally.fail();
            return Err(Failed);
        }
        self.tally.pass();
        Ok(self.peer.read(buf))
    }

    /// Reads octets of the notice stream.
    pub fn read_notice(&mut self, buf: &mut [u8]) -> Result<Option<usize>, Failed>
        requires { 0 < length buf.old }
        ensures listed { is_err result ≡ is_listed self.old.listed }
        ensures held { peer_held self.new.peer ≡ record (peer_held self.old.peer) { notices = stream_held self.new.peer.notices } }
        ensures read { IfOk result (λ answer. Read (stream_held self.old.peer.notices) (stream_held self.new.peer.notices) answer buf.new) }
        ensures bound { IfOk result (λ answer. IfSome answer (λ n. n ≤ length buf.new)) }
        ensures none { OnErr result (self.new.peer ≡ self.old.peer) }
        ensures call { self.new.listed ≡ list_after self.old.listed }
        ensures count { self.new.tally ≡ tally_after (is_err result) self.old.tally }
        ensures later { self.old.tally.faults ≤ self.new.tally.faults }
    {
        if self.listed.take_call() {
            self.tally.fail();
            return Err(Failed);
        }
        self.tally.pass();
        Ok(self.peer.read_notice(buf))
    }

    /// Writes octets, all or none of them.
    pub fn write(&mut self, octets: &[u8]) -> Result<(), Failed>
        ensures listed { is_listed self.old.listed ≡ true → IsErr result }
        ensures fits { is_listed self.old.listed ≡ false → (IsOk result ↔ HasRoom self.old.peer (length octets.now)) }
        ensures whole { OnOk result (peer_held self.new.peer ≡ wrote octets.now (peer_held self.old.peer)) }
        ensures none { OnErr result (peer_held self.new.peer ≡ peer_held self.old.peer) }
        ensures call { self.new.listed ≡ list_after self.old.listed }
        ensures count { self.new.tally ≡ tally_after (is_err result) self.old.tally }
        ensures later { self.old.tally.faults ≤ self.new.tally.faults }
    {
        let is_listed = self.listed.take_call();
        if is_listed || self.peer.write(octets).is_err() {
            self.tally.fail();
            return Err(Failed);
        }
        self.tally.pass();
        Ok(())
    }

    /// Ends the session, where there is one.
    pub fn hang_up(&mut self)
        ensures held { peer_held self.new.peer ≡ hung_up (peer_held self.old.peer) }
        ensures call { self.new.listed ≡ self.old.listed }
        ensures count { self.new.tally ≡ self.old.tally }
    {
        self.peer.hang_up();
    }
}
