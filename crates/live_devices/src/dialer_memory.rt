// A dialer in memory.
ghost use Rattle.std.specs.Prelude.{◌≡◌, ◌≢◌, ◌<◌, ◌↔◌, ℕ, true, false, IfSome, IsOk, OnErr, is_ok, length, slice_get};
ghost use Rattle.ikl_base.specs.Outside.{HasCause, TellsOutcome};
ghost use Rattle.live_devices.specs.Dialers.{Becomes, DialGives, NoticeGives, ReadGives, StaysBut, WriteTakes, hung_up};
ghost use Rattle.live_devices.specs.DialerMemory.{failed_at, faults_at, held_at, up_at};
ghost use Rattle.live_devices.specs.PeerMemory.{HasRoom};

use crate::dialer::Dialer;
use crate::peer_memory::MemoryPeer;
use ikl_base::Failed;

/// A dialer over peers in memory.
#[derive(Drop)]
pub struct MemoryDialer<'a> {
    pub peers: Vec<MemoryPeer<'a>>,
}

impl Dialer for MemoryDialer<'_> {
    ghost peers = { λ d. length d.peers.items };

    ghost is_up = { λ d g. up_at d.peers.items g };

    ghost held = { λ d g. held_at d.peers.items g };

    ghost faults = { λ d g. faults_at d.peers.items g };

    ghost last_failed = { λ d g. failed_at d.peers.items g };

    fn dial(&mut self, g: usize) -> Result<(), Failed>
        requires known { g < length self.old.peers.items }
        requires down { up_at self.old.peers.items g ≡ false }
        ensures gives { DialGives (held_at self.old.peers.items g) (held_at self.new.peers.items g) result }
        ensures up { up_at self.new.peers.items g ≡ is_ok result }
        ensures cause { HasCause (faults_at self.old.peers.items g) (faults_at self.new.peers.items g) result }
        ensures outcome { TellsOutcome (failed_at self.new.peers.items g) result }
        ensures others { StaysBut g (held_at self.old.peers.items) (held_at self.new.peers.items)
            × StaysBut g (up_at self.old.peers.items) (up_at self.new.peers.items) }
        ensures counts { StaysBut g (faults_at self.old.peers.items) (faults_at self.new.peers.items)
            × StaysBut g (failed_at self.old.peers.items) (failed_at self.new.peers.items) }
        ensures peers { length self.new.peers.items ≡ length self.old.peers.items }
        ensures ok { IsOk result }
        ensures same { (k : ℕ) → k ≢ g → slice_get self.new.peers.items k ≡ slice_get self.old.peers.items k }
    {
        self.peers[g].dial();
        Ok(())
    }

    fn read(&mut self, g: usize, buf: &mut [u8]) -> Result<Option<usize>, Failed>
        requires known { g < length self.old.peers.items }
        requires up { up_at self.old.peers.items g ≡ true }
        requires room { 0 < length buf.old }
        ensures gives { ReadGives (held_at self.old.peers.items g) (held_at self.new.peers.items g) result buf.new }
        ensures up { up_at self.new.peers.items g ≡ true }
        ensures cause { HasCause (faults_at self.old.peers.items g) (faults_at self.new.peers.items g) result }
        ensures outcome { TellsOutcome (failed_at self.new.peers.items g) result }
        ensures others { StaysBut g (held_at self.old.peers.items) (held_at self.new.peers.items)
            × StaysBut g (up_at self.old.peers.items) (up_at self.new.peers.items) }
        ensures counts { StaysBut g (faults_at self.old.peers.items) (faults_at self.new.peers.items)
            × StaysBut g (failed_at self.old.peers.items) (failed_at self.new.peers.items) }
        ensures peers { length self.new.peers.items ≡ length self.old.peers.items }
        ensures ok { IsOk result }
        ensures same { (k : ℕ) → k ≢ g → slice_get self.new.peers.items k ≡ slice_get self.old.peers.items k }
    {
        Ok(self.peers[g].read(buf))
    }

    fn read_notice(&mut self, g: usize, buf: &mut [u8]) -> Result<Option<usize>, Failed>
        requires known { g < length self.old.peers.items }
        requires up { up_at self.old.peers.items g ≡ true }
        requires room { 0 < length buf.old }
        ensures gives { NoticeGives (held_at self.old.peers.items g) (held_at self.new.peers.items g) result buf.new }
        ensures up { up_at self.new.peers.items g ≡ true }
        ensures cause { HasCause (faults_at self.old.peers.items g) (faults_at self.new.peers.items g) result }
        ensures outcome { TellsOutcome (failed_at self.new.peers.items g) result }
        ensures others { StaysBut g (held_at self.old.peers.items) (held_at self.new.peers.items)
            × StaysBut g (up_at self.old.peers.items) (up_at self.new.peers.items) }
        ensures counts { StaysBut g (faults_at self.old.peers.items) (faults_at self.new.peers.items)
            × StaysBut g (failed_at self.old.peers.items) (failed_at self.new.peers.items) }
        ensures peers { length self.new.peers.items ≡ length self.old.peers.items }
        ensures ok { IsOk result }
        ensures same { (k : ℕ) → k ≢ g → slice_get self.new.peers.items k ≡ slice_get self.old.peers.items k }
    {
        Ok(self.peers[g].read_notice(buf))
    }

    fn write(&mut self, g: usize, octets: &[u8]) -> Result<(), Failed>
        requires known { g < length self.old.peers.items }
        requires up { up_at self.old.peers.items g ≡ true }
        ensures takes { WriteTakes (held_at self.old.peers.items g) (held_at self.new.peers.items g) result octets.now }
        ensures up { up_at self.new.peers.items g ≡ true }
        ensures cause { HasCause (faults_at self.old.peers.items g) (faults_at self.new.peers.items g) result }
        ensures outcome { TellsOutcome (failed_at self.new.peers.items g) result }
        ensures others { StaysBut g (held_at self.old.peers.items) (held_at self.new.peers.items)
            × StaysBut g (up_at self.old.peers.items) (up_at self.new.peers.items) }
        ensures counts { StaysBut g (faults_at self.old.peers.items) (faults_at self.new.peers.items)
            × StaysBut g (failed_at self.old.peers.items) (failed_at self.new.peers.items) }
        ensures peers { length self.new.peers.items ≡ length self.old.peers.items }
        ensures fits { IfSome (slice_get self.old.peers.items g) (λ p. IsOk result ↔ HasRoom p (length octets.now)) }
        ensures none { OnErr result (held_at self.new.peers.items g ≡ held_at self.old.peers.items g) }
        ensures same { (k : ℕ) → k ≢ g → slice_get self.new.peers.items k ≡ slice_get self.old.peers.items k }
    {
        self.peers[g].write(octets)
    }

    fn hang_up(&mut self, g: usize)
        requires known { g < length self.old.peers.items }
        ensures gives { Becomes hung_up (held_at self.old.peers.items g) (held_at self.new.peers.items g) }
        ensures up { up_at self.new.peers.items g ≡ false }
        ensures count { (faults_at self.new.peers.items g ≡ faults_at self.old.peers.items g)
            × (failed_at self.new.peers.items g ≡ failed_at self.old.peers.items g) }
        ensures others { StaysBut g (held_at self.old.peers.items) (held_at self.new.peers.items)
            × StaysBut g (up_at self.old.peers.items) (up_at self.new.peers.items) }
        ensures counts { StaysBut g (faults_at self.old.peers.items) (faults_at self.new.peers.items)
            × StaysBut g (failed_at self.old.peers.items) (failed_at self.new.peers.items) }
        ensures peers { length self.new.peers.items ≡ length self.old.peers.items }
        ensures same { (k : ℕ) → k ≢ g → slice_get self.new.peers.items k ≡ slice_get self.old.peers.items k }
    {
        self.peers[g].hang_up();
    }
}
