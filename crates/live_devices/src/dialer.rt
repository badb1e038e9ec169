// Sessions that are dialled, one with each peer.
ghost use Rattle.std.specs.Prelude.{◌≡◌, ◌<◌, Bool, true, false, ℕ, Option, is_ok, length};
ghost use Rattle.ikl_base.specs.Outside.{HasCause, TellsOutcome};
ghost use Rattle.live_devices.specs.Dialers.{DialGives, Becomes, NoticeGives, PeerHeld, ReadGives, StaysBut, WriteTakes, hung_up};

use ikl_base::Failed;

/// A dialer, which has a session with each peer that is up: a control stream both ways, and a notice stream that comes in.
pub trait Dialer {
    /// How many peers there are. They have the numbers below it.
    ghost peers: { Self → ℕ };

    /// Whether a peer is up: from a dial that succeeded until it is hung up.
    ghost is_up: { Self → ℕ → Bool };

    /// What comes from a peer and what was written to it, where the object tells it.
    ghost held: { Self → ℕ → Option PeerHeld };

    /// How often a call on a peer has failed, as far as the count goes.
    ghost faults: { Self → ℕ → ℕ };

    /// Whether the last call on a peer failed, where the object tells it.
    ghost last_failed: { Self → ℕ → Option Bool };

    /// Opens a session with a peer. A call that fails leaves it as it was, and raises its count.
    fn dial(&mut self, g: usize) -> Result<(), Failed>
        requires known { g < peers self.old }
        requires down { is_up self.old g ≡ false }
        ensures gives { DialGives (held self.old g) (held self.new g) result }
        ensures up { is_up self.new g ≡ is_ok result }
        ensures cause { HasCause (faults self.old g) (faults self.new g) result }
        ensures outcome { TellsOutcome (last_failed self.new g) result }
        ensures others { StaysBut g (held self.old) (held self.new) × StaysBut g (is_up self.old) (is_up self.new) }
        ensures counts { StaysBut g (faults self.old) (faults self.new) × StaysBut g (last_failed self.old) (last_failed self.new) }
        ensures peers { peers self.new ≡ peers self.old };

    /// Reads octets of the control stream into the front of `buf`: 0 is the end. None where nothing waited in this call.
    fn read(&mut self, g: usize, buf: &mut [u8]) -> Result<Option<usize>, Failed>
        requires known { g < peers self.old }
        requires up { is_up self.old g ≡ true }
        requires room { 0 < length buf.old }
        ensures gives { ReadGives (held self.old g) (held self.new g) result buf.new }
        ensures up { is_up self.new g ≡ true }
        ensures cause { HasCause (faults self.old g) (faults self.new g) result }
        ensures outcome { TellsOutcome (last_failed self.new g) result }
        ensures others { StaysBut g (held self.old) (held self.new) × StaysBut g (is_up self.old) (is_up self.new) }
        ensures counts { StaysBut g (faults self.old) (faults self.new) × StaysBut g (last_failed self.old) (last_failed self.new) }
        ensures peers { peers self.new ≡ peers self.old };

    /// Reads octets of the notice stream into the front of `buf`: 0 is the end. None where nothing waited in this call.
    fn read_notice(&mut self, g: usize, buf: &mut [u8]) -> Result<Option<usize>, Failed>
        requires known { g < peers self.old }
        requires up { is_up self.old g ≡ true }
        requires room { 0 < length buf.old }
        ensures gives { NoticeGives (held self.old g) (held self.new g) result buf.new }
        ensures up { is_up self.new g ≡ true }
        ensures cause { HasCause (faults self.old g) (faults self.new g) result }
        ensures outcome { TellsOutcome (last_failed self.new g) result }
        ensures others { StaysBut g (held self.old) (held self.new) × StaysBut g (is_up self.old) (is_up self.new) }
        ensures counts { StaysBut g (faults self.old) (faults self.new) × StaysBut g (last_failed self.old) (last_failed self.new) }
        ensures peers { peers self.new ≡ peers self.old };

    /// Writes octets to the control stream, all of them. A call that fails may have taken a front of them.
    fn write(&mut self, g: usize, octets: &[u8]) -> Result<(), Failed>
        requires known { g < peers self.old }
        requires up { is_up self.old g ≡ true }
        ensures takes { WriteTakes (held self.old g) (held self.new g) result octets.now }
        ensures up { is_up self.new g ≡ true }
        ensures cause { HasCause (faults self.old g) (faults self.new g) result }
        ensures outcome { TellsOutcome (last_failed self.new g) result }
        ensures others { StaysBut g (held self.old) (held self.new) × StaysBut g (is_up self.old) (is_up self.new) }
        ensures counts { StaysBut g (faults self.old) (faults self.new) × StaysBut g (last_failed self.old) (last_failed self.new) }
        ensures peers { peers self.new ≡ peers self.old };

    /// Ends the session with a peer, where there is one.
    fn hang_up(&mut self, g: usize)
        requires known { g < peers self.old }
        ensures gives { Becomes hung_up (held self.old g) (held self.new g) }
        ensures up { is_up self.new g ≡ false }
        ensures count { (faults self.new g ≡ faults self.old g) × (last_failed self.new g ≡ last_failed self.old g) }
        ensures others { StaysBut g (held self.old) (held self.new) × StaysBut g (is_up self.old) (is_up self.new) }
        ensures counts { StaysBut g (faults self.old) (faults self.new) × StaysBut g (last_failed self.old) (last_failed self.new) }
        ensures peers { peers self.new ≡ peers self.old };
}
