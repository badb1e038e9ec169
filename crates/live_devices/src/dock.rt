// Sessions that come in, one at a time.
ghost use Rattle.std.specs.Prelude.{◌≡◌, ◌<◌, Bool, true, ℕ, Option, length};
ghost use Rattle.ikl_base.specs.Outside.{HasCause, TellsOutcome};
ghost use Rattle.live_devices.specs.Docks.{DockHeld, AcceptGives, NoticeTakes, ReadGives, WriteTakes, taken_after};

use ikl_base::Failed;

/// A dock, which takes sessions: each is a control stream both ways, and a notice stream that goes out.
pub trait Dock {
    /// What comes and what was written, where the object tells it.
    ghost held: { Self → Option DockHeld };

    /// Whether a session was ever taken.
    ghost is_taken: { Self → Bool };

    /// How often an accept has failed, and how often another call, as far as the counts go.
    ghost accept_faults: { Self → ℕ };

    ghost faults: { Self → ℕ };

    /// Whether the last accept failed, and whether the last other call did, where the object tells it.
    ghost accept_failed: { Self → Option Bool };

    ghost last_failed: { Self → Option Bool };

    /// Takes a newer session and drops the older one with its unread octets. False where none waited in this call.
    fn accept(&mut self) -> Result<bool, Failed>
        ensures gives { AcceptGives (held self.old) (held self.new) result }
        ensures taken { is_taken self.new ≡ taken_after result (is_taken self.old) }
        ensures cause { HasCause (accept_faults self.old) (accept_faults self.new) result }
        ensures outcome { TellsOutcome (accept_failed self.new) result }
        ensures kept { (faults self.new ≡ faults self.old) × (last_failed self.new ≡ last_failed self.old) };

    /// Reads octets of the session into the front of `buf`: 0 is the end. None where nothing waited in this call.
    fn read(&mut self, buf: &mut [u8]) -> Result<Option<usize>, Failed>
        requires taken { is_taken self.old ≡ true }
        requires room { 0 < length buf.old }
        ensures gives { ReadGives (held self.old) (held self.new) result buf.new }
        ensures taken { is_taken self.new ≡ true }
        ensures cause { HasCause (faults self.old) (faults self.new) result }
        ensures outcome { TellsOutcome (last_failed self.new) result }
        ensures kept { (accept_faults self.new ≡ accept_faults self.old) × (accept_failed self.new ≡ accept_failed self.old) };

    /// Writes octets to the session's control stream, all of them. A call that fails may have taken a front of them.
    fn write(&mut self, octets: &[u8]) -> Result<(), Failed>
        requires taken { is_taken self.old ≡ true }
        ensures takes { WriteTakes (held self.old) (held self.new) result octets.now }
        ensures taken { is_taken self.new ≡ true }
        ensures cause { HasCause (faults self.old) (faults self.new) result }
        ensures outcome { TellsOutcome (last_failed self.new) result }
        ensures kept { (accept_faults self.new ≡ accept_faults self.old) × (accept_failed self.new ≡ accept_failed self.old) };

    /// Writes octets to the session's notice stream, all of them. A call that fails may have taken a front of them.
    fn write_notice(&mut self, octets: &[u8]) -> Result<(), Failed>
        requires taken { is_taken self.old ≡ true }
        ensures takes { NoticeTakes (held self.old) (held self.new) result octets.now }
        ensures taken { is_taken self.new ≡ true }
        ensures cause { HasCause (faults self.old) (faults self.new) result }
        ensures outcome { TellsOutcome (last_failed self.new) result }
        ensures kept { (accept_faults self.new ≡ accept_faults self.old) × (accept_failed self.new ≡ accept_failed self.old) };
}
