// Datagrams that come in and go out.
ghost use Rattle.std.specs.Prelude.{◌≡◌, Bool, ℕ, Option};
ghost use Rattle.ikl_base.specs.Outside.{HasCause, TellsOutcome};
ghost use Rattle.live_devices.specs.Wires.{WireHeld, RecvGives, SendTakes};

use ikl_base::Failed;

/// A wire, which carries datagrams both ways.
pub trait Wire {
    /// What waits and what was sent, where the object tells it.
    ghost held: { Self → Option WireHeld };

    /// How often a call has failed, as far as the count goes.
    ghost faults: { Self → ℕ };

    /// Whether the last call failed, where the object tells it.
    ghost last_failed: { Self → Option Bool };

    /// Takes the next datagram, its first octets into the front of `into`, and answers how many there are.
    ///
    /// Octets that have no room are lost. None where nothing waited in this call. A call that fails takes nothing, and
    /// raises the count.
    fn recv(&mut self, into: &mut [u8]) -> Result<Option<usize>, Failed>
        ensures gives { RecvGives (held self.old) (held self.new) result into.new }
        ensures cause { HasCause (faults self.old) (faults self.new) result }
        ensures outcome { TellsOutcome (last_failed self.new) result };

    /// Sends a datagram. A call that fails sent nothing, and raises the count.
    fn send(&mut self, datagram: &[u8]) -> Result<(), Failed>
        ensures takes { SendTakes (held self.old) (held self.new) result datagram.now }
        ensures cause { HasCause (faults self.old) (faults self.new) result }
        ensures outcome { TellsOutcome (last_failed self.new) result };
}
