// What a command reads from and writes to.
ghost use Rattle.std.specs.Prelude.{◌≡◌, ◌≤◌, Bool, List, ℕ, Option, length};
ghost use Rattle.ikl_base.specs.Outside.{ReadGives, WriteTakes, HasCause, TellsOutcome};

use crate::fault::Failed;

/// A stream of octets that comes in.
pub trait Source {
    /// The octets that reads will give from here on, where the object tells them.
    ghost left: { Self → Option (List ℕ) };

    /// How often a call has failed, as far as the count goes.
    ghost faults: { Self → ℕ };

    /// Whether the last call failed, where the object tells it.
    ghost last_failed: { Self → Option Bool };

    /// Reads octets into the front of `buf`, and answers how many.
    ///
    /// 0 for a buffer that isn't empty is the end. A call that fails gives nothing, and raises the count.
    fn read(&mut self, buf: &mut [u8]) -> Result<usize, Failed>
        ensures gives { ReadGives (left self.old) (left self.new) result buf.new }
        ensures cause { HasCause (faults self.old) (faults self.new) result }
        ensures outcome { TellsOutcome (last_failed self.new) result };
}

/// A stream of octets that goes out.
pub trait Sink {
    /// The octets written, where the object tells them.
    ghost written: { Self → Option (List ℕ) };

    /// How often a call has failed, as far as the count goes.
    ghost faults: { Self → ℕ };

    /// Whether the last call failed, where the object tells it.
    ghost last_failed: { Self → Option Bool };

    /// Takes octets from the front of `buf`, and answers how many; at least one of a piece that isn't empty.
    ///
    /// A call that fails may have taken a front of the piece, and raises the count.
    fn write(&mut self, buf: &[u8]) -> Result<usize, Failed>
        ensures takes { WriteTakes (written self.old) (written self.new) result buf.now }
        ensures cause { HasCause (faults self.old) (faults self.new) result }
        ensures outcome { TellsOutcome (last_failed self.new) result };
}
