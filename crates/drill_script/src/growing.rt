// A sink in memory that grows.
ghost use Rattle.std.specs.Prelude.{◌≡◌, ◌++◌, Some, [], IfOk, OnOk, OnErr, length};
ghost use Rattle.ikl_base.specs.Outside.{WriteTakes, HasCause, TellsOutcome, count_after};

use ikl_base::{Failed, Sink};
use std::alloc::Global;

/// A sink in memory, which fails only where memory runs out, and then takes nothing.
#[derive(Drop)]
pub struct Growing {
    pub octets: Vec<u8>,
    pub faults: u64,
    pub failed: bool,
}

impl Growing {
    /// An empty sink.
    pub fn new(alloc: Global) -> Self
        ensures empty { result.octets.items ≡ [] }
        ensures count { result.faults ≡ 0 }
    {
        Growing {
            octets: Vec::new(alloc),
            faults: 0,
            failed: false,
        }
    }
}

impl Sink for Growing {
    ghost written = { λ s. Some s.octets.items };

    ghost faults = { λ s. s.faults };

    ghost last_failed = { λ s. Some s.failed };

    fn write(&mut self, buf: &[u8]) -> Result<usize, Failed>
        ensures takes { WriteTakes (Some self.old.octets.items) (Some self.new.octets.items) result buf.now }
        ensures cause { HasCause self.old.faults self.new.faults result }
        ensures outcome { TellsOutcome (Some self.new.failed) result }
        ensures whole { OnOk result (self.new.octets.items ≡ self.old.octets.items ++ buf.now) }
        ensures size { IfOk result (λ n. n ≡ length buf.now) }
        ensures none { OnErr result (self.new.octets.items ≡ self.old.octets.items) }
        ensures count { self.new.faults ≡ count_after self.old.faults result }
    {
        self.failed = self.octets.extend_from_slice(buf).is_err();
        if self.failed {
            self.faults = self.faults.saturating_add(1);
            return Err(Failed);
        }
        Ok(buf.len())
    }
}
