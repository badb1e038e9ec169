// The clock, and one in memory.
ghost use Rattle.std.specs.Prelude.{◌≡◌, List, ℕ, Option, Some};
ghost use Rattle.live_devices.specs.Clocks.{Tells, reading, readings_after};

/// A clock, in seconds since 1970.
pub trait Clock {
    /// The readings that calls will give from here on, where the object tells them; the last one stays.
    ghost readings: { Self → Option (List ℕ) };

    /// The seconds now. A clock that can't be read gives its last reading, 0 at first.
    fn now(&mut self) -> u32
        ensures tells { Tells (readings self.old) (readings self.new) result };
}

/// A clock in memory with these readings, of which the last one stays.
#[derive(Drop)]
pub struct MemoryClock<'a> {
    pub readings: &'a [u32],
}

impl<'a> MemoryClock<'a> {
    /// A clock with these readings; with none it stands at 0.
    pub fn new(readings: &'a [u32]) -> Self
        ensures { result.readings.now ≡ readings.now }
    {
        MemoryClock { readings }
    }
}

impl Clock for MemoryClock<'_> {
    ghost readings = { λ c. Some c.readings.now };

    fn now(&mut self) -> u32
        ensures tells { Tells (Some self.old.readings.now) (Some self.new.readings.now) result }
    {
        let Some((seconds, rest)) = self.readings.split_first() else {
            return 0;
        };
        if !rest.is_empty() {
            self.readings = rest;
        }
        *seconds
    }
}
