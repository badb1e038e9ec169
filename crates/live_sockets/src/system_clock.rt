// The system's clock.
ghost use Rattle.std.specs.Prelude.{◌≡◌, ◌≤◌, None};
ghost use Rattle.live_devices.specs.Clocks.{Tells};

use live_devices::Clock;
use std::time;
use std::time::{SystemTime, UNIX_EPOCH};

/// The system's clock. Where that can't be read, is set before 1970 or goes back, it gives its last reading, 0 at first.
#[derive(Drop)]
pub struct SystemClock<'a, R> {
    system: &'a R,
    last: u32,
}

impl<'a, R: time::Clock> SystemClock<'a, R> {
    /// The clock of this system, which wasn't read.
    pub fn new(system: &'a R) -> Self
        ensures { result.last ≡ 0 }
    {
        SystemClock { system, last: 0 }
    }
}

// The seconds since 1970, where the clock can be read. It stands still at the last one that fits.
fn seconds<R: time::Clock>(system: &R) -> Option<u32> {
    let now = SystemTime::now(system).ok()?;
    let since = now.duration_since(UNIX_EPOCH).ok()?;
    match u32::try_from(since.as_secs()) {
        Ok(fitting) => Some(fitting),
        Err(_) => Some(u32::MAX),
    }
}

impl<R: time::Clock> Clock for SystemClock<'_, R> {
    ghost readings = { λ _. None };

    fn now(&mut self) -> u32
        ensures tells { Tells None None result }
        ensures last { self.new.last ≡ result }
        ensures later { self.old.last ≤ result }
    {
        if let Some(read) = seconds(self.system) {
            self.last = self.last.max(read);
        }
        self.last
    }
}
