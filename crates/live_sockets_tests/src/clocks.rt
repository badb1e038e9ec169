// The system's clock.
use live_devices::Clock;
use live_sockets::SystemClock;
use std::cell::Cell;
use std::io::ErrorKind;
use std::test::Fail;
use std::time::Duration;
use std::{io, time};

// A clock that reads these seconds one after another, and fails where there are none.
#[derive(Drop)]
struct Readings<'a> {
    seconds: &'a [Option<u64>],
    next: Cell<usize>,
}

impl time::Clock for Readings<'_> {
    fn monotonic(&self) -> io::Result<Duration> {
        Ok(Duration::ZERO)
    }

    fn since_1970(&self) -> io::Result<Duration> {
        let at = self.next.get();
        self.next.set(at.saturating_add(1));
        match self.seconds.get(at) {
            Some(Some(seconds)) => Ok(Duration::from_secs(*seconds)),
            _ => Err(io::Error::from(ErrorKind::Other)),
        }
    }
}

#[test]
fn seconds_never_fall(rt: HostRuntime) {
    let seconds = [
        None,
        Some(7),
        Some(5),
        None,
        Some(9),
        Some(u64::MAX),
        Some(4_294_967_296),
        Some(10),
    ];
    let readings = Readings {
        seconds: &seconds,
        next: Cell::new(0),
    };
    let mut clock = SystemClock::new(&readings);
    for wanted in [0, 7, 7, 7, 9, 9, u32::MAX, u32::MAX] {
        assert_eq!(rt; clock.now(), wanted);
    }
}
