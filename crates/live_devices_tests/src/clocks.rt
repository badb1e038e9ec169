// Clocks in memory.
use live_devices::{Clock, MemoryClock};
use std::test::Fail;

#[test]
fn last_reading_stays(rt: HostRuntime) -> Result<(), Fail> {
    let readings = [5, 7];
    let mut clock = MemoryClock::new(&readings);
    assert_eq!(rt; [clock.now(), clock.now(), clock.now()], [5, 7, 7]);
    let mut empty = MemoryClock::new(&[]);
    assert_eq!(rt; [empty.now(), empty.now()], [0, 0]);
    Ok(())
}
