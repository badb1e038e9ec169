// Counts below, at and above each limit.
use crate::event::LifeEvent;
use crate::laws::looks_back;
use crate::life::Life;
use ikeless_tree::Limits;
use std::test::Fail;

const NONE: Limits = Limits {
    time: 0,
    bytes: 0,
    packets: 0,
    idle: 0,
};

const TIME: Limits = Limits {
    time: 10,
    bytes: 0,
    packets: 0,
    idle: 0,
};

const BYTES: Limits = Limits {
    time: 0,
    bytes: 100,
    packets: 0,
    idle: 0,
};

const PACKETS: Limits = Limits {
    time: 0,
    bytes: 0,
    packets: 2,
    idle: 0,
};

const IDLE: Limits = Limits {
    time: 0,
    bytes: 0,
    packets: 0,
    idle: 5,
};

// What an association that was installed at 1,000 tells after a use of 60 octets at 1,003, at a second one of so many octets, and
// at a reading of the clock.
fn told(hard: Limits, soft: Limits, bytes: u64, now: u32) -> [LifeEvent; 3] {
    let mut life = Life::new(hard, soft, 1000);
    let first = life.used(60, 1003);
    let second = life.used(bytes, 1004);
    let third = life.tick(now);
    [first, second, third]
}

#[test]
fn below_at_and_above_each_hard_limit(rt: HostRuntime) -> Result<(), Fail> {
    let (no, hard) = (LifeEvent::Nothing, LifeEvent::Hard);
    for (limits, bytes, now, events) in [
        (TIME, 1, 1009, [no, no, no]),
        (TIME, 1, 1010, [no, no, hard]),
        (TIME, 1, 1011, [no, no, hard]),
        (BYTES, 39, 1004, [no, no, no]),
        (BYTES, 40, 1004, [no, hard, hard]),
        (BYTES, 41, 1004, [no, hard, hard]),
        (PACKETS, 0, 1004, [no, hard, hard]),
        (IDLE, 1, 1008, [no, no, no]),
        (IDLE, 1, 1009, [no, no, hard]),
        (IDLE, 1, 1010, [no, no, hard]),
        (NONE, u64::MAX, u32::MAX, [no, no, no]),
    ] {
        assert_eq!(rt; told(limits, NONE, bytes, now), events, "{now}");
    }
    Ok(())
}

#[test]
fn below_at_and_above_each_soft_limit(rt: HostRuntime) -> Result<(), Fail> {
    let (no, soft) = (LifeEvent::Nothing, LifeEvent::Soft);
    for (limits, bytes, now, events) in [
        (TIME, 1, 1009, [no, no, no]),
        (TIME, 1, 1010, [no, no, soft]),
        (TIME, 1, 1011, [no, no, soft]),
        (BYTES, 39, 1004, [no, no, no]),
        (BYTES, 40, 1004, [no, soft, no]),
        (BYTES, 41, 1004, [no, soft, no]),
        (PACKETS, 0, 1004, [no, soft, no]),
        (IDLE, 1, 1008, [no, no, no]),
        (IDLE, 1, 1009, [no, no, soft]),
        (IDLE, 1, 1010, [no, no, soft]),
    ] {
        assert_eq!(rt; told(NONE, limits, bytes, now), events, "{now}");
    }
    Ok(())
}

#[test]
fn hard_comes_before_soft(rt: HostRuntime) -> Result<(), Fail> {
    let (no, soft, hard) = (LifeEvent::Nothing, LifeEvent::Soft, LifeEvent::Hard);
    assert_eq!(rt; told(PACKETS, PACKETS, 1, 1004), [no, hard, hard]);
    assert_eq!(rt; told(TIME, PACKETS, 1, 1010), [no, soft, hard]);
    Ok(())
}

#[test]
fn soft_is_told_once_in_a_session(rt: HostRuntime) -> Result<(), Fail> {
    let mut life = Life::new(NONE, TIME, 0);
    assert_eq!(rt; life.tick(10), LifeEvent::Soft);
    assert_eq!(rt; life.tick(11), LifeEvent::Nothing);
    assert_eq!(rt; life.used(1, 12), LifeEvent::Nothing);
    life.session();
    assert_eq!(rt; life.tick(12), LifeEvent::Soft);
    assert_eq!(rt; life.tick(13), LifeEvent::Nothing);
    Ok(())
}

#[test]
fn counts_all_uses_and_stops(rt: HostRuntime) -> Result<(), Fail> {
    let mut life = Life::new(NONE, NONE, 100);
    assert_eq!(rt; life.current(100), NONE);
    let _first = life.used(88, 103);
    let used = Limits {
        time: 7,
        bytes: 88,
        packets: 1,
        idle: 4,
    };
    assert_eq!(rt; life.current(107), used);
    let _second = life.used(u64::MAX, 107);
    let most = Limits {
        time: u32::MAX - 100,
        bytes: u64::MAX,
        packets: 2,
        idle: u32::MAX - 107,
    };
    assert_eq!(rt; life.current(u32::MAX), most);
    looks_back();
    Ok(())
}
