// Halves as entries of a gateway's database, value by value.
use crate::run::Run;
use crate::words::{event, prefix, words_of};
use ctl_core::CtlAct;
use ikeless_tree::{Df, Limits, Order, SadEntry};
use ikl_base::{Addr, NoMemory, Octets};
use std::alloc::Global;
use std::test::Fail;

const KEY_1: [u8; 20] = [
    0, 0, 0, 1, 0x5a, 0x5a, 0x5a, 0x5a, 0x5a, 0x5a, 0x5a, 0x5a, 0x5a, 0x5a, 0x5a, 0x5a, 0xa0, 0xa1,
    0xa2, 1,
];

const A: Addr = Addr::V4([192, 0, 2, 1]);

const B: Addr = Addr::V4([198, 51, 100, 1]);

const SETUP: [&str; 9] = [
    "keys 1",
    "keys 2",
    "tunnel 10 now a b",
    "opened a",
    "opened b",
    "answered a 200",
    "answered b 200",
    "answered b 201",
    "answered a 201",
];

fn told(run: &mut Run, alloc: Global, lines: &[&str]) -> Result<(), NoMemory> {
    for line in lines {
        let words = words_of(alloc, line)?;
        match event(alloc, words.as_slice())? {
            Some(e) => run.tell(e)?,
            None => return Err(NoMemory),
        }
    }
    Ok(())
}

// The half that an act puts.
fn half_put(run: &Run, i: usize) -> Option<&SadEntry> {
    match run.acts.get(i) {
        Some(
            CtlAct::Order {
                order: Order::Put(e),
                ..
            },
        ) => Some(e),
        _ => None,
    }
}

fn has_limits(e: &SadEntry) -> bool {
    let hour = Limits {
        time: 3600,
        bytes: 0,
        packets: 0,
        idle: 0,
    };
    let none = Limits {
        time: 0,
        bytes: 0,
        packets: 0,
        idle: 0,
    };
    e.hard == none && e.soft == hour && e.df == Df::Copy && e.window == 64
}

// Whether it is of the tunnel 10, between the prefixes of these places and these addresses.
fn lies(e: &SadEntry, local: u8, remote: u8, from: Addr, to: Addr) -> bool {
    let s = &e.selector;
    let any = s.proto.is_none() && s.local_ports.len() == 0 && s.remote_ports.len() == 0;
    any && s.local == prefix(local)
        && s.remote == prefix(remote)
        && e.local == from
        && e.remote == to
        && e.reqid == 10
        && has_limits(e)
}

fn is_named(e: &SadEntry, name: &str, spi: u32) -> bool {
    e.name.as_slice() == name.as_bytes() && e.spi == spi
}

#[test]
fn an_inbound_half_is_put_at_the_receiver(rt: HostRuntime) -> Result<(), Fail> {
    let mut run = Run::new(rt.alloc())?;
    told(&mut run, rt.alloc(), &SETUP[..7])?;
    match half_put(&run, 0) {
        Some(e) => {
            assert!(rt; is_named(e, "in/1", 257));
            assert!(rt; lies(e, 2, 1, B, A));
            assert_eq!(rt; e.key.as_slice(), KEY_1.as_slice());
        }
        None => assert!(rt; false),
    }
    Ok(())
}

#[test]
fn each_direction_has_its_own_key(rt: HostRuntime) -> Result<(), Fail> {
    let mut run = Run::new(rt.alloc())?;
    told(&mut run, rt.alloc(), &SETUP[..7])?;
    match half_put(&run, 1) {
        Some(e) => {
            assert!(rt; is_named(e, "in/2", 258));
            assert!(rt; lies(e, 1, 2, A, B));
            assert!(rt; e.key.as_slice() != KEY_1.as_slice());
        }
        None => assert!(rt; false),
    }
    Ok(())
}

#[test]
fn outbound_halves_are_put_at_their_senders(rt: HostRuntime) -> Result<(), Fail> {
    let mut run = Run::new(rt.alloc())?;
    told(&mut run, rt.alloc(), &SETUP[..8])?;
    match half_put(&run, 0) {
        Some(e) => {
            assert!(rt; is_named(e, "out/1", 257));
            assert!(rt; lies(e, 1, 2, A, B));
            assert_eq!(rt; e.key.as_slice(), KEY_1.as_slice());
        }
        None => assert!(rt; false),
    }
    told(&mut run, rt.alloc(), &SETUP[8..])?;
    match half_put(&run, 0) {
        Some(e) => assert!(rt; is_named(e, "out/2", 258) && lies(e, 2, 1, B, A)),
        None => assert!(rt; false),
    }
    Ok(())
}
