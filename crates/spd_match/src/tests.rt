//! Decisions that are kept, beside lists of which the first match is read off by hand.

use super::*;
use ikeless_tree::{Action, SpdEntry};
use ikl_base::{Name, NoMemory};
use std::alloc::Global;
use std::test::Fail;

fn policy(alloc: Global, remote: Prefix) -> Result<SpdEntry, NoMemory> {
    Ok(SpdEntry {
        name: Name::from_slice(alloc, b"p")?,
        direction: Direction::Out,
        reqid: 0,
        window: 64,
        selector: Selector {
            local: Prefix::of(Addr::V4([10, 1, 0, 0]), 16),
            remote,
            proto: None,
            local_ports: Ports::new(alloc),
            remote_ports: Ports::new(alloc),
        },
        action: Action::Discard,
    })
}

// The policies for these two, in this order.
fn list(alloc: Global, first: Prefix, second: Prefix) -> Result<Entries, NoMemory> {
    let mut list = Entries::new(alloc);
    list.push(policy(alloc, first)?)?;
    list.push(policy(alloc, second)?)?;
    Ok(list)
}

fn subnet() -> Prefix {
    Prefix::of(Addr::V4([10, 2, 7, 0]), 24)
}

fn network() -> Prefix {
    Prefix::of(Addr::V4([10, 2, 0, 0]), 16)
}

// A packet from 10.1.0.5 to this address.
fn packet_to(dst: [u8; 4]) -> View<'static> {
    View {
        src: Addr::V4([10, 1, 0, 5]),
        dst: Addr::V4(dst),
        proto: 17,
        ports: Some((4000, 53)),
        df: false,
        payload: b"abcd",
    }
}

// At one place, each flow writes over the one before.
#[test]
fn flows_share_a_place(rt: HostRuntime) -> Result<(), Fail> {
    let list = list(rt.alloc(), subnet(), network())?;
    let mut kept = Decisions::new(rt.alloc(), 1)?;
    let inner = packet_to([10, 2, 7, 1]);
    let outer = packet_to([10, 2, 9, 1]);
    assert_eq!(rt; kept.decide(&list, Direction::Out, &inner), Some(0));
    assert_eq!(rt; kept.decide(&list, Direction::Out, &outer), Some(1));
    assert_eq!(rt; kept.decide(&list, Direction::Out, &inner), Some(0));
    assert_eq!(rt; kept.decide(&list, Direction::In, &inner), None);
    Ok(())
}

#[test]
fn a_flow_is_decided_anew_under_another_list(rt: HostRuntime) -> Result<(), Fail> {
    let before = list(rt.alloc(), subnet(), network())?;
    let after = list(rt.alloc(), network(), subnet())?;
    let mut kept = Decisions::new(rt.alloc(), 1024)?;
    let outer = packet_to([10, 2, 9, 1]);
    assert_eq!(rt; kept.decide(&before, Direction::Out, &outer), Some(1));
    assert_eq!(rt; kept.decide(&before, Direction::Out, &outer), Some(1));
    kept.forget();
    assert_eq!(rt; kept.decide(&after, Direction::Out, &outer), Some(0));
    assert_eq!(rt;
        kept.decide(&after, Direction::Out, &packet_to([10, 3, 0, 1])),
        None
    );
    Ok(())
}
