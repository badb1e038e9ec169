// Lists of policies and halves, each with its first fault or none.
use ikeless_tree::*;
use ikl_base::{Addr, Duplicate, ListOf, Name, NoMemory, Octets, Prefix};
use std::alloc::Global;
use std::test::Fail;

const NEAR: Addr = Addr::V4([192, 0, 2, 1]);

const FAR: Addr = Addr::V4([192, 0, 2, 2]);

const WIDE: Addr = Addr::V6([32, 1, 13, 184, 0, 0, 0, 0, 0, 0, 0, 0, 0, 0, 0, 1]);

const NO_LIMITS: Limits = Limits {
    time: 0,
    bytes: 0,
    packets: 0,
    idle: 0,
};

const SOME_LIMITS: Limits = Limits {
    time: 3600,
    bytes: 5000000000,
    packets: 7,
    idle: 60,
};

fn ranges(alloc: Global, count: u16, start: u16, end: u16) -> Result<Ports, NoMemory> {
    let mut ports = ListOf::new(alloc);
    for _ in 0..count {
        ports.push(Range { start, end })?;
    }
    Ok(ports)
}

fn selector(alloc: Global, local_ports: Ports) -> Selector {
    Selector {
        local: Prefix::of(Addr::V4([10, 1, 2, 3]), 16),
        remote: Prefix::of(Addr::V4([10, 2, 2, 3]), 24),
        proto: Some(17),
        local_ports,
        remote_ports: ListOf::new(alloc),
    }
}

fn entry(alloc: Global, name: &str, ports: Ports) -> Result<SpdEntry, NoMemory> {
    Ok(SpdEntry {
        name: Name::from_slice(alloc, name.as_bytes())?,
        direction: Direction::Out,
        reqid: 10,
        window: 64,
        selector: selector(alloc, ports),
        action: Action::Protect,
    })
}

fn plain(alloc: Global, name: &str) -> Result<SpdEntry, NoMemory> {
    entry(alloc, name, ranges(alloc, 1, 8, 9)?)
}

fn half(alloc: Global, name: &str, key: usize) -> Result<SadEntry, NoMemory> {
    let mut octets = Vec::new(alloc);
    octets.resize(key, 7)?;
    Ok(SadEntry {
        name: Name::from_slice(alloc, name.as_bytes())?,
        reqid: 10,
        spi: 256,
        window: 64,
        selector: selector(alloc, ranges(alloc, 1, 8, 9)?),
        key: Octets::from_items(octets),
        local: NEAR,
        remote: FAR,
        df: Df::Copy,
        hard: SOME_LIMITS,
        soft: NO_LIMITS,
    })
}

// A list of these names, the second of them with the ports 9 to 8 where that is asked for.
fn list_of(alloc: Global, names: &[&str], second_empty: bool) -> Result<Entries, NoMemory> {
    let mut list = ListOf::new(alloc);
    for (i, name) in names.iter().enumerate() {
        let end = if second_empty && i == 1 { 8 } else { 9 };
        list.push(entry(alloc, name, ranges(alloc, 1, 9, end)?)?)?;
    }
    Ok(list)
}

fn many(alloc: Global, count: u64) -> Result<Entries, NoMemory> {
    let mut list = ListOf::new(alloc);
    for k in 0..count {
        let name = format!(in alloc; "p{k}")?;
        list.push(plain(alloc, name.as_str())?)?;
    }
    Ok(list)
}

fn one(alloc: Global, entry: SpdEntry) -> Result<Entries, NoMemory> {
    let mut list = ListOf::new(alloc);
    list.push(entry)?;
    Ok(list)
}

fn fault_of(
    alloc: Global,
    names: &[&str],
    second_empty: bool,
) -> Result<Option<TreeFault>, NoMemory> {
    let list = list_of(alloc, names, second_empty)?;
    Ok(check_spd(&list).err())
}

#[test]
fn lists_have_no_fault_or_two_names(rt: HostRuntime) -> Result<(), Fail> {
    let good = fault_of(rt.alloc(), &["p1", "p2", "p3"], false)?;
    assert!(rt; good == None);
    let twice = fault_of(rt.alloc(), &["p1", "p1"], false)?;
    assert!(rt; twice == Some(TreeFault::DuplicateName));
    Ok(())
}

#[test]
fn lists_have_their_first_fault(rt: HostRuntime) -> Result<(), Fail> {
    let empty = fault_of(rt.alloc(), &["p1", "p2"], true)?;
    assert!(rt; empty == Some(TreeFault::EmptyRange));
    let first = fault_of(rt.alloc(), &["p1", "p2", "p1"], true)?;
    assert!(rt; first == Some(TreeFault::EmptyRange));
    Ok(())
}

#[test]
fn a_list_that_is_appended_stands_behind(rt: HostRuntime) -> Result<(), Fail> {
    let mut list = list_of(rt.alloc(), &["p1", "p2"], false)?;
    list.append(list_of(rt.alloc(), &["p3", "p1"], false)?)?;
    assert!(rt; list.len() == 4);
    assert!(rt; check_spd(&list).err() == Some(TreeFault::DuplicateName));
    Ok(())
}

#[test]
fn lists_have_at_most_256_entries(rt: HostRuntime) -> Result<(), Fail> {
    let alloc = rt.alloc();
    let full = many(alloc, 256)?;
    assert!(rt; check_spd(&full) == Ok(()));
    let over = many(alloc, 257)?;
    assert!(rt; check_spd(&over) == Err(TreeFault::TooMany));
    Ok(())
}

#[test]
fn gateways_have_names(rt: HostRuntime) {
    assert!(rt; names_gateway(b"a1"));
    assert!(rt; names_gateway(&[b'z'; 32]));
    assert!(rt; !names_gateway(&[b'z'; 33]));
    assert!(rt; !names_gateway(b"a-1"));
}

#[test]
fn entries_have_names(rt: HostRuntime) -> Result<(), Fail> {
    let alloc = rt.alloc();
    for name in ["", "a b", "a,b", "a%2Fb"] {
        let bad = one(alloc, plain(alloc, name)?)?;
        assert!(rt; check_spd(&bad) == Err(TreeFault::BadName), "{name}");
    }
    Ok(())
}

#[test]
fn entries_have_windows(rt: HostRuntime) -> Result<(), Fail> {
    let alloc = rt.alloc();
    for (window, good) in [(31, false), (32, true), (4096, true), (4097, false)] {
        let mut sized = plain(alloc, "p1")?;
        sized.window = window;
        assert!(rt; check_spd(&one(alloc, sized)?).is_ok() == good);
    }
    Ok(())
}

#[test]
fn entries_have_at_most_8_ranges(rt: HostRuntime) -> Result<(), Fail> {
    let alloc = rt.alloc();
    for (count, want) in [
        (8, Ok(())),
        (9, Err(TreeFault::Unsupported(Feature::Ports))),
    ] {
        let list = one(alloc, entry(alloc, "p1", ranges(alloc, count, 1, 1)?)?)?;
        assert!(rt; check_spd(&list) == want);
    }
    Ok(())
}

#[test]
fn halves_have_names_and_keys(rt: HostRuntime) -> Result<(), Fail> {
    let alloc = rt.alloc();
    assert!(rt; check_sad(&half(alloc, "in/10-1", 20)?) == Ok(()));
    assert!(rt; check_sad(&half(alloc, "out/10-1", 36)?) == Ok(()));
    for name in ["in/", "in", "on/1", "in/a/b", "out/"] {
        let bad = half(alloc, name, 20)?;
        assert!(rt; check_sad(&bad) == Err(TreeFault::BadName), "{name}");
    }
    for key in [0, 16, 19, 21, 35, 37] {
        let bad = half(alloc, "in/1", key)?;
        assert!(rt; check_sad(&bad) == Err(TreeFault::BadKeyLength));
    }
    Ok(())
}

// An association with so many ranges of these ports and this far end.
fn ranged(alloc: Global, count: u16, end: u16, remote: Addr) -> Result<SadEntry, NoMemory> {
    let mut half = half(alloc, "in/1", 20)?;
    half.selector.remote_ports = ranges(alloc, count, 2, end)?;
    half.remote = remote;
    Ok(half)
}

#[test]
fn halves_have_ports_and_ends(rt: HostRuntime) -> Result<(), Fail> {
    let alloc = rt.alloc();
    let rows = [
        (8, 2, FAR, Ok(())),
        (8, 2, WIDE, Err(TreeFault::Unsupported(Feature::Tunnel))),
        (9, 2, WIDE, Err(TreeFault::Unsupported(Feature::Ports))),
        (9, 1, WIDE, Err(TreeFault::EmptyRange)),
    ];
    for (count, end, remote, want) in rows {
        let half = ranged(alloc, count, end, remote)?;
        assert!(rt; check_sad(&half) == want);
    }
    Ok(())
}

#[test]
fn halves_have_numbers_and_windows(rt: HostRuntime) -> Result<(), Fail> {
    let rows = [
        (256, 32, Ok(())),
        (255, 31, Err(TreeFault::BadSpi)),
        (256, 31, Err(TreeFault::BadWindow)),
        (256, 4097, Err(TreeFault::BadWindow)),
    ];
    for (spi, window, want) in rows {
        let mut half = half(rt.alloc(), "in/1", 20)?;
        half.spi = spi;
        half.window = window;
        assert!(rt; check_sad(&half) == want);
    }
    Ok(())
}

fn is_selector(selector: &Selector) -> bool {
    selector.local == Prefix::of(Addr::V4([10, 1, 0, 0]), 16)
        && selector.remote == Prefix::of(Addr::V4([10, 2, 2, 0]), 24)
        && selector.proto == Some(17)
        && selector.local_ports.as_slice() == [Range { start: 8, end: 9 }].as_slice()
        && selector.remote_ports.as_slice().is_empty()
}

fn is_entry(entry: &SpdEntry) -> bool {
    name_is(&entry.name, b"p1")
        && entry.direction == Direction::Out
        && entry.reqid == 10
        && entry.window == 64
        && is_selector(&entry.selector)
        && entry.action == Action::Protect
}

#[test]
fn entries_are_copied(rt: HostRuntime) -> Result<(), Fail> {
    let copy = plain(rt.alloc(), "p1")?.copy()?;
    assert!(rt; is_entry(&copy));
    Ok(())
}

#[test]
fn lists_are_copied(rt: HostRuntime) -> Result<(), Fail> {
    let alloc = rt.alloc();
    let copy = one(alloc, plain(alloc, "p1")?)?.copy()?;
    assert!(rt; copy.len() == 1 && is_entry(&copy.as_slice()[0]));
    Ok(())
}

#[test]
fn ranges_are_copied(rt: HostRuntime) -> Result<(), Fail> {
    let range = Range { start: 8, end: 9 };
    assert!(rt; range.copy()? == range);
    Ok(())
}

fn is_half(half: &SadEntry) -> bool {
    name_is(&half.name, b"in/1")
        && half.reqid == 10
        && half.spi == 256
        && half.window == 64
        && is_selector(&half.selector)
        && half.key.as_slice() == [7; 20].as_slice()
        && half.local == NEAR
        && half.remote == FAR
        && half.df == Df::Copy
        && half.hard == SOME_LIMITS
        && half.soft == NO_LIMITS
}

#[test]
fn halves_are_copied(rt: HostRuntime) -> Result<(), Fail> {
    let copy = half(rt.alloc(), "in/1", 20)?.copy()?;
    assert!(rt; is_half(&copy));
    Ok(())
}

#[test]
fn peers_are_copied(rt: HostRuntime) -> Result<(), Fail> {
    let peer = Peer {
        name: Name::from_slice(rt.alloc(), b"a")?,
        address: NEAR,
    };
    let copy = peer.copy()?;
    assert!(rt; copy.name.as_slice() == b"a".as_slice() && copy.address == NEAR);
    Ok(())
}

fn tunnel(alloc: Global) -> Result<TunnelSpec, NoMemory> {
    Ok(TunnelSpec {
        reqid: 10,
        now: true,
        first: Name::from_slice(alloc, b"a")?,
        second: Name::from_slice(alloc, b"b")?,
        first_prefix: Prefix::of(NEAR, 24),
        second_prefix: Prefix::of(WIDE, 64),
        window: 128,
        hard: SOME_LIMITS,
        soft: NO_LIMITS,
    })
}

fn is_tunnel(tunnel: &TunnelSpec) -> bool {
    tunnel.reqid == 10
        && tunnel.now
        && tunnel.first.as_slice() == b"a".as_slice()
        && tunnel.second.as_slice() == b"b".as_slice()
        && tunnel.first_prefix == Prefix::of(NEAR, 24)
        && tunnel.second_prefix == Prefix::of(WIDE, 64)
        && tunnel.window == 128
        && tunnel.hard == SOME_LIMITS
        && tunnel.soft == NO_LIMITS
}

#[test]
fn tunnels_are_copied(rt: HostRuntime) -> Result<(), Fail> {
    let copy = tunnel(rt.alloc())?.copy()?;
    assert!(rt; is_tunnel(&copy));
    Ok(())
}

fn name_is(name: &Name, text: &[u8]) -> bool {
    name.as_slice() == text
}

// Whether a notice of this kind tells what `notice` put into it.
fn is_notice(notice: &Notice) -> bool {
    match notice {
        Notice::Acquire { policy, selector } => name_is(policy, b"p1") && is_selector(selector),
        Notice::Expire {
            name,
            soft,
            current,
        } => name_is(name, b"in/1") && *soft && *current == SOME_LIMITS,
        Notice::SeqOverflow { name } => name_is(name, b"out/1"),
        Notice::BadSpi { spi } => *spi == 300,
    }
}

fn acquire(alloc: Global) -> Result<Notice, NoMemory> {
    Ok(Notice::Acquire {
        policy: Name::from_slice(alloc, b"p1")?,
        selector: selector(alloc, ranges(alloc, 1, 8, 9)?),
    })
}

#[test]
fn acquires_are_copied(rt: HostRuntime) -> Result<(), Fail> {
    let copy = acquire(rt.alloc())?.copy()?;
    assert!(rt; matches!(copy, Notice::Acquire { .. }) && is_notice(&copy));
    Ok(())
}

#[test]
fn expiries_are_copied(rt: HostRuntime) -> Result<(), Fail> {
    let expire = Notice::Expire {
        name: Name::from_slice(rt.alloc(), b"in/1")?,
        soft: true,
        current: SOME_LIMITS,
    };
    let copy = expire.copy()?;
    assert!(rt; matches!(copy, Notice::Expire { .. }) && is_notice(&copy));
    Ok(())
}

#[test]
fn overflows_are_copied(rt: HostRuntime) -> Result<(), Fail> {
    let overflow = Notice::SeqOverflow {
        name: Name::from_slice(rt.alloc(), b"out/1")?,
    };
    let copy = overflow.copy()?;
    assert!(rt; matches!(copy, Notice::SeqOverflow { .. }) && is_notice(&copy));
    Ok(())
}

#[test]
fn bad_numbers_are_copied(rt: HostRuntime) -> Result<(), Fail> {
    let copy = Notice::BadSpi { spi: 300 }.copy()?;
    assert!(rt; matches!(copy, Notice::BadSpi { .. }) && is_notice(&copy));
    Ok(())
}

// What an order is about: its kind and a name.
fn order_parts(order: &Order) -> (u8, &[u8]) {
    match order {
        Order::Read => (1, b""),
        Order::Policy(list) => match list.as_slice() {
            [entry] => (2, entry.name.as_slice()),
            _ => (0, b""),
        },
        Order::Put(half) => (3, half.name.as_slice()),
        Order::Remove(name) => (4, name.as_slice()),
    }
}

#[test]
fn readings_are_copied(rt: HostRuntime) -> Result<(), Fail> {
    let copy = Order::Read.copy()?;
    assert!(rt; order_parts(&copy) == (1, b"".as_slice()));
    Ok(())
}

#[test]
fn ordered_lists_are_copied(rt: HostRuntime) -> Result<(), Fail> {
    let alloc = rt.alloc();
    let copy = Order::Policy(one(alloc, plain(alloc, "p1")?)?).copy()?;
    assert!(rt; order_parts(&copy) == (2, b"p1".as_slice()));
    Ok(())
}

#[test]
fn ordered_halves_are_copied(rt: HostRuntime) -> Result<(), Fail> {
    let copy = Order::Put(half(rt.alloc(), "in/1", 20)?).copy()?;
    assert!(rt; order_parts(&copy) == (3, b"in/1".as_slice()));
    Ok(())
}

#[test]
fn removals_are_copied(rt: HostRuntime) -> Result<(), Fail> {
    let copy = Order::Remove(Name::from_slice(rt.alloc(), b"out/1")?).copy()?;
    assert!(rt; order_parts(&copy) == (4, b"out/1".as_slice()));
    Ok(())
}

#[test]
fn rows_are_copied(rt: HostRuntime) -> Result<(), Fail> {
    let row = SadRow {
        entry: half(rt.alloc(), "in/1", 20)?,
        state: SaState {
            current: SOME_LIMITS,
            top: 9,
        },
    };
    let copy = row.copy()?;
    assert!(rt; is_half(&copy.entry) && copy.state == row.state);
    Ok(())
}

#[test]
fn words_stand_for_tags(rt: HostRuntime) {
    assert!(rt; Tag::MalformedMessage.text() == "malformed-message");
    assert!(rt; App::SpiTaken.text() == "spi-taken");
    assert!(rt; App::named(b"key-seen") == Some(App::Refused(Refusal::KeySeen)));
    assert!(rt; Tag::named(b"resource-denied") == Some(Tag::ResourceDenied));
    assert!(rt; Tag::named(b"resource") == None);
}

#[test]
fn words_stand_for_reasons(rt: HostRuntime) {
    assert!(rt; Refusal::named(b"tunnel-limit") == Some(Refusal::TunnelLimit));
    assert!(rt; DropWhy::named(b"clear-refused") == Some(DropWhy::ClearRefused));
    assert!(rt; GoneWhy::named(b"hard") == Some(GoneWhy::Hard));
    assert!(rt; Lane::named(b"note") == Some(Lane::Note));
    assert!(rt; Lane::named(b"") == None);
}

#[test]
fn words_stand_for_parts_of_entries(rt: HostRuntime) {
    assert!(rt; Action::named(b"bypass") == Some(Action::Bypass));
    assert!(rt; Direction::named(b"in") == Some(Direction::In));
    assert!(rt; Direction::of_word(b"outbound") == Some(Direction::Out));
    assert!(rt; Df::named(b"copy") == Some(Df::Copy));
    assert!(rt; mode_named(b"acquire") == Some(false) && softness_named(b"soft") == Some(true));
}
