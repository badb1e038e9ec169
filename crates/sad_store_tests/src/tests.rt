// Halves that are installed, found, counted and removed.
use ikeless_tree::{Df, Limits, SadEntry, Selector, check_sad};
use ikl_base::{Addr, ListOf, Name, NoMemory, Octets, Prefix};
use ip_packet::view;
use life_count::LifeEvent;
use replay_win::Verdict;
use sad_store::{InstallFault, SadStore};
use std::alloc::Global;
use std::test::Fail;

const NO_LIMITS: Limits = Limits {
    time: 0,
    bytes: 0,
    packets: 0,
    idle: 0,
};

const ONE_PACKET: Limits = Limits {
    time: 0,
    bytes: 0,
    packets: 1,
    idle: 0,
};

// UDP from 10.1.0.5 port 4660 to 10.2.0.9 port 53.
const PACKET: [u8; 32] = [
    0x45, 0, 0, 0x20, 0, 0, 0x40, 0, 0x40, 0x11, 0x26, 0xbd, 10, 1, 0, 5, 10, 2, 0, 9, 0x12, 0x34,
    0, 0x35, 0, 0x0c, 0, 0, 0x61, 0x62, 0x63, 0x64,
];

fn entry(alloc: Global, name: &str, spi: u32) -> Result<SadEntry, NoMemory> {
    Ok(SadEntry {
        name: Name::from_slice(alloc, name.as_bytes())?,
        reqid: 10,
        spi,
        window: 64,
        selector: Selector {
            local: Prefix::of(Addr::V4([10, 1, 0, 0]), 16),
            remote: Prefix::of(Addr::V4([10, 2, 0, 0]), 16),
            proto: None,
            local_ports: ListOf::new(alloc),
            remote_ports: ListOf::new(alloc),
        },
        key: Octets::from_slice(alloc, &[7; 20])?,
        local: Addr::V4([192, 0, 2, 1]),
        remote: Addr::V4([198, 51, 100, 1]),
        df: Df::Copy,
        hard: NO_LIMITS,
        soft: ONE_PACKET,
    })
}

// Installs a half, and says in a word what came of it.
fn put(store: &mut SadStore, e: SadEntry) -> &'static str {
    match check_sad(&e) {
        Ok(()) => {}
        Err(_) => return "unsound",
    }
    match store.install(e, 0) {
        Ok(()) => "installed",
        Err(InstallFault::NameTaken(_)) => "name taken",
        Err(InstallFault::SpiTaken(_)) => "spi taken",
        Err(InstallFault::Full(_)) => "full",
        Err(InstallFault::NoMemory(_)) => "no memory",
    }
}

fn has_last(store: &SadStore, name: &[u8]) -> Result<bool, NoMemory> {
    let names = store.names()?;
    let last = names.as_slice().last();
    Ok(last.is_some_and(|last| last.as_slice() == name))
}

#[test]
fn refuses_names_and_inbound_spis(rt: HostRuntime) -> Result<(), Fail> {
    let alloc = rt.alloc();
    let mut store = SadStore::new(alloc);
    assert_eq!(rt; put(&mut store, entry(alloc, "in/1", 257)?), "installed");
    assert_eq!(rt; put(&mut store, entry(alloc, "in/1", 257)?), "name taken");
    assert_eq!(rt; put(&mut store, entry(alloc, "in/9", 257)?), "spi taken");
    assert_eq!(rt; put(&mut store, entry(alloc, "out/1", 257)?), "installed");
    assert_eq!(rt; store.len(), 2);
    assert!(rt; has_last(&store, b"out/1")?);
    Ok(())
}

fn fill(alloc: Global, store: &mut SadStore) -> Result<bool, NoMemory> {
    let mut is_each_installed = true;
    for n in 0..4096u32 {
        let name = format!(in alloc; "in/{n}")?;
        let word = put(store, entry(alloc, name.as_str(), 256 + n)?);
        is_each_installed = is_each_installed && word == "installed";
    }
    Ok(is_each_installed)
}

#[test]
fn holds_4096_halves_and_names_that_were_gone(rt: HostRuntime) -> Result<(), Fail> {
    let alloc = rt.alloc();
    let mut store = SadStore::new(alloc);
    assert!(rt; fill(alloc, &mut store)?);
    assert_eq!(rt; put(&mut store, entry(alloc, "in/fresh", 9000)?), "full");
    let name = Name::from_slice(alloc, b"in/7")?;
    assert!(rt; store.remove(&name));
    assert!(rt; !store.remove(&name));
    assert_eq!(rt; put(&mut store, entry(alloc, "in/7", 263)?), "installed");
    assert_eq!(rt; store.by_spi(263), Some(4095));
    assert!(rt; has_last(&store, b"in/7")?);
    Ok(())
}

#[test]
fn picks_the_newest_outbound_half(rt: HostRuntime) -> Result<(), Fail> {
    let alloc = rt.alloc();
    let mut store = SadStore::new(alloc);
    for name in ["out/1", "out/2", "in/3"] {
        assert_eq!(rt; put(&mut store, entry(alloc, name, 300)?), "installed");
    }
    let packet = view(&PACKET).map_err(|_| "no packet")?;
    assert_eq!(rt; store.pick_out(10, &packet), Some(1));
    assert_eq!(rt; store.pick_out(11, &packet), None);
    assert_eq!(rt; store.by_spi(300), Some(2));
    assert_eq!(rt; store.by_spi(301), None);
    Ok(())
}

fn number(store: &mut SadStore, i: usize) -> Option<u64> {
    if i < store.len() && store.half(i).sent < u64::MAX {
        Some(store.next_number(i))
    } else {
        None
    }
}

fn mark(store: &mut SadStore, i: usize, s: u64) -> bool {
    if i < store.len() && store.half(i).window.judge(s) == Verdict::Fresh {
        store.mark(i, s);
        true
    } else {
        false
    }
}

#[test]
fn counts_of_each_half(rt: HostRuntime) -> Result<(), Fail> {
    let alloc = rt.alloc();
    let mut store = SadStore::new(alloc);
    assert_eq!(rt; put(&mut store, entry(alloc, "out/1", 300)?), "installed");
    assert_eq!(rt; number(&mut store, 0), Some(1));
    assert_eq!(rt; number(&mut store, 0), Some(2));
    assert!(rt; mark(&mut store, 0, 5));
    assert!(rt; !mark(&mut store, 0, 5));
    Ok(())
}

fn used(store: &mut SadStore, i: usize, bytes: u64, now: u32) -> Option<LifeEvent> {
    if i < store.len() {
        Some(store.used(i, bytes, now))
    } else {
        None
    }
}

fn tick(store: &mut SadStore, i: usize, now: u32) -> Option<LifeEvent> {
    if i < store.len() {
        Some(store.tick(i, now))
    } else {
        None
    }
}

fn overflow(store: &mut SadStore, i: usize) -> Option<bool> {
    if i < store.len() {
        Some(store.overflow(i))
    } else {
        None
    }
}

#[test]
fn tells_once_in_a_session(rt: HostRuntime) -> Result<(), Fail> {
    let alloc = rt.alloc();
    let mut store = SadStore::new(alloc);
    assert_eq!(rt; put(&mut store, entry(alloc, "out/1", 300)?), "installed");
    assert_eq!(rt; used(&mut store, 0, 88, 3), Some(LifeEvent::Soft));
    assert_eq!(rt; tick(&mut store, 0, 4), Some(LifeEvent::Nothing));
    assert_eq!(rt; overflow(&mut store, 0), Some(true));
    assert_eq!(rt; overflow(&mut store, 0), Some(false));
    store.session();
    assert_eq!(rt; overflow(&mut store, 0), Some(true));
    assert_eq!(rt; tick(&mut store, 0, 4), Some(LifeEvent::Soft));
    Ok(())
}
