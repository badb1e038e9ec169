// The database of associations of a gateway, up to its 4,096 halves.
use gw_core::{Config, Gateway, GwAct, GwActs, GwEvent};
use ikeless_tree::{Df, Limits, Ports, SadEntry, Selector, Tag, check_sad};
use ikl_base::{Addr, Name, NoMemory, Octets, Prefix};
use rc_resource::Ask;
use std::alloc::Global;
use std::test::Fail;

const NONE: Limits = Limits {
    time: 0,
    bytes: 0,
    packets: 0,
    idle: 0,
};

const GATEWAY: Config = Config {
    address: Addr::V4([198, 51, 100, 1]),
    seq_last: 4_294_967_295,
};

// What a request was replied to with: the status, whether it was denied for want of a place, and how many names it shows.
#[derive(Clone, Copy, Debug, PartialEq, Eq)]
struct Said {
    status: u16,
    is_denied: bool,
    names: usize,
}

const DONE: Said = Said {
    status: 204,
    is_denied: false,
    names: 0,
};

const CREATED: Said = Said {
    status: 201,
    is_denied: false,
    names: 0,
};

const DENIED: Said = Said {
    status: 409,
    is_denied: true,
    names: 0,
};

fn selector(alloc: Global) -> Selector {
    Selector {
        local: Prefix::of(Addr::V4([10, 2, 0, 0]), 16),
        remote: Prefix::of(Addr::V4([10, 1, 0, 0]), 16),
        proto: None,
        local_ports: Ports::new(alloc),
        remote_ports: Ports::new(alloc),
    }
}

// The half with this name and this SPI above 256.
fn half(alloc: Global, name: u32, spi: u32) -> Result<SadEntry, NoMemory> {
    let text = format!(in alloc; "in/{name}")?;
    Ok(SadEntry {
        name: Name::from_slice(alloc, text.as_bytes())?,
        reqid: 10,
        spi: 256 + spi % 100_000,
        window: 64,
        selector: selector(alloc),
        key: Octets::from_slice(alloc, &[7; 20])?,
        local: Addr::V4([198, 51, 100, 1]),
        remote: Addr::V4([192, 0, 2, 1]),
        df: Df::Copy,
        hard: NONE,
        soft: NONE,
    })
}

// The reply to a request, which comes last.
fn reply_in(acts: &GwActs) -> Option<Said> {
    match acts.as_slice().last() {
        Some(GwAct::Reply(reply)) => Some(Said {
            status: reply.status,
            is_denied: reply.tag == Some(Tag::ResourceDenied),
            names: reply.names.len(),
        }),
        _ => None,
    }
}

// Asks for a half with this name and SPI to be installed.
fn post(
    alloc: Global,
    gateway: &mut Gateway,
    name: u32,
    spi: u32,
) -> Result<Option<Said>, NoMemory> {
    let entry = half(alloc, name, spi)?;
    if check_sad(&entry).is_err() {
        return Ok(None);
    }
    let mut acts = GwActs::new(alloc);
    gateway.step(GwEvent::Handle(Ok(Ask::PostSad(entry))), &mut acts)?;
    Ok(reply_in(&acts))
}

// Asks for a half to be removed.
fn delete(alloc: Global, gateway: &mut Gateway, name: u32) -> Result<Option<Said>, NoMemory> {
    let text = format!(in alloc; "in/{name}")?;
    let name = Name::from_slice(alloc, text.as_bytes())?;
    let mut acts = GwActs::new(alloc);
    gateway.step(GwEvent::Handle(Ok(Ask::DeleteSad(name))), &mut acts)?;
    Ok(reply_in(&acts))
}

fn read(alloc: Global, gateway: &mut Gateway) -> Result<Option<Said>, NoMemory> {
    let mut acts = GwActs::new(alloc);
    gateway.step(GwEvent::Handle(Ok(Ask::GetSad)), &mut acts)?;
    Ok(reply_in(&acts))
}

// Installs halves with these serial numbers, and counts those that were installed.
fn fill(alloc: Global, gateway: &mut Gateway, first: u32, after: u32) -> Result<u32, NoMemory> {
    let mut installed = 0u32;
    for serial in first..after {
        if post(alloc, gateway, serial, serial)? == Some(CREATED) {
            installed = installed.saturating_add(1);
        }
    }
    Ok(installed)
}

#[test]
fn a_name_and_an_spi_are_taken_once(rt: HostRuntime) -> Result<(), Fail> {
    let alloc = rt.alloc();
    let mut gateway = Gateway::booted(alloc, GATEWAY)?;
    assert_eq!(rt; post(alloc, &mut gateway, 1, 1)?, Some(CREATED));
    assert_eq!(rt; post(alloc, &mut gateway, 1, 1)?, Some(DENIED));
    assert_eq!(rt; post(alloc, &mut gateway, 9, 1)?, Some(DENIED));
    assert_eq!(rt; delete(alloc, &mut gateway, 1)?, Some(DONE));
    assert_eq!(rt; post(alloc, &mut gateway, 1, 1)?, Some(CREATED));
    Ok(())
}

#[test]
fn there_is_room_for_4096_halves(rt: HostRuntime) -> Result<(), Fail> {
    let alloc = rt.alloc();
    let mut gateway = Gateway::booted(alloc, GATEWAY)?;
    assert_eq!(rt; fill(alloc, &mut gateway, 1, 4097)?, 4096);
    assert_eq!(rt; post(alloc, &mut gateway, 4097, 4097)?, Some(DENIED));
    let shown = read(alloc, &mut gateway)?;
    assert_eq!(rt;
        shown,
        Some(Said {
            status: 200,
            is_denied: false,
            names: 4096
        })
    );
    assert_eq!(rt; delete(alloc, &mut gateway, 7)?, Some(DONE));
    assert_eq!(rt; post(alloc, &mut gateway, 4097, 4097)?, Some(CREATED));
    Ok(())
}
