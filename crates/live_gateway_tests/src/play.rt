// A gateway that serves over devices in memory.
use ikl_base::{Addr, ListOf, NoMemory, Octets};
use live_devices::{MemoryClock, MemoryDock, MemoryWire, Script};
use live_gateway::{Config, Ended, serve_gateway};
use std::alloc::Global;

// Room for what is written to each device, in octets and in writes.
const ROOM: usize = 4096;

const WRITES: usize = 64;

/// What comes to a gateway in its turns, and what its devices hold then.
#[derive(Clone, Copy)]
pub struct Case<'a> {
    /// Texts of its one session, each so many times.
    pub session: &'a [(&'a str, usize)],
    /// What comes from inside in the second turn.
    pub packet: Option<&'a [u8]>,
    pub replies: &'a [&'a str],
    pub outside: &'a [u8],
    pub notices: &'a str,
}

#[derive(Drop)]
struct Devices<'a> {
    inside: MemoryWire<'a>,
    outside: MemoryWire<'a>,
    dock: MemoryDock<'a>,
}

fn devices_over<'a>(
    alloc: Global,
    sessions: &'a [Option<Script>],
    packets: &'a [Option<Octets>],
) -> Result<Devices<'a>, NoMemory> {
    Ok(Devices {
        inside: MemoryWire::new(alloc, packets, ROOM, WRITES)?,
        outside: MemoryWire::new(alloc, &[], ROOM, WRITES)?,
        dock: MemoryDock::new(alloc, sessions, ROOM, 64)?,
    })
}

fn put_times(out: &mut Vec<u8>, text: &str, times: usize) -> Result<(), NoMemory> {
    for _ in 0..times {
        out.extend_from_slice(text.as_bytes())?;
    }
    Ok(())
}

// A session of which all octets are there at its first read.
fn session(alloc: Global, texts: &[(&str, usize)]) -> Result<Script, NoMemory> {
    let mut octets = Vec::new(alloc);
    for (text, times) in texts {
        put_times(&mut octets, text, *times)?;
    }
    Ok(Script {
        octets: Octets::from_items(octets),
        there: ListOf::new(alloc),
        ends: false,
    })
}

fn packet(alloc: Global, octets: Option<&[u8]>) -> Result<Option<Octets>, NoMemory> {
    match octets {
        Some(octets) => Ok(Some(Octets::from_slice(alloc, octets)?)),
        None => Ok(None),
    }
}

fn joined(alloc: Global, texts: &[&str]) -> Result<Vec<u8>, NoMemory> {
    let mut all = Vec::new(alloc);
    for text in texts {
        all.extend_from_slice(text.as_bytes())?;
    }
    Ok(all)
}

// Why three turns of a gateway ended.
fn served(alloc: Global, devices: &mut Devices<'_>) -> Ended {
    let config = Config {
        address: Addr::V4([192, 0, 2, 1]),
        seq_last: 4_294_967_295,
    };
    serve_gateway(
        alloc,
        config,
        &mut devices.inside,
        &mut devices.outside,
        &mut devices.dock,
        &mut MemoryClock::new(&[7]),
        3,
    )
}

// Whether the devices hold what a case wants.
fn are_as_wanted(devices: &Devices<'_>, case: &Case<'_>, replies: &[u8]) -> bool {
    devices.dock.replies.as_slice() == replies
        && devices.dock.notices.as_slice() == case.notices.as_bytes()
        && devices.outside.sent.as_slice() == case.outside
        && devices.inside.sent.is_empty()
}

/// Whether three turns go as a case wants.
pub fn goes(alloc: Global, case: &Case<'_>) -> Result<bool, NoMemory> {
    let sessions = [Some(session(alloc, case.session)?)];
    let packets = [None, packet(alloc, case.packet)?];
    let replies = joined(alloc, case.replies)?;
    let mut devices = devices_over(alloc, &sessions, &packets)?;
    let ended = served(alloc, &mut devices);
    Ok(ended == Ended::TurnsSpent && are_as_wanted(&devices, case, replies.as_slice()))
}
