// The gateway.
use crate::devices::{ROOM, name_of, repeated, stream, words_of};
use crate::texts::{NO_HALVES, READING};
use ikl_base::{NoMemory, Status};
use live_commands::run_gateway;
use live_devices::{MemoryClock, MemoryDock, MemoryWire};
use std::alloc::Global;
use std::test::Fail;

const GATEWAY: &str =
    "gateway --address 192.0.2.1 --seq-last 4294967295 --inside 1 --inside-to 2 --outside 3 --outside-to 4 \
--control 5 --notice 6 --turns 3";

// Runs a gateway over this dock, with wires from which nothing comes.
fn run(alloc: Global, words: &[String], dock: &mut MemoryDock<'_>) -> Result<Status, NoMemory> {
    let mut inside = MemoryWire::new(alloc, &[], ROOM, 64)?;
    let mut outside = MemoryWire::new(alloc, &[], ROOM, 64)?;
    let mut clock = MemoryClock::new(&[7]);
    Ok(run_gateway(alloc, words, &mut inside, &mut outside, dock, &mut clock))
}

// How a gateway ends that is asked for its halves, where it replies what is wanted.
fn served(alloc: Global, words: &str, replies: &str) -> Result<&'static str, NoMemory> {
    let words = words_of(alloc, words)?;
    let sessions = [Some(stream(alloc, repeated(alloc, READING, 1)?, false))];
    let mut dock = MemoryDock::new(alloc, &sessions, ROOM, 64)?;
    let status = run(alloc, words.as_slice(), &mut dock)?;
    Ok(if dock.replies.as_slice() == replies.as_bytes() {
        name_of(&status)
    } else {
        "other replies"
    })
}

#[test]
fn a_gateway_serves_all_turns(rt: HostRuntime) -> Result<(), Fail> {
    assert_eq!(rt; served(rt.alloc(), GATEWAY, NO_HALVES)?, "TurnsSpent");
    assert_eq!(rt; served(rt.alloc(), "gateway --turns 3", "")?, "Words");
    Ok(())
}
