// Whole scripts, run over a source and a sink in memory.
use crate::player::play;
use crate::rows::{ROWS, Row};
use ikeless_cli::{exit_number, name_of, reason_of, run_replay};
use ikl_base::{FaultySink, FaultySource, LineFault, MemorySink, MemorySource, NoMemory, Status};
use std::alloc::Global;
use std::process::Abort;
use std::test::Fail;

const ROOM: usize = 1 << 20;

/// The words of the command.
pub fn replay_words(alloc: Global) -> Result<Vec<String>, NoMemory> {
    let mut words = Vec::new(alloc);
    words.push(String::from_str(alloc, "replay")?)?;
    Ok(words)
}

// The exit number, the line and the reason of a status; line 0 where it has none.
fn told(status: &Status) -> (u8, u64, &'static str) {
    match status {
        Status::Line { line, reason } => (exit_number(status), *line, reason_of(*reason)),
        Status::Forged { line, .. } => (exit_number(status), *line, ""),
        other => (exit_number(other), 0, ""),
    }
}

/// Runs a script in pieces, and compares its status and transcript.
pub fn check<R: Abort>(
    rt: &R,
    alloc: Global,
    script: &[u8],
    transcript: &[u8],
    end: (u8, u64, &str),
) -> Result<(), NoMemory> {
    let words = replay_words(alloc)?;
    let mut input = MemorySource::new(script, 61);
    let mut output = MemorySink::new(alloc, ROOM, 1 << 20)?;
    let status = run_replay(alloc, words.as_slice(), &mut input, &mut output);
    let (number, line, reason) = told(&status);
    assert_eq!(rt; number, end.0);
    assert_eq!(rt; line, end.1);
    assert_eq!(rt; reason, end.2);
    assert_eq!(rt; output.octets.as_slice(), transcript);
    Ok(())
}

fn check_row<R: Abort>(rt: &R, alloc: Global, row: &Row) -> Result<(), NoMemory> {
    let played = play(alloc, row)?;
    check(
        rt,
        alloc,
        played.script.as_slice(),
        played.transcript.as_slice(),
        row.end,
    )
}

#[test]
fn each_script_has_its_transcript(rt: HostRuntime) -> Result<(), Fail> {
    let alloc = rt.alloc();
    for row in &ROWS {
        check_row(&rt, alloc, row)?;
    }
    Ok(())
}

// Runs a row over devices of which one call fails, and gives its exit number and what was written.
fn broken<R: Abort>(
    rt: &R,
    alloc: Global,
    row: &Row,
    read: u64,
    write: u64,
) -> Result<u8, NoMemory> {
    let words = replay_words(alloc)?;
    let played = play(alloc, row)?;
    let reads = [read];
    let writes = [write];
    let mut input = FaultySource::new(played.script.as_slice(), 61, &reads);
    let mut output = FaultySink::new(MemorySink::new(alloc, ROOM, 1 << 20)?, &writes);
    let status = run_replay(alloc, words.as_slice(), &mut input, &mut output);
    let front = output.sink.octets.as_slice();
    assert!(rt; played.transcript.as_slice().starts_with(front));
    Ok(exit_number(&status))
}

#[test]
fn each_failing_read_ends_the_run(rt: HostRuntime) -> Result<(), Fail> {
    let alloc = rt.alloc();
    for call in 1..6u64 {
        assert_eq!(rt; broken(&rt, alloc, &ROWS[0], call, 0)?, 4);
        assert_eq!(rt; broken(&rt, alloc, &ROWS[9], call, 0)?, 4);
    }
    Ok(())
}

#[test]
fn each_failing_write_ends_the_run(rt: HostRuntime) -> Result<(), Fail> {
    let alloc = rt.alloc();
    for call in 1..6u64 {
        assert_eq!(rt; broken(&rt, alloc, &ROWS[0], 0, call)?, 5);
        assert_eq!(rt; broken(&rt, alloc, &ROWS[9], 0, call)?, 5);
    }
    Ok(())
}

#[test]
fn other_words_are_refused(rt: HostRuntime) -> Result<(), Fail> {
    let alloc = rt.alloc();
    let mut words = Vec::new(alloc);
    let mut input = MemorySource::new(b"x", 1);
    let mut output = MemorySink::new(alloc, 9, 9)?;
    let status = run_replay(alloc, words.as_slice(), &mut input, &mut output);
    assert_eq!(rt; exit_number(&status), 2);
    words.push(String::from_str(alloc, "replay")?)?;
    words.push(String::from_str(alloc, "replay")?)?;
    let status = run_replay(alloc, words.as_slice(), &mut input, &mut output);
    assert_eq!(rt; name_of(&status), "Words");
    assert_eq!(rt; reason_of(LineFault::Mode), "mode");
    assert_eq!(rt; input.rest.len(), 1);
    Ok(())
}
