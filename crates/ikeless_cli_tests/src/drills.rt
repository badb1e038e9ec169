// The drill, over sinks in memory.
use ikeless_cli::{exit_number, run_drill};
use ikl_base::{FaultySink, MemorySink, NoMemory};
use std::alloc::Global;
use std::process::Abort;
use std::test::Fail;

fn drill_words(alloc: Global, n: &str) -> Result<Vec<String>, NoMemory> {
    let mut words = Vec::new(alloc);
    words.push(String::from_str(alloc, "drill")?)?;
    words.push(String::from_str(alloc, n)?)?;
    Ok(words)
}

// Runs a drill, and gives its exit number and what was written.
fn drilled(alloc: Global, n: &str) -> Result<(u8, Vec<u8>), NoMemory> {
    let words = drill_words(alloc, n)?;
    let mut output = MemorySink::new(alloc, 1 << 10, 1 << 10)?;
    let status = run_drill(alloc, words.as_slice(), &mut output);
    Ok((exit_number(&status), output.octets))
}

#[test]
fn a_drill_says_the_same_again(rt: HostRuntime) -> Result<(), Fail> {
    let alloc = rt.alloc();
    let (exit, line) = drilled(alloc, "1")?;
    assert_eq!(rt; exit, 0);
    assert!(rt; line.as_slice().starts_with(b"drill 1 events 20073 sent "));
    assert!(rt; line.as_slice().ends_with(b" status 0\n"));
    let (exit, again) = drilled(alloc, "1")?;
    assert_eq!(rt; exit, 0);
    assert_eq!(rt; line.as_slice(), again.as_slice());
    Ok(())
}

#[test]
fn words_that_are_no_drill_write_nothing(rt: HostRuntime) -> Result<(), Fail> {
    let alloc = rt.alloc();
    let (exit, line) = drilled(alloc, "x")?;
    assert_eq!(rt; exit, 2);
    assert!(rt; line.is_empty());
    Ok(())
}

#[test]
fn a_sink_that_fails_ends_a_drill(rt: HostRuntime) -> Result<(), Fail> {
    let alloc = rt.alloc();
    let words = drill_words(alloc, "1")?;
    let fails = [1];
    let mut output = FaultySink::new(MemorySink::new(alloc, 1 << 10, 1 << 10)?, &fails);
    let status = run_drill(alloc, words.as_slice(), &mut output);
    assert_eq!(rt; exit_number(&status), 5);
    assert!(rt; output.sink.octets.is_empty());
    Ok(())
}
