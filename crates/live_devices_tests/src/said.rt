// What calls answered, as a line.
use ikl_base::{Failed, ListOf, NoMemory, Octets};
use live_devices::Script;
use std::alloc::Global;

/// The most octets that a call of a test reads.
pub const ROOM: usize = 8;

/// Adds a word to the line.
pub fn put(out: &mut Vec<u8>, word: &[u8]) -> Result<(), NoMemory> {
    out.extend_from_slice(word)?;
    Ok(out.push(b' ')?)
}

/// Adds whether a call was done.
pub fn put_done(out: &mut Vec<u8>, answer: Result<(), Failed>) -> Result<(), NoMemory> {
    match answer {
        Ok(()) => put(out, b"+"),
        Err(_) => put(out, b"!"),
    }
}

/// Adds whether an accept took a session.
pub fn put_accept(out: &mut Vec<u8>, answer: Result<bool, Failed>) -> Result<(), NoMemory> {
    match answer {
        Ok(true) => put(out, b"+"),
        Ok(false) => put(out, b"-"),
        Err(_) => put(out, b"!"),
    }
}

/// Adds what a read gave.
pub fn put_read(
    out: &mut Vec<u8>,
    answer: Result<Option<usize>, Failed>,
    buf: &[u8],
) -> Result<(), NoMemory> {
    match answer {
        Ok(Some(n)) => {
            out.push(b'[')?;
            out.extend_from_slice(&buf[..n.min(buf.len())])?;
            put(out, b"]")
        }
        Ok(None) => put(out, b"-"),
        Err(_) => put(out, b"!"),
    }
}

/// A stream on which these octets come, so many of them at each read.
pub fn scripted(
    alloc: Global,
    octets: &[u8],
    there: &[usize],
    ends: bool,
) -> Result<Script, NoMemory> {
    let mut numbers = ListOf::new(alloc);
    for n in there {
        numbers.push(*n)?;
    }
    Ok(Script {
        octets: Octets::from_slice(alloc, octets)?,
        there: numbers,
        ends,
    })
}
