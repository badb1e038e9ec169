// Streams in memory, counts of faults, and lists of calls that are to fail.
use crate::said::{ROOM, put_read, scripted};
use ikl_base::NoMemory;
use live_devices::{Listed, MemoryStream, Tally};
use std::alloc::Global;
use std::test::Fail;

// What reads of a stream give, each into a buffer of this many octets.
fn answers(
    alloc: Global,
    stream: &mut MemoryStream<'_>,
    rooms: &[usize],
) -> Result<Vec<u8>, NoMemory> {
    let mut out = Vec::new(alloc);
    for room in rooms {
        let mut buf = [0u8; ROOM];
        let piece = &mut buf[..(*room).clamp(1, ROOM)];
        let answer = stream.read(piece);
        put_read(&mut out, Ok(answer), piece)?;
    }
    Ok(out)
}

#[test]
fn octets_come_as_they_are_there(rt: HostRuntime) -> Result<(), Fail> {
    let alloc = rt.alloc();
    let ending = scripted(alloc, b"abcdefgh", &[3, 0, 1], true)?;
    let said = answers(
        alloc,
        &mut MemoryStream::new(&ending),
        &[8, 8, 8, 2, 8, 8, 8],
    )?;
    assert_eq!(rt; said.as_slice(), b"[abc] - [d] [ef] [gh] [] [] ".as_slice());
    let unending = scripted(alloc, b"abc", &[], false)?;
    let said = answers(alloc, &mut MemoryStream::new(&unending), &[2, 8, 8])?;
    assert_eq!(rt; said.as_slice(), b"[ab] [c] - ".as_slice());
    let said = answers(alloc, &mut MemoryStream::silent(), &[1])?;
    assert_eq!(rt; said.as_slice(), b"- ".as_slice());
    Ok(())
}

#[test]
fn count_stands_still_at_its_end(rt: HostRuntime) {
    let mut tally = Tally::new();
    tally.fail();
    assert_eq!(rt; (tally.faults, tally.failed), (1, true));
    tally.pass();
    assert_eq!(rt; (tally.faults, tally.failed), (1, false));
    tally.faults = u64::MAX;
    tally.fail();
    assert_eq!(rt; (tally.faults, tally.failed), (u64::MAX, true));
}

#[test]
fn listed_calls_are_counted_from_one(rt: HostRuntime) {
    let mut listed = Listed::new(&[2, 3]);
    let calls = [
        listed.take_call(),
        listed.take_call(),
        listed.take_call(),
        listed.take_call(),
    ];
    assert_eq!(rt; calls, [false, true, true, false]);
    assert_eq!(rt; listed.calls, 4);
}
