// Docks in memory.
ghost use Rattle.std.specs.Prelude.{◌≡◌};

use crate::said::{ROOM, put, put_accept, put_done, put_read, scripted};
use ikl_base::NoMemory;
use live_devices::{Dock, FaultyDock, MemoryDock, Script};
use std::alloc::Global;
use std::test::Fail;

// A call of a dock: a read into a buffer of so many octets, or a write of these.
#[derive(Clone, Copy)]
enum Call<'a> {
    Accept,
    Read(usize),
    Write(&'a [u8]),
    Notice(&'a [u8]),
}

// A dock of which a test sees whether a session was ever taken.
trait SeenDock: Dock {
    fn has_session(&self) -> bool
        ensures { result ≡ Self.is_taken self.now };
}

impl SeenDock for MemoryDock<'_> {
    fn has_session(&self) -> bool {
        self.is_taken
    }
}

impl SeenDock for FaultyDock<'_> {
    fn has_session(&self) -> bool {
        self.dock.is_taken
    }
}

// Adds what a call answers, or `?` where it may not be made.
fn put_answer<D: SeenDock>(
    out: &mut Vec<u8>,
    dock: &mut D,
    call: &Call<'_>,
) -> Result<(), NoMemory> {
    if let Call::Accept = call {
        return put_accept(out, dock.accept());
    }
    if !dock.has_session() {
        return put(out, b"?");
    }
    match call {
        Call::Accept => Ok(()),
        Call::Read(room) => {
            let mut buf = [0u8; ROOM];
            let piece = &mut buf[..(*room).clamp(1, ROOM)];
            let answer = dock.read(piece);
            put_read(out, answer, piece)
        }
        Call::Write(octets) => put_done(out, dock.write(octets)),
        Call::Notice(octets) => put_done(out, dock.write_notice(octets)),
    }
}

fn answers<D: SeenDock>(
    alloc: Global,
    dock: &mut D,
    calls: &[Call<'_>],
) -> Result<Vec<u8>, NoMemory> {
    let mut out = Vec::new(alloc);
    for call in calls {
        put_answer(&mut out, dock, call)?;
    }
    Ok(out)
}

// None at the first accept, then two sessions, of which the second ends.
fn coming(alloc: Global) -> Result<[Option<Script>; 3], NoMemory> {
    Ok([
        None,
        Some(scripted(alloc, b"older", &[], false)?),
        Some(scripted(alloc, b"newer", &[0], true)?),
    ])
}

#[test]
fn newer_session_takes_the_place_of_the_older(rt: HostRuntime) -> Result<(), Fail> {
    let alloc = rt.alloc();
    let coming = coming(alloc)?;
    let mut dock = MemoryDock::new(alloc, &coming, 6, 5)?;
    assert!(rt; dock.has_reply_room(6) && !dock.has_reply_room(7));
    assert!(rt; dock.has_notice_room(6) && !dock.has_notice_room(7));
    let calls = [
        Call::Accept,
        Call::Read(8),
        Call::Accept,
        Call::Read(2),
        Call::Write(b"one"),
        Call::Notice(b"note"),
        Call::Accept,
        Call::Read(8),
        Call::Read(8),
        Call::Read(8),
        Call::Accept,
        Call::Write(b"four"),
        Call::Write(b"two"),
        Call::Notice(b""),
        Call::Notice(b"s"),
        Call::Notice(b""),
    ];
    let said = answers(alloc, &mut dock, &calls)?;
    assert_eq!(rt;
        said.as_slice(),
        b"- ? + [ol] + + + - [newer] [] - ! + + + ! ".as_slice()
    );
    assert_eq!(rt; dock.replies.as_slice(), b"onetwo".as_slice());
    assert_eq!(rt; dock.notices.as_slice(), b"notes".as_slice());
    assert_eq!(rt; dock.begins.as_slice(), [(0, 0), (3, 4)].as_slice());
    assert_eq!(rt; (dock.accepts.faults, dock.tally.faults), (0, 2));
    Ok(())
}

#[test]
fn listed_calls_of_a_dock_fail(rt: HostRuntime) -> Result<(), Fail> {
    let alloc = rt.alloc();
    let coming = coming(alloc)?;
    let memory = MemoryDock::new(alloc, &coming, 6, 2)?;
    let mut dock = FaultyDock::new(memory, &[2, 4], &[1, 3, 6]);
    let calls = [
        Call::Accept,
        Call::Accept,
        Call::Accept,
        Call::Read(8),
        Call::Read(8),
        Call::Write(b"one"),
        Call::Write(b"one"),
        Call::Accept,
        Call::Notice(b"a"),
        Call::Notice(b"b"),
        Call::Write(b"no"),
    ];
    let said = answers(alloc, &mut dock, &calls)?;
    assert_eq!(rt; said.as_slice(), b"- ! + ! [older] ! + ! + ! ! ".as_slice());
    assert_eq!(rt; dock.dock.replies.as_slice(), b"one".as_slice());
    assert_eq!(rt; dock.dock.notices.as_slice(), b"a".as_slice());
    assert_eq!(rt; (dock.accepts.faults, dock.tally.faults), (2, 4));
    Ok(())
}
