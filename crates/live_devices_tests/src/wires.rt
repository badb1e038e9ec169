// Wires in memory.
use crate::said::{ROOM, put_done, put_read};
use ikl_base::{NoMemory, Octets};
use live_devices::{FaultyWire, MemoryWire, Wire};
use std::alloc::Global;
use std::test::Fail;

// A call of a wire: into a buffer of so many octets, or with this datagram.
#[derive(Clone, Copy)]
enum Call<'a> {
    Recv(usize),
    Send(&'a [u8]),
}

fn answers<W: Wire>(alloc: Global, wire: &mut W, calls: &[Call<'_>]) -> Result<Vec<u8>, NoMemory> {
    let mut out = Vec::new(alloc);
    for call in calls {
        match call {
            Call::Recv(room) => {
                let mut buf = [0u8; ROOM];
                let piece = &mut buf[..(*room).min(ROOM)];
                let answer = wire.recv(piece);
                put_read(&mut out, answer, piece)?;
            }
            Call::Send(datagram) => put_done(&mut out, wire.send(datagram))?,
        }
    }
    Ok(out)
}

// A datagram of five octets, then a gap, then an empty datagram and one of eight octets.
fn coming(alloc: Global) -> Result<[Option<Octets>; 4], NoMemory> {
    Ok([
        Some(Octets::from_slice(alloc, b"hello")?),
        None,
        Some(Octets::from_slice(alloc, b"")?),
        Some(Octets::from_slice(alloc, b"datagram")?),
    ])
}

#[test]
fn datagrams_go_as_far_as_there_is_room(rt: HostRuntime) -> Result<(), Fail> {
    let alloc = rt.alloc();
    let coming = coming(alloc)?;
    let mut wire = MemoryWire::new(alloc, &coming, 8, 3)?;
    assert!(rt; wire.has_room(8) && !wire.has_room(9));
    let calls = [
        Call::Recv(8),
        Call::Recv(8),
        Call::Recv(8),
        Call::Recv(4),
        Call::Recv(8),
        Call::Send(b"abc"),
        Call::Send(b""),
        Call::Send(b"defghi"),
        Call::Send(b"defgh"),
        Call::Send(b""),
    ];
    let said = answers(alloc, &mut wire, &calls)?;
    assert_eq!(rt;
        said.as_slice(),
        b"[hello] - [] [data] - + + ! + ! ".as_slice()
    );
    assert_eq!(rt; wire.sent.as_slice(), b"abcdefgh".as_slice());
    assert_eq!(rt; wire.sizes.as_slice(), [3, 0, 5].as_slice());
    assert_eq!(rt; wire.tally.faults, 2);
    Ok(())
}

#[test]
fn listed_calls_of_a_wire_fail(rt: HostRuntime) -> Result<(), Fail> {
    let alloc = rt.alloc();
    let coming = coming(alloc)?;
    let memory = MemoryWire::new(alloc, &coming, 4, 3)?;
    let mut wire = FaultyWire::new(memory, &[1, 4, 7]);
    let calls = [
        Call::Recv(8),
        Call::Recv(8),
        Call::Recv(8),
        Call::Recv(8),
        Call::Recv(8),
        Call::Send(b"ab"),
        Call::Send(b"c"),
        Call::Send(b"cde"),
        Call::Send(b"cd"),
    ];
    let said = answers(alloc, &mut wire, &calls)?;
    assert_eq!(rt; said.as_slice(), b"! [hello] - ! [] + ! ! + ".as_slice());
    assert_eq!(rt; wire.wire.sent.as_slice(), b"abcd".as_slice());
    assert_eq!(rt; (wire.tally.faults, wire.listed.calls), (4, 9));
    Ok(())
}
