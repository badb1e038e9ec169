// Dialers in memory.
ghost use Rattle.std.specs.Prelude.{◌≡◌, ◌<◌, true};

use crate::said::{ROOM, put, put_done, put_read, scripted};
use ikl_base::NoMemory;
use live_devices::{Dialer, FaultyDialer, FaultyPeer, MemoryDialer, MemoryPeer, PairScript};
use std::alloc::Global;
use std::test::Fail;

// A call on a peer: a read into a buffer of so many octets, or a write of these.
#[derive(Clone, Copy)]
enum Call<'a> {
    Dial,
    Read(usize),
    Notice(usize),
    Write(&'a [u8]),
    HangUp,
}

// A dialer of which a test sees how many peers there are and which are up.
trait SeenDialer: Dialer {
    fn count(&self) -> usize
        ensures { result ≡ Self.peers self.now };

    fn has_session(&self, g: usize) -> bool
        requires { g < Self.peers self.now }
        ensures { result ≡ Self.is_up self.now g };
}

impl SeenDialer for MemoryDialer<'_> {
    fn count(&self) -> usize {
        self.peers.len()
    }

    fn has_session(&self, g: usize) -> bool {
        self.peers[g].is_up
    }
}

impl SeenDialer for FaultyDialer<'_> {
    fn count(&self) -> usize {
        self.peers.len()
    }

    fn has_session(&self, g: usize) -> bool {
        self.peers[g].peer.is_up
    }
}

// Adds what a call on a peer that is up answers.
fn put_up<L: SeenDialer>(
    out: &mut Vec<u8>,
    dialer: &mut L,
    g: usize,
    call: &Call<'_>,
) -> Result<(), NoMemory>
    requires known { g < L.peers dialer.old }
    requires up { L.is_up dialer.old g ≡ true }
{
    let mut buf = [0u8; ROOM];
    match call {
        Call::Dial => put(out, b"?"),
        Call::Read(room) => {
            let piece = &mut buf[..(*room).clamp(1, ROOM)];
            let answer = dialer.read(g, piece);
            put_read(out, answer, piece)
        }
        Call::Notice(room) => {
            let piece = &mut buf[..(*room).clamp(1, ROOM)];
            let answer = dialer.read_notice(g, piece);
            put_read(out, answer, piece)
        }
        Call::Write(octets) => put_done(out, dialer.write(g, octets)),
        Call::HangUp => {
            dialer.hang_up(g);
            put(out, b".")
        }
    }
}

// Adds what a call on a peer answers, or `?` where it may not be made.
fn put_answer<L: SeenDialer>(
    out: &mut Vec<u8>,
    dialer: &mut L,
    g: usize,
    call: &Call<'_>,
) -> Result<(), NoMemory> {
    if g >= dialer.count() {
        return put(out, b"?");
    }
    if dialer.has_session(g) {
        return put_up(out, dialer, g, call);
    }
    match call {
        Call::Dial => put_done(out, dialer.dial(g)),
        _ => put(out, b"?"),
    }
}

fn answers<L: SeenDialer>(
    alloc: Global,
    dialer: &mut L,
    calls: &[(usize, Call<'_>)],
) -> Result<Vec<u8>, NoMemory> {
    let mut out = Vec::new(alloc);
    for (g, call) in calls {
        put_answer(&mut out, dialer, *g, call)?;
    }
    Ok(out)
}

fn pair(
    alloc: Global,
    control: &[u8],
    notices: &[u8],
    there: &[usize],
) -> Result<PairScript, NoMemory> {
    Ok(PairScript {
        control: scripted(alloc, control, there, true)?,
        notices: scripted(alloc, notices, &[], false)?,
    })
}

// A session of which two octets are there at first, and one without a notice.
fn coming(alloc: Global) -> Result<[PairScript; 2], NoMemory> {
    Ok([
        pair(alloc, b"first", b"note", &[2])?,
        pair(alloc, b"again", b"", &[])?,
    ])
}

// Two peers from which these sessions come, the second with more room.
fn memory_dialer<'a>(
    alloc: Global,
    near: &'a [PairScript],
    far: &'a [PairScript],
) -> Result<MemoryDialer<'a>, NoMemory> {
    let mut peers = Vec::new(alloc);
    peers.push(MemoryPeer::new(alloc, near, 4, 1)?)?;
    peers.push(MemoryPeer::new(alloc, far, 6, 3)?)?;
    Ok(MemoryDialer { peers })
}

// One peer of which these calls fail.
fn faulty_dialer<'a>(
    alloc: Global,
    coming: &'a [PairScript],
    fails: &'a [u64],
) -> Result<FaultyDialer<'a>, NoMemory> {
    let memory = MemoryPeer::new(alloc, coming, 4, 3)?;
    let mut peers = Vec::new(alloc);
    peers.push(FaultyPeer::new(memory, fails))?;
    Ok(FaultyDialer { peers })
}

#[test]
fn each_peer_has_its_own_sessions(rt: HostRuntime) -> Result<(), Fail> {
    let alloc = rt.alloc();
    let coming = coming(alloc)?;
    let mut dialer = memory_dialer(alloc, &[], &coming)?;
    let calls = [
        (1, Call::Read(8)),
        (1, Call::Dial),
        (1, Call::Read(8)),
        (1, Call::Notice(8)),
        (1, Call::Notice(8)),
        (1, Call::Write(b"abc")),
        (0, Call::Dial),
        (0, Call::Read(8)),
        (0, Call::Write(b"01234")),
        (0, Call::Write(b"0123")),
        (1, Call::HangUp),
        (1, Call::Read(8)),
        (1, Call::Dial),
        (1, Call::Read(8)),
        (1, Call::Read(8)),
        (1, Call::Write(b"defg")),
        (1, Call::Write(b"de")),
        (1, Call::Write(b"")),
        (1, Call::Write(b"")),
    ];
    let said = answers(alloc, &mut dialer, &calls)?;
    assert_eq!(rt;
        said.as_slice(),
        b"? + [fi] [note] - + + - ! + . ? + [again] [] ! + + ! ".as_slice()
    );
    assert_eq!(rt; dialer.peers.len(), 2);
    assert_eq!(rt; dialer.peers[0].written.as_slice(), b"0123".as_slice());
    assert_eq!(rt; dialer.peers[1].written.as_slice(), b"abcde".as_slice());
    assert_eq!(rt;
        dialer.peers[1].pieces.as_slice(),
        [(1, 3), (2, 2), (2, 0)].as_slice()
    );
    Ok(())
}

#[test]
fn listed_calls_on_a_peer_fail(rt: HostRuntime) -> Result<(), Fail> {
    let alloc = rt.alloc();
    let coming = coming(alloc)?;
    let mut dialer = faulty_dialer(alloc, &coming, &[1, 3, 5, 7])?;
    let calls = [
        (0, Call::Dial),
        (0, Call::Dial),
        (0, Call::Read(8)),
        (0, Call::Read(8)),
        (0, Call::Notice(8)),
        (0, Call::Notice(8)),
        (0, Call::Write(b"ab")),
        (0, Call::Write(b"abcde")),
        (0, Call::Write(b"ab")),
        (0, Call::HangUp),
        (0, Call::Dial),
        (0, Call::Read(8)),
    ];
    let said = answers(alloc, &mut dialer, &calls)?;
    assert_eq!(rt;
        said.as_slice(),
        b"! + ! [fi] ! [note] ! ! + . + [again] ".as_slice()
    );
    assert_eq!(rt; dialer.peers.len(), 1);
    assert_eq!(rt; dialer.peers[0].peer.written.as_slice(), b"ab".as_slice());
    assert_eq!(rt; dialer.peers[0].tally.faults, 5);
    Ok(())
}
