// The controller.
ghost use Rattle.std.specs.Prelude.{◌≡◌, ℕ, length, false};
ghost use Rattle.live_devices.specs.DialerFaulty.{up_at};

use crate::devices::{ROOM, has_written, joined, name_of, one_dialer, repeated, stream, words_of};
use crate::texts::{BAD_HEAD, BAD_SPI, DONE, KEYS, NO_HALVES, NO_PATH, NO_TUNNEL, READING, REKEY};
use ikl_base::{NoMemory, OrMemory, Status};
use live_commands::run_controller;
use live_devices::{FaultyDialer, MemoryDock, PairScript};
use live_words::read_controller_words;
use std::alloc::Global;
use std::test::Fail;

const CONTROLLER: &str = "controller --commands 1 --turns 3 a=192.0.2.1=2=3";

// A session with a peer: a response and a text of the notice stream, each so many times.
type Session<'a> = (&'a str, usize, &'a str, usize);

// What comes to a controller of one peer, and what is wanted of it.
#[derive(Clone, Copy)]
struct Case<'a> {
    requests: &'a [&'a str],
    sessions: &'a [Session<'a>],
    // Which calls on the peer fail, counted from 1.
    fails: &'a [u64],
    replies: &'a [&'a str],
    written: &'a [&'a str],
    dials: u64,
}

fn pairs(alloc: Global, sessions: &[Session<'_>]) -> Result<Vec<PairScript>, NoMemory> {
    let mut pairs = Vec::new(alloc);
    for (response, answers, text, times) in sessions {
        pairs.push(PairScript {
            control: stream(alloc, repeated(alloc, response, *answers)?, false),
            notices: stream(alloc, repeated(alloc, text, *times)?, false),
        })?;
    }
    Ok(pairs)
}

// Runs a controller of one peer over this dock and dialer.
fn run(
    alloc: Global,
    dock: &mut MemoryDock<'_>,
    dialer: &mut FaultyDialer<'_>,
) -> Result<Status, NoMemory>
    requires size { length dialer.old.peers.items ≡ 1 }
    requires down { (g : ℕ) → up_at dialer.old.peers.items g ≡ false }
{
    let words = words_of(alloc, CONTROLLER)?;
    match read_controller_words(alloc, words.as_slice()) {
        Ok(w) if w.peers.as_slice().len() == 1 => {
            Ok(run_controller(alloc, words.as_slice(), dock, dialer))
        }
        Ok(_) => Ok(Status::Done),
        Err(OrMemory::Refused(_)) => Ok(Status::Words),
        Err(OrMemory::NoMemory) => Err(NoMemory),
    }
}

// Whether what was written is what a case wants.
fn are_as_wanted(
    alloc: Global,
    dock: &MemoryDock<'_>,
    dialer: &FaultyDialer<'_>,
    case: &Case<'_>,
) -> Result<bool, NoMemory> {
    let replies = joined(alloc, case.replies)?;
    let written = joined(alloc, case.written)?;
    Ok(
        dock.replies.as_slice() == replies.as_slice()
            && has_written(dialer, written.as_slice(), case.dials),
    )
}

// How a controller ends, where it writes what is wanted.
fn served(alloc: Global, case: &Case<'_>) -> Result<&'static str, NoMemory> {
    let clients = [Some(stream(alloc, joined(alloc, case.requests)?, false))];
    let coming = pairs(alloc, case.sessions)?;
    let mut dock = MemoryDock::new(alloc, &clients, ROOM, 64)?;
    let mut dialer = one_dialer(alloc, coming.as_slice(), case.fails)?;
    let status = run(alloc, &mut dock, &mut dialer)?;
    Ok(if are_as_wanted(alloc, &dock, &dialer, case)? {
        name_of(&status)
    } else {
        "other octets"
    })
}

// The requests of a client, and the replies to them.
const CLIENTS: [(&str, &[&str], &[&str]); 4] = [
    ("command", &[KEYS], &[DONE]),
    ("refused", &[REKEY, KEYS], &[NO_TUNNEL, DONE]),
    (
        "no path",
        &["POST /restconf/nothing HTTP/1.1\r\n\r\n", KEYS],
        &[NO_PATH, DONE],
    ),
    ("no request", &["GET / HTTP/1.0\r\n\r\n", KEYS], &[BAD_HEAD]),
];

// Sessions with a peer, calls on it that fail, and what is then written in how many sessions.
const PEERS: [(&str, &[Session<'static>], &[u64], &[&str], u64); 5] = [
    ("answer", &[(NO_HALVES, 1, "", 0)], &[], &[READING], 1),
    (
        "notice",
        &[(NO_HALVES, 1, BAD_SPI, 1)],
        &[],
        &[READING, READING],
        1,
    ),
    (
        "answer twice",
        &[(NO_HALVES, 2, BAD_SPI, 1)],
        &[],
        &[READING, READING],
        2,
    ),
    ("failed write", &[], &[2], &[READING], 2),
    (
        "long line",
        &[("", 0, "a", 4097)],
        &[],
        &[READING, READING],
        2,
    ),
];

#[test]
fn clients_are_replied_to(rt: HostRuntime) -> Result<(), Fail> {
    for (name, requests, replies) in CLIENTS {
        let case = Case {
            requests,
            sessions: &[],
            fails: &[],
            replies,
            written: &[READING],
            dials: 1,
        };
        assert_eq!(rt; (name, served(rt.alloc(), &case)?), (name, "TurnsSpent"));
    }
    Ok(())
}

#[test]
fn sessions_with_a_peer_go_on_or_are_cut(rt: HostRuntime) -> Result<(), Fail> {
    for (name, sessions, fails, written, dials) in PEERS {
        let case = Case {
            requests: &[],
            sessions,
            fails,
            replies: &[],
            written,
            dials,
        };
        assert_eq!(rt; (name, served(rt.alloc(), &case)?), (name, "TurnsSpent"));
    }
    Ok(())
}
