// The client.
use crate::devices::{ROOM, has_written, name_of, one_dialer, repeated, stream, words_of};
use crate::texts::{DONE, NO_TUNNEL, REKEY};
use ikl_base::{MemorySink, NoMemory};
use live_commands::run_client;
use live_devices::PairScript;
use std::alloc::Global;
use std::test::Fail;

const CLIENT: &str = "client --port 1 --turns 3 rekey 9";

const BODY_CUT: &str = "HTTP/1.1 404 Not Found\r\nContent-Length: 3\r\n\r\n{}";

const BODY_TOO_LONG: &str = "HTTP/1.1 404 Not Found\r\nContent-Length: 16777217\r\n\r\n";

// What a client is told, and what is wanted of it.
#[derive(Clone, Copy)]
struct Case<'a> {
    words: &'a str,
    reply: &'a str,
    // Whether the session ends after the reply.
    ends: bool,
    // Which calls on the link fail, counted from 1.
    fails: &'a [u64],
    request: &'a str,
    line: &'a str,
}

// How the client ends, where it asks and prints what is wanted.
fn asked(alloc: Global, case: &Case<'_>) -> Result<&'static str, NoMemory> {
    let words = words_of(alloc, case.words)?;
    let coming = [PairScript {
        control: stream(alloc, repeated(alloc, case.reply, 1)?, case.ends),
        notices: stream(alloc, Vec::new(alloc), false),
    }];
    let mut dialer = one_dialer(alloc, &coming, case.fails)?;
    let mut output = MemorySink::new(alloc, ROOM, 64)?;
    let status = run_client(alloc, words.as_slice(), &mut dialer, &mut output);
    let dials = u64::from(!case.request.is_empty());
    Ok(if output.octets.as_slice() != case.line.as_bytes() {
        "another line"
    } else if !has_written(&dialer, case.request.as_bytes(), dials) {
        "another request"
    } else {
        name_of(&status)
    })
}

// Replies, whether the session ends after them, and how the client ends.
const REPLIES: [(&str, bool, &str, &str); 8] = [
    (DONE, false, "Done", "204\n"),
    (NO_TUNNEL, true, "Denied", "404 invalid-value no-tunnel\n"),
    ("HTTP/1.1 200 OK\r\n\r\n", false, "BadReply", ""),
    ("HTTP/1.1 204 No Con", true, "BadReply", ""),
    (BODY_CUT, true, "BadReply", ""),
    (BODY_TOO_LONG, false, "BadReply", ""),
    ("220 mail.example.net ESMTP\r\n\r\n", false, "BadReply", ""),
    ("", false, "TurnsSpent", ""),
];

#[test]
fn a_client_ends_as_it_is_replied_to(rt: HostRuntime) -> Result<(), Fail> {
    for (reply, ends, wanted, line) in REPLIES {
        let case = Case {
            words: CLIENT,
            reply,
            ends,
            fails: &[],
            request: REKEY,
            line,
        };
        assert_eq!(rt; (reply, asked(rt.alloc(), &case)?), (reply, wanted));
    }
    Ok(())
}

#[test]
fn a_client_without_a_link_or_a_command_asks_nothing(rt: HostRuntime) -> Result<(), Fail> {
    for (words, wanted) in [(CLIENT, "LinkFault"), ("client rekey 9", "Words")] {
        let case = Case {
            words,
            reply: DONE,
            ends: false,
            fails: &[1],
            request: "",
            line: "",
        };
        assert_eq!(rt; (words, asked(rt.alloc(), &case)?), (words, wanted));
    }
    Ok(())
}
