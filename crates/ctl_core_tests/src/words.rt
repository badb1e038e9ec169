// Lines as events.
use crate::keys::key;
use ctl_core::CtlEvent;
use ikeless_tree::{
    Action, Answer, Command, Direction, Entries, Limits, Names, Notice, Ports, Selector, SpdEntry,
    TunnelSpec,
};
use ikl_base::{Addr, Name, NoMemory, Octets, Prefix};
use std::alloc::Global;
use yang_values::read_u64;

const NONE: Limits = Limits {
    time: 0,
    bytes: 0,
    packets: 0,
    idle: 0,
};

const HOUR: Limits = Limits {
    time: 3600,
    bytes: 0,
    packets: 0,
    idle: 0,
};

/// Whether a word of a line is this text.
pub fn is(word: &[u8], text: &str) -> bool {
    word == text.as_bytes()
}

/// The words of a line.
pub fn words_of(alloc: Global, line: &str) -> Result<Vec<&[u8]>, NoMemory> {
    Ok(
        line.as_bytes()
            .split(|octet| *octet == b' ')
            .collect(alloc)?,
    )
}

fn number(word: &[u8]) -> u64 {
    match read_u64(word) {
        Ok(n) => n,
        Err(_) => 0,
    }
}

fn number_32(word: &[u8]) -> u32 {
    match u32::try_from(number(word)) {
        Ok(n) => n,
        Err(_) => 0,
    }
}

fn number_16(word: &[u8]) -> u16 {
    match u16::try_from(number(word)) {
        Ok(n) => n,
        Err(_) => 0,
    }
}

/// The number of the gateway of this letter.
pub fn gateway(word: &[u8]) -> usize {
    match word {
        [letter, ..] => usize::from(letter.saturating_sub(b'a')),
        [] => 99,
    }
}

/// From 2001:db8:1::/48 or 2001:db8:2::/48 on.
pub fn prefix(place: u8) -> Prefix {
    Prefix::of(
        Addr::V6([
            0x20, 0x01, 0x0d, 0xb8, 0, place, 0, 0, 0, 0, 0, 0, 0, 0, 0, 0,
        ]),
        48,
    )
}

fn selector(alloc: Global) -> Selector {
    Selector {
        local: prefix(1),
        remote: prefix(2),
        proto: None,
        local_ports: Ports::new(alloc),
        remote_ports: Ports::new(alloc),
    }
}

fn entry(alloc: Global, name: &[u8], reqid: u64) -> Result<SpdEntry, NoMemory> {
    Ok(SpdEntry {
        name: Name::from_slice(alloc, name)?,
        direction: Direction::Out,
        reqid,
        window: 64,
        selector: selector(alloc),
        action: Action::Protect,
    })
}

// Entries, each by its name and its `reqid`.
fn list(alloc: Global, words: &[&[u8]]) -> Result<Entries, NoMemory> {
    let mut entries = Entries::new(alloc);
    let mut name: &[u8] = b"";
    for word in words {
        if name.is_empty() {
            name = word;
        } else {
            entries.push(entry(alloc, name, number(word))?)?;
            name = b"";
        }
    }
    Ok(entries)
}

/// A tunnel between the networks of two gateways, with a soft limit of an hour.
pub fn tunnel(
    alloc: Global,
    reqid: u64,
    now: bool,
    first: &[u8],
    second: &[u8],
) -> Result<Command, NoMemory> {
    Ok(Command::Tunnel(TunnelSpec {
        reqid,
        now,
        first: Name::from_slice(alloc, first)?,
        second: Name::from_slice(alloc, second)?,
        first_prefix: prefix(1),
        second_prefix: prefix(2),
        window: 64,
        hard: NONE,
        soft: HOUR,
    }))
}

fn zeros(alloc: Global, count: u16) -> Result<Octets, NoMemory> {
    let mut octets = Vec::new(alloc);
    for _i in 0..count {
        octets.push(0)?;
    }
    Ok(Octets::from_items(octets))
}

fn numbered_key(alloc: Global, word: &[u8], salt: &[u8], long: bool) -> Result<Octets, NoMemory> {
    let [_, _, _, salt_octet] = number_32(salt).to_be_bytes();
    key(alloc, number_32(word), salt_octet, long)
}

// Keying material: of a number, with another salt, with an AES key of 32 octets, or zeros of this count.
fn key_command(alloc: Global, words: &[&[u8]]) -> Result<Option<Command>, NoMemory> {
    match words {
        [n] => Ok(Some(Command::Keys(numbered_key(alloc, n, n, false)?))),
        [what, n] => {
            if is(what, "long") {
                Ok(Some(Command::Keys(numbered_key(alloc, n, n, true)?)))
            } else if is(what, "zeros") {
                Ok(Some(Command::Keys(zeros(alloc, number_16(n))?)))
            } else {
                Ok(None)
            }
        }
        [n, what, salt] => {
            if is(what, "salt") {
                Ok(Some(Command::Keys(numbered_key(alloc, n, salt, false)?)))
            } else {
                Ok(None)
            }
        }
        _ => Ok(None),
    }
}

fn tunnel_command(alloc: Global, words: &[&[u8]]) -> Result<Option<Command>, NoMemory> {
    match words {
        [reqid, mode, first, second] => {
            let now = is(mode, "now");
            Ok(Some(tunnel(alloc, number(reqid), now, first, second)?))
        }
        _ => Ok(None),
    }
}

fn policy_command(alloc: Global, words: &[&[u8]]) -> Result<Option<Command>, NoMemory> {
    match words {
        [name, entries @ ..] => Ok(Some(Command::Policy {
            gateway: Name::from_slice(alloc, name)?,
            list: list(alloc, entries)?,
        })),
        _ => Ok(None),
    }
}

fn reqid_of(words: &[&[u8]]) -> u64 {
    match words {
        [reqid] => number(reqid),
        _ => 0,
    }
}

fn command(alloc: Global, what: &[u8], words: &[&[u8]]) -> Result<Option<Command>, NoMemory> {
    if is(what, "policy") {
        policy_command(alloc, words)
    } else if is(what, "tunnel") {
        tunnel_command(alloc, words)
    } else if is(what, "keys") {
        key_command(alloc, words)
    } else if is(what, "end") {
        Ok(Some(Command::End(reqid_of(words))))
    } else if is(what, "rekey") {
        Ok(Some(Command::Rekey(reqid_of(words))))
    } else {
        Ok(None)
    }
}

fn names(alloc: Global, words: &[&[u8]]) -> Result<Names, NoMemory> {
    let mut names = Names::new(alloc);
    for word in words {
        names.push(Name::from_slice(alloc, word)?)?;
    }
    Ok(names)
}

// A status, and the names that a reading shows.
fn answer(alloc: Global, words: &[&[u8]]) -> Result<Option<Answer>, NoMemory> {
    match words {
        [status, shown @ ..] => Ok(Some(Answer {
            status: number_16(status),
            tag: None,
            names: names(alloc, shown)?,
        })),
        _ => Ok(None),
    }
}

fn notice_of(alloc: Global, what: &[u8], of: &[u8]) -> Result<Option<Notice>, NoMemory> {
    if is(what, "acquire") {
        Ok(Some(Notice::Acquire {
            policy: Name::from_slice(alloc, of)?,
            selector: selector(alloc),
        }))
    } else if is(what, "overflow") {
        Ok(Some(Notice::SeqOverflow {
            name: Name::from_slice(alloc, of)?,
        }))
    } else if is(what, "bad-spi") {
        Ok(Some(Notice::BadSpi { spi: number_32(of) }))
    } else {
        Ok(None)
    }
}

fn expiry(alloc: Global, of: &[u8], kind: &[u8]) -> Result<Notice, NoMemory> {
    Ok(Notice::Expire {
        name: Name::from_slice(alloc, of)?,
        soft: is(kind, "soft"),
        current: HOUR,
    })
}

fn notice(alloc: Global, words: &[&[u8]]) -> Result<Option<Notice>, NoMemory> {
    match words {
        [what, of] => notice_of(alloc, what, of),
        [what, of, kind] => {
            if is(what, "expire") {
                Ok(Some(expiry(alloc, of, kind)?))
            } else {
                Ok(None)
            }
        }
        _ => Ok(None),
    }
}

fn answered(alloc: Global, at: usize, words: &[&[u8]]) -> Result<Option<CtlEvent>, NoMemory> {
    match answer(alloc, words)? {
        Some(a) => Ok(Some(CtlEvent::Answered(at, a))),
        None => Ok(None),
    }
}

fn heard(alloc: Global, at: usize, words: &[&[u8]]) -> Result<Option<CtlEvent>, NoMemory> {
    match notice(alloc, words)? {
        Some(n) => Ok(Some(CtlEvent::Noticed(at, n))),
        None => Ok(None),
    }
}

fn commanded(alloc: Global, what: &[u8], rest: &[&[u8]]) -> Result<Option<CtlEvent>, NoMemory> {
    match command(alloc, what, rest)? {
        Some(c) => Ok(Some(CtlEvent::Command(c))),
        None => Ok(None),
    }
}

fn event_of(alloc: Global, what: &[u8], rest: &[&[u8]]) -> Result<Option<CtlEvent>, NoMemory> {
    match rest {
        [at, more @ ..] => {
            if is(what, "opened") {
                Ok(Some(CtlEvent::Opened(gateway(at))))
            } else if is(what, "cut") {
                Ok(Some(CtlEvent::Cut(gateway(at))))
            } else if is(what, "answered") {
                answered(alloc, gateway(at), more)
            } else if is(what, "heard") {
                heard(alloc, gateway(at), more)
            } else {
                commanded(alloc, what, rest)
            }
        }
        [] => Ok(None),
    }
}

/// What a line tells a controller, if it is of that form.
pub fn event(alloc: Global, words: &[&[u8]]) -> Result<Option<CtlEvent>, NoMemory> {
    match words {
        [what, rest @ ..] => event_of(alloc, what, rest),
        [] => Ok(None),
    }
}
