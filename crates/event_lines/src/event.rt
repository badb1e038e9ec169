// Reads the lines of a script after its header.
ghost use Rattle.std.specs.Prelude.{◌≡◌};
ghost use Rattle.ikl_base.specs.Answers.{Gives};
ghost use Rattle.line_words.specs.Parts.{texts};
ghost use Rattle.event_lines.specs.Event.{policy_in, let_in, is_numbered, from_one, sent_of, arrive_of, ttl_of, flip_of, arrive_in, time_in, gateway_in, wire_in, reqid_in, keys_in, command_in, session_in, event_in, event_of};

use crate::tunnel::tunnel;
use hist_acts::{Event, Header};
use ikeless_tree::{Peers, check_spd};
use ikl_base::{LineFault, Name, OrMemory};
use line_words::{
    MOST_ENTRIES, are_text, entries, gateway, is_word, known, lane, octets, parts, u8_from,
    u32_from, u64_from,
};
use std::alloc::Global;

#[tactic(auto, unfolding(crate::specs::Event::policy_in))]
fn policy(alloc: Global, words: &[&[u8]]) -> Result<Event, OrMemory<LineFault>>
    ensures { Gives result (policy_in (texts words.now)) }
{
    match words {
        [] => Err(OrMemory::Refused(LineFault::Count)),
        [name, list @ ..] => {
            if list.len() > MOST_ENTRIES {
                return Err(OrMemory::Refused(LineFault::Count));
            }
            let name = gateway(alloc, name)?;
            let list = entries(alloc, list)?;
            match check_spd(&list) {
                Ok(()) => Ok(Event::Policy(name, list)),
                Err(_) => Err(OrMemory::Refused(LineFault::Entry)),
            }
        }
    }
}

#[tactic(auto, unfolding(crate::specs::Event::let_in))]
fn packet(alloc: Global, gateways: &Peers, words: &[&[u8]]) -> Result<Event, OrMemory<LineFault>>
    ensures { Gives result (let_in gateways.now (texts words.now)) }
{
    match words {
        [name, hex] => {
            let name = known(alloc, gateways, name)?;
            let octets = octets(alloc, hex)?;
            Ok(Event::Let(name, octets))
        }
        _ => Err(OrMemory::Refused(LineFault::Count)),
    }
}

fn has_number(word: &[u8]) -> bool
    ensures { result ≡ is_numbered word.now }
{
    match word {
        [] => false,
        [mark, ..] => *mark == b'#',
    }
}

fn counted(word: &[u8]) -> Result<u64, LineFault>
    ensures { result ≡ from_one word.now }
{
    match u64_from(LineFault::Number, word) {
        Ok(k) if k >= 1 => Ok(k),
        _ => Err(LineFault::Number),
    }
}

// Which of the datagrams sent a word names.
fn sent(word: &[u8]) -> Result<u64, LineFault>
    ensures { result ≡ sent_of word.now }
{
    match word {
        [] => Err(LineFault::Word),
        [mark, digits @ ..] => {
            if *mark == b'#' {
                counted(digits)
            } else {
                Err(LineFault::Word)
            }
        }
    }
}

#[tactic(auto, unfolding(crate::specs::Event::arrive_of))]
fn arrival(
    alloc: Global,
    gateways: &Peers,
    name: &[u8],
    word: &[u8],
) -> Result<Event, OrMemory<LineFault>>
    ensures { Gives result (arrive_of gateways.now name.now word.now) }
{
    let name = known(alloc, gateways, name)?;
    if has_number(word) {
        let k = sent(word)?;
        return Ok(Event::ArriveSent(name, k));
    }
    let octets = octets(alloc, word)?;
    Ok(Event::Arrive(name, octets))
}

#[tactic(auto, unfolding(crate::specs::Event::ttl_of))]
fn with_ttl(
    alloc: Global,
    gateways: &Peers,
    at: (&[u8], &[u8]),
    how: &[u8],
    ttl: &[u8],
) -> Result<Event, OrMemory<LineFault>>
    ensures { Gives result (ttl_of gateways.now at.entry.0.now at.entry.1.now how.now ttl.now) }
{
    let name = known(alloc, gateways, at.0)?;
    let k = sent(at.1)?;
    if !is_word(how, b"ttl") {
        return Err(OrMemory::Refused(LineFault::Word));
    }
    let ttl = u8_from(LineFault::Number, ttl, 255)?;
    Ok(Event::ArriveTtl(name, k, ttl))
}

#[tactic(auto, unfolding(crate::specs::Event::flip_of))]
fn with_flip(
    alloc: Global,
    gateways: &Peers,
    at: (&[u8], &[u8]),
    how: &[u8],
    place: (&[u8], &[u8]),
) -> Result<Event, OrMemory<LineFault>>
    ensures { Gives result (flip_of gateways.now at.entry.0.now at.entry.1.now how.now place.entry.0.now place.entry.1.now) }
{
    let name = known(alloc, gateways, at.0)?;
    let k = sent(at.1)?;
    if !is_word(how, b"flip") {
        return Err(OrMemory::Refused(LineFault::Word));
    }
    let offset = u64_from(LineFault::Number, place.0)?;
    let bit = u8_from(LineFault::Number, place.1, 7)?;
    Ok(Event::ArriveFlip(name, k, offset, bit))
}

#[tactic(auto, unfolding(crate::specs::Event::arrive_in))]
fn arrive(alloc: Global, gateways: &Peers, words: &[&[u8]]) -> Result<Event, OrMemory<LineFault>>
    ensures { Gives result (arrive_in gateways.now (texts words.now)) }
{
    match words {
        [name, word] => arrival(alloc, gateways, name, word),
        [name, number, how, ttl] => with_ttl(alloc, gateways, (name, number), how, ttl),
        [name, number, how, offset, bit] => {
            with_flip(alloc, gateways, (name, number), how, (offset, bit))
        }
        _ => Err(OrMemory::Refused(LineFault::Count)),
    }
}

/// Seconds, alone.
#[tactic(auto, unfolding(crate::specs::Event::time_in))]
pub fn time(words: &[&[u8]]) -> Result<u32, LineFault>
    ensures { result ≡ time_in (texts words.now) }
{
    match words {
        [t] => u32_from(LineFault::Number, t),
        _ => Err(LineFault::Count),
    }
}

/// The name of one of the gateways, alone.
#[tactic(auto, unfolding(crate::specs::Event::gateway_in))]
pub fn known_alone(
    alloc: Global,
    gateways: &Peers,
    words: &[&[u8]],
) -> Result<Name, OrMemory<LineFault>>
    ensures { Gives result (gateway_in gateways.now (texts words.now)) }
{
    match words {
        [name] => known(alloc, gateways, name),
        _ => Err(OrMemory::Refused(LineFault::Count)),
    }
}

#[tactic(auto, unfolding(crate::specs::Event::wire_in))]
fn wire(alloc: Global, gateways: &Peers, words: &[&[u8]]) -> Result<Event, OrMemory<LineFault>>
    ensures { Gives result (wire_in gateways.now (texts words.now)) }
{
    match words {
        [name, word] => {
            let name = known(alloc, gateways, name)?;
            let lane = lane(word)?;
            Ok(Event::Wire(name, lane))
        }
        _ => Err(OrMemory::Refused(LineFault::Count)),
    }
}

/// A uint64, alone.
#[tactic(auto, unfolding(crate::specs::Event::reqid_in))]
pub fn reqid(words: &[&[u8]]) -> Result<u64, LineFault>
    ensures { result ≡ reqid_in (texts words.now) }
{
    match words {
        [reqid] => u64_from(LineFault::Number, reqid),
        _ => Err(LineFault::Count),
    }
}

#[tactic(auto, unfolding(crate::specs::Event::keys_in))]
fn keys(alloc: Global, words: &[&[u8]]) -> Result<Event, OrMemory<LineFault>>
    ensures { Gives result (keys_in (texts words.now)) }
{
    match words {
        [hex] => {
            let octets = octets(alloc, hex)?;
            Ok(Event::Keys(octets))
        }
        _ => Err(OrMemory::Refused(LineFault::Count)),
    }
}

#[tactic(auto, unfolding(crate::specs::Event::command_in))]
fn command(alloc: Global, first: &[u8], rest: &[&[u8]]) -> Result<Event, OrMemory<LineFault>>
    ensures { Gives result (command_in first.now (texts rest.now)) }
{
    if is_word(first, b"policy") {
        policy(alloc, rest)
    } else if is_word(first, b"tunnel") {
        tunnel(alloc, rest)
    } else if is_word(first, b"end") {
        Ok(Event::End(reqid(rest)?))
    } else if is_word(first, b"rekey") {
        Ok(Event::Rekey(reqid(rest)?))
    } else if is_word(first, b"keys") {
        keys(alloc, rest)
    } else {
        Err(OrMemory::Refused(LineFault::Word))
    }
}

#[tactic(auto, unfolding(crate::specs::Event::session_in))]
fn session(
    alloc: Global,
    gateways: &Peers,
    first: &[u8],
    rest: &[&[u8]],
) -> Result<Event, OrMemory<LineFault>>
    ensures { Gives result (session_in gateways.now first.now (texts rest.now)) }
{
    if is_word(first, b"open") {
        Ok(Event::Open(known_alone(alloc, gateways, rest)?))
    } else if is_word(first, b"cut") {
        Ok(Event::Cut(known_alone(alloc, gateways, rest)?))
    } else if is_word(first, b"down") {
        Ok(Event::Down(known_alone(alloc, gateways, rest)?))
    } else if is_word(first, b"up") {
        Ok(Event::Up(known_alone(alloc, gateways, rest)?))
    } else if is_word(first, b"note") {
        Ok(Event::Note(known_alone(alloc, gateways, rest)?))
    } else {
        command(alloc, first, rest)
    }
}

#[tactic(auto, unfolding(crate::specs::Event::event_in))]
fn event(alloc: Global, gateways: &Peers, words: &[&[u8]]) -> Result<Event, OrMemory<LineFault>>
    ensures { Gives result (event_in gateways.now (texts words.now)) }
{
    match words {
        [] => Err(OrMemory::Refused(LineFault::Word)),
        [first, rest @ ..] => {
            if is_word(first, b"let") {
                packet(alloc, gateways, rest)
            } else if is_word(first, b"arrive") {
                arrive(alloc, gateways, rest)
            } else if is_word(first, b"now") {
                Ok(Event::Now(time(rest)?))
            } else if is_word(first, b"boot") {
                Ok(Event::Boot(known_alone(alloc, gateways, rest)?))
            } else if is_word(first, b"wire") {
                wire(alloc, gateways, rest)
            } else {
                session(alloc, gateways, first, rest)
            }
        }
    }
}

/// The event that a line after the header says, without its LF, or the first reason why it says none.
#[tactic(auto, unfolding(crate::specs::Event::event_of))]
pub fn read_event(alloc: Global, h: &Header, line: &[u8]) -> Result<Event, OrMemory<LineFault>>
    ensures { Gives result (event_of h.now.gateways line.now) }
{
    if !are_text(line) {
        return Err(OrMemory::Refused(LineFault::Octet));
    }
    event(alloc, &h.gateways, parts(alloc, line, b' ')?.as_slice())
}
