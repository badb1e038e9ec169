// Reads the words that stand for policies.
ghost use Rattle.std.specs.Prelude.{◌≡◌, ◌-◌, ◌<◌};
ghost use Rattle.ikl_base.specs.Answers.{Gives};
ghost use Rattle.line_words.specs.Parts.{texts};
ghost use Rattle.line_words.specs.Entry.{direction_of, action_of, proto_of, range_in, range_of, ranges_of, ports_of, selector_of, use_of, selector_in, entry_in, entry_of, entries_of};

use crate::cutting::{is_word, parts};
use crate::words::{prefix_from, u8_from, u16_from, u64_from};
use ikeless_tree::{Action, Direction, Entries, Ports, Range, Selector, SpdEntry};
use ikl_base::{LineFault, ListOf, Name, OrMemory};
use std::alloc::Global;

/// The most entries of a list.
pub const MOST_ENTRIES: usize = 256;

const WINDOW: u32 = 64;

const MOST_RANGES: usize = 8;

fn direction(word: &[u8]) -> Result<Direction, LineFault>
    ensures { result ≡ direction_of word.now }
{
    match Direction::named(word) {
        Some(direction) => Ok(direction),
        None => Err(LineFault::Entry),
    }
}

fn action(word: &[u8]) -> Result<Action, LineFault>
    ensures { result ≡ action_of word.now }
{
    match Action::named(word) {
        Some(action) => Ok(action),
        None => Err(LineFault::Entry),
    }
}

#[tactic(auto, unfolding(crate::specs::Entry::proto_of))]
fn proto(word: &[u8]) -> Result<Option<u8>, LineFault>
    ensures { result ≡ proto_of word.now }
{
    if is_word(word, b"any") {
        return Ok(None);
    }
    let n = u8_from(LineFault::Entry, word, 255)?;
    Ok(Some(n))
}

#[tactic(auto, unfolding(crate::specs::Entry::range_in))]
fn range(alloc: Global, word: &[u8]) -> Result<Range, OrMemory<LineFault>>
    ensures { Gives result (range_of word.now) }
{
    match parts(alloc, word, b'-')?.as_slice() {
        [start, end] => {
            let start = u16_from(LineFault::Entry, start)?;
            let end = u16_from(LineFault::Entry, end)?;
            Ok(Range { start, end })
        }
        _ => Err(OrMemory::Refused(LineFault::Entry)),
    }
}

fn ranges(alloc: Global, words: &[&[u8]]) -> Result<Ports, OrMemory<LineFault>>
    ensures { Gives result (ranges_of (texts words.now)) }
{
    let mut list = ListOf::new(alloc);
    for word in words {
        match range(alloc, word) {
            Ok(range) => list.push(range)?,
            Err(refused) => return Err(refused),
        }
    }
    Ok(list)
}

#[tactic(auto, unfolding(crate::specs::Entry::ports_of))]
fn ports(alloc: Global, word: &[u8]) -> Result<Ports, OrMemory<LineFault>>
    ensures { Gives result (ports_of word.now) }
{
    if is_word(word, b"any") {
        return Ok(ListOf::new(alloc));
    }
    let words = parts(alloc, word, b'+')?;
    if words.len() > MOST_RANGES {
        return Err(OrMemory::Refused(LineFault::Entry));
    }
    ranges(alloc, words.as_slice())
}

/// The selector of two prefixes, a protocol and two lists of ports.
#[tactic(auto, unfolding(crate::specs::Entry::selector_of))]
pub fn selector(
    alloc: Global,
    prefixes: (&[u8], &[u8]),
    protocol: &[u8],
    both_ports: (&[u8], &[u8]),
) -> Result<Selector, OrMemory<LineFault>>
    ensures { Gives result (selector_of prefixes.entry.0.now prefixes.entry.1.now protocol.now both_ports.entry.0.now
        both_ports.entry.1.now) }
{
    let local = prefix_from(LineFault::Entry, prefixes.0)?;
    let remote = prefix_from(LineFault::Entry, prefixes.1)?;
    let proto = proto(protocol)?;
    let local_ports = ports(alloc, both_ports.0)?;
    let remote_ports = ports(alloc, both_ports.1)?;
    Ok(Selector {
        local,
        remote,
        proto,
        local_ports,
        remote_ports,
    })
}

/// What an entry is used for: a direction, the number that names its associations, and an action.
#[derive(Clone, Copy, Debug)]
pub struct Use {
    pub direction: Direction,
    pub reqid: u64,
    pub action: Action,
}

#[tactic(auto, unfolding(crate::specs::Entry::use_of))]
fn purpose(way: &[u8], reqid: &[u8], says: &[u8]) -> Result<Use, LineFault>
    ensures { result ≡ use_of way.now reqid.now says.now }
{
    let direction = direction(way)?;
    let reqid = u64_from(LineFault::Entry, reqid)?;
    let action = action(says)?;
    Ok(Use {
        direction,
        reqid,
        action,
    })
}

/// The selector that five parts stand for.
#[tactic(auto, unfolding(crate::specs::Entry::selector_in))]
pub fn selector_from(alloc: Global, words: &[&[u8]]) -> Result<Selector, OrMemory<LineFault>>
    ensures { Gives result (selector_in (texts words.now)) }
{
    match words {
        [local, remote, protocol, near, far] => {
            selector(alloc, (local, remote), protocol, (near, far))
        }
        _ => Err(OrMemory::Refused(LineFault::Entry)),
    }
}

#[tactic(auto, unfolding(crate::specs::Entry::entry_in))]
fn entry_from(alloc: Global, words: &[&[u8]]) -> Result<SpdEntry, OrMemory<LineFault>>
    ensures { Gives result (entry_in (texts words.now)) }
{
    match words {
        [name, way, reqid, says, rest @ ..] => {
            let purpose = purpose(way, reqid, says)?;
            let selector = selector_from(alloc, rest)?;
            Ok(SpdEntry {
                name: Name::from_slice(alloc, name)?,
                direction: purpose.direction,
                reqid: purpose.reqid,
                window: WINDOW,
                selector,
                action: purpose.action,
            })
        }
        _ => Err(OrMemory::Refused(LineFault::Entry)),
    }
}

fn entry(alloc: Global, word: &[u8]) -> Result<SpdEntry, OrMemory<LineFault>>
    ensures { Gives result (entry_of word.now) }
{
    entry_from(alloc, parts(alloc, word, b',')?.as_slice())
}

/// The entries that words stand for, or the refusal of the first that stands for none.
pub fn entries(alloc: Global, words: &[&[u8]]) -> Result<Entries, OrMemory<LineFault>>
    ensures { Gives result (entries_of (texts words.now)) }
{
    let mut list = ListOf::new(alloc);
    for word in words {
        match entry(alloc, word) {
            Ok(entry) => list.push(entry)?,
            Err(refused) => return Err(refused),
        }
    }
    Ok(list)
}
