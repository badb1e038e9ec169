// Reads the words of sessions: orders, answers and notices.
ghost use Rattle.std.specs.Prelude.{◌≡◌};
ghost use Rattle.ikl_base.specs.Answers.{Gives};
ghost use Rattle.line_words.specs.Parts.{texts};
ghost use Rattle.line_words.specs.Words.{each, half_name_of};
ghost use Rattle.script_lines.specs.Session.{place_of, listed_in, read_in, put_in, remove_of, remove_in, order_of, tag_of, names_of, answer_of, replied_of, replied_in, is_whole, has_proto, is_one_port, is_packet, policy_name_of, acquire_of, acquire_in, soft_of, expire_of, expire_in, overflow_of, overflow_in, bad_spi_in, notice_of, noticed_of, noticed_in};

use ikeless_tree::{
    Answer, Names, Notice, Order, Peers, Range, Selector, Tag, check_spd, names_policy,
    softness_named,
};
use ikl_base::{Addr, LineFault, ListOf, Name, OrMemory, Prefix};
use line_words::{
    MOST_ENTRIES, entries, half, half_name, is_word, known, limits, parts, selector_from, u16_from,
    u32_from, u64_from,
};
use std::alloc::Global;

/// A request in a session of a gateway.
#[derive(Debug, Drop)]
pub struct Place {
    pub gateway: Name,
    pub session: u32,
    pub request: u64,
}

/// The answer to a request.
#[derive(Debug, Drop)]
pub struct Replied {
    pub place: Place,
    pub answer: Answer,
}

/// A notice in a session of a gateway.
#[derive(Debug, Drop)]
pub struct Noticed {
    pub gateway: Name,
    pub session: u32,
    pub notice: Notice,
}

/// A gateway, the number of its session, and that of a request in it.
#[tactic(auto, unfolding(crate::specs::Session::place_of))]
pub fn place_from(
    alloc: Global,
    gateways: &Peers,
    name: &[u8],
    session: &[u8],
    request: &[u8],
) -> Result<Place, OrMemory<LineFault>>
    ensures { Gives result (place_of gateways.now name.now session.now request.now) }
{
    let gateway = known(alloc, gateways, name)?;
    let session = u32_from(LineFault::Number, session)?;
    let request = u64_from(LineFault::Number, request)?;
    Ok(Place {
        gateway,
        session,
        request,
    })
}

#[tactic(auto, unfolding(crate::specs::Session::listed_in))]
fn listed(alloc: Global, words: &[&[u8]]) -> Result<Order, OrMemory<LineFault>>
    ensures { Gives result (listed_in (texts words.now)) }
{
    if words.len() > MOST_ENTRIES {
        return Err(OrMemory::Refused(LineFault::Count));
    }
    let list = entries(alloc, words)?;
    match check_spd(&list) {
        Ok(()) => Ok(Order::Policy(list)),
        Err(_) => Err(OrMemory::Refused(LineFault::Entry)),
    }
}

#[tactic(auto, unfolding(crate::specs::Session::read_in))]
fn reading(words: &[&[u8]]) -> Result<Order, LineFault>
    ensures { result ≡ read_in (texts words.now) }
{
    match words {
        [] => Ok(Order::Read),
        _ => Err(LineFault::Count),
    }
}

#[tactic(auto, unfolding(crate::specs::Session::put_in))]
fn putting(alloc: Global, words: &[&[u8]]) -> Result<Order, OrMemory<LineFault>>
    ensures { Gives result (put_in (texts words.now)) }
{
    match words {
        [word] => {
            let entry = half(alloc, word)?;
            Ok(Order::Put(entry))
        }
        _ => Err(OrMemory::Refused(LineFault::Count)),
    }
}

#[tactic(auto, unfolding(crate::specs::Session::remove_of))]
fn removal_of(alloc: Global, word: &[u8]) -> Result<Order, OrMemory<LineFault>>
    ensures { Gives result (remove_of word.now) }
{
    let name = half_name(alloc, word)?;
    Ok(Order::Remove(name))
}

#[tactic(auto, unfolding(crate::specs::Session::remove_in))]
fn removal(alloc: Global, words: &[&[u8]]) -> Result<Order, OrMemory<LineFault>>
    ensures { Gives result (remove_in (texts words.now)) }
{
    match words {
        [word] => removal_of(alloc, word),
        _ => Err(OrMemory::Refused(LineFault::Count)),
    }
}

/// What a controller orders, by its first word and those after it.
#[tactic(auto, unfolding(crate::specs::Session::order_of))]
pub fn order_from(alloc: Global, first: &[u8], rest: &[&[u8]]) -> Result<Order, OrMemory<LineFault>>
    ensures { Gives result (order_of first.now (texts rest.now)) }
{
    if is_word(first, b"read") {
        Ok(reading(rest)?)
    } else if is_word(first, b"policy") {
        listed(alloc, rest)
    } else if is_word(first, b"put") {
        putting(alloc, rest)
    } else if is_word(first, b"remove") {
        removal(alloc, rest)
    } else {
        Err(OrMemory::Refused(LineFault::Word))
    }
}

#[tactic(auto, unfolding(crate::specs::Session::tag_of))]
fn tag_from(word: &[u8]) -> Result<Option<Tag>, LineFault>
    ensures { result ≡ tag_of word.now }
{
    if is_word(word, b"-") {
        return Ok(None);
    }
    match Tag::named(word) {
        Some(tag) => Ok(Some(tag)),
        None => Err(LineFault::Word),
    }
}

fn half_names(alloc: Global, words: &[&[u8]]) -> Result<Names, OrMemory<LineFault>>
    ensures { Gives result (each half_name_of (texts words.now)) }
{
    let mut list = ListOf::new(alloc);
    for word in words {
        match half_name(alloc, word) {
            Ok(name) => list.push(name)?,
            Err(refused) => return Err(refused),
        }
    }
    Ok(list)
}

#[tactic(auto, unfolding(crate::specs::Session::names_of))]
fn names_from(alloc: Global, word: &[u8]) -> Result<Names, OrMemory<LineFault>>
    ensures { Gives result (names_of word.now) }
{
    if is_word(word, b"-") {
        return Ok(ListOf::new(alloc));
    }
    half_names(alloc, parts(alloc, word, b',')?.as_slice())
}

#[tactic(auto, unfolding(crate::specs::Session::answer_of))]
fn answer_from(
    alloc: Global,
    status: &[u8],
    says: &[u8],
    halves: &[u8],
) -> Result<Answer, OrMemory<LineFault>>
    ensures { Gives result (answer_of status.now says.now halves.now) }
{
    let status = u16_from(LineFault::Number, status)?;
    let tag = tag_from(says)?;
    let names = names_from(alloc, halves)?;
    Ok(Answer { status, tag, names })
}

#[tactic(auto, unfolding(crate::specs::Session::replied_of))]
fn replied_at(
    alloc: Global,
    gateways: &Peers,
    at: (&[u8], &[u8], &[u8]),
    says: (&[u8], &[u8], &[u8]),
) -> Result<Replied, OrMemory<LineFault>>
    ensures { Gives result (replied_of gateways.now at.entry.0.now at.entry.1.now at.entry.2.now says.entry.0.now says.entry.1.now
        says.entry.2.now) }
{
    let place = place_from(alloc, gateways, at.0, at.1, at.2)?;
    let answer = answer_from(alloc, says.0, says.1, says.2)?;
    Ok(Replied { place, answer })
}

/// The place of a request, and the answer to it.
#[tactic(auto, unfolding(crate::specs::Session::replied_in))]
pub fn replied_from(
    alloc: Global,
    gateways: &Peers,
    words: &[&[u8]],
) -> Result<Replied, OrMemory<LineFault>>
    ensures { Gives result (replied_in gateways.now (texts words.now)) }
{
    match words {
        [name, session, request, status, says, halves] => replied_at(
            alloc,
            gateways,
            (name, session, request),
            (status, says, halves),
        ),
        _ => Err(OrMemory::Refused(LineFault::Count)),
    }
}

fn covers_one(prefix: &Prefix) -> bool
    ensures { result ≡ is_whole prefix.now }
{
    match prefix.addr {
        Addr::V4(_) => prefix.len == 32,
        Addr::V6(_) => prefix.len == 128,
    }
}

fn names_proto(proto: Option<u8>) -> bool
    ensures { result ≡ has_proto proto }
{
    match proto {
        None => false,
        Some(_) => true,
    }
}

fn names_one_port(ranges: &[Range]) -> bool
    ensures { result ≡ is_one_port ranges.now }
{
    match ranges {
        [] => true,
        [range] => range.start == range.end,
        _ => false,
    }
}

#[tactic(auto, unfolding(crate::specs::Session::is_packet))]
fn selects_one(selector: &Selector) -> bool
    ensures { result ≡ is_packet selector.now }
{
    covers_one(&selector.local)
        && covers_one(&selector.remote)
        && selector.local.addr.is_same_family(&selector.remote.addr)
        && names_proto(selector.proto)
        && names_one_port(selector.local_ports.as_slice())
        && names_one_port(selector.remote_ports.as_slice())
}

fn policy_name(alloc: Global, word: &[u8]) -> Result<Name, OrMemory<LineFault>>
    ensures { Gives result (policy_name_of word.now) }
{
    if names_policy(word) {
        Ok(Name::from_slice(alloc, word)?)
    } else {
        Err(OrMemory::Refused(LineFault::Entry))
    }
}

#[tactic(auto, unfolding(crate::specs::Session::acquire_of))]
fn acquired(alloc: Global, name: &[u8], word: &[u8]) -> Result<Notice, OrMemory<LineFault>>
    ensures { Gives result (acquire_of name.now word.now) }
{
    let policy = policy_name(alloc, name)?;
    let selector = selector_from(alloc, parts(alloc, word, b',')?.as_slice())?;
    if selects_one(&selector) {
        Ok(Notice::Acquire { policy, selector })
    } else {
        Err(OrMemory::Refused(LineFault::Entry))
    }
}

#[tactic(auto, unfolding(crate::specs::Session::acquire_in))]
fn acquire_from(alloc: Global, words: &[&[u8]]) -> Result<Notice, OrMemory<LineFault>>
    ensures { Gives result (acquire_in (texts words.now)) }
{
    match words {
        [name, word] => acquired(alloc, name, word),
        _ => Err(OrMemory::Refused(LineFault::Count)),
    }
}

fn softness(word: &[u8]) -> Result<bool, LineFault>
    ensures { result ≡ soft_of word.now }
{
    match softness_named(word) {
        Some(soft) => Ok(soft),
        None => Err(LineFault::Word),
    }
}

#[tactic(auto, unfolding(crate::specs::Session::expire_of))]
fn expired(
    alloc: Global,
    name: &[u8],
    limit: &[u8],
    counts: &[u8],
) -> Result<Notice, OrMemory<LineFault>>
    ensures { Gives result (expire_of name.now limit.now counts.now) }
{
    let name = half_name(alloc, name)?;
    let soft = softness(limit)?;
    let current = limits(alloc, LineFault::Limits, counts)?;
    Ok(Notice::Expire {
        name,
        soft,
        current,
    })
}

#[tactic(auto, unfolding(crate::specs::Session::expire_in))]
fn expire_from(alloc: Global, words: &[&[u8]]) -> Result<Notice, OrMemory<LineFault>>
    ensures { Gives result (expire_in (texts words.now)) }
{
    match words {
        [name, limit, counts] => expired(alloc, name, limit, counts),
        _ => Err(OrMemory::Refused(LineFault::Count)),
    }
}

#[tactic(auto, unfolding(crate::specs::Session::overflow_of))]
fn overflowed(alloc: Global, name: &[u8]) -> Result<Notice, OrMemory<LineFault>>
    ensures { Gives result (overflow_of name.now) }
{
    let name = half_name(alloc, name)?;
    Ok(Notice::SeqOverflow { name })
}

#[tactic(auto, unfolding(crate::specs::Session::overflow_in))]
fn overflow_from(alloc: Global, words: &[&[u8]]) -> Result<Notice, OrMemory<LineFault>>
    ensures { Gives result (overflow_in (texts words.now)) }
{
    match words {
        [name] => overflowed(alloc, name),
        _ => Err(OrMemory::Refused(LineFault::Count)),
    }
}

#[tactic(auto, unfolding(crate::specs::Session::bad_spi_in))]
fn bad_spi_from(words: &[&[u8]]) -> Result<Notice, LineFault>
    ensures { result ≡ bad_spi_in (texts words.now) }
{
    match words {
        [spi] => {
            let spi = u32_from(LineFault::Number, spi)?;
            Ok(Notice::BadSpi { spi })
        }
        _ => Err(LineFault::Count),
    }
}

#[tactic(auto, unfolding(crate::specs::Session::notice_of))]
fn notice_from(alloc: Global, first: &[u8], rest: &[&[u8]]) -> Result<Notice, OrMemory<LineFault>>
    ensures { Gives result (notice_of first.now (texts rest.now)) }
{
    if is_word(first, b"acquire") {
        acquire_from(alloc, rest)
    } else if is_word(first, b"expire") {
        expire_from(alloc, rest)
    } else if is_word(first, b"overflow") {
        overflow_from(alloc, rest)
    } else if is_word(first, b"bad-spi") {
        Ok(bad_spi_from(rest)?)
    } else {
        Err(OrMemory::Refused(LineFault::Word))
    }
}

#[tactic(auto, unfolding(crate::specs::Session::noticed_of))]
fn noticed_at(
    alloc: Global,
    gateways: &Peers,
    at: (&[u8], &[u8]),
    first: &[u8],
    rest: &[&[u8]],
) -> Result<Noticed, OrMemory<LineFault>>
    ensures { Gives result (noticed_of gateways.now at.entry.0.now at.entry.1.now first.now (texts rest.now)) }
{
    let gateway = known(alloc, gateways, at.0)?;
    let session = u32_from(LineFault::Number, at.1)?;
    let notice = notice_from(alloc, first, rest)?;
    Ok(Noticed {
        gateway,
        session,
        notice,
    })
}

/// A gateway, the number of its session, and a notice.
#[tactic(auto, unfolding(crate::specs::Session::noticed_in))]
pub fn noticed_from(
    alloc: Global,
    gateways: &Peers,
    words: &[&[u8]],
) -> Result<Noticed, OrMemory<LineFault>>
    ensures { Gives result (noticed_in gateways.now (texts words.now)) }
{
    match words {
        [name, session, first, rest @ ..] => {
            noticed_at(alloc, gateways, (name, session), first, rest)
        }
        _ => Err(OrMemory::Refused(LineFault::Count)),
    }
}
