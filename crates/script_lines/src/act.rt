// Reads the lines of a transcript.
ghost use Rattle.std.specs.Prelude.{◌≡◌};
ghost use Rattle.ikl_base.specs.Answers.{Gives};
ghost use Rattle.hist_acts.specs.declared.act.Act.TheVariants as acts;
ghost use Rattle.line_words.specs.Parts.{texts};
ghost use Rattle.script_lines.specs.Act.{why_of, gone_of, refusal_of, force_in, put_at, put_in, packet_in, sealed_of, sealed_in, drop_in, gone_at, gone_in, opening_in, shown_of, under_way_at, under_way_in, refused_in, order_at, order_in, session_act_in, base_act_in, packet_act_in, act_in, spelling_fault, as_spelled, act_of};

use crate::session::{Replied, noticed_from, order_from, place_from, replied_from};
use crate::write::put_act;
use event_lines::{known_alone, reqid, time};
use hist_acts::{Act, Header};
use ikeless_tree::{DropWhy, GoneWhy, Peers, Refusal, check_spd};
use ikl_base::{LineFault, Name, Octets, OrMemory};
use line_words::{
    MOST_ENTRIES, are_text, entries, half, half_name, is_word, known, lane, octets, parts,
    u32_from, u64_from,
};
use std::alloc::Global;

/// The most octets of a lane that are shown.
const MOST_SHOWN: usize = 4096;

fn why(word: &[u8]) -> Result<DropWhy, LineFault>
    ensures { result ≡ why_of word.now }
{
    match DropWhy::named(word) {
        Some(why) => Ok(why),
        None => Err(LineFault::Word),
    }
}

fn end(word: &[u8]) -> Result<GoneWhy, LineFault>
    ensures { result ≡ gone_of word.now }
{
    match GoneWhy::named(word) {
        Some(why) => Ok(why),
        None => Err(LineFault::Word),
    }
}

fn refusal(word: &[u8]) -> Result<Refusal, LineFault>
    ensures { result ≡ refusal_of word.now }
{
    match Refusal::named(word) {
        Some(why) => Ok(why),
        None => Err(LineFault::Word),
    }
}

#[tactic(auto, unfolding(crate::specs::Act::force_in))]
fn force(alloc: Global, gateways: &Peers, words: &[&[u8]]) -> Result<Act, OrMemory<LineFault>>
    ensures { Gives result (force_in gateways.now (texts words.now)) }
{
    match words {
        [] => Err(OrMemory::Refused(LineFault::Count)),
        [name, list @ ..] => {
            if list.len() > MOST_ENTRIES {
                return Err(OrMemory::Refused(LineFault::Count));
            }
            let name = known(alloc, gateways, name)?;
            let list = entries(alloc, list)?;
            match check_spd(&list) {
                Ok(()) => Ok(Act::Policy(name, list)),
                Err(_) => Err(OrMemory::Refused(LineFault::Entry)),
            }
        }
    }
}

/// Octets at a gateway.
#[derive(Debug, Drop)]
pub struct Packet {
    pub gateway: Name,
    pub octets: Octets,
}

#[tactic(auto, unfolding(crate::specs::Act::packet_in))]
fn packet_from(
    alloc: Global,
    gateways: &Peers,
    words: &[&[u8]],
) -> Result<Packet, OrMemory<LineFault>>
    ensures { Gives result (packet_in gateways.now (texts words.now)) }
{
    match words {
        [name, hex] => {
            let gateway = known(alloc, gateways, name)?;
            let octets = octets(alloc, hex)?;
            Ok(Packet { gateway, octets })
        }
        _ => Err(OrMemory::Refused(LineFault::Count)),
    }
}

/// Octets at a gateway, sealed under a half with this number.
#[derive(Debug, Drop)]
pub struct Sealed {
    pub gateway: Name,
    pub half: Name,
    pub number: u64,
    pub octets: Octets,
}

#[tactic(auto, unfolding(crate::specs::Act::sealed_of))]
fn sealed_at(
    alloc: Global,
    gateways: &Peers,
    at: (&[u8], &[u8]),
    number: &[u8],
    hex: &[u8],
) -> Result<Sealed, OrMemory<LineFault>>
    ensures { Gives result (sealed_of gateways.now at.entry.0.now at.entry.1.now number.now hex.now) }
{
    let gateway = known(alloc, gateways, at.0)?;
    let half = half_name(alloc, at.1)?;
    let number = u64_from(LineFault::Number, number)?;
    let octets = octets(alloc, hex)?;
    Ok(Sealed {
        gateway,
        half,
        number,
        octets,
    })
}

#[tactic(auto, unfolding(crate::specs::Act::sealed_in))]
fn sealed_from(
    alloc: Global,
    gateways: &Peers,
    words: &[&[u8]],
) -> Result<Sealed, OrMemory<LineFault>>
    ensures { Gives result (sealed_in gateways.now (texts words.now)) }
{
    match words {
        [name, half, number, hex] => sealed_at(alloc, gateways, (name, half), number, hex),
        _ => Err(OrMemory::Refused(LineFault::Count)),
    }
}

#[tactic(auto, unfolding(crate::specs::Act::drop_in))]
fn dropped(alloc: Global, gateways: &Peers, words: &[&[u8]]) -> Result<Act, OrMemory<LineFault>>
    ensures { Gives result (drop_in gateways.now (texts words.now)) }
{
    match words {
        [name, says] => {
            let name = known(alloc, gateways, name)?;
            let why = why(says)?;
            Ok(Act::Drop(name, why))
        }
        _ => Err(OrMemory::Refused(LineFault::Count)),
    }
}

#[tactic(auto, unfolding(crate::specs::Act::put_at))]
fn installed(
    alloc: Global,
    gateways: &Peers,
    name: &[u8],
    word: &[u8],
) -> Result<Act, OrMemory<LineFault>>
    ensures { Gives result (put_at gateways.now name.now word.now) }
{
    let name = known(alloc, gateways, name)?;
    let entry = half(alloc, word)?;
    Ok(Act::Put(name, entry))
}

#[tactic(auto, unfolding(crate::specs::Act::put_in))]
fn installed_from(
    alloc: Global,
    gateways: &Peers,
    words: &[&[u8]],
) -> Result<Act, OrMemory<LineFault>>
    ensures { Gives result (put_in gateways.now (texts words.now)) }
{
    match words {
        [name, word] => installed(alloc, gateways, name, word),
        _ => Err(OrMemory::Refused(LineFault::Count)),
    }
}

#[tactic(auto, unfolding(crate::specs::Act::gone_at))]
fn gone_from(
    alloc: Global,
    gateways: &Peers,
    name: &[u8],
    half: &[u8],
    says: &[u8],
) -> Result<Act, OrMemory<LineFault>>
    ensures { Gives result (gone_at gateways.now name.now half.now says.now) }
{
    let name = known(alloc, gateways, name)?;
    let half = half_name(alloc, half)?;
    let why = end(says)?;
    Ok(Act::Gone(name, half, why))
}

#[tactic(auto, unfolding(crate::specs::Act::gone_in))]
fn gone(alloc: Global, gateways: &Peers, words: &[&[u8]]) -> Result<Act, OrMemory<LineFault>>
    ensures { Gives result (gone_in gateways.now (texts words.now)) }
{
    match words {
        [name, half, says] => gone_from(alloc, gateways, name, half, says),
        _ => Err(OrMemory::Refused(LineFault::Count)),
    }
}

/// A session of a gateway.
#[derive(Debug, Drop)]
pub struct Opening {
    pub gateway: Name,
    pub session: u32,
}

#[tactic(auto, unfolding(crate::specs::Act::opening_in))]
fn session_from(
    alloc: Global,
    gateways: &Peers,
    words: &[&[u8]],
) -> Result<Opening, OrMemory<LineFault>>
    ensures { Gives result (opening_in gateways.now (texts words.now)) }
{
    match words {
        [name, session] => {
            let gateway = known(alloc, gateways, name)?;
            let session = u32_from(LineFault::Number, session)?;
            Ok(Opening { gateway, session })
        }
        _ => Err(OrMemory::Refused(LineFault::Count)),
    }
}

fn shown(alloc: Global, word: &[u8]) -> Result<Octets, OrMemory<LineFault>>
    ensures { Gives result (shown_of word.now) }
{
    let octets = octets(alloc, word)?;
    if octets.as_slice().len() <= MOST_SHOWN {
        Ok(octets)
    } else {
        Err(OrMemory::Refused(LineFault::Hex))
    }
}

#[tactic(auto, unfolding(crate::specs::Act::under_way_at))]
fn under_way_from(
    alloc: Global,
    gateways: &Peers,
    name: &[u8],
    way: &[u8],
    hex: &[u8],
) -> Result<Act, OrMemory<LineFault>>
    ensures { Gives result (under_way_at gateways.now name.now way.now hex.now) }
{
    let name = known(alloc, gateways, name)?;
    let lane = lane(way)?;
    let octets = shown(alloc, hex)?;
    Ok(Act::Wire(name, lane, octets))
}

#[tactic(auto, unfolding(crate::specs::Act::under_way_in))]
fn under_way(alloc: Global, gateways: &Peers, words: &[&[u8]]) -> Result<Act, OrMemory<LineFault>>
    ensures { Gives result (under_way_in gateways.now (texts words.now)) }
{
    match words {
        [name, way, hex] => under_way_from(alloc, gateways, name, way, hex),
        _ => Err(OrMemory::Refused(LineFault::Count)),
    }
}

#[tactic(auto, unfolding(crate::specs::Act::refused_in))]
fn refused(words: &[&[u8]]) -> Result<Act, LineFault>
    ensures { result ≡ refused_in (texts words.now) }
{
    match words {
        [says] => {
            let why = refusal(says)?;
            Ok(Act::Refused(why))
        }
        _ => Err(LineFault::Count),
    }
}

#[tactic(auto, unfolding(crate::specs::Act::order_at))]
fn ordered(
    alloc: Global,
    gateways: &Peers,
    at: (&[u8], &[u8], &[u8]),
    first: &[u8],
    rest: &[&[u8]],
) -> Result<Act, OrMemory<LineFault>>
    ensures { Gives result (order_at gateways.now at.entry.0.now at.entry.1.now at.entry.2.now first.now (texts rest.now)) }
{
    let place = place_from(alloc, gateways, at.0, at.1, at.2)?;
    let order = order_from(alloc, first, rest)?;
    Ok(Act::Order(place.gateway, place.session, place.request, order))
}

#[tactic(auto, unfolding(crate::specs::Act::order_in))]
fn ordered_from(
    alloc: Global,
    gateways: &Peers,
    words: &[&[u8]],
) -> Result<Act, OrMemory<LineFault>>
    ensures { Gives result (order_in gateways.now (texts words.now)) }
{
    match words {
        [name, session, request, first, rest @ ..] => {
            ordered(alloc, gateways, (name, session, request), first, rest)
        }
        _ => Err(OrMemory::Refused(LineFault::Count)),
    }
}

fn handled(replied: Replied) -> Act
    ensures { result ≡ acts.Handled replied.place.gateway replied.place.session replied.place.request replied.answer }
{
    let place = replied.place;
    Act::Handled(place.gateway, place.session, place.request, replied.answer)
}

fn answered(replied: Replied) -> Act
    ensures { result ≡ acts.Answered replied.place.gateway replied.place.session replied.place.request replied.answer }
{
    let place = replied.place;
    Act::Answered(place.gateway, place.session, place.request, replied.answer)
}

#[tactic(auto, unfolding(crate::specs::Act::session_act_in))]
fn session_act(
    alloc: Global,
    gateways: &Peers,
    first: &[u8],
    rest: &[&[u8]],
) -> Result<Act, OrMemory<LineFault>>
    ensures { Gives result (session_act_in gateways.now first.now (texts rest.now)) }
{
    if is_word(first, b"order") {
        ordered_from(alloc, gateways, rest)
    } else if is_word(first, b"handled") {
        Ok(handled(replied_from(alloc, gateways, rest)?))
    } else if is_word(first, b"answered") {
        Ok(answered(replied_from(alloc, gateways, rest)?))
    } else if is_word(first, b"notice") {
        let noticed = noticed_from(alloc, gateways, rest)?;
        Ok(Act::Notice(noticed.gateway, noticed.session, noticed.notice))
    } else if is_word(first, b"heard") {
        let noticed = noticed_from(alloc, gateways, rest)?;
        Ok(Act::Heard(noticed.gateway, noticed.session, noticed.notice))
    } else {
        Err(OrMemory::Refused(LineFault::Word))
    }
}

#[tactic(auto, unfolding(crate::specs::Act::base_act_in))]
fn base_act(
    alloc: Global,
    gateways: &Peers,
    first: &[u8],
    rest: &[&[u8]],
) -> Result<Act, OrMemory<LineFault>>
    ensures { Gives result (base_act_in gateways.now first.now (texts rest.now)) }
{
    if is_word(first, b"policy") {
        force(alloc, gateways, rest)
    } else if is_word(first, b"put") {
        installed_from(alloc, gateways, rest)
    } else if is_word(first, b"gone") {
        gone(alloc, gateways, rest)
    } else if is_word(first, b"opened") {
        let opened = session_from(alloc, gateways, rest)?;
        Ok(Act::Opened(opened.gateway, opened.session))
    } else if is_word(first, b"cut") {
        let cut = session_from(alloc, gateways, rest)?;
        Ok(Act::Cut(cut.gateway, cut.session))
    } else if is_word(first, b"wire") {
        under_way(alloc, gateways, rest)
    } else if is_word(first, b"refused") {
        Ok(refused(rest)?)
    } else {
        session_act(alloc, gateways, first, rest)
    }
}

#[tactic(auto, unfolding(crate::specs::Act::packet_act_in))]
fn packet_act(
    alloc: Global,
    gateways: &Peers,
    first: &[u8],
    rest: &[&[u8]],
) -> Result<Act, OrMemory<LineFault>>
    ensures { Gives result (packet_act_in gateways.now first.now (texts rest.now)) }
{
    if is_word(first, b"let") {
        let packet = packet_from(alloc, gateways, rest)?;
        Ok(Act::Let(packet.gateway, packet.octets))
    } else if is_word(first, b"clear") {
        let packet = packet_from(alloc, gateways, rest)?;
        Ok(Act::Clear(packet.gateway, packet.octets))
    } else if is_word(first, b"arrived") {
        let packet = packet_from(alloc, gateways, rest)?;
        Ok(Act::Arrived(packet.gateway, packet.octets))
    } else if is_word(first, b"pass") {
        let packet = packet_from(alloc, gateways, rest)?;
        Ok(Act::Pass(packet.gateway, packet.octets))
    } else {
        base_act(alloc, gateways, first, rest)
    }
}

#[tactic(auto, unfolding(crate::specs::Act::act_in))]
fn act(alloc: Global, gateways: &Peers, words: &[&[u8]]) -> Result<Act, OrMemory<LineFault>>
    ensures { Gives result (act_in gateways.now (texts words.now)) }
{
    match words {
        [] => Err(OrMemory::Refused(LineFault::Word)),
        [first, rest @ ..] => {
            if is_word(first, b"@") {
                Ok(Act::Took(reqid(rest)?))
            } else if is_word(first, b"now") {
                Ok(Act::Now(time(rest)?))
            } else if is_word(first, b"boot") {
                Ok(Act::Boot(known_alone(alloc, gateways, rest)?))
            } else if is_word(first, b"sent") {
                let sent = sealed_from(alloc, gateways, rest)?;
                Ok(Act::Sent(sent.gateway, sent.half, sent.number, sent.octets))
            } else if is_word(first, b"gave") {
                let gave = sealed_from(alloc, gateways, rest)?;
                Ok(Act::Gave(gave.gateway, gave.half, gave.number, gave.octets))
            } else if is_word(first, b"drop") {
                dropped(alloc, gateways, rest)
            } else {
                packet_act(alloc, gateways, first, rest)
            }
        }
    }
}

// The kind of the words of an act that may be spelled in another way.
fn misspelled(act: &Act) -> LineFault
    ensures { result ≡ spelling_fault act.now }
{
    match act {
        Act::Policy(_, _)
        | Act::Put(_, _)
        | Act::Order(_, _, _, _)
        | Act::Notice(_, _, _)
        | Act::Heard(_, _, _) => LineFault::Entry,
        Act::Let(_, _)
        | Act::Sent(_, _, _, _)
        | Act::Clear(_, _)
        | Act::Arrived(_, _)
        | Act::Gave(_, _, _, _)
        | Act::Pass(_, _)
        | Act::Wire(_, _, _) => LineFault::Hex,
        _ => LineFault::Word,
    }
}

#[tactic(auto, unfolding(crate::specs::Act::as_spelled))]
fn if_spelled(alloc: Global, line: &[u8], act: Act) -> Result<Act, OrMemory<LineFault>>
    ensures { Gives result (as_spelled line.now act) }
{
    let mut text = Vec::new(alloc);
    put_act(&mut text, &act)?;
    if is_word(text.as_slice(), line) {
        Ok(act)
    } else {
        Err(OrMemory::Refused(misspelled(&act)))
    }
}

/// The act whose text a line is, without its LF, or the first reason why it is no act's text.
#[tactic(auto, unfolding(crate::specs::Act::act_of))]
pub fn read_act(alloc: Global, h: &Header, line: &[u8]) -> Result<Act, OrMemory<LineFault>>
    ensures { Gives result (act_of h.now.gateways line.now) }
{
    if !are_text(line) {
        return Err(OrMemory::Refused(LineFault::Octet));
    }
    let act = act(alloc, &h.gateways, parts(alloc, line, b' ')?.as_slice())?;
    if_spelled(alloc, line, act)
}
