// Reads the words of `controller`.
ghost use Rattle.std.specs.Prelude.{◌≡◌, ◌++◌, ◌∷◌, IfOk, map};
ghost use Rattle.ikl_base.specs.Answers.{Gives};
ghost use Rattle.clap.specs.Words.{found_of, rows_of};
ghost use Rattle.line_words.specs.Parts.{texts};
ghost use Rattle.line_words.specs.Words.{each};
ghost use Rattle.event_lines.specs.Header.{header_of};
ghost use Rattle.live_words.specs.Apps.{controller_app};
ghost use Rattle.live_words.specs.Values.{matched, GivesRows, Reads};
ghost use Rattle.live_words.specs.Controller.{place_in, place_of, naming_line, named_peers, peering_of, peering_in, peering_at, controller_in, controller_words_of};

use crate::apps::controller_command;
use crate::matching::{BadWords, begin_with, match_words, texts_at};
use crate::values::{count_named, port, port_named};
use clap::ArgMatches;
use event_lines::read_header;
use hist_acts::Header;
use ikeless_tree::Peers;
use ikl_base::{LineFault, ListOf, NoMemory, Octets, OrMemory};
use line_words::{parts, put, put_octet, put_word};
use std::alloc::Global;

/// The ports of a gateway's two streams, on 127.0.0.1.
#[derive(Clone, Copy, Debug, PartialEq, Eq)]
pub struct Link {
    pub control: u16,
    pub notice: u16,
}

/// The links of gateways, in order.
pub type Links = ListOf<Link>;

/// What `controller` is told: its port for commands, how many turns it takes, and the gateways with their links.
#[derive(Debug, Drop)]
pub struct ControllerWords {
    pub commands: u16,
    pub turns: u64,
    pub peers: Peers,
    pub links: Links,
}

/// How a header names a gateway, and its link.
#[derive(Debug, Drop)]
pub struct Place {
    pub front: Octets,
    pub link: Link,
}

/// The gateways and their links.
#[derive(Debug, Drop)]
pub struct Peering {
    pub peers: Peers,
    pub links: Links,
}

// A name and an address, as a header has them.
fn front(alloc: Global, name: &[u8], address: &[u8]) -> Result<Octets, NoMemory>
    ensures { IfOk result (λ front. front ≡ name.now ++ 61 ∷ address.now) }
{
    let mut out = Vec::new(alloc);
    put(&mut out, name)?;
    put_octet(&mut out, b'=')?;
    put(&mut out, address)?;
    Ok(Octets::from_items(out))
}

#[tactic(auto, unfolding(crate::specs::Controller::place_in))]
fn place_from(alloc: Global, words: &[&[u8]]) -> Result<Place, OrMemory<LineFault>>
    ensures { Gives result (place_in (texts words.now)) }
{
    match words {
        [name, address, control, notice] => {
            let control = port(control)?;
            let notice = port(notice)?;
            let front = front(alloc, name, address)?;
            let link = Link { control, notice };
            Ok(Place { front, link })
        }
        _ => Err(OrMemory::Refused(LineFault::Word)),
    }
}

fn read_place(alloc: Global, word: &[u8]) -> Result<Place, OrMemory<LineFault>>
    ensures { Gives result (place_of word.now) }
{
    place_from(alloc, parts(alloc, word, b'=')?.as_slice())
}

fn read_places(alloc: Global, words: &[&str]) -> Result<ListOf<Place>, OrMemory<LineFault>>
    ensures { Gives result (each place_of (texts words.now)) }
{
    let mut list = ListOf::new(alloc);
    for word in words {
        match read_place(alloc, word.as_bytes()) {
            Ok(place) => list.push(place)?,
            Err(refused) => return Err(refused),
        }
    }
    Ok(list)
}

// The first line of a script that names these gateways.
fn line_naming(alloc: Global, places: &[Place]) -> Result<Vec<u8>, NoMemory>
    ensures { IfOk result (λ line. line.items ≡ naming_line places.now) }
{
    let mut line = Vec::new(alloc);
    put(&mut line, b"world seq-last 1")?;
    for place in places {
        put_word(&mut line, place.front.as_slice())?;
    }
    Ok(line)
}

fn header_naming(alloc: Global, places: &[Place]) -> Result<Header, OrMemory<LineFault>>
    ensures { Gives result (header_of (naming_line places.now)) }
{
    let line = line_naming(alloc, places)?;
    read_header(alloc, line.as_slice())
}

fn peers_at(alloc: Global, places: &[Place]) -> Result<Peers, OrMemory<LineFault>>
    ensures { Gives result (named_peers places.now) }
{
    let header = header_naming(alloc, places)?;
    Ok(header.gateways)
}

fn links_at(alloc: Global, places: &[Place]) -> Result<Links, NoMemory>
    ensures { IfOk result (λ links. links ≡ map (λ p. p.link) places.now) }
{
    let mut links = ListOf::new(alloc);
    for place in places {
        links.push(place.link)?;
    }
    Ok(links)
}

#[tactic(auto, unfolding(crate::specs::Controller::peering_of))]
fn join(alloc: Global, places: &[Place]) -> Result<Peering, OrMemory<LineFault>>
    ensures { Gives result (peering_of places.now) }
{
    let peers = peers_at(alloc, places)?;
    let links = links_at(alloc, places)?;
    Ok(Peering { peers, links })
}

#[tactic(auto, unfolding(crate::specs::Controller::peering_in))]
fn read_peering(alloc: Global, words: &[&str]) -> Result<Peering, OrMemory<LineFault>>
    ensures { Gives result (peering_in (texts words.now)) }
{
    let places = read_places(alloc, words)?;
    join(alloc, places.as_slice())
}

fn peering_named(alloc: Global, matches: &ArgMatches<'_>) -> Result<Peering, OrMemory<LineFault>>
    ensures { Gives result (peering_at (rows_of (found_of matches.now))) }
{
    match texts_at(matches, "peers") {
        Some(words) => read_peering(alloc, words),
        None => Err(OrMemory::Refused(LineFault::Count)),
    }
}

#[tactic(auto, unfolding(crate::specs::Controller::controller_in))]
fn controller(
    alloc: Global,
    matches: &ArgMatches<'_>,
) -> Result<ControllerWords, OrMemory<LineFault>>
    ensures { Gives result (controller_in (rows_of (found_of matches.now))) }
{
    let commands = port_named(matches, "commands")?;
    let turns = count_named(matches, "turns")?;
    let peering = peering_named(alloc, matches)?;
    Ok(ControllerWords {
        commands,
        turns,
        peers: peering.peers,
        links: peering.links,
    })
}

fn matches_of<'a>(alloc: Global, words: &'a [String]) -> Result<ArgMatches<'a>, OrMemory<LineFault>>
    ensures { GivesRows result (matched controller_app words.entry.now) }
{
    match controller_command(alloc) {
        Ok(command) => match_words(command, words),
        Err(_) => Err(OrMemory::NoMemory),
    }
}

fn stated(alloc: Global, words: &[String]) -> Result<ControllerWords, OrMemory<LineFault>>
    ensures { Gives result (controller_words_of words.now) }
{
    if !begin_with(words, b"controller") {
        return Err(OrMemory::Refused(LineFault::Word));
    }
    match matches_of(alloc, words) {
        Ok(matches) => controller(alloc, &matches),
        Err(refused) => Err(refused),
    }
}

/// Reads the words of `controller`, its name first. `BadWords`: they aren't the command's.
pub fn read_controller_words(
    alloc: Global,
    words: &[String],
) -> Result<ControllerWords, OrMemory<BadWords>>
    ensures { Reads result (controller_words_of words.now) }
{
    match stated(alloc, words) {
        Ok(value) => Ok(value),
        Err(OrMemory::NoMemory) => Err(OrMemory::NoMemory),
        Err(OrMemory::Refused(_)) => Err(OrMemory::Refused(BadWords)),
    }
}
