// Reads the first line of a script.
ghost use Rattle.std.specs.Prelude.{◌≡◌, ◌-◌};
ghost use Rattle.std.specs.List.{list_all};
ghost use Rattle.ikl_base.specs.Answers.{Gives};
ghost use Rattle.ikl_base.specs.Address.{is_same_address};
ghost use Rattle.line_words.specs.Parts.{texts};
ghost use Rattle.event_lines.specs.Header.{seq_last_of, gateway_in, peer_of, peers_of, go_together, all_go_together, gateways_of, header_in, header_of};

use hist_acts::Header;
use ikeless_tree::{Peer, Peers, names_gateway};
use ikl_base::{Addr, LineFault, ListOf, Name, OrMemory};
use line_words::{are_text, is_word, parts};
use std::alloc::Global;
use yang_values::{read_address, read_number};

const MOST_GATEWAYS: usize = 16;

#[tactic(auto, unfolding(crate::specs::Header::seq_last_of))]
fn seq_last(word: &[u8]) -> Result<u64, LineFault>
    ensures { result ≡ seq_last_of word.now }
{
    match read_number(word, 4_294_967_295) {
        Ok(n) if n >= 1 => Ok(n),
        _ => Err(LineFault::Header),
    }
}

#[tactic(auto, unfolding(crate::specs::Header::gateway_in))]
fn peer(alloc: Global, word: &[u8]) -> Result<Peer, OrMemory<LineFault>>
    ensures { Gives result (peer_of word.now) }
{
    match parts(alloc, word, b'=')?.as_slice() {
        [name, address] => {
            if !names_gateway(name) {
                return Err(OrMemory::Refused(LineFault::Header));
            }
            match read_address(address) {
                Ok(address) => Ok(Peer {
                    name: Name::from_slice(alloc, name)?,
                    address,
                }),
                Err(_) => Err(OrMemory::Refused(LineFault::Header)),
            }
        }
        _ => Err(OrMemory::Refused(LineFault::Header)),
    }
}

fn peers(alloc: Global, words: &[&[u8]]) -> Result<Peers, OrMemory<LineFault>>
    ensures { Gives result (peers_of (texts words.now)) }
{
    let mut list = ListOf::new(alloc);
    for word in words {
        match peer(alloc, word) {
            Ok(peer) => list.push(peer)?,
            Err(refused) => return Err(refused),
        }
    }
    Ok(list)
}

fn is_same(a: &Addr, b: &Addr) -> bool
    ensures { result ≡ is_same_address a.now b.now }
{
    match a {
        Addr::V4(x) => match b {
            Addr::V4(y) => x.as_slice() == y.as_slice(),
            Addr::V6(_) => false,
        },
        Addr::V6(x) => match b {
            Addr::V4(_) => false,
            Addr::V6(y) => x.as_slice() == y.as_slice(),
        },
    }
}

fn fit(p: &Peer, q: &Peer) -> bool
    ensures { result ≡ go_together p.now q.now }
{
    p.name.as_slice() != q.name.as_slice()
        && !is_same(&p.address, &q.address)
        && p.address.is_same_family(&q.address)
}

fn fits_all(p: &Peer, others: &[Peer]) -> bool
    ensures { result ≡ list_all (go_together p.now) others.now }
{
    others.iter().all(|q| fit(p, q))
}

fn all_fit(peers: &[Peer]) -> bool
    ensures { result ≡ all_go_together peers.now }
{
    match peers {
        [] => true,
        [first, others @ ..] => fits_all(first, others) && all_fit(others),
    }
}

#[tactic(auto, unfolding(crate::specs::Header::gateways_of))]
fn gateways(alloc: Global, words: &[&[u8]]) -> Result<Peers, OrMemory<LineFault>>
    ensures { Gives result (gateways_of (texts words.now)) }
{
    if words.is_empty() || words.len() > MOST_GATEWAYS {
        return Err(OrMemory::Refused(LineFault::Header));
    }
    let list = peers(alloc, words)?;
    if all_fit(list.as_slice()) {
        Ok(list)
    } else {
        Err(OrMemory::Refused(LineFault::Header))
    }
}

#[tactic(auto, unfolding(crate::specs::Header::header_in))]
fn header(alloc: Global, words: &[&[u8]]) -> Result<Header, OrMemory<LineFault>>
    ensures { Gives result (header_in (texts words.now)) }
{
    match words {
        [world, last, number, names @ ..] => {
            if !is_word(world, b"world") || !is_word(last, b"seq-last") {
                return Err(OrMemory::Refused(LineFault::Header));
            }
            let seq_last = seq_last(number)?;
            let gateways = gateways(alloc, names)?;
            Ok(Header { seq_last, gateways })
        }
        _ => Err(OrMemory::Refused(LineFault::Header)),
    }
}

/// The header that the first line is, without its LF, or the reason why it is none.
#[tactic(auto, unfolding(crate::specs::Header::header_of))]
pub fn read_header(alloc: Global, line: &[u8]) -> Result<Header, OrMemory<LineFault>>
    ensures { Gives result (header_of line.now) }
{
    if !are_text(line) {
        return Err(OrMemory::Refused(LineFault::Octet));
    }
    header(alloc, parts(alloc, line, b' ')?.as_slice())
}
