// Reads the words that stand for halves.
ghost use Rattle.std.specs.Prelude.{◌≡◌};
ghost use Rattle.ikl_base.specs.Answers.{Gives};
ghost use Rattle.line_words.specs.Parts.{texts};
ghost use Rattle.line_words.specs.Half.{df_of, end_of, key_of, half_numbers_of, half_tunnel_of, half_keys_of, half_keys_in, half_rest_of, half_rest_in, half_from, half_in, half_of};

use crate::cutting::parts;
use crate::entry::selector;
use crate::lifetimes::{Lifetimes, lifetimes_from};
use crate::words::{u32_from, u64_from};
use ikeless_tree::{Df, SadEntry, Selector, check_sad};
use ikl_base::{Addr, LineFault, Name, Octets, OrMemory};
use std::alloc::Global;
use yang_values::{read_address, read_digits};

/// The number of its policy, its SPI and its window.
#[derive(Clone, Copy, Debug)]
pub struct HalfNumbers {
    pub reqid: u64,
    pub spi: u32,
    pub window: u32,
}

/// The ends of its tunnel, and where the DF bit comes from.
#[derive(Clone, Copy, Debug)]
pub struct HalfTunnel {
    pub local: Addr,
    pub remote: Addr,
    pub df: Df,
}

/// How its datagrams are sealed, where they go, and how long.
#[derive(Debug, Drop)]
pub struct HalfKeys {
    pub key: Octets,
    pub tunnel: HalfTunnel,
    pub lifetimes: Lifetimes,
}

/// What it takes, and how.
#[derive(Debug, Drop)]
pub struct HalfRest {
    pub selector: Selector,
    pub keys: HalfKeys,
}

fn df(word: &[u8]) -> Result<Df, LineFault>
    ensures { result ≡ df_of word.now }
{
    match Df::named(word) {
        Some(df) => Ok(df),
        None => Err(LineFault::Entry),
    }
}

fn address(word: &[u8]) -> Result<Addr, LineFault>
    ensures { result ≡ end_of word.now }
{
    match read_address(word) {
        Ok(address) => Ok(address),
        Err(_) => Err(LineFault::Entry),
    }
}

fn key_from(alloc: Global, word: &[u8]) -> Result<Octets, OrMemory<LineFault>>
    ensures { Gives result (key_of word.now) }
{
    match read_digits(alloc, word) {
        Ok(key) => Ok(key),
        Err(OrMemory::NoMemory) => Err(OrMemory::NoMemory),
        Err(OrMemory::Refused(_)) => Err(OrMemory::Refused(LineFault::Entry)),
    }
}

#[tactic(auto, unfolding(crate::specs::Half::half_numbers_of))]
fn numbers(reqid: &[u8], spi: &[u8], window: &[u8]) -> Result<HalfNumbers, LineFault>
    ensures { result ≡ half_numbers_of reqid.now spi.now window.now }
{
    let reqid = u64_from(LineFault::Entry, reqid)?;
    let spi = u32_from(LineFault::Entry, spi)?;
    let window = u32_from(LineFault::Entry, window)?;
    Ok(HalfNumbers { reqid, spi, window })
}

#[tactic(auto, unfolding(crate::specs::Half::half_tunnel_of))]
fn tunnel(local: &[u8], remote: &[u8], bit: &[u8]) -> Result<HalfTunnel, LineFault>
    ensures { result ≡ half_tunnel_of local.now remote.now bit.now }
{
    let local = address(local)?;
    let remote = address(remote)?;
    let df = df(bit)?;
    Ok(HalfTunnel { local, remote, df })
}

#[tactic(auto, unfolding(crate::specs::Half::half_keys_of))]
fn keys(
    alloc: Global,
    key: &[u8],
    ends: (&[u8], &[u8]),
    bit: &[u8],
    limits: (&[u8], &[u8]),
) -> Result<HalfKeys, OrMemory<LineFault>>
    ensures { Gives result (half_keys_of key.now ends.entry.0.now ends.entry.1.now bit.now limits.entry.0.now limits.entry.1.now) }
{
    let key = key_from(alloc, key)?;
    let tunnel = tunnel(ends.0, ends.1, bit)?;
    let lifetimes = lifetimes_from(alloc, LineFault::Entry, limits.0, limits.1)?;
    Ok(HalfKeys {
        key,
        tunnel,
        lifetimes,
    })
}

#[tactic(auto, unfolding(crate::specs::Half::half_keys_in))]
fn keys_from(alloc: Global, words: &[&[u8]]) -> Result<HalfKeys, OrMemory<LineFault>>
    ensures { Gives result (half_keys_in (texts words.now)) }
{
    match words {
        [key, local, remote, bit, hard, soft] => {
            keys(alloc, key, (local, remote), bit, (hard, soft))
        }
        _ => Err(OrMemory::Refused(LineFault::Entry)),
    }
}

#[tactic(auto, unfolding(crate::specs::Half::half_rest_of))]
fn rest(
    alloc: Global,
    prefixes: (&[u8], &[u8]),
    protocol: &[u8],
    ports: (&[u8], &[u8]),
    more: &[&[u8]],
) -> Result<HalfRest, OrMemory<LineFault>>
    ensures { Gives result (half_rest_of prefixes.entry.0.now prefixes.entry.1.now protocol.now ports.entry.0.now ports.entry.1.now
        (texts more.now)) }
{
    let selector = selector(alloc, prefixes, protocol, ports)?;
    let keys = keys_from(alloc, more)?;
    Ok(HalfRest { selector, keys })
}

#[tactic(auto, unfolding(crate::specs::Half::half_rest_in))]
fn rest_from(alloc: Global, words: &[&[u8]]) -> Result<HalfRest, OrMemory<LineFault>>
    ensures { Gives result (half_rest_in (texts words.now)) }
{
    match words {
        [local, remote, protocol, near, far, more @ ..] => {
            rest(alloc, (local, remote), protocol, (near, far), more)
        }
        _ => Err(OrMemory::Refused(LineFault::Entry)),
    }
}

#[tactic(auto, unfolding(crate::specs::Half::half_from))]
fn unchecked(
    alloc: Global,
    name: &[u8],
    reqid: &[u8],
    sizes: (&[u8], &[u8]),
    more: &[&[u8]],
) -> Result<SadEntry, OrMemory<LineFault>>
    ensures { Gives result (half_from name.now reqid.now sizes.entry.0.now sizes.entry.1.now (texts more.now)) }
{
    let numbers = numbers(reqid, sizes.0, sizes.1)?;
    let rest = rest_from(alloc, more)?;
    Ok(SadEntry {
        name: Name::from_slice(alloc, name)?,
        reqid: numbers.reqid,
        spi: numbers.spi,
        window: numbers.window,
        selector: rest.selector,
        key: rest.keys.key,
        local: rest.keys.tunnel.local,
        remote: rest.keys.tunnel.remote,
        df: rest.keys.tunnel.df,
        hard: rest.keys.lifetimes.hard,
        soft: rest.keys.lifetimes.soft,
    })
}

#[tactic(auto, unfolding(crate::specs::Half::half_in))]
fn unchecked_from(alloc: Global, words: &[&[u8]]) -> Result<SadEntry, OrMemory<LineFault>>
    ensures { Gives result (half_in (texts words.now)) }
{
    match words {
        [name, reqid, spi, window, more @ ..] => {
            unchecked(alloc, name, reqid, (spi, window), more)
        }
        _ => Err(OrMemory::Refused(LineFault::Entry)),
    }
}

/// The half that a word stands for, which can be installed.
#[tactic(auto, unfolding(crate::specs::Half::half_of))]
pub fn half(alloc: Global, word: &[u8]) -> Result<SadEntry, OrMemory<LineFault>>
    ensures { Gives result (half_of word.now) }
{
    let entry = unchecked_from(alloc, parts(alloc, word, b',')?.as_slice())?;
    match check_sad(&entry) {
        Ok(()) => Ok(entry),
        Err(_) => Err(OrMemory::Refused(LineFault::Entry)),
    }
}
