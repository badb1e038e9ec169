// Reads single words.
ghost use Rattle.std.specs.Prelude.{◌≡◌, ◌-◌, ◌^◌};
ghost use Rattle.std.specs.List.{list_all};
ghost use Rattle.ikl_base.specs.Answers.{Gives};
ghost use Rattle.hist_acts.specs.Gateways.{is_named};
ghost use Rattle.line_words.specs.Words.{is_printable, gateway_of, octets_of, number_in, prefix_in, known_of, half_name_of, lane_of};

use crate::cutting::is_word;
use ikeless_tree::{Lane, Peers, names_gateway, names_half};
use ikl_base::{LineFault, Name, Octets, OrMemory, Prefix};
use std::alloc::Global;
use yang_values::{read_digits, read_number, read_prefix, read_u64};

fn is_text(octet: u8) -> bool
    ensures { result ≡ is_printable octet }
{
    32 <= octet && octet <= 126
}

/// Whether a line has only octets that a line may have.
pub fn are_text(line: &[u8]) -> bool
    ensures { result ≡ list_all is_printable line.now }
{
    line.iter().all(|octet| is_text(*octet))
}

/// A uint64.
pub fn u64_from(fault: LineFault, word: &[u8]) -> Result<u64, LineFault>
    ensures { result ≡ number_in fault (2 ^ 64 - 1) word.now }
{
    match read_u64(word) {
        Ok(n) => Ok(n),
        Err(_) => Err(fault),
    }
}

/// A uint32.
pub fn u32_from(fault: LineFault, word: &[u8]) -> Result<u32, LineFault>
    ensures { result ≡ number_in fault (2 ^ 32 - 1) word.now }
{
    match read_number(word, 4_294_967_295) {
        Ok(n) => Ok(n as u32),
        Err(_) => Err(fault),
    }
}

/// A uint16.
pub fn u16_from(fault: LineFault, word: &[u8]) -> Result<u16, LineFault>
    ensures { result ≡ number_in fault 65535 word.now }
{
    match read_number(word, 65535) {
        Ok(n) => Ok(n as u16),
        Err(_) => Err(fault),
    }
}

/// A uint8 of at most `most`.
pub fn u8_from(fault: LineFault, word: &[u8], most: u8) -> Result<u8, LineFault>
    ensures { result ≡ number_in fault most word.now }
{
    match read_number(word, u64::from(most)) {
        Ok(n) => Ok(n as u8),
        Err(_) => Err(fault),
    }
}

/// A prefix.
pub fn prefix_from(fault: LineFault, word: &[u8]) -> Result<Prefix, LineFault>
    ensures { result ≡ prefix_in fault word.now }
{
    match read_prefix(word) {
        Ok(prefix) => Ok(prefix),
        Err(_) => Err(fault),
    }
}

/// The name of a gateway, which the header may lack.
pub fn gateway(alloc: Global, word: &[u8]) -> Result<Name, OrMemory<LineFault>>
    ensures { Gives result (gateway_of word.now) }
{
    if names_gateway(word) {
        Ok(Name::from_slice(alloc, word)?)
    } else {
        Err(OrMemory::Refused(LineFault::Gateway))
    }
}

fn is_known(gateways: &Peers, word: &[u8]) -> bool
    ensures { result ≡ is_named gateways.now word.now }
{
    gateways
        .as_slice()
        .iter()
        .any(|peer| peer.name.as_slice() == word)
}

/// The name of one of the gateways.
pub fn known(alloc: Global, gateways: &Peers, word: &[u8]) -> Result<Name, OrMemory<LineFault>>
    ensures { Gives result (known_of gateways.now word.now) }
{
    if is_known(gateways, word) {
        Ok(Name::from_slice(alloc, word)?)
    } else {
        Err(OrMemory::Refused(LineFault::Gateway))
    }
}

/// The name of a half.
pub fn half_name(alloc: Global, word: &[u8]) -> Result<Name, OrMemory<LineFault>>
    ensures { Gives result (half_name_of word.now) }
{
    if names_half(word) {
        Ok(Name::from_slice(alloc, word)?)
    } else {
        Err(OrMemory::Refused(LineFault::Entry))
    }
}

/// The octets that hex digits or a dash stand for.
pub fn octets(alloc: Global, word: &[u8]) -> Result<Octets, OrMemory<LineFault>>
    ensures { Gives result (octets_of word.now) }
{
    if is_word(word, b"-") {
        return Ok(Octets::new(alloc));
    }
    match read_digits(alloc, word) {
        Ok(octets) => Ok(octets),
        Err(OrMemory::NoMemory) => Err(OrMemory::NoMemory),
        Err(OrMemory::Refused(_)) => Err(OrMemory::Refused(LineFault::Hex)),
    }
}

/// A lane between a gateway and its controller.
pub fn lane(word: &[u8]) -> Result<Lane, LineFault>
    ensures { result ≡ lane_of word.now }
{
    match Lane::named(word) {
        Some(lane) => Ok(lane),
        None => Err(LineFault::Mode),
    }
}
