// Reads the values of arguments.
ghost use Rattle.std.specs.Prelude.{◌≡◌};
ghost use Rattle.clap.specs.Words.{found_of, rows_of};
ghost use Rattle.live_words.specs.Values.{address_in, address_at, count_of, count_at, port_of, port_at, wide_at};

use crate::matching::text_at;
use clap::ArgMatches;
use ikl_base::{Addr, LineFault};
use line_words::{u16_from, u32_from, u64_from};
use yang_values::read_address;

/// A port from 1 to 65,535.
pub fn port(word: &[u8]) -> Result<u16, LineFault>
    ensures { result ≡ port_of word.now }
{
    match u16_from(LineFault::Number, word) {
        Ok(port) if port >= 1 => Ok(port),
        _ => Err(LineFault::Number),
    }
}

// A number from 1 to 2^32 - 1.
fn count(word: &[u8]) -> Result<u64, LineFault>
    ensures { result ≡ count_of word.now }
{
    match u32_from(LineFault::Number, word) {
        Ok(n) if n >= 1 => Ok(u64::from(n)),
        _ => Err(LineFault::Number),
    }
}

fn address(word: &[u8]) -> Result<Addr, LineFault>
    ensures { result ≡ address_in word.now }
{
    match read_address(word) {
        Ok(address) => Ok(address),
        Err(_) => Err(LineFault::Number),
    }
}

/// The port that an option says.
pub fn port_named(matches: &ArgMatches<'_>, name: &str) -> Result<u16, LineFault>
    ensures { result ≡ port_at name.now (rows_of (found_of matches.now)) }
{
    match text_at(matches, name) {
        Some(word) => port(word.as_bytes()),
        None => Err(LineFault::Count),
    }
}

/// The number from 1 that an option says.
pub fn count_named(matches: &ArgMatches<'_>, name: &str) -> Result<u64, LineFault>
    ensures { result ≡ count_at name.now (rows_of (found_of matches.now)) }
{
    match text_at(matches, name) {
        Some(word) => count(word.as_bytes()),
        None => Err(LineFault::Count),
    }
}

/// The address that an option says.
pub fn address_named(matches: &ArgMatches<'_>, name: &str) -> Result<Addr, LineFault>
    ensures { result ≡ address_at name.now (rows_of (found_of matches.now)) }
{
    match text_at(matches, name) {
        Some(word) => address(word.as_bytes()),
        None => Err(LineFault::Count),
    }
}

/// The number that a word says.
pub fn number_named(matches: &ArgMatches<'_>, name: &str) -> Result<u64, LineFault>
    ensures { result ≡ wide_at name.now (rows_of (found_of matches.now)) }
{
    match text_at(matches, name) {
        Some(word) => u64_from(LineFault::Number, word.as_bytes()),
        None => Err(LineFault::Count),
    }
}
