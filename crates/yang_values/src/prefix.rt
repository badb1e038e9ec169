// Prefixes.
ghost use Rattle.std.specs.Prelude.{◌≡◌, IfOk, ◌++◌};
ghost use Rattle.ikl_base.specs.Address.{bits_of};
ghost use Rattle.yang_values.specs.Prefixes.{prefix_of, prefix_from, prefix_text};
ghost use Rattle.ikl_base.specs.Answers.{Adds};

use crate::address::{put_address, read_address};
use crate::number::{is_decimal, put_number, read_number};
use crate::parts::cut;
use crate::value::BadValue;
use ikl_base::{Addr, NoMemory, Octets, Prefix};
use std::alloc::Global;

// How many bits an address has.
fn bits(a: &Addr) -> u64
    ensures { result ≡ bits_of a.now }
{
    match a {
        Addr::V4(_) => 32,
        Addr::V6(_) => 128,
    }
}

// The prefix of what an address was read as and of the text of its length.
fn prefix_with(address: Result<Addr, BadValue>, t: &[u8]) -> Result<Prefix, BadValue>
    ensures { result ≡ prefix_from address t.now }
{
    match address {
        Ok(a) => match read_number(t, bits(&a)) {
            Ok(n) => Ok(Prefix::of(a, n as u8)),
            Err(e) => Err(e),
        },
        Err(BadValue::Range) if is_decimal(t) => Err(BadValue::Range),
        Err(_) => Err(BadValue::Form),
    }
}

/// Reads a prefix (RFC 6991 section 4): an address, `/` and a length. The host bits are dropped.
///
/// `Form`: another spelling. `Range`: a decimal number of an IPv4 address above 255, or a length above 32 or 128. The
/// spelling of the whole text comes before any range.
#[tactic(auto, unfolding(crate::specs::Prefixes::prefix_of))]
pub fn read_prefix(t: &[u8]) -> Result<Prefix, BadValue>
    ensures { result ≡ prefix_of t.now }
{
    match cut(t, b'/') {
        Some((address, length)) => prefix_with(read_address(address), length),
        None => Err(BadValue::Form),
    }
}

/// Adds the canonical text of a prefix.
#[tactic(auto, unfolding(crate::specs::Prefixes::prefix_text))]
pub fn put_prefix(out: &mut Vec<u8>, p: &Prefix) -> Result<(), NoMemory>
    ensures { Adds result out.old.items (prefix_text p.now) out.new.items }
{
    put_address(out, &p.addr)?;
    out.push(b'/')?;
    put_number(out, u64::from(p.len))
}

/// The canonical text of a prefix: the canonical text of its address, `/` and its length.
pub fn write_prefix(alloc: Global, p: &Prefix) -> Result<Octets, NoMemory>
    ensures { IfOk result (λ text. text ≡ prefix_text p.now) }
{
    let mut out = Vec::new(alloc);
    put_prefix(&mut out, p)?;
    Ok(Octets::from_items(out))
}
