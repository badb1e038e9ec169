// Octets as hex digits.
ghost use Rattle.std.specs.Prelude.{◌≡◌, ◌<◌, ◌≤◌, length, IsTrue, IfOk, ◌++◌, ◌∷◌};
ghost use Rattle.std.specs.Char.{digit_value, is_ascii_hexdigit};
ghost use Rattle.std.specs.List.{flat_map, list_all};
ghost use Rattle.std.specs.Str.Parse.{digits_value};
ghost use Rattle.yang_values.specs.Reading.{Reads};
ghost use Rattle.yang_values.specs.HexText.{digits_text, digits_of, hex_colons, hex_of, hex_number, pair_of, pair_text};
ghost use Rattle.ikl_base.specs.Answers.{Adds};

use crate::parts::first_part;
use crate::value::BadValue;
use ikl_base::{NoMemory, Octets, OrMemory};
use std::alloc::Global;

// The value of a hex digit of either case.
fn digit(c: u8) -> u8
    requires { IsTrue (is_ascii_hexdigit c) }
    ensures value { result ≡ digit_value c }
    ensures small { result < 16 }
{
    match c {
        b'0'..=b'9' => c - b'0',
        b'a'..=b'f' => c - b'a' + 10,
        _ => c - b'A' + 10,
    }
}

// Whether each octet is a hex digit.
fn are_hex_digits(t: &[u8]) -> bool
    ensures { result ≡ list_all is_ascii_hexdigit t.now }
{
    t.iter().all(|c| c.is_ascii_hexdigit())
}

// The number that up to four hex digits write.
fn value(t: &[u8]) -> u16
    requires digits { IsTrue (list_all is_ascii_hexdigit t.now) }
    requires short { length t.now ≤ 4 }
    ensures { result ≡ digits_value 16 t.now }
{
    let mut n = 0u16;
    for c in t {
        n = n * 16 + u16::from(digit(*c));
    }
    n
}

/// The number that hex digits of either case write, from `least` to `most` of them.
#[tactic(auto, unfolding(crate::specs::HexText::hex_number))]
pub(crate) fn read_hex_number(t: &[u8], least: usize, most: usize) -> Option<u16>
    requires { most ≤ 4 }
    ensures { result ≡ hex_number least most t.now }
{
    if least <= t.len() && t.len() <= most && are_hex_digits(t) {
        Some(value(t))
    } else {
        None
    }
}

/// Reads the octets of an even number of hex digits of either case, at least two.
///
/// `Form`: another spelling.
pub fn read_digits(alloc: Global, t: &[u8]) -> Result<Octets, OrMemory<BadValue>>
    ensures { Reads result (digits_of t.now) }
{
    if t.is_empty() {
        return Err(OrMemory::Refused(BadValue::Form));
    }
    match hex::decode(alloc, t) {
        Ok(octets) => Ok(Octets::from_items(octets)),
        Err(hex::FromHexError::OutOfMemory) => Err(OrMemory::NoMemory),
        Err(_) => Err(OrMemory::Refused(BadValue::Form)),
    }
}

/// Adds two hex digits in lower case for each octet.
pub fn put_digits(out: &mut Vec<u8>, o: &[u8]) -> Result<(), NoMemory>
    ensures { Adds result out.old.items (digits_text o.now) out.new.items }
{
    let start = out.len();
    let Some(end) = o.len().checked_mul(2).and_then(|n| n.checked_add(start)) else {
        return Err(NoMemory);
    };
    out.resize(end, 0)?;
    match hex::encode_to_slice(o, &mut out[start..]) {
        Ok(()) => Ok(()),
        Err(_) => Err(NoMemory),
    }
}

// The octet of a text of two hex digits.
fn pair(t: &[u8]) -> Option<u8>
    ensures { result ≡ pair_of t.now }
{
    match read_hex_number(t, 2, 2) {
        Some(n) => Some(n as u8),
        None => None,
    }
}

/// Reads a `hex-string` (RFC 6991 section 3): the empty text, or pairs of hex digits of either case joined by colons.
///
/// `Form`: another spelling.
#[tactic(auto, unfolding(crate::specs::HexText::hex_of))]
pub fn read_hex(alloc: Global, t: &[u8]) -> Result<Octets, OrMemory<BadValue>>
    ensures { Reads result (hex_of t.now) }
{
    let mut octets = Vec::new(alloc);
    if t.is_empty() {
        return Ok(Octets::from_items(octets));
    }
    let mut rest = Some(t);
    while let Some(text) = rest {
        let (part, more) = first_part(text, b':');
        let Some(octet) = pair(part) else {
            return Err(OrMemory::Refused(BadValue::Form));
        };
        if octets.push(octet).is_err() {
            return Err(OrMemory::NoMemory);
        }
        rest = more;
    }
    Ok(Octets::from_items(octets))
}

// Adds each octet as a colon and two hex digits.
fn put_pairs(out: &mut Vec<u8>, octets: &[u8]) -> Result<(), NoMemory>
    ensures { Adds result out.old.items (flat_map (λ octet. 58 ∷ pair_text octet) octets.now) out.new.items }
{
    for octet in octets {
        out.push(b':')?;
        put_digits(out, &[*octet])?;
    }
    Ok(())
}

/// The canonical text of a `hex-string`: pairs of hex digits in lower case joined by colons.
#[tactic(auto, using(crate::proofs::EachLemmas::joined_is))]
pub fn write_hex(alloc: Global, o: &[u8]) -> Result<Octets, NoMemory>
    ensures { IfOk result (λ text. text ≡ hex_colons o.now) }
{
    let mut out = Vec::new(alloc);
    if let [first, rest @ ..] = o {
        put_digits(&mut out, &[*first])?;
        put_pairs(&mut out, rest)?;
    }
    Ok(Octets::from_items(out))
}
