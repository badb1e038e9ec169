// Decimal numbers.
ghost use Rattle.std.specs.Prelude.{◌≡◌, ◌<◌, ◌≤◌, ◌^◌, IfOk, IsTrue, ◌++◌};
ghost use Rattle.std.specs.Char.{is_ascii_digit};
ghost use Rattle.std.specs.List.{list_all};
ghost use Rattle.std.specs.Option.{SomeIff};
ghost use Rattle.std.specs.Fmt.{decimal};
ghost use Rattle.std.specs.Str.Parse.{digits_value};
ghost use Rattle.yang_values.specs.Numbers.{is_number, number_of, u64_of, port_of};
ghost use Rattle.ikl_base.specs.Answers.{Adds};

use crate::value::BadValue;
use ikl_base::{NoMemory, Octets};
use std::alloc::Global;

// Whether each octet is a decimal digit.
fn are_digits(t: &[u8]) -> bool
    ensures { result ≡ list_all is_ascii_digit t.now }
{
    t.iter().all(|c| c.is_ascii_digit())
}

/// Whether the text is decimal digits without a leading zero, or `0`.
pub(crate) fn is_decimal(t: &[u8]) -> bool
    ensures { result ≡ is_number t.now }
{
    !t.is_empty() && (t[0] != b'0' || t.len() == 1) && are_digits(t)
}

// The value of decimal digits, where it is a u64.
fn value(t: &[u8]) -> Option<u64>
    requires { IsTrue (list_all is_ascii_digit t.now) }
    ensures { SomeIff result (digits_value 10 t.now < 2 ^ 64) (digits_value 10 t.now) }
{
    let mut n = 0u64;
    for c in t {
        n = n.checked_mul(10)?.checked_add(u64::from(*c - b'0'))?;
    }
    Some(n)
}

/// Reads a decimal number of at most `most`.
///
/// `Form`: it isn't decimal digits without a leading zero, nor `0`. `Range`: it is above `most`.
#[tactic(auto, unfolding(crate::specs::Numbers::number_of))]
pub fn read_number(t: &[u8], most: u64) -> Result<u64, BadValue>
    ensures value { result ≡ number_of most t.now }
    ensures bound { IfOk result (λ n. n ≤ most) }
{
    if !is_decimal(t) {
        return Err(BadValue::Form);
    }
    match value(t) {
        Some(n) if n <= most => Ok(n),
        _ => Err(BadValue::Range),
    }
}

/// Reads a uint64 (RFC 7951 section 6.1).
///
/// `Form`: it isn't decimal digits without a leading zero, nor `0`. `Range`: it is above 2^64 - 1.
pub fn read_u64(t: &[u8]) -> Result<u64, BadValue>
    ensures { result ≡ u64_of t.now }
{
    read_number(t, u64::MAX)
}

/// The port of this number (RFC 6991 section 4). `Range`: it is above 65,535.
pub fn read_port(n: u64) -> Result<u16, BadValue>
    ensures { result ≡ port_of n }
{
    if n <= 65535 {
        Ok(n as u16)
    } else {
        Err(BadValue::Range)
    }
}

/// Adds the digits of a number.
pub fn put_number(out: &mut Vec<u8>, n: u64) -> Result<(), NoMemory>
    ensures { Adds result out.old.items (decimal n) out.new.items }
{
    if n >= 10 {
        put_number(out, n / 10)?;
    }
    Ok(out.push((48 + n % 10) as u8)?)
}

/// The canonical text of a uint64.
pub fn write_u64(alloc: Global, n: u64) -> Result<Octets, NoMemory>
    ensures { IfOk result (λ text. text ≡ decimal n) }
{
    let mut out = Vec::new(alloc);
    put_number(&mut out, n)?;
    Ok(Octets::from_items(out))
}
