// IPv4 addresses: four decimal numbers with dots between them.
ghost use Rattle.std.specs.Prelude.{◌≡◌, ◌≢◌, ◌&&◌, if◌then◌else◌, IsTrue, ◌++◌, ◌∷◌, [], length, MatchOption};
ghost use Rattle.std.specs.List.{slice_split};
ghost use Rattle.yang_values.specs.Addresses.{dotted, is_dot, fits_octet, quad_of};
ghost use Rattle.yang_values.specs.Numbers.{is_number};
ghost use Rattle.std.specs.Str.Parse.{digits_value};
ghost use Rattle.ikl_base.specs.Answers.{Adds};

use crate::number::{is_decimal, put_number, read_number};
use crate::parts::first_part;
use crate::value::BadValue;
use ikl_base::NoMemory;

type Quarters<'a> = (&'a [u8], &'a [u8], &'a [u8], &'a [u8]);

// The parts of a text with three dots.
#[tactic(auto, using(crate::proofs::PartsLemmas::some_part))]
fn quarters(t: &[u8]) -> Option<Quarters<'_>>
    ensures { MatchOption result (length (slice_split is_dot t.now) ≢ 4)
        (λ q. slice_split is_dot t.now ≡ q.0.now ∷ q.1.now ∷ q.2.now ∷ q.3.now ∷ []) }
{
    let (a, Some(rest)) = first_part(t, b'.') else {
        return None;
    };
    let (b, Some(rest)) = first_part(rest, b'.') else {
        return None;
    };
    let (c, Some(rest)) = first_part(rest, b'.') else {
        return None;
    };
    match first_part(rest, b'.') {
        (d, None) => Some((a, b, c, d)),
        (_, Some(_)) => None,
    }
}

// Whether both texts are decimal numbers.
fn are_decimal(a: &[u8], b: &[u8]) -> bool
    ensures { result ≡ (is_number a.now && is_number b.now) }
{
    is_decimal(a) && is_decimal(b)
}

// The octet that a decimal number is, where it is one.
#[tactic(auto, unfolding(crate::specs::Numbers::number_of))]
fn octet(t: &[u8]) -> Option<u8>
    requires { IsTrue (is_number t.now) }
    ensures { result ≡ (if fits_octet t.now then Some (digits_value 10 t.now) else None) }
{
    match read_number(t, 255) {
        Ok(n) => Some(n as u8),
        Err(_) => None,
    }
}

/// Reads four decimal numbers with dots between them: first the spelling of all of them, then their range.
#[tactic(auto, unfolding(crate::specs::Addresses::quad_of))]
pub(crate) fn read_quad(t: &[u8]) -> Result<[u8; 4], BadValue>
    ensures { result ≡ quad_of (slice_split is_dot t.now) }
{
    let Some((a, b, c, d)) = quarters(t) else {
        return Err(BadValue::Form);
    };
    if !are_decimal(a, b) {
        return Err(BadValue::Form);
    }
    if !are_decimal(c, d) {
        return Err(BadValue::Form);
    }
    match (octet(a), octet(b), octet(c), octet(d)) {
        (Some(a), Some(b), Some(c), Some(d)) => Ok([a, b, c, d]),
        _ => Err(BadValue::Range),
    }
}

// Adds two numbers with a dot between them.
fn put_half(out: &mut Vec<u8>, a: u8, b: u8) -> Result<(), NoMemory>
    ensures { Adds result out.old.items (dotted (a ∷ b ∷ [])) out.new.items }
{
    put_number(out, u64::from(a))?;
    out.push(b'.')?;
    put_number(out, u64::from(b))
}

/// Adds four numbers with dots between them.
pub(crate) fn put_quad(out: &mut Vec<u8>, octets: &[u8; 4]) -> Result<(), NoMemory>
    ensures { Adds result out.old.items (dotted octets.now) out.new.items }
{
    put_half(out, octets[0], octets[1])?;
    out.push(b'.')?;
    put_half(out, octets[2], octets[3])
}
