// The values of one field of a head.
ghost use Rattle.std.specs.Prelude.{◌≡◌, ◌∷◌, [], ◌≤◌, All, IsTrue, bytes_eq, map, length};
ghost use Rattle.std.specs.List.{list_all};
ghost use Rattle.std.specs.Char.{is_ascii_digit};
ghost use Rattle.std.specs.Str.Parse.{digits_value};
ghost use Rattle.http_header.specs.Token.{lowercase};
ghost use Rattle.httparse.specs.Spans.{IsHeaderWithin, header_bytes};
ghost use Rattle.rc_http.specs.Heads.{values_of, stated_len, most_body};

use crate::message::{HttpFault, Kind};
use httparse::spans::HeaderSpan;

// Whether two names are one, with letters in either case.
fn is_named(field: &[u8], name: &[u8]) -> bool
    ensures { result ≡ bytes_eq (lowercase field.now) (lowercase name.now) }
{
    field.eq_ignore_ascii_case(name)
}

/// How many values the field with this name has, and the last of them.
pub fn values<'a>(head: &'a [u8], spans: &[HeaderSpan], name: &[u8]) -> (usize, &'a [u8])
    requires { All (IsHeaderWithin (length head.now)) spans.now }
    ensures count { result.0 ≡ length (values_of name.now (map (header_bytes head.now) spans.now)) }
    ensures lone { result.0 ≡ 1 → values_of name.now (map (header_bytes head.now) spans.now) ≡ result.1.now ∷ [] }
{
    let mut count = 0;
    let mut last: &[u8] = &[];
    for span in spans {
        if is_named(span.name.of(head), name) {
            count += 1;
            last = span.value.of(head);
        }
    }
    (count, last)
}

// The value of at most 10 decimal digits.
fn value(digits: &[u8]) -> usize
    requires few { length digits.now ≤ 10 }
    requires digits { IsTrue (list_all is_ascii_digit digits.now) }
    ensures { result ≡ digits_value 10 digits.now }
{
    let mut n = 0usize;
    for c in digits {
        n = 10 * n + usize::from(*c - b'0');
    }
    n
}

fn most_body_of(kind: Kind) -> usize
    ensures { result ≡ most_body kind }
{
    match kind {
        Kind::Request => 1_048_576,
        Kind::Response => 16_777_216,
    }
}

// Whether each octet is a decimal digit.
fn are_digits(v: &[u8]) -> bool
    ensures { result ≡ list_all is_ascii_digit v.now }
{
    v.iter().all(|c| c.is_ascii_digit())
}

/// The length that a Content-Length states.
pub fn stated(kind: Kind, v: &[u8]) -> Result<usize, HttpFault>
    ensures { result ≡ stated_len kind v.now }
{
    if v.is_empty() || v.len() > 10 || !are_digits(v) {
        return Err(HttpFault::Head);
    }
    let n = value(v);
    if n > most_body_of(kind) {
        Err(HttpFault::TooBig)
    } else {
        Ok(n)
    }
}
