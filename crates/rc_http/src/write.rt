// Messages as they are written.
ghost use Rattle.std.specs.Prelude.{◌≡◌, ◌∷◌, ◌++◌, ℕ, List, length, IfOk, OnOk, IsSome, flat_map};
ghost use Rattle.rc_http.specs.declared.message.Kind.TheVariants.{Request, Response};
ghost use Rattle.rc_http.specs.Looks.{Looks, Gives};
ghost use Rattle.rc_http.specs.Written.{field_line, length_names, lines, named, own_names, request_again, request_line, request_names, request_text, response_again, response_names, response_text, status_line, status_text, text_or_none, type_names, value_in, IsWritableRequest, IsWritableResponse};

use crate::message::HttpMessage;
use http_header::{HeaderMap, HeaderValue};
use ikl_base::{NoMemory, Octets};
use std::alloc::Global;

fn put(out: &mut Vec<u8>, octets: &[u8]) -> Result<(), NoMemory>
    ensures { OnOk result (out.new.items ≡ out.old.items ++ octets.now) }
{
    Ok(out.extend_from_slice(octets)?)
}

// The value of a field, or no octets.
fn value_of<'a>(fields: &'a HeaderMap<HeaderValue>, name: &[u8]) -> &'a [u8]
    ensures { result.now ≡ value_in fields.now name.now }
{
    match fields.get(name) {
        Some(value) => value.as_bytes(),
        None => &[],
    }
}

// The line of a field.
fn put_line(out: &mut Vec<u8>, fields: &HeaderMap<HeaderValue>, name: &[u8]) -> Result<(), NoMemory>
    ensures { OnOk result (out.new.items ≡ out.old.items ++ field_line (name.now, value_in fields.now name.now)) }
{
    put(out, name)?;
    put(out, b": ")?;
    put(out, value_of(fields, name))?;
    put(out, b"\r\n")
}

// The lines of the fields of a request.
fn put_request_lines(out: &mut Vec<u8>, m: &HttpMessage) -> Result<(), NoMemory>
    ensures { OnOk result (out.new.items ≡ out.old.items ++ lines (named m.now.fields (request_names m.now.body))) }
{
    put_line(out, &m.fields, b"Host")?;
    if m.body.as_slice().is_empty() {
        return Ok(());
    }
    put_line(out, &m.fields, b"Content-Type")?;
    put_line(out, &m.fields, b"Content-Length")?;
    Ok(())
}

fn put_request_line(out: &mut Vec<u8>, m: &HttpMessage) -> Result<(), NoMemory>
    ensures { OnOk result (out.new.items ≡ out.old.items ++ request_line m.now) }
{
    put(out, m.method.as_slice())?;
    put(out, b" ")?;
    put(out, m.target.as_slice())?;
    put(out, b" HTTP/1.1")
}

fn put_request(out: &mut Vec<u8>, m: &HttpMessage) -> Result<(), NoMemory>
    ensures { OnOk result (out.new.items ≡ out.old.items ++ request_text m.now) }
{
    put_request_line(out, m)?;
    put(out, b"\r\n")?;
    put_request_lines(out, m)?;
    put(out, b"\r\n")?;
    put(out, m.body.as_slice())
}

/// The text of a request: method, target and version, then the fields Host and, with a body, Content-Type and
/// Content-Length, then the body.
///
/// It is read again as this request, whatever follows it.
pub fn write_request(alloc: Global, m: &HttpMessage) -> Result<Octets, NoMemory>
    requires { IsWritableRequest m.now }
    ensures text { IfOk result (λ text. text ≡ request_text m.now) }
    ensures again { IfOk result (λ text. (rest : List ℕ) → Looks Request (text ++ rest) (Gives (request_again m.now) (length text))) }
{
    let mut out = Vec::new(alloc);
    put_request(&mut out, m)?;
    Ok(Octets::from_items(out))
}

// A status and its reason phrase.
fn reason_of(status: u16) -> &'static [u8]
    ensures { result.now ≡ text_or_none (status_text status) }
{
    match status {
        200 => b"200 OK",
        201 => b"201 Created",
        204 => b"204 No Content",
        400 => b"400 Bad Request",
        404 => b"404 Not Found",
        405 => b"405 Method Not Allowed",
        409 => b"409 Conflict",
        413 => b"413 Content Too Large",
        501 => b"501 Not Implemented",
        _ => b"",
    }
}

fn put_status_line(out: &mut Vec<u8>, status: u16) -> Result<(), NoMemory>
    ensures { OnOk result (out.new.items ≡ out.old.items ++ status_line status) }
{
    put(out, b"HTTP/1.1 ")?;
    put(out, reason_of(status))
}

fn put_length_line(out: &mut Vec<u8>, m: &HttpMessage) -> Result<(), NoMemory>
    ensures { OnOk result (out.new.items ≡ out.old.items ++ lines (named m.now.fields (length_names m.now.status))) }
{
    if m.status == 204 {
        return Ok(());
    }
    put_line(out, &m.fields, b"Content-Length")
}

fn put_type_line(out: &mut Vec<u8>, m: &HttpMessage) -> Result<(), NoMemory>
    ensures { OnOk result (out.new.items ≡ out.old.items ++ lines (named m.now.fields (type_names m.now.body))) }
{
    if m.body.as_slice().is_empty() {
        return Ok(());
    }
    put_line(out, &m.fields, b"Content-Type")?;
    Ok(())
}

// The field that one status alone has.
fn put_own_line(out: &mut Vec<u8>, m: &HttpMessage) -> Result<(), NoMemory>
    ensures { OnOk result (out.new.items ≡ out.old.items ++ lines (named m.now.fields (own_names m.now.status))) }
{
    match m.status {
        201 => put_line(out, &m.fields, b"Location"),
        405 => put_line(out, &m.fields, b"Allow"),
        _ => Ok(()),
    }
}

// The lines of the fields of a response.
fn put_response_lines(out: &mut Vec<u8>, m: &HttpMessage) -> Result<(), NoMemory>
    ensures { OnOk result (out.new.items ≡ out.old.items ++ lines (named m.now.fields (response_names m.now.status m.now.body))) }
{
    put_length_line(out, m)?;
    put_type_line(out, m)?;
    put_own_line(out, m)
}

fn put_response(out: &mut Vec<u8>, m: &HttpMessage) -> Result<(), NoMemory>
    ensures { OnOk result (out.new.items ≡ out.old.items ++ response_text m.now) }
{
    put_status_line(out, m.status)?;
    put(out, b"\r\n")?;
    put_response_lines(out, m)?;
    put(out, b"\r\n")?;
    put(out, m.body.as_slice())
}

/// The text of a response: version, status and reason phrase, then the fields Content-Length unless the status is
/// 204, Content-Type with a body, Location with the status 201 and Allow with 405, then the body.
///
/// It is read again as this response, whatever follows it.
pub fn write_response(alloc: Global, m: &HttpMessage) -> Result<Octets, NoMemory>
    requires { IsWritableResponse m.now }
    ensures text { IfOk result (λ text. text ≡ response_text m.now) }
    ensures again { IfOk result (λ text. (rest : List ℕ) → Looks Response (text ++ rest) (Gives (response_again m.now) (length text))) }
{
    let mut out = Vec::new(alloc);
    put_response(&mut out, m)?;
    Ok(Octets::from_items(out))
}
