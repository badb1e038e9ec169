// The head of a message.
ghost use Rattle.std.specs.Prelude.{◌≡◌, ◌≤◌, [], All, map, take, length, None, IfSome, IfOk, OnOk};
ghost use Rattle.http_header.specs.HeaderMap.{append};
ghost use Rattle.http_header.specs.Token.{lowercase};
ghost use Rattle.http_header.specs.FieldName.{IsFieldName};
ghost use Rattle.http_header.specs.FieldValue.{plain_value, IsFieldValue};
ghost use Rattle.httparse.specs.Spans.{IsHeaderWithin, header_bytes};
ghost use Rattle.rc_http.specs.declared.message.Kind.TheVariants.{Request, Response};
ghost use Rattle.rc_http.specs.Heads.{Head, Reads, len_of, fields_map, message_of};
ghost use Rattle.rc_http.specs.Parts.{IsPartsOf, IsValidField, LengthIs};

use crate::message::{HttpFault, HttpMessage, Kind};
use crate::values::{stated, values};
use http_header::{HeaderMap, HeaderName, HeaderValue};
use httparse::Status;
use httparse::spans::{EMPTY_HEADER_SPAN, HeaderSpan, Span, parse_request, parse_response};
use ikl_base::{NoMemory, Octets};
use std::alloc::Global;

// The longest list of fields.
const MOST_FIELDS: usize = 64;

// Where the parts of a head stand in it.
#[derive(Clone, Copy)]
pub(crate) struct Parts {
    version: u8,
    method: Span,
    target: Span,
    status: u16,
    fields: usize,
}

fn request_parts(head: &[u8], room: &mut [HeaderSpan]) -> Option<Parts>
    requires { length room.old ≡ 64 }
    ensures length { length room.new ≡ length room.old }
    ensures some { IfSome result (λ p. IsPartsOf Request head.now room.new p) }
    ensures none { result ≡ None → (h : Head) → ¬ (Reads Request head.now h) }
{
    match parse_request(head, room) {
        Ok(Status::Complete(spans)) if spans.len == head.len() => Some(Parts {
            version: spans.version,
            method: spans.method,
            target: spans.path,
            status: 0,
            fields: spans.headers,
        }),
        _ => None,
    }
}

fn response_parts(head: &[u8], room: &mut [HeaderSpan]) -> Option<Parts>
    requires { length room.old ≡ 64 }
    ensures length { length room.new ≡ length room.old }
    ensures some { IfSome result (λ p. IsPartsOf Response head.now room.new p) }
    ensures none { result ≡ None → (h : Head) → ¬ (Reads Response head.now h) }
{
    let none = Span { start: 0, end: 0 };
    match parse_response(head, room) {
        Ok(Status::Complete(spans)) if spans.len == head.len() => Some(Parts {
            version: spans.version,
            method: none,
            target: none,
            status: spans.code,
            fields: spans.headers,
        }),
        _ => None,
    }
}

fn parts_of(kind: Kind, head: &[u8], room: &mut [HeaderSpan]) -> Option<Parts>
    requires { length room.old ≡ 64 }
    ensures length { length room.new ≡ length room.old }
    ensures some { IfSome result (λ p. IsPartsOf kind head.now room.new p) }
    ensures none { result ≡ None → (h : Head) → ¬ (Reads kind head.now h) }
{
    match kind {
        Kind::Request => request_parts(head, room),
        Kind::Response => response_parts(head, room),
    }
}

// The length of the body after a head of this version and these fields.
fn announced(kind: Kind, head: &[u8], version: u8, spans: &[HeaderSpan]) -> Result<usize, HttpFault>
    requires { All (IsHeaderWithin (length head.now)) spans.now }
    ensures { result ≡ len_of kind version (map (header_bytes head.now) spans.now) }
{
    if version != 1 {
        return Err(HttpFault::Version);
    }
    let (encodings, _) = values(head, spans, b"Transfer-Encoding");
    if encodings > 0 {
        return Err(HttpFault::Chunked);
    }
    let (lengths, last) = values(head, spans, b"Content-Length");
    match lengths {
        0 => Ok(0),
        1 => stated(kind, last),
        _ => Err(HttpFault::Head),
    }
}

/// The length of the body after this head, or the head's first fault.
pub fn read_length(kind: Kind, head: &[u8]) -> Result<usize, HttpFault>
    ensures { LengthIs kind head.now result }
{
    let mut room = [EMPTY_HEADER_SPAN; MOST_FIELDS];
    match parts_of(kind, head, &mut room) {
        Some(parts) => announced(kind, head, parts.version, &room[..parts.fields]),
        None => Err(HttpFault::Head),
    }
}

fn add_field(
    alloc: Global,
    fields: &mut HeaderMap<HeaderValue>,
    name: &[u8],
    value: &[u8],
) -> Result<(), NoMemory>
    requires name { IsFieldName name.now }
    requires value { IsFieldValue value.now }
    ensures { OnOk result (fields.new ≡ append fields.old (lowercase name.now) (plain_value value.now)) }
{
    let Ok(name) = HeaderName::from_bytes(alloc, name) else {
        return Err(NoMemory);
    };
    let Ok(value) = HeaderValue::from_bytes(alloc, value) else {
        return Err(NoMemory);
    };
    match fields.append(name, value) {
        Ok(_) => Ok(()),
        Err(_) => Err(NoMemory),
    }
}

// The fields of a head as a map.
fn fields_of(
    alloc: Global,
    head: &[u8],
    spans: &[HeaderSpan],
) -> Result<HeaderMap<HeaderValue>, NoMemory>
    requires short { length head.now ≤ 8192 }
    requires within { All (IsHeaderWithin (length head.now)) spans.now }
    requires fields { All IsValidField (map (header_bytes head.now) spans.now) }
    ensures { IfOk result (λ m. m ≡ fields_map (map (header_bytes head.now) spans.now)) }
{
    let mut fields = HeaderMap::new(alloc);
    for span in spans {
        add_field(alloc, &mut fields, span.name.of(head), span.value.of(head))?;
    }
    Ok(fields)
}

/// The message of a head that is one, and of this body.
pub fn read_message(
    alloc: Global,
    kind: Kind,
    head: &[u8],
    body: &[u8],
) -> Result<HttpMessage, NoMemory>
    requires short { length head.now ≤ 8192 }
    requires reads { (h : Head) × Reads kind head.now h }
    ensures { IfOk result (λ m. (h : Head) × Reads kind head.now h × (m ≡ message_of h body.now)) }
{
    let mut room = [EMPTY_HEADER_SPAN; MOST_FIELDS];
    let Some(parts) = parts_of(kind, head, &mut room) else {
        unreachable!();
    };
    Ok(HttpMessage {
        method: Octets::from_slice(alloc, parts.method.of(head))?,
        target: Octets::from_slice(alloc, parts.target.of(head))?,
        status: parts.status,
        fields: fields_of(alloc, head, &room[..parts.fields])?,
        body: Octets::from_slice(alloc, body)?,
    })
}
