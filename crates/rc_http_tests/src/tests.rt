// Octets that are messages, refused ones, and messages in pieces.
ghost use Rattle.std.specs.Prelude.{◌≡◌, [], IfOk, OnOk, codes};
ghost use Rattle.http_header.specs.FieldValue.{plain_value};
ghost use Rattle.http_header.specs.HeaderMap.{append};
ghost use Rattle.http_header.specs.Token.{lowercase};
ghost use Rattle.rc_http.specs.Written.{IsWritableRequest, IsWritableResponse};

use http_header::{HeaderMap, HeaderName, HeaderValue};
use ikl_base::{NoMemory, Octets, OrMemory};
use rc_http::*;
use std::alloc::Global;
use std::process::Abort;
use std::test::Fail;

// What is said of a piece.
fn said(fed: Result<Fed, OrMemory<HttpFault>>) -> &'static str {
    match fed {
        Ok(Fed::NoneYet) => "waits",
        Ok(Fed::Whole { .. }) => "whole",
        Err(OrMemory::Refused(HttpFault::Head)) => "head",
        Err(OrMemory::Refused(HttpFault::Version)) => "version",
        Err(OrMemory::Refused(HttpFault::Chunked)) => "chunked",
        Err(OrMemory::Refused(HttpFault::TooBig)) => "too big",
        Err(OrMemory::NoMemory) => "no memory",
    }
}

const REQUESTS: &str = "\
GET / HTTP/1.1~~|whole\n\
GET / HTTP/1.1^^|whole\n\
~^~GET / HTTP/1.1~Host: a^~GET|whole\n\
GET / HTTP/1.1~Host: a~$|waits\n\
GET / HTTP/1.1~Host: a~|waits\n\
~~~|waits\n\
|waits\n\
GET / HTTP/1.0~~|version\n\
GET / HTTP/1.0~Transfer-Encoding: chunked~~|version\n\
GET / HTTP/2.0~~|head\n\
GET / HTTP/1.2~~|head\n\
!~~|head\n\
GET /~~|head\n\
GET  / HTTP/1.1~~|head\n\
GET / HTTP/1.1~Host : a~~|head\n\
GET / HTTP/1.1~Host: a~ b~~|head\n\
GET / HTTP/1.1$~~|head\n\
HTTP/1.1 200 OK~~|head\n\
PUT / HTTP/1.1~Transfer-Encoding: chunked~~0~~|chunked\n\
PUT / HTTP/1.1~transfer-encoding:~Content-Length: x~~|chunked\n\
PUT / HTTP/1.1~Content-Length: 0~~|whole\n\
PUT / HTTP/1.1~Content-Length: 3~~ab|waits\n\
PUT / HTTP/1.1~Content-Length: 3~~abc|whole\n\
PUT / HTTP/1.1~CONTENT-LENGTH:\t003 ~~abcd|whole\n\
PUT / HTTP/1.1~Content-Length: 1048575~~|waits\n\
PUT / HTTP/1.1~Content-Length: 1048576~~|waits\n\
PUT / HTTP/1.1~Content-Length: 1048577~~|too big\n\
PUT / HTTP/1.1~Content-Length: 9999999999~~|too big\n\
PUT / HTTP/1.1~Content-Length: 0000000003~~abc|whole\n\
PUT / HTTP/1.1~Content-Length: 00000000003~~abc|head\n\
PUT / HTTP/1.1~Content-Length: 10000000000~~|head\n\
PUT / HTTP/1.1~Content-Length:~~|head\n\
PUT / HTTP/1.1~Content-Length: \t ~~|head\n\
PUT / HTTP/1.1~Content-Length: 1x~~|head\n\
PUT / HTTP/1.1~Content-Length: +3~~|head\n\
PUT / HTTP/1.1~Content-Length: -3~~|head\n\
PUT / HTTP/1.1~Content-Length: 3 3~~|head\n\
PUT / HTTP/1.1~Content-Length: 3, 3~~|head\n\
PUT / HTTP/1.1~Content-Length: 3~Host: a~content-length: 3~~abc|head\n\
PUT / HTTP/1.1~Content-Length: 1048577~Content-Length: 3~~|head\n\
";

// What is said of a row's octets, and what is to be. `~` stands for CR LF, `$` for CR, `^` for LF and `!` for NUL.
fn tried<'a>(
    alloc: Global,
    mut feeder: Feeder,
    row: &'a str,
) -> Result<(&'static str, &'a str), NoMemory> {
    let (text, want) = row.split_once('|').unwrap_or((row, "no row"));
    let mut octets = Vec::new(alloc);
    for octet in text.as_bytes() {
        match octet {
            b'~' => octets.extend_from_slice(b"\r\n")?,
            b'$' => octets.push(b'\r')?,
            b'^' => octets.push(b'\n')?,
            b'!' => octets.push(0)?,
            _ => octets.push(*octet)?,
        }
    }
    Ok((said(feeder.feed(&octets)), want))
}

#[test]
fn requests_are_whole_or_refused_for_a_reason(rt: HostRuntime) -> Result<(), Fail> {
    let alloc = rt.alloc();
    for row in REQUESTS.lines() {
        let (said, want) = tried(alloc, Feeder::requests(alloc), row)?;
        assert!(rt; said == want, "{row}");
    }
    Ok(())
}

const RESPONSES: &str = "\
HTTP/1.1 204 No Content~~|whole\n\
HTTP/1.1 204~Content-Length: 0~~|whole\n\
HTTP/1.1 999 ~~|whole\n\
HTTP/1.1 20 OK~~|head\n\
HTTP/1.0 200 OK~~|version\n\
GET / HTTP/1.1~~|head\n\
HTTP/1.1 200 OK~Content-Length: 1048577~~|waits\n\
HTTP/1.1 200 OK~Content-Length: 16777215~~|waits\n\
HTTP/1.1 200 OK~Content-Length: 16777216~~|waits\n\
HTTP/1.1 200 OK~Content-Length: 16777217~~|too big\n\
HTTP/1.1 200 OK~Content-Length: 9999999999~~|too big\n\
HTTP/1.1 200 OK~Content-Length: 10000000000~~|head\n\
HTTP/1.1 200 OK~Content-Length: -0~~|head\n\
HTTP/1.1 200 OK~Content-Length: 3~Content-Length: 3~~abc|head\n\
HTTP/1.1 200 OK~Content-Length: 3~~ab|waits\n\
HTTP/1.1 200 OK~Content-Length: 3~~abc|whole\n\
HTTP/1.1 200 OK~Transfer-Encoding: chunked~~|chunked\n\
";

#[test]
fn responses_are_whole_or_refused_for_a_reason(rt: HostRuntime) -> Result<(), Fail> {
    let alloc = rt.alloc();
    for row in RESPONSES.lines() {
        let (said, want) = tried(alloc, Feeder::responses(alloc), row)?;
        assert!(rt; said == want, "{row}");
    }
    Ok(())
}

// A text with so many octets between its front and its end.
fn filled(
    alloc: Global,
    front: &str,
    part: &str,
    count: usize,
    end: &str,
) -> Result<Vec<u8>, NoMemory> {
    let mut text = Vec::from_slice(alloc, front.as_bytes())?;
    for _ in 0..count {
        text.extend_from_slice(part.as_bytes())?;
    }
    text.extend_from_slice(end.as_bytes())?;
    Ok(text)
}

// What is said of a head with a value of so many octets.
fn said_of_long(alloc: Global, count: usize, end: &str) -> Result<&'static str, NoMemory> {
    let text = filled(alloc, "GET / HTTP/1.1\r\nA: ", "x", count, end)?;
    let mut feeder = Feeder::requests(alloc);
    Ok(said(feeder.feed(&text)))
}

#[test]
fn heads_have_at_most_8192_octets(rt: HostRuntime) -> Result<(), Fail> {
    // 19 octets stand before the value.
    let rows = [
        (8168, "\r\n\r\n", "whole"),
        (8169, "\r\n\r\n", "whole"),
        (8170, "\r\n\r\n", "too big"),
        (8172, "", "waits"),
        (8173, "", "too big"),
        (8170, "\r\n\r", "too big"),
    ];
    for (count, end, want) in rows {
        assert!(rt; said_of_long(rt.alloc(), count, end)? == want, "{count}");
    }
    Ok(())
}

// What is said of a head with so many fields.
fn said_of_fields(alloc: Global, count: usize) -> Result<&'static str, NoMemory> {
    let text = filled(alloc, "GET / HTTP/1.1\r\n", "a: b\r\n", count, "\r\n")?;
    let mut feeder = Feeder::requests(alloc);
    Ok(said(feeder.feed(&text)))
}

#[test]
fn heads_have_at_most_64_fields(rt: HostRuntime) -> Result<(), Fail> {
    for (count, want) in [(63, "whole"), (64, "whole"), (65, "head")] {
        assert!(rt; said_of_fields(rt.alloc(), count)? == want, "{count}");
    }
    Ok(())
}

#[test]
fn a_fault_is_answered_for_good(rt: HostRuntime) {
    let mut feeder = Feeder::requests(rt.alloc());
    let rows = [
        (
            "PUT / HTTP/1.1\r\nTransfer-Encoding: chunked\r\n\r",
            "waits",
        ),
        ("\n", "chunked"),
        ("", "chunked"),
        ("GET / HTTP/1.1\r\n\r\n", "chunked"),
    ];
    for (text, want) in rows {
        assert!(rt; said(feeder.feed(text.as_bytes())) == want, "{text}");
    }
}

const DELETE: &str =
    "DELETE /restconf/data/ietf-i2nsf-ikeless:ipsec-ikeless/sad/sad-entry=in%2F1 HTTP/1.1\r\nHost: 192.0.2.1\r\n\r\n";

#[test]
fn a_request_in_pieces_of_one_octet(rt: HostRuntime) {
    let mut feeder = Feeder::requests(rt.alloc());
    let (front, last) = DELETE.as_bytes().split_at(DELETE.len() - 1);
    for octet in front {
        assert!(rt; said(feeder.feed(&[*octet])) == "waits");
    }
    assert!(rt; said(feeder.feed(last)) == "whole");
}

const TWO: &str =
    "PUT /a HTTP/1.1\r\nHost: h\r\nContent-Length: 3\r\n\r\nxyzGET /b HTTP/1.1\r\n\r\n";

// What the messages in a piece say, behind what the earlier ones said.
fn hear(feeder: &mut Feeder, piece: &[u8], heard: &mut Vec<u8>) -> Result<(), NoMemory> {
    let mut rest = piece;
    for _ in 0..piece.len() + 1 {
        match feeder.feed(rest) {
            Ok(Fed::Whole { message, taken }) => {
                heard.extend_from_slice(message.target.as_slice())?;
                heard.push(b' ')?;
                heard.extend_from_slice(message.body.as_slice())?;
                heard.push(b';')?;
                rest = rest.get(taken..).unwrap_or(&[]);
            }
            _ => return Ok(()),
        }
    }
    Ok(())
}

// What is heard of two pieces.
fn heard(alloc: Global, first: &[u8], second: &[u8]) -> Result<Vec<u8>, NoMemory> {
    let mut feeder = Feeder::requests(alloc);
    let mut heard = Vec::new(alloc);
    hear(&mut feeder, first, &mut heard)?;
    hear(&mut feeder, second, &mut heard)?;
    Ok(heard)
}

#[test]
fn every_cut_gives_the_same_messages(rt: HostRuntime) -> Result<(), Fail> {
    for k in 0..TWO.len() + 1 {
        let (first, second) = TWO.as_bytes().split_at(k);
        let heard = heard(rt.alloc(), first, second)?;
        assert!(rt; heard.as_slice() == b"/a xyz;/b ;".as_slice(), "{k}");
    }
    Ok(())
}

// What a message says, part by part.
fn shown(alloc: Global, m: &HttpMessage) -> Result<Vec<u8>, NoMemory> {
    let mut out = Vec::from_slice(alloc, m.method.as_slice())?;
    out.push(b'|')?;
    for (name, value) in m.fields.iter() {
        out.extend_from_slice(name.as_bytes())?;
        out.push(b'=')?;
        out.extend_from_slice(value.as_bytes())?;
        out.push(b'|')?;
    }
    Ok(out)
}

// What is said of the message in some octets, and its status.
fn read(mut feeder: Feeder, alloc: Global, octets: &[u8]) -> Result<(Vec<u8>, u16), NoMemory> {
    match feeder.feed(octets) {
        Ok(Fed::Whole { message, .. }) => Ok((shown(alloc, &message)?, message.status)),
        _ => Err(NoMemory),
    }
}

#[test]
fn what_a_message_says(rt: HostRuntime) -> Result<(), Fail> {
    let alloc = rt.alloc();
    let text = b"PUT /x HTTP/1.1\r\nHost:  h\t\r\nX-Y:\r\nHOST: i j\n\r\n";
    let (parts, status) = read(Feeder::requests(alloc), alloc, text)?;
    assert!(rt; parts.as_slice() == b"PUT|host=h|host=i j|x-y=|".as_slice() && status == 0);
    let text = b"HTTP/1.1 405 No\r\nAllow: GET, POST\r\n\r\n";
    let (parts, status) = read(Feeder::responses(alloc), alloc, text)?;
    assert!(rt; parts.as_slice() == b"|allow=GET, POST|".as_slice() && status == 405);
    Ok(())
}

fn add(
    alloc: Global,
    fields: &mut HeaderMap<HeaderValue>,
    name: &[u8],
    value: &[u8],
) -> Result<(), NoMemory>
    ensures { OnOk result (fields.new ≡ append fields.old (lowercase name.now) (plain_value value.now)) }
{
    let Ok(name) = HeaderName::from_bytes(alloc, name) else {
        return Err(NoMemory);
    };
    let Ok(value) = HeaderValue::from_bytes(alloc, value) else {
        return Err(NoMemory);
    };
    match fields.append(name, value) {
        Ok(_) => Ok(()),
        Err(_) => Err(NoMemory),
    }
}

fn get_fields(alloc: Global) -> Result<HeaderMap<HeaderValue>, NoMemory>
    ensures { IfOk result (λ m. m ≡ append [] (lowercase (codes "Host")) (plain_value (codes "192.0.2.1"))) }
{
    let mut fields = HeaderMap::new(alloc);
    add(alloc, &mut fields, b"Host", b"192.0.2.1")?;
    Ok(fields)
}

fn get_sad(alloc: Global) -> Result<HttpMessage, NoMemory>
    ensures { IfOk result (λ m. IsWritableRequest m) }
{
    let method = Octets::from_slice(alloc, b"GET")?;
    let target = Octets::from_slice(
        alloc,
        b"/restconf/data/ietf-i2nsf-ikeless:ipsec-ikeless/sad",
    )?;
    let fields = get_fields(alloc)?;
    Ok(HttpMessage {
        method,
        target,
        status: 0,
        fields,
        body: Octets::new(alloc),
    })
}

fn answer_fields(alloc: Global) -> Result<HeaderMap<HeaderValue>, NoMemory>
    ensures { IfOk result (λ m. m ≡ append (append [] (lowercase (codes "Content-Length")) (plain_value (codes "43")))
        (lowercase (codes "Content-Type")) (plain_value (codes "application/yang-data+json"))) }
{
    let mut fields = HeaderMap::new(alloc);
    add(alloc, &mut fields, b"Content-Length", b"43")?;
    add(
        alloc,
        &mut fields,
        b"Content-Type",
        b"application/yang-data+json",
    )?;
    Ok(fields)
}

fn no_entries(alloc: Global) -> Result<HttpMessage, NoMemory>
    ensures { IfOk result (λ m. IsWritableResponse m) }
{
    let body = Octets::from_slice(alloc, b"{\"ietf-i2nsf-ikeless:sad\":{\"sad-entry\":[]}}")?;
    let fields = answer_fields(alloc)?;
    Ok(HttpMessage {
        method: Octets::new(alloc),
        target: Octets::new(alloc),
        status: 200,
        fields,
        body,
    })
}

const GET_SAD: &[u8] =
    b"GET /restconf/data/ietf-i2nsf-ikeless:ipsec-ikeless/sad HTTP/1.1\r\nHost: 192.0.2.1\r\n\r\n";

const NO_ENTRIES: &[u8] =
    b"HTTP/1.1 200 OK\r\nContent-Length: 43\r\nContent-Type: application/yang-data+json\r\n\r\n{\"ietf-i2nsf-ikeless:sad\":{\"sad-entry\":[]}}";

#[test]
fn a_request_is_written(rt: HostRuntime) -> Result<(), Fail> {
    let request = get_sad(rt.alloc())?;
    let text = write_request(rt.alloc(), &request)?;
    assert!(rt; text.as_slice() == GET_SAD && GET_SAD.len() == 85);
    Ok(())
}

#[test]
fn a_response_is_written(rt: HostRuntime) -> Result<(), Fail> {
    let response = no_entries(rt.alloc())?;
    let text = write_response(rt.alloc(), &response)?;
    assert!(rt; text.as_slice() == NO_ENTRIES && NO_ENTRIES.len() == 124);
    Ok(())
}
