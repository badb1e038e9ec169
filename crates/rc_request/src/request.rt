// Requests, read.
ghost use Rattle.std.specs.Prelude.{◌≡◌, Result, Some, Ok, Err, IfOk};
ghost use Rattle.std.specs.Option.{option_copied};
ghost use Rattle.ikl_base.specs.Answers.{Gives};
ghost use Rattle.json_codec.specs.Bodies.{spd_of, spd_entry_of, sad_entry_of};
ghost use Rattle.reply_table.specs.declared.ask.Ask.TheVariants as asks;
ghost use Rattle.rc_request.specs.Asks.{IsAsk};
ghost use Rattle.rc_request.specs.Queries.{place_of};
ghost use Rattle.rc_request.specs.Requests.{ask_by, asked, at_place, bad_query, body_status, if_named, no_message, no_method, of_body, on_resource, plain_ask, plain_error, posted, request_of, unless_query};

use crate::error::RcError;
use crate::operation::{Operation, allow, method_named, operation_on};
use crate::query::{after, before, place};
use crate::resource::{Resource, resource_at};
use ikeless_tree::{App, Tag};
use ikl_base::{Name, NoMemory, Octets, OrMemory};
use json_codec::{CodecFault, read_sad_entry, read_spd, read_spd_entry};
use rc_http::{HttpFault, HttpMessage};
use reply_table::{Ask, Place};
use std::alloc::Global;

type Asked = Result<Ask, OrMemory<RcError>>;

fn plain(alloc: Global, status: u16, tag: Tag, app: App) -> RcError
    ensures { result ≡ plain_error status tag app }
{
    RcError {
        status,
        tag,
        app,
        path: None,
        allow: Octets::new(alloc),
    }
}

/// The refusal of octets that are no message.
pub fn message_fault(alloc: Global, fault: HttpFault) -> RcError
    ensures { result ≡ no_message fault }
{
    match fault {
        HttpFault::Head | HttpFault::Version => plain(alloc, 400, Tag::MalformedMessage, App::Form),
        HttpFault::Chunked => plain(alloc, 501, Tag::OperationNotSupported, App::Chunked),
        HttpFault::TooBig => plain(alloc, 413, Tag::TooBig, App::Size),
    }
}

fn query_fault(alloc: Global) -> RcError
    ensures { result ≡ bad_query }
{
    plain(alloc, 400, Tag::InvalidValue, App::Query)
}

fn method_fault(alloc: Global, allow: &[u8]) -> Result<RcError, NoMemory>
    ensures { IfOk result (λ e. e ≡ no_method allow.now) }
{
    Ok(RcError {
        status: 405,
        tag: Tag::OperationNotSupported,
        app: App::Method,
        path: None,
        allow: Octets::from_slice(alloc, allow)?,
    })
}

fn status_of(app: App) -> u16
    ensures { result ≡ body_status app }
{
    match app {
        App::Full => 409,
        _ => 400,
    }
}

fn body_fault(alloc: Global, f: CodecFault) -> RcError
    ensures { result ≡ of_body f }
{
    RcError {
        status: status_of(f.app),
        tag: f.tag,
        app: f.app,
        path: f.path,
        allow: Octets::new(alloc),
    }
}

// ---- bodies

fn put_spd(alloc: Global, body: &[u8]) -> Asked
    ensures { Gives result (asked asks.PutSpd (spd_of body.now)) }
{
    match read_spd(alloc, body) {
        Ok(list) => Ok(Ask::PutSpd(list)),
        Err(OrMemory::Refused(f)) => Err(OrMemory::Refused(body_fault(alloc, f))),
        Err(OrMemory::NoMemory) => Err(OrMemory::NoMemory),
    }
}

fn post_spd(alloc: Global, place: Place, body: &[u8]) -> Asked
    ensures { Gives result (posted place (spd_entry_of body.now)) }
{
    match read_spd_entry(alloc, body) {
        Ok(entry) => Ok(Ask::PostSpd { entry, place }),
        Err(OrMemory::Refused(f)) => Err(OrMemory::Refused(body_fault(alloc, f))),
        Err(OrMemory::NoMemory) => Err(OrMemory::NoMemory),
    }
}

fn put_spd_entry(alloc: Global, name: &Name, body: &[u8]) -> Asked
    ensures { Gives result (if_named name.now (spd_entry_of body.now)) }
{
    match read_spd_entry(alloc, body) {
        Ok(e) => {
            if e.name.as_slice() == name.as_slice() {
                Ok(Ask::PutSpdEntry(e))
            } else {
                Err(OrMemory::Refused(plain(alloc, 400, Tag::InvalidValue, App::Name)))
            }
        }
        Err(OrMemory::Refused(f)) => Err(OrMemory::Refused(body_fault(alloc, f))),
        Err(OrMemory::NoMemory) => Err(OrMemory::NoMemory),
    }
}

fn post_sad(alloc: Global, body: &[u8]) -> Asked
    ensures { Gives result (asked asks.PostSad (sad_entry_of body.now)) }
{
    match read_sad_entry(alloc, body) {
        Ok(e) => Ok(Ask::PostSad(e)),
        Err(OrMemory::Refused(f)) => Err(OrMemory::Refused(body_fault(alloc, f))),
        Err(OrMemory::NoMemory) => Err(OrMemory::NoMemory),
    }
}

fn without_query(alloc: Global, op: Operation, body: &[u8]) -> Asked
    ensures { Gives result (plain_ask op body.now) }
{
    match op {
        Operation::GetSpd => Ok(Ask::GetSpd),
        Operation::PutSpd => put_spd(alloc, body),
        Operation::PostSpd => post_spd(alloc, Place::Last, body),
        Operation::GetSpdEntry(name) => Ok(Ask::GetSpdEntry(name)),
        Operation::PutSpdEntry(name) => put_spd_entry(alloc, &name, body),
        Operation::DeleteSpdEntry(name) => Ok(Ask::DeleteSpdEntry(name)),
        Operation::GetSad => Ok(Ask::GetSad),
        Operation::PostSad => post_sad(alloc, body),
        Operation::GetSadEntry(name) => Ok(Ask::GetSadEntry(name)),
        Operation::DeleteSad(name) => Ok(Ask::DeleteSad(name)),
    }
}

// ---- queries

fn post_at(alloc: Global, query: Option<&[u8]>, body: &[u8]) -> Asked
    ensures { Gives result (at_place (place_of (option_copied query.entry)) body.now) }
{
    match place(alloc, query)? {
        Some(place) => post_spd(alloc, place, body),
        None => Err(OrMemory::Refused(query_fault(alloc))),
    }
}

fn with_query(alloc: Global, op: Operation, query: Option<&[u8]>, body: &[u8]) -> Asked
    ensures { Gives result (unless_query op (option_copied query.entry) body.now) }
{
    match query {
        Some(_) => Err(OrMemory::Refused(query_fault(alloc))),
        None => without_query(alloc, op, body),
    }
}

fn ask(alloc: Global, op: Operation, query: Option<&[u8]>, body: &[u8]) -> Asked
    ensures { Gives result (ask_by op (option_copied query.entry) body.now) }
{
    match op {
        Operation::PostSpd => post_at(alloc, query, body),
        _ => with_query(alloc, op, query, body),
    }
}

// ---- requests

fn read_on(alloc: Global, r: Resource, m: &HttpMessage) -> Asked
    ensures { Gives result (on_resource r m.now) }
{
    let allowed = allow(&r);
    match operation_on(r, method_named(m.method.as_slice())) {
        Some(op) => ask(
            alloc,
            op,
            after(m.target.as_slice(), b'?'),
            m.body.as_slice(),
        ),
        None => Err(OrMemory::Refused(method_fault(alloc, allowed)?)),
    }
}

/// What a request asks, or its first fault: a path that is no resource's, a method that the resource doesn't have, a
/// query that isn't allowed, a fault of the body, and a name in the body that isn't the one in the path.
#[tactic(auto, unfolding(crate::specs::Requests::request_of))]
pub fn read_request(alloc: Global, m: &HttpMessage) -> Result<Ask, OrMemory<RcError>>
    ensures request { Gives result (request_of m.now) }
    ensures rules { IfOk result IsAsk }
{
    match resource_at(alloc, before(m.target.as_slice(), b'?'))? {
        Some(r) => read_on(alloc, r, m),
        None => Err(OrMemory::Refused(plain(alloc, 404, Tag::InvalidValue, App::Path))),
    }
}
