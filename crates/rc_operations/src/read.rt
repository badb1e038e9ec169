// Requests of operations, read.
ghost use Rattle.std.specs.Prelude.{◌≡◌, codes, Option, Some, IfOk, IfErr, IsTrue};
ghost use Rattle.std.specs.Option.{option_copied};
ghost use Rattle.ikl_base.specs.Answers.{Gives};
ghost use Rattle.json_codec.specs.Bodies.{command_of};
ghost use Rattle.json_codec.specs.CommandRead.{is_operation};
ghost use Rattle.rc_request.specs.Requests.{bad_query, body_status, no_method, of_body, plain_error};
ghost use Rattle.rc_operations.specs.Operations.{by_method, by_operation, commanded, requested, unless_query, IsSound};
ghost use Rattle.rc_operations.specs.Replies.{CanBeAnswered};

use crate::laws::refusals_can_be_answered;
use crate::path::{is_called, operation_named, path_of, query_of};
use ikeless_tree::{App, Command, Tag};
use ikl_base::{Name, NoMemory, Octets, OrMemory};
use json_codec::{CodecFault, commands_are_accepted, read_command};
use rc_http::HttpMessage;
use rc_request::RcError;
use std::alloc::Global;

type Commanded = Result<Command, OrMemory<RcError>>;

fn plain(alloc: Global, status: u16, tag: Tag, app: App) -> RcError
    ensures { result ≡ plain_error status tag app }
{
    RcError {
        status,
        tag,
        app,
        path: None,
        allow: Octets::new(alloc),
    }
}

fn method_fault(alloc: Global) -> Result<RcError, NoMemory>
    ensures { IfOk result (λ e. e ≡ no_method (codes "POST")) }
{
    Ok(RcError {
        status: 405,
        tag: Tag::OperationNotSupported,
        app: App::Method,
        path: None,
        allow: Octets::from_slice(alloc, b"POST")?,
    })
}

fn status_of(app: App) -> u16
    ensures { result ≡ body_status app }
{
    match app {
        App::Full => 409,
        _ => 400,
    }
}

fn body_fault(alloc: Global, f: CodecFault) -> RcError
    ensures { result ≡ of_body f }
{
    RcError {
        status: status_of(f.app),
        tag: f.tag,
        app: f.app,
        path: f.path,
        allow: Octets::new(alloc),
    }
}

fn with_body(alloc: Global, name: &Name, body: &[u8]) -> Commanded
    requires { IsTrue (is_operation name.now) }
    ensures command { Gives result (commanded (command_of name.now body.now)) }
    ensures sound { IfOk result IsSound }
{
    commands_are_accepted();
    match read_command(alloc, name, body) {
        Ok(command) => Ok(command),
        Err(OrMemory::Refused(f)) => Err(OrMemory::Refused(body_fault(alloc, f))),
        Err(OrMemory::NoMemory) => Err(OrMemory::NoMemory),
    }
}

fn without_query(alloc: Global, name: &Name, query: Option<&[u8]>, body: &[u8]) -> Commanded
    requires { IsTrue (is_operation name.now) }
    ensures command { Gives result (unless_query name.now (option_copied query.entry) body.now) }
    ensures sound { IfOk result IsSound }
{
    match query {
        Some(_) => Err(OrMemory::Refused(plain(alloc, 400, Tag::InvalidValue, App::Query))),
        None => with_body(alloc, name, body),
    }
}

fn read_at(alloc: Global, name: &Name, m: &HttpMessage) -> Commanded
    requires { IsTrue (is_operation name.now) }
    ensures command { Gives result (by_method name.now m.now) }
    ensures sound { IfOk result IsSound }
{
    if is_called(m.method.as_slice(), b"POST") {
        without_query(
            alloc,
            name,
            query_of(m.target.as_slice()),
            m.body.as_slice(),
        )
    } else {
        Err(OrMemory::Refused(method_fault(alloc)?))
    }
}

#[tactic(auto, unfolding(crate::specs::Operations::requested))]
fn command_of_request(alloc: Global, m: &HttpMessage) -> Commanded
    ensures command { Gives result (requested m.now) }
    ensures sound { IfOk result IsSound }
{
    match operation_named(alloc, path_of(m.target.as_slice()))? {
        Some(name) => read_at(alloc, &name, m),
        None => Err(OrMemory::Refused(plain(alloc, 404, Tag::InvalidValue, App::Path))),
    }
}

/// The command that a request gives, or its first fault: a path that is no operation's, a method other than POST, a query, and a
/// fault of the body. Each refusal can be written as a response.
pub fn read_operation(alloc: Global, m: &HttpMessage) -> Result<Command, OrMemory<RcError>>
    ensures command { Gives result (requested m.now) }
    ensures sound { IfOk result IsSound }
    ensures answerable { IfErr result CanBeAnswered }
{
    refusals_can_be_answered();
    command_of_request(alloc, m)
}
