// Replies to commands, written.
ghost use Rattle.std.specs.Prelude.{◌≡◌, IfOk};
ghost use Rattle.rc_http.specs.Written.{response_text, IsWritableResponse};
ghost use Rattle.rc_resource.specs.Messages.{reply_message};
ghost use Rattle.rc_operations.specs.Replies.{command_error, command_reply, command_response, error_response, fault_response, refusal_status, refusal_tag, IsAnswerable};

use crate::laws::refusals_can_be_answered;
use ikeless_tree::{App, Names, Refusal, Tag};
use ikl_base::{NoMemory, Octets};
use rc_http::{HttpFault, write_response};
use rc_request::{RcError, message_fault};
use rc_resource::{Change, Reply, error_reply, reply_response};
use std::alloc::Global;

fn status_of(why: Refusal) -> u16
    ensures { result ≡ refusal_status why }
{
    match why {
        Refusal::UnknownGateway | Refusal::NoTunnel => 404,
        Refusal::SameGateway | Refusal::KeyLength => 400,
        Refusal::TunnelExists | Refusal::TunnelLimit | Refusal::KeySeen | Refusal::KeyLimit => 409,
    }
}

fn tag_of(why: Refusal) -> Tag
    ensures { result ≡ refusal_tag why }
{
    match why {
        Refusal::UnknownGateway | Refusal::NoTunnel | Refusal::SameGateway | Refusal::KeyLength =>
            Tag::InvalidValue,
        Refusal::TunnelExists | Refusal::TunnelLimit | Refusal::KeySeen | Refusal::KeyLimit =>
            Tag::ResourceDenied,
    }
}

fn error_of(alloc: Global, why: Refusal) -> RcError
    ensures { result ≡ command_error why }
{
    RcError {
        status: status_of(why),
        tag: tag_of(why),
        app: App::Refused(why),
        path: None,
        allow: Octets::new(alloc),
    }
}

fn done(alloc: Global) -> Reply
    ensures { result ≡ command_reply None }
{
    Reply {
        status: 204,
        tag: None,
        names: Names::new(alloc),
        location: Octets::new(alloc),
        allow: Octets::new(alloc),
        body: Octets::new(alloc),
        change: Change::Nothing,
    }
}

fn reply_to(alloc: Global, refused: Option<Refusal>) -> Result<Reply, NoMemory>
    ensures { IfOk result (λ r. r ≡ command_reply refused) }
{
    match refused {
        None => Ok(done(alloc)),
        Some(why) => error_reply(alloc, &error_of(alloc, why)),
    }
}

fn write(alloc: Global, r: &Reply) -> Result<Octets, NoMemory>
    requires { IsWritableResponse (reply_message r.now) }
    ensures { IfOk result (λ text. text ≡ response_text (reply_message r.now)) }
{
    let message = reply_response(alloc, r)?;
    write_response(alloc, &message)
}

/// The response to a command that is accepted, or refused for this reason.
pub fn write_command_reply(alloc: Global, refused: Option<Refusal>) -> Result<Octets, NoMemory>
    ensures { IfOk result (λ text. text ≡ command_response refused) }
{
    refusals_can_be_answered();
    let reply = reply_to(alloc, refused)?;
    write(alloc, &reply)
}

/// The response to a request that gives no command.
pub fn write_error(alloc: Global, e: &RcError) -> Result<Octets, NoMemory>
    requires { IsAnswerable e.now }
    ensures { IfOk result (λ text. text ≡ error_response e.now) }
{
    let reply = error_reply(alloc, e)?;
    write(alloc, &reply)
}

/// The response to octets that are no request.
pub fn write_fault(alloc: Global, fault: HttpFault) -> Result<Octets, NoMemory>
    ensures { IfOk result (λ text. text ≡ fault_response fault) }
{
    refusals_can_be_answered();
    write_error(alloc, &message_fault(alloc, fault))
}
