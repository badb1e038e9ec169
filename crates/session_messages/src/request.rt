// Orders as requests.
ghost use Rattle.std.specs.Prelude.{◌≡◌, ◌<◌, Ok, IfOk, length};
ghost use Rattle.ikl_base.specs.declared.address.Addr.{Addr as Address};
ghost use Rattle.ikeless_tree.specs.declared.order.Order.{Order as Given};
ghost use Rattle.reply_table.specs.Order.{ask_of};
ghost use Rattle.rc_http.specs.declared.message.Kind.TheVariants.{Request};
ghost use Rattle.rc_http.specs.Looks.{Looked, Looks};
ghost use Rattle.rc_http.specs.Written.{request_text};
ghost use Rattle.rc_request.specs.Requests.{request_of};
ghost use Rattle.rc_resource.specs.Messages.{order_message};
ghost use Rattle.gw_requests.specs.Requests.{IsRequest};
ghost use Rattle.session_messages.specs.Whole.{ask_in, whole_in};
ghost use Rattle.world_steps.specs.Conditions.{IsSent};

use crate::message::read_whole;
use ikeless_tree::Order;
use ikl_base::{Addr, NoMemory, Octets, OrMemory};
use rc_http::{Feeder, HttpMessage, write_request};
use rc_resource::{Ask, RcError, message_fault, order_request, read_request};
use std::alloc::Global;
use text_bounds::{refusals_are_text, requests_are_read};

/// The octets of the request that carries an order to a gateway at this address (RFC 8040, RFC 9112).
pub fn write_order(alloc: Global, host: &Addr, o: &Order) -> Result<Octets, NoMemory>
    requires { IsSent host.now o.now }
    ensures text { IfOk result (λ text. text ≡ request_text (order_message host.now o.now)) }
    ensures some { IfOk result (λ text. 0 < length text) }
{
    let message = order_request(alloc, host, o)?;
    write_request(alloc, &message)
}

fn asked(alloc: Global, m: &HttpMessage) -> Result<Result<Ask, RcError>, NoMemory>
    ensures ask { IfOk result (λ r. r ≡ request_of m.now) }
    ensures request { IfOk result IsRequest }
{
    refusals_are_text();
    match read_request(alloc, m) {
        Ok(ask) => Ok(Ok(ask)),
        Err(OrMemory::Refused(refused)) => Ok(Err(refused)),
        Err(OrMemory::NoMemory) => Err(NoMemory),
    }
}

fn ask(alloc: Global, octets: &[u8]) -> Result<Result<Ask, RcError>, NoMemory>
    ensures ask { (looked : Looked) → Looks Request octets.now looked
        → IfOk result (λ r. r ≡ ask_in (whole_in (length octets.now) looked)) }
    ensures request { IfOk result IsRequest }
{
    match read_whole(Feeder::requests(alloc), octets) {
        Ok(message) => asked(alloc, &message),
        Err(OrMemory::Refused(fault)) => Ok(Err(message_fault(alloc, fault))),
        Err(OrMemory::NoMemory) => Err(NoMemory),
    }
}

/// What the request asks that all these octets are, or why it is refused. Octets that aren't one whole request, or have more
/// octets behind it, are refused as a bad head.
pub fn read_ask(alloc: Global, octets: &[u8]) -> Result<Result<Ask, RcError>, NoMemory>
    ensures ask { (looked : Looked) → Looks Request octets.now looked
        → IfOk result (λ r. r ≡ ask_in (whole_in (length octets.now) looked)) }
    ensures request { IfOk result IsRequest }
    ensures order { (host : Address) (o : Given) → octets.now ≡ request_text (order_message host o) → IsSent host o
        → request_of (order_message host o) ≡ Ok (ask_of o) → IfOk result (λ r. r ≡ Ok (ask_of o)) }
{
    requests_are_read();
    ask(alloc, octets)
}
