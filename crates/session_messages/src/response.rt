// Replies as responses.
ghost use Rattle.std.specs.Prelude.{◌≡◌, ◌<◌, Ok, Some, IfOk, length};
ghost use Rattle.ikeless_tree.specs.declared.order.Answer.{Answer as Said};
ghost use Rattle.rc_http.specs.declared.message.Kind.TheVariants.{Response};
ghost use Rattle.rc_http.specs.Looks.{Looked, Looks};
ghost use Rattle.rc_http.specs.Written.{response_text, IsWritableResponse};
ghost use Rattle.rc_answer.specs.Answers.{answer_of};
ghost use Rattle.rc_resource.specs.declared.reply.Reply.{Reply as Replied};
ghost use Rattle.rc_resource.specs.Messages.{reply_message};
ghost use Rattle.session_messages.specs.Whole.{answer_in, if_good, whole_in};

use crate::message::read_whole;
use ikeless_tree::{Answer, Order};
use ikl_base::{NoMemory, Octets, OrMemory};
use rc_http::{Feeder, HttpMessage, write_response};
use rc_resource::{Reply, read_answer, reply_response};
use std::alloc::Global;
use text_bounds::responses_are_read;

/// The octets of the response that carries a reply (RFC 8040, RFC 9112).
pub fn write_reply(alloc: Global, r: &Reply) -> Result<Octets, NoMemory>
    requires { IsWritableResponse (reply_message r.now) }
    ensures text { IfOk result (λ text. text ≡ response_text (reply_message r.now)) }
    ensures some { IfOk result (λ text. 0 < length text) }
{
    let message = reply_response(alloc, r)?;
    write_response(alloc, &message)
}

fn answered(alloc: Global, o: &Order, m: &HttpMessage) -> Result<Option<Answer>, NoMemory>
    ensures { IfOk result (λ x. x ≡ if_good (answer_of o.now m.now)) }
{
    match read_answer(alloc, o, m) {
        Ok(answer) => Ok(Some(answer)),
        Err(OrMemory::Refused(_)) => Ok(None),
        Err(OrMemory::NoMemory) => Err(NoMemory),
    }
}

fn answer(alloc: Global, o: &Order, octets: &[u8]) -> Result<Option<Answer>, NoMemory>
    ensures { (looked : Looked) → Looks Response octets.now looked
        → IfOk result (λ x. x ≡ answer_in o.now (whole_in (length octets.now) looked)) }
{
    match read_whole(Feeder::responses(alloc), octets) {
        Ok(message) => answered(alloc, o, &message),
        Err(OrMemory::Refused(_)) => Ok(None),
        Err(OrMemory::NoMemory) => Err(NoMemory),
    }
}

/// The answer to an order that the response says which all these octets are. There is none where the octets aren't one whole
/// response, have more octets behind it, or are no answer to this order.
pub fn read_reply(alloc: Global, o: &Order, octets: &[u8]) -> Result<Option<Answer>, NoMemory>
    ensures answer { (looked : Looked) → Looks Response octets.now looked
        → IfOk result (λ x. x ≡ answer_in o.now (whole_in (length octets.now) looked)) }
    ensures reply { (r : Replied) (a : Said) → octets.now ≡ response_text (reply_message r) → IsWritableResponse (reply_message r)
        → answer_of o.now (reply_message r) ≡ Ok a → IfOk result (λ x. x ≡ Some a) }
{
    responses_are_read();
    answer(alloc, o, octets)
}
