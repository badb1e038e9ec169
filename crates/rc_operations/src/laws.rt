// Laws for the crates above: each is the contract of a function with an empty body, or of one that calls other laws.
ghost use Rattle.std.specs.Prelude.{◌≡◌, Option, Ok, Err};
ghost use Rattle.ikeless_tree.specs.declared.command.Refusal.{Refusal};
ghost use Rattle.rc_http.specs.declared.message.HttpFault.{HttpFault};
ghost use Rattle.rc_http.specs.declared.message.HttpMessage.{HttpMessage};
ghost use Rattle.rc_http.specs.Written.{IsWritableResponse};
ghost use Rattle.rc_request.specs.declared.error.RcError.{RcError};
ghost use Rattle.rc_request.specs.Requests.{no_message};
ghost use Rattle.rc_resource.specs.Messages.{reply_message};
ghost use Rattle.rc_operations.specs.Operations.{requested};
ghost use Rattle.rc_operations.specs.Replies.{command_reply, told_of, told_reply, IsAnswerable};

/// Every refusal can be written as a response: of a request that gives no command, of octets that are no request, and of a
/// command; and so can the reply to one that is accepted.
pub fn refusals_can_be_answered()
    ensures requests { (m : HttpMessage) (e : RcError) → requested m ≡ Err e → IsAnswerable e }
    ensures faults { (f : HttpFault) → IsAnswerable (no_message f) }
    ensures commands { (refused : Option Refusal) → IsWritableResponse (reply_message (command_reply refused)) }
{}

/// What the reply to a command tells a client is whether it was accepted, and why not.
pub fn replies_are_told()
    ensures { (refused : Option Refusal) → told_of (reply_message (command_reply refused)) ≡ Ok (told_reply refused) }
{
    rc_resource::errors_are_read();
}
