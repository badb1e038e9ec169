// Laws for the crates above: each is the contract of a function with an empty body, or of one that calls other laws.
ghost use Rattle.std.specs.Prelude.{◌≡◌, ◌^◌, ◌<◌, ◌≤◌, ◌++◌, List, ℕ, Ok, Err, IfSome, IsUtf8, length};
ghost use Rattle.ikl_base.specs.Address.{IsAddress};
ghost use Rattle.ikl_base.specs.declared.address.Addr.{Addr};
ghost use Rattle.ikeless_tree.specs.Typed.{AreTypedPolicies, AreTypedRows, IsTypedNotice, IsTypedOrder, IsTypedTree};
ghost use Rattle.ikeless_tree.specs.declared.order.Answer.{Answer};
ghost use Rattle.ikeless_tree.specs.declared.order.Notice.{Notice};
ghost use Rattle.ikeless_tree.specs.declared.order.Order.{Order};
ghost use Rattle.ikeless_tree.specs.declared.sad.Tree.{Tree};
ghost use Rattle.reply_table.specs.declared.ask.Ask.{Ask};
ghost use Rattle.reply_table.specs.Order.{ask_of};
ghost use Rattle.reply_table.specs.Reply.{reply};
ghost use Rattle.rc_http.specs.declared.message.HttpFault.{HttpFault};
ghost use Rattle.rc_http.specs.declared.message.HttpMessage.{HttpMessage};
ghost use Rattle.rc_http.specs.declared.message.Kind.TheVariants.{Request, Response};
ghost use Rattle.rc_http.specs.Looks.{Gives, Looks};
ghost use Rattle.rc_http.specs.Written.{request_again, request_text, response_again, response_text, IsWritableRequest, IsWritableResponse};
ghost use Rattle.rc_request.specs.declared.error.RcError.{RcError};
ghost use Rattle.rc_request.specs.Asks.{IsAsk};
ghost use Rattle.rc_request.specs.Requests.{no_message, request_of};
ghost use Rattle.rc_answer.specs.Answers.{answer_of};
ghost use Rattle.rc_resource.specs.Lists.{IsTree};
ghost use Rattle.rc_resource.specs.Messages.{order_message, reply_message, IsOrder};
ghost use Rattle.rc_resource.specs.Replies.{refusal, reply_of};
ghost use Rattle.notice_lines.specs.Envelope.{IsNotice};
ghost use Rattle.notice_lines.specs.Reading.{IsHeard, IsLine};
ghost use Rattle.hist_wire.specs.Dates.{line_text};

/// Every order can be written as a request to every address: a list of 256 policies has less than 1 MiB, and the head less than
/// 8,192 octets.
pub fn orders_can_be_written()
    ensures { (host : Addr) (o : Order) → IsAddress host → IsOrder o → IsTypedOrder o → IsWritableRequest (order_message host o) }
{}

/// Every reply can be written as a response: the 4,096 halves of a gateway have less than 16 MiB. So can the refusal of whatever
/// can't be read as a request.
pub fn replies_can_be_written()
    ensures orders { (t : Tree) (o : Order) → IsTree t → AreTypedRows t.sad → AreTypedPolicies t.spd → IsOrder o → IsTypedOrder o
        → IsWritableResponse (reply_message (reply_of (reply t (ask_of o)))) }
    ensures asks { (t : Tree) (a : Ask) → IsTree t → IsTypedTree t → IsAsk a → IsWritableResponse (reply_message (reply_of (reply t a))) }
    ensures refusals { (m : HttpMessage) (e : RcError) → request_of m ≡ Err e → IsWritableResponse (reply_message (refusal e)) }
    ensures faults { (f : HttpFault) → IsWritableResponse (reply_message (refusal (no_message f))) }
{}

/// The pointer in the refusal of a request is text.
pub fn refusals_are_text()
    ensures { (m : HttpMessage) (e : RcError) → request_of m ≡ Err e → IfSome e.path IsUtf8 }
{}

/// Every notice has a line that is heard as that notice in any pieces: it has at most 4,096 octets before its LF.
pub fn lines_are_short()
    ensures line { (n : Notice) (seconds : ℕ) → IsNotice n → IsTypedNotice n → seconds < 2 ^ 32 → IsLine n seconds (line_text n seconds) }
    ensures heard { (n : Notice) (seconds : ℕ) → IsNotice n → IsTypedNotice n → seconds < 2 ^ 32 → IsHeard n (line_text n seconds) }
{
    notice_lines::written_is_heard();
}

/// A request that can be written is read, whatever follows it, as one that asks the same. The request of an order is read as what
/// the order asks.
pub fn requests_are_read()
    ensures looks { (m : HttpMessage) (rest : List ℕ) → IsWritableRequest m
        → Looks Request (request_text m ++ rest) (Gives (request_again m) (length (request_text m))) }
    ensures same { (m : HttpMessage) → request_of (request_again m) ≡ request_of m }
    ensures orders { (host : Addr) (o : Order) → IsAddress host → IsOrder o → IsTypedOrder o
        → (m : HttpMessage) × Looks Request (request_text (order_message host o)) (Gives m (length (request_text (order_message host o))))
        × (request_of m ≡ Ok (ask_of o)) }
{
    rc_resource::orders_are_read();
}

/// A response that can be written is read, whatever follows it, as one that answers each order in the same way.
pub fn responses_are_read()
    ensures looks { (m : HttpMessage) (rest : List ℕ) → IsWritableResponse m
        → Looks Response (response_text m ++ rest) (Gives (response_again m) (length (response_text m))) }
    ensures same { (m : HttpMessage) (o : Order) → answer_of o (response_again m) ≡ answer_of o m }
    ensures answers { (m : HttpMessage) (o : Order) (a : Answer) → IsWritableResponse m → answer_of o m ≡ Ok a
        → (n : HttpMessage) × Looks Response (response_text m) (Gives n (length (response_text m))) × (answer_of o n ≡ Ok a) }
{}
