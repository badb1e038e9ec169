// Laws for the crates above: each is the contract of a function with an empty body, or of one that calls other laws.
ghost use Rattle.std.specs.Prelude.{◌≡◌, Ok, IfSome, IsUtf8};
ghost use Rattle.ikl_base.specs.declared.address.Addr.{Addr};
ghost use Rattle.ikeless_tree.specs.declared.sad.Tree.{Tree};
ghost use Rattle.ikeless_tree.specs.declared.order.Order.{Order};
ghost use Rattle.reply_table.specs.Order.{ask_of};
ghost use Rattle.reply_table.specs.Reply.{reply};
ghost use Rattle.rc_request.specs.declared.error.RcError.{RcError};
ghost use Rattle.rc_answer.specs.Answers.{answer_of, error_of};
ghost use Rattle.ikeless_tree.specs.Typed.{AreTypedRows, IsTypedOrder};
ghost use Rattle.rc_resource.specs.Laws.{answer_by};
ghost use Rattle.rc_resource.specs.Lists.{IsTree};
ghost use Rattle.rc_resource.specs.Messages.{order_message, reply_message, IsOrder};
ghost use Rattle.rc_resource.specs.Replies.{refusal, reply_of};
ghost use Rattle.rc_request.specs.Requests.{request_of};

/// The request of an order is read as what that order asks: its numbers are those of its types, as those of every order that a
/// program has, and `order_request` gives the same without that premise.
pub fn orders_are_read()
    ensures { (host : Addr) (o : Order) → IsOrder o → IsTypedOrder o → request_of (order_message host o) ≡ Ok (ask_of o) }
{
    json_codec::policies_read_again();
    json_codec::one_sad_entry_reads_again();
}

/// The response of the reply to what an order asks is read, with that order, as the status, tag and names of the reply: the
/// numbers of the rows are those of their types, and `apply` gives the same without that premise.
pub fn answers_are_read()
    ensures { (t : Tree) (o : Order) → IsTree t → AreTypedRows t.sad
        → answer_of o (reply_message (reply_of (reply t (ask_of o)))) ≡ Ok (answer_by (reply t (ask_of o))) }
{}

/// The body of every refusal is read as its tags.
pub fn errors_are_read()
    ensures { (e : RcError) → IfSome e.path IsUtf8 → error_of (refusal e).body ≡ Ok (record { tag = e.tag; app = e.app }) }
{}
