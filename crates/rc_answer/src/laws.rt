// Laws for the crates above: each is the contract of a function with an empty body.
ghost use Rattle.std.specs.Prelude.{◌≡◌, true, Ok};
ghost use Rattle.ikeless_tree.specs.declared.order.Answer.{Answer};
ghost use Rattle.ikeless_tree.specs.declared.order.Order.{Order};
ghost use Rattle.rc_http.specs.declared.message.HttpMessage.{HttpMessage};
ghost use Rattle.rc_answer.specs.Answers.{answer_of, is_status_of};

/// An answer has the status of its response, which is one of those of its order.
pub fn answers_have_statuses()
    ensures { (o : Order) (m : HttpMessage) (a : Answer) → answer_of o m ≡ Ok a
        → (a.status ≡ m.status) × (is_status_of o a.status ≡ true) }
{}
