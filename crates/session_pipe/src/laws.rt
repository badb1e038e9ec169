// The pipe and the past.
ghost use Rattle.std.specs.Prelude.{◌≡◌, ℕ, List, [], ◌∷◌, None, Some, MatchOption, if◌then◌else◌};
ghost use Rattle.ikeless_tree.specs.declared.order.Answer.{Answer};
ghost use Rattle.ikeless_tree.specs.declared.order.Notice.{Notice};
ghost use Rattle.ikeless_tree.specs.declared.order.Order.{Order};
ghost use Rattle.ikeless_tree.specs.declared.order.Lane.TheVariants as lanes;
ghost use Rattle.hist_acts.specs.declared.act.Act.{Act};
ghost use Rattle.hist_acts.specs.Sessions.{next_request, next_answer, next_notice};
ghost use Rattle.session_pipe.specs.UnderWay.{no_session, next_message};
ghost use Rattle.session_pipe.specs.Sessions.{KeepsSessions};
ghost use Rattle.session_pipe.specs.Past.{pipe_of, after_act, is_at};

/// A pipe that is called as each act happens is the one that the past stands for.
pub fn follows_the_past()
    ensures start { (request : List Act → Order → List ℕ) (response : List Act → Answer → List ℕ) (line : List Act → Notice → List ℕ)
        (g : List ℕ) →
        pipe_of request response line g [] ≡ no_session }
    ensures moves { (request : List Act → Order → List ℕ) (response : List Act → Answer → List ℕ) (line : List Act → Notice → List ℕ)
        (g : List ℕ) (a : Act) (h : List Act) →
        KeepsSessions (a ∷ h) → pipe_of request response line g (a ∷ h) ≡ (if is_at g a then after_act request response line a h (pipe_of request response line g h) else pipe_of request response line g h) }
{}

/// The message that an end takes next is that of the next request, answer or notice, and there is none exactly where
/// there is no next one.
pub fn gives_what_is_next()
    ensures request { (request : List Act → Order → List ℕ) (response : List Act → Answer → List ℕ) (line : List Act → Notice → List ℕ)
        (g : List ℕ) (h : List Act) →
        KeepsSessions h → let message = next_message lanes.Down (pipe_of request response line g h) in
        MatchOption (next_request g h) (message ≡ None) (λ o. (w : List Act) × (message ≡ Some (request w o))) }
    ensures answer { (request : List Act → Order → List ℕ) (response : List Act → Answer → List ℕ) (line : List Act → Notice → List ℕ)
        (g : List ℕ) (h : List Act) →
        KeepsSessions h → let message = next_message lanes.Up (pipe_of request response line g h) in
        MatchOption (next_answer g h) (message ≡ None) (λ a. (w : List Act) × (message ≡ Some (response w a))) }
    ensures notice { (request : List Act → Order → List ℕ) (response : List Act → Answer → List ℕ) (line : List Act → Notice → List ℕ)
        (g : List ℕ) (h : List Act) →
        KeepsSessions h → let message = next_message lanes.Note (pipe_of request response line g h) in
        MatchOption (next_notice g h) (message ≡ None) (λ n. (w : List Act) × (message ≡ Some (line w n))) }
{}
