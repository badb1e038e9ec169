// Laws for the crates above: each is the contract of a function with an empty body.
ghost use Rattle.std.specs.Prelude.{◌≡◌, ◌+◌, ◌≤◌, ◌==◌, ℕ, true, false, List, [], ◌∷◌, Option, Some, None, drop, length, map, slice_get, take, if◌then◌else◌};
ghost use Rattle.ikeless_tree.specs.declared.order.Answer.{Answer};
ghost use Rattle.ikeless_tree.specs.declared.order.Notice.{Notice};
ghost use Rattle.ikeless_tree.specs.declared.order.Order.{Order};
ghost use Rattle.hist_acts.specs.declared.act.Act.{Act};
ghost use Rattle.hist_acts.specs.declared.act.Act.TheVariants as acts;
ghost use Rattle.hist_acts.specs.declared.event.Event.{Event};
ghost use Rattle.hist_acts.specs.declared.event.Header.{Header};
ghost use Rattle.hist_acts.specs.Past.{after};
ghost use Rattle.hist_acts.specs.Sessions.{answer_at, answered, handled, is_open, next_answer, next_notice, next_request, notices, notices_heard, openings, order_at, orders, orders_given, session_taken};
ghost use Rattle.session_pipe.specs.Sessions.{KeepsSessions};
ghost use Rattle.session_pipe.specs.Past.{pipe_of};
ghost use Rattle.session_pipe.specs.UnderWay.{no_session};
ghost use Rattle.hist_world.specs.Block.{Past, Shows, block, history, nothing};
ghost use Rattle.hist_world.specs.Events.{AreEventsOf, IsEventOf};
ghost use Rattle.hist_world.specs.Headers.{IsHeader};
ghost use Rattle.hist_world.specs.Stands.{Stands};
ghost use Rattle.hist_sessions.specs.Heard.{Follows, answers_given, answers_heard, told};
ghost use Rattle.hist_sessions.specs.Pipes.{piped};

/// Whatever events come, the acts of sessions stand where they may, block by block and at the end of every history, with a forged
/// arrival or without.
pub fn every_history_keeps_sessions()
    ensures event { (shows : Shows) (header : Header) (p : Past) (e : Event) → IsHeader header → IsEventOf header e → Stands header p
        → KeepsSessions p.world
        → KeepsSessions (after p.world (block shows header p e)) }
    ensures history { (shows : Shows) (header : Header) (events : List Event) → IsHeader header → AreEventsOf header events
        → KeepsSessions (after [] (history shows header nothing events)) }
    ensures back { (h more : List Act) → KeepsSessions (after h more) → KeepsSessions h }
{}

/// What that says of each act, wherever it stands: a session is opened where none is open, and cut where it is open; an order is
/// given in the open session, with the next number; what is handled is the next request of the session that the gateway has;
/// what the controller hears is the next answer and the next notice of its open session; and a notice is of the session that the
/// gateway has, or of none.
pub fn each_act_has_its_place()
    ensures opened { (h older : List Act) (g : List ℕ) (s : ℕ) → KeepsSessions h → Follows h (acts.Opened g s) older
        → (is_open g older ≡ false) × (s ≡ openings g older + 1) }
    ensures cut { (h older : List Act) (g : List ℕ) (s : ℕ) → KeepsSessions h → Follows h (acts.Cut g s) older
        → (is_open g older ≡ true) × (s ≡ openings g older) }
    ensures ordered { (h older : List Act) (g : List ℕ) (s k : ℕ) (o : Order) → KeepsSessions h → Follows h (acts.Order g s k o) older
        → (is_open g older ≡ true) × (s ≡ openings g older) × (k ≡ orders g s older + 1) }
    ensures handled { (h older : List Act) (g : List ℕ) (s k : ℕ) (a : Answer) → KeepsSessions h → Follows h (acts.Handled g s k a) older
        → (s ≡ session_taken g older) × (k ≡ handled g s older + 1) × ((o : Order) × (next_request g older ≡ Some o)) }
    ensures answered { (h older : List Act) (g : List ℕ) (s k : ℕ) (a : Answer) → KeepsSessions h → Follows h (acts.Answered g s k a) older
        → (s ≡ openings g older) × (k ≡ answered g s older + 1) × (next_answer g older ≡ Some a) }
    ensures noticed { (h older : List Act) (g : List ℕ) (s : ℕ) (n : Notice) → KeepsSessions h → Follows h (acts.Notice g s n) older
        → s ≡ session_taken g older }
    ensures heard { (h older : List Act) (g : List ℕ) (s : ℕ) (n : Notice) → KeepsSessions h → Follows h (acts.Heard g s n) older
        → (s ≡ openings g older) × (next_notice g older ≡ Some n) }
{}

/// Numbers go by one: the order and the answer with a number are those at its place among the orders given and the requests handled
/// in the session. The answers heard are the first of those given, and the notices heard the first of those told, each in its order.
pub fn goes_by_numbers()
    ensures order { (g : List ℕ) (s k : ℕ) (h : List Act) → KeepsSessions h → order_at g s (k + 1) h ≡ slice_get (orders_given g s h) k }
    ensures orders { (g : List ℕ) (s : ℕ) (h : List Act) → length (orders_given g s h) ≡ orders g s h }
    ensures answer { (g : List ℕ) (s k : ℕ) (h : List Act) → KeepsSessions h → answer_at g s (k + 1) h ≡ slice_get (answers_given g s h) k }
    ensures handled { (g : List ℕ) (s : ℕ) (h : List Act) → length (answers_given g s h) ≡ handled g s h }
    ensures answers { (g : List ℕ) (s : ℕ) (h : List Act) → KeepsSessions h
        → answers_heard g s h ≡ take (answered g s h) (answers_given g s h) }
    ensures notices { (g : List ℕ) (s : ℕ) (h : List Act) → KeepsSessions h → told g s h ≡ take (notices_heard g s h) (notices g s h) }
    ensures few_answers { (g : List ℕ) (s : ℕ) (h : List Act) → KeepsSessions h → answered g s h ≤ handled g s h }
    ensures few_notices { (g : List ℕ) (s : ℕ) (h : List Act) → KeepsSessions h → notices_heard g s h ≤ length (notices g s h) }
{}

/// A pipe that is called as the acts of a block or of a history happen is the one that the past stands for, whatever messages carry
/// its orders, answers and notices. Its requests, where each is made from its order alone, are those of the orders given in the
/// session that the gateway has and not handled.
pub fn pipes_follow_histories()
    ensures acts { (request : List Act → Order → List ℕ) (response : List Act → Answer → List ℕ) (line : List Act → Notice → List ℕ)
        (g : List ℕ) (h more : List Act)
        → KeepsSessions (after h more) → piped request response line g h more (pipe_of request response line g h) ≡ pipe_of request response line g (after h more) }
    ensures history { (shows : Shows) (header : Header) (events : List Event) (request : List Act → Order → List ℕ) (response : List Act
        → Answer → List ℕ) (line : List Act → Notice → List ℕ)
        (g : List ℕ) → IsHeader header → AreEventsOf header events
        → piped request response line g [] (history shows header nothing events) no_session ≡ pipe_of request response line g (after [] (history shows header nothing events)) }
    ensures down { (request : Order → List ℕ) (response : List Act → Answer → List ℕ) (line : List Act → Notice → List ℕ) (g : List ℕ)
        (h : List Act)
        → (pipe_of (λ w o. request o) response line g h).down
        ≡ (if session_taken g h == 0 then [] else map request (drop (handled g (session_taken g h) h) (orders_given g (session_taken g h) h))) }
{}
