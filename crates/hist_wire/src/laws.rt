// Laws for the crates above: each is the contract of a function with an empty body.
ghost use Rattle.std.specs.Prelude.{◌≡◌, ◌≤◌, ◌/◌, ◌==◌, ℕ, true, List, [], ◌∷◌, ◌++◌, Some, drop, length, map, take, if◌then◌else◌};
ghost use Rattle.ikl_base.specs.declared.address.Addr.{Addr};
ghost use Rattle.ikeless_tree.specs.declared.order.Answer.{Answer};
ghost use Rattle.ikeless_tree.specs.declared.order.Lane.{Lane};
ghost use Rattle.ikeless_tree.specs.declared.order.Notice.{Notice};
ghost use Rattle.ikeless_tree.specs.declared.order.Order.{Order};
ghost use Rattle.rc_http.specs.Written.{request_text, response_text};
ghost use Rattle.rc_resource.specs.Messages.{order_message, reply_message};
ghost use Rattle.rc_resource.specs.Replies.{reply_of};
ghost use Rattle.notice_lines.specs.Moments.{IsStamp};
ghost use Rattle.notice_lines.specs.Reading.{IsLine};
ghost use Rattle.hist_acts.specs.declared.act.Act.{Act};
ghost use Rattle.hist_acts.specs.declared.act.Act.TheVariants as acts;
ghost use Rattle.hist_acts.specs.declared.event.Event.{Event};
ghost use Rattle.hist_acts.specs.declared.event.Header.{Header};
ghost use Rattle.hist_acts.specs.Past.{after};
ghost use Rattle.hist_acts.specs.Sessions.{handled, next_request, orders_given, session_taken};
ghost use Rattle.hist_gateway.specs.Block as node;
ghost use Rattle.hist_gateway.specs.Handle.{answer_of};
ghost use Rattle.hist_safety.specs.Safe.{IsLastSafe, Safe};
ghost use Rattle.session_pipe.specs.Sessions.{KeepsSessions};
ghost use Rattle.hist_world.specs.Block.{Past, Shows, block, gateway_at, history, is_forged_event, nothing};
ghost use Rattle.hist_world.specs.Events.{AreEventsOf};
ghost use Rattle.hist_world.specs.Headers.{IsHeader};
ghost use Rattle.hist_world.specs.Stands.{past_at};
ghost use Rattle.hist_blocks.specs.Blocks.{joined};
ghost use Rattle.hist_sessions.specs.Heard.{Follows};
ghost use Rattle.hist_sessions.specs.Pipes.{piped};
ghost use Rattle.hist_wire.specs.Dates.{line_text, stamp};
ghost use Rattle.hist_wire.specs.Wire.{first_octets, line_at, outcome_at, pipe_at, request_at, response_at, under_way};
ghost use Rattle.hist_wire.specs.Replies.{AllReplied};
ghost use Rattle.hist_wire.specs.Histories.{IsHistory, LastForged, NoneForged};

/// The text of a clock is that of its moment, up to the end of the year 9999, and the line that is written of a notice is the one
/// stated.
pub fn notices_have_one_line()
    ensures stamp { (seconds : ℕ) → seconds / 86400 ≤ 2932896 → IsStamp seconds (stamp seconds) }
    ensures line { (n : Notice) (seconds : ℕ) (line : List ℕ) → seconds / 86400 ≤ 2932896 → IsLine n seconds line
        → line ≡ line_text n seconds }
{}

/// What `wire` shows of a lane are its first 4,096 octets in the pipe that is called as the acts happen. The requests in it are
/// those of the orders given and not handled, each with the gateway's address as its Host.
pub fn wire_shows_what_is_under_way()
    ensures pipe { (header : Header) (g : List ℕ) (c : node.Gateway) (lane : Lane) (h more : List Act) → gateway_at header g ≡ Some c
        → KeepsSessions (after h more)
        → under_way header g lane (after h more) ≡ first_octets lane (piped (request_at c.address) (response_at g) line_at g h more (pipe_at g c.address h)) }
    ensures requests { (g : List ℕ) (host : Addr) (h : List Act) → (pipe_at g host h).down
        ≡ (if session_taken g h == 0 then [] else map (λ o. request_text (order_message host o)) (drop (handled g (session_taken g h) h) (orders_given g (session_taken g h) h))) }
    ensures few { (header : Header) (g : List ℕ) (lane : Lane) (h : List Act) → length (under_way header g lane h) ≤ 4096 }
{}

/// Each answer of a gateway is that of the reply to its next request, over the databases as they were before its change. So the
/// response under way is of the reply that was given.
pub fn answers_are_of_replies()
    ensures history { (shows : Shows) (header : Header) (events : List Event)
        → AllReplied (after [] (history shows header nothing events)) }
    ensures event { (shows : Shows) (header : Header) (p : Past) (e : Event) → AllReplied p.world
        → AllReplied (after p.world (block shows header p e)) }
    ensures each { (h older : List Act) (g : List ℕ) (s k : ℕ) (a : Answer) → AllReplied h → Follows h (acts.Handled g s k a) older
        → (o : Order) × (next_request g older ≡ Some o) × (a ≡ answer_of (outcome_at g older o)) }
    ensures response { (g : List ℕ) (h : List Act) (a : Answer) (o : Order) → next_request g h ≡ Some o
        → response_at g h a ≡ response_text (reply_message (reply_of (outcome_at g h o))) }
{}

/// The events of a script have one history: it has one block for each event, and a forged arrival ends it. It is that of the law of
/// the whole, and goes on with the block of one more event. Fewer events have the first of its blocks.
pub fn has_one_history()
    ensures is { (header : Header) (events : List Event) → IsHistory header events (history (under_way header) header nothing events) }
    ensures one { (header : Header) (events : List Event) (h k : List Act) → IsHistory header events h → IsHistory header events k → h ≡ k }
    ensures more { (header : Header) (events : List Event) (e : Event) (h : List Act) → IsHistory header events h → NoneForged header events
        → IsHistory header (events ++ e ∷ []) (h ++ block (under_way header) header (past_at (under_way header) header nothing events) e) }
    ensures front { (header : Header) (n : ℕ) (events : List Event) (h : List Act) (i : IsHistory header events h)
        → IsHistory header (take n events) (joined (take n i.blocks)) }
    ensures count { (header : Header) (events : List Event) (h : List Act) (i : IsHistory header events h) → NoneForged header events
        → length i.blocks ≡ length events }
    ensures forged { (header : Header) (events : List Event) → LastForged header events
        → (before : List Event) × (last : Event) × (events ≡ before ++ last ∷ []) × NoneForged header before
        × (is_forged_event header (past_at (under_way header) header nothing before) last ≡ true) }
{}

/// The history of a script is safe in its five parts, and doesn't end with an arrival that must be given.
pub fn is_every_history_safe()
    ensures parts { (header : Header) (events : List Event) (h : List Act) → IsHeader header → AreEventsOf header events
        → IsHistory header events h
        → Safe header.gateways (after [] h) }
    ensures end { (header : Header) (events : List Event) (h : List Act) → IsHeader header → AreEventsOf header events
        → IsHistory header events h
        → IsLastSafe header.gateways (after [] h) }
    ensures sessions { (header : Header) (events : List Event) (h : List Act) → IsHeader header → AreEventsOf header events
        → IsHistory header events h
        → KeepsSessions (after [] h) }
{}
