// Laws for the crates above: each is the contract of a function with an empty body.
ghost use Rattle.std.specs.Prelude.{◌≡◌, ◌<◌, ◌≤◌, ℕ, false, List, [], length};
ghost use Rattle.hist_acts.specs.declared.event.Event.{Event};
ghost use Rattle.hist_acts.specs.declared.event.Header.{Header};
ghost use Rattle.hist_acts.specs.Past.{after};
ghost use Rattle.hist_halves.specs.Halves.{live};
ghost use Rattle.hist_controller.specs.Acts.{Way};
ghost use Rattle.hist_controller.specs.Counts.{lists_accepted};
ghost use Rattle.hist_controller.specs.Halves.{PlainAnswers};
ghost use Rattle.hist_controller.specs.Past.{left};
ghost use Rattle.hist_controller.specs.Told.{peer_name};
ghost use Rattle.hist_safety.specs.Law.{IsLawful};
ghost use Rattle.hist_safety.specs.Safe.{IsLastSafe, Safe};
ghost use Rattle.hist_world.specs.Block.{Past, Shows, history, nothing, past_after, is_forged_event};
ghost use Rattle.hist_world.specs.Events.{AreEventsOf, IsEventOf, IsKnown};
ghost use Rattle.hist_world.specs.Headers.{IsHeader};
ghost use Rattle.hist_world.specs.Lists.{NeverBack, commanded, put_in_force};
ghost use Rattle.hist_world.specs.Puts.{NoneRefused};
ghost use Rattle.hist_world.specs.Stands.{AreGenuine, Stands, past_at};

/// Whatever events come to gateways and their controller, each act may happen after those before it, up to the first forged
/// arrival.
pub fn is_every_history_lawful()
    ensures { (shows : Shows) (header : Header) (events : List Event) → IsHeader header → AreEventsOf header events
        → IsLawful header.gateways (after [] (history shows header nothing events)) }
{}

/// Whatever events come: no packet leaves in clear but where the first policy that holds it says bypass, no AES key and IV
/// seal twice, each packet that is given was let in at its peer and is given once, what is sent has its inbound half live
/// unless that met a hard limit or a restart, and what arrives unchanged and fresh before its half is ordered removed is given;
/// and no history ends with an arrival that must be given.
pub fn is_every_history_safe()
    ensures parts { (shows : Shows) (header : Header) (events : List Event) → IsHeader header → AreEventsOf header events
        → Safe header.gateways (after [] (history shows header nothing events)) }
    ensures end { (shows : Shows) (header : Header) (events : List Event) → IsHeader header → AreEventsOf header events
        → IsLastSafe header.gateways (after [] (history shows header nothing events)) }
{}

/// Between the events of a history without a forged arrival what happened is lawful and has no open question, the
/// controller's part of it is the controller's own past, and no direction of a tunnel idles.
pub fn stands_between_events()
    ensures start { (header : Header) → Stands header nothing }
    ensures event { (shows : Shows) (header : Header) (p : Past) (e : Event) → IsHeader header → IsEventOf header e → Stands header p
        → is_forged_event header p e ≡ false → Stands header (past_after shows header p e) }
    ensures history { (shows : Shows) (header : Header) (events : List Event) → IsHeader header → AreEventsOf header events
        → AreGenuine shows header nothing events → Stands header (past_at shows header nothing events) }
    ensures past { (shows : Shows) (header : Header) (events : List Event) → AreGenuine shows header nothing events
        → after [] (history shows header nothing events) ≡ (past_at shows header nothing events).world }
{}

/// Whatever events come, each put that a gateway handles is answered with 201, and so is each put whose answer the controller
/// hears: the half has a new name, an inbound one a new SPI, and there is room for it.
pub fn no_put_is_refused()
    ensures { (shows : Shows) (header : Header) (events : List Event) → IsHeader header → AreEventsOf header events
        → NoneRefused (after [] (history shows header nothing events)) }
{}

/// Between the events of a history without a forged arrival no put was answered otherwise than with 201 or a refusal, each
/// direction has two associations left at most, and at most 4,096 halves are live at a gateway.
pub fn few_halves_are_live()
    ensures plain { (shows : Shows) (header : Header) (events : List Event) → IsHeader header → AreEventsOf header events
        → AreGenuine shows header nothing events → PlainAnswers (past_at shows header nothing events).controller }
    ensures left { (shows : Shows) (header : Header) (events : List Event) → IsHeader header → AreEventsOf header events
        → AreGenuine shows header nothing events → (d : Way) → length (left d (past_at shows header nothing events).controller) ≤ 2 }
    ensures live { (shows : Shows) (header : Header) (events : List Event) → IsHeader header → AreEventsOf header events
        → AreGenuine shows header nothing events → (g : List ℕ) → length (live g (past_at shows header nothing events).world) ≤ 4096 }
{}

/// The lists of policies put in force at a gateway are lists commanded for it, in the order of the commands: some may be left
/// out and some come again, but none goes back. So it is between events, where those accepted for a gateway are those commanded,
/// and at the end of every history, with a forged arrival or without.
pub fn lists_never_go_back()
    ensures between { (header : Header) (p : Past) → IsHeader header → Stands header p → (g : ℕ) → g < length header.gateways
        → NeverBack (lists_accepted g p.controller) (put_in_force (peer_name header.gateways g) p.world) }
    ensures accepted { (shows : Shows) (header : Header) (events : List Event) → IsHeader header → (g : ℕ) → g < length header.gateways
        → lists_accepted g (past_at shows header nothing events).controller ≡ commanded (peer_name header.gateways g) events }
    ensures history { (shows : Shows) (header : Header) (events : List Event) → IsHeader header → AreEventsOf header events → (g : List ℕ)
        → IsKnown header g
        → NeverBack (commanded g events) (put_in_force g (after [] (history shows header nothing events))) }
{}
