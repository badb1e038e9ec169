// Laws for the crates above: each is the contract of a function with an empty body.
ghost use Rattle.std.specs.Prelude.{◌≡◌, ℕ, List, [], Ok};
ghost use Rattle.event_lines.specs.Event.{event_of};
ghost use Rattle.event_lines.specs.Header.{header_of};
ghost use Rattle.hist_acts.specs.declared.event.Event.{Event};
ghost use Rattle.hist_acts.specs.declared.event.Header.{Header};
ghost use Rattle.hist_acts.specs.Past.{after};
ghost use Rattle.hist_safety.specs.Safe.{IsLastSafe, Safe};
ghost use Rattle.hist_world.specs.Block.{Shows, history, nothing};
ghost use Rattle.hist_world.specs.Events.{AreEventsOf, IsEventOf};
ghost use Rattle.hist_world.specs.Headers.{IsHeader};
ghost use Rattle.hist_scripts.specs.Script.{AreLinesOf};

/// What a line is read as, as a header, is a header that the whole can have: names apart, whole addresses of one family, and a
/// greatest number below 2^32.
pub fn reads_headers()
    ensures { (line : List ℕ) (header : Header) → header_of line ≡ Ok header → IsHeader header }
{}

/// What a line is read as, as an event under a header, is an event of that header.
pub fn reads_events()
    ensures one { (header : Header) (line : List ℕ) (e : Event) → event_of header.gateways line ≡ Ok e → IsEventOf header e }
    ensures all { (header : Header) (lines : List (List ℕ)) (events : List Event) → AreLinesOf header lines events
        → AreEventsOf header events }
{}

/// The history of every script is safe in its five parts, and doesn't end with an arrival that must be given: whatever stands in
/// its first line and in the lines after it, as far as they are read.
pub fn is_every_script_safe()
    ensures parts { (shows : Shows) (line : List ℕ) (header : Header) (lines : List (List ℕ)) (events : List Event)
        → header_of line ≡ Ok header → AreLinesOf header lines events → Safe header.gateways (after [] (history shows header nothing events)) }
    ensures end { (shows : Shows) (line : List ℕ) (header : Header) (lines : List (List ℕ)) (events : List Event)
        → header_of line ≡ Ok header → AreLinesOf header lines events → IsLastSafe header.gateways (after [] (history shows header nothing events)) }
{}
