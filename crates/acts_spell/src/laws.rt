// Laws for the crates above: each is the contract of a function that only calls such functions.
ghost use Rattle.std.specs.Prelude.{◌≡◌, ◌<◌, ◌-◌, ◌^◌, ℕ, false, List, All, Ok, length};
ghost use Rattle.ikeless_tree.specs.declared.command.Peer.{Peer};
ghost use Rattle.hist_acts.specs.declared.event.Event.{Event};
ghost use Rattle.hist_acts.specs.declared.event.Header.{Header};
ghost use Rattle.hist_acts.specs.Past.{events_taken};
ghost use Rattle.hist_world.specs.Block.{Past, block, history, is_forged_event, nothing, past_after};
ghost use Rattle.hist_wire.specs.Wire.{under_way};
ghost use Rattle.event_lines.specs.Event.{event_of};
ghost use Rattle.event_lines.specs.Header.{header_of};
ghost use Rattle.event_lines.specs.Spelling.{IsEventUnder, IsEvent};
ghost use Rattle.hist_scripts.specs.Script.{AreLinesOf};
ghost use Rattle.script_lines.specs.Text.{text_of};
ghost use Rattle.acts_spell.specs.Spelled.{IsSpelled, IsSpelledEvent, IsSpelledHeader, IsTold};

use esp_frame::seal_law;
use script_lines::texts_differ;

/// Before any event nothing is told that has no line.
pub fn begins()
    ensures { (header : Header) → IsSpelledHeader header → IsTold header nothing }
{}

/// Each act of the block of an event that a line can spell has a line, where those before it have one and fewer than 2^32 - 1 events
/// were taken; so has a forged arrival. Where the arrival isn't forged, all this holds again after the block.
pub fn each_act_is_spelled()
    ensures block { (header : Header) (p : Past) (e : Event) → IsSpelledHeader header → IsEventUnder header.gateways e → IsEvent e
        → IsTold header p
        → events_taken p.world < 2 ^ 32 - 1 → All (IsSpelled header.gateways) (block (under_way header) header p e) }
    ensures told { (header : Header) (p : Past) (e : Event) → IsSpelledHeader header → IsEventUnder header.gateways e → IsEvent e
        → IsTold header p
        → events_taken p.world < 2 ^ 32 - 1 → is_forged_event header p e ≡ false → IsTold header (past_after (under_way header) header p e) }
{
    seal_law();
}

/// What a line is read as, as a header or as an event under one, is a header or an event that a line can spell.
pub fn reads_what_is_spelled()
    ensures header { (line : List ℕ) (header : Header) → header_of line ≡ Ok header → IsSpelledHeader header }
    ensures event { (gateways : List Peer) (line : List ℕ) (e : Event) → event_of gateways line ≡ Ok e → IsSpelledEvent gateways e }
{}

/// Each act of a history of fewer than 2^32 events has a line, with a forged arrival at its end or without; so has each of what a
/// script tells.
pub fn every_history_is_spelled()
    ensures events { (header : Header) (events : List Event) → IsSpelledHeader header → All (IsSpelledEvent header.gateways) events
        → length events < 2 ^ 32
        → All (IsSpelled header.gateways) (history (under_way header) header nothing events) }
    ensures script { (line : List ℕ) (header : Header) (lines : List (List ℕ)) (events : List Event) → header_of line ≡ Ok header
        → AreLinesOf header lines events
        → length events < 2 ^ 32 → All (IsSpelled header.gateways) (history (under_way header) header nothing events) }
{
    seal_law();
}

/// No two histories under one header have one text.
pub fn histories_have_one_text()
    ensures { (header : Header) (these those : List Event) → IsSpelledHeader header
        → All (IsSpelledEvent header.gateways) these → length these < 2 ^ 32 → All (IsSpelledEvent header.gateways) those → length those < 2 ^ 32
        → text_of (history (under_way header) header nothing these) ≡ text_of (history (under_way header) header nothing those)
        → history (under_way header) header nothing these ≡ history (under_way header) header nothing those }
{
    seal_law();
    texts_differ();
}
