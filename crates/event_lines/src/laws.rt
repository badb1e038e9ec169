// What is written is read again, and what is read was written so.
ghost use Rattle.std.specs.Prelude.{◌≡◌, ℕ, List, Ok, IsTrue};
ghost use Rattle.ikeless_tree.specs.declared.command.Peer.{Peer};
ghost use Rattle.hist_acts.specs.declared.event.Event.{Event};
ghost use Rattle.hist_acts.specs.declared.event.Header.{Header};
ghost use Rattle.line_words.specs.Spelling.{are_spelled};
ghost use Rattle.event_lines.specs.Event.{event_of};
ghost use Rattle.event_lines.specs.Header.{header_of};
ghost use Rattle.event_lines.specs.Spelling.{IsEventUnder, IsEvent};
ghost use Rattle.event_lines.specs.Text.{event_text};

/// The gateways of a header have names that a line can spell.
pub fn headers_name_gateways()
    ensures { (line : List ℕ) (h : Header) → header_of line ≡ Ok h → IsTrue (are_spelled h.gateways) }
{}

/// A line that is read as an event is one of an event that a line can spell.
pub fn read_events_are_spelled()
    ensures { (gateways : List Peer) (line : List ℕ) (e : Event) → event_of gateways line ≡ Ok e → IsEventUnder gateways e }
{}

/// The line of an event in its canonical spelling is read as that event.
pub fn event_read_again()
    ensures { (gateways : List Peer) (e : Event) → IsTrue (are_spelled gateways) → IsEventUnder gateways e → IsEvent e
        → event_of gateways (event_text e) ≡ Ok e }
{
    yang_values::digits_read_again();
}
