// What the lines of a transcript say of its acts.
ghost use Rattle.std.specs.Prelude.{◌≡◌, List, All, IsTrue};
ghost use Rattle.ikeless_tree.specs.declared.command.Peer.{Peer};
ghost use Rattle.hist_acts.specs.declared.act.Act.{Act};
ghost use Rattle.line_words.specs.Spelling.{are_spelled};
ghost use Rattle.script_lines.specs.Spelling.{IsActUnder, IsAct};
ghost use Rattle.script_lines.specs.Text.{text_of};
ghost use Rattle.drill_script.specs.Tallies.{tally_of, tally_of_text};

/// What is counted of the lines of a transcript is what is counted of its acts: nothing is done.
pub fn lines_count_acts()
    ensures { (gateways : List Peer) (happened : List Act) → IsTrue (are_spelled gateways)
        → All (λ a. IsActUnder gateways a × IsAct a) happened
        → tally_of_text (text_of happened) ≡ tally_of happened }
{
    yang_values::digits_read_again();
}
