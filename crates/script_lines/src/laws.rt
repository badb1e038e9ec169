// What is written is read again, and what is read was written so.
ghost use Rattle.std.specs.Prelude.{◌≡◌, ℕ, List, Ok, All, IsTrue};
ghost use Rattle.ikeless_tree.specs.declared.command.Peer.{Peer};
ghost use Rattle.hist_acts.specs.declared.act.Act.{Act};
ghost use Rattle.line_words.specs.Spelling.{are_spelled};
ghost use Rattle.script_lines.specs.Act.{act_of};
ghost use Rattle.script_lines.specs.Spelling.{IsActUnder, IsAct};
ghost use Rattle.script_lines.specs.Text.{act_text, text_of};

/// A line that is read as an act is the text of that act, and the act is one that a line can spell.
pub fn read_acts_are_spelled()
    ensures text { (gateways : List Peer) (line : List ℕ) (a : Act) → act_of gateways line ≡ Ok a → act_text a ≡ line }
    ensures act { (gateways : List Peer) (line : List ℕ) (a : Act) → act_of gateways line ≡ Ok a → IsActUnder gateways a }
{}

/// The text of an act is read as that act.
pub fn act_read_again()
    ensures { (gateways : List Peer) (a : Act) → IsTrue (are_spelled gateways) → IsActUnder gateways a → IsAct a
        → act_of gateways (act_text a) ≡ Ok a }
{
    yang_values::digits_read_again();
}

/// No two lists of acts have one text.
pub fn texts_differ()
    ensures { (gateways : List Peer) (xs ys : List Act) → IsTrue (are_spelled gateways)
        → All (λ a. IsActUnder gateways a × IsAct a) xs → All (λ a. IsActUnder gateways a × IsAct a) ys
        → text_of xs ≡ text_of ys → xs ≡ ys }
{
    yang_values::digits_read_again();
}
