// Lines in any pieces.
ghost use Rattle.std.specs.Prelude.{◌≡◌, ◌+◌, ◌≤◌, ℕ, List, [], ◌∷◌, ◌++◌, None, length, take};
ghost use Rattle.std.specs.List.{flat_map};
ghost use Rattle.ikeless_tree.specs.declared.order.Notice.{Notice};
ghost use Rattle.notice_lines.specs.Moments.{IsStamp};
ghost use Rattle.notice_lines.specs.Reading.{HasNotice, IsHeard, IsLine, line_end, Ends, begins, first_begins};
ghost use Rattle.notice_lines.specs.Envelope.{IsNotice};
ghost use Rattle.ikeless_tree.specs.Typed.{IsTypedNotice};
ghost use Rattle.json_values.specs.Json.{StandsFor};
ghost use Rattle.notice_lines.specs.Notifications.{IsNotification};

/// A clock's reading has one text.
pub fn has_one_stamp()
    ensures { (seconds : ℕ) (a b : List ℕ) → IsStamp seconds a → IsStamp seconds b → a ≡ b }
{}

/// What is heard doesn't depend on where the octets are cut, and a line has one notice.
pub fn cuts_do_not_matter()
    ensures pieces { (pieces : List (List ℕ)) → first_begins [] pieces ≡ begins (flat_map (λ piece. piece) pieces) }
    ensures line { (a b : List ℕ) (n : ℕ) → begins a ≡ Ends n → take n (a ++ b) ≡ take n a }
    ensures notice { (line : List ℕ) (n m : Notice) → HasNotice line n → HasNotice line m → n ≡ m }
{}

/// A line that is a notification is heard as its notice in any pieces, whatever follows it.
pub fn is_heard_in_any_pieces()
    ensures { (line rest : List ℕ) (n : Notice) (pieces : List (List ℕ)) → HasNotice line n → line_end line ≡ None → length line ≤ 4096
        → flat_map (λ piece. piece) pieces ≡ line ++ 10 ∷ rest
        → (first_begins [] pieces ≡ Ends (length line)) × HasNotice (take (length line) (flat_map (λ piece. piece) pieces)) n }
{}

/// The line of a notice is heard as that notice in any pieces, whatever follows it: its numbers are those of its type, as
/// those of every notice that a program has, and `write_notice` gives the same without that premise.
pub fn written_is_heard()
    ensures { (n : Notice) (seconds : ℕ) (line : List ℕ) → IsNotice n → IsTypedNotice n → IsLine n seconds line → IsHeard n line }
{
    yang_values::plain_texts();
}

/// A line is heard as a notice exactly where it stands for the notification of that notice.
pub fn notices_are_accepted()
    ensures sound { (line : List ℕ) (n : Notice) → HasNotice line n → StandsFor line (IsNotification n) }
    ensures complete { (line : List ℕ) (n : Notice) → StandsFor line (IsNotification n) → HasNotice line n }
{}
