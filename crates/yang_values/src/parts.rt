// A text cut at a mark.
ghost use Rattle.std.specs.Prelude.{◌≡◌, ◌<◌, ◌==◌, ◌∷◌, length, position, IfSome};
ghost use Rattle.std.specs.Option.{option_copied, option_map};
ghost use Rattle.std.specs.List.{slice_split};
ghost use Rattle.yang_values.specs.Parts.{cut_at, parts_in};

// Where the first mark is.
fn place(t: &[u8], mark: u8) -> Option<usize>
    ensures { result ≡ position (λ c. c == mark) t.now }
{
    t.iter().position(|c| *c == mark)
}

/// The text before the first mark and the text after it, where there is one.
#[tactic(auto, unfolding(crate::specs::Parts::cut_at))]
pub(crate) fn cut(t: &[u8], mark: u8) -> Option<(&[u8], &[u8])>
    ensures { option_map (λ p. (p.0.now, p.1.now)) result ≡ cut_at (λ c. c == mark) t.now }
{
    match place(t, mark) {
        Some(at) => Some((&t[..at], &t[at + 1..])),
        None => None,
    }
}

/// The text up to the first mark, and what stands behind it, where there is one.
pub(crate) fn first_part(t: &[u8], mark: u8) -> (&[u8], Option<&[u8]>)
    ensures value { slice_split (λ c. c == mark) t.now
        ≡ result.0.now ∷ parts_in (λ c. c == mark) (option_copied result.1) }
    ensures shorter { IfSome result.1 (λ rest. length rest.now < length t.now) }
{
    match cut(t, mark) {
        Some((part, rest)) => (part, Some(rest)),
        None => (t, None),
    }
}
