// Laws of the definitions, for proofs of the crates above: their calls do nothing.
ghost use Rattle.std.specs.Prelude.{◌≡◌, ℕ, List, fold};
ghost use Rattle.replay_win.specs.Marks.{greatest, judged, marked, no_marks, verdict_over, window_after};

/// A window judges a number by all the numbers marked, also by those that it has let go.
///
/// `window_after` has the newest of them first, and `in_order` has the oldest first.
pub fn verdicts()
    ensures verdict { (size : ℕ) (taken : List ℕ) (s : ℕ) → judged (window_after size taken) s ≡ verdict_over size taken s }
    ensures in_order { (size : ℕ) (taken : List ℕ) (s : ℕ) → judged (fold marked (no_marks size) taken) s ≡ verdict_over size taken s }
    ensures top { (size : ℕ) (taken : List ℕ) → (window_after size taken).top ≡ greatest taken }
    ensures size { (size : ℕ) (taken : List ℕ) → (window_after size taken).size ≡ size }
{}
