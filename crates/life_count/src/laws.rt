// Laws of the definitions, for proofs of the crates above: their calls do nothing.
ghost use Rattle.std.specs.Prelude.{◌≡◌, ℕ, List};
ghost use Rattle.ikeless_tree.specs.declared.sad.Limits.{Limits};
ghost use Rattle.life_count.specs.Lifetime.{counts_of};
ghost use Rattle.life_count.specs.Calls.{Call, life_after, counts_after, next_event, told_by};

/// After any calls a lifetime has the counts that look back over all of them, and the next call tells what they say: that a hard
/// limit is reached, or else that a soft one is of which nothing was told since the last session.
///
/// The calls stand with the newest first.
pub fn looks_back()
    ensures counts { (hard soft : Limits) (installed now : ℕ) (calls : List Call) → counts_of now (life_after hard soft installed calls) ≡
        counts_after installed now calls }
    ensures event { (hard soft : Limits) (installed : ℕ) (calls : List Call) (call : Call)
        → next_event (life_after hard soft installed calls) call ≡ told_by hard soft installed calls call }
{}
