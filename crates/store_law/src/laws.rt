// Laws for the crates above: each is the contract of a function with an empty body.
ghost use Rattle.std.specs.Prelude.{◌≡◌, ℕ, true, List, map, slice_get, is_none};
ghost use Rattle.std.specs.Option.{option_map};
ghost use Rattle.ikeless_tree.specs.declared.sad.SadEntry.{SadEntry};
ghost use Rattle.replay_win.specs.Marks.{judged, verdict_over};
ghost use Rattle.life_count.specs.Lifetime.{counts_of};
ghost use Rattle.life_count.specs.Calls as lives;
ghost use Rattle.sad_store.specs.Halves.{names_of};
ghost use Rattle.sad_store.specs.Install.{install_fault};
ghost use Rattle.sad_store.specs.Kept.{are_names_apart};
ghost use Rattle.store_law.specs.Calls.{Call, did_all};
ghost use Rattle.store_law.specs.Back.{befell, half_of, has_entry_named, installed_at, is_there, may_join, numbers_marked, there};

/// After any list of calls the store is the list of the halves that were installed and not removed, in the order of their
/// installation. Each has the count, window, lifetime and overflow that the calls on it since its installation give.
///
/// The calls stand with the newest first, and no two halves have one name.
pub fn is_what_calls_give()
    ensures halves { (calls : List Call) → did_all calls ≡ map (half_of calls) (there calls) }
    ensures names_apart { (calls : List Call) → are_names_apart (names_of (did_all calls)) ≡ true }
{}

/// What the words of a half say: one of a name is there where its installation stands and no removal follows, at the place that it
/// has in the store; the store refuses an entry exactly where it may not join those that are there. The window of a half judges a
/// number by all those that were marked under it; its counts are those of its uses, and the next use, look or session tells what
/// they say.
pub fn looks_back_over_calls()
    ensures there { (name : List ℕ) (calls : List Call) → has_entry_named name (there calls) ≡ is_there name calls }
    ensures places { (calls : List Call) (i : ℕ) → option_map (λ x. x.entry) (slice_get (did_all calls) i) ≡ slice_get (there calls) i }
    ensures joins { (calls : List Call) (e : SadEntry) → is_none (install_fault e (did_all calls)) ≡ may_join e (there calls) }
    ensures window { (calls : List Call) (e : SadEntry) (n : ℕ) → judged (half_of calls e).window n ≡ verdict_over e.window
        (numbers_marked e.name calls) n }
    ensures counts { (calls : List Call) (e : SadEntry) (now : ℕ) →
        counts_of now (half_of calls e).life ≡ lives.counts_after (installed_at e.name calls) now (befell e.name calls) }
    ensures event { (calls : List Call) (e : SadEntry) (call : lives.Call) →
        lives.next_event (half_of calls e).life call ≡ lives.told_by e.hard e.soft (installed_at e.name calls) (befell e.name calls) call }
{}
