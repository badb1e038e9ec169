// Laws for the crates above: each is the contract of a function with an empty body.
ghost use Rattle.std.specs.Prelude.{◌≡◌, ℕ, List, [], ◌∷◌, ◌++◌, length, take, Some, None};
ghost use Rattle.hist_acts.specs.declared.event.Event.{Event};
ghost use Rattle.hist_acts.specs.declared.event.Header.{Header};
ghost use Rattle.hist_world.specs.Block.{Past, Shows, block, history};
ghost use Rattle.hist_world.specs.Stands.{AreGenuine, past_at};
ghost use Rattle.hist_blocks.specs.Blocks.{blocks, first_forged, joined};
ghost use Rattle.hist_blocks.specs.Ends.{EndsForged};

/// A history is the blocks of its events, one after the other. Fewer events have the first of these blocks.
pub fn is_made_of_blocks()
    ensures blocks { (shows : Shows) (header : Header) (p : Past) (es : List Event)
        → history shows header p es ≡ joined (blocks shows header p es) }
    ensures front { (shows : Shows) (header : Header) (p : Past) (n : ℕ) (es : List Event)
        → blocks shows header p (take n es) ≡ take n (blocks shows header p es) }
{}

/// Where no event is forged each has one block, and the history of more events goes on with their blocks.
pub fn goes_on_event_by_event()
    ensures genuine { (shows : Shows) (header : Header) (p : Past) (es : List Event) → first_forged shows header p es ≡ None
        → AreGenuine shows header p es }
    ensures none { (shows : Shows) (header : Header) (p : Past) (es : List Event) → AreGenuine shows header p es
        → first_forged shows header p es ≡ None }
    ensures count { (shows : Shows) (header : Header) (p : Past) (es : List Event) → AreGenuine shows header p es
        → length (blocks shows header p es) ≡ length es }
    ensures one { (shows : Shows) (header : Header) (p : Past) (e : Event) → history shows header p (e ∷ []) ≡ block shows header p e }
    ensures more { (shows : Shows) (header : Header) (p : Past) (es more : List Event) → AreGenuine shows header p es
        → history shows header p (es ++ more) ≡ history shows header p es ++ history shows header (past_at shows header p es) more }
{}

/// A forged arrival ends a history: it alone stands in its block after the number, and no later event has a block.
pub fn ends_with_a_forgery()
    ensures ends { (shows : Shows) (header : Header) (p : Past) (k : ℕ) (es : List Event) → first_forged shows header p es ≡ Some k
        → EndsForged shows header p k es }
    ensures over { (shows : Shows) (header : Header) (p : Past) (k : ℕ) (es more : List Event) → first_forged shows header p es ≡ Some k
        → history shows header p (es ++ more) ≡ history shows header p es }
{}
