// What holds of octets and messages, whichever calls are made.
ghost use Rattle.std.specs.Prelude.{◌≡◌, ◌≢◌, ◌<◌, ℕ, List, [], ◌++◌, length, take, Some, Result};
ghost use Rattle.ikl_base.specs.declared.fault.OrMemory.{OrMemory};
ghost use Rattle.httparse.specs.Grammar.{print_request, print_response, IsRequestHead, IsResponseHead, RequestHead, ResponseHead};
ghost use Rattle.rc_http.specs.declared.feeder.Fed.{Fed};
ghost use Rattle.rc_http.specs.declared.message.HttpFault.{HttpFault};
ghost use Rattle.rc_http.specs.declared.message.HttpMessage.{HttpMessage};
ghost use Rattle.rc_http.specs.declared.message.Kind.{Kind};
ghost use Rattle.rc_http.specs.Feeding.{fresh, Feeding, FeedGives, HasRead, IsSince, ReadsOn};
ghost use Rattle.rc_http.specs.HeadEnd.{head_len};
ghost use Rattle.rc_http.specs.Looks.{Gives, Looked, Looks, Waits};

/// A head that `httparse` reads is whole at its last octet, and not before, whatever follows.
pub fn heads_are_whole()
    ensures requests { (h : RequestHead) (rest : List ℕ) → IsRequestHead h
        → head_len (print_request h ++ rest) ≡ Some (length (print_request h)) }
    ensures responses { (h : ResponseHead) (rest : List ℕ) → IsResponseHead h
        → head_len (print_response h ++ rest) ≡ Some (length (print_response h)) }
{}

/// Octets amount to one thing.
pub fn octets_amount_to_one_thing()
    ensures { (kind : Kind) (octets : List ℕ) (a b : Looked) → Looks kind octets a → Looks kind octets b → a ≡ b }
{}

/// What follows a message or a fault changes nothing, so the octets are looked at as if they came one by one.
pub fn first_found_stays()
    ensures { (kind : Kind) (octets more : List ℕ) (a : Looked) → a ≢ Waits → Looks kind octets a → Looks kind (octets ++ more) a }
{}

/// A message is whole at its last octet, and not before.
pub fn messages_are_whole()
    ensures whole { (kind : Kind) (octets : List ℕ) (m : HttpMessage) (n : ℕ) → Looks kind octets (Gives m n)
        → Looks kind (take n octets) (Gives m n) }
    ensures part { (kind : Kind) (octets : List ℕ) (m : HttpMessage) (n k : ℕ) → Looks kind octets (Gives m n) → k < n
        → Looks kind (take k octets) Waits }
{}

/// A new Feeder was fed nothing.
pub fn fresh_has_read_nothing()
    ensures { (kind : Kind) → HasRead (fresh kind) [] [] }
{}

/// A piece more, by what feeding it gives: a message that is whole is the next one.
pub fn pieces_join()
    ensures { (f after : Feeding) (octets piece : List ℕ) (messages : List HttpMessage) (result : Result Fed (OrMemory HttpFault))
        → after.kind ≡ f.kind → ((since : List ℕ) → IsSince f since → FeedGives f.kind since piece after result)
        → HasRead f octets messages → ReadsOn after octets messages piece result }
{}

/// The messages of octets are the same however the octets were cut into pieces.
pub fn cuts_make_no_difference()
    ensures { (f g : Feeding) (octets : List ℕ) (xs ys : List HttpMessage) → f.kind ≡ g.kind → HasRead f octets xs → HasRead g octets ys
        → xs ≡ ys }
{}
