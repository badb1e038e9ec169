// A law for the crates above: the contract of a function with an empty body.
ghost use Rattle.std.specs.Prelude.{List, ℕ};
ghost use Rattle.rc_http.specs.declared.message.HttpMessage.{HttpMessage};
ghost use Rattle.rc_http.specs.Feeding.{Feeding, HasRead};
ghost use Rattle.live_messages.specs.Holds.{Holds};

/// What a reader has read is what the octets fed to it hold.
pub fn readers_hold()
    ensures { (f : Feeding) (octets : List ℕ) (messages : List HttpMessage) → HasRead f octets messages
        → Holds f.kind octets messages f.fault }
{}
