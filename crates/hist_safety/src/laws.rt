// Laws for the crates above: each is the contract of a function with an empty body.
ghost use Rattle.std.specs.Prelude.{◌≡◌, ℕ, List, true};
ghost use Rattle.ikeless_tree.specs.declared.command.Peer.{Peer};
ghost use Rattle.hist_acts.specs.declared.act.Act.{Act};
ghost use Rattle.hist_acts.specs.Past.{after};
ghost use Rattle.hist_safety.specs.Carried.{was_sent};
ghost use Rattle.hist_safety.specs.Ended.{DoomedIsEnded};
ghost use Rattle.hist_safety.specs.Kept.{Kept};
ghost use Rattle.hist_safety.specs.Law.{IsLawful, IsWhole, AllMayHappen};
ghost use Rattle.hist_safety.specs.Safe.{IsLastSafe, Safe};

/// Every lawful history of any number of gateways and their controller is safe, in its five parts. One that is whole leaves
/// nothing unanswered at its end that must be given.
pub fn is_every_lawful_history_safe()
    ensures parts { (gateways : List Peer) (h : List Act) → IsLawful gateways h → Safe gateways h }
    ensures end { (gateways : List Peer) (h : List Act) → IsLawful gateways h → IsWhole gateways h → IsLastSafe gateways h }
{}

/// What every lawful history keeps, for further laws.
pub fn kept()
    ensures { (gateways : List Peer) (h : List Act) → IsLawful gateways h → Kept h }
{}

/// Under one half a number is sent once: at one gateway, with the same ESP octets, for the same packet.
pub fn number_is_sent_once()
    ensures { (gateways : List Peer) (g f x : List ℕ) (n : ℕ) (b c p q : List ℕ) (h : List Act) → IsLawful gateways h →
        was_sent g x n b p h ≡ true → was_sent f x n c q h ≡ true → (g ≡ f) × (b ≡ c) × (p ≡ q) }
{}

/// A lawful history goes on by acts that may happen after it, and each of its beginnings is lawful.
pub fn goes_on()
    ensures on { (gateways : List Peer) (h more : List Act) → IsLawful gateways h → AllMayHappen gateways h more
        → IsLawful gateways (after h more) }
    ensures back { (gateways : List Peer) (h more : List Act) → IsLawful gateways (after h more) → IsLawful gateways h }
{}

/// Where each removal of an inbound half was ordered only once its association was ended, and what is ended stays so, an
/// association that isn't ended has no removal of its inbound half ordered.
pub fn removed_is_ended()
    ensures { DoomedIsEnded }
{}
