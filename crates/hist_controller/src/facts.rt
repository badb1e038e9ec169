// Facts on which what a controller keeps in place of its past can rest: each is the contract of a function with an empty body.
ghost use Rattle.std.specs.Prelude.{◌≡◌, ℕ, ◌+◌, ◌-◌, ◌<◌, ◌≤◌, true, false, ◌==◌, ◌&&◌, not, List, [], ◌∷◌, ◌++◌, Some, None, ◌⊎◌, length, drop};
ghost use Rattle.std.specs.List.{list_any};
ghost use Rattle.ikeless_tree.specs.Check.{is_key_length, is_sad_name, sad_fault, spd_fault};
ghost use Rattle.ikeless_tree.specs.Half.{in_name, out_name, aes_part};
ghost use Rattle.ikeless_tree.specs.declared.command.Peer.{Peer};
ghost use Rattle.ikeless_tree.specs.declared.command.Refusal.TheVariants as refusals;
ghost use Rattle.ikeless_tree.specs.declared.entry.SpdEntry.{SpdEntry};
ghost use Rattle.hist_acts.specs.Past.{after};
ghost use Rattle.hist_controller.specs.Acts.{Way, Association, ControllerOrder, Policy, PutIn, PutOut, RemoveIn, RemoveOut, ControllerAct, ControllerEvent, Keys};
ghost use Rattle.hist_controller.specs.Past.{is_open, orders, answered, queue, is_first_answered, keys, serials, spare, directions, is_over, left, newest_serial, is_in_progress, is_own, is_busy};
ghost use Rattle.hist_controller.specs.Machine.{place};
ghost use Rattle.hist_controller.specs.State.{association_of, gateway_of, way_of};
ghost use Rattle.hist_controller.specs.Clauses.{Has, IsControllerPast, ControllerMayActAll, MayOrderInPut};
ghost use Rattle.hist_controller.specs.Law.{refusal, give, pass, has_tunnel, tunnels, block};
ghost use Rattle.hist_controller.specs.Entries.{SoundCommands, OneFamily, aes_parts};
ghost use Rattle.hist_controller.specs.Orders.{WasOrdered};
ghost use Rattle.hist_controller.specs.Told.{in_entry, out_entry};
ghost use Rattle.hist_controller.specs.Touch.{next_order, acts_for, does_touch, does_bring_key, did_way};
ghost use Rattle.hist_controller.specs.Spent.{is_spent, StaysSpent, Forgets, added_ways, unspent};
ghost use Rattle.hist_controller.specs.Halves.{PlainAnswers};
ghost use Rattle.hist_controller.specs.Left.{Ascend, listed, older_left, newest_left};
ghost use Rattle.hist_controller.specs.Own.{own_orders, waiting_order, is_half_order, OwnWaits, Owner, IsOfLeft, is_in_order};
ghost use Rattle.std.specs.Option.{is_some};

/// The associations left of a direction ascend by their serials, each of which was given out. None is later than the one put
/// last, and one that is in progress is that one. Where each put is answered with 201 or refused, they are an older one and
/// the one put last, and one at most is left where a new one is put.
pub fn orders_what_is_left()
    ensures ascend { (p : ℕ) (h : List ControllerAct) → IsControllerPast p h → (d : Way) → Ascend (left d h) }
    ensures given { (p : ℕ) (h : List ControllerAct) → IsControllerPast p h → (d : Way) (x : Association) → Has x (left d h)
        → (1 ≤ x.serial) × (x.serial ≤ serials h) }
    ensures newest { (p : ℕ) (h : List ControllerAct) → IsControllerPast p h → (d : Way)
        → ((x : Association) → Has x (left d h) → x.serial ≤ newest_serial d h) × (newest_serial d h ≤ serials h) }
    ensures progress { (p : ℕ) (h : List ControllerAct) → IsControllerPast p h → (d : Way) (x : Association) → Has x (left d h)
        → is_in_progress h x ≡ true → x.serial ≡ newest_serial d h }
    ensures one { (p : ℕ) (h : List ControllerAct) → IsControllerPast p h → (d : Way) (x y : Association) → Has x (left d h)
        → Has y (left d h) → is_in_progress h x ≡ true → is_in_progress h y ≡ true → x ≡ y }
    ensures pair { (p : ℕ) (h : List ControllerAct) → IsControllerPast p h → PlainAnswers h → (d : Way) → left d h ≡ listed (older_left d h)
        ++ listed (newest_left d h) }
    ensures room { (p : ℕ) (h : List ControllerAct) → IsControllerPast p h → PlainAnswers h → (g : ℕ) (x : Association)
        → MayOrderInPut h g x → length (left x.way h) ≤ 1 }
{}

/// Keys are used in the order in which they were accepted: those not used yet are all but the first, of which there are as many
/// as serials, and the key of an association left is the one whose place its serial is, from 1 to 1,048,576.
pub fn takes_keys_in_turn()
    ensures spare { (p : ℕ) (h : List ControllerAct) → IsControllerPast p h → spare h ≡ drop (serials h) (keys h) }
    ensures key { (p : ℕ) (h : List ControllerAct) → IsControllerPast p h → (d : Way) (x : Association) → Has x (left d h)
        → place (x.serial - 1) (keys h) ≡ Some x.key }
    ensures serial { (p : ℕ) (h : List ControllerAct) → IsControllerPast p h → (d : Way) (x : Association) → Has x (left d h)
        → (0 < x.serial) × (x.serial ≤ 1048576) }
{}

/// What an open session was given was answered or waits; and its first reading is answered, or nothing yet.
pub fn counts_what_waits()
    ensures waiting { (p : ℕ) (h : List ControllerAct) → IsControllerPast p h → (g : ℕ) → is_open g h ≡ true
        → orders g h ≡ answered g h + length (queue g h) }
    ensures first { (p : ℕ) (h : List ControllerAct) → IsControllerPast p h → (g : ℕ) → (is_first_answered g h ≡ true)
        ⊎ (answered g h ≡ 0) }
{}

/// At most one put or removal of a direction's own waits, over the queues of both its gateways. Each that waits in any queue is
/// of an association left of one direction, stands at the gateway of this direction that gets it, and says how far the
/// association has come: an inbound put is not answered, nor anything of the outbound half ordered; an outbound put is not
/// answered, its inbound one is; a removal is of an ended association, the outbound one before the inbound one. A put that
/// waits is of the association put last.
pub fn awaits_one_answer()
    ensures one { (p : ℕ) (h : List ControllerAct) → IsControllerPast p h → (d : Way) → Has d (directions h) → length (own_orders d h) ≤ 1 }
    ensures busy { (d : Way) (h : List ControllerAct) → is_busy d h ≡ is_some (waiting_order d h) }
    ensures owned { (p : ℕ) (h : List ControllerAct) → IsControllerPast p h → (g : ℕ) (o : ControllerOrder) → Has o (queue g h)
        → is_half_order o ≡ true → Owner h g o }
    ensures own { (p : ℕ) (h : List ControllerAct) → IsControllerPast p h → (d : Way) → Has d (directions h) → (g : ℕ) (o : ControllerOrder)
        → Has o (queue g h) → is_own d (left d h) o ≡ true → OwnWaits d h g o }
    ensures home { (p : ℕ) (h : List ControllerAct) → IsControllerPast p h → (g : ℕ) (o : ControllerOrder) → Has o (queue g h)
        → IsOfLeft h g o }
    ensures order { (p : ℕ) (h : List ControllerAct) → IsControllerPast p h → (d : Way) (x : Association) → Has x (left d h)
        → is_in_order (association_of h x) ≡ true }
{}

/// A direction that is over and has nothing left stays so whatever happens: no order of it waits, and it is given none. So
/// tunnels of which both directions are such may be forgotten at any time: the pass over the others is the pass over all, they
/// have the same count of tunnels, and a reqid is in use among them where it is in use at all.
pub fn forgets_what_is_spent()
    ensures ever { (p : ℕ) (h xs : List ControllerAct) → IsControllerPast p h → ControllerMayActAll p h xs → (d : Way)
        → Has d (directions h) → is_spent d h ≡ true → StaysSpent d (after h xs) }
    ensures none { (h : List ControllerAct) → Forgets h (directions h) (directions h) }
    ensures more { (h : List ControllerAct) (ds ks : List Way) → Forgets h ds ks → Forgets h ds (unspent h ks) }
    ensures act { (p : ℕ) (h : List ControllerAct) (a : ControllerAct) → IsControllerPast p (a ∷ h) → (ks : List Way)
        → Forgets h (directions h) ks → Forgets (a ∷ h) (directions (a ∷ h)) (ks ++ added_ways h a) }
    ensures pass { (p : ℕ) (h : List ControllerAct) → IsControllerPast p h → (ks : List Way) → Forgets h (directions h) ks
        → pass h (directions h) ≡ pass h ks }
    ensures tunnels { (h : List ControllerAct) (ds ks : List Way) → Forgets h ds ks → tunnels h ds ≡ tunnels h ks }
    ensures has { (r : ℕ) (h : List ControllerAct) (ks : List Way) → Forgets h (directions h) ks
        → has_tunnel r h ≡ list_any (λ (d : Way). (d.tunnel.reqid == r) && not (is_over d h)) ks }
{}

/// The pass gives each direction one order at most, and a block has at most 2,051 acts: its own, two that belong to no
/// direction, and one for each direction of a tunnel that counts.
pub fn has_short_blocks()
    ensures pass { (h : List ControllerAct) (ds : List Way) → length (pass h ds) ≤ length ds }
    ensures block { (ps : List Peer) (h : List ControllerAct) (e : ControllerEvent) → IsControllerPast (length ps) h
        → length (block ps h e) ≤ 2051 }
{}

/// What is ordered has no fault, where each accepted list of policies has none, the window of each accepted tunnel is from 32 to
/// 4,096, and the addresses of all peers are of one family: the entries put, of which the SPIs are from 257 to 1,048,832; the
/// lists; and the names removed.
pub fn orders_without_fault()
    ensures inbound { (ps : List Peer) (h : List ControllerAct) → IsControllerPast (length ps) h → SoundCommands h → OneFamily ps
        → (g : ℕ) (x : Association) → WasOrdered (PutIn x) g h → (sad_fault (in_entry ps x) ≡ None) × (257 ≤ (in_entry ps x).spi)
        × ((in_entry ps x).spi ≤ 1048832) }
    ensures outbound { (ps : List Peer) (h : List ControllerAct) → IsControllerPast (length ps) h → SoundCommands h → OneFamily ps
        → (g : ℕ) (x : Association) → WasOrdered (PutOut x) g h → (sad_fault (out_entry ps x) ≡ None) × (257 ≤ (out_entry ps x).spi)
        × ((out_entry ps x).spi ≤ 1048832) }
    ensures list { (p : ℕ) (h : List ControllerAct) → IsControllerPast p h → SoundCommands h → (g : ℕ) (l : List SpdEntry)
        → WasOrdered (Policy l) g h → spd_fault l ≡ None }
    ensures in_name { (p : ℕ) (h : List ControllerAct) → IsControllerPast p h → (g n : ℕ) → WasOrdered (RemoveIn n) g h
        → is_sad_name (in_name n) ≡ true }
    ensures out_name { (p : ℕ) (h : List ControllerAct) → IsControllerPast p h → (g n : ℕ) → WasOrdered (RemoveOut n) g h
        → is_sad_name (out_name n) ≡ true }
{}

/// A key of a right length is refused as seen exactly where its AES key is among those of all keys accepted, used or not.
pub fn refuses_seen_keys()
    ensures seen { (p : ℕ) (h : List ControllerAct) (k : List ℕ) → is_key_length (length k) ≡ true → Has (aes_part k) (aes_parts h)
        → refusal p h (Keys k) ≡ Some refusals.KeySeen }
    ensures only { (p : ℕ) (h : List ControllerAct) (k : List ℕ) → refusal p h (Keys k) ≡ Some refusals.KeySeen
        → (is_key_length (length k) ≡ true) × Has (aes_part k) (aes_parts h) }
{}

/// What is kept of a direction hangs on the act and on that part alone, and an order is of one direction at most. What a
/// direction is given is its next order, but for the key. An act that doesn't touch the direction leaves its next order as it
/// is: only a cut, an answer or a notice at one of its gateways, an order of its own, and the end or the rekey of its tunnel
/// touch it. So one that is given nothing is given nothing until an act touches it or a key comes.
pub fn leaves_others_alone()
    ensures part { (h : List ControllerAct) (a : ControllerAct) (d : Way) → Has d (directions h)
        → way_of (a ∷ h) d ≡ did_way (gateway_of h) a (way_of h d) }
    ensures one { (p : ℕ) (h : List ControllerAct) → IsControllerPast p h → (d e : Way) (o : ControllerOrder) → Has d (directions h)
        → Has e (directions h) → is_own d (left d h) o ≡ true → is_own e (left e h) o ≡ true → d ≡ e }
    ensures gives { (h : List ControllerAct) (d : Way) → give h d ≡ acts_for h d (next_order h d) }
    ensures untouched { (p : ℕ) (h : List ControllerAct) (a : ControllerAct) → IsControllerPast p (a ∷ h) → (d : Way) → Has d (directions h)
        → does_touch d a h ≡ false → next_order (a ∷ h) d ≡ next_order h d }
    ensures nothing { (p : ℕ) (h : List ControllerAct) (a : ControllerAct) → IsControllerPast p (a ∷ h) → (d : Way) → Has d (directions h)
        → does_touch d a h ≡ false → does_bring_key a ≡ false → give h d ≡ [] → give (a ∷ h) d ≡ [] }
{}
