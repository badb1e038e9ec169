// Laws for the crates above: each is the contract of a function with an empty body.
ghost use Rattle.std.specs.Prelude.{◌≡◌, ℕ, ◌+◌, ◌-◌, ◌^◌, ◌==◌, Bool, true, false, List, [], ◌∷◌, ◌++◌, Option, Some, None, ◌<◌, ◌≤◌, ◌⊎◌, length, map};
ghost use Rattle.std.specs.List.{list_all, list_any};
ghost use Rattle.std.specs.Option.{option_map};
ghost use Rattle.ikeless_tree.specs.Half.{in_name, out_name, aes_part};
ghost use Rattle.hist_acts.specs.Sessions as sessions;
ghost use Rattle.hist_acts.specs.Past as happened;
ghost use Rattle.ikeless_tree.specs.Check.{is_key_length};
ghost use Rattle.ikeless_tree.specs.declared.command.Peer.{Peer};
ghost use Rattle.ikeless_tree.specs.declared.order.Answer.{Answer};
ghost use Rattle.hist_controller.specs.Acts.{Way, Association, ControllerOrder, PutIn, PutOut, RemoveIn, RemoveOut, ControllerAct, Answered, Cut, Ordered, Accepted, PlacedCommand, ControllerEvent};
ghost use Rattle.hist_acts.specs.Past.{after};
ghost use Rattle.hist_controller.specs.Past.{is_open, openings, orders, answered, is_read, directions, keys, serials, queue, oldest, is_in_progress, left, is_unseen, is_ended, is_made_by, is_over, is_owed, is_start, is_wanted, has_answer, PuttingIn, PuttingOut, RemovingIn, RemovingOut, newest_serial};
ghost use Rattle.hist_controller.specs.State.{state_of, did};
ghost use Rattle.hist_controller.specs.Machine.{acts_of, next, run, place};
ghost use Rattle.hist_controller.specs.Law.{peer_number, tunnels, block, history, event_refusal, one_or_none, refusals_in};
ghost use Rattle.hist_controller.specs.Clauses.{Has, IsControllerPast, ControllerMayActAll, NotIdle};
ghost use Rattle.hist_controller.specs.Causes.{CauseAmong, CauseStands, WasEnded};
ghost use Rattle.hist_controller.specs.Choice.{IsBlock};
ghost use Rattle.hist_controller.specs.Ends.{WasEndedBy, WasPutLast};
ghost use Rattle.hist_controller.specs.Counts.{times, times_at, times_now, in_puts, out_puts, cause_count, KeysRight, ListsRight};
ghost use Rattle.hist_controller.specs.Halves.{PlainAnswers, half_count};
ghost use Rattle.hist_controller.specs.Numbers.{numbered};
ghost use Rattle.hist_controller.specs.Orders.{AllBefore, WasOrdered, PutOf};
ghost use Rattle.hist_controller.specs.Told.{peer_name, order_told, all_told, past_told, Named, are_names_apart};
ghost use Rattle.hist_controller.specs.Ever.{made, AllNotIdle};
ghost use Rattle.hist_controller.specs.Waiting.{WaitsForGateways, WaitsForKey, WaitsForRemoval};
ghost use Rattle.hist_controller.specs.Table.{Table, first_table, did_table, next_table, seen, Fits, AllFit, EventFits, AllEventsFit};

/// What is kept of a past, one act later, is what the act makes of what was kept.
pub fn keeps()
    ensures { (h : List ControllerAct) (a : ControllerAct) → state_of (a ∷ h) ≡ did (state_of h) a }
{}

/// A step from what is kept of a past gives the one block that the past allows, and leaves what is kept of the past with
/// that block.
pub fn steps()
    ensures acts { (ps : List Peer) (h : List ControllerAct) (e : ControllerEvent) → acts_of ps (state_of h) e ≡ block ps h e }
    ensures keeps { (ps : List Peer) (h : List ControllerAct) (e : ControllerEvent)
        → state_of (after h (block ps h e)) ≡ next ps (state_of h) e }
{}

/// The acts of a whole run are the one history of its events.
pub fn runs()
    ensures history { (ps : List Peer) (h : List ControllerAct) (es : List ControllerEvent) → run ps (state_of h) es ≡ history ps h es }
    ensures past { (h xs ys : List ControllerAct) → after h (xs ++ ys) ≡ after (after h xs) ys }
{}

/// Each act of a block may stand after the acts before it, and so each act of a history.
pub fn follows_the_clauses()
    ensures block { (ps : List Peer) (h : List ControllerAct) (e : ControllerEvent) → ControllerMayActAll (length ps) h (block ps h e) }
    ensures more { (n : ℕ) (h xs : List ControllerAct) → IsControllerPast n h → ControllerMayActAll n h xs
        → IsControllerPast n (after h xs) }
    ensures history { (ps : List Peer) (es : List ControllerEvent) → IsControllerPast (length ps) (after [] (history ps [] es)) }
{}

/// The block of an event is the one list of acts that meets the clauses: its own act where that may stand, then orders, each of
/// which may be given and comes next, until none is due and no direction has one that is allowed.
pub fn leaves_no_choice()
    ensures meets { (ps : List Peer) (h : List ControllerAct) (e : ControllerEvent) → IsControllerPast (length ps) h → NotIdle h
        → IsBlock ps h e (block ps h e) }
    ensures only { (ps : List Peer) (h : List ControllerAct) (e : ControllerEvent) (xs : List ControllerAct)
        → IsControllerPast (length ps) h → NotIdle h → IsBlock ps h e xs → xs ≡ block ps h e }
{}

/// A command is refused by the first reason that applies, once, and no event else.
pub fn refuses_with_reason()
    ensures { (ps : List Peer) (h : List ControllerAct) (e : ControllerEvent)
        → refusals_in (block ps h e) ≡ one_or_none (event_refusal ps h e) }
{}

/// After each block a direction without a waiting order of its own has no order that is allowed, for any association that
/// was ever put in it.
pub fn is_never_idle()
    ensures block { (ps : List Peer) (h : List ControllerAct) (e : ControllerEvent) → IsControllerPast (length ps) h → NotIdle h
        → NotIdle (after h (block ps h e)) }
    ensures history { (ps : List Peer) (es : List ControllerEvent) → NotIdle (after [] (history ps [] es)) }
    ensures ever { (n : ℕ) (h : List ControllerAct) → IsControllerPast n h → NotIdle h → AllNotIdle h }
{}

/// What a direction waits for is an answer to an order of its own, a session or a reading at one of its gateways, or a key; and
/// each of these is named: no key is waited for but where the direction is owed an association, and an ended association waits
/// for the gateway at which its next half is removed.
pub fn names_what_is_waited_for()
    ensures owed { (n : ℕ) (h : List ControllerAct) → IsControllerPast n h → NotIdle h → (d : Way) → Has d (directions h)
        → is_owed d h ≡ true → WaitsForKey h d }
    ensures progress { (n : ℕ) (h : List ControllerAct) → IsControllerPast n h → NotIdle h → (d : Way) → Has d (directions h)
        → (x : Association) → Has x (left d h) → is_in_progress h x ≡ true → WaitsForGateways h d }
    ensures ended { (n : ℕ) (h : List ControllerAct) → IsControllerPast n h → NotIdle h → (d : Way) → Has d (directions h)
        → (x : Association) → Has x (left d h) → is_ended x h ≡ true → WaitsForRemoval h d x }
{}

/// Each half is put once at most, with the key of its serial.
pub fn puts_once()
    ensures once { (n : ℕ) (h : List ControllerAct) → IsControllerPast n h → (serial : ℕ) → (times PuttingIn serial h ≤ 1)
        × (times PuttingOut serial h ≤ 1) }
    ensures keyed { (n : ℕ) (h : List ControllerAct) → IsControllerPast n h → KeysRight h }
{}

/// The inbound puts of a direction are no more than its causes while its tunnel is not ended, and its outbound puts no more than
/// its inbound ones: at most two puts for each cause.
pub fn puts_for_causes()
    ensures { (n : ℕ) (h : List ControllerAct) → IsControllerPast n h → (d : Way) → Has d (directions h) → (in_puts d h ≤ cause_count d h)
        × (out_puts d h ≤ in_puts d h) }
{}

/// Each inbound put has a cause of its own: between two inbound puts of a direction a cause of it stands, and between its command
/// and its first inbound put too, unless the command itself is one.
pub fn each_put_has_its_cause()
    ensures between { (p f r m g s n : ℕ) (x y : Association) (recent old : List ControllerAct)
        → IsControllerPast p (Ordered g s n (PutIn y) ∷ recent ++ Ordered f r m (PutIn x) ∷ old) → y.way ≡ x.way
        → CauseAmong y.way recent (Ordered f r m (PutIn x) ∷ old) }
    ensures first { (p g s n : ℕ) (y : Association) (c : PlacedCommand) (recent old : List ControllerAct)
        → IsControllerPast p (Ordered g s n (PutIn y) ∷ recent ++ Accepted c ∷ old) → is_made_by c (length (directions old)) y.way ≡ true
        → (is_start c ≡ true) ⊎ CauseAmong y.way recent (Accepted c ∷ old) }
{}

/// A half is ordered removed once at most in each session of its gateway, and not more often than sessions were opened.
pub fn removes_once()
    ensures outbound { (n : ℕ) (h : List ControllerAct) → IsControllerPast n h → (serial g : ℕ) → (times_now RemovingOut serial g h ≤ 1)
        × (times_at RemovingOut serial g h ≤ openings g h) }
    ensures inbound { (n : ℕ) (h : List ControllerAct) → IsControllerPast n h → (serial g : ℕ) → (times_now RemovingIn serial g h ≤ 1)
        × (times_at RemovingIn serial g h ≤ openings g h) }
{}

/// What stood before each order, in words of orders and answers alone.
pub fn stands_before()
    ensures { (n : ℕ) (h : List ControllerAct) → IsControllerPast n h → AllBefore h }
{}

/// Inbound halves are put at the receiver and outbound ones at the sender of a direction, after their inbound half; one
/// serial is of one association; and a half is removed where it was put.
pub fn has_homes()
    ensures inbound { (n : ℕ) (h : List ControllerAct) → IsControllerPast n h → (g : ℕ) (x : Association) → WasOrdered (PutIn x) g h
        → (g ≡ x.way.receiver) × Has x.way (directions h) × (x.serial ≤ serials h) }
    ensures outbound { (n : ℕ) (h : List ControllerAct) → IsControllerPast n h → (g : ℕ) (x : Association) → WasOrdered (PutOut x) g h
        → (g ≡ x.way.sender) × WasOrdered (PutIn x) x.way.receiver h }
    ensures one { (n : ℕ) (h : List ControllerAct) → IsControllerPast n h → (f g : ℕ) (x y : Association) → WasOrdered (PutIn x) f h
        → WasOrdered (PutIn y) g h → x.serial ≡ y.serial → x ≡ y }
    ensures in_removal { (n : ℕ) (h : List ControllerAct) → IsControllerPast n h → (g serial : ℕ) → WasOrdered (RemoveIn serial) g h
        → PutOf PutIn serial g h }
    ensures out_removal { (n : ℕ) (h : List ControllerAct) → IsControllerPast n h → (g serial : ℕ) → WasOrdered (RemoveOut serial) g h
        → PutOf PutOut serial g h }
{}

/// The two gateways of a direction are known and differ.
pub fn knows_its_gateways()
    ensures { (n : ℕ) (h : List ControllerAct) → IsControllerPast n h → (d : Way) → Has d (directions h) → (d.sender < n) × (d.receiver < n)
        × ((d.sender == d.receiver) ≡ false) }
{}

/// No two accepted keys have one AES key, whether they were used or not; each has an AES key and a salt; there are no more
/// of them than the limit says, and no more serials than keys.
pub fn accepts_fresh_keys()
    ensures apart { (n : ℕ) (h : List ControllerAct) → IsControllerPast n h → (i j : ℕ) (a b : List ℕ) → place i (keys h) ≡ Some a
        → place j (keys h) ≡ Some b → aes_part a ≡ aes_part b → i ≡ j }
    ensures long { (n : ℕ) (h : List ControllerAct) → IsControllerPast n h → list_all (λ k. is_key_length (length k)) (keys h) ≡ true }
    ensures few { (n : ℕ) (h : List ControllerAct) → IsControllerPast n h → (serials h ≤ length (keys h)) × (length (keys h) ≤ 1048576) }
{}

/// Different halves have different names; and where no two peers have one name, a name tells the number.
pub fn names_differ()
    ensures inbound { (m n : ℕ) → m < 2 ^ 64 → n < 2 ^ 64 → in_name m ≡ in_name n → m ≡ n }
    ensures outbound { (m n : ℕ) → m < 2 ^ 64 → n < 2 ^ 64 → out_name m ≡ out_name n → m ≡ n }
    ensures both { (m n : ℕ) → in_name m ≡ out_name n → ⊥ }
    ensures peers { (ps : List Peer) → are_names_apart ps ≡ true → Named ps }
    ensures number { (ps : List Peer) → are_names_apart ps ≡ true → (g : ℕ) → g < length ps → peer_number (peer_name ps g) ps ≡ g }
{}

/// An ordered list of policies is the last one accepted for its gateway, so the lists never go back.
pub fn orders_newest_lists()
    ensures { (n : ℕ) (h : List ControllerAct) → IsControllerPast n h → ListsRight h }
{}

/// Where each put is answered with 201 or refused, a direction has two associations left at most, and so a gateway 4,096
/// halves; and no more tunnels count than the limit says.
pub fn has_few_halves()
    ensures left { (n : ℕ) (h : List ControllerAct) → IsControllerPast n h → PlainAnswers h → (d : Way) → length (left d h) ≤ 2 }
    ensures tunnels { (n : ℕ) (h : List ControllerAct) → IsControllerPast n h → tunnels h (directions h) ≤ 1024 }
    ensures halves { (n : ℕ) (h : List ControllerAct) → IsControllerPast n h → PlainAnswers h → (g : ℕ)
        → half_count g h (directions h) ≤ 4096 }
{}

/// What the words that look back say plainly. The order that is answered is the one with the number and session of the answer.
/// While a session is open the orders that wait are those of its numbers after the answered ones, and else none waits. An
/// association is left exactly where its inbound half was ordered put and no removal of that was answered. A direction wants an
/// association exactly where a cause of it stands since its command and its last inbound put, and its tunnel is over exactly
/// where an end of it was accepted after its command; it is owed one where it is wanted and not over. An association is ended
/// exactly where an act that ends it stands since its inbound put was ordered, and the newest serial of a direction is that of the
/// association put last in it since its command. The causes that speak of the associations left say the same of all that were ever
/// put.
pub fn reads_plainly()
    ensures waiting { (p : ℕ) (h : List ControllerAct) → IsControllerPast p h → (g : ℕ) → is_open g h ≡ true → (j : ℕ)
        → place j (queue g h) ≡ numbered g (openings g h) (answered g h + 1 + j) h }
    ensures shut { (p : ℕ) (h : List ControllerAct) (g : ℕ) → IsControllerPast p h → is_open g h ≡ false → queue g h ≡ [] }
    ensures left { (p : ℕ) (h : List ControllerAct) → IsControllerPast p h → (d : Way) → Has d (directions h) → (x : Association)
        → Has x (left d h) → (d ≡ x.way) × WasOrdered (PutIn x) d.receiver h × (has_answer RemovingIn x.serial h ≡ false) }
    ensures stays_left { (p : ℕ) (h : List ControllerAct) → IsControllerPast p h → (x : Association) (g : ℕ) → WasOrdered (PutIn x) g h
        → has_answer RemovingIn x.serial h ≡ false → Has x (left x.way h) }
    ensures wanted { (d : Way) (h : List ControllerAct) → is_wanted d h ≡ true → CauseStands d h }
    ensures stands { (d : Way) (h : List ControllerAct) → CauseStands d h → is_wanted d h ≡ true }
    ensures over { (d : Way) (h : List ControllerAct) → Has d (directions h) → is_over d h ≡ true → WasEnded d h }
    ensures ended { (d : Way) (h : List ControllerAct) → WasEnded d h → is_over d h ≡ true }
    ensures owed { (d : Way) (h : List ControllerAct) → is_owed d h ≡ true → CauseStands d h × (WasEnded d h → ⊥) }
    ensures owes { (d : Way) (h : List ControllerAct) → Has d (directions h) → CauseStands d h → (WasEnded d h → ⊥) → is_owed d h ≡ true }
    ensures ended_by { (x : Association) (h : List ControllerAct) → is_ended x h ≡ true → WasEndedBy x h }
    ensures ends { (x : Association) (h : List ControllerAct) → WasEndedBy x h → is_ended x h ≡ true }
    ensures newest { (d : Way) (h : List ControllerAct) → 0 < newest_serial d h → (x : Association) × WasPutLast d x h
        × (newest_serial d h ≡ x.serial) }
    ensures last { (d : Way) (x : Association) (h : List ControllerAct) → WasPutLast d x h → newest_serial d h ≡ x.serial }
    ensures number { (p g s n : ℕ) (a : Answer) (h : List ControllerAct) → IsControllerPast p (Answered g s n a ∷ h)
        → numbered g s n h ≡ oldest (queue g h) }
    ensures progress { (n : ℕ) (h : List ControllerAct) → IsControllerPast n h → (d : Way)
        → list_any (is_in_progress h) (made d h) ≡ list_any (is_in_progress h) (left d h) }
    ensures reading { (n : ℕ) (h : List ControllerAct) → IsControllerPast n h → (d : Way) (g : ℕ) (names : List (List ℕ))
        → list_any (is_unseen h d g names) (made d h) ≡ list_any (is_unseen h d g names) (left d h) }
{}

/// A list of gateways can stand for what is kept, where each event speaks of a known gateway.
pub fn fits_a_table()
    ensures first { (n : ℕ) → seen (first_table n) ≡ state_of [] }
    ensures act { (t : Table) (a : ControllerAct) → Fits (length t.gateways) a → seen (did_table t a) ≡ did (seen t) a }
    ensures step { (ps : List Peer) (t : Table) (h : List ControllerAct) (e : ControllerEvent) → IsControllerPast (length ps) h
        → AllFit (length ps) h → length t.gateways ≡ length ps → seen t ≡ state_of h → EventFits (length ps) e →
        (seen (next_table ps t e) ≡ state_of (after h (block ps h e))) × (length (next_table ps t e).gateways ≡ length ps) × AllFit (length ps) (after h (block ps h e)) }
    ensures history { (ps : List Peer) (es : List ControllerEvent) → AllEventsFit (length ps) es
        → AllFit (length ps) (after [] (history ps [] es)) }
{}

/// The controller's words of its sessions say the same as the words of the transcript in which its acts are told, where the
/// peers have different names. The orders that wait are those of its queue, those given before them were answered, and a cut loses
/// all that wait.
pub fn tells_a_transcript()
    ensures past { (ps : List Peer) (h xs : List ControllerAct) → past_told ps (after h xs) ≡ happened.after (past_told ps h)
        (all_told ps xs) }
    ensures openings { (ps : List Peer) (h : List ControllerAct) → Named ps → AllFit (length ps) h → (g : ℕ) → g < length ps
        → sessions.openings (peer_name ps g) (past_told ps h) ≡ openings g h }
    ensures open { (ps : List Peer) (h : List ControllerAct) → Named ps → AllFit (length ps) h → (g : ℕ) → g < length ps
        → sessions.is_open (peer_name ps g) (past_told ps h) ≡ is_open g h }
    ensures orders { (ps : List Peer) (n : ℕ) (h : List ControllerAct) → IsControllerPast n h → Named ps → AllFit (length ps) h → (g : ℕ)
        → g < length ps → sessions.orders (peer_name ps g) (openings g h) (past_told ps h) ≡ orders g h }
    ensures answered { (ps : List Peer) (n : ℕ) (h : List ControllerAct) → IsControllerPast n h → Named ps → AllFit (length ps) h → (g : ℕ)
        → g < length ps → sessions.answered (peer_name ps g) (openings g h) (past_told ps h) ≡ answered g h }
    ensures read { (ps : List Peer) (n : ℕ) (h : List ControllerAct) → IsControllerPast n h → Named ps → AllFit (length ps) h → (g : ℕ)
        → g < length ps → sessions.is_read (peer_name ps g) (past_told ps h) ≡ is_read g h }
    ensures waiting { (ps : List Peer) (n : ℕ) (h : List ControllerAct) → IsControllerPast n h → Named ps → AllFit (length ps) h → (g : ℕ)
        → g < length ps → sessions.orders_waiting (peer_name ps g) (openings g h) (past_told ps h) ≡ map (order_told ps) (queue g h) }
    ensures given { (ps : List Peer) (n : ℕ) (h : List ControllerAct) → IsControllerPast n h → Named ps → AllFit (length ps) h → (g : ℕ)
        → g < length ps → is_open g h ≡ true → sessions.orders_given (peer_name ps g) (openings g h) (past_told ps h) ≡
        sessions.orders_answered (peer_name ps g) (openings g h) (past_told ps h) ++ map (order_told ps) (queue g h) }
    ensures lost { (ps : List Peer) (n : ℕ) (h : List ControllerAct) (g s : ℕ) → IsControllerPast n (Cut g s ∷ h) → Named ps
        → AllFit (length ps) h → g < length ps → sessions.orders_lost (peer_name ps g) s (past_told ps (Cut g s ∷ h)) ≡ map (order_told ps)
        (queue g h) }
    ensures order { (ps : List Peer) (h : List ControllerAct) → Named ps → AllFit (length ps) h → (g s n : ℕ) → g < length ps
        → sessions.order_at (peer_name ps g) s n (past_told ps h) ≡ option_map (order_told ps) (numbered g s n h) }
{}
