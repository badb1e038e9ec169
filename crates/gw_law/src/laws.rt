// Laws for the crates above: each is the contract of a function that only calls such functions.
ghost use Rattle.std.specs.Prelude.{◌≡◌, ◌<◌, ◌+◌, ℕ, List, [], ◌∷◌, ◌++◌, All, Ok, Err};
ghost use Rattle.reply_table.specs.declared.ask.Ask.{Ask};
ghost use Rattle.reply_table.specs.Reply.{reply};
ghost use Rattle.hist_acts.specs.declared.act.Act.{Act};
ghost use Rattle.hist_acts.specs.declared.act.Act.TheVariants as acts;
ghost use Rattle.hist_acts.specs.Past.{after, clock};
ghost use Rattle.hist_gateway.specs.Block.{Arrive, Clock, Gateway, GatewayEvent, Handle, Let, Session_taken, gw_block, gw_history};
ghost use Rattle.hist_gateway.specs.Handle.{Fault, answer_of, change_acts, fault_answer};
ghost use Rattle.hist_gateway.specs.May.{IsGatewayPast};
ghost use Rattle.hist_gateway.specs.Safe.{IsGatewaySafe};
ghost use Rattle.hist_gateway.specs.State.{GatewayState, state_of};
ghost use Rattle.hist_gateway.specs.Machine.{acts_of, next, tree_from};
ghost use Rattle.gw_tables.specs.Kept.{Kept, booted, kept_after, session_taken, tree_of};
ghost use Rattle.gw_tables.specs.Sound.{IsSound};
ghost use Rattle.gw_packets.specs.Outbound.{let_in};
ghost use Rattle.gw_packets.specs.Inbound.{arrive};
ghost use Rattle.gw_packets.specs.Looks.{clock_read};
ghost use Rattle.gw_law.specs.Told.{Naming, acts_told, begun, kept_of, naming_of, restarted};
ghost use Rattle.gw_law.specs.Steps.{lives_after, lives_of, run_of, step_of};
ghost use Rattle.gw_law.specs.Faultless.{HasNoFault};
ghost use Rattle.gw_law.specs.Orderly.{AreTunnelEvents, AreTunnelLives, InstallsTunnel, IsOrderly};

use esp_frame::seal_law;
use hist_gateway::{blocks_follow, is_every_history_safe, sealed, steps};
use reply_table::changes_fit;

/// What is kept of a past is in order, where each act may follow those before it and each half that was installed has addresses of
/// one family: no two halves have one name, there are at most 4,096, each has a window of its own size, and at most 64 SPIs are kept.
/// So it is after every list of events.
pub fn pasts_are_orderly()
    ensures lawful { (c : Gateway) (g : List ℕ) (h : List Act) → IsGatewayPast c h → All InstallsTunnel h → IsOrderly (state_of g h) }
    ensures history { (c : Gateway) (events : List GatewayEvent) → AreTunnelEvents events
        → IsOrderly (state_of c.name (after [] (gw_history c [] events))) }
{
    steps();
    blocks_follow();
    is_every_history_safe();
    sealed();
    seal_law();
}

/// What is kept of a past has no fault, where each act may follow those before it, and none puts a list or a half with a fault: no
/// policy and no half has one, no half sent a number that doesn't fit its field, and nothing is more than there may be.
pub fn pasts_have_no_fault()
    ensures { (c : Gateway) (g : List ℕ) (h : List Act) → IsGatewayPast c h → c.seq_last < 4294967296 → All HasNoFault h
        → IsSound (kept_of (state_of g h)) }
{}

/// A packet from inside, a datagram from outside and a reading of the clock: behind the event's own act the acts told are those of the
/// law, and what is kept then is what the law keeps.
pub fn packets_follow()
    ensures packet { (c : Gateway) (s : GatewayState) (o : List ℕ) → IsOrderly s →
        acts_of c s (Let o) ≡ acts.Let c.name o ∷ acts_told (naming_of c.name s) (let_in c.seq_last o (kept_of s)).done }
    ensures packet_kept { (c : Gateway) (s : GatewayState) (o : List ℕ) → IsOrderly s →
        kept_of (next c s (Let o)) ≡ (let_in c.seq_last o (kept_of s)).kept }
    ensures datagram { (c : Gateway) (s : GatewayState) (o : List ℕ) → IsOrderly s →
        acts_of c s (Arrive o) ≡ acts.Arrived c.name o ∷ acts_told (naming_of c.name s) (arrive c.address o (kept_of s)).done }
    ensures datagram_kept { (c : Gateway) (s : GatewayState) (o : List ℕ) → IsOrderly s →
        kept_of (next c s (Arrive o)) ≡ (arrive c.address o (kept_of s)).kept }
    ensures reading { (c : Gateway) (s : GatewayState) (t : ℕ) → IsOrderly s →
        acts_of c s (Clock t) ≡ acts.Now (clock_read t (kept_of s)).kept.clock ∷ acts_told (naming_of c.name s) (clock_read t (kept_of s)).done }
    ensures reading_kept { (c : Gateway) (s : GatewayState) (t : ℕ) → IsOrderly s →
        kept_of (next c s (Clock t)) ≡ (clock_read t (kept_of s)).kept }
{
    sealed();
    seal_law();
}

/// A request: the acts are those of its reply's change and the Handled, and what is kept then is that with the change. The databases
/// are those of the reply. A request that could not be read changes nothing. A session that is taken leaves nothing standing.
pub fn requests_follow()
    ensures request { (c : Gateway) (s : GatewayState) (ask : Ask) →
        acts_of c s (Handle (Ok ask)) ≡ change_acts c.name (reply (tree_from s) ask) (reply (tree_from s) ask).change
        ++ acts.Handled c.name s.session (s.requests + 1) (answer_of (reply (tree_from s) ask)) ∷ [] }
    ensures request_kept { (c : Gateway) (s : GatewayState) (ask : Ask) →
        kept_of (next c s (Handle (Ok ask))) ≡ kept_after (reply (tree_from s) ask).tree.spd (reply (tree_from s) ask).change (kept_of s) }
    ensures tree { (k : Kept) (ask : Ask) →
        tree_of (kept_after (reply (tree_of k) ask).tree.spd (reply (tree_of k) ask).change k) ≡ (reply (tree_of k) ask).tree }
    ensures fault { (c : Gateway) (s : GatewayState) (fault : Fault) →
        acts_of c s (Handle (Err fault)) ≡ acts.Handled c.name s.session (s.requests + 1) (fault_answer fault) ∷ [] }
    ensures fault_kept { (c : Gateway) (s : GatewayState) (fault : Fault) → kept_of (next c s (Handle (Err fault))) ≡ kept_of s }
    ensures session { (c : Gateway) (s : GatewayState) → acts_of c s Session_taken ≡ acts.Opened c.name (s.openings + 1) ∷ [] }
    ensures session_kept { (c : Gateway) (s : GatewayState) → kept_of (next c s Session_taken) ≡ session_taken (kept_of s) }
{
    changes_fit();
}

/// An event at a gateway that keeps what is kept of a past: its acts are the one block that the past allows, and it leaves what is kept
/// of the past with that block.
pub fn events_follow()
    ensures acts { (c : Gateway) (h : List Act) (e : GatewayEvent) → IsGatewayPast c h → All InstallsTunnel h →
        (step_of c (naming_of c.name (state_of c.name h)) (kept_of (state_of c.name h)) e).acts ≡ gw_block c h e }
    ensures kept { (c : Gateway) (h : List Act) (e : GatewayEvent) → IsGatewayPast c h → All InstallsTunnel h →
        (step_of c (naming_of c.name (state_of c.name h)) (kept_of (state_of c.name h)) e).kept ≡ kept_of (state_of c.name (after h (gw_block c h e))) }
    ensures naming { (c : Gateway) (h : List Act) (e : GatewayEvent) → IsGatewayPast c h → All InstallsTunnel h →
        (step_of c (naming_of c.name (state_of c.name h)) (kept_of (state_of c.name h)) e).naming ≡ naming_of c.name (state_of c.name (after h (gw_block c h e))) }
{
    steps();
    blocks_follow();
    is_every_history_safe();
    sealed();
    seal_law();
}

/// Whatever events come to a gateway, one after another, its acts are its history: from its start, and from any lawful past.
pub fn runs_follow()
    ensures begun { (c : Gateway) (events : List GatewayEvent) → AreTunnelEvents events
        → (run_of c (begun c.name) booted events).acts ≡ gw_history c [] events }
    ensures begun_kept { (c : Gateway) (events : List GatewayEvent) → AreTunnelEvents events →
        (run_of c (begun c.name) booted events).kept ≡ kept_of (state_of c.name (after [] (gw_history c [] events))) }
    ensures past { (c : Gateway) (h : List Act) (events : List GatewayEvent) → IsGatewayPast c h → All InstallsTunnel h
        → AreTunnelEvents events →
        (run_of c (naming_of c.name (state_of c.name h)) (kept_of (state_of c.name h)) events).acts ≡ gw_history c h events }
    ensures past_kept { (c : Gateway) (h : List Act) (events : List GatewayEvent) → IsGatewayPast c h → All InstallsTunnel h
        → AreTunnelEvents events →
        (run_of c (naming_of c.name (state_of c.name h)) (kept_of (state_of c.name h)) events).kept ≡ kept_of (state_of c.name (after h (gw_history c h events))) }
{
    steps();
    blocks_follow();
    is_every_history_safe();
    sealed();
    seal_law();
}

/// A gateway that has just started keeps nothing. A reading of the clock does nothing else then, and leaves what is kept of a past that
/// ends with a restart. From there its acts are the history after that restart.
pub fn restarts_follow()
    ensures told { (n : Naming) (t : ℕ) → acts_told n (clock_read t booted).done ≡ [] }
    ensures kept { (g : List ℕ) (h : List Act) → (clock_read (clock h) booted).kept ≡ kept_of (state_of g (acts.Boot g ∷ h)) }
    ensures naming { (g : List ℕ) (h : List Act) → restarted (naming_of g (state_of g h)) ≡ naming_of g (state_of g (acts.Boot g ∷ h)) }
    ensures run { (c : Gateway) (h : List Act) (events : List GatewayEvent) → IsGatewayPast c h → All InstallsTunnel h
        → AreTunnelEvents events →
        (run_of c (restarted (naming_of c.name (state_of c.name h))) (clock_read (clock h) booted).kept events).acts ≡ gw_history c (acts.Boot c.name ∷ h) events }
    ensures lives { (c : Gateway) (lives : List (List GatewayEvent)) → AreTunnelLives lives
        → lives_of c (begun c.name) booted lives ≡ lives_after c [] lives }
{
    steps();
    blocks_follow();
    is_every_history_safe();
    sealed();
    seal_law();
}

/// Whatever events come to a gateway and however often it restarts, it lets out and in in clear only what a bypass entry in force lets,
/// sends no number twice under one installation, and gives none that it took before.
pub fn is_every_run_safe()
    ensures lives { (c : Gateway) (lives : List (List GatewayEvent)) → AreTunnelLives lives
        → IsGatewaySafe (after [] (lives_of c (begun c.name) booted lives)) }
    ensures past { (c : Gateway) (h : List Act) (events : List GatewayEvent) → IsGatewayPast c h → All InstallsTunnel h
        → AreTunnelEvents events →
        IsGatewaySafe (after h (run_of c (naming_of c.name (state_of c.name h)) (kept_of (state_of c.name h)) events).acts) }
{
    steps();
    blocks_follow();
    is_every_history_safe();
    sealed();
    seal_law();
}
