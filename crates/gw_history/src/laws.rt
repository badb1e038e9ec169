// Laws for the crates above: each is the contract of a function that only calls such functions.
ghost use Rattle.std.specs.Prelude.{◌≡◌, ◌<◌, ◌++◌, ℕ, List, [], ◌∷◌, All, map};
ghost use Rattle.hist_acts.specs.declared.act.Act.{Act};
ghost use Rattle.hist_acts.specs.declared.act.Act.TheVariants as acts;
ghost use Rattle.hist_acts.specs.Past.{after, clock};
ghost use Rattle.hist_gateway.specs.Block.{gw_block, gw_history};
ghost use Rattle.hist_gateway.specs.May.{IsGatewayPast};
ghost use Rattle.hist_gateway.specs.Safe.{IsGatewaySafe};
ghost use Rattle.hist_gateway.specs.State.{state_of};
ghost use Rattle.gw_tables.specs.Kept as tables;
ghost use Rattle.gw_tables.specs.Sound.{IsSound};
ghost use Rattle.gw_packets.specs.declared.done.Config.{Config};
ghost use Rattle.gw_core.specs.Machine.{Clock, Event, IsEvent, stepped};
ghost use Rattle.gw_law.specs.Told.{begun, kept_of, naming_of, restarted};
ghost use Rattle.gw_law.specs.Orderly.{InstallsTunnel};
ghost use Rattle.gw_law.specs.Faultless.{HasNoFault};
ghost use Rattle.gw_history.specs.Told.{AreEvents, AreTunnelEvents, event_of, gateway_of, naming_after, run_of, step_told};

use esp_frame::seal_law;
use gw_law::events_follow;
use hist_gateway::{blocks_follow, is_every_history_safe, sealed, steps};
use reply_table::changes_fit;

/// A step of a gateway that keeps what is kept of a past: its acts, told behind the event's own, are the one block that the past allows,
/// and it leaves what is kept of the past with that block.
///
/// Each act of the past may follow those before it, and each half that was installed has addresses of one family.
pub fn steps_follow()
    ensures acts { (c : Config) (g : List ℕ) (h : List Act) (e : Event) → IsGatewayPast (gateway_of g c) h → All InstallsTunnel h →
        step_told (naming_of g (state_of g h)) e (stepped c e (kept_of (state_of g h))) ≡ gw_block (gateway_of g c) h (event_of e) }
    ensures kept { (c : Config) (g : List ℕ) (h : List Act) (e : Event) → IsGatewayPast (gateway_of g c) h → All InstallsTunnel h →
        (stepped c e (kept_of (state_of g h))).kept ≡ kept_of (state_of g (after h (gw_block (gateway_of g c) h (event_of e)))) }
    ensures naming { (c : Config) (g : List ℕ) (h : List Act) (e : Event) → IsGatewayPast (gateway_of g c) h → All InstallsTunnel h →
        naming_after (naming_of g (state_of g h)) e ≡ naming_of g (state_of g (after h (gw_block (gateway_of g c) h (event_of e)))) }
{
    events_follow();
}

/// Steps one after another, told, are the history of their events: from the start, and from any lawful past.
pub fn runs_follow()
    ensures begun { (c : Config) (g : List ℕ) (es : List Event) → AreTunnelEvents es →
        (run_of c (begun g) tables.booted es).acts ≡ gw_history (gateway_of g c) [] (map event_of es) }
    ensures begun_kept { (c : Config) (g : List ℕ) (es : List Event) → AreTunnelEvents es →
        (run_of c (begun g) tables.booted es).kept ≡ kept_of (state_of g (after [] (gw_history (gateway_of g c) [] (map event_of es)))) }
    ensures past { (c : Config) (g : List ℕ) (h : List Act) (es : List Event) → IsGatewayPast (gateway_of g c) h → All InstallsTunnel h
        → AreTunnelEvents es →
        (run_of c (naming_of g (state_of g h)) (kept_of (state_of g h)) es).acts ≡ gw_history (gateway_of g c) h (map event_of es) }
    ensures past_kept { (c : Config) (g : List ℕ) (h : List Act) (es : List Event) → IsGatewayPast (gateway_of g c) h → All InstallsTunnel h
        → AreTunnelEvents es →
        (run_of c (naming_of g (state_of g h)) (kept_of (state_of g h)) es).kept ≡ kept_of (state_of g (after h (gw_history (gateway_of g c) h (map event_of es)))) }
{
    gw_law::runs_follow();
}

/// A gateway that starts again is given the clock by a reading that does nothing else. It then keeps what is kept of the past with its
/// restart, and its steps are the history after that.
pub fn restarts_follow()
    ensures acts { (c : Config) (t : ℕ) → (stepped c (Clock t) tables.booted).acts ≡ [] }
    ensures kept { (c : Config) (g : List ℕ) (h : List Act) → (stepped c (Clock (clock h)) tables.booted).kept ≡ kept_of
        (state_of g (acts.Boot g ∷ h)) }
    ensures naming { (g : List ℕ) (h : List Act) → restarted (naming_of g (state_of g h)) ≡ naming_of g (state_of g (acts.Boot g ∷ h)) }
    ensures run { (c : Config) (g : List ℕ) (h : List Act) (es : List Event) → IsGatewayPast (gateway_of g c) h → All InstallsTunnel h
        → AreTunnelEvents es →
        (run_of c (restarted (naming_of g (state_of g h))) (stepped c (Clock (clock h)) tables.booted).kept es).acts ≡ gw_history (gateway_of g c) (acts.Boot g ∷ h) (map event_of es) }
{
    gw_law::restarts_follow();
}

/// Whatever events come to a gateway, it lets out and in in clear only what a bypass entry in force lets, sends no number twice under
/// one installation, and gives none that it took before: from its start, and after any lawful past, a restart at its end too.
pub fn is_every_run_safe()
    ensures begun { (c : Config) (g : List ℕ) (es : List Event) → AreTunnelEvents es
        → IsGatewaySafe (after [] (run_of c (begun g) tables.booted es).acts) }
    ensures past { (c : Config) (g : List ℕ) (h : List Act) (es : List Event) → IsGatewayPast (gateway_of g c) h → All InstallsTunnel h
        → AreTunnelEvents es →
        IsGatewaySafe (after h (run_of c (naming_of g (state_of g h)) (kept_of (state_of g h)) es).acts) }
{
    gw_law::is_every_run_safe();
}

/// No history of events whose requests speak of entries without a fault puts a fault into the databases, and what is kept of it has
/// none.
pub fn histories_have_no_fault()
    ensures acts { (c : Config) (g : List ℕ) (h : List Act) (es : List Event) → c.seq_last < 4294967296 → AreEvents es → AreTunnelEvents es
        →
        IsGatewayPast (gateway_of g c) h → All InstallsTunnel h → All HasNoFault h → All HasNoFault (after h (gw_history (gateway_of g c) h (map event_of es))) }
    ensures kept { (c : Config) (g : List ℕ) (es : List Event) → c.seq_last < 4294967296 → AreEvents es → AreTunnelEvents es →
        IsSound (kept_of (state_of g (after [] (gw_history (gateway_of g c) [] (map event_of es))))) }
{
    steps();
    blocks_follow();
    is_every_history_safe();
    sealed();
    seal_law();
    changes_fit();
}
