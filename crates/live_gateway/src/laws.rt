// A law for the crates above: the contract of a function that only calls such functions.
ghost use Rattle.std.specs.Prelude.{◌≡◌, ◌∷◌, ◌++◌, ℕ, List, [], map};
ghost use Rattle.hist_gateway.specs.Block.{gw_history};
ghost use Rattle.gw_packets.specs.declared.done.Config.{Config};
ghost use Rattle.gw_history.specs.Told.{event_of as event_told, gateway_of};
ghost use Rattle.live_gateway.specs.Carried.{Devices};
ghost use Rattle.live_gateway.specs.Past.{Item, event_of, happened, kept_of};
ghost use Rattle.live_gateway.specs.Found.{AreFound};
ghost use Rattle.live_gateway.specs.History.{run_by, told_by};

use gw_history::runs_follow;

/// What the gateway of a node did after what came is the one history of the events that happened, as the law of a gateway has it: the acts of
/// each event stand behind those before it, and they are the acts that were carried out.
pub fn follows_history()
    ensures kept { (c : Config) (g : List ℕ) (past : List Item) → (run_by c g past).kept ≡ kept_of c past }
    ensures acts { (c : Config) (g : List ℕ) (past : List Item) (x : Item)
        → (run_by c g (x ∷ past)).acts ≡ (run_by c g past).acts ++ told_by c (run_by c g past).naming (kept_of c past) (event_of x) }
    ensures history { (c : Config) (g : List ℕ) (start : Devices) (past : List Item) → AreFound c start past
        → (run_by c g past).acts ≡ gw_history (gateway_of g c) [] (map event_told (happened past)) }
{
    runs_follow();
}
