// A law for the crates above: the contract of a function that only calls such functions.
ghost use Rattle.std.specs.Prelude.{◌≡◌, List, []};
ghost use Rattle.ikeless_tree.specs.declared.command.Peer.{Peer};
ghost use Rattle.hist_controller.specs.Law.{history};
ghost use Rattle.ctl_core.specs.Core.{told_nothing};
ghost use Rattle.ctl_law.specs.Told.{all_done, events_of, run, run_core};
ghost use Rattle.live_controller.specs.Found.{AreFound, Devices};
ghost use Rattle.live_controller.specs.History.{did};
ghost use Rattle.live_controller.specs.Past.{Item, core_of, happened};

use ctl_law::{begins, runs_follow};
use rc_resource::answers_have_statuses;

/// What the controller of a node did at what came is the one history of the events that happened, as the law of a controller has it: no
/// act more, none less, and in its order.
pub fn follows_history()
    ensures core { (ps : List Peer) (past : List Item) → run_core (told_nothing ps) (happened ps past) ≡ core_of ps past }
    ensures acts { (ps : List Peer) (past : List Item) → run (told_nothing ps) (happened ps past) ≡ did ps past }
    ensures history { (ps : List Peer) (start : Devices) (past : List Item) → AreFound ps start past
        → did ps past ≡ all_done ps (history ps [] (events_of (happened ps past))) }
{
    begins();
    runs_follow();
    answers_have_statuses();
}
