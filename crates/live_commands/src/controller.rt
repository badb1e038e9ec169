// The command `controller`.
ghost use Rattle.std.specs.Prelude.{◌≡◌, ◌≤◌, ◌⊎◌, ℕ, false, IsErr, IsOk, Ok, length};
ghost use Rattle.ikl_base.specs.Outside.{HasRisen};
ghost use Rattle.ikl_base.specs.declared.status.Status.TheVariants as statuses;
ghost use Rattle.hist_controller.specs.Entries.{OneFamily};
ghost use Rattle.live_words.specs.declared.controller.ControllerWords.{ControllerWords as Stated};
ghost use Rattle.live_words.specs.Controller.{controller_words_of};
ghost use Rattle.live_controller.specs.Doings.{AreCalm};
ghost use Rattle.live_controller.specs.Endings.{AcceptTells, is_dock_fault};
ghost use Rattle.live_controller.specs.Stands.{Served};
ghost use Rattle.live_commands.specs.Ends.{IsOfWords};
ghost use Rattle.live_commands.specs.Controller.{EndsBy, status_of};

use hist_scripts::reads_headers;
use ikl_base::{OrMemory, Status};
use live_controller::{Ended, serve_controller};
use live_devices::{Dialer, Dock};
use live_words::{ControllerWords, read_controller_words};
use std::alloc::Global;

// The status of how serving ended.
fn status(ended: Ended) -> Status
    ensures { result ≡ status_of ended }
{
    match ended {
        Ended::TurnsSpent => Status::TurnsSpent,
        Ended::DockFault => Status::DeviceFault,
        Ended::NoMemory => Status::NoMemory,
    }
}

// Serves as the words say.
fn serve<D: Dock, L: Dialer>(
    alloc: Global,
    w: ControllerWords,
    commands: &mut D,
    dialer: &mut L,
) -> Status
    requires family { OneFamily w.peers }
    requires known { length w.peers ≤ L.peers dialer.old }
    requires down { (g : ℕ) → L.is_up dialer.old g ≡ false }
    ensures tells { EndsBy result (λ ended.
        AcceptTells (D.accept_faults commands.old) (D.accept_faults commands.new) (D.accept_failed commands.old) (D.accept_failed commands.new)
        (is_dock_fault ended)) }
    ensures serves { result ≡ statuses.TurnsSpent → AreCalm (L.faults dialer.old) (L.faults dialer.new)
        → (HasRisen (D.faults commands.old) (D.faults commands.new) → ⊥) → Served w.peers w.turns
        (record { dock = D.held commands.old; peers = L.held dialer.old }) (record { dock = D.held commands.new; peers = L.held dialer.new }) }
{
    status(serve_controller(alloc, w.peers, commands, dialer, w.turns))
}

/// Serves as the controller of the gateways that the words name, the command's name first.
///
/// `TurnsSpent`: all turns were served. `DeviceFault`: an accept failed. `Words`: the words aren't the command's. The dialer's peers are
/// the gateways in the order of the words, and none is up.
pub fn run_controller<D: Dock, L: Dialer>(
    alloc: Global,
    words: &[String],
    commands: &mut D,
    dialer: &mut L,
) -> Status
    requires known { (w : Stated) → controller_words_of words.now ≡ Ok w → length w.peers ≤ L.peers dialer.old }
    requires down { (g : ℕ) → L.is_up dialer.old g ≡ false }
    ensures words { IsOfWords result (controller_words_of words.now) }
    ensures untouched { IsErr (controller_words_of words.now) → (commands.new ≡ commands.old) × (dialer.new ≡ dialer.old) }
    // A fault comes exactly where an accept failed, and it was the last one.
    ensures tells { IsOk (controller_words_of words.now) → EndsBy result (λ ended.
        AcceptTells (D.accept_faults commands.old) (D.accept_faults commands.new) (D.accept_failed commands.old) (D.accept_failed commands.new)
        (is_dock_fault ended)) }
    // Where no call of a peer and none of a client's session failed, all turns that the words say were served for the peers that they name.
    ensures serves { (w : Stated) → controller_words_of words.now ≡ Ok w → result ≡ statuses.TurnsSpent
        → AreCalm (L.faults dialer.old) (L.faults dialer.new) → (HasRisen (D.faults commands.old) (D.faults commands.new) → ⊥)
        → Served w.peers w.turns
        (record { dock = D.held commands.old; peers = L.held dialer.old }) (record { dock = D.held commands.new; peers = L.held dialer.new }) }
    // With the command's words and a dock whose count of accepts doesn't rise all turns are served, unless memory runs out.
    ensures complete { IsOk (controller_words_of words.now) → (HasRisen (D.accept_faults commands.old) (D.accept_faults commands.new) → ⊥)
        → (result ≡ statuses.TurnsSpent) ⊎ (result ≡ statuses.NoMemory) }
{
    reads_headers();
    match read_controller_words(alloc, words) {
        Ok(w) => serve(alloc, w, commands, dialer),
        Err(OrMemory::Refused(_)) => Status::Words,
        Err(OrMemory::NoMemory) => Status::NoMemory,
    }
}
