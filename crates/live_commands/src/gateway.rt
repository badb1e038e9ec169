// The command `gateway`.
ghost use Rattle.std.specs.Prelude.{◌≡◌, ◌⊎◌, IsErr, IsOk, Ok};
ghost use Rattle.ikl_base.specs.Outside.{HasRisen};
ghost use Rattle.ikl_base.specs.declared.status.Status.TheVariants as statuses;
ghost use Rattle.gw_core.specs.Machine.{CanBoot};
ghost use Rattle.live_words.specs.declared.gateway.GatewayWords.{GatewayWords as Stated};
ghost use Rattle.live_words.specs.Gateway.{gateway_words_of};
ghost use Rattle.live_gateway.specs.Causes.{Tells, is_dock_fault, is_inside_fault, is_outside_fault};
ghost use Rattle.live_gateway.specs.Stands.{Served};
ghost use Rattle.live_commands.specs.Ends.{IsOfWords};
ghost use Rattle.live_commands.specs.Gateway.{EndsBy, status_of};

use ikl_base::{OrMemory, Status};
use live_devices::{Clock, Dock, Wire};
use live_gateway::{Ended, serve_gateway};
use live_words::{GatewayWords, read_gateway_words};
use std::alloc::Global;

// The status of how serving ended.
fn status(ended: Ended) -> Status
    ensures { result ≡ status_of ended }
{
    match ended {
        Ended::TurnsSpent => Status::TurnsSpent,
        Ended::InsideFault => Status::DeviceFault,
        Ended::OutsideFault => Status::DeviceFault,
        Ended::DockFault => Status::DeviceFault,
        Ended::NoMemory => Status::NoMemory,
    }
}

// Serves as the words say.
fn serve<A: Wire, B: Wire, D: Dock, C: Clock>(
    alloc: Global,
    w: GatewayWords,
    inside: &mut A,
    outside: &mut B,
    dock: &mut D,
    clock: &mut C,
) -> Status
    requires { CanBoot w.config }
    ensures tells { EndsBy result (λ ended.
        Tells (A.faults inside.old) (A.faults inside.new) (A.last_failed inside.old) (A.last_failed inside.new) (is_inside_fault ended)
        × Tells (B.faults outside.old) (B.faults outside.new) (B.last_failed outside.old) (B.last_failed outside.new) (is_outside_fault ended)
        × Tells (D.accept_faults dock.old) (D.accept_faults dock.new) (D.accept_failed dock.old) (D.accept_failed dock.new) (is_dock_fault ended)) }
    ensures serves { result ≡ statuses.TurnsSpent → (HasRisen (D.faults dock.old) (D.faults dock.new) → ⊥) → Served w.config w.turns
        (record { inside = A.held inside.old; outside = B.held outside.old; dock = D.held dock.old; faults = D.faults dock.old })
        (record { inside = A.held inside.new; outside = B.held outside.new; dock = D.held dock.new; faults = D.faults dock.new })
        (C.readings clock.old) (C.readings clock.new) }
    ensures complete { (HasRisen (A.faults inside.old) (A.faults inside.new) → ⊥) → (HasRisen (B.faults outside.old) (B.faults outside.new)
        → ⊥)
        → (HasRisen (D.accept_faults dock.old) (D.accept_faults dock.new) → ⊥) → (result ≡ statuses.TurnsSpent) ⊎ (result ≡ statuses.NoMemory) }
{
    status(serve_gateway(alloc, w.config, inside, outside, dock, clock, w.turns))
}

/// Serves as a gateway, as the words say, the command's name first.
///
/// `TurnsSpent`: all turns were served. `DeviceFault`: a call of a wire failed, or an accept. `Words`: the words aren't the command's.
pub fn run_gateway<A: Wire, B: Wire, D: Dock, C: Clock>(
    alloc: Global,
    words: &[String],
    inside: &mut A,
    outside: &mut B,
    dock: &mut D,
    clock: &mut C,
) -> Status
    ensures words { IsOfWords result (gateway_words_of words.now) }
    ensures untouched { IsErr (gateway_words_of words.now)
        → (inside.new ≡ inside.old) × (outside.new ≡ outside.old) × (dock.new ≡ dock.old) × (clock.new ≡ clock.old) }
    // A fault is that of one device, and comes where its last call failed; else none failed.
    ensures tells { IsOk (gateway_words_of words.now) → EndsBy result (λ ended.
        Tells (A.faults inside.old) (A.faults inside.new) (A.last_failed inside.old) (A.last_failed inside.new) (is_inside_fault ended)
        × Tells (B.faults outside.old) (B.faults outside.new) (B.last_failed outside.old) (B.last_failed outside.new) (is_outside_fault ended)
        × Tells (D.accept_faults dock.old) (D.accept_faults dock.new) (D.accept_failed dock.old) (D.accept_failed dock.new) (is_dock_fault ended)) }
    // Where no read or write of a session failed, all turns that the words say were served as the gateway that they say.
    ensures serves { (w : Stated) → gateway_words_of words.now ≡ Ok w → result ≡ statuses.TurnsSpent
        → (HasRisen (D.faults dock.old) (D.faults dock.new) → ⊥) → Served w.config w.turns
        (record { inside = A.held inside.old; outside = B.held outside.old; dock = D.held dock.old; faults = D.faults dock.old })
        (record { inside = A.held inside.new; outside = B.held outside.new; dock = D.held dock.new; faults = D.faults dock.new })
        (C.readings clock.old) (C.readings clock.new) }
    // With the command's words and devices whose counts don't rise all turns are served, unless memory runs out.
    ensures complete { IsOk (gateway_words_of words.now) → (HasRisen (A.faults inside.old) (A.faults inside.new) → ⊥)
        → (HasRisen (B.faults outside.old) (B.faults outside.new) → ⊥) → (HasRisen (D.accept_faults dock.old) (D.accept_faults dock.new) → ⊥)
        → (result ≡ statuses.TurnsSpent) ⊎ (result ≡ statuses.NoMemory) }
{
    match read_gateway_words(alloc, words) {
        Ok(w) => serve(alloc, w, inside, outside, dock, clock),
        Err(OrMemory::Refused(_)) => Status::Words,
        Err(OrMemory::NoMemory) => Status::NoMemory,
    }
}
