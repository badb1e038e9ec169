// Something happens at a gateway.
ghost use Rattle.std.specs.Prelude.{◌≡◌, All, IfOk, OnOk};
ghost use Rattle.gw_core.specs.Machine.{IsEvent, seen, stepped, with_kept};
ghost use Rattle.world_steps.specs.Conditions.{IsWritten};
ghost use Rattle.live_gateway.specs.Carried.{Devices, Does};
ghost use Rattle.live_gateway.specs.Causes.{CanRefuse, IsCut, MayWrite, StaysOrEnds, Tells, broke, is_dock_fault, is_inside_fault, is_outside_fault};

use crate::carry::carry_all;
use crate::ended::Ended;
use crate::node::Node;
use gw_core::{GwActs, GwEvent};
use ikl_base::{ListOf, NoMemory};
use live_devices::{Dock, Wire};
use text_bounds::replies_can_be_written;

// Steps the gateway. What it does can be written.
fn step(node: &mut Node, e: GwEvent) -> Result<GwActs, NoMemory>
    requires event { IsEvent (seen e) }
    requires refusal { CanRefuse (seen e) }
    ensures acts { IfOk result (λ acts. acts ≡ (stepped node.old.gateway.config (seen e.entry) node.old.gateway.kept).acts) }
    ensures written { IfOk result (λ acts. All IsWritten acts) }
    ensures gateway { OnOk result (node.new.gateway ≡ with_kept (stepped node.old.gateway.config (seen e.entry) node.old.gateway.kept).kept
        node.old.gateway) }
    ensures session { node.new.session ≡ node.old.session }
{
    replies_can_be_written();
    let mut acts = ListOf::new(node.alloc);
    node.gateway.step(e, &mut acts)?;
    Ok(acts)
}

/// Something happens at the gateway, and what it does is carried out.
pub fn happen<A: Wire, B: Wire, D: Dock>(
    node: &mut Node,
    e: GwEvent,
    inside: &mut A,
    outside: &mut B,
    dock: &mut D,
) -> Result<(), Ended>
    requires may { MayWrite node.old.session (D.is_taken dock.old) }
    requires event { IsEvent (seen e) }
    requires refusal { CanRefuse (seen e) }
    ensures does { OnOk result (Does (seen e.entry) node.old.gateway node.new.gateway node.old.session node.new.session
        (record { inside = A.held inside.old; outside = B.held outside.old; dock = D.held dock.old; faults = D.faults dock.old })
        (record { inside = A.held inside.new; outside = B.held outside.new; dock = D.held dock.new; faults = D.faults dock.new })) }
    ensures may { MayWrite node.new.session (D.is_taken dock.new) }
    ensures session { StaysOrEnds node.old.session node.new.session }
    ensures inside_tells { Tells (A.faults inside.old) (A.faults inside.new) (A.last_failed inside.old) (A.last_failed inside.new)
        (broke is_inside_fault result) }
    ensures outside_tells { Tells (B.faults outside.old) (B.faults outside.new) (B.last_failed outside.old) (B.last_failed outside.new)
        (broke is_outside_fault result) }
    ensures accept_tells { Tells (D.accept_faults dock.old) (D.accept_faults dock.new) (D.accept_failed dock.old) (D.accept_failed dock.new)
        (broke is_dock_fault result) }
    ensures cut { IsCut result }
{
    match step(node, e) {
        Ok(acts) => carry_all(node, &acts, inside, outside, dock),
        Err(NoMemory) => Err(Ended::NoMemory),
    }
}
