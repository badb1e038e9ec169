// What a gateway does is carried out.
ghost use Rattle.std.specs.Prelude.{◌≡◌, ◌∷◌, [], All, OnOk, false};
ghost use Rattle.world_steps.specs.Conditions.{IsWritten};
ghost use Rattle.live_devices.specs.Reads.{Makes};
ghost use Rattle.live_gateway.specs.Carried.{Carries, Devices, Writes, dock_by, inside_by, outside_by, with_datagram};
ghost use Rattle.live_gateway.specs.Causes.{IsCut, MayWrite, StaysOrEnds, Tells, broke, is_dock_fault, is_inside_fault, is_outside_fault};

use crate::ended::Ended;
use crate::node::Node;
use crate::write::{reply, send, tell};
use gw_core::{GwAct, GwActs};
use ikl_base::{Failed, NoMemory};
use live_devices::{Dock, Wire};

fn send_inside<A: Wire>(inside: &mut A, octets: &[u8]) -> Result<(), Ended>
    ensures sent { OnOk result (Makes (with_datagram octets.now) (A.held inside.old) (A.held inside.new)) }
    ensures tells { Tells (A.faults inside.old) (A.faults inside.new) (A.last_failed inside.old) (A.last_failed inside.new)
        (broke is_inside_fault result) }
    ensures outside { broke is_outside_fault result ≡ false }
    ensures dock { broke is_dock_fault result ≡ false }
    ensures cut { IsCut result }
{
    match send(inside, octets) {
        Ok(()) => Ok(()),
        Err(Failed) => Err(Ended::InsideFault),
    }
}

fn send_outside<B: Wire>(outside: &mut B, octets: &[u8]) -> Result<(), Ended>
    ensures sent { OnOk result (Makes (with_datagram octets.now) (B.held outside.old) (B.held outside.new)) }
    ensures tells { Tells (B.faults outside.old) (B.faults outside.new) (B.last_failed outside.old) (B.last_failed outside.new)
        (broke is_outside_fault result) }
    ensures inside { broke is_inside_fault result ≡ false }
    ensures dock { broke is_dock_fault result ≡ false }
    ensures cut { IsCut result }
{
    match send(outside, octets) {
        Ok(()) => Ok(()),
        Err(Failed) => Err(Ended::OutsideFault),
    }
}

// Sends what an act says.
fn send_act<A: Wire, B: Wire>(act: &GwAct, inside: &mut A, outside: &mut B) -> Result<(), Ended>
    ensures inside { OnOk result (Makes (inside_by act.now) (A.held inside.old) (A.held inside.new)) }
    ensures outside { OnOk result (Makes (outside_by act.now) (B.held outside.old) (B.held outside.new)) }
    ensures inside_tells { Tells (A.faults inside.old) (A.faults inside.new) (A.last_failed inside.old) (A.last_failed inside.new)
        (broke is_inside_fault result) }
    ensures outside_tells { Tells (B.faults outside.old) (B.faults outside.new) (B.last_failed outside.old) (B.last_failed outside.new)
        (broke is_outside_fault result) }
    ensures dock { broke is_dock_fault result ≡ false }
    ensures cut { IsCut result }
{
    match act {
        GwAct::Sent {
            name: _,
            number: _,
            octets,
        } => send_outside(outside, octets.as_slice()),
        GwAct::Clear(octets) => send_outside(outside, octets.as_slice()),
        GwAct::Gave {
            name: _,
            number: _,
            octets,
        } => send_inside(inside, octets.as_slice()),
        GwAct::Pass(octets) => send_inside(inside, octets.as_slice()),
        _ => Ok(()),
    }
}

// Writes what an act says to the session, a reply or a notice.
fn write_act<D: Dock>(node: &mut Node, act: &GwAct, dock: &mut D) -> Result<(), NoMemory>
    requires may { MayWrite node.old.session (D.is_taken dock.old) }
    requires written { IsWritten act.now }
    ensures gateway { node.new.gateway ≡ node.old.gateway }
    ensures wrote { OnOk result (Writes (D.held dock.old) (D.held dock.new) (D.faults dock.old) (D.faults dock.new)
        node.old.session node.new.session (dock_by node.old.gateway.kept.clock act.now)) }
    ensures may { MayWrite node.new.session (D.is_taken dock.new) }
    ensures session { StaysOrEnds node.old.session node.new.session }
    ensures accepts { (D.accept_faults dock.new ≡ D.accept_faults dock.old) × (D.accept_failed dock.new ≡ D.accept_failed dock.old) }
{
    let now = node.gateway.clock();
    match act {
        GwAct::Reply(answer) => reply(node.alloc, &mut node.session, dock, answer),
        GwAct::Notice(notice) => tell(node.alloc, &mut node.session, dock, notice, now),
        _ => Ok(()),
    }
}

// Carries out an act.
fn carry_out<A: Wire, B: Wire, D: Dock>(
    node: &mut Node,
    act: &GwAct,
    inside: &mut A,
    outside: &mut B,
    dock: &mut D,
) -> Result<(), Ended>
    requires may { MayWrite node.old.session (D.is_taken dock.old) }
    requires written { IsWritten act.now }
    ensures gateway { node.new.gateway ≡ node.old.gateway }
    ensures carries { OnOk result (Carries node.old.gateway.kept.clock (act.now ∷ []) node.old.session node.new.session
        (record { inside = A.held inside.old; outside = B.held outside.old; dock = D.held dock.old; faults = D.faults dock.old })
        (record { inside = A.held inside.new; outside = B.held outside.new; dock = D.held dock.new; faults = D.faults dock.new })) }
    ensures may { MayWrite node.new.session (D.is_taken dock.new) }
    ensures session { StaysOrEnds node.old.session node.new.session }
    ensures inside_tells { Tells (A.faults inside.old) (A.faults inside.new) (A.last_failed inside.old) (A.last_failed inside.new)
        (broke is_inside_fault result) }
    ensures outside_tells { Tells (B.faults outside.old) (B.faults outside.new) (B.last_failed outside.old) (B.last_failed outside.new)
        (broke is_outside_fault result) }
    ensures accept_tells { Tells (D.accept_faults dock.old) (D.accept_faults dock.new) (D.accept_failed dock.old) (D.accept_failed dock.new)
        (broke is_dock_fault result) }
    ensures cut { IsCut result }
{
    match send_act(act, inside, outside) {
        Ok(()) => (),
        Err(ended) => return Err(ended),
    }
    match write_act(node, act, dock) {
        Ok(()) => Ok(()),
        Err(NoMemory) => Err(Ended::NoMemory),
    }
}

/// Carries out acts, one after another.
pub fn carry_all<A: Wire, B: Wire, D: Dock>(
    node: &mut Node,
    acts: &GwActs,
    inside: &mut A,
    outside: &mut B,
    dock: &mut D,
) -> Result<(), Ended>
    requires may { MayWrite node.old.session (D.is_taken dock.old) }
    requires written { All IsWritten acts.now }
    ensures gateway { node.new.gateway ≡ node.old.gateway }
    ensures carries { OnOk result (Carries node.old.gateway.kept.clock acts.now node.old.session node.new.session
        (record { inside = A.held inside.old; outside = B.held outside.old; dock = D.held dock.old; faults = D.faults dock.old })
        (record { inside = A.held inside.new; outside = B.held outside.new; dock = D.held dock.new; faults = D.faults dock.new })) }
    ensures may { MayWrite node.new.session (D.is_taken dock.new) }
    ensures session { StaysOrEnds node.old.session node.new.session }
    ensures inside_tells { Tells (A.faults inside.old) (A.faults inside.new) (A.last_failed inside.old) (A.last_failed inside.new)
        (broke is_inside_fault result) }
    ensures outside_tells { Tells (B.faults outside.old) (B.faults outside.new) (B.last_failed outside.old) (B.last_failed outside.new)
        (broke is_outside_fault result) }
    ensures accept_tells { Tells (D.accept_faults dock.old) (D.accept_faults dock.new) (D.accept_failed dock.old) (D.accept_failed dock.new)
        (broke is_dock_fault result) }
    ensures cut { IsCut result }
{
    for act in acts.as_slice() {
        match carry_out(node, act, inside, outside, dock) {
            Ok(()) => (),
            Err(ended) => return Err(ended),
        }
    }
    Ok(())
}
