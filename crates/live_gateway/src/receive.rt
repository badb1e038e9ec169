// What comes to a gateway from its clock, its wires and its dock.
ghost use Rattle.std.specs.Prelude.{◌≡◌, ◌≤◌, ◌∷◌, [], List, ℕ, Option, Bool, OnOk, length};
ghost use Rattle.gw_packets.specs.declared.done.Config.{Config};
ghost use Rattle.live_gateway.specs.Carried.{Devices};
ghost use Rattle.live_gateway.specs.Past.{Accepted, Inside, Item, Outside, Seconds};
ghost use Rattle.live_gateway.specs.Stands.{Stands};
ghost use Rattle.live_gateway.specs.Causes.{IsCut, IsRead, MayWrite, Tells, broke, is_dock_fault, is_inside_fault, is_outside_fault};

use crate::ended::Ended;
use crate::happen::happen;
use crate::node::Node;
use gw_core::GwEvent;
use ikl_base::Failed;
use live_devices::{Dock, Wire};
use rc_http::Feeder;

/// The clock was read.
pub fn read_clock<A: Wire, B: Wire, D: Dock>(
    node: &mut Node,
    now: u32,
    inside: &mut A,
    outside: &mut B,
    dock: &mut D,
) -> Result<(), Ended>
    requires may { MayWrite node.old.session (D.is_taken dock.old) }
    requires read { IsRead node.old.session }
    ensures goes { OnOk result ((c : Config) (start : Devices) (past : List Item)
        → Stands c start past []
        (record { inside = A.held inside.old; outside = B.held outside.old; dock = D.held dock.old; faults = D.faults dock.old })
        node.old.gateway node.old.session
        → Stands c start (Seconds now ∷ past) []
        (record { inside = A.held inside.new; outside = B.held outside.new; dock = D.held dock.new; faults = D.faults dock.new })
        node.new.gateway node.new.session) }
    ensures may { MayWrite node.new.session (D.is_taken dock.new) }
    ensures read { IsRead node.new.session }
    ensures later { OnOk result (D.faults dock.old ≤ D.faults dock.new) }
    ensures inside_tells { Tells (A.faults inside.old) (A.faults inside.new) (A.last_failed inside.old) (A.last_failed inside.new)
        (broke is_inside_fault result) }
    ensures outside_tells { Tells (B.faults outside.old) (B.faults outside.new) (B.last_failed outside.old) (B.last_failed outside.new)
        (broke is_outside_fault result) }
    ensures accept_tells { Tells (D.accept_faults dock.old) (D.accept_faults dock.new) (D.accept_failed dock.old) (D.accept_failed dock.new)
        (broke is_dock_fault result) }
    ensures cut { IsCut result }
{
    happen(node, GwEvent::Clock(now), inside, outside, dock)
}

/// Receives once from inside.
pub fn receive_inside<A: Wire, B: Wire, D: Dock>(
    node: &mut Node,
    buf: &mut [u8],
    inside: &mut A,
    outside: &mut B,
    dock: &mut D,
) -> Result<(), Ended>
    requires may { MayWrite node.old.session (D.is_taken dock.old) }
    requires read { IsRead node.old.session }
    requires room { length buf.old ≡ 65575 }
    ensures goes { OnOk result ((c : Config) (start : Devices) (past : List Item)
        → Stands c start past []
        (record { inside = A.held inside.old; outside = B.held outside.old; dock = D.held dock.old; faults = D.faults dock.old })
        node.old.gateway node.old.session
        → (datagram : Option (List ℕ)) × Stands c start (Inside datagram ∷ past) []
        (record { inside = A.held inside.new; outside = B.held outside.new; dock = D.held dock.new; faults = D.faults dock.new })
        node.new.gateway node.new.session) }
    ensures may { MayWrite node.new.session (D.is_taken dock.new) }
    ensures read { IsRead node.new.session }
    ensures later { OnOk result (D.faults dock.old ≤ D.faults dock.new) }
    ensures inside_tells { Tells (A.faults inside.old) (A.faults inside.new) (A.last_failed inside.old) (A.last_failed inside.new)
        (broke is_inside_fault result) }
    ensures outside_tells { Tells (B.faults outside.old) (B.faults outside.new) (B.last_failed outside.old) (B.last_failed outside.new)
        (broke is_outside_fault result) }
    ensures accept_tells { Tells (D.accept_faults dock.old) (D.accept_faults dock.new) (D.accept_failed dock.old) (D.accept_failed dock.new)
        (broke is_dock_fault result) }
    ensures cut { IsCut result }
{
    match inside.recv(buf) {
        Err(Failed) => Err(Ended::InsideFault),
        Ok(None) => Ok(()),
        Ok(Some(n)) => {
            let (packet, _) = buf.split_at(n);
            happen(node, GwEvent::Let(packet), inside, outside, dock)
        }
    }
}

/// Receives once from outside.
pub fn receive_outside<A: Wire, B: Wire, D: Dock>(
    node: &mut Node,
    buf: &mut [u8],
    inside: &mut A,
    outside: &mut B,
    dock: &mut D,
) -> Result<(), Ended>
    requires may { MayWrite node.old.session (D.is_taken dock.old) }
    requires read { IsRead node.old.session }
    requires room { length buf.old ≡ 65575 }
    ensures goes { OnOk result ((c : Config) (start : Devices) (past : List Item)
        → Stands c start past []
        (record { inside = A.held inside.old; outside = B.held outside.old; dock = D.held dock.old; faults = D.faults dock.old })
        node.old.gateway node.old.session
        → (datagram : Option (List ℕ)) × Stands c start (Outside datagram ∷ past) []
        (record { inside = A.held inside.new; outside = B.held outside.new; dock = D.held dock.new; faults = D.faults dock.new })
        node.new.gateway node.new.session) }
    ensures may { MayWrite node.new.session (D.is_taken dock.new) }
    ensures read { IsRead node.new.session }
    ensures later { OnOk result (D.faults dock.old ≤ D.faults dock.new) }
    ensures inside_tells { Tells (A.faults inside.old) (A.faults inside.new) (A.last_failed inside.old) (A.last_failed inside.new)
        (broke is_inside_fault result) }
    ensures outside_tells { Tells (B.faults outside.old) (B.faults outside.new) (B.last_failed outside.old) (B.last_failed outside.new)
        (broke is_outside_fault result) }
    ensures accept_tells { Tells (D.accept_faults dock.old) (D.accept_faults dock.new) (D.accept_failed dock.old) (D.accept_failed dock.new)
        (broke is_dock_fault result) }
    ensures cut { IsCut result }
{
    match outside.recv(buf) {
        Err(Failed) => Err(Ended::OutsideFault),
        Ok(None) => Ok(()),
        Ok(Some(n)) => {
            let (datagram, _) = buf.split_at(n);
            happen(node, GwEvent::Arrive(datagram), inside, outside, dock)
        }
    }
}

/// Accepts once. A session that is taken takes the place of an older one.
pub fn accept<A: Wire, B: Wire, D: Dock>(
    node: &mut Node,
    inside: &mut A,
    outside: &mut B,
    dock: &mut D,
) -> Result<(), Ended>
    requires may { MayWrite node.old.session (D.is_taken dock.old) }
    requires read { IsRead node.old.session }
    ensures goes { OnOk result ((c : Config) (start : Devices) (past : List Item)
        → Stands c start past []
        (record { inside = A.held inside.old; outside = B.held outside.old; dock = D.held dock.old; faults = D.faults dock.old })
        node.old.gateway node.old.session
        → (is_taken : Bool) × Stands c start (Accepted is_taken ∷ past) []
        (record { inside = A.held inside.new; outside = B.held outside.new; dock = D.held dock.new; faults = D.faults dock.new })
        node.new.gateway node.new.session) }
    ensures may { MayWrite node.new.session (D.is_taken dock.new) }
    ensures read { IsRead node.new.session }
    ensures later { OnOk result (D.faults dock.old ≤ D.faults dock.new) }
    ensures inside_tells { Tells (A.faults inside.old) (A.faults inside.new) (A.last_failed inside.old) (A.last_failed inside.new)
        (broke is_inside_fault result) }
    ensures outside_tells { Tells (B.faults outside.old) (B.faults outside.new) (B.last_failed outside.old) (B.last_failed outside.new)
        (broke is_outside_fault result) }
    ensures accept_tells { Tells (D.accept_faults dock.old) (D.accept_faults dock.new) (D.accept_failed dock.old) (D.accept_failed dock.new)
        (broke is_dock_fault result) }
    ensures cut { IsCut result }
{
    match dock.accept() {
        Err(Failed) => Err(Ended::DockFault),
        Ok(false) => Ok(()),
        Ok(true) => {
            node.session = Some(Feeder::requests(node.alloc));
            happen(node, GwEvent::SessionTaken, inside, outside, dock)
        }
    }
}
