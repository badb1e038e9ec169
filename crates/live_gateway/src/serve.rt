// A gateway serves, turn by turn.
ghost use Rattle.std.specs.Prelude.{◌≡◌, ◌≤◌, ◌⊎◌, ◌∷◌, ◌++◌, [], List, ℕ, Bool, Option, OnOk, length};
ghost use Rattle.ikl_base.specs.Outside.{HasRisen};
ghost use Rattle.gw_packets.specs.declared.done.Config.{Config as GatewayConfig};
ghost use Rattle.gw_core.specs.Machine.{CanBoot, booted};
ghost use Rattle.live_devices.specs.Clocks.{Tells as Reads};
ghost use Rattle.live_devices.specs.Reads.{Came};
ghost use Rattle.live_gateway.specs.Carried.{Devices};
ghost use Rattle.live_gateway.specs.Past.{Accepted, Came_in, Inside, Item, Outside};
ghost use Rattle.live_gateway.specs.Stands.{AreTaken, Calls, Served, Stands, called};
ghost use Rattle.live_gateway.specs.Causes.{IsCut, IsRead, MayWrite, Tells, broke, is_dock_fault, is_inside_fault, is_outside_fault};

use crate::ended::Ended;
use crate::node::Node;
use crate::receive::{accept, read_clock, receive_inside, receive_outside};
use crate::session::read_session;
use gw_core::{Config, Gateway};
use ikl_base::NoMemory;
use live_devices::{Clock, Dock, Wire};
use live_messages::readers_hold;
use std::alloc::Global;

// Room for the longest datagram.
const ROOM: usize = 65_575;

// Receives once from either wire.
fn receive<A: Wire, B: Wire, D: Dock>(
    node: &mut Node,
    buf: &mut [u8],
    inside: &mut A,
    outside: &mut B,
    dock: &mut D,
) -> Result<(), Ended>
    requires may { MayWrite node.old.session (D.is_taken dock.old) }
    requires read { IsRead node.old.session }
    requires room { length buf.old ≡ 65575 }
    ensures goes { OnOk result ((c : GatewayConfig) (start : Devices) (past : List Item)
        → Stands c start past []
        (record { inside = A.held inside.old; outside = B.held outside.old; dock = D.held dock.old; faults = D.faults dock.old })
        node.old.gateway node.old.session
        → (packet : Option (List ℕ)) × (datagram : Option (List ℕ)) × Stands c start (Outside datagram ∷ Inside packet ∷ past) []
        (record { inside = A.held inside.new; outside = B.held outside.new; dock = D.held dock.new; faults = D.faults dock.new })
        node.new.gateway node.new.session) }
    ensures may { MayWrite node.new.session (D.is_taken dock.new) }
    ensures read { IsRead node.new.session }
    ensures later { OnOk result (D.faults dock.old ≤ D.faults dock.new) }
    ensures inside_tells { Tells (A.faults inside.old) (A.faults inside.new) (A.last_failed inside.old) (A.last_failed inside.new)
        (broke is_inside_fault result) }
    ensures outside_tells { Tells (B.faults outside.old) (B.faults outside.new) (B.last_failed outside.old) (B.last_failed outside.new)
        (broke is_outside_fault result) }
    ensures accept_tells { Tells (D.accept_faults dock.old) (D.accept_faults dock.new) (D.accept_failed dock.old) (D.accept_failed dock.new)
        (broke is_dock_fault result) }
    ensures cut { IsCut result }
{
    match receive_inside(node, buf, inside, outside, dock) {
        Ok(()) => receive_outside(node, buf, inside, outside, dock),
        Err(ended) => Err(ended),
    }
}

// Accepts once, and reads the session once where one is there.
fn attend<A: Wire, B: Wire, D: Dock>(
    node: &mut Node,
    buf: &mut [u8],
    inside: &mut A,
    outside: &mut B,
    dock: &mut D,
) -> Result<(), Ended>
    requires may { MayWrite node.old.session (D.is_taken dock.old) }
    requires read { IsRead node.old.session }
    requires room { length buf.old ≡ 65575 }
    ensures goes { OnOk result ((c : GatewayConfig) (start : Devices) (past : List Item)
        → Stands c start past []
        (record { inside = A.held inside.old; outside = B.held outside.old; dock = D.held dock.old; faults = D.faults dock.old })
        node.old.gateway node.old.session
        → (is_taken : Bool) × (came : Came) × (more : List Item) × AreTaken more × Stands c start (more ++ Came_in came ∷ Accepted is_taken ∷ past) []
        (record { inside = A.held inside.new; outside = B.held outside.new; dock = D.held dock.new; faults = D.faults dock.new })
        node.new.gateway node.new.session) }
    ensures may { MayWrite node.new.session (D.is_taken dock.new) }
    ensures read { IsRead node.new.session }
    ensures later { OnOk result (D.faults dock.old ≤ D.faults dock.new) }
    ensures inside_tells { Tells (A.faults inside.old) (A.faults inside.new) (A.last_failed inside.old) (A.last_failed inside.new)
        (broke is_inside_fault result) }
    ensures outside_tells { Tells (B.faults outside.old) (B.faults outside.new) (B.last_failed outside.old) (B.last_failed outside.new)
        (broke is_outside_fault result) }
    ensures accept_tells { Tells (D.accept_faults dock.old) (D.accept_faults dock.new) (D.accept_failed dock.old) (D.accept_failed dock.new)
        (broke is_dock_fault result) }
    ensures cut { IsCut result }
{
    match accept(node, inside, outside, dock) {
        Ok(()) => read_session(node, buf, inside, outside, dock),
        Err(ended) => Err(ended),
    }
}

// One turn: the clock, both wires, and the session.
fn turn<A: Wire, B: Wire, D: Dock, C: Clock>(
    node: &mut Node,
    buf: &mut [u8],
    inside: &mut A,
    outside: &mut B,
    dock: &mut D,
    clock: &mut C,
) -> Result<(), Ended>
    requires may { MayWrite node.old.session (D.is_taken dock.old) }
    requires read { IsRead node.old.session }
    requires room { length buf.old ≡ 65575 }
    ensures goes { OnOk result ((c : GatewayConfig) (start : Devices) (past : List Item)
        → Stands c start past []
        (record { inside = A.held inside.old; outside = B.held outside.old; dock = D.held dock.old; faults = D.faults dock.old })
        node.old.gateway node.old.session
        → (t : Calls) × (more : List Item) × AreTaken more × Stands c start (more ++ called t past) []
        (record { inside = A.held inside.new; outside = B.held outside.new; dock = D.held dock.new; faults = D.faults dock.new })
        node.new.gateway node.new.session
        × Reads (C.readings clock.old) (C.readings clock.new) t.now) }
    ensures may { MayWrite node.new.session (D.is_taken dock.new) }
    ensures read { IsRead node.new.session }
    ensures later { OnOk result (D.faults dock.old ≤ D.faults dock.new) }
    ensures inside_tells { Tells (A.faults inside.old) (A.faults inside.new) (A.last_failed inside.old) (A.last_failed inside.new)
        (broke is_inside_fault result) }
    ensures outside_tells { Tells (B.faults outside.old) (B.faults outside.new) (B.last_failed outside.old) (B.last_failed outside.new)
        (broke is_outside_fault result) }
    ensures accept_tells { Tells (D.accept_faults dock.old) (D.accept_faults dock.new) (D.accept_failed dock.old) (D.accept_failed dock.new)
        (broke is_dock_fault result) }
    ensures cut { IsCut result }
{
    let now = clock.now();
    match read_clock(node, now, inside, outside, dock) {
        Ok(()) => (),
        Err(ended) => return Err(ended),
    }
    match receive(node, buf, inside, outside, dock) {
        Ok(()) => attend(node, buf, inside, outside, dock),
        Err(ended) => Err(ended),
    }
}

// Serves with a gateway that has just started.
fn serve<A: Wire, B: Wire, D: Dock, C: Clock>(
    gateway: Gateway,
    alloc: Global,
    inside: &mut A,
    outside: &mut B,
    dock: &mut D,
    clock: &mut C,
    turns: u64,
) -> Ended
    requires { gateway ≡ booted gateway.config }
    ensures serves { result ≡ Ended.TurnsSpent → (HasRisen (D.faults dock.old) (D.faults dock.new) → ⊥) → Served gateway.config turns
        (record { inside = A.held inside.old; outside = B.held outside.old; dock = D.held dock.old; faults = D.faults dock.old })
        (record { inside = A.held inside.new; outside = B.held outside.new; dock = D.held dock.new; faults = D.faults dock.new })
        (C.readings clock.old) (C.readings clock.new) }
    ensures inside_tells { Tells (A.faults inside.old) (A.faults inside.new) (A.last_failed inside.old) (A.last_failed inside.new)
        (is_inside_fault result) }
    ensures outside_tells { Tells (B.faults outside.old) (B.faults outside.new) (B.last_failed outside.old) (B.last_failed outside.new)
        (is_outside_fault result) }
    ensures accept_tells { Tells (D.accept_faults dock.old) (D.accept_faults dock.new) (D.accept_failed dock.old) (D.accept_failed dock.new)
        (is_dock_fault result) }
{
    readers_hold();
    let mut node = Node {
        alloc,
        gateway,
        session: None,
    };
    let mut buf = [0u8; ROOM];
    'turns: for _turn in 0..turns {
        match turn(&mut node, &mut buf, inside, outside, dock, clock) {
            Ok(()) => (),
            Err(ended) => return ended,
        }
    }
    Ended::TurnsSpent
}

/// Serves for so many turns as the gateway of this address, whose halves send no number above the last one, which is 1 to 4,294,967,295.
///
/// A turn reads the clock, receives once from inside and once from outside, accepts once, and reads the session once where one is there. What
/// each call brings happens at the gateway message by message, and what it does is carried out before the next one. A fault of a read or a
/// write of the session ends it, as its end does and octets that are no request, which are answered. A fault of a wire or of an accept ends
/// the call.
pub fn serve_gateway<A: Wire, B: Wire, D: Dock, C: Clock>(
    alloc: Global,
    config: Config,
    inside: &mut A,
    outside: &mut B,
    dock: &mut D,
    clock: &mut C,
    turns: u64,
) -> Ended
    requires { CanBoot config }
    // Where no read or write of a session failed, all turns made their calls, what those gave happened at the gateway as its law says, and
    // the devices hold what its acts say.
    ensures serves { result ≡ Ended.TurnsSpent → (HasRisen (D.faults dock.old) (D.faults dock.new) → ⊥) → Served config turns
        (record { inside = A.held inside.old; outside = B.held outside.old; dock = D.held dock.old; faults = D.faults dock.old })
        (record { inside = A.held inside.new; outside = B.held outside.new; dock = D.held dock.new; faults = D.faults dock.new })
        (C.readings clock.old) (C.readings clock.new) }
    // Over devices whose counts of faults don't rise all turns are served, unless memory runs out.
    ensures complete { (HasRisen (A.faults inside.old) (A.faults inside.new) → ⊥) → (HasRisen (B.faults outside.old) (B.faults outside.new)
        → ⊥)
        → (HasRisen (D.accept_faults dock.old) (D.accept_faults dock.new) → ⊥) → (result ≡ Ended.TurnsSpent) ⊎ (result ≡ Ended.NoMemory) }
    ensures inside_tells { Tells (A.faults inside.old) (A.faults inside.new) (A.last_failed inside.old) (A.last_failed inside.new)
        (is_inside_fault result) }
    ensures outside_tells { Tells (B.faults outside.old) (B.faults outside.new) (B.last_failed outside.old) (B.last_failed outside.new)
        (is_outside_fault result) }
    ensures accept_tells { Tells (D.accept_faults dock.old) (D.accept_faults dock.new) (D.accept_failed dock.old) (D.accept_failed dock.new)
        (is_dock_fault result) }
{
    match Gateway::booted(alloc, config) {
        Ok(gateway) => serve(gateway, alloc, inside, outside, dock, clock, turns),
        Err(NoMemory) => Ended::NoMemory,
    }
}
