// What comes in the session.
ghost use Rattle.std.specs.Prelude.{◌≡◌, ◌≤◌, ◌<◌, ◌∷◌, ◌++◌, [], List, Option, None, Err, IsSome, IfOk, OnOk, true, length, drop};
ghost use Rattle.rc_http.specs.Feeding.{Feeding};
ghost use Rattle.ikl_base.specs.Address.{AreOneFamily};
ghost use Rattle.ikeless_tree.specs.Check.{sad_fault};
ghost use Rattle.rc_request.specs.Asks.{IsAsk};
ghost use Rattle.rc_request.specs.Requests.{no_message, request_of};
ghost use Rattle.gw_law.specs.Orderly.{AsksTunnel};
ghost use Rattle.gw_packets.specs.declared.done.Config.{Config};
ghost use Rattle.gw_requests.specs.Requests.{IsRequest};
ghost use Rattle.gw_core.specs.Machine.{Handle};
ghost use Rattle.live_gateway.specs.Carried.{Carries, Devices, Does};
ghost use Rattle.live_devices.specs.Reads.{Came};
ghost use Rattle.live_gateway.specs.Past.{Came_in, Item};
ghost use Rattle.live_gateway.specs.Found.{IsTunnelled};
ghost use Rattle.live_gateway.specs.Stands.{AreTaken, Stands};
ghost use Rattle.live_gateway.specs.Causes.{CanRefuse, Feeds, IsCut, IsRead, MayWrite, StaysOrEnds, Tells, broke, is_dock_fault, is_inside_fault, is_outside_fault};

use crate::ended::Ended;
use crate::happen::happen;
use crate::node::Node;
use gw_core::GwEvent;
use ikeless_tree::{SadEntry, check_sad};
use ikl_base::{Failed, NoMemory, OrMemory};
use live_devices::{Dock, Wire};
use live_messages::{Brought, feed_next, readers_hold};
use rc_http::{Feeder, HttpFault, HttpMessage};
use rc_resource::{Ask, RcError, message_fault, read_request};
use std::alloc::Global;
use text_bounds::{refusals_are_text, replies_can_be_written};

// As many octets as a read of the session may give. A dock over sockets gives far fewer.
const READ: usize = 65_536;

// A half without a fault has a tunnel between addresses of one family.
fn has_tunnel(e: &SadEntry)
    requires { sad_fault e.now ≡ None }
    ensures { AreOneFamily e.now.local e.now.remote }
{
    match check_sad(e) {
        Ok(()) => (),
        Err(_) => unreachable!(),
    }
}

// So has one that is asked for.
fn asks_tunnel(ask: &Ask)
    requires { IsAsk ask.now }
    ensures { AsksTunnel ask.now }
{
    match ask {
        Ask::PostSad(e) => has_tunnel(e),
        _ => (),
    }
}

// What a message asks, or why it is refused.
fn asked(alloc: Global, message: &HttpMessage) -> Result<Result<Ask, RcError>, NoMemory>
    ensures ask { IfOk result (λ request. request ≡ request_of message.now) }
    ensures request { IfOk result IsRequest }
    ensures refusal { IfOk result (λ request. CanRefuse (Handle request)) }
    ensures tunnel { IfOk result IsTunnelled }
{
    refusals_are_text();
    replies_can_be_written();
    match read_request(alloc, message) {
        Ok(ask) => {
            asks_tunnel(&ask);
            Ok(Ok(ask))
        }
        Err(OrMemory::Refused(refused)) => Ok(Err(refused)),
        Err(OrMemory::NoMemory) => Err(NoMemory),
    }
}

// The refusal of what is no message.
fn unread(alloc: Global, fault: HttpFault) -> RcError
    ensures refusal { result ≡ no_message fault }
    ensures request { IsRequest (Err result) }
    ensures written { CanRefuse (Handle (Err result)) }
{
    replies_can_be_written();
    message_fault(alloc, fault)
}

// Feeds the next octets to the reader of the session, while one is there.
fn feed(session: &mut Option<Feeder>, piece: &[u8]) -> Result<Brought, NoMemory>
    requires { IsRead session.old }
    ensures feeds { IfOk result (Feeds session.old session.new piece.now) }
    ensures read { IsRead session.new }
    ensures stays { IsSome session.new → IsSome session.old }
{
    match session {
        None => Ok(Brought::Nothing),
        Some(feeder) => feed_next(feeder, piece),
    }
}

// Handles a message.
fn handle<A: Wire, B: Wire, D: Dock>(
    node: &mut Node,
    message: &HttpMessage,
    inside: &mut A,
    outside: &mut B,
    dock: &mut D,
) -> Result<(), Ended>
    requires may { MayWrite node.old.session (D.is_taken dock.old) }
    ensures does { OnOk result (Does (Handle (request_of message.now)) node.old.gateway node.new.gateway node.old.session node.new.session
        (record { inside = A.held inside.old; outside = B.held outside.old; dock = D.held dock.old; faults = D.faults dock.old })
        (record { inside = A.held inside.new; outside = B.held outside.new; dock = D.held dock.new; faults = D.faults dock.new })) }
    ensures tunnel { OnOk result (IsTunnelled (request_of message.now)) }
    ensures may { MayWrite node.new.session (D.is_taken dock.new) }
    ensures session { StaysOrEnds node.old.session node.new.session }
    ensures inside_tells { Tells (A.faults inside.old) (A.faults inside.new) (A.last_failed inside.old) (A.last_failed inside.new)
        (broke is_inside_fault result) }
    ensures outside_tells { Tells (B.faults outside.old) (B.faults outside.new) (B.last_failed outside.old) (B.last_failed outside.new)
        (broke is_outside_fault result) }
    ensures accept_tells { Tells (D.accept_faults dock.old) (D.accept_faults dock.new) (D.accept_failed dock.old) (D.accept_failed dock.new)
        (broke is_dock_fault result) }
    ensures cut { IsCut result }
{
    match asked(node.alloc, message) {
        Ok(request) => happen(node, GwEvent::Handle(request), inside, outside, dock),
        Err(NoMemory) => Err(Ended::NoMemory),
    }
}

// Refuses what is no message.
fn refuse<A: Wire, B: Wire, D: Dock>(
    node: &mut Node,
    fault: HttpFault,
    inside: &mut A,
    outside: &mut B,
    dock: &mut D,
) -> Result<(), Ended>
    requires may { MayWrite node.old.session (D.is_taken dock.old) }
    ensures does { OnOk result (Does (Handle (Err (no_message fault))) node.old.gateway node.new.gateway node.old.session node.new.session
        (record { inside = A.held inside.old; outside = B.held outside.old; dock = D.held dock.old; faults = D.faults dock.old })
        (record { inside = A.held inside.new; outside = B.held outside.new; dock = D.held dock.new; faults = D.faults dock.new })) }
    ensures may { MayWrite node.new.session (D.is_taken dock.new) }
    ensures session { StaysOrEnds node.old.session node.new.session }
    ensures inside_tells { Tells (A.faults inside.old) (A.faults inside.new) (A.last_failed inside.old) (A.last_failed inside.new)
        (broke is_inside_fault result) }
    ensures outside_tells { Tells (B.faults outside.old) (B.faults outside.new) (B.last_failed outside.old) (B.last_failed outside.new)
        (broke is_outside_fault result) }
    ensures accept_tells { Tells (D.accept_faults dock.old) (D.accept_faults dock.new) (D.accept_failed dock.old) (D.accept_failed dock.new)
        (broke is_dock_fault result) }
    ensures cut { IsCut result }
{
    let refused = unread(node.alloc, fault);
    happen(node, GwEvent::Handle(Err(refused)), inside, outside, dock)
}

// Refuses what is no message, and ends the session.
fn end_by<A: Wire, B: Wire, D: Dock>(
    node: &mut Node,
    fault: HttpFault,
    inside: &mut A,
    outside: &mut B,
    dock: &mut D,
) -> Result<(), Ended>
    requires may { MayWrite node.old.session (D.is_taken dock.old) }
    ensures does { OnOk result ((s : Option Feeding) × Does (Handle (Err (no_message fault))) node.old.gateway node.new.gateway
        node.old.session s
        (record { inside = A.held inside.old; outside = B.held outside.old; dock = D.held dock.old; faults = D.faults dock.old })
        (record { inside = A.held inside.new; outside = B.held outside.new; dock = D.held dock.new; faults = D.faults dock.new })) }
    ensures ended { OnOk result (node.new.session ≡ None) }
    ensures may { MayWrite node.new.session (D.is_taken dock.new) }
    ensures session { StaysOrEnds node.old.session node.new.session }
    ensures inside_tells { Tells (A.faults inside.old) (A.faults inside.new) (A.last_failed inside.old) (A.last_failed inside.new)
        (broke is_inside_fault result) }
    ensures outside_tells { Tells (B.faults outside.old) (B.faults outside.new) (B.last_failed outside.old) (B.last_failed outside.new)
        (broke is_outside_fault result) }
    ensures accept_tells { Tells (D.accept_faults dock.old) (D.accept_faults dock.new) (D.accept_failed dock.old) (D.accept_failed dock.new)
        (broke is_dock_fault result) }
    ensures cut { IsCut result }
{
    match refuse(node, fault, inside, outside, dock) {
        Ok(()) => (),
        Err(ended) => return Err(ended),
    }
    node.session = None;
    Ok(())
}

// Takes the octets of a piece up to the end of the next message, and handles it. Answers how many octets those are.
fn take_message<A: Wire, B: Wire, D: Dock>(
    node: &mut Node,
    piece: &[u8],
    inside: &mut A,
    outside: &mut B,
    dock: &mut D,
) -> Result<usize, Ended>
    requires may { MayWrite node.old.session (D.is_taken dock.old) }
    requires read { IsRead node.old.session }
    requires some { 0 < length piece.now }
    ensures goes { IfOk result (λ n. (c : Config) (start : Devices) (past : List Item)
        → Stands c start past piece.now
        (record { inside = A.held inside.old; outside = B.held outside.old; dock = D.held dock.old; faults = D.faults dock.old })
        node.old.gateway node.old.session
        → (more : List Item) × AreTaken more × Stands c start (more ++ past) (drop n piece.now)
        (record { inside = A.held inside.new; outside = B.held outside.new; dock = D.held dock.new; faults = D.faults dock.new })
        node.new.gateway node.new.session) }
    ensures within { IfOk result (λ n. n ≤ length piece.now) }
    ensures taken { IfOk result (λ n. 0 < n) }
    ensures may { MayWrite node.new.session (D.is_taken dock.new) }
    ensures read { IsRead node.new.session }
    ensures later { OnOk result (D.faults dock.old ≤ D.faults dock.new) }
    ensures inside_tells { Tells (A.faults inside.old) (A.faults inside.new) (A.last_failed inside.old) (A.last_failed inside.new)
        (broke is_inside_fault result) }
    ensures outside_tells { Tells (B.faults outside.old) (B.faults outside.new) (B.last_failed outside.old) (B.last_failed outside.new)
        (broke is_outside_fault result) }
    ensures accept_tells { Tells (D.accept_faults dock.old) (D.accept_faults dock.new) (D.accept_failed dock.old) (D.accept_failed dock.new)
        (broke is_dock_fault result) }
    ensures cut { IsCut result }
{
    readers_hold();
    match feed(&mut node.session, piece) {
        Err(NoMemory) => Err(Ended::NoMemory),
        Ok(Brought::Nothing) => Ok(piece.len()),
        Ok(Brought::Message { message, taken }) => {
            match handle(node, &message, inside, outside, dock) {
                Ok(()) => Ok(taken),
                Err(ended) => Err(ended),
            }
        }
        Ok(Brought::Fault(fault)) => match end_by(node, fault, inside, outside, dock) {
            Ok(()) => Ok(piece.len()),
            Err(ended) => Err(ended),
        },
    }
}

// Takes the octets of a piece, message by message.
fn take_piece<A: Wire, B: Wire, D: Dock>(
    node: &mut Node,
    piece: &[u8],
    inside: &mut A,
    outside: &mut B,
    dock: &mut D,
) -> Result<(), Ended>
    requires may { MayWrite node.old.session (D.is_taken dock.old) }
    requires read { IsRead node.old.session }
    ensures goes { OnOk result ((c : Config) (start : Devices) (past : List Item)
        → Stands c start past piece.now
        (record { inside = A.held inside.old; outside = B.held outside.old; dock = D.held dock.old; faults = D.faults dock.old })
        node.old.gateway node.old.session
        → (more : List Item) × AreTaken more × Stands c start (more ++ past) []
        (record { inside = A.held inside.new; outside = B.held outside.new; dock = D.held dock.new; faults = D.faults dock.new })
        node.new.gateway node.new.session) }
    ensures may { MayWrite node.new.session (D.is_taken dock.new) }
    ensures read { IsRead node.new.session }
    ensures later { OnOk result (D.faults dock.old ≤ D.faults dock.new) }
    ensures inside_tells { Tells (A.faults inside.old) (A.faults inside.new) (A.last_failed inside.old) (A.last_failed inside.new)
        (broke is_inside_fault result) }
    ensures outside_tells { Tells (B.faults outside.old) (B.faults outside.new) (B.last_failed outside.old) (B.last_failed outside.new)
        (broke is_outside_fault result) }
    ensures accept_tells { Tells (D.accept_faults dock.old) (D.accept_faults dock.new) (D.accept_failed dock.old) (D.accept_failed dock.new)
        (broke is_dock_fault result) }
    ensures cut { IsCut result }
{
    let mut rest = piece;
    while !rest.is_empty() {
        match take_message(node, rest, inside, outside, dock) {
            Ok(n) => {
                let (_, later) = rest.split_at(n);
                rest = later;
            }
            Err(ended) => return Err(ended),
        }
    }
    Ok(())
}

// Reads the session that is there once.
fn read_there<A: Wire, B: Wire, D: Dock>(
    node: &mut Node,
    buf: &mut [u8],
    inside: &mut A,
    outside: &mut B,
    dock: &mut D,
) -> Result<(), Ended>
    requires may { MayWrite node.old.session (D.is_taken dock.old) }
    requires read { IsRead node.old.session }
    requires taken { D.is_taken dock.old ≡ true }
    requires there { IsSome node.old.session }
    requires room { length buf.old ≡ 65536 }
    ensures goes { OnOk result ((c : Config) (start : Devices) (past : List Item)
        → Stands c start past []
        (record { inside = A.held inside.old; outside = B.held outside.old; dock = D.held dock.old; faults = D.faults dock.old })
        node.old.gateway node.old.session
        → (came : Came) × (more : List Item) × AreTaken more × Stands c start (more ++ Came_in came ∷ past) []
        (record { inside = A.held inside.new; outside = B.held outside.new; dock = D.held dock.new; faults = D.faults dock.new })
        node.new.gateway node.new.session) }
    ensures may { MayWrite node.new.session (D.is_taken dock.new) }
    ensures read { IsRead node.new.session }
    ensures later { OnOk result (D.faults dock.old ≤ D.faults dock.new) }
    ensures inside_tells { Tells (A.faults inside.old) (A.faults inside.new) (A.last_failed inside.old) (A.last_failed inside.new)
        (broke is_inside_fault result) }
    ensures outside_tells { Tells (B.faults outside.old) (B.faults outside.new) (B.last_failed outside.old) (B.last_failed outside.new)
        (broke is_outside_fault result) }
    ensures accept_tells { Tells (D.accept_faults dock.old) (D.accept_faults dock.new) (D.accept_failed dock.old) (D.accept_failed dock.new)
        (broke is_dock_fault result) }
    ensures cut { IsCut result }
{
    readers_hold();
    match dock.read(buf) {
        Err(Failed) => {
            node.session = None;
            Ok(())
        }
        Ok(None) => Ok(()),
        Ok(Some(n)) => {
            if n == 0 {
                node.session = None;
                return Ok(());
            }
            let (piece, _) = buf.split_at(n);
            take_piece(node, piece, inside, outside, dock)
        }
    }
}

/// Reads the session once, where one is there, and handles its messages.
pub fn read_session<A: Wire, B: Wire, D: Dock>(
    node: &mut Node,
    buf: &mut [u8],
    inside: &mut A,
    outside: &mut B,
    dock: &mut D,
) -> Result<(), Ended>
    requires may { MayWrite node.old.session (D.is_taken dock.old) }
    requires read { IsRead node.old.session }
    requires room { length buf.old ≡ 65575 }
    ensures goes { OnOk result ((c : Config) (start : Devices) (past : List Item)
        → Stands c start past []
        (record { inside = A.held inside.old; outside = B.held outside.old; dock = D.held dock.old; faults = D.faults dock.old })
        node.old.gateway node.old.session
        → (came : Came) × (more : List Item) × AreTaken more × Stands c start (more ++ Came_in came ∷ past) []
        (record { inside = A.held inside.new; outside = B.held outside.new; dock = D.held dock.new; faults = D.faults dock.new })
        node.new.gateway node.new.session) }
    ensures may { MayWrite node.new.session (D.is_taken dock.new) }
    ensures read { IsRead node.new.session }
    ensures later { OnOk result (D.faults dock.old ≤ D.faults dock.new) }
    ensures inside_tells { Tells (A.faults inside.old) (A.faults inside.new) (A.last_failed inside.old) (A.last_failed inside.new)
        (broke is_inside_fault result) }
    ensures outside_tells { Tells (B.faults outside.old) (B.faults outside.new) (B.last_failed outside.old) (B.last_failed outside.new)
        (broke is_outside_fault result) }
    ensures accept_tells { Tells (D.accept_faults dock.old) (D.accept_faults dock.new) (D.accept_failed dock.old) (D.accept_failed dock.new)
        (broke is_dock_fault result) }
    ensures cut { IsCut result }
{
    match &node.session {
        None => Ok(()),
        Some(_) => {
            let (front, _) = buf.split_at_mut(READ);
            read_there(node, front, inside, outside, dock)
        }
    }
}
