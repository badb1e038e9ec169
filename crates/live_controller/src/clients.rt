// The session of a client that gives commands.
ghost use Rattle.std.specs.Prelude.{◌≡◌, ◌≤◌, ◌<◌, ◌∷◌, ◌++◌, [], Bool, List, IfErr, IfOk, OnOk, drop, length, true, false};
ghost use Rattle.ikl_base.specs.Outside.{HasRisen};
ghost use Rattle.ikeless_tree.specs.declared.command.Peer.{Peer};
ghost use Rattle.rc_operations.specs.Operations.{requested};
ghost use Rattle.rc_operations.specs.Replies.{fault_response};
ghost use Rattle.live_controller.specs.Desks.{Serves};
ghost use Rattle.live_devices.specs.Reads.{Came, Makes, with_reply};
ghost use Rattle.live_controller.specs.Doings.{Agrees, AreCalm, AreLater, DoesIf};
ghost use Rattle.live_controller.specs.Endings.{AcceptTells, broke_of};
ghost use Rattle.live_controller.specs.Found.{Devices, IsFound, reply_of};
ghost use Rattle.live_controller.specs.Past.{Accepted, Came_in, Item, command_in};
ghost use Rattle.live_controller.specs.Stands.{AreRequests, ClientStands, NodeStands};
ghost use Rattle.live_controller.specs.declared.ended.Ended.TheVariants as endings;

use crate::desk::Desk;
use crate::ended::Ended;
use crate::messages::{Brought, Requests};
use ctl_core::CtlEvent;
use ikl_base::{Failed, NoMemory, Octets, OrMemory};
use live_devices::{Dialer, Dock};
use rc_http::{HttpFault, HttpMessage};
use rc_operations::{read_operation, write_command_reply, write_error, write_fault};
use std::alloc::Global;

/// The session of a client: whether it goes on, and what came in it since the last whole request.
#[derive(Drop)]
pub(crate) struct Session {
    pub is_there: bool,
    pub requests: Requests,
}

impl Session {
    /// Nothing came yet, and whether the session is there.
    pub(crate) fn begun(alloc: Global, is_there: bool) -> Session
        ensures there { result.is_there ≡ is_there }
        ensures none { result.requests ≡ [] }
    {
        Session {
            is_there,
            requests: Requests::begun(alloc),
        }
    }
}

/// Takes a newer session, where one waits, in place of the older one.
pub(crate) fn accept<D: Dock>(
    alloc: Global,
    session: &mut Session,
    commands: &mut D,
) -> Result<(), Ended>
    requires { session.old.is_there ≡ true → D.is_taken commands.old ≡ true }
    ensures taken { OnOk result (session.new.is_there ≡ true → D.is_taken commands.new ≡ true) }
    ensures tells { AcceptTells (D.accept_faults commands.old) (D.accept_faults commands.new) (D.accept_failed commands.old)
        (D.accept_failed commands.new) (broke_of result) }
    ensures fault { IfErr result (λ ended. ended ≡ endings.DockFault) }
    ensures faults { D.faults commands.new ≡ D.faults commands.old }
    ensures goes { OnOk result ((ps : List Peer) (start : Devices) (past : List Item)
        → ClientStands ps start past [] (D.held commands.old) session.old
        → (is_taken : Bool) × IsFound ps start past (Accepted is_taken)
        × ClientStands ps start (Accepted is_taken ∷ past) [] (D.held commands.new) session.new) }
{
    match commands.accept() {
        Ok(true) => {
            *session = Session::begun(alloc, true);
            Ok(())
        }
        Ok(false) => Ok(()),
        Err(Failed) => Err(Ended::DockFault),
    }
}

// The reply to a request, once what it commands is carried out.
fn reply_to<L: Dialer>(desk: &mut Desk, m: &HttpMessage, dialer: &mut L) -> Result<Octets, NoMemory>
    requires { Serves desk.old (L.peers dialer.old) (L.is_up dialer.old) }
    ensures serves { OnOk result (Serves desk.new (L.peers dialer.new) (L.is_up dialer.new)) }
    ensures peers { OnOk result (desk.new.peers ≡ desk.old.peers) }
    ensures later { OnOk result (AreLater (L.faults dialer.old) (L.faults dialer.new)) }
    ensures reply { IfOk result (λ text. text ≡ reply_of desk.old.controller (requested m.now)) }
    ensures does { OnOk result (AreCalm (L.faults dialer.old) (L.faults dialer.new) → Agrees desk.old
        → DoesIf (command_in (requested m.now)) desk.old desk.new (L.held dialer.old) (L.held dialer.new)) }
{
    match read_operation(desk.alloc, m) {
        Ok(command) => {
            let refused = desk.tell(CtlEvent::Command(command), dialer)?;
            write_command_reply(desk.alloc, refused)
        }
        Err(OrMemory::Refused(e)) => write_error(desk.alloc, &e),
        Err(OrMemory::NoMemory) => Err(NoMemory),
    }
}

// Writes a reply. Where that fails the session is over.
fn write_reply<D: Dock>(session: &mut Session, reply: &[u8], commands: &mut D)
    requires { D.is_taken commands.old ≡ true }
    ensures taken { D.is_taken commands.new ≡ true }
    ensures accepts { (D.accept_faults commands.new ≡ D.accept_faults commands.old)
        × (D.accept_failed commands.new ≡ D.accept_failed commands.old) }
    ensures over { session.old.is_there ≡ false → session.new.is_there ≡ false }
    ensures later { D.faults commands.old ≤ D.faults commands.new }
    ensures kept { (HasRisen (D.faults commands.old) (D.faults commands.new) → ⊥) → session.new ≡ session.old }
    ensures wrote { (HasRisen (D.faults commands.old) (D.faults commands.new) → ⊥)
        → Makes (with_reply reply.now) (D.held commands.old) (D.held commands.new) }
{
    match commands.write(reply) {
        Ok(()) => (),
        Err(Failed) => session.is_there = false,
    }
}

// Does what a request commands, and replies to it.
fn answer<D: Dock, L: Dialer>(
    desk: &mut Desk,
    session: &mut Session,
    m: &HttpMessage,
    commands: &mut D,
    dialer: &mut L,
) -> Result<(), NoMemory>
    requires serves { Serves desk.old (L.peers dialer.old) (L.is_up dialer.old) }
    requires taken { D.is_taken commands.old ≡ true }
    ensures serves { OnOk result (Serves desk.new (L.peers dialer.new) (L.is_up dialer.new)) }
    ensures peers { OnOk result (desk.new.peers ≡ desk.old.peers) }
    ensures taken { D.is_taken commands.new ≡ true }
    ensures accepts { (D.accept_faults commands.new ≡ D.accept_faults commands.old)
        × (D.accept_failed commands.new ≡ D.accept_failed commands.old) }
    ensures later { OnOk result (AreLater (L.faults dialer.old) (L.faults dialer.new)) }
    ensures dock_later { OnOk result (D.faults commands.old ≤ D.faults commands.new) }
    ensures kept { OnOk result ((HasRisen (D.faults commands.old) (D.faults commands.new) → ⊥) → session.new ≡ session.old) }
    ensures wrote { OnOk result ((HasRisen (D.faults commands.old) (D.faults commands.new) → ⊥)
        → Makes (with_reply (reply_of desk.old.controller (requested m.now))) (D.held commands.old) (D.held commands.new)) }
    ensures does { OnOk result (AreCalm (L.faults dialer.old) (L.faults dialer.new) → Agrees desk.old
        → DoesIf (command_in (requested m.now)) desk.old desk.new (L.held dialer.old) (L.held dialer.new)) }
{
    let reply = reply_to(desk, m, dialer)?;
    write_reply(session, reply.as_slice(), commands);
    Ok(())
}

// Replies to what is no request, and ends the session.
fn refuse<D: Dock>(
    alloc: Global,
    session: &mut Session,
    fault: HttpFault,
    commands: &mut D,
) -> Result<(), NoMemory>
    requires { D.is_taken commands.old ≡ true }
    ensures taken { D.is_taken commands.new ≡ true }
    ensures accepts { (D.accept_faults commands.new ≡ D.accept_faults commands.old)
        × (D.accept_failed commands.new ≡ D.accept_failed commands.old) }
    ensures later { OnOk result (D.faults commands.old ≤ D.faults commands.new) }
    ensures over { OnOk result (session.new.is_there ≡ false) }
    ensures wrote { OnOk result ((HasRisen (D.faults commands.old) (D.faults commands.new) → ⊥)
        → Makes (with_reply (fault_response fault)) (D.held commands.old) (D.held commands.new)) }
{
    session.is_there = false;
    let reply = write_fault(alloc, fault)?;
    write_reply(session, reply.as_slice(), commands);
    Ok(())
}

// Takes the next request of a session that is there, as far as it goes. Answers how many octets that is: all of them where it isn't
// whole.
fn take_next_request<D: Dock, L: Dialer>(
    desk: &mut Desk,
    session: &mut Session,
    piece: &[u8],
    commands: &mut D,
    dialer: &mut L,
) -> Result<usize, NoMemory>
    requires serves { Serves desk.old (L.peers dialer.old) (L.is_up dialer.old) }
    requires taken { D.is_taken commands.old ≡ true }
    requires there { session.old.is_there ≡ true }
    requires some { 0 < length piece.now }
    ensures serves { OnOk result (Serves desk.new (L.peers dialer.new) (L.is_up dialer.new)) }
    ensures peers { OnOk result (desk.new.peers ≡ desk.old.peers) }
    ensures taken { D.is_taken commands.new ≡ true }
    ensures accepts { (D.accept_faults commands.new ≡ D.accept_faults commands.old)
        × (D.accept_failed commands.new ≡ D.accept_failed commands.old) }
    ensures later { OnOk result (AreLater (L.faults dialer.old) (L.faults dialer.new)) }
    ensures dock_later { OnOk result (D.faults commands.old ≤ D.faults commands.new) }
    ensures within { IfOk result (λ n. n ≤ length piece.now) }
    ensures some { IfOk result (λ n. 0 < n) }
    ensures goes { IfOk result (λ n. AreCalm (L.faults dialer.old) (L.faults dialer.new)
        → (HasRisen (D.faults commands.old) (D.faults commands.new) → ⊥) → (ps : List Peer) (start : Devices) (past : List Item)
        → NodeStands ps start past piece.now (record { dock = D.held commands.old; peers = L.held dialer.old }) desk.old session.old
        → (more : List Item) × AreRequests more × NodeStands ps start (more ++ past) (drop n piece.now)
        (record { dock = D.held commands.new; peers = L.held dialer.new }) desk.new session.new) }
{
    match session.requests.feed(desk.alloc, piece)? {
        Brought::NoneYet => Ok(piece.len()),
        Brought::Broken(fault) => {
            refuse(desk.alloc, session, fault, commands)?;
            Ok(piece.len())
        }
        Brought::Whole { message, taken } => {
            answer(desk, session, &message, commands, dialer)?;
            Ok(taken)
        }
    }
}

// Takes octets of the session, as long as it goes on.
fn take_requests<D: Dock, L: Dialer>(
    desk: &mut Desk,
    session: &mut Session,
    octets: &[u8],
    commands: &mut D,
    dialer: &mut L,
) -> Result<(), NoMemory>
    requires serves { Serves desk.old (L.peers dialer.old) (L.is_up dialer.old) }
    requires taken { D.is_taken commands.old ≡ true }
    ensures serves { OnOk result (Serves desk.new (L.peers dialer.new) (L.is_up dialer.new)) }
    ensures peers { OnOk result (desk.new.peers ≡ desk.old.peers) }
    ensures taken { D.is_taken commands.new ≡ true }
    ensures accepts { (D.accept_faults commands.new ≡ D.accept_faults commands.old)
        × (D.accept_failed commands.new ≡ D.accept_failed commands.old) }
    ensures later { OnOk result (AreLater (L.faults dialer.old) (L.faults dialer.new)) }
    ensures dock_later { OnOk result (D.faults commands.old ≤ D.faults commands.new) }
    ensures goes { OnOk result (AreCalm (L.faults dialer.old) (L.faults dialer.new)
        → (HasRisen (D.faults commands.old) (D.faults commands.new) → ⊥) → (ps : List Peer) (start : Devices) (past : List Item)
        → NodeStands ps start past octets.now (record { dock = D.held commands.old; peers = L.held dialer.old }) desk.old session.old
        → (more : List Item) × AreRequests more × NodeStands ps start (more ++ past) []
        (record { dock = D.held commands.new; peers = L.held dialer.new }) desk.new session.new) }
{
    let mut rest = octets;
    'requests: while !rest.is_empty() {
        if !session.is_there {
            return Ok(());
        }
        let taken = take_next_request(desk, session, rest, commands, dialer)?;
        let (_, more) = rest.split_at(taken);
        rest = more;
    }
    Ok(())
}

// Reads the session that is there once.
fn read_there<D: Dock, L: Dialer>(
    desk: &mut Desk,
    session: &mut Session,
    commands: &mut D,
    dialer: &mut L,
    buf: &mut [u8],
) -> Result<(), NoMemory>
    requires serves { Serves desk.old (L.peers dialer.old) (L.is_up dialer.old) }
    requires taken { D.is_taken commands.old ≡ true }
    requires there { session.old.is_there ≡ true }
    requires room { length buf.old ≡ 65536 }
    ensures serves { OnOk result (Serves desk.new (L.peers dialer.new) (L.is_up dialer.new)) }
    ensures peers { OnOk result (desk.new.peers ≡ desk.old.peers) }
    ensures taken { D.is_taken commands.new ≡ true }
    ensures accepts { (D.accept_faults commands.new ≡ D.accept_faults commands.old)
        × (D.accept_failed commands.new ≡ D.accept_failed commands.old) }
    ensures later { OnOk result (AreLater (L.faults dialer.old) (L.faults dialer.new)) }
    ensures dock_later { OnOk result (D.faults commands.old ≤ D.faults commands.new) }
    ensures goes { OnOk result (AreCalm (L.faults dialer.old) (L.faults dialer.new)
        → (HasRisen (D.faults commands.old) (D.faults commands.new) → ⊥) → (ps : List Peer) (start : Devices) (past : List Item)
        → NodeStands ps start past [] (record { dock = D.held commands.old; peers = L.held dialer.old }) desk.old session.old
        → (came : Came) × (more : List Item) × AreRequests more × NodeStands ps start (more ++ Came_in came ∷ past) []
        (record { dock = D.held commands.new; peers = L.held dialer.new }) desk.new session.new) }
{
    match commands.read(buf) {
        Ok(None) => Ok(()),
        Ok(Some(n)) => {
            if n == 0 {
                session.is_there = false;
                return Ok(());
            }
            let (octets, _) = buf.split_at(n);
            take_requests(desk, session, octets, commands, dialer)
        }
        Err(Failed) => {
            session.is_there = false;
            Ok(())
        }
    }
}

/// Reads the session once, where one is there.
pub(crate) fn read_session<D: Dock, L: Dialer>(
    desk: &mut Desk,
    session: &mut Session,
    commands: &mut D,
    dialer: &mut L,
    buf: &mut [u8],
) -> Result<(), NoMemory>
    requires serves { Serves desk.old (L.peers dialer.old) (L.is_up dialer.old) }
    requires taken { session.old.is_there ≡ true → D.is_taken commands.old ≡ true }
    requires room { length buf.old ≡ 65536 }
    ensures serves { OnOk result (Serves desk.new (L.peers dialer.new) (L.is_up dialer.new)) }
    ensures peers { OnOk result (desk.new.peers ≡ desk.old.peers) }
    ensures taken { session.new.is_there ≡ true → D.is_taken commands.new ≡ true }
    ensures accepts { (D.accept_faults commands.new ≡ D.accept_faults commands.old)
        × (D.accept_failed commands.new ≡ D.accept_failed commands.old) }
    ensures later { OnOk result (AreLater (L.faults dialer.old) (L.faults dialer.new)) }
    ensures dock_later { OnOk result (D.faults commands.old ≤ D.faults commands.new) }
    ensures goes { OnOk result (AreCalm (L.faults dialer.old) (L.faults dialer.new)
        → (HasRisen (D.faults commands.old) (D.faults commands.new) → ⊥) → (ps : List Peer) (start : Devices) (past : List Item)
        → NodeStands ps start past [] (record { dock = D.held commands.old; peers = L.held dialer.old }) desk.old session.old
        → (came : Came) × (more : List Item) × AreRequests more × NodeStands ps start (more ++ Came_in came ∷ past) []
        (record { dock = D.held commands.new; peers = L.held dialer.new }) desk.new session.new) }
{
    if !session.is_there {
        return Ok(());
    }
    read_there(desk, session, commands, dialer, buf)
}
