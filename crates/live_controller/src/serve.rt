// Serves clients and peers.
ghost use Rattle.std.specs.Prelude.{◌≡◌, ◌≤◌, ◌⊎◌, ◌∷◌, ◌++◌, [], ℕ, List, IfErr, OnOk, length, true, false};
ghost use Rattle.ikl_base.specs.Outside.{HasRisen};
ghost use Rattle.ikeless_tree.specs.declared.command.Peer.{Peer};
ghost use Rattle.hist_controller.specs.Entries.{OneFamily};
ghost use Rattle.ctl_core.specs.Core.{told_nothing};
ghost use Rattle.live_controller.specs.Desks.{Serves};
ghost use Rattle.live_controller.specs.Doings.{AreCalm, AreLater};
ghost use Rattle.live_controller.specs.Endings.{broke_of, is_dock_fault, is_turns_spent, AcceptTells};
ghost use Rattle.live_controller.specs.Found.{Devices};
ghost use Rattle.live_controller.specs.Links.{up_at};
ghost use Rattle.live_devices.specs.Reads.{Came};
ghost use Rattle.live_controller.specs.Past.{Came_in, Item};
ghost use Rattle.live_controller.specs.Stands.{AreDialled, AreRead, AreRequests, IsTurn, NodeStands, Served};

use crate::clients::{Session, accept, read_session};
use crate::desk::Desk;
use crate::ended::Ended;
use ikeless_tree::Peers;
use ikl_base::NoMemory;
use live_devices::{Dialer, Dock};
use std::alloc::Global;

const PIECE: usize = 65_536;

// The rest of a turn: the session is read, closed peers are dialled, and open ones read.
fn take_turn<D: Dock, L: Dialer>(
    desk: &mut Desk,
    session: &mut Session,
    commands: &mut D,
    dialer: &mut L,
    buf: &mut [u8],
) -> Result<(), NoMemory>
    requires serves { Serves desk.old (L.peers dialer.old) (L.is_up dialer.old) }
    requires taken { session.old.is_there ≡ true → D.is_taken commands.old ≡ true }
    requires room { length buf.old ≡ 65536 }
    ensures serves { OnOk result (Serves desk.new (L.peers dialer.new) (L.is_up dialer.new)) }
    ensures taken { OnOk result (session.new.is_there ≡ true → D.is_taken commands.new ≡ true) }
    ensures accepts { (D.accept_faults commands.new ≡ D.accept_faults commands.old)
        × (D.accept_failed commands.new ≡ D.accept_failed commands.old) }
    ensures later { OnOk result (AreLater (L.faults dialer.old) (L.faults dialer.new)) }
    ensures dock_later { OnOk result (D.faults commands.old ≤ D.faults commands.new) }
    ensures goes { OnOk result (AreCalm (L.faults dialer.old) (L.faults dialer.new)
        → (HasRisen (D.faults commands.old) (D.faults commands.new) → ⊥) → (ps : List Peer) (start : Devices) (past : List Item)
        → NodeStands ps start past [] (record { dock = D.held commands.old; peers = L.held dialer.old }) desk.old session.old
        → (came : Came) × (more : List Item) × (dialled : List Item) × (now : List Item) × AreRequests more
        × AreDialled ps (length ps) (more ++ Came_in came ∷ past) dialled × AreRead ps (length ps) dialled now
        × NodeStands ps start now [] (record { dock = D.held commands.new; peers = L.held dialer.new }) desk.new session.new) }
{
    read_session(desk, session, commands, dialer, buf)?;
    desk.dial_closed(dialer)?;
    desk.read_open(dialer, buf)
}

// One turn: a session is accepted first.
fn turn<D: Dock, L: Dialer>(
    desk: &mut Desk,
    session: &mut Session,
    commands: &mut D,
    dialer: &mut L,
    buf: &mut [u8],
) -> Result<(), Ended>
    requires serves { Serves desk.old (L.peers dialer.old) (L.is_up dialer.old) }
    requires taken { session.old.is_there ≡ true → D.is_taken commands.old ≡ true }
    requires room { length buf.old ≡ 65536 }
    ensures serves { OnOk result (Serves desk.new (L.peers dialer.new) (L.is_up dialer.new)) }
    ensures taken { OnOk result (session.new.is_there ≡ true → D.is_taken commands.new ≡ true) }
    ensures tells { AcceptTells (D.accept_faults commands.old) (D.accept_faults commands.new) (D.accept_failed commands.old)
        (D.accept_failed commands.new) (broke_of result) }
    ensures unspent { IfErr result (λ ended. is_turns_spent ended ≡ false) }
    ensures later { OnOk result (AreLater (L.faults dialer.old) (L.faults dialer.new)) }
    ensures dock_later { OnOk result (D.faults commands.old ≤ D.faults commands.new) }
    ensures goes { OnOk result (AreCalm (L.faults dialer.old) (L.faults dialer.new)
        → (HasRisen (D.faults commands.old) (D.faults commands.new) → ⊥) → (ps : List Peer) (start : Devices) (past : List Item)
        → NodeStands ps start past [] (record { dock = D.held commands.old; peers = L.held dialer.old }) desk.old session.old
        → (now : List Item) × IsTurn ps past now × NodeStands ps start now []
        (record { dock = D.held commands.new; peers = L.held dialer.new }) desk.new session.new) }
{
    match accept(desk.alloc, session, commands) {
        Ok(()) => (),
        Err(ended) => return Err(ended),
    }
    match take_turn(desk, session, commands, dialer, buf) {
        Ok(()) => Ok(()),
        Err(NoMemory) => Err(Ended::NoMemory),
    }
}

fn serve_turns<D: Dock, L: Dialer>(
    mut desk: Desk,
    commands: &mut D,
    dialer: &mut L,
    turns: u64,
) -> Ended
    requires serves { Serves desk (L.peers dialer.old) (L.is_up dialer.old) }
    requires core { desk.controller ≡ told_nothing desk.peers }
    requires down { (g : ℕ) → up_at desk.links.items g ≡ false }
    ensures serves { result ≡ Ended.TurnsSpent → AreCalm (L.faults dialer.old) (L.faults dialer.new)
        → (HasRisen (D.faults commands.old) (D.faults commands.new) → ⊥) → Served desk.peers turns
        (record { dock = D.held commands.old; peers = L.held dialer.old })
        (record { dock = D.held commands.new; peers = L.held dialer.new }) }
    ensures tells { AcceptTells (D.accept_faults commands.old) (D.accept_faults commands.new) (D.accept_failed commands.old)
        (D.accept_failed commands.new) (is_dock_fault result) }
{
    let mut session = Session::begun(desk.alloc, false);
    let mut buf = [0u8; PIECE];
    'turns: for _turn in 0..turns {
        match turn(&mut desk, &mut session, commands, dialer, &mut buf) {
            Ok(()) => (),
            Err(ended) => return ended,
        }
    }
    Ended::TurnsSpent
}

/// Serves clients, which give commands, and peers, which are given orders, for so many turns.
///
/// One turn accepts once, reads the client's session once where one is there, dials each closed peer once, and reads both streams of
/// each open peer once, the control stream before the notice stream. Peers are taken in the order of their numbers. A session with a
/// peer is cut, and hung up at once, where a call on it fails, either stream ends, or what comes is no answer to the order that waits
/// or no line of a notice.
///
/// There are 1 to 16 peers, with distinct names and addresses of one family.
pub fn serve_controller<D: Dock, L: Dialer>(
    alloc: Global,
    peers: Peers,
    commands: &mut D,
    dialer: &mut L,
    turns: u64,
) -> Ended
    requires family { OneFamily peers }
    requires known { length peers ≤ L.peers dialer.old }
    requires down { (g : ℕ) → L.is_up dialer.old g ≡ false }
    // Where no call of a peer and none of a client's session failed, all turns made their calls, what those gave happened at the
    // controller as its law says, and the devices hold what its acts say.
    ensures serves { result ≡ Ended.TurnsSpent → AreCalm (L.faults dialer.old) (L.faults dialer.new)
        → (HasRisen (D.faults commands.old) (D.faults commands.new) → ⊥) → Served peers turns
        (record { dock = D.held commands.old; peers = L.held dialer.old })
        (record { dock = D.held commands.new; peers = L.held dialer.new }) }
    // Over a dock whose accepts don't fail all turns are served, unless memory runs out.
    ensures complete { (HasRisen (D.accept_faults commands.old) (D.accept_faults commands.new) → ⊥)
        → (result ≡ Ended.TurnsSpent) ⊎ (result ≡ Ended.NoMemory) }
    // The dock's fault comes exactly where an accept failed, and it was the last one.
    ensures tells { AcceptTells (D.accept_faults commands.old) (D.accept_faults commands.new) (D.accept_failed commands.old)
        (D.accept_failed commands.new) (is_dock_fault result) }
{
    match Desk::begun(alloc, peers) {
        Ok(desk) => serve_turns(desk, commands, dialer, turns),
        Err(NoMemory) => Ended::NoMemory,
    }
}
