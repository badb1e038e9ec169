// Octets are sent and written.
ghost use Rattle.std.specs.Prelude.{◌≡◌, ◌≤◌, OnOk, is_err, true};
ghost use Rattle.ikl_base.specs.Outside.{HasRisen};
ghost use Rattle.rc_http.specs.Written.{IsWritableResponse, response_text};
ghost use Rattle.rc_resource.specs.Messages.{reply_message};
ghost use Rattle.notice_lines.specs.Envelope.{IsNotice};
ghost use Rattle.hist_wire.specs.Dates.{line_text};
ghost use Rattle.live_devices.specs.Reads.{Makes, with_reply};
ghost use Rattle.live_gateway.specs.Carried.{Writes, with_datagram, with_notice};
ghost use Rattle.live_gateway.specs.Causes.{MayWrite, StaysOrEnds, Tells};

use ikeless_tree::Notice;
use ikl_base::{Failed, NoMemory};
use live_devices::{Dock, Wire};
use rc_http::Feeder;
use rc_resource::Reply;
use session_messages::{write_line, write_reply};
use std::alloc::Global;

/// Sends a datagram.
pub fn send<W: Wire>(wire: &mut W, octets: &[u8]) -> Result<(), Failed>
    ensures sent { OnOk result (Makes (with_datagram octets.now) (W.held wire.old) (W.held wire.new)) }
    ensures tells { Tells (W.faults wire.old) (W.faults wire.new) (W.last_failed wire.old) (W.last_failed wire.new) (is_err result) }
{
    match wire.send(octets) {
        Ok(()) => Ok(()),
        Err(Failed) => Err(Failed),
    }
}

// Writes octets to the control stream of the session that is there. A failure ends the session.
fn put_reply<D: Dock>(session: &mut Option<Feeder>, dock: &mut D, octets: &[u8])
    requires taken { D.is_taken dock.old ≡ true }
    ensures taken { D.is_taken dock.new ≡ true }
    ensures later { D.faults dock.old ≤ D.faults dock.new }
    ensures kept { (HasRisen (D.faults dock.old) (D.faults dock.new) → ⊥) → session.new ≡ session.old }
    ensures wrote { (HasRisen (D.faults dock.old) (D.faults dock.new) → ⊥)
        → Makes (with_reply octets.now) (D.held dock.old) (D.held dock.new) }
    ensures session { StaysOrEnds session.old session.new }
    ensures accepts { (D.accept_faults dock.new ≡ D.accept_faults dock.old) × (D.accept_failed dock.new ≡ D.accept_failed dock.old) }
{
    match dock.write(octets) {
        Ok(()) => (),
        Err(Failed) => *session = None,
    }
}

// Writes octets to the notice stream of the session that is there. A failure ends the session.
fn put_notice<D: Dock>(session: &mut Option<Feeder>, dock: &mut D, octets: &[u8])
    requires taken { D.is_taken dock.old ≡ true }
    ensures taken { D.is_taken dock.new ≡ true }
    ensures later { D.faults dock.old ≤ D.faults dock.new }
    ensures kept { (HasRisen (D.faults dock.old) (D.faults dock.new) → ⊥) → session.new ≡ session.old }
    ensures wrote { (HasRisen (D.faults dock.old) (D.faults dock.new) → ⊥) → Makes (with_notice octets.now) (D.held dock.old)
        (D.held dock.new) }
    ensures session { StaysOrEnds session.old session.new }
    ensures accepts { (D.accept_faults dock.new ≡ D.accept_faults dock.old) × (D.accept_failed dock.new ≡ D.accept_failed dock.old) }
{
    match dock.write_notice(octets) {
        Ok(()) => (),
        Err(Failed) => *session = None,
    }
}

/// Writes the response of a reply, while a session is there.
pub fn reply<D: Dock>(
    alloc: Global,
    session: &mut Option<Feeder>,
    dock: &mut D,
    reply: &Reply,
) -> Result<(), NoMemory>
    requires may { MayWrite session.old (D.is_taken dock.old) }
    requires written { IsWritableResponse (reply_message reply.now) }
    ensures wrote { OnOk result (Writes (D.held dock.old) (D.held dock.new) (D.faults dock.old) (D.faults dock.new) session.old session.new
        (with_reply (response_text (reply_message reply.now)))) }
    ensures may { MayWrite session.new (D.is_taken dock.new) }
    ensures session { StaysOrEnds session.old session.new }
    ensures accepts { (D.accept_faults dock.new ≡ D.accept_faults dock.old) × (D.accept_failed dock.new ≡ D.accept_failed dock.old) }
{
    match session {
        None => Ok(()),
        Some(_) => {
            let octets = write_reply(alloc, reply)?;
            put_reply(session, dock, octets.as_slice());
            Ok(())
        }
    }
}

/// Writes the line of a notice at a moment, while a session is there.
pub fn tell<D: Dock>(
    alloc: Global,
    session: &mut Option<Feeder>,
    dock: &mut D,
    notice: &Notice,
    now: u32,
) -> Result<(), NoMemory>
    requires may { MayWrite session.old (D.is_taken dock.old) }
    requires written { IsNotice notice.now }
    ensures wrote { OnOk result (Writes (D.held dock.old) (D.held dock.new) (D.faults dock.old) (D.faults dock.new) session.old session.new
        (with_notice (line_text notice.now now))) }
    ensures may { MayWrite session.new (D.is_taken dock.new) }
    ensures session { StaysOrEnds session.old session.new }
    ensures accepts { (D.accept_faults dock.new ≡ D.accept_faults dock.old) × (D.accept_failed dock.new ≡ D.accept_failed dock.old) }
{
    match session {
        None => Ok(()),
        Some(_) => {
            let octets = write_line(alloc, notice, now)?;
            put_notice(session, dock, octets.as_slice());
            Ok(())
        }
    }
}
