// Docks over TCP.
ghost use Rattle.std.specs.Prelude.{◌≡◌, ◌<◌, true, false, length, IfErr, IfOk, None, Some, is_some};
ghost use Rattle.live_sockets.specs.Faults.{IfRefused, IsAtEither};

use crate::activity::{Activity, Watch};
use crate::counted::counted;
use crate::door::Door;
use crate::fault::SocketFault;
use crate::tcp_session::TcpSession;
use ikl_base::{Failed, OrMemory};
use live_devices::{Dock, Tally};
use mio::Events;
use std::alloc::Global;
use std::cmp::min;
use std::net::{Net, TcpListener, TcpStream};
use std::time::Clock;

// How many of the sockets that are ready one wait tells of.
const EVENTS: usize = 16;

// How many octets of a session one read gives at most at a gateway. A turn takes one datagram from each wire and handles
// every request that a read completes, so more of them would keep datagrams waiting for longer than a port has room.
const READ_AT_ONCE: usize = 64;

/// A dock at two ports of this machine, or at one for sessions without a notice stream.
///
/// A peer connects to the control port and then to the notice port, and is told by a `+` on its notice stream that its
/// session is taken. A newer control stream takes the place of one whose notice stream hasn't come, and such a half is
/// dropped after a second. A session whose call failed, or that the node no longer reads, ends for its peer after what
/// was written; its streams are dropped when a newer one is taken.
///
/// A read at a gateway gives 64 octets at most, however long `buf` is, so that one turn isn't held by many requests.
///
/// An idle node waits in `accept`, a quarter of a second at most, until a socket that watches with this dock is ready.
#[derive(Drop)]
pub struct TcpDock<'a, R> {
    door: Door<'a, R>,
    session: Option<TcpSession>,
    // Whether the session was read since the last accept, and whether it was ended for its peer.
    is_read: bool,
    is_ended: bool,
    accepts: Tally,
    tally: Tally,
}

impl<'a, R: Clock + Net<Listener = TcpListener, Stream = TcpStream>> TcpDock<'a, R> {
    /// A gateway's dock, at these ports. It has taken no session.
    pub fn of_gateway(
        system: &'a R,
        alloc: Global,
        control: u16,
        notices: u16,
        activity: &'a Activity,
    ) -> Result<Self, OrMemory<SocketFault>>
        ensures session { IfOk result (λ d. d.session ≡ None) }
        ensures count { IfOk result (λ d. (d.accepts.faults ≡ 0) × (d.tally.faults ≡ 0)) }
        ensures fault { IfErr result (λ e. IfRefused e (IsAtEither control (Some notices))) }
    {
        TcpDock::at(system, alloc, control, Some(notices), activity)
    }

    /// A controller's dock for commands, at this port, whose sessions have no notice stream. It has taken none.
    pub fn of_commands(
        system: &'a R,
        alloc: Global,
        port: u16,
        activity: &'a Activity,
    ) -> Result<Self, OrMemory<SocketFault>>
        ensures session { IfOk result (λ d. d.session ≡ None) }
        ensures count { IfOk result (λ d. (d.accepts.faults ≡ 0) × (d.tally.faults ≡ 0)) }
        ensures fault { IfErr result (λ e. IfRefused e (IsAtEither port None)) }
    {
        TcpDock::at(system, alloc, port, None, activity)
    }

    fn at(
        system: &'a R,
        alloc: Global,
        control: u16,
        notices: Option<u16>,
        activity: &'a Activity,
    ) -> Result<Self, OrMemory<SocketFault>>
        ensures session { IfOk result (λ d. d.session ≡ None) }
        ensures count { IfOk result (λ d. (d.accepts.faults ≡ 0) × (d.tally.faults ≡ 0)) }
        ensures fault { IfErr result (λ e. IfRefused e (IsAtEither control notices)) }
    {
        let Ok(events) = Events::with_capacity(alloc, EVENTS) else {
            return Err(OrMemory::NoMemory);
        };
        match Door::at(system, events, control, notices, activity) {
            Ok(door) => Ok(TcpDock {
                door,
                session: None,
                is_read: false,
                is_ended: false,
                accepts: Tally::new(),
                tally: Tally::new(),
            }),
            Err(fault) => Err(OrMemory::Refused(fault)),
        }
    }
}

impl<'a, R: Clock> TcpDock<'a, R> {
    /// By what other sockets of the node wake this dock.
    pub fn watch(&self) -> Result<Watch<'a>, SocketFault>
        ensures { IfErr result (λ fault. fault ≡ SocketFault.Unavailable) }
    {
        match self.door.watch() {
            Ok(watch) => Ok(watch),
            Err(_) => Err(SocketFault::Unavailable),
        }
    }
}

// Ends a session for its peer, once.
fn end(session: &Option<TcpSession>, is_ended: &mut bool) {
    if *is_ended {
        return;
    }
    *is_ended = true;
    if let Some(left) = session {
        left.end();
    }
}

impl<R: Clock> Dock for TcpDock<'_, R> {
    ghost held = { λ _. None };

    ghost is_taken = { λ d. is_some d.session };

    ghost accept_faults = { λ d. d.accepts.faults };

    ghost faults = { λ d. d.tally.faults };

    ghost accept_failed = { λ _. None };

    ghost last_failed = { λ _. None };

    fn accept(&mut self) -> Result<bool, Failed> {
        if !self.is_read {
            end(&self.session, &mut self.is_ended);
        }
        self.is_read = false;
        match self.door.next_session() {
            Ok(Some(session)) => {
                self.session = Some(session);
                self.is_ended = false;
                Ok(true)
            }
            Ok(None) => Ok(false),
            Err(_) => {
                self.accepts.fail();
                Err(Failed)
            }
        }
    }

    fn read(&mut self, buf: &mut [u8]) -> Result<Option<usize>, Failed> {
        self.is_read = true;
        let answer = match &self.session {
            Some(session) => {
                let most = if self.door.has_notices() {
                    min(buf.len(), READ_AT_ONCE)
                } else {
                    buf.len()
                };
                let (front, _) = buf.split_at_mut(most);
                session.read(front)
            }
            None => Err(Failed),
        };
        self.door.note(&answer);
        if answer.is_err() {
            end(&self.session, &mut self.is_ended);
        }
        counted(&mut self.tally, answer)
    }

    fn write(&mut self, octets: &[u8]) -> Result<(), Failed> {
        let written = match &self.session {
            Some(session) => session.write(octets),
            None => Err(Failed),
        };
        if written.is_err() {
            end(&self.session, &mut self.is_ended);
        }
        counted(&mut self.tally, written)
    }

    fn write_notice(&mut self, octets: &[u8]) -> Result<(), Failed> {
        let written = match &self.session {
            Some(session) => session.write_notice(octets),
            None => Err(Failed),
        };
        if written.is_err() {
            end(&self.session, &mut self.is_ended);
        }
        counted(&mut self.tally, written)
    }
}
