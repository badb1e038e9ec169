// One peer of a dialer over TCP.
ghost use Rattle.std.specs.Prelude.{◌≡◌, ◌≤◌, IfOk, IfSome, false, is_ok, length};
ghost use Rattle.ikl_base.specs.Outside.{HasCause};
ghost use Rattle.live_sockets.specs.Peers.{is_line_up};

use crate::activity::Watch;
use crate::counted::counted;
use crate::tcp_session::{TcpSession, Welcome};
use ikl_base::Failed;
use live_devices::Tally;
use std::mem::replace;
use std::net::{Net, TcpStream};

// The line to a peer: a session that was called waits for its welcome.
#[derive(Drop)]
pub(crate) enum Line {
    Down,
    Called(TcpSession),
    Up(TcpSession),
}

/// A peer of a dialer over TCP, at two ports of this machine, or at one for sessions without a notice stream.
#[derive(Drop)]
pub struct TcpPeer {
    control: u16,
    notices: Option<u16>,
    line: Line,
    tally: Tally,
}

fn line_of(session: TcpSession, welcome: Welcome) -> Line {
    match welcome {
        Welcome::Given => Line::Up(session),
        Welcome::NotYet => Line::Called(session),
        Welcome::Refused => Line::Down,
    }
}

impl TcpPeer {
    // A peer at these ports with which no session is open.
    pub(crate) fn new(control: u16, notices: Option<u16>) -> Self
        ensures down { is_line_up result.line ≡ false }
        ensures count { result.tally.faults ≡ 0 }
    {
        TcpPeer {
            control,
            notices,
            line: Line::Down,
            tally: Tally::new(),
        }
    }

    fn is_up(&self) -> bool
        ensures { result ≡ is_line_up self.now.line }
    {
        match &self.line {
            Line::Up(_) => true,
            Line::Down | Line::Called(_) => false,
        }
    }

    // Calls the peer anew.
    fn call<R: Net<Stream = TcpStream>>(&self, net: &R, watch: &Watch<'_>) -> Line {
        let Some(notices) = self.notices else {
            return match TcpSession::with_controller(net, self.control) {
                Ok(session) => Line::Up(session),
                Err(_) => Line::Down,
            };
        };
        match TcpSession::with_gateway(net, (self.control, notices), watch) {
            Ok((session, welcome)) => line_of(session, welcome),
            Err(_) => Line::Down,
        }
    }

    // Opens a session, where the peer welcomes it in time.
    //
    // A session whose welcome doesn't come is kept, and the next call looks for it there.
    pub(crate) fn dial<R: Net<Stream = TcpStream>>(
        &mut self,
        net: &R,
        watch: &Watch<'_>,
    ) -> Result<(), Failed>
        ensures up { is_line_up self.new.line ≡ is_ok result }
        ensures cause { HasCause self.old.tally.faults self.new.tally.faults result }
    {
        let line = replace(&mut self.line, Line::Down);
        self.line = match line {
            Line::Called(session) => {
                let welcome = session.welcome();
                line_of(session, welcome)
            }
            Line::Down | Line::Up(_) => self.call(net, watch),
        };
        if !self.is_up() {
            self.tally.fail();
            return Err(Failed);
        }
        Ok(())
    }

    pub(crate) fn read(
        &mut self,
        buf: &mut [u8],
        watch: &Watch<'_>,
    ) -> Result<Option<usize>, Failed>
        ensures bound { IfOk result (λ answer. IfSome answer (λ n. n ≤ length buf.new)) }
        ensures line { self.new.line ≡ self.old.line }
        ensures cause { HasCause self.old.tally.faults self.new.tally.faults result }
    {
        let answer = match &self.line {
            Line::Up(session) => session.read(buf),
            Line::Down | Line::Called(_) => Err(Failed),
        };
        watch.note(&answer);
        counted(&mut self.tally, answer)
    }

    pub(crate) fn read_notice(
        &mut self,
        buf: &mut [u8],
        watch: &Watch<'_>,
    ) -> Result<Option<usize>, Failed>
        ensures bound { IfOk result (λ answer. IfSome answer (λ n. n ≤ length buf.new)) }
        ensures line { self.new.line ≡ self.old.line }
        ensures cause { HasCause self.old.tally.faults self.new.tally.faults result }
    {
        let answer = match &self.line {
            Line::Up(session) => session.read_notice(buf),
            Line::Down | Line::Called(_) => Err(Failed),
        };
        watch.note(&answer);
        counted(&mut self.tally, answer)
    }

    pub(crate) fn write(&mut self, octets: &[u8]) -> Result<(), Failed>
        ensures line { self.new.line ≡ self.old.line }
        ensures cause { HasCause self.old.tally.faults self.new.tally.faults result }
    {
        let written = match &self.line {
            Line::Up(session) => session.write(octets),
            Line::Down | Line::Called(_) => Err(Failed),
        };
        counted(&mut self.tally, written)
    }

    // Ends the session, where there is one.
    pub(crate) fn hang_up(&mut self)
        ensures down { is_line_up self.new.line ≡ false }
        ensures count { self.new.tally ≡ self.old.tally }
    {
        self.line = Line::Down;
    }
}
