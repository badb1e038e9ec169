// Sessions over TCP.
ghost use Rattle.std.specs.Prelude.{◌≤◌, IfOk, IfSome, length};

use crate::activity::Watch;
use crate::stream::{connect, longest_wait, prepare, read_front, write_at_rest, write_whole};
use ikl_base::Failed;
use std::io;
use std::net::{Net, Shutdown, TcpStream};

// The octet that a gateway writes on the notice stream of a session which it takes.
const GREETING: u8 = b'+';

// The streams of a session: a control stream both ways, and a notice stream one way, of which command sessions have none.
#[derive(Drop)]
pub(crate) struct TcpSession {
    control: TcpStream,
    notices: Option<TcpStream>,
    // Whether a read of the control stream waits, a bounded time. No other call of a session waits to read.
    waits: bool,
}

// What a dialled session has of its welcome.
#[derive(Clone, Copy, Debug, PartialEq, Eq)]
pub(crate) enum Welcome {
    Given,
    NotYet,
    Refused,
}

fn welcome_on(notices: &TcpStream) -> Welcome {
    let mut octet = [0u8; 1];
    match read_front(notices, &mut octet) {
        Ok(Some(1)) if octet[0] == GREETING => Welcome::Given,
        Ok(None) => Welcome::NotYet,
        _ => Welcome::Refused,
    }
}

impl TcpSession {
    // A session taken with these streams, which is welcomed where it has a notice stream. None where its peer is gone.
    pub(crate) fn taken(
        control: TcpStream,
        notices: Option<TcpStream>,
        watch: &Watch<'_>,
    ) -> io::Result<Option<Self>> {
        prepare(&control)?;
        control.set_nonblocking(true)?;
        watch.add(&control)?;
        if let Some(stream) = &notices {
            prepare(stream)?;
            if write_whole(stream, &[GREETING]).is_err() {
                return Ok(None);
            }
            stream.set_nonblocking(true)?;
        }
        Ok(Some(TcpSession {
            control,
            notices,
            waits: false,
        }))
    }

    // A session with the controller's command port.
    pub(crate) fn with_controller<R: Net<Stream = TcpStream>>(
        net: &R,
        port: u16,
    ) -> io::Result<Self> {
        let control = connect(net, port)?;
        control.set_read_timeout(Some(longest_wait()))?;
        Ok(TcpSession {
            control,
            notices: None,
            waits: true,
        })
    }

    // A session with a gateway, and its welcome, for which this call waits a bounded time.
    pub(crate) fn with_gateway<R: Net<Stream = TcpStream>>(
        net: &R,
        ports: (u16, u16),
        watch: &Watch<'_>,
    ) -> io::Result<(Self, Welcome)> {
        let control = connect(net, ports.0)?;
        let notices = connect(net, ports.1)?;
        notices.set_read_timeout(Some(longest_wait()))?;
        let welcome = welcome_on(&notices);
        for stream in [&control, &notices] {
            stream.set_nonblocking(true)?;
            watch.add(stream)?;
        }
        let session = TcpSession {
            control,
            notices: Some(notices),
            waits: false,
        };
        Ok((session, welcome))
    }

    // What the session has of its welcome now.
    pub(crate) fn welcome(&self) -> Welcome {
        match &self.notices {
            Some(notices) => welcome_on(notices),
            None => Welcome::Given,
        }
    }

    pub(crate) fn read(&self, buf: &mut [u8]) -> Result<Option<usize>, Failed>
        ensures { IfOk result (λ answer. IfSome answer (λ n. n ≤ length buf.new)) }
    {
        read_front(&self.control, buf)
    }

    pub(crate) fn read_notice(&self, buf: &mut [u8]) -> Result<Option<usize>, Failed>
        ensures { IfOk result (λ answer. IfSome answer (λ n. n ≤ length buf.new)) }
    {
        match &self.notices {
            Some(notices) => read_front(notices, buf),
            None => Err(Failed),
        }
    }

    pub(crate) fn write(&self, octets: &[u8]) -> Result<(), Failed> {
        if self.waits {
            write_whole(&self.control, octets)
        } else {
            write_at_rest(&self.control, octets)
        }
    }

    pub(crate) fn write_notice(&self, octets: &[u8]) -> Result<(), Failed> {
        match &self.notices {
            Some(notices) => write_at_rest(notices, octets),
            None => Err(Failed),
        }
    }

    // Ends what is written, so that the peer sees the end after the octets written before. It may still read them.
    pub(crate) fn end(&self) {
        let _ = self.control.shutdown(Shutdown::Write);
        if let Some(notices) = &self.notices {
            let _ = notices.shutdown(Shutdown::Write);
        }
    }
}
