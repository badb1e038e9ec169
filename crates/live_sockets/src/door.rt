// The ports at which sessions come in.
ghost use Rattle.std.specs.Prelude.{IfErr};
ghost use Rattle.live_sockets.specs.Faults.{IsAt, IsAtEither};

use crate::activity::{Activity, Watch};
use crate::fault::{SocketFault, fault_at, found_nothing};
use crate::stream::{longest_wait, port_here};
use crate::tcp_session::TcpSession;
use mio::{Events, Poll};
use std::io;
use std::io::ErrorKind;
use std::net::{Net, TcpListener, TcpStream};
use std::time::{Clock, Duration, Instant};

// How many connections that wait at a port one call takes: more than the system lets wait.
const TAKEN_AT_ONCE: usize = 256;

// How long a control stream waits at most for its notice stream.
const HALF_MILLIS: u64 = 1_000;

// A control stream whose notice stream hasn't come.
#[derive(Drop)]
struct Half {
    control: TcpStream,
    since: Instant,
}

// The ports of a dock, what waits there, and what the node waits for.
#[derive(Drop)]
pub(crate) struct Door<'a, R> {
    clock: &'a R,
    control: TcpListener,
    notices: Option<TcpListener>,
    half: Option<Half>,
    poll: Poll,
    events: Events,
    watch: Watch<'a>,
}

fn bind<R: Net<Listener = TcpListener, Stream = TcpStream>>(
    net: &R,
    port: u16,
    watch: &Watch<'_>,
) -> io::Result<TcpListener> {
    let listener = net.bind(port_here(port))?;
    listener.set_nonblocking(true)?;
    watch.add(&listener)?;
    Ok(listener)
}

fn listen<R: Net<Listener = TcpListener, Stream = TcpStream>>(
    net: &R,
    port: u16,
    watch: &Watch<'_>,
) -> Result<TcpListener, SocketFault>
    ensures { IfErr result (IsAt port) }
{
    match bind(net, port, watch) {
        Ok(listener) => Ok(listener),
        Err(e) => Err(fault_at(port, &e)),
    }
}

fn begin<'a, R: Net>(net: &R, activity: &'a Activity) -> io::Result<(Poll, Watch<'a>)> {
    let poll = Poll::new(net)?;
    let registry = poll.registry().try_clone()?;
    Ok((poll, Watch::of(registry, activity)))
}

// The newest connection that waits at a port; the older ones are dropped.
fn newest(listener: &TcpListener, activity: &Activity) -> io::Result<Option<TcpStream>> {
    let mut found = None;
    for _ in 0..TAKEN_AT_ONCE {
        match listener.accept() {
            Ok((stream, _)) => found = Some(stream),
            Err(e) if e.kind() == ErrorKind::ConnectionAborted => {}
            Err(e) if found_nothing(&e) => break,
            Err(e) => return Err(e),
        }
        activity.note();
    }
    Ok(found)
}

impl<'a, R: Clock + Net<Listener = TcpListener, Stream = TcpStream>> Door<'a, R> {
    // A door at these ports, at which nothing waits yet.
    pub(crate) fn at(
        system: &'a R,
        events: Events,
        control_port: u16,
        notice_port: Option<u16>,
        activity: &'a Activity,
    ) -> Result<Self, SocketFault>
        ensures { IfErr result (IsAtEither control_port notice_port) }
    {
        let Ok((poll, watch)) = begin(system, activity) else {
            return Err(SocketFault::Unavailable);
        };
        let control = match listen(system, control_port, &watch) {
            Ok(listener) => listener,
            Err(fault) => return Err(fault),
        };
        let notices = match notice_port {
            Some(port) => match listen(system, port, &watch) {
                Ok(listener) => Some(listener),
                Err(fault) => return Err(fault),
            },
            None => None,
        };
        Ok(Door {
            clock: system,
            control,
            notices,
            half: None,
            poll,
            events,
            watch,
        })
    }
}

impl<'a, R: Clock> Door<'a, R> {
    // By what other sockets of the node wake this door.
    pub(crate) fn watch(&self) -> io::Result<Watch<'a>> {
        let registry = self.poll.registry().try_clone()?;
        Ok(Watch::of(registry, self.watch.activity()))
    }

    // Whether sessions come with a notice stream, as a gateway's do.
    pub(crate) fn has_notices(&self) -> bool {
        self.notices.is_some()
    }

    // Notes what a read of a session brought.
    pub(crate) fn note<E>(&self, answer: &Result<Option<usize>, E>) {
        self.watch.note(answer);
    }

    // Takes the newest session that waits. Where the node is idle it waits first, a bounded time, for any of its sockets.
    pub(crate) fn next_session(&mut self) -> io::Result<Option<TcpSession>> {
        if !self.watch.activity().take() {
            self.poll.poll(&mut self.events, Some(longest_wait()))?;
        }
        let notices = match &self.notices {
            Some(listener) => newest(listener, self.watch.activity())?,
            None => return self.next_alone(),
        };
        self.next_pair(notices)
    }

    // The newest control stream, as a session without a notice stream.
    fn next_alone(&mut self) -> io::Result<Option<TcpSession>> {
        match newest(&self.control, self.watch.activity())? {
            Some(control) => TcpSession::taken(control, None, &self.watch),
            None => Ok(None),
        }
    }

    // The newest control stream and this notice stream, where both have come.
    //
    // A peer connects its control stream first, so a notice stream for which none waits is no peer's, and is dropped.
    fn next_pair(&mut self, notices: Option<TcpStream>) -> io::Result<Option<TcpSession>> {
        if let Some(control) = newest(&self.control, self.watch.activity())? {
            let since = Instant::now(self.clock)?;
            self.half = Some(Half { control, since });
        }
        let Some(half) = self.half.take() else {
            return Ok(None);
        };
        if let Some(stream) = notices {
            return TcpSession::taken(half.control, Some(stream), &self.watch);
        }
        if half.since.elapsed(self.clock)? < Duration::from_millis(HALF_MILLIS) {
            self.half = Some(half);
        }
        Ok(None)
    }
}
