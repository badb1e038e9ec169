// TCP streams on this machine.
ghost use Rattle.std.specs.Prelude.{◌≤◌, IfOk, IfSome, length};

use crate::fault::found_nothing;
use ikl_base::Failed;
use std::io;
use std::io::{ErrorKind, Read, Write};
use std::net::{Net, SocketAddr, TcpStream};
use std::time::Duration;

// How long a call waits at most for something to come, or for a connection.
const WAIT_MILLIS: u64 = 250;

// How long a write waits at most for its octets to be taken.
const WRITE_MILLIS: u64 = 5_000;

// The longest wait of a call that waits for something to come.
pub(crate) fn longest_wait() -> Duration {
    Duration::from_millis(WAIT_MILLIS)
}

// The longest wait of a write.
pub(crate) fn longest_write() -> Duration {
    Duration::from_millis(WRITE_MILLIS)
}

// This port of this machine.
pub(crate) fn port_here(port: u16) -> SocketAddr {
    SocketAddr::from(([127, 0, 0, 1], port))
}

// Small pieces go out at once, and a write ends in a bounded time.
pub(crate) fn prepare(stream: &TcpStream) -> io::Result<()> {
    stream.set_nodelay(true)?;
    stream.set_write_timeout(Some(longest_write()))
}

// A connection to a port of this machine, made or given up in a bounded time.
//
// The system may join a socket that calls a port where none listens with itself: that is no connection.
pub(crate) fn connect<R: Net<Stream = TcpStream>>(net: &R, port: u16) -> io::Result<TcpStream> {
    let stream = net.connect_timeout(port_here(port), longest_wait())?;
    if stream.local_addr()? == stream.peer_addr()? {
        return Err(io::Error::from(ErrorKind::ConnectionRefused));
    }
    prepare(&stream)?;
    Ok(stream)
}

// Reads octets into the front of `buf`: 0 is the end. None where nothing waited.
pub(crate) fn read_front(mut stream: &TcpStream, buf: &mut [u8]) -> Result<Option<usize>, Failed>
    ensures { IfOk result (λ answer. IfSome answer (λ n. n ≤ length buf.new)) }
{
    match stream.read(buf) {
        Ok(n) => Ok(Some(n)),
        Err(e) if found_nothing(&e) => Ok(None),
        Err(_) => Err(Failed),
    }
}

// Writes all of these octets to a stream that blocks. A call that fails may have written a front of them.
pub(crate) fn write_whole(mut stream: &TcpStream, octets: &[u8]) -> Result<(), Failed> {
    match stream.write(octets) {
        Ok(n) if n == octets.len() => Ok(()),
        _ => Err(Failed),
    }
}

// Writes as `write_whole` does, to a stream that doesn't block but in this call.
pub(crate) fn write_at_rest(stream: &TcpStream, octets: &[u8]) -> Result<(), Failed> {
    if stream.set_nonblocking(false).is_err() {
        return Err(Failed);
    }
    let written = write_whole(stream, octets);
    if stream.set_nonblocking(true).is_err() {
        return Err(Failed);
    }
    written
}
