// Why a socket can't be made, and errors that are no fault.
ghost use Rattle.live_sockets.specs.Faults.{IsAt};

use std::io;
use std::io::ErrorKind;

/// Why a socket can't be made.
#[derive(Clone, Copy, Debug, PartialEq, Eq)]
pub enum SocketFault {
    /// Another socket has this port.
    PortTaken(u16),
    /// The system refuses it for another reason.
    Unavailable,
}

// Why a socket at this port can't be made, where making it gave this error.
pub(crate) fn fault_at(port: u16, error: &io::Error) -> SocketFault
    ensures { IsAt port result }
{
    if error.kind() == ErrorKind::AddrInUse {
        SocketFault::PortTaken(port)
    } else {
        SocketFault::Unavailable
    }
}

// Whether a call only found nothing, or was interrupted before it found anything.
pub(crate) fn found_nothing(error: &io::Error) -> bool {
    let kind = error.kind();
    kind == ErrorKind::WouldBlock || kind == ErrorKind::Interrupted
}
