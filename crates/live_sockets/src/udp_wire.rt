// Wires over UDP.
ghost use Rattle.std.specs.Prelude.{◌≡◌, IfErr, IfOk, None};
ghost use Rattle.live_sockets.specs.Faults.{IsAt};

use crate::activity::{Activity, Watch};
use crate::counted::counted;
use crate::fault::{SocketFault, fault_at, found_nothing};
use crate::stream::{longest_write, port_here};
use ikl_base::Failed;
use live_devices::{Tally, Wire};
use std::io;
use std::io::ErrorKind;
use std::net::{Net, SocketAddr, UdpSocket};

/// A wire between two ports of this machine, which carries each datagram in one of UDP.
///
/// It isn't connected to the other port, so a neighbour that is down is no fault: what is sent to it is lost, as any
/// datagram may be. What comes from another port is taken, too.
#[derive(Drop)]
pub struct UdpWire<'a> {
    socket: UdpSocket,
    to: SocketAddr,
    activity: &'a Activity,
    tally: Tally,
}

impl<'a> UdpWire<'a> {
    /// A wire from one port to another, which wakes the dock of this watch.
    pub fn new<R: Net>(net: &R, from: u16, to: u16, watch: &Watch<'a>) -> Result<Self, SocketFault>
        ensures count { IfOk result (λ w. w.tally.faults ≡ 0) }
        ensures fault { IfErr result (IsAt from) }
    {
        match bind(net, from, watch) {
            Ok(socket) => Ok(UdpWire {
                socket,
                to: port_here(to),
                activity: watch.activity(),
                tally: Tally::new(),
            }),
            Err(e) => Err(fault_at(from, &e)),
        }
    }

    // Sends a datagram, and waits a bounded time where the system has no room for it now.
    fn put(&self, datagram: &[u8]) -> io::Result<usize> {
        match self.socket.send_to(datagram, self.to) {
            Err(e) if e.kind() == ErrorKind::WouldBlock => {}
            sent => return sent,
        }
        self.socket.set_nonblocking(false)?;
        let sent = self.socket.send_to(datagram, self.to);
        self.socket.set_nonblocking(true)?;
        sent
    }
}

fn bind<R: Net>(net: &R, port: u16, watch: &Watch<'_>) -> io::Result<UdpSocket> {
    let socket = net.bind_udp(port_here(port))?;
    socket.set_write_timeout(Some(longest_write()))?;
    socket.set_nonblocking(true)?;
    watch.add(&socket)?;
    Ok(socket)
}

impl Wire for UdpWire<'_> {
    ghost held = { λ _. None };

    ghost faults = { λ w. w.tally.faults };

    ghost last_failed = { λ _. None };

    fn recv(&mut self, into: &mut [u8]) -> Result<Option<usize>, Failed> {
        match self.socket.recv_from(into) {
            Ok((n, _)) => {
                self.activity.note();
                Ok(Some(n))
            }
            Err(e) if found_nothing(&e) => Ok(None),
            Err(_) => {
                self.tally.fail();
                Err(Failed)
            }
        }
    }

    fn send(&mut self, datagram: &[u8]) -> Result<(), Failed> {
        let sent = match self.put(datagram) {
            Ok(n) if n == datagram.len() => Ok(()),
            _ => Err(Failed),
        };
        counted(&mut self.tally, sent)
    }
}
