// Ports of this machine, and connections to them.
use std::io;
use std::io::{ErrorKind, Read};
use std::net::{Net, SocketAddr, TcpListener, TcpStream};
use std::time::Duration;

/// This port of this machine; any that no socket has for 0.
pub fn here(port: u16) -> SocketAddr {
    SocketAddr::from(([127, 0, 0, 1], port))
}

/// Two ports for connections that no socket has.
pub fn two_tcp_ports<R: Net<Listener = TcpListener, Stream = TcpStream>>(
    net: &R,
) -> io::Result<(u16, u16)> {
    let first = net.bind(here(0))?;
    let second = net.bind(here(0))?;
    Ok((first.local_addr()?.port(), second.local_addr()?.port()))
}

/// Two ports for datagrams that no socket has.
pub fn two_udp_ports<R: Net>(net: &R) -> io::Result<(u16, u16)> {
    let first = net.bind_udp(here(0))?;
    let second = net.bind_udp(here(0))?;
    Ok((first.local_addr()?.port(), second.local_addr()?.port()))
}
