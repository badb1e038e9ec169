// Docks and dialers at ports of their own.
ghost use Rattle.std.specs.Prelude.{◌≡◌, IfSome, length};
ghost use Rattle.live_sockets.specs.Peers.{AllDown};

use crate::ports::two_tcp_ports;
use live_sockets::{Activity, TcpDialer, TcpDock};
use std::alloc::Global;
use std::net::{Net, TcpListener, TcpStream};
use std::time::Clock;

/// A gateway's dock, and a dialer to it.
#[derive(Drop)]
pub struct Ends<'a, R> {
    pub ports: (u16, u16),
    pub dock: TcpDock<'a, R>,
    pub dialer: TcpDialer<'a, R>,
}

/// A dialer to these ports, with no session. None where there is no memory or no socket for it.
pub fn dialer_to<'a, R: Clock + Net<Listener = TcpListener, Stream = TcpStream>>(
    system: &'a R,
    alloc: Global,
    dock: &TcpDock<'a, R>,
    ports: (u16, u16),
) -> Option<TcpDialer<'a, R>>
    ensures known { IfSome result (λ d. length d.peers.items ≡ 1) }
    ensures down { IfSome result (λ d. AllDown d.peers.items) }
{
    let watch = dock.watch().ok()?;
    let mut dialer = TcpDialer::of_controller(system, alloc, watch);
    dialer.add_gateway(ports.0, ports.1).ok()?;
    Some(dialer)
}

/// Both ends, with no session.
pub fn both_ends<'a, R: Clock + Net<Listener = TcpListener, Stream = TcpStream>>(
    system: &'a R,
    alloc: Global,
    activity: &'a Activity,
) -> Option<Ends<'a, R>>
    ensures known { IfSome result (λ e. length e.dialer.peers.items ≡ 1) }
    ensures down { IfSome result (λ e. AllDown e.dialer.peers.items) }
{
    let ports = two_tcp_ports(system).ok()?;
    let dock = TcpDock::of_gateway(system, alloc, ports.0, ports.1, activity).ok()?;
    let dialer = dialer_to(system, alloc, &dock, ports)?;
    Some(Ends {
        ports,
        dock,
        dialer,
    })
}
