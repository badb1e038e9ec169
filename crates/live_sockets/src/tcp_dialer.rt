// A dialer over TCP.
ghost use Rattle.std.specs.Prelude.{◌≡◌, ◌+◌, [], IfOk, OnErr, OnOk, None, length};
ghost use Rattle.live_sockets.specs.Peers.{AllDown, faults_at, up_at};

use crate::activity::{Activity, Watch};
use crate::tcp_peer::TcpPeer;
use ikl_base::{Failed, NoMemory};
use live_devices::Dialer;
use std::alloc::Global;
use std::net::{Net, TcpStream};

/// A dialer to ports of this machine.
///
/// A dial of a gateway connects to its control port and then to its notice port, and reads a `+` on the notice stream.
/// It waits a quarter of a second at most for each; where the `+` doesn't come, the next dial looks for it on the same
/// streams. A dial of a controller connects to its one port, and each read from it waits a quarter of a second at most.
/// Else no read waits. A write waits five seconds at most, and then fails.
#[derive(Drop)]
pub struct TcpDialer<'a, R> {
    net: &'a R,
    watch: Watch<'a>,
    peers: Vec<TcpPeer>,
}

impl<'a, R: Net<Stream = TcpStream>> TcpDialer<'a, R> {
    /// A controller's dialer, which has no peer yet. Its sockets wake the dock of this watch.
    pub fn of_controller(net: &'a R, alloc: Global, watch: Watch<'a>) -> Self
        ensures { result.peers.items ≡ [] }
    {
        TcpDialer {
            net,
            watch,
            peers: Vec::new(alloc),
        }
    }

    /// A client's dialer, whose one peer is a controller with this command port.
    pub fn of_client(
        net: &'a R,
        alloc: Global,
        port: u16,
        activity: &'a Activity,
    ) -> Result<Self, NoMemory>
        ensures peers { IfOk result (λ d. length d.peers.items ≡ 1) }
        ensures down { IfOk result (λ d. AllDown d.peers.items) }
        ensures count { IfOk result (λ d. faults_at d.peers.items 0 ≡ 0) }
    {
        let mut peers = Vec::new(alloc);
        peers.push(TcpPeer::new(port, None))?;
        Ok(TcpDialer {
            net,
            watch: Watch::without_dock(activity),
            peers,
        })
    }

    /// Adds a gateway with these ports, as the peer with the next number. Want of memory adds none.
    pub fn add_gateway(&mut self, control: u16, notices: u16) -> Result<(), NoMemory>
        ensures peers { OnOk result (length self.new.peers.items ≡ length self.old.peers.items + 1) }
        ensures down { AllDown self.old.peers.items → AllDown self.new.peers.items }
        ensures none { OnErr result (self.new.peers.items ≡ self.old.peers.items) }
    {
        self.peers.push(TcpPeer::new(control, Some(notices)))?;
        Ok(())
    }
}

impl<R: Net<Stream = TcpStream>> Dialer for TcpDialer<'_, R> {
    ghost peers = { λ d. length d.peers.items };

    ghost is_up = { λ d g. up_at d.peers.items g };

    ghost held = { λ _ _. None };

    ghost faults = { λ d g. faults_at d.peers.items g };

    ghost last_failed = { λ _ _. None };

    fn dial(&mut self, g: usize) -> Result<(), Failed> {
        self.peers[g].dial(self.net, &self.watch)
    }

    fn read(&mut self, g: usize, buf: &mut [u8]) -> Result<Option<usize>, Failed> {
        self.peers[g].read(buf, &self.watch)
    }

    fn read_notice(&mut self, g: usize, buf: &mut [u8]) -> Result<Option<usize>, Failed> {
        self.peers[g].read_notice(buf, &self.watch)
    }

    fn write(&mut self, g: usize, octets: &[u8]) -> Result<(), Failed> {
        self.peers[g].write(octets)
    }

    fn hang_up(&mut self, g: usize) {
        self.peers[g].hang_up();
    }
}
