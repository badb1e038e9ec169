//! The devices of live nodes over real sockets of this machine, and its clock (`udp(7)`, `tcp(7)`, `epoll(7)`).
//!
//! What a socket carries no clause can say: these devices tell nothing of what they hold, and count their faults. An idle
//! node waits in its dock until one of its sockets is ready, a quarter of a second at most.
//!
//! `specs/Faults.antt` has the ports that a fault names, `specs/Peers.antt` what a dialer tells of each peer.
#![tactic(auto)]

mod activity;
mod counted;
mod door;
mod fault;
mod stream;
mod system_clock;
mod tcp_dialer;
mod tcp_dock;
mod tcp_peer;
mod tcp_session;
mod udp_wire;

pub use activity::{Activity, Watch};
pub use fault::SocketFault;
pub use system_clock::SystemClock;
pub use tcp_dialer::TcpDialer;
pub use tcp_dock::TcpDock;
pub use tcp_peer::TcpPeer;
pub use udp_wire::UdpWire;
