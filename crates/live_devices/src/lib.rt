//! The traits of the outside that live nodes stand on, wires, docks, dialers and clocks, each with its devices in memory.
//!
//! `specs/Wires.antt`, `specs/Docks.antt`, `specs/Dialers.antt` and `specs/Clocks.antt` have what each call gives and takes.
#![tactic(auto)]

mod clock;
mod dialer;
mod dialer_faulty;
mod dialer_memory;
mod dock;
mod dock_faulty;
mod dock_memory;
mod peer_faulty;
mod peer_memory;
mod stream;
mod tally;
mod wire;
mod wire_memory;

pub use clock::{Clock, MemoryClock};
pub use dialer::Dialer;
pub use dialer_faulty::FaultyDialer;
pub use dialer_memory::MemoryDialer;
pub use dock::Dock;
pub use dock_faulty::FaultyDock;
pub use dock_memory::MemoryDock;
pub use peer_faulty::FaultyPeer;
pub use peer_memory::{MemoryPeer, PairScript};
pub use stream::{MemoryStream, Script};
pub use tally::{Listed, Tally};
pub use wire::Wire;
pub use wire_memory::{FaultyWire, MemoryWire};
