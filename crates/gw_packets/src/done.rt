// What a gateway does, and what it is configured with.
use ikeless_tree::{DropWhy, Names, Notice};
use ikl_base::{Addr, ListOf, Name, Octets};

/// A gateway's own address, and the greatest number that one of its halves may send.
#[derive(Clone, Copy, Debug, PartialEq, Eq)]
pub struct Config {
    pub address: Addr,
    pub seq_last: u64,
}

/// The one answer to a packet from inside or a datagram from outside.
#[derive(Debug, Drop)]
pub enum PacketAnswer {
    /// A packet leaves in clear, as it came.
    Clear(Octets),
    /// A datagram leaves, sealed under the half of this name with this number.
    Sent {
        name: Name,
        number: u64,
        octets: Octets,
    },
    /// It is dropped.
    Drop(DropWhy),
    /// A packet is given inside, opened under the half of this name with this number.
    Gave {
        name: Name,
        number: u64,
        octets: Octets,
    },
    /// A datagram is given inside, as it came.
    Pass(Octets),
}

/// Notices, in order.
pub type Notices = ListOf<Notice>;

/// What a gateway does at a packet, a datagram or a reading of the clock: its answer, if one is due, then the names of the halves
/// that are gone by a hard limit, then its notices.
#[derive(Debug, Drop)]
pub struct Done {
    pub answer: Option<PacketAnswer>,
    pub gone: Names,
    pub notices: Notices,
}
