// Commands to the controller, and why it refuses one.
use crate::entry::Entries;
use crate::sad::Limits;
use ikl_base::{Addr, Duplicate, ListOf, Name, NoMemory, Octets, Prefix};

/// A gateway, by its name and the address of its tunnels' ends.
#[derive(Debug, Drop)]
pub struct Peer {
    pub name: Name,
    pub address: Addr,
}

impl Duplicate for Peer {
    fn copy(&self) -> Result<Peer, NoMemory> {
        Ok(Peer {
            name: self.name.copy()?,
            address: self.address,
        })
    }
}

/// Gateways, in order.
pub type Peers = ListOf<Peer>;

/// A tunnel that is commanded: two gateways with a prefix behind each, a window and lifetimes.
///
/// `now` asks for keys at once, and not at the first packet.
#[derive(Debug, Drop)]
pub struct TunnelSpec {
    pub reqid: u64,
    pub now: bool,
    pub first: Name,
    pub second: Name,
    pub first_prefix: Prefix,
    pub second_prefix: Prefix,
    pub window: u32,
    pub hard: Limits,
    pub soft: Limits,
}

impl Duplicate for TunnelSpec {
    fn copy(&self) -> Result<TunnelSpec, NoMemory> {
        Ok(TunnelSpec {
            reqid: self.reqid,
            now: self.now,
            first: self.first.copy()?,
            second: self.second.copy()?,
            first_prefix: self.first_prefix,
            second_prefix: self.second_prefix,
            window: self.window,
            hard: self.hard,
            soft: self.soft,
        })
    }
}

/// What an operator commands the controller.
#[derive(Debug, Drop)]
pub enum Command {
    Policy { gateway: Name, list: Entries },
    Tunnel(TunnelSpec),
    End(u64),
    Rekey(u64),
    Keys(Octets),
}

/// Why the controller refuses a command.
#[derive(Clone, Copy, Debug, PartialEq, Eq)]
pub enum Refusal {
    UnknownGateway,
    SameGateway,
    TunnelExists,
    NoTunnel,
    TunnelLimit,
    KeySeen,
    KeyLength,
    KeyLimit,
}
