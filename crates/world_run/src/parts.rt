// The gateways and their controller, with the datagrams sent.
ghost use Rattle.std.specs.Prelude.{◌≡◌, IfOk, map, position};
ghost use Rattle.std.specs.Str.{bytes_eq};
ghost use Rattle.world_steps.specs.Nodes.{begun};
ghost use Rattle.world_steps.specs.Worlds.{world_of};
ghost use Rattle.world_run.specs.Taken.{IsLast};

use ctl_core::Controller;
use hist_acts::Header;
use ikeless_tree::{Peer, Peers};
use ikl_base::{Duplicate, Name, NoMemory};
use std::alloc::Global;
use std::marker::Model;
use world_nodes::{Node, SentLog};

/// The gateways in the order of the header, their controller, the datagrams sent, the greatest reading of the clock, and the number
/// of events taken.
#[derive(Drop)]
pub struct Parts {
    pub(crate) alloc: Global,
    pub(crate) nodes: Vec<Node>,
    pub(crate) controller: Controller,
    pub(crate) sent: SentLog,
    pub(crate) clock: u32,
    pub(crate) taken: u64,
}

impl Model for Parts {
    ghost use Rattle.world_steps.specs.Worlds as worlds;

    ghost Value = { worlds.World };

    ghost view = { λ p. record {
      nodes = p.nodes.items;
      controller = p.controller;
      sent = p.sent;
      clock = p.clock;
      taken = p.taken;
    } };
}

fn node_of(alloc: Global, seq_last: u64, peer: &Peer) -> Result<Node, NoMemory>
    requires { IsLast seq_last }
    ensures { IfOk result (λ n. n ≡ begun seq_last peer.now) }
{
    Node::begun(alloc, seq_last, peer.name.copy()?, peer.address)
}

fn nodes_of(alloc: Global, seq_last: u64, peers: &Peers) -> Result<Vec<Node>, NoMemory>
    requires { IsLast seq_last }
    ensures { IfOk result (λ nodes. nodes.items ≡ map (begun seq_last) peers.now) }
{
    let mut nodes = Vec::new(alloc);
    for peer in peers.as_slice() {
        nodes.push(node_of(alloc, seq_last, peer)?)?;
    }
    Ok(nodes)
}

/// Where the gateway of this name is.
pub fn place_of(nodes: &[Node], name: &Name) -> Option<usize>
    ensures { result ≡ position (λ n. bytes_eq n.name name.now) nodes.now }
{
    nodes
        .iter()
        .position(|node| node.name().as_slice() == name.as_slice())
}

impl Parts {
    /// Nothing has happened.
    pub fn of(alloc: Global, header: &Header) -> Result<Parts, NoMemory>
        requires { IsLast header.now.seq_last }
        ensures { IfOk result (λ p. p ≡ world_of header.now) }
    {
        Ok(Parts {
            alloc,
            nodes: nodes_of(alloc, header.seq_last, &header.gateways)?,
            controller: Controller::new(alloc, header.gateways.copy()?)?,
            sent: SentLog::new(alloc),
            clock: 0,
            taken: 0,
        })
    }
}
