// Tunnels, and their halves as entries of a gateway's database.
ghost use Rattle.std.specs.Prelude.{◌≡◌, ◌&&◌, IfOk, if◌then◌else◌};
ghost use Rattle.hist_controller.specs.Told.{between as selector_between};
ghost use Rattle.ctl_tunnels.specs.Lives as lives;
ghost use Rattle.ctl_tunnels.specs.Steps as steps;
ghost use Rattle.ctl_tunnels.specs.Halves as halves;
ghost use Rattle.ctl_tunnels.specs.Tunnels as tunnels;

use crate::half::{write_in_name, write_out_name};
use crate::life::{HalfOrder, Task};
use crate::progress::Progress;
use ikeless_tree::{Df, Limits, Order, Ports, SadEntry, Selector, TunnelSpec};
use ikl_base::{Addr, NoMemory, Octets, Prefix};
use std::alloc::Global;

/// A tunnel, its gateways by their numbers.
#[derive(Clone, Copy, Debug, PartialEq, Eq)]
pub struct Tunnel {
    pub reqid: u64,
    pub first: usize,
    pub second: usize,
    pub first_prefix: Prefix,
    pub second_prefix: Prefix,
    pub window: u32,
    pub hard: Limits,
    pub soft: Limits,
}

/// How far the two directions of a tunnel have come, the one from the first gateway to the second before the other.
#[derive(Clone, Copy, Debug, PartialEq, Eq)]
pub struct Pair {
    pub forth: Progress,
    pub back: Progress,
}

/// One direction of a tunnel; `near` is behind its sender, and `far` behind its receiver.
#[derive(Clone, Copy, Debug, PartialEq, Eq)]
pub struct Direction {
    pub reqid: u64,
    pub sender: usize,
    pub receiver: usize,
    pub near: Prefix,
    pub far: Prefix,
    pub window: u32,
    pub hard: Limits,
    pub soft: Limits,
}

impl Pair {
    /// The directions of a tunnel that is just commanded.
    pub fn begun(now: bool) -> Pair
        ensures { result ≡ tunnels.begun now }
    {
        Pair {
            forth: Progress::begun(now),
            back: Progress::begun(now),
        }
    }

    /// Whether the tunnel is ended and no association of it is left.
    pub fn is_spent(self) -> bool
        ensures { result ≡ (steps.is_spent self.forth && steps.is_spent self.back) }
    {
        self.forth.is_spent() && self.back.is_spent()
    }
}

impl Tunnel {
    /// A commanded tunnel between the gateways of these numbers.
    pub fn of(spec: &TunnelSpec, first: usize, second: usize) -> Tunnel
        ensures { result ≡ tunnels.of_spec spec.entry.now first second }
    {
        Tunnel {
            reqid: spec.reqid,
            first,
            second,
            first_prefix: spec.first_prefix,
            second_prefix: spec.second_prefix,
            window: spec.window,
            hard: spec.hard,
            soft: spec.soft,
        }
    }

    /// From the first gateway to the second.
    pub fn forth(self) -> Direction
        ensures { result ≡ tunnels.forth self }
    {
        Direction {
            reqid: self.reqid,
            sender: self.first,
            receiver: self.second,
            near: self.first_prefix,
            far: self.second_prefix,
            window: self.window,
            hard: self.hard,
            soft: self.soft,
        }
    }

    /// From the second gateway to the first.
    pub fn back(self) -> Direction
        ensures { result ≡ tunnels.back self }
    {
        Direction {
            reqid: self.reqid,
            sender: self.second,
            receiver: self.first,
            near: self.second_prefix,
            far: self.first_prefix,
            window: self.window,
            hard: self.hard,
            soft: self.soft,
        }
    }
}

// The SPI of both halves of a serial. Serials are at most 1,048,576, so that it never stands at the end of its type.
fn spi_of(serial: u32) -> u32
    ensures { result ≡ halves.spi_of serial }
{
    serial.saturating_add(256)
}

// Any protocol and any ports between two prefixes.
fn between(alloc: Global, local: Prefix, remote: Prefix) -> Selector
    ensures { result ≡ selector_between local remote }
{
    Selector {
        local,
        remote,
        proto: None,
        local_ports: Ports::new(alloc),
        remote_ports: Ports::new(alloc),
    }
}

impl Direction {
    /// The gateway at which this order of the direction is given.
    pub fn place_of(&self, order: HalfOrder) -> usize
        ensures { result ≡ (if lives.is_inbound order.task then self.now.receiver else self.now.sender) }
    {
        if order.is_inbound() {
            self.receiver
        } else {
            self.sender
        }
    }

    /// The inbound half of a serial as the receiver gets it (RFC 4301 section 4.4.2), with both gateways' addresses.
    fn in_entry(
        &self,
        alloc: Global,
        serial: u32,
        key: Octets,
        sender: Addr,
        receiver: Addr,
    ) -> Result<SadEntry, NoMemory>
        ensures { IfOk result (λ e. e ≡ halves.in_entry self.now serial key sender receiver) }
    {
        Ok(SadEntry {
            name: write_in_name(alloc, serial)?,
            reqid: self.reqid,
            spi: spi_of(serial),
            window: self.window,
            selector: between(alloc, self.far, self.near),
            key,
            local: receiver,
            remote: sender,
            df: Df::Copy,
            hard: self.hard,
            soft: self.soft,
        })
    }

    /// The outbound half of a serial as the sender gets it.
    fn out_entry(
        &self,
        alloc: Global,
        serial: u32,
        key: Octets,
        sender: Addr,
        receiver: Addr,
    ) -> Result<SadEntry, NoMemory>
        ensures { IfOk result (λ e. e ≡ halves.out_entry self.now serial key sender receiver) }
    {
        Ok(SadEntry {
            name: write_out_name(alloc, serial)?,
            reqid: self.reqid,
            spi: spi_of(serial),
            window: self.window,
            selector: between(alloc, self.near, self.far),
            key,
            local: sender,
            remote: receiver,
            df: Df::Copy,
            hard: self.hard,
            soft: self.soft,
        })
    }

    /// A put or a removal as its gateway gets it. A removal needs no key.
    pub fn order(
        &self,
        alloc: Global,
        order: HalfOrder,
        key: Octets,
        sender: Addr,
        receiver: Addr,
    ) -> Result<Order, NoMemory>
        ensures { IfOk result (λ o. o ≡ halves.order_of self.now order.serial key sender receiver order.task) }
    {
        let serial = order.serial;
        match order.task {
            Task::PutIn => Ok(Order::Put(self.in_entry(alloc, serial, key, sender, receiver)?)),
            Task::PutOut => Ok(Order::Put(self.out_entry(alloc, serial, key, sender, receiver)?)),
            Task::RemoveIn => Ok(Order::Remove(write_in_name(alloc, serial)?)),
            Task::RemoveOut => Ok(Order::Remove(write_out_name(alloc, serial)?)),
        }
    }
}
