// The orders of one event, before they are given.
ghost use Rattle.std.specs.Prelude.{◌≡◌, [], IfOk, OnOk};
ghost use Rattle.ctl_core.specs.Drafts as drafts;

use crate::acts::{CtlAct, CtlActs};
use crate::peer::Waiting;
use ctl_tunnels::HalfOrder;
use ikeless_tree::Order;
use ikl_base::{Duplicate, NoMemory};
use std::alloc::Global;
use std::collections::LinkedList;
use std::marker::Model;

/// The acts of an event so far, the same orders for each gateway's queue, and the serials used.
#[derive(Drop)]
pub struct Draft {
    pub acts: CtlActs,
    pub queues: Vec<LinkedList<Waiting>>,
    pub serials: u32,
}

impl Model for Draft {
    ghost use Rattle.ctl_core.specs.Drafts.{Drafted};

    ghost Value = { Drafted };

    ghost view = { λ d. record { acts = d.acts; queues = d.queues.items; serials = d.serials } };
}

impl Draft {
    /// No acts yet, with these queues.
    pub fn of(alloc: Global, queues: Vec<LinkedList<Waiting>>, serials: u32) -> Draft
        ensures { result ≡ record { acts = []; queues = queues.items; serials = serials } }
    {
        Draft {
            acts: CtlActs::new(alloc),
            queues,
            serials,
        }
    }

    /// The last serial used.
    pub fn serials(&self) -> u32
        ensures { result ≡ self.now.serials }
    {
        self.serials
    }

    /// A new last serial.
    pub fn set_serials(&mut self, serial: u32)
        ensures { self.new ≡ drafts.with_serials serial self.old }
    {
        self.serials = serial;
    }

    /// One more order.
    pub fn give(
        &mut self,
        gateway: usize,
        order: Order,
        half: Option<HalfOrder>,
    ) -> Result<(), NoMemory>
        ensures { OnOk result (self.new ≡ drafts.given gateway order half self.old) }
    {
        let copy = order.copy()?;
        queue_up(&mut self.queues, gateway, Waiting { order: copy, half })?;
        self.acts.push(CtlAct::Order { gateway, order })
    }
}

// Adds a waiting order to the queue of its gateway.
fn queue_up(
    queues: &mut Vec<LinkedList<Waiting>>,
    gateway: usize,
    waiting: Waiting,
) -> Result<(), NoMemory>
    ensures { OnOk result (queues.new.items ≡ drafts.queued gateway waiting queues.old.items) }
{
    if gateway < queues.len() {
        let queue = &mut queues[gateway];
        queue.push_back(waiting)?;
    }
    Ok(())
}
