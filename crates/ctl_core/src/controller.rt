// The controller.
ghost use Rattle.std.specs.Prelude.{◌≡◌, ◌++◌, ◌∷◌, [], OnOk, OnErr, IfOk, map, min};
ghost use Rattle.std.specs.Option.{option_copied};
ghost use Rattle.ctl_core.specs.declared.acts.CtlAct.TheVariants as done;
ghost use Rattle.ctl_core.specs.Changes.{changed};
ghost use Rattle.ctl_core.specs.Core as core;
ghost use Rattle.ctl_core.specs.Pass as passes;
ghost use Rattle.ctl_core.specs.Step as steps;

use crate::acts::{CtlAct, CtlActs, CtlEvent};
use crate::change::Change;
use crate::draft::Draft;
use crate::idle::is_idle;
use crate::peer::{
    Station, address_of, append_queues, empty_queues, has_room, readiness, stations_of,
};
use ctl_tunnels::{Direction, HalfOrder, Keyring, Pair, Progress, Tunnel};
use ikeless_tree::{Order, Peers, Refusal};
use ikl_base::{NoMemory, Octets};
use std::alloc::Global;
use std::marker::Model;

/// The controller of some gateways, which are its peers.
#[derive(Drop)]
pub struct Controller {
    pub(crate) alloc: Global,
    pub(crate) stations: Vec<Station>,
    pub(crate) tunnels: Vec<Tunnel>,
    pub(crate) pairs: Vec<Pair>,
    pub(crate) keys: Keyring,
    pub(crate) serials: u32,
}

impl Model for Controller {
    ghost use Rattle.ctl_core.specs.Core.{Core};

    ghost Value = { Core };

    ghost view = { λ c. record { stations = c.stations.items; tunnels = c.tunnels.items; pairs = c.pairs.items; keys = c.keys; serials = c.serials } };
}

impl Controller {
    /// A controller that was told nothing.
    ///
    /// There are 1 to 16 peers, with distinct names and addresses of one family.
    pub fn new(alloc: Global, peers: Peers) -> Result<Controller, NoMemory>
        ensures { IfOk result (λ c. c ≡ core.told_nothing peers) }
    {
        Ok(Controller {
            alloc,
            stations: stations_of(alloc, peers)?,
            tunnels: Vec::new(alloc),
            pairs: Vec::new(alloc),
            keys: Keyring::new(alloc),
            serials: 0,
        })
    }

    /// The oldest order that waits for its answer at a gateway.
    pub fn expects(&self, gateway: usize) -> Option<&Order>
        ensures { option_copied result ≡ core.expected self.now gateway }
    {
        match self.stations.get(gateway) {
            None => None,
            Some(station) => station.oldest(),
        }
    }

    /// One event: appends what the controller does. Want of memory changes nothing.
    pub fn step(&mut self, e: CtlEvent, acts: &mut CtlActs) -> Result<(), NoMemory>
        ensures acts { OnOk result (acts.new ≡ acts.old ++ (steps.stepped self.old e).acts) }
        ensures state { OnOk result (self.new ≡ (steps.stepped self.old e).core) }
        ensures err { OnErr result ((self.new ≡ self.old) × (acts.new ≡ acts.old)) }
    {
        match e {
            CtlEvent::Command(command) => self.on_command(command, acts),
            CtlEvent::Opened(gateway) => self.on_opened(gateway, acts),
            CtlEvent::Cut(gateway) => self.on_cut(gateway, acts),
            CtlEvent::Answered(gateway, answer) => self.on_answered(gateway, answer, acts),
            CtlEvent::Noticed(gateway, notice) => self.on_noticed(gateway, notice, acts),
        }
    }

    pub(crate) fn draft(&self) -> Result<Draft, NoMemory>
        ensures { IfOk result (λ d. d ≡ steps.no_draft self.now) }
    {
        Ok(Draft::of(
            self.alloc,
            empty_queues(self.alloc, &self.stations)?,
            self.serials,
        ))
    }

    // Whether each gateway's session is open and read.
    pub(crate) fn readiness(&self) -> Result<Vec<bool>, NoMemory>
        ensures { IfOk result (λ ready. ready.items ≡ steps.readiness self.now.stations) }
    {
        readiness(self.alloc, &self.stations)
    }

    // The serial of a new association, where a key is left.
    fn fresh_serial(&self, serials: u32) -> Option<u32>
        ensures { result ≡ passes.fresh_serial self.now.keys serials }
    {
        if (serials as usize) < self.keys.len() {
            Some(serials + 1)
        } else {
            None
        }
    }

    // The key of an order: that of its serial for a put, and none for a removal.
    fn key_of(&self, order: HalfOrder) -> Result<Octets, NoMemory>
        ensures { IfOk result (λ key. key ≡ passes.key_of self.now.keys order) }
    {
        if order.is_put() && 0 < order.serial {
            self.keys.key_at(self.alloc, order.serial as usize - 1)
        } else {
            Ok(Octets::new(self.alloc))
        }
    }

    // A put or a removal as its gateway gets it.
    fn order_of(&self, direction: &Direction, order: HalfOrder) -> Result<Order, NoMemory>
        ensures { IfOk result (λ o. o ≡ passes.order_of self.now.stations self.now.keys direction.now order) }
    {
        let key = self.key_of(order)?;
        let sender = address_of(&self.stations, direction.sender);
        let receiver = address_of(&self.stations, direction.receiver);
        direction.order(self.alloc, order, key, sender, receiver)
    }

    // Drafts an order of a direction.
    fn draft_order(
        &self,
        direction: &Direction,
        order: HalfOrder,
        draft: &mut Draft,
    ) -> Result<(), NoMemory>
        ensures { OnOk result (draft.new ≡ passes.draft_with self.now.stations self.now.keys direction.now (Some order) draft.old) }
    {
        let told = self.order_of(direction, order)?;
        draft.give(direction.place_of(order), told, Some(order))?;
        if order.begins() {
            draft.set_serials(order.serial);
        }
        Ok(())
    }

    // Gives a direction its next order, if it gets one.
    fn advance(
        &self,
        direction: &Direction,
        progress: Progress,
        ready: &[bool],
        draft: &mut Draft,
    ) -> Result<Progress, NoMemory>
        ensures progress { IfOk result (λ p. p ≡ passes.advanced self.now.keys ready.now direction.now progress draft.old) }
        ensures draft { OnOk result (draft.new ≡ passes.drafted self.now.stations self.now.keys ready.now direction.now progress
            draft.old) }
    {
        let sender = is_ready(ready, direction.sender);
        let receiver = is_ready(ready, direction.receiver);
        let fresh = self.fresh_serial(draft.serials());
        match progress.next(sender, receiver, fresh) {
            None => Ok(progress),
            Some(order) => {
                self.draft_order(direction, order, draft)?;
                Ok(progress.ordered(order))
            }
        }
    }

    // Makes the change in both directions of a tunnel, and gives each its next order.
    fn advance_pair(
        &self,
        tunnel: &Tunnel,
        pair: &Pair,
        change: &Change,
        ready: &[bool],
        draft: &mut Draft,
    ) -> Result<Pair, NoMemory>
        ensures pair { IfOk result (λ p. p ≡ passes.advanced_pair self.now.stations self.now.keys (changed change.now) ready.now tunnel.now
            pair.now draft.old) }
        ensures draft { OnOk result (draft.new ≡ passes.draft_pair self.now.stations self.now.keys (changed change.now) ready.now tunnel.now
            pair.now draft.old) }
    {
        let forth = tunnel.forth();
        let back = tunnel.back();
        let there = self.advance(&forth, change.of(&forth, pair.forth), ready, draft)?;
        let here = self.advance(&back, change.of(&back, pair.back), ready, draft)?;
        Ok(Pair {
            forth: there,
            back: here,
        })
    }

    // Makes the change in all directions, in the order of the tunnels' commands, and gives each its next order.
    pub(crate) fn pass(
        &self,
        tunnels: &[Tunnel],
        pairs: &[Pair],
        change: &Change,
        ready: &[bool],
        draft: &mut Draft,
    ) -> Result<Vec<Pair>, NoMemory>
        ensures pairs { IfOk result (λ v. v.items ≡ passes.pass_pairs self.now.stations self.now.keys (changed change.now) ready.now
            tunnels.now pairs.now draft.old) }
        ensures draft { OnOk result (draft.new ≡ passes.pass_draft self.now.stations self.now.keys (changed change.now) ready.now
            tunnels.now pairs.now draft.old) }
    {
        let mut after = Vec::with_capacity(self.alloc, pairs.len())?;
        let count = tunnels.len().min(pairs.len());
        for i in 0..count {
            let tunnel = &tunnels[i];
            let pair = &pairs[i];
            if is_idle(change, tunnel, pair) {
                after.push(*pair)?;
            } else {
                let next = self.advance_pair(tunnel, pair, change, ready, draft)?;
                after.push(next)?;
            }
        }
        Ok(after)
    }

    // Gives the orders of a draft: all of it, or nothing for want of memory.
    pub(crate) fn commit(
        &mut self,
        draft: Draft,
        pairs: Vec<Pair>,
        acts: &mut CtlActs,
    ) -> Result<(), NoMemory>
        ensures acts { OnOk result (acts.new ≡ acts.old ++ draft.acts) }
        ensures state { OnOk result (self.new ≡ steps.committed self.old draft pairs.items) }
        ensures err { OnErr result ((self.new ≡ self.old) × (acts.new ≡ acts.old)) }
    {
        let Draft {
            acts: given,
            mut queues,
            serials,
        } = draft;
        if !has_room(&self.stations, &queues) {
            return Err(NoMemory);
        }
        acts.append(given)?;
        append_queues(&mut self.stations, &mut queues);
        self.pairs = pairs;
        self.serials = serials;
        Ok(())
    }

    // Changes the directions, and gives the orders of a draft and those of the directions.
    pub(crate) fn run(
        &mut self,
        change: &Change,
        ready: &[bool],
        mut draft: Draft,
        acts: &mut CtlActs,
    ) -> Result<(), NoMemory>
        ensures acts { OnOk result (acts.new ≡ acts.old ++ (steps.ran self.old (changed change.now) ready.now draft).acts) }
        ensures state { OnOk result (self.new ≡ (steps.ran self.old (changed change.now) ready.now draft).core) }
        ensures err { OnErr result ((self.new ≡ self.old) × (acts.new ≡ acts.old)) }
    {
        let pairs = self.pass(&self.tunnels, &self.pairs, change, ready, &mut draft)?;
        self.commit(draft, pairs, acts)
    }
}

// Refuses a command.
pub(crate) fn refuse(why: Refusal, acts: &mut CtlActs) -> Result<(), NoMemory>
    ensures ok { OnOk result (acts.new ≡ acts.old ++ done.Refused why ∷ []) }
    ensures err { OnErr result (acts.new ≡ acts.old) }
{
    acts.push(CtlAct::Refused(why))
}

// Whether the session of a gateway is open and read.
fn is_ready(ready: &[bool], gateway: usize) -> bool
    ensures { result ≡ passes.is_read ready.now gateway }
{
    match ready.get(gateway) {
        Some(is) => *is,
        None => false,
    }
}
