// The controller with the links to its peers.
ghost use Rattle.std.specs.Prelude.{◌≡◌, ◌<◌, [], ℕ, Some, All, IfOk, OnErr, OnOk, length, slice_get, true, false};
ghost use Rattle.hist_controller.specs.Entries.{OneFamily};
ghost use Rattle.ctl_core.specs.Core.{told_nothing};
ghost use Rattle.ctl_core.specs.Step.{stepped};
ghost use Rattle.ctl_core.specs.declared.acts.CtlEvent.TheVariants as told;
ghost use Rattle.live_controller.specs.Desks.{IsDesk, Keeps, Serves};
ghost use Rattle.live_devices.specs.Reads.{Makes};
ghost use Rattle.live_controller.specs.Doings.{IsForOpen, OpensBy};
ghost use Rattle.live_controller.specs.Found.{hung_by};
ghost use Rattle.live_controller.specs.Links.{notices_at, responses_at, up_at, OthersStay};
ghost use Rattle.live_controller.specs.Standing.{address_at, CanBeTold, IsGiven};

use crate::link::Link;
use ctl_core::{Controller, CtlActs, CtlEvent};
use ctl_law::{begins, steps_follow};
use hist_controller::orders_without_fault;
use ikeless_tree::Peers;
use ikl_base::{Addr, Duplicate, ListOf, NoMemory};
use live_devices::Dialer;
use std::alloc::Global;

/// The controller, its peers, and the links to them.
#[derive(Drop)]
pub(crate) struct Desk {
    pub alloc: Global,
    pub peers: Peers,
    pub controller: Controller,
    pub links: Vec<Link>,
}

// So many links, of which none is up.
fn links_down(alloc: Global, count: usize) -> Result<Vec<Link>, NoMemory>
    ensures size { IfOk result (λ links. length links.items ≡ count) }
    ensures down { IfOk result (λ links. All (λ link. link.is_up ≡ false) links.items) }
{
    let mut links = Vec::new(alloc);
    for _peer in 0..count {
        links.push(Link::begun(alloc, false))?;
    }
    Ok(links)
}

impl Desk {
    /// A controller that was told nothing, and whose sessions are closed.
    pub(crate) fn begun(alloc: Global, peers: Peers) -> Result<Desk, NoMemory>
        requires { OneFamily peers }
        ensures desk { IfOk result IsDesk }
        ensures peers { IfOk result (λ d. d.peers ≡ peers) }
        ensures core { IfOk result (λ d. d.controller ≡ told_nothing peers) }
        ensures down { IfOk result (λ d. (g : ℕ) → up_at d.links.items g ≡ false) }
    {
        begins();
        let links = links_down(alloc, peers.len())?;
        let controller = Controller::new(alloc, peers.copy()?)?;
        Ok(Desk {
            alloc,
            peers,
            controller,
            links,
        })
    }

    /// Whether the session of a peer is open.
    pub(crate) fn is_open(&self, g: usize) -> bool
        ensures { result ≡ up_at self.now.links.items g }
    {
        match self.links.get(g) {
            Some(link) => link.is_up,
            None => false,
        }
    }

    /// The address of a peer.
    pub(crate) fn address_of(&self, g: usize) -> Addr
        ensures { result ≡ address_at self.now.peers g }
    {
        match self.peers.get(g) {
            Some(peer) => peer.address,
            None => Addr::V4([0, 0, 0, 0]),
        }
    }

    /// Tells the controller of an event: what it does then. Want of memory changes nothing.
    pub(crate) fn step(&mut self, e: CtlEvent) -> Result<CtlActs, NoMemory>
        requires desk { IsDesk self.old }
        requires event { CanBeTold self.old.peers self.old.controller e }
        ensures desk { OnOk result (IsDesk self.new) }
        ensures acts { IfOk result (λ acts. acts ≡ (stepped self.old.controller e).acts) }
        ensures given { IfOk result (λ acts. All (IsGiven self.old.peers) acts) }
        ensures core { OnOk result (self.new.controller ≡ (stepped self.old.controller e).core) }
        ensures opens { OnOk result (OpensBy (length self.old.peers) e self.old.controller self.new.controller) }
        ensures ready { IfOk result (λ acts. All (IsForOpen self.new.controller) acts) }
        ensures peers { self.new.peers ≡ self.old.peers }
        ensures links { self.new.links ≡ self.old.links }
        ensures err { OnErr result (self.new.controller ≡ self.old.controller) }
    {
        steps_follow();
        orders_without_fault();
        let mut acts = ListOf::new(self.alloc);
        self.controller.step(e, &mut acts)?;
        Ok(acts)
    }

    // Replaces the link to a peer.
    fn set_link(&mut self, g: usize, link: Link)
        requires { g < length self.old.links.items }
        ensures up { up_at self.new.links.items g ≡ link.is_up }
        ensures link { slice_get self.new.links.items g ≡ Some link }
        ensures others { OthersStay g self.old.links.items self.new.links.items }
        ensures size { length self.new.links.items ≡ length self.old.links.items }
        ensures peers { self.new.peers ≡ self.old.peers }
        ensures core { self.new.controller ≡ self.old.controller }
    {
        self.links[g] = link;
    }

    /// Opens the session of a peer that was dialled.
    pub(crate) fn open(&mut self, g: usize)
        requires { g < length self.old.links.items }
        ensures up { up_at self.new.links.items g ≡ true }
        ensures none { (responses_at self.new.links.items g ≡ []) × (notices_at self.new.links.items g ≡ []) }
        ensures others { OthersStay g self.old.links.items self.new.links.items }
        ensures size { length self.new.links.items ≡ length self.old.links.items }
        ensures peers { self.new.peers ≡ self.old.peers }
        ensures core { self.new.controller ≡ self.old.controller }
    {
        let link = Link::begun(self.alloc, true);
        self.set_link(g, link);
    }

    /// Ends the session of a peer, and hangs it up. What came of it and was not yet taken counts no more.
    pub(crate) fn hang_up<L: Dialer>(&mut self, g: usize, dialer: &mut L)
        requires serves { Serves self.old (L.peers dialer.old) (L.is_up dialer.old) }
        requires known { g < length self.old.peers }
        ensures serves { Serves self.new (L.peers dialer.new) (L.is_up dialer.new) }
        ensures keeps { Keeps self.old self.new }
        ensures down { up_at self.new.links.items g ≡ false }
        ensures core { self.new.controller ≡ self.old.controller }
        ensures others { OthersStay g self.old.links.items self.new.links.items }
        ensures held { (k : ℕ) → Makes (hung_by k (Some (told.Cut g))) (L.held dialer.old k) (L.held dialer.new k) }
        ensures counts { (k : ℕ) → L.faults dialer.new k ≡ L.faults dialer.old k }
    {
        let link = Link::begun(self.alloc, false);
        self.set_link(g, link);
        dialer.hang_up(g);
    }
}
