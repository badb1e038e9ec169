// Packets, datagrams and readings of the clock.
ghost use Rattle.std.specs.Prelude.{◌≡◌, ◌&&◌, not, ◌++◌, ◌∷◌, [], ◌<◌, ◌^◌, All, IfOk, OnOk, flat_map, map, max};
ghost use Rattle.ip_packet.specs.Ttl.{with_ttl as ttl_changed};
ghost use Rattle.hist_acts.specs.declared.act.Act.TheVariants as told_as;
ghost use Rattle.std.specs.List.{list_any};
ghost use Rattle.hist_halves.specs.Sealed.{esp_of as esp_octets};
ghost use Rattle.hist_world.specs.Arrivals.{flipped};
ghost use Rattle.gw_core.specs.Machine.{Arrive, Clock, Let};
ghost use Rattle.world_steps.specs.Nodes.{acts_told, after_event, all_sent, outcome};
ghost use Rattle.world_steps.specs.Worlds.{datagram, node_at, was_sent};
ghost use Rattle.world_steps.specs.Steps as steps;
ghost use Rattle.world_steps.specs.Conditions.{IsWritten, TellsAt};
ghost use Rattle.world_run.specs.Packets.{IsTakenIn};
ghost use Rattle.world_run.specs.Taken.{IsDone, IsPlace, IsRoom, now_done};

use crate::go::Go;
use crate::parts::{Parts, place_of};
use hist_acts::{Act, Acts};
use ikl_base::{Name, NoMemory, Octets};
use ip_packet::set_ttl;
use world_nodes::{GwActs, GwEvent, Node, SentLog, esp_of, flip_bit, has_opened};

// A packet comes from inside.
fn let_in(
    node: &mut Node,
    g: Name,
    octets: Octets,
    sent: &mut SentLog,
    acts: &mut Acts,
) -> Result<Go, NoMemory>
    requires written { All IsWritten (outcome node.old (Let octets)).acts }
    requires few { node.old.handled < 2 ^ 62 }
    ensures go { IfOk result (λ go. go ≡ Go.On) }
    ensures node { OnOk result (node.new ≡ after_event (Let octets) node.old) }
    ensures sent { OnOk result (sent.new ≡ sent.old ++ all_sent (outcome node.old (Let octets)).acts) }
    ensures acts { OnOk result (acts.new ≡ acts.old ++ told_as.Let g octets ∷ acts_told node.old (outcome node.old (Let octets)).acts) }
{
    let done = node.act(GwEvent::Let(octets.as_slice()))?;
    acts.push(Act::Let(g, octets))?;
    node.tell(done, sent, acts)?;
    Ok(Go::On)
}

// Whether what a gateway does at a datagram says that its tag is right, and no datagram with its ESP octets was sent.
fn is_forged(done: &GwActs, sent: &SentLog, octets: &[u8]) -> bool
    ensures { result ≡ (list_any steps.did_open done.now && not (was_sent (esp_octets octets.now) sent.now)) }
{
    has_opened(done) && !sent.was_sent(esp_of(octets))
}

// A datagram comes from outside. It is forged if its tag is right and no datagram with its ESP octets was sent; it isn't carried
// out then.
fn take_in(
    node: &mut Node,
    g: Name,
    octets: Octets,
    sent: &mut SentLog,
    acts: &mut Acts,
) -> Result<Go, NoMemory>
    requires written { All IsWritten (outcome node.old (Arrive octets)).acts }
    requires few { node.old.handled < 2 ^ 62 }
    ensures { IfOk result (λ go. IsTakenIn g octets node.old node.new sent.old sent.new acts.old acts.new go) }
{
    let done = node.act(GwEvent::Arrive(octets.as_slice()))?;
    let forged = is_forged(&done, sent, octets.as_slice());
    acts.push(Act::Arrived(g, octets))?;
    if forged {
        return Ok(Go::Forged);
    }
    node.tell(done, sent, acts)?;
    Ok(Go::On)
}

fn read_clock(
    node: &mut Node,
    now: u32,
    sent: &mut SentLog,
    acts: &mut Acts,
) -> Result<(), NoMemory>
    requires written { All IsWritten (outcome node.old (Clock now)).acts }
    requires few { node.old.handled < 2 ^ 62 }
    ensures node { OnOk result (node.new ≡ after_event (Clock now) node.old) }
    ensures sent { OnOk result (sent.new ≡ sent.old ++ all_sent (outcome node.old (Clock now)).acts) }
    ensures acts { OnOk result (acts.new ≡ acts.old ++ acts_told node.old (outcome node.old (Clock now)).acts) }
{
    let done = node.act(GwEvent::Clock(now))?;
    node.tell(done, sent, acts)
}

fn read_clocks(
    nodes: &mut Vec<Node>,
    now: u32,
    sent: &mut SentLog,
    acts: &mut Acts,
) -> Result<(), NoMemory>
    requires written { All (λ n. All IsWritten (outcome n (Clock now)).acts) nodes.old.items }
    requires few { All (λ n. n.handled < 2 ^ 62) nodes.old.items }
    ensures nodes { OnOk result (nodes.new.items ≡ map (after_event (Clock now)) nodes.old.items) }
    ensures sent { OnOk result (sent.new ≡ sent.old ++ flat_map (λ n. all_sent (outcome n (Clock now)).acts) nodes.old.items) }
    ensures acts { OnOk result (acts.new ≡ acts.old ++ steps.clock_acts now nodes.old.items) }
{
    for i in 0..nodes.len() {
        let node = &mut nodes[i];
        read_clock(node, now, sent, acts)?;
    }
    Ok(())
}

fn with_flip(octets: Octets, offset: u64, bit: u8) -> Octets
    requires { bit < 8 }
    ensures { result ≡ flipped offset bit octets }
{
    let mut items = octets.into_items();
    flip_bit(&mut items, offset, bit);
    Octets::from_items(items)
}

fn with_ttl(octets: Octets, ttl: u8) -> Octets
    ensures { result ≡ ttl_changed ttl octets }
{
    let mut items = octets.into_items();
    set_ttl(&mut items, ttl);
    Octets::from_items(items)
}

impl Parts {
    fn let_at(&mut self, i: usize, g: Name, octets: Octets, acts: &mut Acts) -> Result<Go, NoMemory>
        requires place { IsPlace g i self.old }
        requires can { TellsAt (Let octets) (node_at g self.old) }
        requires room { IsRoom self.old }
        ensures { IfOk result (λ go. IsDone (steps.let_at octets self.old (node_at g self.old)) acts.old acts.new self.new go) }
    {
        let node = &mut self.nodes[i];
        let_in(node, g, octets, &mut self.sent, acts)
    }

    pub(crate) fn on_let(
        &mut self,
        g: Name,
        octets: Octets,
        acts: &mut Acts,
    ) -> Result<Go, NoMemory>
        requires can { TellsAt (Let octets) (node_at g self.old) }
        requires room { IsRoom self.old }
        ensures { IfOk result (λ go. IsDone (steps.let_at octets self.old (node_at g self.old)) acts.old acts.new self.new go) }
    {
        match place_of(&self.nodes, &g) {
            None => Ok(Go::On),
            Some(i) => self.let_at(i, g, octets, acts),
        }
    }

    fn arrive_at(
        &mut self,
        i: usize,
        g: Name,
        octets: Octets,
        acts: &mut Acts,
    ) -> Result<Go, NoMemory>
        requires place { IsPlace g i self.old }
        requires can { TellsAt (Arrive octets) (node_at g self.old) }
        requires room { IsRoom self.old }
        ensures { IfOk result (λ go. IsDone (steps.arrive_at octets self.old (node_at g self.old)) acts.old acts.new self.new go) }
    {
        let node = &mut self.nodes[i];
        take_in(node, g, octets, &mut self.sent, acts)
    }

    pub(crate) fn on_arrive(
        &mut self,
        g: Name,
        octets: Octets,
        acts: &mut Acts,
    ) -> Result<Go, NoMemory>
        requires can { TellsAt (Arrive octets) (node_at g self.old) }
        requires room { IsRoom self.old }
        ensures { IfOk result (λ go. IsDone (steps.arrive_at octets self.old (node_at g self.old)) acts.old acts.new self.new go) }
    {
        match place_of(&self.nodes, &g) {
            None => Ok(Go::On),
            Some(i) => self.arrive_at(i, g, octets, acts),
        }
    }

    pub(crate) fn on_arrive_sent(
        &mut self,
        g: Name,
        k: u64,
        acts: &mut Acts,
    ) -> Result<Go, NoMemory>
        requires can { TellsAt (Arrive (datagram k self.old.sent)) (node_at g self.old) }
        requires room { IsRoom self.old }
        ensures { IfOk result (λ go.
            IsDone (steps.arrive_at (datagram k self.old.sent) self.old (node_at g self.old)) acts.old acts.new self.new go) }
    {
        let octets = self.sent.datagram(self.alloc, k)?;
        self.on_arrive(g, octets, acts)
    }

    pub(crate) fn on_arrive_flip(
        &mut self,
        g: Name,
        k: u64,
        offset: u64,
        bit: u8,
        acts: &mut Acts,
    ) -> Result<Go, NoMemory>
        requires can { TellsAt (Arrive (flipped offset bit (datagram k self.old.sent))) (node_at g self.old) }
        requires room { IsRoom self.old }
        requires bit { bit < 8 }
        ensures { IfOk result (λ go.
            IsDone (steps.arrive_at (flipped offset bit (datagram k self.old.sent)) self.old (node_at g self.old)) acts.old acts.new self.new go) }
    {
        let octets = self.sent.datagram(self.alloc, k)?;
        self.on_arrive(g, with_flip(octets, offset, bit), acts)
    }

    pub(crate) fn on_arrive_ttl(
        &mut self,
        g: Name,
        k: u64,
        ttl: u8,
        acts: &mut Acts,
    ) -> Result<Go, NoMemory>
        requires can { TellsAt (Arrive (ttl_changed ttl (datagram k self.old.sent))) (node_at g self.old) }
        requires room { IsRoom self.old }
        ensures { IfOk result (λ go.
            IsDone (steps.arrive_at (ttl_changed ttl (datagram k self.old.sent)) self.old (node_at g self.old)) acts.old acts.new self.new go) }
    {
        let octets = self.sent.datagram(self.alloc, k)?;
        self.on_arrive(g, with_ttl(octets, ttl), acts)
    }

    pub(crate) fn on_now(&mut self, now: u32, acts: &mut Acts) -> Result<Go, NoMemory>
        requires can { All (λ n. All IsWritten (outcome n (Clock now)).acts) self.old.nodes }
        requires room { IsRoom self.old }
        ensures { IfOk result (λ go. IsDone (now_done now self.old) acts.old acts.new self.new go) }
    {
        let clock = self.clock.max(now);
        acts.push(Act::Now(clock))?;
        read_clocks(&mut self.nodes, now, &mut self.sent, acts)?;
        self.clock = clock;
        Ok(Go::On)
    }
}
