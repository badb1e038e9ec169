// Sessions and what is read in them.
ghost use Rattle.std.specs.Prelude.{◌≡◌, ◌+◌, ◌++◌, ◌∷◌, [], ◌-◌, ◌<◌, ◌^◌, List, Option, IfOk, OnOk};
ghost use Rattle.ikeless_tree.specs.declared.order.Answer.{Answer as Said};
ghost use Rattle.ikeless_tree.specs.declared.order.Notice.{Notice as Noted};
ghost use Rattle.ikeless_tree.specs.declared.order.Order.{Order as Given};
ghost use Rattle.hist_acts.specs.declared.act.Act.TheVariants as told_as;
ghost use Rattle.hist_wire.specs.Wire.{first_octets};
ghost use Rattle.ctl_core.specs.declared.acts.CtlEvent.TheVariants as comes;
ghost use Rattle.world_steps.specs.Nodes.{restarted};
ghost use Rattle.world_steps.specs.Worlds.{node_at, number_of};
ghost use Rattle.world_steps.specs.Steps as steps;
ghost use Rattle.world_steps.specs.Conditions.{AreNamed, Answers, Asks, Gives, Notices, at};
ghost use Rattle.world_run.specs.Sessions.{IsCutIn, IsOpenedIn, answer_heard, notice_heard};
ghost use Rattle.world_run.specs.Taken.{IsDone, IsPlace, IsRoom};

use crate::go::Go;
use crate::parts::{Parts, place_of};
use ctl_core::CtlEvent;
use hist_acts::{Act, Acts};
use ikeless_tree::{Answer, Lane, Notice};
use ikl_base::{Duplicate, Name, NoMemory, Octets};
use world_nodes::Node;

fn restart(node: &mut Node, g: Name, now: u32, acts: &mut Acts) -> Result<Go, NoMemory>
    ensures go { IfOk result (λ go. go ≡ Go.On) }
    ensures node { OnOk result (node.new ≡ restarted now node.old) }
    ensures acts { OnOk result (acts.new ≡ acts.old ++ told_as.Boot g ∷ []) }
{
    node.restart(now)?;
    acts.push(Act::Boot(g))?;
    Ok(Go::On)
}

// Opens a session where none is open, and says whether it did.
fn open_session(node: &mut Node, g: Name, acts: &mut Acts) -> Result<bool, NoMemory>
    requires { node.old.pipe.openings < 2 ^ 32 - 1 }
    ensures { IfOk result (λ did. IsOpenedIn g node.old node.new acts.old acts.new did) }
{
    if node.is_open() {
        return Ok(false);
    }
    node.open_session()?;
    acts.push(Act::Opened(g, node.openings()))?;
    Ok(true)
}

// Cuts a session where one is open, and says whether it did.
fn cut_session(node: &mut Node, g: Name, acts: &mut Acts) -> Result<bool, NoMemory>
    ensures { IfOk result (λ did. IsCutIn g node.old node.new acts.old acts.new did) }
{
    if !node.is_open() {
        return Ok(false);
    }
    node.cut();
    acts.push(Act::Cut(g, node.openings()))?;
    Ok(true)
}

fn copy_answer(answer: &Answer) -> Result<Answer, NoMemory>
    ensures { IfOk result (λ a. a ≡ answer.now) }
{
    Ok(Answer {
        status: answer.status,
        tag: answer.tag,
        names: answer.names.copy()?,
    })
}

fn tell_answer(node: &Node, g: Name, answer: &Answer, acts: &mut Acts) -> Result<(), NoMemory>
    ensures { OnOk result (acts.new ≡ acts.old ++ told_as.Answered g node.now.pipe.openings node.now.answered answer.now ∷ []) }
{
    acts.push(Act::Answered(g, node.openings(), node.answered(), copy_answer(answer)?))
}

fn tell_notice(node: &Node, g: Name, notice: &Notice, acts: &mut Acts) -> Result<(), NoMemory>
    ensures { OnOk result (acts.new ≡ acts.old ++ told_as.Heard g node.now.pipe.openings notice.now ∷ []) }
{
    acts.push(Act::Heard(g, node.openings(), notice.copy()?))
}

impl Parts {
    fn boot_at(&mut self, i: usize, g: Name, acts: &mut Acts) -> Result<Go, NoMemory>
        requires { IsPlace g i self.old }
        ensures { IfOk result (λ go. IsDone (steps.boot_at self.old (node_at g self.old)) acts.old acts.new self.new go) }
    {
        let node = &mut self.nodes[i];
        restart(node, g, self.clock, acts)
    }

    pub(crate) fn on_boot(&mut self, g: Name, acts: &mut Acts) -> Result<Go, NoMemory>
        ensures { IfOk result (λ go. IsDone (steps.boot_at self.old (node_at g self.old)) acts.old acts.new self.new go) }
    {
        match place_of(&self.nodes, &g) {
            None => Ok(Go::On),
            Some(i) => self.boot_at(i, g, acts),
        }
    }

    // Opens a session of the gateway at a place.
    fn open_at(&mut self, i: usize, g: Name, acts: &mut Acts) -> Result<Go, NoMemory>
        requires place { IsPlace g i self.old }
        requires gives { Gives (comes.Opened i) self.old }
        requires named { AreNamed self.old }
        requires room { IsRoom self.old }
        ensures { IfOk result (λ go. IsDone (steps.open_at self.old (node_at g self.old)) acts.old acts.new self.new go) }
    {
        let node = &mut self.nodes[i];
        if open_session(node, g, acts)? {
            self.control(CtlEvent::Opened(i), acts)
        } else {
            Ok(Go::On)
        }
    }

    pub(crate) fn on_open(&mut self, g: Name, acts: &mut Acts) -> Result<Go, NoMemory>
        requires gives { Gives (comes.Opened (number_of g self.old)) self.old }
        requires named { AreNamed self.old }
        requires room { IsRoom self.old }
        ensures { IfOk result (λ go. IsDone (steps.open_at self.old (node_at g self.old)) acts.old acts.new self.new go) }
    {
        match place_of(&self.nodes, &g) {
            None => Ok(Go::On),
            Some(i) => self.open_at(i, g, acts),
        }
    }

    fn cut_at(&mut self, i: usize, g: Name, acts: &mut Acts) -> Result<Go, NoMemory>
        requires place { IsPlace g i self.old }
        requires gives { Gives (comes.Cut i) self.old }
        requires named { AreNamed self.old }
        requires room { IsRoom self.old }
        ensures { IfOk result (λ go. IsDone (steps.cut_at self.old (node_at g self.old)) acts.old acts.new self.new go) }
    {
        let node = &mut self.nodes[i];
        if cut_session(node, g, acts)? {
            self.control(CtlEvent::Cut(i), acts)
        } else {
            Ok(Go::On)
        }
    }

    pub(crate) fn on_cut(&mut self, g: Name, acts: &mut Acts) -> Result<Go, NoMemory>
        requires gives { Gives (comes.Cut (number_of g self.old)) self.old }
        requires named { AreNamed self.old }
        requires room { IsRoom self.old }
        ensures { IfOk result (λ go. IsDone (steps.cut_at self.old (node_at g self.old)) acts.old acts.new self.new go) }
    {
        match place_of(&self.nodes, &g) {
            None => Ok(Go::On),
            Some(i) => self.cut_at(i, g, acts),
        }
    }

    fn down_at(&mut self, i: usize, g: &Name, acts: &mut Acts) -> Result<Go, NoMemory>
        requires place { IsPlace g.now i self.old }
        requires asks { (x : Option Given) × at (λ n. Asks n x) (node_at g.now self.old) }
        requires room { IsRoom self.old }
        ensures { (x : Option Given) → at (λ n. Asks n x) (node_at g.now self.old)
            → IfOk result (λ go. IsDone (steps.down_at x self.old (node_at g.now self.old)) acts.old acts.new self.new go) }
    {
        let node = &mut self.nodes[i];
        node.handle(&mut self.sent, acts)?;
        Ok(Go::On)
    }

    pub(crate) fn on_down(&mut self, g: Name, acts: &mut Acts) -> Result<Go, NoMemory>
        requires asks { (x : Option Given) × at (λ n. Asks n x) (node_at g self.old) }
        requires room { IsRoom self.old }
        ensures { (x : Option Given) → at (λ n. Asks n x) (node_at g self.old)
            → IfOk result (λ go. IsDone (steps.down_at x self.old (node_at g self.old)) acts.old acts.new self.new go) }
    {
        match place_of(&self.nodes, &g) {
            None => Ok(Go::On),
            Some(i) => self.down_at(i, &g, acts),
        }
    }

    // The next answer, to the order that the controller expects one for.
    fn next_answer(&mut self, i: usize, g: &Name) -> Result<Option<Answer>, NoMemory>
        requires place { IsPlace g.now i self.old }
        requires room { IsRoom self.old }
        ensures { (x : Option Said) → at (λ n. Answers n self.old x) (node_at g.now self.old)
            → IfOk result (λ y. (y ≡ x) × (self.new ≡ answer_heard x g.now self.old)) }
    {
        match self.controller.expects(i) {
            None => Ok(None),
            Some(order) => {
                let node = &mut self.nodes[i];
                node.hear_answer(order)
            }
        }
    }

    fn up_at(&mut self, i: usize, g: Name, acts: &mut Acts) -> Result<Go, NoMemory>
        requires place { IsPlace g i self.old }
        requires answers { (x : Option Said) × at (λ n. Answers n self.old x) (node_at g self.old) }
        requires named { AreNamed self.old }
        requires room { IsRoom self.old }
        ensures { (x : Option Said) → at (λ n. Answers n self.old x) (node_at g self.old)
            → IfOk result (λ go. IsDone (steps.up_at x self.old (node_at g self.old)) acts.old acts.new self.new go) }
    {
        match self.next_answer(i, &g)? {
            None => Ok(Go::On),
            Some(answer) => {
                tell_answer(&self.nodes[i], g, &answer, acts)?;
                self.control(CtlEvent::Answered(i, answer), acts)
            }
        }
    }

    pub(crate) fn on_up(&mut self, g: Name, acts: &mut Acts) -> Result<Go, NoMemory>
        requires answers { (x : Option Said) × at (λ n. Answers n self.old x) (node_at g self.old) }
        requires named { AreNamed self.old }
        requires room { IsRoom self.old }
        ensures { (x : Option Said) → at (λ n. Answers n self.old x) (node_at g self.old)
            → IfOk result (λ go. IsDone (steps.up_at x self.old (node_at g self.old)) acts.old acts.new self.new go) }
    {
        match place_of(&self.nodes, &g) {
            None => Ok(Go::On),
            Some(i) => self.up_at(i, g, acts),
        }
    }

    // The next notice.
    fn next_notice(&mut self, i: usize, g: &Name) -> Result<Option<Notice>, NoMemory>
        requires { IsPlace g.now i self.old }
        ensures { (x : Option Noted) → at (λ n. Notices n self.old x) (node_at g.now self.old)
            → IfOk result (λ y. (y ≡ x) × (self.new ≡ notice_heard x g.now self.old)) }
    {
        let node = &mut self.nodes[i];
        node.hear_notice()
    }

    fn note_at(&mut self, i: usize, g: Name, acts: &mut Acts) -> Result<Go, NoMemory>
        requires place { IsPlace g i self.old }
        requires notices { (x : Option Noted) × at (λ n. Notices n self.old x) (node_at g self.old) }
        requires named { AreNamed self.old }
        requires room { IsRoom self.old }
        ensures { (x : Option Noted) → at (λ n. Notices n self.old x) (node_at g self.old)
            → IfOk result (λ go. IsDone (steps.note_at x self.old (node_at g self.old)) acts.old acts.new self.new go) }
    {
        match self.next_notice(i, &g)? {
            None => Ok(Go::On),
            Some(notice) => {
                tell_notice(&self.nodes[i], g, &notice, acts)?;
                self.control(CtlEvent::Noticed(i, notice), acts)
            }
        }
    }

    pub(crate) fn on_note(&mut self, g: Name, acts: &mut Acts) -> Result<Go, NoMemory>
        requires notices { (x : Option Noted) × at (λ n. Notices n self.old x) (node_at g self.old) }
        requires named { AreNamed self.old }
        requires room { IsRoom self.old }
        ensures { (x : Option Noted) → at (λ n. Notices n self.old x) (node_at g self.old)
            → IfOk result (λ go. IsDone (steps.note_at x self.old (node_at g self.old)) acts.old acts.new self.new go) }
    {
        match place_of(&self.nodes, &g) {
            None => Ok(Go::On),
            Some(i) => self.note_at(i, g, acts),
        }
    }

    // The first octets of a lane; none where there is no such gateway.
    fn shown_at(&self, g: &Name, lane: Lane) -> Result<Octets, NoMemory>
        ensures { IfOk result (λ o. o ≡ first_octets lane (steps.pipe_of (node_at g.now self.now))) }
    {
        match place_of(&self.nodes, g) {
            None => Ok(Octets::new(self.alloc)),
            Some(i) => self.nodes[i].shown(lane),
        }
    }

    pub(crate) fn on_wire(&mut self, g: Name, lane: Lane, acts: &mut Acts) -> Result<Go, NoMemory>
        ensures { IfOk result (λ go. IsDone (steps.wire_at g lane self.old (node_at g self.old)) acts.old acts.new self.new go) }
    {
        let octets = self.shown_at(&g, lane)?;
        acts.push(Act::Wire(g, lane, octets))?;
        Ok(Go::On)
    }
}
