// An event, and what it makes of the gateways and their controller.
ghost use Rattle.std.specs.Prelude.{◌≡◌, ◌-◌, ◌<◌, ◌^◌, IfOk};
ghost use Rattle.world_steps.specs.Steps.{Found, step, taken};
ghost use Rattle.world_steps.specs.Conditions.{AreNamed, CanStep, CanTake};
ghost use Rattle.world_run.specs.Taken.{IsDone, IsRoom};

use crate::go::Go;
use crate::parts::Parts;
use hist_acts::{Act, Acts, Event};
use ikeless_tree::Command;
use ikl_base::NoMemory;

impl Parts {
    // What an event makes of them.
    fn take_event(&mut self, e: Event, acts: &mut Acts) -> Result<Go, NoMemory>
        requires can { (r : Found) × CanTake r e self.old }
        requires named { AreNamed self.old }
        requires room { IsRoom self.old }
        ensures { (r : Found) → CanTake r e self.old → IfOk result (λ go. IsDone (taken r e self.old) acts.old acts.new self.new go) }
    {
        match e {
            Event::Let(g, octets) => self.on_let(g, octets, acts),
            Event::Arrive(g, octets) => self.on_arrive(g, octets, acts),
            Event::ArriveSent(g, k) => self.on_arrive_sent(g, k, acts),
            Event::ArriveFlip(g, k, offset, bit) => self.on_arrive_flip(g, k, offset, bit, acts),
            Event::ArriveTtl(g, k, ttl) => self.on_arrive_ttl(g, k, ttl, acts),
            Event::Now(now) => self.on_now(now, acts),
            Event::Boot(g) => self.on_boot(g, acts),
            Event::Open(g) => self.on_open(g, acts),
            Event::Cut(g) => self.on_cut(g, acts),
            Event::Down(g) => self.on_down(g, acts),
            Event::Up(g) => self.on_up(g, acts),
            Event::Note(g) => self.on_note(g, acts),
            Event::Wire(g, lane) => self.on_wire(g, lane, acts),
            Event::Policy(gateway, list) => self.command(Command::Policy { gateway, list }, acts),
            Event::Tunnel(spec) => self.command(Command::Tunnel(spec), acts),
            Event::End(reqid) => self.command(Command::End(reqid), acts),
            Event::Rekey(reqid) => self.command(Command::Rekey(reqid), acts),
            Event::Keys(key) => self.command(Command::Keys(key), acts),
        }
    }

    /// The whole block of an event: its number, and then its acts.
    pub(crate) fn take(&mut self, e: Event, acts: &mut Acts) -> Result<Go, NoMemory>
        requires can { (r : Found) × CanStep r e self.old }
        requires few { self.old.taken < 2 ^ 32 - 1 }
        ensures { (r : Found) → CanStep r e self.old → IfOk result (λ go. IsDone (step r e self.old) acts.old acts.new self.new go) }
    {
        self.taken += 1;
        acts.push(Act::Took(self.taken))?;
        self.take_event(e, acts)
    }
}
