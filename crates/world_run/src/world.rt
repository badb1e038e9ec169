// The whole of a script in one state, and its steps.
ghost use Rattle.std.specs.Prelude.{◌≡◌, ◌+◌, ◌++◌, ◌-◌, ◌<◌, ◌^◌, true, false, IfOk, IsErr, OnErr, OnOk};
ghost use Rattle.hist_world.specs.Block.{Past, nothing};
ghost use Rattle.acts_spell.specs.Spelled.{IsSpelledEvent, IsSpelledHeader};
ghost use Rattle.world_law.specs.Stands.{StandsFor};
ghost use Rattle.world_steps.specs.Steps.{Found, step as stepped};
ghost use Rattle.world_steps.specs.Conditions.{CanStep};
ghost use Rattle.world_run.specs.Kept.{Stepped, does_go_on};
ghost use Rattle.world_run.specs.Taken.{IsDone};

use crate::go::Go;
use crate::parts::Parts;
use hist_acts::{Acts, Event, Header};
use ikl_base::{ListOf, NoMemory};
use std::alloc::Global;
use std::marker::Model;
use world_law::{begins, can_step, steps_follow};

/// The gateways of a script, their controller and all that is between them.
///
/// Contracts see its header, what is kept, and whether it is spent: want of memory spends it, and a forged arrival. Of a spent
/// world every later step answers that memory ran out. One that isn't spent stands for what happened.
#[derive(Drop)]
pub struct World {
    alloc: Global,
    header: Header,
    parts: Parts,
    is_spent: bool,
}

impl Model for World {
    ghost use Rattle.std.specs.Prelude.{◌≡◌, false};
    ghost use Rattle.world_run.specs.Kept.{IsStanding, Whole};

    ghost Value = { Whole };

    ghost view = { λ w. record { header = w.header; world = w.parts; is_spent = w.is_spent } };

    ghost invariant = { λ w. w.is_spent ≡ false → IsStanding w.header w.parts };
}

// Room for the acts of most blocks: the event is taken, it happens, and it is answered.
const USUAL_ACTS: usize = 3;

// Takes an event, and adds its whole block or nothing.
fn take_whole(alloc: Global, parts: &mut Parts, e: Event, acts: &mut Acts) -> Result<Go, NoMemory>
    requires can { (r : Found) × CanStep r e parts.old }
    requires few { parts.old.taken < 2 ^ 32 - 1 }
    ensures done { (r : Found) → CanStep r e parts.old → IfOk result (λ go. IsDone (stepped r e parts.old) acts.old acts.new parts.new go) }
    ensures err { OnErr result (acts.new ≡ acts.old) }
{
    let mut block = ListOf::from_items(Vec::with_capacity(alloc, USUAL_ACTS)?);
    let go = parts.take(e, &mut block)?;
    acts.append(block)?;
    Ok(go)
}

fn goes_on(go: Go) -> bool
    ensures { result ≡ does_go_on go }
{
    match go {
        Go::On => true,
        Go::Forged => false,
    }
}

impl World {
    /// Nothing has happened.
    ///
    /// The header is one that a line can spell: 1 to 16 gateways with distinct names and addresses of one family.
    pub fn new(alloc: Global, header: Header) -> Result<World, NoMemory>
        requires { IsSpelledHeader header }
        ensures start { IfOk result (λ w. StandsFor header nothing w.world) }
        ensures header { IfOk result (λ w. w.header ≡ header) }
        ensures on { IfOk result (λ w. w.is_spent ≡ false) }
        ensures count { IfOk result (λ w. w.world.taken ≡ 0) }
    {
        begins();
        let parts = Parts::of(alloc, &header)?;
        Ok(World {
            alloc,
            header,
            parts,
            is_spent: false,
        })
    }

    /// The header of the script.
    pub fn header(&self) -> &Header
        ensures { result.now ≡ self.now.header }
    {
        &self.header
    }

    /// Takes an event: appends its block, and says whether the script goes on.
    ///
    /// The event is one that a line under the header can spell, and fewer than 4,294,967,295 were taken. Want of memory leaves
    /// `acts` as it was.
    pub fn step(&mut self, e: Event, acts: &mut Acts) -> Result<Go, NoMemory>
        requires event { IsSpelledEvent self.old.header.gateways e }
        requires few { self.old.world.taken < 2 ^ 32 - 1 }
        ensures law { (p : Past) → StandsFor self.old.header p self.old.world → self.old.is_spent ≡ false
            → IfOk result (Stepped self.old.header p e acts.old acts.new self.new.world) }
        ensures on { IfOk result (λ go. go ≡ Go.On → self.new.is_spent ≡ false) }
        ensures spent { self.old.is_spent ≡ true → IsErr result }
        ensures count { IfOk result (λ go. go ≡ Go.On → self.new.world.taken ≡ self.old.world.taken + 1) }
        ensures header { self.new.header ≡ self.old.header }
        ensures err { OnErr result ((acts.new ≡ acts.old) × (self.new.is_spent ≡ true)) }
    {
        if self.is_spent {
            return Err(NoMemory);
        }
        can_step();
        steps_follow();
        self.is_spent = true;
        let go = take_whole(self.alloc, &mut self.parts, e, acts)?;
        self.is_spent = !goes_on(go);
        Ok(go)
    }
}
