// A gateway.
ghost use Rattle.std.specs.Prelude.{◌≡◌, ◌++◌, Ok, IfOk, OnOk, OnErr};
ghost use Rattle.ikeless_tree.specs.declared.order.Order.{Order};
ghost use Rattle.reply_table.specs.Order.{ask_of};
ghost use Rattle.reply_table.specs.Reply.{reply};
ghost use Rattle.reply_table.specs.declared.ask.Ask.{Ask};
ghost use Rattle.gw_requests.specs.Requests.{CanTell, IsAnswered, handled};
ghost use Rattle.gw_tables.specs.Kept.{session_taken, tree_of};
ghost use Rattle.gw_tables.specs.Sound.{IsSound};
ghost use Rattle.gw_packets.specs.Change.{Fits, planned};
ghost use Rattle.gw_packets.specs.Outbound.{let_in};
ghost use Rattle.gw_packets.specs.Inbound.{arrive as arrived};
ghost use Rattle.gw_packets.specs.Looks.{clock_read};
ghost use Rattle.gw_core.specs.Machine.{CanBoot, IsEvent, Handle, booted, seen, stepped, told, with_kept};

use crate::event::GwEvent;
use crate::tell::append_done;
use gw_packets::{Config, Plan, carry_out, plan_arrive, plan_clock, plan_let};
use gw_requests::{GwActs, handle};
use gw_tables::Tables;
use ikl_base::NoMemory;
use std::alloc::Global;
use std::marker::Model;

/// A gateway: its address and its last number, and what it keeps.
#[derive(Debug, Drop)]
pub struct Gateway {
    alloc: Global,
    config: Config,
    tables: Tables,
}

impl Model for Gateway {
    ghost use Rattle.gw_core.specs.Machine.{Core, CanBoot};

    ghost Value = { Core };

    ghost view = { λ g. record { config = g.config; kept = g.tables } };

    ghost invariant = { λ g. CanBoot g.config };
}

impl Gateway {
    /// A gateway that has just started: it keeps nothing, and its clock is 0. Its last number is 1 to 4,294,967,295.
    pub fn booted(alloc: Global, c: Config) -> Result<Gateway, NoMemory>
        requires { CanBoot c }
        ensures { IfOk result (λ g. g ≡ booted c) }
    {
        Ok(Gateway {
            alloc,
            config: c,
            tables: Tables::booted(alloc)?,
        })
    }

    /// Its address and its last number.
    pub fn config(&self) -> Config
        ensures config { result ≡ self.now.config }
        ensures bounds { CanBoot result }
    {
        self.config
    }

    /// The clock, in seconds.
    pub fn clock(&self) -> u32
        ensures { result ≡ self.now.kept.clock }
    {
        self.tables.clock()
    }

    /// One event: appends what the gateway does. Want of memory changes nothing.
    ///
    /// A request that was read speaks of entries without a fault. One that wasn't has a fault whose path, if any, is UTF-8. The
    /// response that carries the reply to an order is read as its answer, and every reply can be written.
    pub fn step(&mut self, e: GwEvent, acts: &mut GwActs) -> Result<(), NoMemory>
        requires { IsEvent (seen e) }
        ensures acts { OnOk result (acts.new ≡ acts.old ++ (stepped self.old.config (seen e.entry) self.old.kept).acts) }
        ensures state { OnOk result (self.new ≡ with_kept (stepped self.old.config (seen e.entry) self.old.kept).kept self.old) }
        ensures err { OnErr result ((self.new ≡ self.old) × (acts.new ≡ acts.old)) }
        ensures response { (o : Order) → seen e.entry ≡ Handle (Ok (ask_of o))
            → OnOk result (IsAnswered o (reply (tree_of self.old.kept) (ask_of o))) }
        ensures tree { (ask : Ask) → seen e.entry ≡ Handle (Ok ask) → OnOk result (CanTell (tree_of self.old.kept)) }
        ensures sound { IsSound self.old.kept }
    {
        self.tables.are_sound();
        match e {
            GwEvent::Let(octets) => self.let_in(octets, acts),
            GwEvent::Arrive(octets) => self.arrive(octets, acts),
            GwEvent::Clock(now) => self.read_clock(now, acts),
            GwEvent::Handle(request) => handle(self.alloc, &mut self.tables, request, acts),
            GwEvent::SessionTaken => {
                self.tables.session();
                Ok(())
            }
        }
    }

    fn let_in(&mut self, octets: &[u8], acts: &mut GwActs) -> Result<(), NoMemory>
        ensures acts { OnOk result (acts.new ≡ acts.old ++ (told (let_in self.old.config.seq_last octets.now self.old.kept)).acts) }
        ensures state { OnOk result (self.new ≡ with_kept (told (let_in self.old.config.seq_last octets.now self.old.kept)).kept self.old) }
        ensures err { OnErr result ((self.new ≡ self.old) × (acts.new ≡ acts.old)) }
    {
        let plan = plan_let(self.alloc, &mut self.tables, &self.config, octets)?;
        self.commit(plan, acts)
    }

    fn arrive(&mut self, octets: &[u8], acts: &mut GwActs) -> Result<(), NoMemory>
        ensures acts { OnOk result (acts.new ≡ acts.old ++ (told (arrived self.old.config.address octets.now self.old.kept)).acts) }
        ensures state { OnOk result (self.new ≡ with_kept (told (arrived self.old.config.address octets.now self.old.kept)).kept self.old) }
        ensures err { OnErr result ((self.new ≡ self.old) × (acts.new ≡ acts.old)) }
    {
        let plan = plan_arrive(self.alloc, &mut self.tables, &self.config, octets)?;
        self.commit(plan, acts)
    }

    fn read_clock(&mut self, now: u32, acts: &mut GwActs) -> Result<(), NoMemory>
        ensures acts { OnOk result (acts.new ≡ acts.old ++ (told (clock_read now self.old.kept)).acts) }
        ensures state { OnOk result (self.new ≡ with_kept (told (clock_read now self.old.kept)).kept self.old) }
        ensures err { OnErr result ((self.new ≡ self.old) × (acts.new ≡ acts.old)) }
    {
        let plan = plan_clock(self.alloc, &self.tables, now)?;
        self.commit(plan, acts)
    }

    // Tells what is planned, and then carries it out.
    fn commit(&mut self, plan: Plan, acts: &mut GwActs) -> Result<(), NoMemory>
        requires { Fits plan.change self.old.kept }
        ensures acts { OnOk result (acts.new ≡ acts.old ++ (told (planned plan self.old.kept)).acts) }
        ensures state { OnOk result (self.new ≡ with_kept (told (planned plan self.old.kept)).kept self.old) }
        ensures err { OnErr result ((self.new ≡ self.old) × (acts.new ≡ acts.old)) }
    {
        let Plan { done, change } = plan;
        append_done(self.alloc, acts, done)?;
        carry_out(&mut self.tables, change);
        Ok(())
    }
}
