// Looks at all halves where the clock is raised.
ghost use Rattle.std.specs.Prelude.{◌≡◌, IfOk};
ghost use Rattle.life_count.specs.Lifetime.{event_at};
ghost use Rattle.hist_gateway.specs.Places.{names_reached};
ghost use Rattle.gw_packets.specs.Change.{Fits, planned};
ghost use Rattle.gw_packets.specs.Looks.{clock_read, expiries};

use crate::done::{Done, Notices};
use crate::notices::{add_expiry, add_gone};
use crate::plan::{Plan, TableChange};
use gw_tables::Tables;
use ikeless_tree::Names;
use ikl_base::{Duplicate, NoMemory};
use life_count::{Life, LifeEvent};
use sad_store::SadStore;
use std::alloc::Global;

// What a look at this clock finds.
fn event_now(life: &Life, clock: u32) -> LifeEvent
    ensures { result ≡ event_at clock life.now }
{
    let mut looked = life.copy();
    looked.tick(clock)
}

// The halves that reach a hard limit.
fn reached(alloc: Global, halves: &SadStore, clock: u32) -> Result<Names, NoMemory>
    ensures { IfOk result (λ names. names ≡ names_reached clock halves.now) }
{
    let mut names = Names::new(alloc);
    for i in 0..halves.len() {
        let x = halves.half(i);
        add_gone(&mut names, &x.entry.name, event_now(&x.life, clock))?;
    }
    Ok(names)
}

// What is told of all halves.
fn told(alloc: Global, halves: &SadStore, clock: u32) -> Result<Notices, NoMemory>
    ensures { IfOk result (λ notices. notices ≡ expiries clock halves.now) }
{
    let mut notices = Notices::new(alloc);
    for i in 0..halves.len() {
        let x = halves.half(i);
        let event = event_now(&x.life, clock);
        add_expiry(&mut notices, &x.entry.name, x.life.current(clock), event)?;
    }
    Ok(notices)
}

/// What a gateway does at a reading of the clock, in seconds, with all the memory that it needs. A reading that doesn't raise the
/// clock does nothing.
pub fn plan_clock(alloc: Global, tables: &Tables, t: u32) -> Result<Plan, NoMemory>
    ensures plan { IfOk result (λ q. planned q tables.now ≡ clock_read t tables.now) }
    ensures fits { IfOk result (λ q. Fits q.change tables.now) }
{
    if t <= tables.clock() {
        return Ok(Plan {
            done: Done {
                answer: None,
                gone: Names::new(alloc),
                notices: Notices::new(alloc),
            },
            change: TableChange::Nothing,
        });
    }
    let gone = reached(alloc, tables.halves(), t)?;
    Ok(Plan {
        change: TableChange::Look {
            clock: t,
            gone: gone.copy()?,
        },
        done: Done {
            answer: None,
            gone,
            notices: told(alloc, tables.halves(), t)?,
        },
    })
}
