// Notices, and what a use of a half tells.
ghost use Rattle.std.specs.Prelude.{◌≡◌, ◌++◌, ◌∷◌, [], Some, None, Option, List, ℕ, IfOk, OnOk};
ghost use Rattle.ikeless_tree.specs.declared.order.Notice.TheVariants as notices;
ghost use Rattle.ikeless_tree.specs.declared.drops.DropWhy.TheVariants as why;
ghost use Rattle.life_count.specs.Lifetime.{counted, counts_of, event_at, expiry};
ghost use Rattle.gw_tables.specs.Kept.{Kept};
ghost use Rattle.gw_packets.specs.declared.done.PacketAnswer.TheVariants as answers;
ghost use Rattle.gw_packets.specs.Change.{Fits, applied, going_by, planned};
ghost use Rattle.gw_packets.specs.Looks.{gone_by};
ghost use Rattle.gw_packets.specs.Outcome.{outcome};

use crate::done::{Done, Notices, PacketAnswer};
use crate::plan::{Plan, TableChange};
use ikeless_tree::{DropWhy, Limits, Names, Notice};
use ikl_base::{Duplicate, Name, NoMemory};
use life_count::{Life, LifeEvent};
use std::alloc::Global;

fn one_notice(alloc: Global, n: Notice) -> Result<Notices, NoMemory>
    ensures { IfOk result (λ ns. ns ≡ n ∷ []) }
{
    let mut notices = Notices::new(alloc);
    notices.push(n)?;
    Ok(notices)
}

// A packet is dropped and told of.
pub(crate) fn tell(
    alloc: Global,
    why: DropWhy,
    n: Notice,
    change: TableChange,
) -> Result<Plan, NoMemory>
    ensures { IfOk result (λ p. p ≡ record {
      done = record { answer = Some (answers.Drop why); gone = []; notices = n ∷ [] };
      change =
          change;
    }) }
{
    Ok(Plan {
        done: Done {
            answer: Some(PacketAnswer::Drop(why)),
            gone: Names::new(alloc),
            notices: one_notice(alloc, n)?,
        },
        change,
    })
}

// What a look at this clock finds after one more use.
pub(crate) fn event_after(life: &Life, octets: u64, clock: u32) -> (Limits, LifeEvent)
    ensures counts { result.0 ≡ counts_of clock (counted octets clock life.now) }
    ensures event { result.1 ≡ event_at clock (counted octets clock life.now) }
{
    let mut used = life.copy();
    let event = used.used(octets, clock);
    (used.current(clock), event)
}

// The name of a half that is gone by this.
pub(crate) fn going(name: &Name, event: LifeEvent) -> Result<Option<Name>, NoMemory>
    ensures { IfOk result (λ gone. gone ≡ going_by name.now event) }
{
    match event {
        LifeEvent::Hard => Ok(Some(name.copy()?)),
        LifeEvent::Soft | LifeEvent::Nothing => Ok(None),
    }
}

// Adds the name of a half that is gone by this.
pub(crate) fn add_gone(names: &mut Names, name: &Name, event: LifeEvent) -> Result<(), NoMemory>
    ensures { OnOk result (names.new ≡ names.old ++ gone_by name.now event) }
{
    match event {
        LifeEvent::Hard => names.push(name.copy()?),
        LifeEvent::Soft | LifeEvent::Nothing => Ok(()),
    }
}

// Adds the notice of what was found of a half.
pub(crate) fn add_expiry(
    notices: &mut Notices,
    name: &Name,
    counts: Limits,
    event: LifeEvent,
) -> Result<(), NoMemory>
    ensures { OnOk result (notices.new ≡ notices.old ++ expiry name.now counts event) }
{
    let soft = match event {
        LifeEvent::Nothing => return Ok(()),
        LifeEvent::Soft => true,
        LifeEvent::Hard => false,
    };
    notices.push(Notice::Expire {
        name: name.copy()?,
        soft,
        current: counts,
    })
}

// The answer to a packet under a half, and what the look at the half after it tells.
pub(crate) fn tell_use(
    alloc: Global,
    answer: PacketAnswer,
    name: &Name,
    counts: Limits,
    event: LifeEvent,
) -> Result<Done, NoMemory>
    ensures { IfOk result (λ d. d ≡ record {
      answer = Some answer;
      gone = gone_by name.now event;
      notices =
          expiry name.now counts event;
    }) }
{
    let mut gone = Names::new(alloc);
    add_gone(&mut gone, name, event)?;
    let mut notices = Notices::new(alloc);
    add_expiry(&mut notices, name, counts, event)?;
    Ok(Done {
        answer: Some(answer),
        gone,
        notices,
    })
}
