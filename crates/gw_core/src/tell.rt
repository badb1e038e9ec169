// What was done, told as acts.
ghost use Rattle.std.specs.Prelude.{◌≡◌, ◌++◌, ◌∷◌, [], OnOk, OnErr, map, length, take};
ghost use Rattle.gw_core.specs.Machine.{act_of_answer, acts_of_answer, acts_of_done, act_of_gone, act_of_notice};

use gw_packets::{Done, Notices, PacketAnswer};
use gw_requests::{GwAct, GwActs};
use ikeless_tree::Names;
use ikl_base::{ListOf, NoMemory};
use std::alloc::Global;
use std::mem::replace;

fn answer_act(answer: PacketAnswer) -> GwAct
    ensures { result ≡ act_of_answer answer }
{
    match answer {
        PacketAnswer::Clear(octets) => GwAct::Clear(octets),
        PacketAnswer::Sent {
            name,
            number,
            octets,
        } => GwAct::Sent {
            name,
            number,
            octets,
        },
        PacketAnswer::Drop(why) => GwAct::Drop(why),
        PacketAnswer::Gave {
            name,
            number,
            octets,
        } => GwAct::Gave {
            name,
            number,
            octets,
        },
        PacketAnswer::Pass(octets) => GwAct::Pass(octets),
    }
}

fn put_answer(items: &mut Vec<GwAct>, answer: Option<PacketAnswer>) -> Result<(), NoMemory>
    ensures ok { OnOk result (items.new.items ≡ items.old.items ++ acts_of_answer answer) }
    ensures err { OnErr result (items.new.items ≡ items.old.items) }
{
    match answer {
        None => Ok(()),
        Some(answer) => {
            // Most packets are answered by one act, and a first push would make room for four.
            items.reserve_exact(1)?;
            Ok(items.push(answer_act(answer))?)
        }
    }
}

fn put_gone(items: &mut Vec<GwAct>, gone: Names) -> Result<(), NoMemory>
    ensures ok { OnOk result (items.new.items ≡ items.old.items ++ map act_of_gone gone) }
    ensures err { OnErr result (take (length items.old.items) items.new.items ≡ items.old.items) }
{
    for name in gone.into_items() {
        items.push(GwAct::Gone { name, hard: true })?;
    }
    Ok(())
}

fn put_notices(items: &mut Vec<GwAct>, notices: Notices) -> Result<(), NoMemory>
    ensures ok { OnOk result (items.new.items ≡ items.old.items ++ map act_of_notice notices) }
    ensures err { OnErr result (take (length items.old.items) items.new.items ≡ items.old.items) }
{
    for notice in notices.into_items() {
        items.push(GwAct::Notice(notice))?;
    }
    Ok(())
}

// Adds what was done at the end, or some of it for want of memory.
fn put_done(items: &mut Vec<GwAct>, done: Done) -> Result<(), NoMemory>
    ensures ok { OnOk result (items.new.items ≡ items.old.items ++ acts_of_done done) }
    ensures err { OnErr result (take (length items.old.items) items.new.items ≡ items.old.items) }
{
    let Done {
        answer,
        gone,
        notices,
    } = done;
    put_answer(items, answer)?;
    put_gone(items, gone)?;
    put_notices(items, notices)
}

/// Tells what was done: all of it, or nothing for want of memory.
pub(crate) fn append_done(alloc: Global, acts: &mut GwActs, done: Done) -> Result<(), NoMemory>
    ensures ok { OnOk result (acts.new ≡ acts.old ++ acts_of_done done) }
    ensures err { OnErr result (acts.new ≡ acts.old) }
{
    let mut items = replace(acts, ListOf::new(alloc)).into_items();
    let before = items.len();
    let outcome = put_done(&mut items, done);
    if outcome.is_err() {
        items.truncate(before);
    }
    *acts = ListOf::from_items(items);
    outcome
}
