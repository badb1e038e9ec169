// What a controller does when a session opens or is cut, an answer comes, or a notice is heard.
ghost use Rattle.std.specs.Prelude.{◌≡◌, ◌++◌, ◌<◌, [], OnOk, OnErr, IfOk, length, Bool, true, false, map};
ghost use Rattle.ctl_core.specs.Changes.{changed};
ghost use Rattle.ctl_core.specs.Core as core;
ghost use Rattle.ctl_core.specs.Step as steps;

use crate::acts::CtlActs;
use crate::change::{Change, reqids_of};
use crate::controller::Controller;
use crate::draft::Draft;
use crate::peer::{
    Session, Station, drop_session, has_reading_at, has_waiting, is_closed_at, is_open_at,
    oldest_at, set_session, take_answered,
};
use ctl_tunnels::{HalfOrder, Shown, read_half_name};
use ikeless_tree::{Answer, Entries, Notice, Order};
use ikl_base::{Duplicate, Name, NoMemory};
use std::alloc::Global;

// Drafts the order of a list, where there is one.
fn give_list(gateway: usize, list: &Option<Entries>, draft: &mut Draft) -> Result<(), NoMemory>
    ensures { OnOk result (draft.new ≡ steps.with_list gateway list.now draft.old) }
{
    match list {
        Some(entries) => {
            let copy = entries.copy()?;
            draft.give(gateway, Order::Policy(copy), None)?;
            Ok(())
        }
        None => Ok(()),
    }
}

// Drafts the order of the newest list of a gateway, where there is one.
fn give_newest(gateway: usize, stations: &[Station], draft: &mut Draft) -> Result<(), NoMemory>
    ensures { OnOk result (draft.new ≡ steps.with_list gateway (core.list_at stations.now gateway) draft.old) }
{
    match stations.get(gateway) {
        Some(station) => {
            give_list(gateway, &station.list, draft)?;
            Ok(())
        }
        None => Ok(()),
    }
}

// The readiness with that of one gateway changed.
fn set_ready(ready: &mut Vec<bool>, gateway: usize, is: bool)
    ensures { ready.new.items ≡ steps.set_ready gateway is ready.old.items }
{
    if gateway < ready.len() {
        ready[gateway] = is;
    }
}

// What an answer to an order changes.
fn change_answered(
    alloc: Global,
    gateway: usize,
    answer: &Answer,
    order: &Order,
    half: Option<HalfOrder>,
) -> Result<Change, NoMemory>
    ensures { IfOk result (λ ch. changed ch ≡ steps.answer_effect gateway answer.now order.now half) }
{
    match half {
        Some(part) => Ok(Change::Answered {
            order: part,
            status: answer.status,
        }),
        None => change_whole(alloc, gateway, answer, order),
    }
}

fn change_whole(
    alloc: Global,
    gateway: usize,
    answer: &Answer,
    order: &Order,
) -> Result<Change, NoMemory>
    ensures { IfOk result (λ ch. changed ch ≡ steps.whole_effect gateway answer.now order.now) }
{
    match order {
        Order::Read => Ok(Change::Read {
            gateway,
            shown: Shown::of(alloc, answer.names.as_slice())?,
        }),
        Order::Policy(_) | Order::Put(_) | Order::Remove(_) => Ok(Change::Nothing),
    }
}

// What an answer to the oldest waiting order of a gateway changes.
fn change_front(
    alloc: Global,
    gateway: usize,
    answer: &Answer,
    stations: &[Station],
) -> Result<Change, NoMemory>
    ensures { IfOk result (λ ch. changed ch ≡ steps.front_effect gateway answer.now (core.front (core.queue_at stations.now gateway))) }
{
    match oldest_at(stations, gateway) {
        Some(waiting) => {
            let half = waiting.half;
            Ok(change_answered(alloc, gateway, answer, &waiting.order, half)?)
        }
        None => Ok(Change::Nothing),
    }
}

// What the wear of a half changes.
fn change_worn(gateway: usize, name: &Name) -> Change
    ensures { changed result ≡ steps.worn_effect gateway (steps.half_of name.now) }
{
    match read_half_name(name.as_slice()) {
        Some(half) => Change::Worn { gateway, half },
        None => Change::Nothing,
    }
}

// The `reqid`s of the entries of this name in the newest list.
fn reqids_in(alloc: Global, list: &Option<Entries>, name: &Name) -> Result<Vec<u64>, NoMemory>
    ensures { IfOk result (λ v. v.items ≡ steps.reqids name.now list.now) }
{
    match list {
        Some(entries) => reqids_of(alloc, entries.as_slice(), name.as_slice()),
        None => Ok(Vec::new(alloc)),
    }
}

// What a notice changes, with the newest list of its gateway.
fn change_noticed(
    alloc: Global,
    gateway: usize,
    list: &Option<Entries>,
    notice: &Notice,
) -> Result<Change, NoMemory>
    ensures { IfOk result (λ ch. changed ch ≡ steps.notice_effect gateway list.now notice.now) }
{
    match notice {
        Notice::Acquire { policy, .. } => Ok(Change::Acquired {
            gateway,
            reqids: reqids_in(alloc, list, policy)?,
        }),
        Notice::Expire { name, .. } => Ok(change_worn(gateway, name)),
        Notice::SeqOverflow { name } => Ok(change_worn(gateway, name)),
        Notice::BadSpi { .. } => Ok(Change::Nothing),
    }
}

// Drafts a reading after a bad SPI, unless one waits.
fn ask_again(
    gateway: usize,
    stations: &[Station],
    notice: &Notice,
    draft: &mut Draft,
) -> Result<(), NoMemory>
    ensures { OnOk result (draft.new ≡ steps.asked_again gateway (core.queue_at stations.now gateway) notice.now draft.old) }
{
    match notice {
        Notice::BadSpi { .. } => {
            if !has_reading_at(stations, gateway) {
                draft.give(gateway, Order::Read, None)?;
            }
            Ok(())
        }
        Notice::Acquire { .. } | Notice::Expire { .. } | Notice::SeqOverflow { .. } => Ok(()),
    }
}

// What a notice of a gateway changes.
fn change_heard(
    alloc: Global,
    gateway: usize,
    stations: &[Station],
    notice: &Notice,
) -> Result<Change, NoMemory>
    ensures { IfOk result (λ ch. changed ch ≡ steps.notice_effect gateway (core.list_at stations.now gateway) notice.now) }
{
    match stations.get(gateway) {
        Some(station) => Ok(change_noticed(alloc, gateway, &station.list, notice)?),
        None => Ok(change_noticed(alloc, gateway, &None, notice)?),
    }
}

impl Controller {
    pub(crate) fn on_opened(&mut self, gateway: usize, acts: &mut CtlActs) -> Result<(), NoMemory>
        ensures acts { OnOk result (acts.new ≡ acts.old ++ (steps.opened self.old gateway).acts) }
        ensures state { OnOk result (self.new ≡ (steps.opened self.old gateway).core) }
        ensures err { OnErr result ((self.new ≡ self.old) × (acts.new ≡ acts.old)) }
    {
        if !is_closed_at(&self.stations, gateway) {
            return Ok(());
        }
        let mut draft = self.draft()?;
        draft.give(gateway, Order::Read, None)?;
        give_newest(gateway, &self.stations, &mut draft)?;
        self.open(gateway, draft, acts)?;
        Ok(())
    }

    // Opens a session with these first orders.
    fn open(&mut self, gateway: usize, draft: Draft, acts: &mut CtlActs) -> Result<(), NoMemory>
        ensures acts { OnOk result (acts.new ≡ acts.old ++ (steps.opening_with self.old gateway draft).acts) }
        ensures state { OnOk result (self.new ≡ (steps.opening_with self.old gateway draft).core) }
        ensures err { OnErr result ((self.new ≡ self.old) × (acts.new ≡ acts.old)) }
    {
        let ready = self.readiness()?;
        self.run(&Change::Nothing, &ready, draft, acts)?;
        set_session(&mut self.stations, gateway, Session::Unread);
        Ok(())
    }

    pub(crate) fn on_cut(&mut self, gateway: usize, acts: &mut CtlActs) -> Result<(), NoMemory>
        ensures acts { OnOk result (acts.new ≡ acts.old ++ (steps.cut self.old gateway).acts) }
        ensures state { OnOk result (self.new ≡ (steps.cut self.old gateway).core) }
        ensures err { OnErr result ((self.new ≡ self.old) × (acts.new ≡ acts.old)) }
    {
        if !is_open_at(&self.stations, gateway) {
            return Ok(());
        }
        self.close(gateway, acts)?;
        Ok(())
    }

    // Ends an open session.
    fn close(&mut self, gateway: usize, acts: &mut CtlActs) -> Result<(), NoMemory>
        ensures acts { OnOk result (acts.new ≡ acts.old ++ (steps.closing self.old gateway).acts) }
        ensures state { OnOk result (self.new ≡ (steps.closing self.old gateway).core) }
        ensures err { OnErr result ((self.new ≡ self.old) × (acts.new ≡ acts.old)) }
    {
        let draft = self.draft()?;
        let mut ready = self.readiness()?;
        set_ready(&mut ready, gateway, false);
        self.run(&Change::Cut(gateway), &ready, draft, acts)?;
        drop_session(&mut self.stations, gateway);
        Ok(())
    }

    pub(crate) fn on_answered(
        &mut self,
        gateway: usize,
        answer: Answer,
        acts: &mut CtlActs,
    ) -> Result<(), NoMemory>
        ensures acts { OnOk result (acts.new ≡ acts.old ++ (steps.answered self.old gateway answer).acts) }
        ensures state { OnOk result (self.new ≡ (steps.answered self.old gateway answer).core) }
        ensures err { OnErr result ((self.new ≡ self.old) × (acts.new ≡ acts.old)) }
    {
        if !has_waiting(&self.stations, gateway) {
            return Ok(());
        }
        let change = change_front(self.alloc, gateway, &answer, &self.stations)?;
        self.take_answer(gateway, change, acts)?;
        Ok(())
    }

    // Takes the answer to the oldest waiting order.
    fn take_answer(
        &mut self,
        gateway: usize,
        change: Change,
        acts: &mut CtlActs,
    ) -> Result<(), NoMemory>
        ensures acts { OnOk result (acts.new ≡ acts.old ++ (steps.answering self.old gateway (changed change)).acts) }
        ensures state { OnOk result (self.new ≡ (steps.answering self.old gateway (changed change)).core) }
        ensures err { OnErr result ((self.new ≡ self.old) × (acts.new ≡ acts.old)) }
    {
        let draft = self.draft()?;
        let mut ready = self.readiness()?;
        set_ready(&mut ready, gateway, true);
        self.run(&change, &ready, draft, acts)?;
        take_answered(&mut self.stations, gateway);
        Ok(())
    }

    pub(crate) fn on_noticed(
        &mut self,
        gateway: usize,
        notice: Notice,
        acts: &mut CtlActs,
    ) -> Result<(), NoMemory>
        ensures acts { OnOk result (acts.new ≡ acts.old ++ (steps.noticed self.old gateway notice).acts) }
        ensures state { OnOk result (self.new ≡ (steps.noticed self.old gateway notice).core) }
        ensures err { OnErr result ((self.new ≡ self.old) × (acts.new ≡ acts.old)) }
    {
        if !is_open_at(&self.stations, gateway) {
            return Ok(());
        }
        let mut draft = self.draft()?;
        ask_again(gateway, &self.stations, &notice, &mut draft)?;
        let change = change_heard(self.alloc, gateway, &self.stations, &notice)?;
        let ready = self.readiness()?;
        self.run(&change, &ready, draft, acts)?;
        Ok(())
    }
}
