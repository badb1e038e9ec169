// A dock in memory of which some calls fail.
ghost use Rattle.std.specs.Prelude.{◌≡◌, ◌<◌, length};

use crate::dock::Dock;
use crate::dock_memory::MemoryDock;
use crate::tally::{Listed, Tally};
use ikl_base::Failed;

/// A dock in memory of which the accepts named in one list and the other calls named in another fail, each counted from 1.
#[derive(Drop)]
pub struct FaultyDock<'a> {
    pub dock: MemoryDock<'a>,
    pub accepts_listed: Listed<'a>,
    pub listed: Listed<'a>,
    pub accepts: Tally,
    pub tally: Tally,
}

impl<'a> FaultyDock<'a> {
    ghost use Rattle.std.specs.Prelude.{false};
    ghost use Rattle.live_devices.specs.DockMemory.{dock_held};

    /// A dock over another one, whose accepts and other calls with these numbers fail.
    pub fn new(dock: MemoryDock<'a>, accepts: &'a [u64], fails: &'a [u64]) -> Self
        ensures dock { result.dock ≡ dock.entry }
        ensures fails { (result.accepts_listed.fails.now ≡ accepts.now) × (result.listed.fails.now ≡ fails.now) }
        ensures calls { (result.accepts_listed.calls ≡ 0) × (result.listed.calls ≡ 0) }
        ensures count { (result.accepts.faults ≡ 0) × (result.accepts.failed ≡ false) × (result.tally.faults ≡ 0)
            × (result.tally.failed ≡ false) }
    {
        FaultyDock {
            dock,
            accepts_listed: Listed::new(accepts),
            listed: Listed::new(fails),
            accepts: Tally::new(),
            tally: Tally::new(),
        }
    }
}

impl Dock for FaultyDock<'_> {
    ghost use Rattle.std.specs.Prelude.{Some, true, false, IsOk, IsErr, ◌↔◌, is_err, OnErr};
    ghost use Rattle.ikl_base.specs.Outside.{HasCause, TellsOutcome};
    ghost use Rattle.live_devices.specs.Tallies.{is_listed, list_after, tally_after};
    ghost use Rattle.live_devices.specs.Docks.{AcceptGives, NoticeTakes, ReadGives, WriteTakes, taken_after};
    ghost use Rattle.live_devices.specs.DockMemory.{HasNoticeRoom, HasReplyRoom, KeepsRoom, dock_held};

    ghost held = { λ d. Some (dock_held d.dock) };

    ghost is_taken = { λ d. d.dock.is_taken };

    ghost accept_faults = { λ d. d.accepts.faults };

    ghost faults = { λ d. d.tally.faults };

    ghost accept_failed = { λ d. Some d.accepts.failed };

    ghost last_failed = { λ d. Some d.tally.failed };

    fn accept(&mut self) -> Result<bool, Failed>
        ensures gives { AcceptGives (Some (dock_held self.old.dock)) (Some (dock_held self.new.dock)) result }
        ensures taken { self.new.dock.is_taken ≡ taken_after result self.old.dock.is_taken }
        ensures cause { HasCause self.old.accepts.faults self.new.accepts.faults result }
        ensures outcome { TellsOutcome (Some self.new.accepts.failed) result }
        ensures kept { (self.new.tally.faults ≡ self.old.tally.faults) × (Some self.new.tally.failed ≡ Some self.old.tally.failed) }
        ensures listed { is_err result ≡ is_listed self.old.accepts_listed }
        ensures calls { (self.new.accepts_listed ≡ list_after self.old.accepts_listed) × (self.new.listed ≡ self.old.listed) }
        ensures count { self.new.accepts ≡ tally_after (is_err result) self.old.accepts }
        ensures room { KeepsRoom self.old.dock self.new.dock }
    {
        if self.accepts_listed.take_call() {
            self.accepts.fail();
            return Err(Failed);
        }
        self.accepts.pass();
        self.dock.accept()
    }

    fn read(&mut self, buf: &mut [u8]) -> Result<Option<usize>, Failed>
        requires taken { self.old.dock.is_taken ≡ true }
        requires room { 0 < length buf.old }
        ensures gives { ReadGives (Some (dock_held self.old.dock)) (Some (dock_held self.new.dock)) result buf.new }
        ensures taken { self.new.dock.is_taken ≡ true }
        ensures cause { HasCause self.old.tally.faults self.new.tally.faults result }
        ensures outcome { TellsOutcome (Some self.new.tally.failed) result }
        ensures kept { (self.new.accepts.faults ≡ self.old.accepts.faults) × (Some self.new.accepts.failed ≡ Some self.old.accepts.failed) }
        ensures listed { is_err result ≡ is_listed self.old.listed }
        ensures calls { (self.new.listed ≡ list_after self.old.listed) × (self.new.accepts_listed ≡ self.old.accepts_listed) }
        ensures count { self.new.tally ≡ tally_after (is_err result) self.old.tally }
        ensures room { KeepsRoom self.old.dock self.new.dock }
    {
        if self.listed.take_call() {
            self.tally.fail();
            return Err(Failed);
        }
        self.tally.pass();
        self.dock.read(buf)
    }

    fn write(&mut self, octets: &[u8]) -> Result<(), Failed>
        requires taken { self.old.dock.is_taken ≡ true }
        ensures takes { WriteTakes (Some (dock_held self.old.dock)) (Some (dock_held self.new.dock)) result octets.now }
        ensures taken { self.new.dock.is_taken ≡ true }
        ensures cause { HasCause self.old.tally.faults self.new.tally.faults result }
        ensures outcome { TellsOutcome (Some self.new.tally.failed) result }
        ensures kept { (self.new.accepts.faults ≡ self.old.accepts.faults) × (Some self.new.accepts.failed ≡ Some self.old.accepts.failed) }
        ensures listed { is_listed self.old.listed ≡ true → IsErr result }
        ensures fits { is_listed self.old.listed ≡ false → (IsOk result ↔ HasReplyRoom self.old.dock (length octets.now)) }
        ensures none { OnErr result (dock_held self.new.dock ≡ dock_held self.old.dock) }
        ensures calls { (self.new.listed ≡ list_after self.old.listed) × (self.new.accepts_listed ≡ self.old.accepts_listed) }
        ensures count { self.new.tally ≡ tally_after (is_err result) self.old.tally }
        ensures room { KeepsRoom self.old.dock self.new.dock }
    {
        let is_listed = self.listed.take_call();
        if is_listed || self.dock.write(octets).is_err() {
            self.tally.fail();
            return Err(Failed);
        }
        self.tally.pass();
        Ok(())
    }

    fn write_notice(&mut self, octets: &[u8]) -> Result<(), Failed>
        requires taken { self.old.dock.is_taken ≡ true }
        ensures takes { NoticeTakes (Some (dock_held self.old.dock)) (Some (dock_held self.new.dock)) result octets.now }
        ensures taken { self.new.dock.is_taken ≡ true }
        ensures cause { HasCause self.old.tally.faults self.new.tally.faults result }
        ensures outcome { TellsOutcome (Some self.new.tally.failed) result }
        ensures kept { (self.new.accepts.faults ≡ self.old.accepts.faults) × (Some self.new.accepts.failed ≡ Some self.old.accepts.failed) }
        ensures listed { is_listed self.old.listed ≡ true → IsErr result }
        ensures fits { is_listed self.old.listed ≡ false → (IsOk result ↔ HasNoticeRoom self.old.dock (length octets.now)) }
        ensures none { OnErr result (dock_held self.new.dock ≡ dock_held self.old.dock) }
        ensures calls { (self.new.listed ≡ list_after self.old.listed) × (self.new.accepts_listed ≡ self.old.accepts_listed) }
        ensures count { self.new.tally ≡ tally_after (is_err result) self.old.tally }
        ensures room { KeepsRoom self.old.dock self.new.dock }
    {
        let is_listed = self.listed.take_call();
        if is_listed || self.dock.write_notice(octets).is_err() {
            self.tally.fail();
            return Err(Failed);
        }
        self.tally.pass();
        Ok(())
    }
}
