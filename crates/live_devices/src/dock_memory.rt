// Docks in memory, one with lists of the calls that are to fail and one without.
ghost use Rattle.std.specs.Prelude.{◌≡◌, ◌+◌, ◌≤◌, length, vec_len, vec_capacity};

use crate::dock::Dock;
use crate::stream::{MemoryStream, Script};
use crate::tally::Tally;
use crate::wire_memory::fill;
use ikl_base::{Failed, NoMemory};
use std::alloc::Global;

/// A dock in memory, with room for a number of octets of replies and of notices and for a number of writes, taken when it
/// is made.
///
/// A write that doesn't fit takes nothing and fails. Nothing else makes a call fail.
#[derive(Drop)]
pub struct MemoryDock<'a> {
    pub coming: &'a [Option<Script>],
    pub session: MemoryStream<'a>,
    pub is_taken: bool,
    pub replies: Vec<u8>,
    pub notices: Vec<u8>,
    pub begins: Vec<(usize, usize)>,
    pub writes: u64,
    pub accepts: Tally,
    pub tally: Tally,
    ghost marks: { vec_len begins + length coming.now ≤ vec_capacity begins },
}

impl<'a> MemoryDock<'a> {
    ghost use Rattle.std.specs.Prelude.{IfOk, Some, true, false, [], IsTrue, ◌↔◌};
    ghost use Rattle.live_devices.specs.Streams.{silent};
    ghost use Rattle.live_devices.specs.StreamMemory.{stream_held};
    ghost use Rattle.live_devices.specs.DockMemory.{HasNoticeRoom, HasReplyRoom};

    /// A dock to which this comes, one item for each accept: a session, or None where none waits in that call.
    pub fn new(
        alloc: Global,
        coming: &'a [Option<Script>],
        room: usize,
        writes: u64,
    ) -> Result<Self, NoMemory>
        ensures coming { IfOk result (λ d. d.coming.now ≡ coming.now) }
        ensures session { IfOk result (λ d. (d.is_taken ≡ false) × (stream_held d.session ≡ silent)) }
        ensures written { IfOk result (λ d. (d.replies.items ≡ []) × (d.notices.items ≡ []) × (d.begins.items ≡ [])) }
        ensures room { IfOk result (λ d. (vec_capacity d.replies ≡ room) × (vec_capacity d.notices ≡ room) × (d.writes ≡ writes)) }
        ensures count { IfOk result (λ d. (d.accepts.faults ≡ 0) × (d.accepts.failed ≡ false) × (d.tally.faults ≡ 0)
            × (d.tally.failed ≡ false)) }
    {
        let begins = Vec::with_capacity(alloc, coming.len())?;
        Ok(MemoryDock {
            coming,
            session: MemoryStream::silent(),
            is_taken: false,
            replies: Vec::with_capacity(alloc, room)?,
            notices: Vec::with_capacity(alloc, room)?,
            begins,
            writes,
            accepts: Tally::new(),
            tally: Tally::new(),
        })
    }

    /// Whether a reply of this many octets fits.
    pub fn has_reply_room(&self, octets: usize) -> bool
        ensures { IsTrue result ↔ HasReplyRoom self.now octets }
    {
        self.writes > 0 && self.replies.capacity() - self.replies.len() >= octets
    }

    /// Whether a notice of this many octets fits.
    pub fn has_notice_room(&self, octets: usize) -> bool
        ensures { IsTrue result ↔ HasNoticeRoom self.now octets }
    {
        self.writes > 0 && self.notices.capacity() - self.notices.len() >= octets
    }
}

impl Dock for MemoryDock<'_> {
    ghost use Rattle.std.specs.Prelude.{Some, true, false, IsOk, ◌↔◌, ◌<◌, is_err, OnErr, ◌++◌, OnOk, ◌-◌};
    ghost use Rattle.ikl_base.specs.Outside.{HasCause, TellsOutcome, writes_after};
    ghost use Rattle.live_devices.specs.Tallies.{tally_after};
    ghost use Rattle.live_devices.specs.Docks.{AcceptGives, NoticeTakes, ReadGives, WriteTakes, taken_after};
    ghost use Rattle.live_devices.specs.DockMemory.{HasNoticeRoom, HasReplyRoom, KeepsRoom, dock_held};

    ghost held = { λ d. Some (dock_held d) };

    ghost is_taken = { λ d. d.is_taken };

    ghost accept_faults = { λ d. d.accepts.faults };

    ghost faults = { λ d. d.tally.faults };

    ghost accept_failed = { λ d. Some d.accepts.failed };

    ghost last_failed = { λ d. Some d.tally.failed };

    fn accept(&mut self) -> Result<bool, Failed>
        ensures gives { AcceptGives (Some (dock_held self.old)) (Some (dock_held self.new)) result }
        ensures taken { self.new.is_taken ≡ taken_after result self.old.is_taken }
        ensures cause { HasCause self.old.accepts.faults self.new.accepts.faults result }
        ensures outcome { TellsOutcome (Some self.new.accepts.failed) result }
        ensures kept { (self.new.tally.faults ≡ self.old.tally.faults) × (Some self.new.tally.failed ≡ Some self.old.tally.failed) }
        ensures ok { IsOk result }
        ensures count { self.new.accepts ≡ tally_after false self.old.accepts }
        ensures other { (self.new.tally ≡ self.old.tally) × (self.new.writes ≡ self.old.writes) }
        ensures room { KeepsRoom self.old self.new }
    {
        self.accepts.pass();
        let Some((found, rest)) = self.coming.split_first() else {
            return Ok(false);
        };
        let Some(script) = found else {
            self.coming = rest;
            return Ok(false);
        };
        self.begins
            .push_reserved((self.replies.len(), self.notices.len()));
        self.coming = rest;
        self.session = MemoryStream::new(script);
        self.is_taken = true;
        Ok(true)
    }

    fn read(&mut self, buf: &mut [u8]) -> Result<Option<usize>, Failed>
        requires taken { self.old.is_taken ≡ true }
        requires room { 0 < length buf.old }
        ensures gives { ReadGives (Some (dock_held self.old)) (Some (dock_held self.new)) result buf.new }
        ensures taken { self.new.is_taken ≡ true }
        ensures cause { HasCause self.old.tally.faults self.new.tally.faults result }
        ensures outcome { TellsOutcome (Some self.new.tally.failed) result }
        ensures kept { (self.new.accepts.faults ≡ self.old.accepts.faults) × (Some self.new.accepts.failed ≡ Some self.old.accepts.failed) }
        ensures ok { IsOk result }
        ensures count { self.new.tally ≡ tally_after false self.old.tally }
        ensures other { (self.new.accepts ≡ self.old.accepts) × (self.new.writes ≡ self.old.writes) }
        ensures room { KeepsRoom self.old self.new }
    {
        self.tally.pass();
        Ok(self.session.read(buf))
    }

    fn write(&mut self, octets: &[u8]) -> Result<(), Failed>
        requires taken { self.old.is_taken ≡ true }
        ensures takes { WriteTakes (Some (dock_held self.old)) (Some (dock_held self.new)) result octets.now }
        ensures taken { self.new.is_taken ≡ true }
        ensures cause { HasCause self.old.tally.faults self.new.tally.faults result }
        ensures outcome { TellsOutcome (Some self.new.tally.failed) result }
        ensures kept { (self.new.accepts.faults ≡ self.old.accepts.faults) × (Some self.new.accepts.failed ≡ Some self.old.accepts.failed) }
        ensures fits { IsOk result ↔ HasReplyRoom self.old (length octets.now) }
        ensures none { OnErr result (dock_held self.new ≡ dock_held self.old) }
        ensures count { self.new.tally ≡ tally_after (is_err result) self.old.tally }
        ensures other { (self.new.accepts ≡ self.old.accepts) × (self.new.writes ≡ writes_after self.old.writes result) }
        ensures room { KeepsRoom self.old self.new }
    {
        if !self.has_reply_room(octets.len()) {
            self.tally.fail();
            return Err(Failed);
        }
        fill(&mut self.replies, octets);
        self.writes -= 1;
        self.tally.pass();
        Ok(())
    }

    fn write_notice(&mut self, octets: &[u8]) -> Result<(), Failed>
        requires taken { self.old.is_taken ≡ true }
        ensures takes { NoticeTakes (Some (dock_held self.old)) (Some (dock_held self.new)) result octets.now }
        ensures taken { self.new.is_taken ≡ true }
        ensures cause { HasCause self.old.tally.faults self.new.tally.faults result }
        ensures outcome { TellsOutcome (Some self.new.tally.failed) result }
        ensures kept { (self.new.accepts.faults ≡ self.old.accepts.faults) × (Some self.new.accepts.failed ≡ Some self.old.accepts.failed) }
        ensures fits { IsOk result ↔ HasNoticeRoom self.old (length octets.now) }
        ensures none { OnErr result (dock_held self.new ≡ dock_held self.old) }
        ensures count { self.new.tally ≡ tally_after (is_err result) self.old.tally }
        ensures other { (self.new.accepts ≡ self.old.accepts) × (self.new.writes ≡ writes_after self.old.writes result) }
        ensures room { KeepsRoom self.old self.new }
    {
        if !self.has_notice_room(octets.len()) {
            self.tally.fail();
            return Err(Failed);
        }
        fill(&mut self.notices, octets);
        self.writes -= 1;
        self.tally.pass();
        Ok(())
    }
}
