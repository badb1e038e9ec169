// The halves at one gateway, with the indexes by which they are found.
ghost use Rattle.std.specs.Prelude.{◌≡◌, ◌+◌, ◌<◌, ◌++◌, ◌∷◌, [], List, ℕ, None, Some, Ok, true, false, not, length, map, vec_len, vec_capacity, nat_lt, position, slice_get, option_and_then, IfOk, IfErr, OnOk, OnErr};
ghost use Rattle.std.specs.Option.{option_map};
ghost use Rattle.ip_packet.specs.View.{seen};
ghost use Rattle.ikeless_tree.specs.Check.{sad_fault};
ghost use Rattle.sad_store.specs.Halves.{fresh, has_half_named, is_spi_taken, names_of};
ghost use Rattle.sad_store.specs.Stored.{IsStored};

use crate::change::{hush, mark_at, number, tell_overflow, tick_at, use_at};
use crate::column::KeyColumn;
use crate::fault::InstallFault;
use crate::find::{comes_in, is_taken, newest_of, reqid_of, spi_of, take_out};
use crate::half::Half;
use ikeless_tree::{Names, SadEntry};
use ikl_base::{Duplicate, Name, NoMemory};
use ip_packet::View;
use life_count::{Life, LifeEvent};
use replay_win::Window;
use std::alloc::Global;
use std::marker::Model;

const MOST: usize = 4096;

/// The halves at one gateway, which contracts see as a list in the order of installation.
#[derive(Debug, Drop)]
pub struct SadStore {
    halves: Vec<Half>,
    spis: KeyColumn,
    reqids: KeyColumn,
}

impl Model for SadStore {
    ghost use Rattle.std.specs.Prelude.{List};
    ghost use Rattle.sad_store.specs.declared.half.Half.{Half};
    ghost use Rattle.sad_store.specs.Stored.{IsStored};

    ghost Value = { List Half };

    ghost view = { λ s. s.halves.items };

    ghost invariant = { λ s. IsStored s.halves.items s.spis s.reqids };
}

// A half that is installed now, or the entry back.
fn begin(alloc: Global, e: SadEntry, now: u32) -> Result<Half, SadEntry>
    requires { sad_fault e ≡ None }
    ensures half { IfOk result (λ x. x ≡ fresh now e) }
    ensures given { IfErr result (λ given. given ≡ e) }
{
    let window = match Window::new(alloc, e.window) {
        Ok(window) => window,
        Err(_) => return Err(e),
    };
    let life = Life::new(e.hard, e.soft, now);
    Ok(Half {
        entry: e,
        sent: 0,
        window,
        life,
        overflow: false,
    })
}

// One more item, for which there is room.
fn push<T: Drop>(items: &mut Vec<T>, item: T)
    requires { vec_len items.old < vec_capacity items.old }
    ensures { items.new.items ≡ items.old.items ++ item ∷ [] }
{
    match items.push(item) {
        Ok(()) => {}
        Err(_) => unreachable!(),
    }
}

// Room for one more in each list.
fn make_room(
    halves: &mut Vec<Half>,
    spis: &mut KeyColumn,
    reqids: &mut KeyColumn,
) -> Result<(), NoMemory>
    requires stored { IsStored halves.old.items spis.old reqids.old }
    ensures stored { IsStored halves.new.items spis.new reqids.new }
    ensures halves { halves.new.items ≡ halves.old.items }
    ensures more_halves { OnOk result (vec_len halves.new < vec_capacity halves.new) }
    ensures more_spis { OnOk result (vec_len spis.new.keys < vec_capacity spis.new.keys) }
    ensures more_reqids { OnOk result (vec_len reqids.new.keys < vec_capacity reqids.new.keys) }
{
    halves.reserve(1)?;
    spis.make_room()?;
    reqids.make_room()?;
    Ok(())
}

// One more half that is installed now, or the entry back.
fn add(
    halves: &mut Vec<Half>,
    spis: &mut KeyColumn,
    reqids: &mut KeyColumn,
    e: SadEntry,
    now: u32,
) -> Result<(), SadEntry>
    requires sound { sad_fault e ≡ None }
    requires stored { IsStored halves.old.items spis.old reqids.old }
    requires free { has_half_named e.name halves.old.items ≡ false }
    requires alone { is_spi_taken e halves.old.items ≡ false }
    ensures stored { IsStored halves.new.items spis.new reqids.new }
    ensures ok { OnOk result (halves.new.items ≡ halves.old.items ++ fresh now e ∷ []) }
    ensures err { OnErr result (halves.new.items ≡ halves.old.items) }
    ensures given { IfErr result (λ given. given ≡ e) }
{
    if make_room(halves, spis, reqids).is_err() {
        return Err(e);
    }
    match begin(*halves.allocator(), e, now) {
        Err(e) => Err(e),
        Ok(half) => {
            spis.push(spi_of(&half.entry));
            reqids.push(reqid_of(&half.entry));
            push(halves, half);
            Ok(())
        }
    }
}

fn names_in(alloc: Global, halves: &[Half]) -> Result<Names, NoMemory>
    ensures { IfOk result (λ names. names ≡ names_of halves.now) }
{
    let mut names = Vec::new(alloc);
    for half in halves {
        names.push(half.entry.name.copy()?)?;
    }
    Ok(Names::from_items(names))
}

impl SadStore {
    ghost use Rattle.replay_win.specs.Marks.{judged};
    ghost use Rattle.replay_win.specs.declared.verdict.Verdict.TheVariants.{Fresh};
    ghost use Rattle.life_count.specs.Lifetime.{counted, event_at};
    ghost use Rattle.sad_store.specs.Halves.{changed, fresh, has_half_named, is_spi_taken, half_by_spi, halves_without, hushed, is_half_of_spi, look_at, mark_number, names_of, newest_half, newest_place, number_next, use_half, with_overflow};
    ghost use Rattle.sad_store.specs.Install.{install_fault, IsInstallFault};

    /// No halves.
    pub fn new(alloc: Global) -> SadStore
        ensures { result ≡ [] }
    {
        SadStore {
            halves: Vec::new(alloc),
            spis: KeyColumn::new(alloc),
            reqids: KeyColumn::new(alloc),
        }
    }

    // An inbound half has the SPI of this entry, which is inbound.
    fn has_spi_of(&self, e: &SadEntry) -> bool
        ensures { result ≡ is_spi_taken e.now self.now }
    {
        comes_in(&e.name) && self.spis.last(u64::from(e.spi)).is_some()
    }

    /// Installs a half, as the last one, at this clock.
    ///
    /// It is refused where a half has its name, then where it is inbound and an inbound half has its SPI, then where there are
    /// 4,096 halves. Nothing changes then, and the entry is handed back.
    pub fn install(&mut self, e: SadEntry, now: u32) -> Result<(), InstallFault>
        requires { sad_fault e ≡ None }
        ensures ok { OnOk result (self.new ≡ self.old ++ fresh now e ∷ []) }
        ensures free { OnOk result (install_fault e self.old ≡ None) }
        ensures err { OnErr result (self.new ≡ self.old) }
        ensures fault { IfErr result (λ fault. IsInstallFault fault e self.old) }
    {
        if is_taken(&self.halves, e.name.as_slice()) {
            return Err(InstallFault::NameTaken(e));
        }
        if self.has_spi_of(&e) {
            return Err(InstallFault::SpiTaken(e));
        }
        if self.halves.len() >= MOST {
            return Err(InstallFault::Full(e));
        }
        match add(&mut self.halves, &mut self.spis, &mut self.reqids, e, now) {
            Ok(()) => Ok(()),
            Err(e) => Err(InstallFault::NoMemory(e)),
        }
    }

    /// Takes the half of this name out. False where there is none.
    pub fn remove(&mut self, name: &Name) -> bool
        ensures found { result ≡ has_half_named name.now self.old }
        ensures halves { self.new ≡ halves_without name.now self.old }
    {
        take_out(&mut self.halves, &mut self.spis, &mut self.reqids, name)
    }

    /// Where the newest outbound half with this `reqid` is whose selector holds the packet (RFC 4301 section 5.1).
    pub fn pick_out(&self, reqid: u64, v: &View) -> Option<usize>
        ensures place { result ≡ newest_place reqid (seen v.now) self.now }
        ensures half { option_and_then (slice_get self.now) result ≡ newest_half reqid (seen v.now) self.now }
    {
        newest_of(&self.halves, &self.reqids, reqid, v)
    }

    /// Where the inbound half with this SPI is (RFC 4301 section 4.1).
    pub fn by_spi(&self, spi: u32) -> Option<usize>
        ensures place { result ≡ position (is_half_of_spi spi) self.now }
        ensures half { option_and_then (slice_get self.now) result ≡ half_by_spi spi self.now }
    {
        self.spis.last(u64::from(spi))
    }

    /// The half at this place in the order of installation.
    pub fn half(&self, i: usize) -> &Half
        requires { i < length self.now }
        ensures { slice_get self.now i ≡ Some result.now }
    {
        &self.halves[i]
    }

    pub fn len(&self) -> usize
        ensures { result ≡ length self.now }
    {
        self.halves.len()
    }

    /// The names of all halves, in the order of installation.
    pub fn names(&self) -> Result<Names, NoMemory>
        ensures { IfOk result (λ names. names ≡ names_of self.now) }
    {
        names_in(*self.halves.allocator(), &self.halves)
    }

    /// The number of the next packet that this half sends: one more than the last.
    pub fn next_number(&mut self, i: usize) -> u64
        requires last { option_map (λ x. nat_lt x.sent 18446744073709551615) (slice_get self.old i) ≡ Some true }
        ensures number { option_map (λ x. x.sent + 1) (slice_get self.old i) ≡ Some result }
        ensures halves { self.new ≡ changed number_next i self.old }
    {
        number(&mut self.halves, i)
    }

    /// Marks a fresh number in this half's window.
    pub fn mark(&mut self, i: usize, s: u64)
        requires fresh { option_map (λ x. judged x.window s) (slice_get self.old i) ≡ Some Fresh }
        ensures { self.new ≡ changed (mark_number s) i self.old }
    {
        mark_at(&mut self.halves, i, s);
    }

    /// One more use of this half, with these ESP octets at this clock, and what its counts tell after it.
    pub fn used(&mut self, i: usize, bytes: u64, now: u32) -> LifeEvent
        requires { i < length self.old }
        ensures event { option_map (λ x. event_at now (counted bytes now x.life)) (slice_get self.old i) ≡ Some result }
        ensures halves { self.new ≡ changed (use_half bytes now) i self.old }
    {
        use_at(&mut self.halves, i, bytes, now)
    }

    /// What this half's counts tell at this clock.
    pub fn tick(&mut self, i: usize, now: u32) -> LifeEvent
        requires { i < length self.old }
        ensures event { option_map (λ x. event_at now x.life) (slice_get self.old i) ≡ Some result }
        ensures halves { self.new ≡ changed (look_at now) i self.old }
    {
        tick_at(&mut self.halves, i, now)
    }

    /// An overflow of this half's numbers is told. True where none stood.
    pub fn overflow(&mut self, i: usize) -> bool
        requires { i < length self.old }
        ensures first { option_map (λ x. not x.overflow) (slice_get self.old i) ≡ Some result }
        ensures halves { self.new ≡ changed (with_overflow true) i self.old }
    {
        tell_overflow(&mut self.halves, i)
    }

    /// A session is taken: nothing that was told of any half stands.
    pub fn session(&mut self)
        ensures { self.new ≡ map hushed self.old }
    {
        hush(&mut self.halves);
    }
}
