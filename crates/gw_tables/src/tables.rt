// What a gateway keeps, and each change of it.
ghost use Rattle.std.specs.Prelude.{◌≡◌, ◌≤◌, IfOk, None, vec_capacity, length};

use crate::acquires::{comes_in, copied_and, is_among, note, unstand};
use crate::rows::rows;
use crate::uses::{look_at_all, send_at, take_at, take_out};
use ikeless_tree::{Direction, Entries, Names, SadEntry, Tree};
use ikl_base::{Duplicate, Name, NoMemory};
use ip_packet::View;
use sad_store::{Half, SadStore};
use spd_match::Decisions;
use std::alloc::Global;
use std::marker::Model;

// One more than the SPIs that are kept.
const BAD_SPI_ROOM: usize = 65;

// The places of what was decided: few flows of a busy gateway share one.
const PLACES: u32 = 4096;

/// What a gateway keeps.
///
/// Contracts see the list in force, the halves in the order of installation, the names of the policies whose acquire stands, the
/// SPIs whose notice stands with the newest first, and the clock in seconds.
#[derive(Debug, Drop)]
pub struct Tables {
    spd: Entries,
    decisions: Decisions,
    halves: SadStore,
    acquires: Vec<Name>,
    bad_spis: Vec<u32>,
    clock: u32,
}

impl Model for Tables {
    ghost use Rattle.std.specs.Prelude.{◌≤◌, vec_capacity};
    ghost use Rattle.gw_tables.specs.Kept.{Kept};
    ghost use Rattle.gw_tables.specs.Sound.{IsSound};
    ghost use Rattle.spd_match.specs.Kept.{AreOf};

    ghost Value = { Kept };

    ghost view = { λ t. record { spd = t.spd; halves = t.halves; acquires = t.acquires.items; bad_spis = t.bad_spis.items; clock = t.clock } };

    ghost invariant = { λ t. IsSound (record { spd = t.spd; halves = t.halves; acquires = t.acquires.items; bad_spis = t.bad_spis.items; clock = t.clock }) × (65 ≤ vec_capacity t.bad_spis) × AreOf t.spd t.decisions };
}

impl Tables {
    ghost use Rattle.std.specs.Prelude.{◌<◌, ◌==◌, ◌++◌, ◌∷◌, [], ℕ, IfSome, position, Some, true, nat_lt, slice_get, option_and_then, option_map, OnOk, OnErr};
    ghost use Rattle.std.specs.List.{list_any};
    ghost use Rattle.std.specs.Str.{bytes_eq};
    ghost use Rattle.ikeless_tree.specs.Check.{spd_fault, sad_fault};
    ghost use Rattle.replay_win.specs.Marks.{judged};
    ghost use Rattle.replay_win.specs.declared.verdict.Verdict.TheVariants.{Fresh};
    ghost use Rattle.ip_packet.specs.View.{seen};
    ghost use Rattle.spd_match.specs.Match.{first_entry};
    ghost use Rattle.sad_store.specs.Halves.{is_half_of_spi, newest_place};
    ghost use Rattle.sad_store.specs.Install.{install_fault};
    ghost use Rattle.gw_tables.specs.Kept.{booted, installed, removed, session_taken, tree_of, with_list};
    ghost use Rattle.gw_tables.specs.Sound.{IsHalf, IsSound};
    ghost use Rattle.gw_tables.specs.Uses.{looked_at, removed_all, sent_at, taken_at, told_at, with_acquires, with_bad_spi};

    /// A gateway that has just started: nothing stands, and the clock is 0.
    pub fn booted(alloc: Global) -> Result<Tables, NoMemory>
        ensures { IfOk result (λ t. t ≡ booted) }
    {
        let bad_spis = Vec::with_capacity(alloc, BAD_SPI_ROOM)?;
        Ok(Tables {
            spd: Entries::new(alloc),
            decisions: Decisions::new(alloc, PLACES)?,
            halves: SadStore::new(alloc),
            acquires: Vec::new(alloc),
            bad_spis,
            clock: 0,
        })
    }

    /// What always holds: the list in force and every entry are without a fault, there are at most 4,096 halves with names apart and
    /// windows of their entries' sizes, and at most 64 SPIs. Nothing is done.
    pub fn are_sound(&self)
        ensures { IsSound self.now }
    {
        let _ = &self.spd;
    }

    /// The list of policies in force.
    pub fn spd(&self) -> &Entries
        ensures { result.now ≡ self.now.spd }
    {
        &self.spd
    }

    /// Where the entry is that decides for a packet: the first of its direction whose selector holds the packet
    /// (RFC 4301 section 4.4.1).
    ///
    /// For a flow that was decided before, that takes the same time under few policies and under many.
    pub fn decide(&mut self, d: Direction, v: &View) -> Option<usize>
        ensures entry { option_and_then (slice_get self.old.spd) result ≡ first_entry self.old.spd d (seen v.now) }
        ensures same { self.new ≡ self.old }
    {
        self.decisions.decide(&self.spd, d, v)
    }

    /// The halves, in the order of installation.
    pub fn halves(&self) -> &SadStore
        ensures { result.now ≡ self.now.halves }
    {
        &self.halves
    }

    /// The half at this place in the order of installation.
    pub fn half(&self, i: usize) -> &Half
        requires { i < length self.now.halves }
        ensures half { slice_get self.now.halves i ≡ Some result.now }
        ensures sound { IsHalf result.now }
    {
        self.halves.half(i)
    }

    /// Where the newest outbound half with this `reqid` is whose selector holds the packet (RFC 4301 section 5.1).
    pub fn pick_out(&self, reqid: u64, v: &View) -> Option<usize>
        ensures place { result ≡ newest_place reqid (seen v.now) self.now.halves }
        ensures within { IfSome result (λ i. i < length self.now.halves) }
    {
        self.halves.pick_out(reqid, v)
    }

    /// Where the inbound half with this SPI is (RFC 4301 section 4.1).
    pub fn by_spi(&self, spi: u32) -> Option<usize>
        ensures place { result ≡ position (is_half_of_spi spi) self.now.halves }
        ensures within { IfSome result (λ i. i < length self.now.halves) }
    {
        self.halves.by_spi(spi)
    }

    /// The clock, in seconds.
    pub fn clock(&self) -> u32
        ensures { result ≡ self.now.clock }
    {
        self.clock
    }

    /// Whether an acquire of the policy of this name stands.
    pub fn is_acquired(&self, name: &Name) -> bool
        ensures { result ≡ list_any (λ q. bytes_eq q name.now) self.now.acquires }
    {
        is_among(name.as_slice(), &self.acquires)
    }

    /// Whether a notice of this SPI stands.
    pub fn is_bad_spi(&self, spi: u32) -> bool
        ensures { result ≡ list_any (λ s. s == spi) self.now.bad_spis }
    {
        self.bad_spis.iter().any(|s| *s == spi)
    }

    /// A copy of the names of the policies whose acquire stands, and one more.
    pub fn acquires_and(&self, name: Name) -> Result<Names, NoMemory>
        ensures { IfOk result (λ names. names ≡ self.now.acquires ++ name ∷ []) }
    {
        copied_and(&self.acquires, *self.acquires.allocator(), name)
    }

    /// A copy of both databases: the list in force, and each half with its counts at this clock and its greatest number.
    pub fn tree(&self) -> Result<Tree, NoMemory>
        ensures tree { IfOk result (λ tree. tree ≡ tree_of self.now) }
        ensures sound { IsSound self.now }
    {
        Ok(Tree {
            spd: self.spd.copy()?,
            sad: rows(*self.acquires.allocator(), &self.halves, self.clock)?,
        })
    }

    /// Another list is in force. No acquire stands then.
    pub fn set_list(&mut self, list: Entries)
        requires { spd_fault list ≡ None }
        ensures { self.new ≡ with_list list self.old }
    {
        self.decisions.forget();
        self.spd = list;
        self.acquires.clear();
    }

    /// Installs a half. If it is outbound, no acquire of a policy with its `reqid` stands then.
    pub fn install(&mut self, e: SadEntry) -> Result<(), NoMemory>
        requires sound { sad_fault e ≡ None }
        requires free { install_fault e self.old.halves ≡ None }
        ensures ok { OnOk result (self.new ≡ installed e self.old) }
        ensures err { OnErr result (self.new ≡ self.old) }
    {
        let reqid = e.reqid;
        let is_in = comes_in(&e.name);
        match self.halves.install(e, self.clock) {
            Err(_) => Err(NoMemory),
            Ok(()) => {
                if !is_in {
                    unstand(&mut self.acquires, reqid, &self.spd);
                }
                Ok(())
            }
        }
    }

    /// Takes the half of this name out, if there is one.
    pub fn remove(&mut self, name: &Name)
        ensures { self.new ≡ removed name.now self.old }
    {
        self.halves.remove(name);
    }

    /// Takes the halves of these names out.
    pub fn remove_all(&mut self, names: &Names)
        ensures { self.new ≡ removed_all names.now self.old }
    {
        take_out(&mut self.halves, names);
    }

    /// A session is taken: no notice stands.
    pub fn session(&mut self)
        ensures { self.new ≡ session_taken self.old }
    {
        self.halves.session();
        self.acquires.clear();
        self.bad_spis.clear();
    }

    /// The acquires of these policies stand.
    pub fn set_acquires(&mut self, names: Names)
        ensures { self.new ≡ with_acquires names self.old }
    {
        self.acquires = names.into_items();
    }

    /// A notice of this SPI stands, and of the newest 63 before it.
    pub fn add_bad_spi(&mut self, spi: u32)
        ensures { self.new ≡ with_bad_spi spi self.old }
    {
        note(&mut self.bad_spis, spi);
    }

    /// An overflow of this half's numbers is told.
    pub fn tell_overflow(&mut self, i: usize)
        requires { i < length self.old.halves }
        ensures { self.new ≡ told_at i self.old }
    {
        self.halves.overflow(i);
    }

    /// This half sends its next number, with these ESP octets, and is looked at.
    pub fn send(&mut self, i: usize, octets: u64)
        requires within { i < length self.old.halves }
        requires last { option_map (λ x. nat_lt x.sent 4294967295) (slice_get self.old.halves i) ≡ Some true }
        ensures { self.new ≡ sent_at octets i self.old }
    {
        send_at(&mut self.halves, i, octets, self.clock);
    }

    /// This half takes a fresh number, with these ESP octets, and is looked at.
    pub fn take_number(&mut self, i: usize, octets: u64, number: u64)
        requires within { i < length self.old.halves }
        requires fresh { option_map (λ x. judged x.window number) (slice_get self.old.halves i) ≡ Some Fresh }
        ensures { self.new ≡ taken_at octets number i self.old }
    {
        take_at(&mut self.halves, i, octets, number, self.clock);
    }

    /// The clock is read, and all halves are looked at.
    pub fn look(&mut self, clock: u32)
        ensures { self.new ≡ looked_at clock self.old }
    {
        look_at_all(&mut self.halves, clock);
        self.clock = clock;
    }
}
