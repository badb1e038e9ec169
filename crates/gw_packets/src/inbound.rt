// Datagrams from outside.
ghost use Rattle.std.specs.Prelude.{◌≡◌, ◌≤◌, ◌<◌, ℕ, Some, None, Ok, IfOk, MatchResult, length, position, slice_get};
ghost use Rattle.ip_packet.specs.View.{seen};
ghost use Rattle.ip_packet.specs.Field.{version};
ghost use Rattle.ikeless_tree.specs.Check.{sad_fault};
ghost use Rattle.esp_frame.specs.Esp.{keying, seq_of, spi_of};
ghost use Rattle.esp_frame.specs.Open.{opened};
ghost use Rattle.replay_win.specs.Marks.{judged};
ghost use Rattle.replay_win.specs.declared.verdict.Verdict.TheVariants.{Fresh};
ghost use Rattle.sad_store.specs.Halves.{is_half_of_spi, take_number};
ghost use Rattle.hist_gateway.specs.Arrive.{is_sealed_for, is_told_version};
ghost use Rattle.gw_tables.specs.Kept.{Kept};
ghost use Rattle.gw_packets.specs.declared.done.PacketAnswer.TheVariants as answers;
ghost use Rattle.gw_packets.specs.Change.{Fits, planned};
ghost use Rattle.gw_packets.specs.Looks.{used};
ghost use Rattle.gw_packets.specs.Opened.{answer_by, taken_by};
ghost use Rattle.gw_packets.specs.Inbound.{answer_by_packet, arrive, arrive_by_view, clear_by_action, opened_at, opened_by_place, opened_by_text, opened_by_verdict, opened_esp, without_half};

use crate::done::{Config, PacketAnswer};
use crate::flow::{decider, why_of};
use crate::notices::{event_after, going, tell, tell_use};
use crate::plan::{Plan, TableChange, answer_with, drop_for};
use crate::seal::key_of;
use crate::unseal::{Unsealed, open_copy};
use esp_frame::fields;
use gw_tables::Tables;
use ikeless_tree::{Action, Direction, DropWhy, Notice, SadEntry};
use ikl_base::{Addr, Duplicate, NoMemory, Octets};
use ip_packet::{View, view};
use replay_win::Verdict;
use sad_store::Half;
use spd_match::holds;
use std::alloc::Global;

fn version_of(packet: &[u8]) -> u8
    ensures { result ≡ version packet.now }
{
    match packet {
        [] => 0,
        [first, ..] => *first / 16,
    }
}

// The packet is of the version that the next header tells.
fn is_told(next: u8, packet: &[u8]) -> bool
    ensures { result ≡ is_told_version next packet.now }
{
    let version = version_of(packet);
    (next == 4 && version == 4) || (next == 41 && version == 6)
}

// Whether a packet that was opened is given.
fn check_packet(e: &SadEntry, next: u8, packet: &[u8]) -> Result<(), DropWhy>
    ensures { (n : ℕ) → MatchResult result
        (λ _. answer_by_packet e.now n (Some (record { next = next; octets = packet.now })) ≡ answers.Gave e.now.name n packet.now)
        (λ w. answer_by_packet e.now n (Some (record { next = next; octets = packet.now })) ≡ answers.Drop w) }
{
    if next == 59 {
        return Err(DropWhy::Dummy);
    }
    match view(packet) {
        Err(_) => Err(DropWhy::Inner),
        Ok(v) => {
            if !is_told(next, packet) {
                Err(DropWhy::Inner)
            } else if holds(&e.selector, Direction::In, &v) {
                Ok(())
            } else {
                Err(DropWhy::Selector)
            }
        }
    }
}

// The answer to what was opened with this number; none where it didn't open.
fn answer_to(e: &SadEntry, number: u64, u: Unsealed) -> Result<Option<PacketAnswer>, NoMemory>
    ensures { IfOk result (λ a. a ≡ answer_by e.now number u) }
{
    match u {
        Unsealed::Refused => Ok(None),
        Unsealed::Padding => Ok(Some(PacketAnswer::Drop(DropWhy::Padding))),
        Unsealed::Packet { next, octets } => match check_packet(e, next, octets.as_slice()) {
            Err(why) => Ok(Some(PacketAnswer::Drop(why))),
            Ok(()) => Ok(Some(PacketAnswer::Gave {
                name: e.name.copy()?,
                number,
                octets,
            })),
        },
    }
}

// The half at this place takes a number.
fn take(
    alloc: Global,
    clock: u32,
    size: usize,
    i: usize,
    x: &Half,
    number: u64,
    answer: PacketAnswer,
) -> Result<Plan, NoMemory>
    requires { judged x.now.window number ≡ Fresh }
    ensures plan { IfOk result (λ q. (k : Kept) → clock ≡ k.clock → planned q k ≡ used answer i (take_number k.clock size number)
        (take_number k.clock size number x.now) k) }
    ensures fits { IfOk result (λ q. (k : Kept) → i < length k.halves → slice_get k.halves i ≡ Some x.now → Fits q.change k) }
{
    let octets = size as u64;
    let (counts, event) = event_after(&x.life, octets, clock);
    Ok(Plan {
        done: tell_use(alloc, answer, &x.entry.name, counts, event)?,
        change: TableChange::Take {
            place: i,
            octets,
            number,
            gone: going(&x.entry.name, event)?,
        },
    })
}

// A fresh number: the octets are opened.
fn open_fresh(
    alloc: Global,
    clock: u32,
    octets: &[u8],
    i: usize,
    x: &Half,
    number: u64,
) -> Result<Plan, NoMemory>
    requires fresh { judged x.now.window number ≡ Fresh }
    requires sound { sad_fault x.now.entry ≡ None }
    requires least { 34 ≤ length octets.now }
    requires most { length octets.now ≤ 65535 }
    ensures plan { IfOk result (λ q. (k : Kept) → clock ≡ k.clock → planned q k ≡ opened_by_text octets.now i x.now number
        (opened (keying x.now.entry.spi x.now.entry.key) octets.now) k) }
    ensures fits { IfOk result (λ q. (k : Kept) → i < length k.halves → slice_get k.halves i ≡ Some x.now → Fits q.change k) }
{
    let u = open_copy(alloc, &key_of(&x.entry), octets, number)?;
    match answer_to(&x.entry, number, u)? {
        None => Ok(drop_for(alloc, DropWhy::Auth)),
        Some(answer) => take(alloc, clock, octets.len(), i, x, number, answer),
    }
}

// The window judges the number.
fn judge(
    alloc: Global,
    clock: u32,
    octets: &[u8],
    i: usize,
    x: &Half,
    number: u64,
) -> Result<Plan, NoMemory>
    requires sound { sad_fault x.now.entry ≡ None }
    requires least { 34 ≤ length octets.now }
    requires most { length octets.now ≤ 65535 }
    ensures plan { IfOk result (λ q. (k : Kept) → clock ≡ k.clock → planned q k ≡ opened_by_verdict octets.now i x.now number
        (judged x.now.window number) k) }
    ensures fits { IfOk result (λ q. (k : Kept) → i < length k.halves → slice_get k.halves i ≡ Some x.now → Fits q.change k) }
{
    match x.window.judge(number) {
        Verdict::Zero => Ok(drop_for(alloc, DropWhy::Zero)),
        Verdict::Old => Ok(drop_for(alloc, DropWhy::Old)),
        Verdict::Seen => Ok(drop_for(alloc, DropWhy::Seen)),
        Verdict::Fresh => open_fresh(alloc, clock, octets, i, x, number),
    }
}

// The half at this place opens the octets.
#[tactic(auto, unfolding(hist_halves::specs::Sealed::number_from))]
fn open_at(
    alloc: Global,
    tables: &Tables,
    octets: &[u8],
    i: usize,
    seq: u32,
) -> Result<Plan, NoMemory>
    requires within { i < length tables.now.halves }
    requires seq { seq ≡ seq_of octets.now }
    requires least { 34 ≤ length octets.now }
    requires most { length octets.now ≤ 65535 }
    ensures plan { IfOk result (λ q. planned q tables.now ≡ opened_at octets.now i (slice_get tables.now.halves i) tables.now) }
    ensures fits { IfOk result (λ q. Fits q.change tables.now) }
{
    let x = tables.half(i);
    judge(alloc, tables.clock(), octets, i, x, u64::from(seq))
}

// No inbound half has this SPI.
fn report(alloc: Global, tables: &Tables, spi: u32) -> Result<Plan, NoMemory>
    ensures plan { IfOk result (λ q. planned q tables.now ≡ without_half spi tables.now) }
    ensures fits { IfOk result (λ q. Fits q.change tables.now) }
{
    if tables.is_bad_spi(spi) {
        return Ok(drop_for(alloc, DropWhy::BadSpi));
    }
    tell(
        alloc,
        DropWhy::BadSpi,
        Notice::BadSpi { spi },
        TableChange::BadSpi(spi),
    )
}

fn open_for(
    alloc: Global,
    tables: &Tables,
    octets: &[u8],
    spi: u32,
    seq: u32,
) -> Result<Plan, NoMemory>
    requires spi { spi ≡ spi_of octets.now }
    requires seq { seq ≡ seq_of octets.now }
    requires least { 34 ≤ length octets.now }
    requires most { length octets.now ≤ 65535 }
    ensures plan { IfOk result (λ q. planned q tables.now ≡ opened_by_place octets.now (position (is_half_of_spi spi) tables.now.halves)
        tables.now) }
    ensures fits { IfOk result (λ q. Fits q.change tables.now) }
{
    match tables.by_spi(spi) {
        None => report(alloc, tables, spi),
        Some(i) => open_at(alloc, tables, octets, i, seq),
    }
}

fn open_esp(alloc: Global, tables: &Tables, octets: &[u8]) -> Result<Plan, NoMemory>
    requires { length octets.now ≤ 65535 }
    ensures plan { IfOk result (λ q. planned q tables.now ≡ opened_esp octets.now tables.now) }
    ensures fits { IfOk result (λ q. Fits q.change tables.now) }
{
    match fields(octets) {
        Err(_) => Ok(drop_for(alloc, DropWhy::Short)),
        Ok(f) => open_for(alloc, tables, octets, f.spi, f.seq),
    }
}

fn clear_decided(alloc: Global, octets: &[u8], action: Action) -> Result<Plan, NoMemory>
    ensures plan { IfOk result (λ q. (k : Kept) → planned q k ≡ clear_by_action octets.now action k) }
    ensures fits { IfOk result (λ q. (k : Kept) → Fits q.change k) }
{
    match action {
        Action::Protect => Ok(drop_for(alloc, DropWhy::ClearRefused)),
        Action::Bypass => {
            let copy = Octets::from_slice(alloc, octets)?;
            Ok(answer_with(alloc, PacketAnswer::Pass(copy)))
        }
        Action::Discard => Ok(drop_for(alloc, DropWhy::Discard)),
    }
}

// ESP for the gateway.
fn is_for(own: &Addr, v: &View) -> bool
    ensures { result ≡ is_sealed_for own.now (seen v.now) }
{
    v.proto == 50 && v.dst.is_same(own)
}

fn arrive_viewed(
    alloc: Global,
    tables: &mut Tables,
    own: &Addr,
    octets: &[u8],
    v: &View,
) -> Result<Plan, NoMemory>
    requires { length v.now.payload.now ≤ 65535 }
    ensures plan { IfOk result (λ q. planned q tables.old ≡ arrive_by_view own.now octets.now (Ok (seen v.now)) tables.old) }
    ensures fits { IfOk result (λ q. Fits q.change tables.old) }
    ensures same { tables.new ≡ tables.old }
{
    if is_for(own, v) {
        return open_esp(alloc, tables, v.payload);
    }
    let place = tables.decide(Direction::In, v);
    match decider(tables.spd(), place) {
        None => Ok(drop_for(alloc, DropWhy::NoPolicy)),
        Some(p) => clear_decided(alloc, octets, p.action),
    }
}

/// What a gateway does at a datagram from outside (RFC 4301 section 5.2, RFC 4303 section 3.4), with all the memory that it needs.
///
/// It is the machine's answer; that this is the law's, `arrive_acts` of `hist_gateway`, says `events_follow` of `gw_law`.
pub fn plan_arrive(
    alloc: Global,
    tables: &mut Tables,
    config: &Config,
    octets: &[u8],
) -> Result<Plan, NoMemory>
    ensures plan { IfOk result (λ q. planned q tables.old ≡ arrive config.now.address octets.now tables.old) }
    ensures fits { IfOk result (λ q. Fits q.change tables.old) }
    ensures same { tables.new ≡ tables.old }
{
    match view(octets) {
        Err(fault) => Ok(drop_for(alloc, why_of(fault))),
        Ok(v) => arrive_viewed(alloc, tables, &config.address, octets, &v),
    }
}
