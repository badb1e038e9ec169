// Packets from inside.
ghost use Rattle.std.specs.Prelude.{◌≡◌, ◌≤◌, ◌<◌, ℕ, Some, None, Ok, IfOk, length, slice_get};
ghost use Rattle.ip_packet.specs.View.{seen};
ghost use Rattle.ikeless_tree.specs.Check.{sad_fault};
ghost use Rattle.ikeless_tree.specs.declared.entry.SpdEntry.{SpdEntry};
ghost use Rattle.sad_store.specs.Halves.{newest_place};
ghost use Rattle.gw_tables.specs.Kept.{Kept};
ghost use Rattle.gw_packets.specs.Change.{Fits, planned};
ghost use Rattle.gw_packets.specs.Outbound.{let_in, let_by_action, let_by_view, protected_by, sealed_at, sent_under, spent, without_half};

use crate::done::{Config, PacketAnswer};
use crate::flow::{decider, flow_of, why_of};
use crate::notices::{event_after, going, tell, tell_use};
use crate::plan::{Plan, TableChange, answer_with, drop_for};
use crate::seal::sealed;
use esp_frame::esp_len;
use gw_tables::Tables;
use ikeless_tree::{Action, Direction, DropWhy, Notice, SpdEntry};
use ikl_base::{Duplicate, NoMemory, Octets};
use ip_packet::{View, view};
use sad_store::Half;
use std::alloc::Global;

const LONGEST: usize = 65000;

// No half seals for this policy.
fn acquire(alloc: Global, tables: &Tables, v: &View, p: &SpdEntry) -> Result<Plan, NoMemory>
    ensures plan { IfOk result (λ q. planned q tables.now ≡ without_half (seen v.now) p.now tables.now) }
    ensures fits { IfOk result (λ q. Fits q.change tables.now) }
{
    if tables.is_acquired(&p.name) {
        return Ok(drop_for(alloc, DropWhy::NoSa));
    }
    let acquires = tables.acquires_and(p.name.copy()?)?;
    let notice = Notice::Acquire {
        policy: p.name.copy()?,
        selector: flow_of(alloc, v)?,
    };
    tell(
        alloc,
        DropWhy::NoSa,
        notice,
        TableChange::Acquires(acquires),
    )
}

// The half at this place has sent its last number.
fn end_of(alloc: Global, i: usize, x: &Half) -> Result<Plan, NoMemory>
    ensures plan { IfOk result (λ q. (k : Kept) → planned q k ≡ spent i x.now k) }
    ensures fits { IfOk result (λ q. (k : Kept) → i < length k.halves → Fits q.change k) }
{
    if x.overflow {
        return Ok(drop_for(alloc, DropWhy::SeqLimit));
    }
    let notice = Notice::SeqOverflow {
        name: x.entry.name.copy()?,
    };
    tell(alloc, DropWhy::SeqLimit, notice, TableChange::Overflow(i))
}

// The packet is sent under the half at this place.
fn send(
    alloc: Global,
    clock: u32,
    octets: &[u8],
    v: &View,
    i: usize,
    x: &Half,
) -> Result<Plan, NoMemory>
    requires sound { sad_fault x.now.entry ≡ None }
    requires low { x.now.sent < 4294967295 }
    requires packet { length octets.now ≤ 65000 }
    ensures plan { IfOk result (λ q. (k : Kept) → clock ≡ k.clock → planned q k ≡ sent_under octets.now (seen v.now) i x.now k) }
    ensures fits { IfOk result (λ q. (k : Kept) → i < length k.halves → slice_get k.halves i ≡ Some x.now → Fits q.change k) }
{
    let number = x.sent + 1;
    let size = esp_len(octets.len()) as u64;
    let answer = PacketAnswer::Sent {
        name: x.entry.name.copy()?,
        number,
        octets: sealed(alloc, &x.entry, number, v, octets)?,
    };
    let (counts, event) = event_after(&x.life, size, clock);
    Ok(Plan {
        done: tell_use(alloc, answer, &x.entry.name, counts, event)?,
        change: TableChange::Send {
            place: i,
            octets: size,
            gone: going(&x.entry.name, event)?,
        },
    })
}

// The half at this place seals the packet, while it has numbers.
fn seal_at(
    alloc: Global,
    tables: &Tables,
    seq_last: u64,
    octets: &[u8],
    v: &View,
    i: usize,
) -> Result<Plan, NoMemory>
    requires most { seq_last ≤ 4294967295 }
    requires packet { length octets.now ≤ 65000 }
    requires within { i < length tables.now.halves }
    ensures plan { IfOk result (λ q. (p : SpdEntry) → planned q tables.now ≡ sealed_at seq_last octets.now (seen v.now) p i
        (slice_get tables.now.halves i) tables.now) }
    ensures fits { IfOk result (λ q. Fits q.change tables.now) }
{
    let x = tables.half(i);
    if x.sent >= seq_last {
        end_of(alloc, i, x)
    } else {
        send(alloc, tables.clock(), octets, v, i, x)
    }
}

// The newest half that seals for this policy does so.
fn protect(
    alloc: Global,
    tables: &Tables,
    seq_last: u64,
    octets: &[u8],
    v: &View,
    p: &SpdEntry,
) -> Result<Plan, NoMemory>
    requires most { seq_last ≤ 4294967295 }
    requires packet { length octets.now ≤ 65000 }
    ensures plan { IfOk result (λ q. planned q tables.now ≡ protected_by seq_last octets.now (seen v.now) p.now
        (newest_place p.now.reqid (seen v.now) tables.now.halves) tables.now) }
    ensures fits { IfOk result (λ q. Fits q.change tables.now) }
{
    match tables.pick_out(p.reqid, v) {
        None => acquire(alloc, tables, v, p),
        Some(i) => seal_at(alloc, tables, seq_last, octets, v, i),
    }
}

fn let_decided(
    alloc: Global,
    tables: &Tables,
    seq_last: u64,
    octets: &[u8],
    v: &View,
    p: &SpdEntry,
) -> Result<Plan, NoMemory>
    requires most { seq_last ≤ 4294967295 }
    requires packet { length octets.now ≤ 65000 }
    ensures plan { IfOk result (λ q. planned q tables.now ≡ let_by_action seq_last octets.now (seen v.now) p.now p.now.action tables.now) }
    ensures fits { IfOk result (λ q. Fits q.change tables.now) }
{
    match p.action {
        Action::Protect => protect(alloc, tables, seq_last, octets, v, p),
        Action::Bypass => {
            let copy = Octets::from_slice(alloc, octets)?;
            Ok(answer_with(alloc, PacketAnswer::Clear(copy)))
        }
        Action::Discard => Ok(drop_for(alloc, DropWhy::Discard)),
    }
}

fn let_viewed(
    alloc: Global,
    tables: &mut Tables,
    seq_last: u64,
    octets: &[u8],
    v: &View,
) -> Result<Plan, NoMemory>
    requires { seq_last ≤ 4294967295 }
    ensures plan { IfOk result (λ q. planned q tables.old ≡ let_by_view seq_last octets.now (Ok (seen v.now)) tables.old) }
    ensures fits { IfOk result (λ q. Fits q.change tables.old) }
    ensures same { tables.new ≡ tables.old }
{
    if octets.len() > LONGEST {
        return Ok(drop_for(alloc, DropWhy::TooLong));
    }
    let place = tables.decide(Direction::Out, v);
    match decider(tables.spd(), place) {
        None => Ok(drop_for(alloc, DropWhy::NoPolicy)),
        Some(p) => let_decided(alloc, tables, seq_last, octets, v, p),
    }
}

/// What a gateway does at a packet from inside (RFC 4301 section 5.1), with all the memory that it needs.
///
/// It is the machine's answer; that this is the law's, `let_acts` of `hist_gateway`, says `events_follow` of `gw_law`.
pub fn plan_let(
    alloc: Global,
    tables: &mut Tables,
    config: &Config,
    octets: &[u8],
) -> Result<Plan, NoMemory>
    requires some { 1 ≤ config.now.seq_last }
    requires most { config.now.seq_last ≤ 4294967295 }
    ensures plan { IfOk result (λ q. planned q tables.old ≡ let_in config.now.seq_last octets.now tables.old) }
    ensures fits { IfOk result (λ q. Fits q.change tables.old) }
    ensures same { tables.new ≡ tables.old }
{
    match view(octets) {
        Err(fault) => Ok(drop_for(alloc, why_of(fault))),
        Ok(v) => let_viewed(alloc, tables, config.seq_last, octets, &v),
    }
}
