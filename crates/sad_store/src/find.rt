// Halves in a list.
ghost use Rattle.std.specs.Prelude.{◌≡◌, ◌+◌, ◌<◌, Some, length, position, map, take, slice_get};
ghost use Rattle.std.specs.Option.{option_map};
ghost use Rattle.ip_packet.specs.View.{seen};
ghost use Rattle.ikeless_tree.specs.Half.{is_inbound};
ghost use Rattle.sad_store.specs.Halves.{entries_of, halves_without, has_half_named, is_half_named, may_seal, newest_place};
ghost use Rattle.sad_store.specs.Columns.{IsIndexed};
ghost use Rattle.sad_store.specs.Kept.{reqid_key, spi_key};
ghost use Rattle.sad_store.specs.Stored.{IsStored};

use crate::column::KeyColumn;
use crate::half::Half;
use ikeless_tree::{Direction, SadEntry};
use ikl_base::Name;
use ip_packet::View;
use spd_match::holds;

// The direction of a half is the front of its name.
pub(crate) fn comes_in(name: &Name) -> bool
    ensures { result ≡ is_inbound name.now }
{
    name.as_slice().strip_prefix(b"in/".as_slice()).is_some()
}

fn place_of(halves: &[Half], name: &[u8]) -> Option<usize>
    ensures { result ≡ position (is_half_named name.now) halves.now }
{
    halves.iter().position(|x| x.entry.name.as_slice() == name)
}

pub(crate) fn is_taken(halves: &[Half], name: &[u8]) -> bool
    ensures { result ≡ has_half_named name.now halves.now }
{
    halves.iter().any(|x| x.entry.name.as_slice() == name)
}

// The SPI of an inbound half.
pub(crate) fn spi_of(e: &SadEntry) -> Option<u64>
    ensures { result ≡ spi_key e.now }
{
    if comes_in(&e.name) {
        Some(u64::from(e.spi))
    } else {
        None
    }
}

// The `reqid` of an outbound half.
pub(crate) fn reqid_of(e: &SadEntry) -> Option<u64>
    ensures { result ≡ reqid_key e.now }
{
    if comes_in(&e.name) {
        None
    } else {
        Some(e.reqid)
    }
}

fn seals(entry: &SadEntry, reqid: u64, v: &View) -> bool
    ensures { result ≡ may_seal reqid (seen v.now) entry.now }
{
    !comes_in(&entry.name) && entry.reqid == reqid && holds(&entry.selector, Direction::Out, v)
}

fn seals_at(halves: &[Half], reqids: &KeyColumn, i: usize, reqid: u64, v: &View) -> bool
    requires column { reqids.now.keys.items ≡ map reqid_key (entries_of halves.now) }
    requires within { i < length halves.now }
    requires in_column { i < length reqids.now.keys.items }
    ensures { option_map (λ x. may_seal reqid (seen v.now) x.entry) (slice_get halves.now i) ≡ Some result }
{
    reqids.is_at(i, reqid) && seals(&halves[i].entry, reqid, v)
}

// The same, where no half after this place seals.
fn newest_up_to(
    halves: &[Half],
    reqids: &KeyColumn,
    last: usize,
    reqid: u64,
    v: &View,
) -> Option<usize>
    requires column { reqids.now.keys.items ≡ map reqid_key (entries_of halves.now) }
    requires length { length reqids.now.keys.items ≡ length halves.now }
    requires within { last < length halves.now }
    requires none_later { newest_place reqid (seen v.now) halves.now ≡ newest_place reqid (seen v.now) (take (last + 1) halves.now) }
    ensures { result ≡ newest_place reqid (seen v.now) halves.now }
{
    let mut i = last + 1;
    while i > 0 {
        i -= 1;
        if seals_at(halves, reqids, i, reqid, v) {
            return Some(i);
        }
    }
    None
}

// Where the newest such half is, by the column of `reqid`s.
pub(crate) fn newest_of(halves: &[Half], reqids: &KeyColumn, reqid: u64, v: &View) -> Option<usize>
    requires column { reqids.now.keys.items ≡ map reqid_key (entries_of halves.now) }
    requires length { length reqids.now.keys.items ≡ length halves.now }
    requires indexed { IsIndexed reqids.now.keys.items reqids.now.places }
    ensures { result ≡ newest_place reqid (seen v.now) halves.now }
{
    match reqids.last(reqid) {
        None => None,
        Some(last) => newest_up_to(halves, reqids, last, reqid, v),
    }
}

// Takes the half of this name out, and what the columns have of it. False where there is none.
pub(crate) fn take_out(
    halves: &mut Vec<Half>,
    spis: &mut KeyColumn,
    reqids: &mut KeyColumn,
    name: &Name,
) -> bool
    requires stored { IsStored halves.old.items spis.old reqids.old }
    requires spis { length spis.old.keys.items ≡ length halves.old.items }
    requires reqids { length reqids.old.keys.items ≡ length halves.old.items }
    ensures stored { IsStored halves.new.items spis.new reqids.new }
    ensures found { result ≡ has_half_named name.now halves.old.items }
    ensures halves { halves.new.items ≡ halves_without name.now halves.old.items }
{
    match place_of(halves, name.as_slice()) {
        None => false,
        Some(i) => {
            spis.remove(i);
            reqids.remove(i);
            let _gone = halves.remove(i);
            true
        }
    }
}
