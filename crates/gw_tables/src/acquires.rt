// The policies whose acquire stands.
ghost use Rattle.std.specs.Prelude.{◌≡◌, ◌++◌, ◌∷◌, [], ◌≤◌, take, length, vec_capacity, IfOk};
ghost use Rattle.std.specs.List.{list_any};
ghost use Rattle.std.specs.Str.{bytes_eq};
ghost use Rattle.ikeless_tree.specs.Half.{is_inbound};
ghost use Rattle.hist_gateway.specs.Stands.{has_reqid};
ghost use Rattle.gw_tables.specs.Kept.{unwanted};

use ikeless_tree::{Entries, Names, SpdEntry};
use ikl_base::{Duplicate, Name, NoMemory};
use std::alloc::Global;

// The direction of a half is the front of its name.
pub(crate) fn comes_in(name: &Name) -> bool
    ensures { result ≡ is_inbound name.now }
{
    name.as_slice().strip_prefix(b"in/".as_slice()).is_some()
}

pub(crate) fn is_among(name: &[u8], names: &[Name]) -> bool
    ensures { result ≡ list_any (λ q. bytes_eq q name.now) names.now }
{
    names.iter().any(|q| q.as_slice() == name)
}

// The entry of this name has this `reqid`.
fn has_id(name: &[u8], reqid: u64, list: &[SpdEntry]) -> bool
    ensures { result ≡ has_reqid name.now reqid list.now }
{
    list.iter()
        .any(|e| e.name.as_slice() == name && e.reqid == reqid)
}

// Takes out the policies with this `reqid`.
pub(crate) fn unstand(names: &mut Vec<Name>, reqid: u64, list: &Entries)
    ensures { names.new.items ≡ unwanted reqid list.now names.old.items }
{
    let mut i = names.len();
    while i > 0 {
        i -= 1;
        if has_id(names[i].as_slice(), reqid, list.as_slice()) {
            let _told = names.remove(i);
        }
    }
}

// A copy of these names, and one more.
pub(crate) fn copied_and(names: &[Name], alloc: Global, name: Name) -> Result<Names, NoMemory>
    ensures { IfOk result (λ r. r ≡ names.now ++ name ∷ []) }
{
    let mut copies = Names::new(alloc);
    for q in names {
        copies.push(q.copy()?)?;
    }
    copies.push(name)?;
    Ok(copies)
}

// One more SPI, as the first of at most 64.
pub(crate) fn note(spis: &mut Vec<u32>, spi: u32)
    requires few { length spis.old.items ≤ 64 }
    requires room { 65 ≤ vec_capacity spis.old }
    ensures items { spis.new.items ≡ take 64 (spi ∷ spis.old.items) }
    ensures few { length spis.new.items ≤ 64 }
    ensures room { 65 ≤ vec_capacity spis.new }
{
    match spis.insert(0, spi) {
        Ok(()) => spis.truncate(64),
        Err(_) => unreachable!(),
    }
}
