// Changes of the halves.
ghost use Rattle.std.specs.Prelude.{◌≡◌, ◌==◌, ◌&&◌, ◌<◌, position, find, IfOk, Some, None};
ghost use Rattle.std.specs.Option.{option_copied};
ghost use Rattle.std.specs.List.{remove, list_any};
ghost use Rattle.ikeless_tree.specs.Half.{is_inbound};
ghost use Rattle.reply_table.specs.Reply.{is_row, row_names, has_spi, new_row, without_row};
ghost use Rattle.rc_resource.specs.Lists.{IsFirst, AreDistinct};

use ikeless_tree::{Limits, Names, Rows, SaState, SadEntry, SadRow};
use ikl_base::{Duplicate, Name, NoMemory};
use std::alloc::Global;
use std::mem;

fn place_of(rows: &[SadRow], name: &[u8]) -> Option<usize>
    ensures { result ≡ position (is_row name.now) rows.now }
{
    rows.iter()
        .position(|row| row.entry.name.as_slice() == name)
}

/// Whether there is a half of this name.
pub(crate) fn has_half(rows: &[SadRow], name: &[u8]) -> bool
    ensures { result ≡ list_any (is_row name.now) rows.now }
{
    rows.iter().any(|row| row.entry.name.as_slice() == name)
}

/// Where the half of this name is.
pub(crate) fn find_half(rows: &[SadRow], name: &Name) -> Option<usize>
    ensures { IsFirst (is_row name.now) rows.now result }
{
    place_of(rows, name.as_slice())
}

/// The half of this name.
pub(crate) fn half_named<'a>(rows: &'a Rows, name: &Name) -> Option<&'a SadRow>
    ensures { option_copied result ≡ find (is_row name.now) rows.now }
{
    match find_half(rows.as_slice(), name) {
        Some(at) => rows.get(at),
        None => None,
    }
}

/// Whether a half is inbound, by its name.
pub(crate) fn is_inbound(name: &[u8]) -> bool
    ensures { result ≡ is_inbound name.now }
{
    name.strip_prefix(b"in/".as_slice()).is_some()
}

/// Whether an inbound half has this SPI.
pub(crate) fn has_spi(rows: &[SadRow], spi: u32) -> bool
    ensures { result ≡ has_spi spi rows.now }
{
    rows.iter().any(|row| is_inbound(row.entry.name.as_slice()) && row.entry.spi == spi)
}

/// The names of all halves.
pub(crate) fn names_of(alloc: Global, rows: &[SadRow]) -> Result<Names, NoMemory>
    ensures { IfOk result (λ names. names ≡ row_names rows.now) }
{
    let mut names = Vec::new(alloc);
    for row in rows {
        names.push(row.entry.name.copy()?)?;
    }
    Ok(Names::from_items(names))
}

/// A half that was not used yet.
pub(crate) fn unused(entry: SadEntry) -> SadRow
    ensures { result ≡ new_row entry }
{
    let current = Limits {
        time: 0,
        bytes: 0,
        packets: 0,
        idle: 0,
    };
    SadRow {
        entry,
        state: SaState { current, top: 0 },
    }
}

/// Takes the half of this name out of the rows.
pub(crate) fn remove_half(alloc: Global, rows: &mut Rows, at: usize, name: &Name)
    requires distinct { AreDistinct rows.old }
    requires first { IsFirst (is_row name.now) rows.old (Some at) }
    ensures { rows.new ≡ without_row name.now rows.old }
{
    let mut items = mem::replace(rows, Rows::new(alloc)).into_items();
    items.remove(at);
    *rows = Rows::from_items(items);
}
