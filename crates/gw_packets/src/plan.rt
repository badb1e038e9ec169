// What is to be done and changed, made before it is carried out.
ghost use Rattle.std.specs.Prelude.{◌≡◌, ◌∷◌, [], Some, None};
ghost use Rattle.ikeless_tree.specs.declared.drops.DropWhy.TheVariants as why;
ghost use Rattle.gw_packets.specs.declared.done.PacketAnswer.TheVariants as answers;
ghost use Rattle.gw_packets.specs.Change.{Fits, applied, gone_from, planned};
ghost use Rattle.gw_tables.specs.Kept.{Kept};
ghost use Rattle.gw_packets.specs.Outcome.{answered, dropped};

use crate::done::{Done, Notices, PacketAnswer};
use gw_tables::Tables;
use ikeless_tree::{DropWhy, Names};
use ikl_base::Name;
use std::alloc::Global;

/// What changes of what a gateway keeps, with all the memory that it needs.
#[derive(Debug, Drop)]
pub enum TableChange {
    Nothing,
    /// The acquires of these policies stand, and no others.
    Acquires(Names),
    /// A notice of this SPI stands.
    BadSpi(u32),
    /// An overflow of the numbers of the half at this place was told.
    Overflow(usize),
    /// The half at this place sends its next number, with these ESP octets. The half of the name is gone then.
    Send {
        place: usize,
        octets: u64,
        gone: Option<Name>,
    },
    /// The half at this place takes a number, with these ESP octets. The half of the name is gone then.
    Take {
        place: usize,
        octets: u64,
        number: u64,
        gone: Option<Name>,
    },
    /// The clock is read. The halves of the names are gone then.
    Look {
        clock: u32,
        gone: Names,
    },
}

/// What a gateway does, and what is left to change once it is done.
#[derive(Debug, Drop)]
pub struct Plan {
    pub done: Done,
    pub change: TableChange,
}

fn take_gone(tables: &mut Tables, gone: Option<Name>)
    ensures { tables.new ≡ gone_from gone tables.old }
{
    match gone {
        None => {}
        Some(name) => tables.remove(&name),
    }
}

/// Changes what is kept, as a plan says that was made of it. It takes no memory.
pub fn carry_out(tables: &mut Tables, change: TableChange)
    requires { Fits change tables.old }
    ensures { tables.new ≡ applied change tables.old }
{
    match change {
        TableChange::Nothing => {}
        TableChange::Acquires(names) => tables.set_acquires(names),
        TableChange::BadSpi(spi) => tables.add_bad_spi(spi),
        TableChange::Overflow(place) => tables.tell_overflow(place),
        TableChange::Send {
            place,
            octets,
            gone,
        } => {
            tables.send(place, octets);
            take_gone(tables, gone);
        }
        TableChange::Take {
            place,
            octets,
            number,
            gone,
        } => {
            tables.take_number(place, octets, number);
            take_gone(tables, gone);
        }
        TableChange::Look { clock, gone } => {
            tables.look(clock);
            tables.remove_all(&gone);
        }
    }
}

// An answer, and nothing else.
pub(crate) fn answer_with(alloc: Global, answer: PacketAnswer) -> Plan
    ensures plan { (k : Kept) → planned result k ≡ answered answer k }
    ensures fits { (k : Kept) → Fits result.change k }
{
    Plan {
        done: Done {
            answer: Some(answer),
            gone: Names::new(alloc),
            notices: Notices::new(alloc),
        },
        change: TableChange::Nothing,
    }
}

// A packet is dropped, and nothing else.
pub(crate) fn drop_for(alloc: Global, why: DropWhy) -> Plan
    ensures plan { (k : Kept) → planned result k ≡ dropped why k }
    ensures fits { (k : Kept) → Fits result.change k }
{
    answer_with(alloc, PacketAnswer::Drop(why))
}
