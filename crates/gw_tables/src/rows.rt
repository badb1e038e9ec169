// The halves as requests see them.
ghost use Rattle.std.specs.Prelude.{◌≡◌, map, IfOk};
ghost use Rattle.hist_gateway.specs.Machine.{row_from, top_of};

use crate::acquires::comes_in;
use ikeless_tree::{Rows, SaState, SadRow};
use ikl_base::{Duplicate, NoMemory};
use sad_store::{Half, SadStore};
use std::alloc::Global;

// The greatest number that an inbound half has taken, or that an outbound one has sent.
fn top(x: &Half) -> u64
    ensures { result ≡ top_of x.now }
{
    if comes_in(&x.entry.name) {
        x.window.top()
    } else {
        x.sent
    }
}

fn row(x: &Half, clock: u32) -> Result<SadRow, NoMemory>
    ensures { IfOk result (λ r. r ≡ row_from clock x.now) }
{
    Ok(SadRow {
        entry: x.entry.copy()?,
        state: SaState {
            current: x.life.current(clock),
            top: top(x),
        },
    })
}

pub(crate) fn rows(alloc: Global, halves: &SadStore, clock: u32) -> Result<Rows, NoMemory>
    ensures { IfOk result (λ rows. rows ≡ map (row_from clock) halves.now) }
{
    let mut rows = Rows::new(alloc);
    for i in 0..halves.len() {
        rows.push(row(halves.half(i), clock)?)?;
    }
    Ok(rows)
}
