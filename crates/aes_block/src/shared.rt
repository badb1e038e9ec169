//! The first two rounds of blocks that differ in the last octet alone, as most counter blocks do.

ghost use Rattle.std.specs.Prelude.{◌≡◌};
ghost use Rattle.aes_block.specs.Columns.{columns_without};
ghost use Rattle.aes_block.specs.Shared.{SharesWords, after_two, with_last};

use crate::columns::{column, entry_0, entry_1, entry_2, entry_3, first};

/// What the first two rounds have in common for all blocks that differ in the last octet alone.
#[derive(Clone, Copy, Drop)]
pub struct SharedRounds {
    // Column 3 before the first round, without the last octet of the block.
    pub(crate) last: u32,
    // Column 0 after the first round, without what its row 3 adds.
    pub(crate) column: u32,
    // The columns after the second round, without what that column 0 adds.
    pub(crate) columns: [u32; 4],
}

// The columns after the second round, from the columns 1, 2 and 3 after the first.
fn columns_without(w: &[u32; 60], q: u32, r: u32, t: u32) -> [u32; 4]
    ensures { result ≡ columns_without w.now q r t }
{
    [
        entry_1(q) ^ entry_2(r) ^ entry_3(t) ^ w[8],
        entry_0(q) ^ entry_1(r) ^ entry_2(t) ^ w[9],
        entry_0(r) ^ entry_1(t) ^ entry_3(q) ^ w[10],
        entry_0(t) ^ entry_2(q) ^ entry_3(r) ^ w[11],
    ]
}

// The block with 0 as its last octet.
fn without_last(b: &[u8; 16]) -> [u8; 16]
    ensures { result ≡ with_last b.now 0 }
{
    [
        b[0], b[1], b[2], b[3], b[4], b[5], b[6], b[7], b[8], b[9], b[10], b[11], b[12], b[13],
        b[14], 0,
    ]
}

pub(crate) fn shared(w: &[u32; 60], b: &[u8; 16]) -> SharedRounds
    ensures { SharesWords result w.now b.now }
{
    let s = first(w, &without_last(b));
    let q = column(s[1], s[2], s[3], s[0], w[5]);
    let r = column(s[2], s[3], s[0], s[1], w[6]);
    let t = column(s[3], s[0], s[1], s[2], w[7]);
    SharedRounds {
        last: s[3],
        column: entry_0(s[0]) ^ entry_1(s[1]) ^ entry_2(s[2]) ^ w[4],
        columns: columns_without(w, q, r, t),
    }
}

// The columns after two rounds of the block with this last octet.
pub(crate) fn after_two(s: &SharedRounds, last: u8) -> [u32; 4]
    ensures { result ≡ after_two s.now last }
{
    let a = s.column ^ entry_3(s.last ^ last as u32);
    [
        s.columns[0] ^ entry_0(a),
        s.columns[1] ^ entry_3(a),
        s.columns[2] ^ entry_2(a),
        s.columns[3] ^ entry_1(a),
    ]
}
