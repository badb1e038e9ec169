//! Rounds on columns of 32 bits. The octet in row 0 of a column is the highest of its number.

ghost use Rattle.std.specs.Prelude.{◌≡◌, ◌<◌, [], ◌∷◌, map, slice_index};
ghost use Rattle.std.specs.Int.{w32, to_be_bytes};
ghost use Rattle.aes_block.specs.Aes.{add_key, add_words, mix_columns, shift_rows, square, sub_octets, sub_word};
ghost use Rattle.aes_block.specs.Columns.{column_of, entry};

use crate::octets::{packed, s_box};
use crate::tables::T;

pub(crate) fn entry_0(w: u32) -> u32
    ensures { result ≡ entry 0 w }
{
    T[w.to_be_bytes()[0] as usize]
}

pub(crate) fn entry_1(w: u32) -> u32
    ensures { result ≡ entry 1 w }
{
    T[256 + w.to_be_bytes()[1] as usize]
}

pub(crate) fn entry_2(w: u32) -> u32
    ensures { result ≡ entry 2 w }
{
    T[512 + w.to_be_bytes()[2] as usize]
}

pub(crate) fn entry_3(w: u32) -> u32
    ensures { result ≡ entry 3 w }
{
    T[768 + w.to_be_bytes()[3] as usize]
}

// One column of a round: row r comes from column r of the four.
pub(crate) fn column(a: u32, b: u32, c: u32, d: u32, k: u32) -> u32
    ensures { result ≡ column_of a b c d k }
{
    entry_0(a) ^ entry_1(b) ^ entry_2(c) ^ entry_3(d) ^ k
}

pub(crate) fn round(w: &[u32; 60], i: usize, s: &[u32; 4]) -> [u32; 4]
    requires { i < 15 }
    ensures { square result ≡ add_key (map (to_be_bytes w32) w.now) i (mix_columns (shift_rows (sub_octets (square s.now)))) }
{
    let p = column(s[0], s[1], s[2], s[3], w[4 * i]);
    let q = column(s[1], s[2], s[3], s[0], w[4 * i + 1]);
    let r = column(s[2], s[3], s[0], s[1], w[4 * i + 2]);
    let t = column(s[3], s[0], s[1], s[2], w[4 * i + 3]);
    [p, q, r, t]
}

// A column of the octets a, b, c and d, with the key word k added.
fn first_column(a: u8, b: u8, c: u8, d: u8, k: u32) -> u32
    ensures { to_be_bytes w32 result ≡ add_words (a ∷ b ∷ c ∷ d ∷ []) (to_be_bytes w32 k) }
{
    packed(a, b, c, d) ^ k
}

pub(crate) fn first(w: &[u32; 60], b: &[u8; 16]) -> [u32; 4]
    ensures { square result ≡ add_key (map (to_be_bytes w32) w.now) 0 b.now }
{
    let p = first_column(b[0], b[1], b[2], b[3], w[0]);
    let q = first_column(b[4], b[5], b[6], b[7], w[1]);
    let r = first_column(b[8], b[9], b[10], b[11], w[2]);
    let t = first_column(b[12], b[13], b[14], b[15], w[3]);
    [p, q, r, t]
}

// One column of the last round.
fn last_column(a: u32, b: u32, c: u32, d: u32, k: u32) -> u32
    ensures { to_be_bytes w32 result ≡ add_words (sub_word (slice_index (to_be_bytes w32 a) 0 ∷ slice_index (to_be_bytes w32 b) 1
        ∷ slice_index (to_be_bytes w32 c) 2 ∷ slice_index (to_be_bytes w32 d) 3 ∷ [])) (to_be_bytes w32 k) }
{
    let p = s_box(a.to_be_bytes()[0]);
    let q = s_box(b.to_be_bytes()[1]);
    let r = s_box(c.to_be_bytes()[2]);
    let t = s_box(d.to_be_bytes()[3]);
    packed(p, q, r, t) ^ k
}

pub(crate) fn last(w: &[u32; 60], i: usize, s: &[u32; 4]) -> [u8; 16]
    requires { i < 15 }
    ensures { result ≡ add_key (map (to_be_bytes w32) w.now) i (shift_rows (sub_octets (square s.now))) }
{
    let p = last_column(s[0], s[1], s[2], s[3], w[4 * i]).to_be_bytes();
    let q = last_column(s[1], s[2], s[3], s[0], w[4 * i + 1]).to_be_bytes();
    let r = last_column(s[2], s[3], s[0], s[1], w[4 * i + 2]).to_be_bytes();
    let t = last_column(s[3], s[0], s[1], s[2], w[4 * i + 3]).to_be_bytes();
    [
        p[0], p[1], p[2], p[3], q[0], q[1], q[2], q[3], r[0], r[1], r[2], r[3], t[0], t[1], t[2],
        t[3],
    ]
}
