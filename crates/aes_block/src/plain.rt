//! The cipher step by step as FIPS 197 has it: S, the shift of rows, the matrix and the addition of a
//! key, octet by octet. It is slow, and equal to `KeySchedule::encrypt` for every key and block, since
//! both have the same contract.

ghost use Rattle.std.specs.Prelude.{◌≡◌, ◌<◌, map};
ghost use Rattle.std.specs.Int.{w32, to_be_bytes};
ghost use Rattle.aes_block.specs.Aes.{add_key, mix_columns, mix_word, shift_rows, sub_octets, times};
ghost use Rattle.aes_block.specs.Schedule.{cipher_of};

use crate::octets::s_box;
use crate::schedule::KeySchedule;

/// The cipher of a block (FIPS 197, section 5.1).
pub fn encrypt(k: &KeySchedule, b: &[u8; 16]) -> [u8; 16]
    ensures { result ≡ cipher_of k.now b.now }
{
    let mut state = add_key(&k.words, 0, b);
    'rounds: for i in 0..k.rounds - 1 {
        state = add_key(&k.words, i + 1, &mix_columns(&sub_and_shift(&state)));
    }
    add_key(&k.words, k.rounds, &sub_and_shift(&state))
}

fn times_x(a: u8) -> u8
    ensures { result ≡ times 2 a }
{
    if a < 128 {
        a * 2
    } else {
        ((a - 128) * 2) ^ 0x1b
    }
}

fn add_key(words: &[u32; 60], i: usize, b: &[u8; 16]) -> [u8; 16]
    requires { i < 15 }
    ensures { result ≡ add_key (map (to_be_bytes w32) words.now) i b.now }
{
    let p = words[4 * i].to_be_bytes();
    let q = words[4 * i + 1].to_be_bytes();
    let r = words[4 * i + 2].to_be_bytes();
    let s = words[4 * i + 3].to_be_bytes();
    [
        b[0] ^ p[0],
        b[1] ^ p[1],
        b[2] ^ p[2],
        b[3] ^ p[3],
        b[4] ^ q[0],
        b[5] ^ q[1],
        b[6] ^ q[2],
        b[7] ^ q[3],
        b[8] ^ r[0],
        b[9] ^ r[1],
        b[10] ^ r[2],
        b[11] ^ r[3],
        b[12] ^ s[0],
        b[13] ^ s[1],
        b[14] ^ s[2],
        b[15] ^ s[3],
    ]
}

fn sub_and_shift(b: &[u8; 16]) -> [u8; 16]
    ensures { result ≡ shift_rows (sub_octets b.now) }
{
    [
        s_box(b[0]),
        s_box(b[5]),
        s_box(b[10]),
        s_box(b[15]),
        s_box(b[4]),
        s_box(b[9]),
        s_box(b[14]),
        s_box(b[3]),
        s_box(b[8]),
        s_box(b[13]),
        s_box(b[2]),
        s_box(b[7]),
        s_box(b[12]),
        s_box(b[1]),
        s_box(b[6]),
        s_box(b[11]),
    ]
}

fn mix_word(w: [u8; 4]) -> [u8; 4]
    ensures { result ≡ mix_word w }
{
    let [a, b, c, d] = w;
    let p = times_x(a);
    let q = times_x(b);
    let r = times_x(c);
    let s = times_x(d);
    [
        p ^ (q ^ b) ^ c ^ d,
        a ^ q ^ (r ^ c) ^ d,
        a ^ b ^ r ^ (s ^ d),
        (p ^ a) ^ b ^ c ^ s,
    ]
}

fn mix_columns(b: &[u8; 16]) -> [u8; 16]
    ensures { result ≡ mix_columns b.now }
{
    let p = mix_word([b[0], b[1], b[2], b[3]]);
    let q = mix_word([b[4], b[5], b[6], b[7]]);
    let r = mix_word([b[8], b[9], b[10], b[11]]);
    let s = mix_word([b[12], b[13], b[14], b[15]]);
    [
        p[0], p[1], p[2], p[3], q[0], q[1], q[2], q[3], r[0], r[1], r[2], r[3], s[0], s[1], s[2],
        s[3],
    ]
}
