//! GF(2^128): bit i of a number is the coefficient of x^i.

ghost use Rattle.std.specs.Prelude.{◌≡◌, ℕ, ◌+◌, ◌*◌, ◌<◌, ◌≤◌, ◌^◌, ◌++◌, List, length, map, slice_index};
ghost use Rattle.gf_poly.specs.Poly.{multiply, power_sum, times_x};
ghost use Rattle.gcm_seal.specs.Gcm.{all_blocks, block_of, element};
ghost use Rattle.gcm_seal.specs.Table.{IsTable};
ghost use Rattle.std.specs.Simd.Lanes.{Each1};
ghost use Rattle.std.specs.List.{range_with_len};

use crate::lanes::{block_at, reversed};
use std::simd::prelude::*;

// The block of the octets from `at` on, filled up with zeros.
pub(crate) fn element_at(octets: &[u8], at: usize) -> u128
    requires { at < 2 ^ 32 }
    ensures { result ≡ element (λ j. slice_index octets.now (at + j)) }
{
    u128::from_le_bytes(reversed(block_at(octets, at)).to_array())
}

pub(crate) fn block_of(p: u128) -> [u8; 16]
    ensures { result ≡ block_of p }
{
    reversed(u8x16::from_array(p.to_le_bytes())).to_array()
}

// x^127
const TOP: u128 = 0x8000_0000_0000_0000_0000_0000_0000_0000;

pub(crate) fn times_x(a: u128) -> u128
    ensures { result ≡ times_x 128 0x87 a }
{
    if a < TOP {
        a * 2
    } else {
        ((a - TOP) * 2) ^ 0x87
    }
}

// The products of p by the polynomials of four coefficients.
fn row_of(p: u128) -> [u128; 16]
    ensures { (k h : ℕ) → h < 2 ^ 128 → k + 4 ≤ 128 → p ≡ multiply 128 0x87 (2 ^ k) h → result ≡ map (λ n. multiply 128 0x87 (n * 2 ^ k) h)
        (range_with_len 0 16) }
{
    let q = times_x(p);
    let r = times_x(q);
    let s = times_x(r);
    let qp = q ^ p;
    let rp = r ^ p;
    let rq = r ^ q;
    let rqp = r ^ qp;
    [
        0,
        p,
        q,
        qp,
        r,
        rp,
        rq,
        rqp,
        s,
        s ^ p,
        s ^ q,
        s ^ qp,
        s ^ r,
        s ^ rp,
        s ^ rq,
        s ^ rqp,
    ]
}

fn times_x4(p: u128) -> u128
    ensures { result ≡ times_x 128 0x87 (times_x 128 0x87 (times_x 128 0x87 (times_x 128 0x87 p))) }
{
    times_x(times_x(times_x(times_x(p))))
}

// Fills `t` with the table of h.
pub(crate) fn fill_table(t: &mut [u128; 512], h: u128)
    ensures { IsTable t.new h }
{
    let mut p = h;
    'rows: for i in 0..32 {
        let row = row_of(p);
        'entries: for n in 0..16 {
            t[16 * i + n] = row[n];
        }
        p = times_x4(p);
    }
}

fn multiply(t: &[u128; 512], y: u128) -> u128
    ensures { (h : ℕ) → IsTable t.now h → result ≡ multiply 128 0x87 y h }
{
    let octets = y.to_le_bytes();
    let mut z = 0;
    'octets: for i in 0..16usize {
        let octet = octets[i] as usize;
        let low = t[32 * i + octet % 16];
        let high = t[32 * i + 16 + octet / 16];
        z = z ^ low ^ high;
    }
    z
}

// Horner's rule over the blocks of `octets`.
pub(crate) fn absorb(before: u128, t: &[u128; 512], octets: &[u8]) -> u128
    requires { length octets.now ≤ 65535 }
    ensures { (h : ℕ) (zs : List ℕ) → h < 2 ^ 128 → IsTable t.now h → Each1 (λ z. z < 2 ^ 128) zs → before ≡ power_sum 128 0x87 h zs
        → result ≡ power_sum 128 0x87 h (zs ++ all_blocks octets.now) }
{
    let mut y = before;
    'chunks: for i in 0..(octets.len() + 15) / 16 {
        y = multiply(t, y ^ element_at(octets, 16 * i));
    }
    y
}
