//! Blocks as sixteen lanes of octets.

ghost use Rattle.std.specs.Prelude.{◌≡◌, ℕ, ◌+◌, ◌-◌, ◌/◌, ◌<◌, ◌≤◌, ◌^◌, bit_and, bit_xor, length, map, slice_index};
ghost use Rattle.std.specs.List.{range_with_len};
ghost use Rattle.gcm_seal.specs.Gcm.{add_blocks, reversed};

use std::simd::prelude::*;

// What the low half and the high half of an octet become in the reversed octet.
const LOW_REVERSED: [u8; 16] = [
    0x00, 0x80, 0x40, 0xc0, 0x20, 0xa0, 0x60, 0xe0, 0x10, 0x90, 0x50, 0xd0, 0x30, 0xb0, 0x70, 0xf0,
];

const HIGH_REVERSED: [u8; 16] = [
    0x00, 0x08, 0x04, 0x0c, 0x02, 0x0a, 0x06, 0x0e, 0x01, 0x09, 0x05, 0x0d, 0x03, 0x0b, 0x07, 0x0f,
];

#[inline(always)]
fn low_reversed(octets: u8x16) -> u8x16
    ensures { result ≡ map (λ o. slice_index LOW_REVERSED (bit_and o 15)) octets }
{
    u8x16::from_array(LOW_REVERSED).swizzle_dyn(octets & u8x16::splat(15))
}

#[inline(always)]
fn high_reversed(octets: u8x16) -> u8x16
    ensures { result ≡ map (λ o. slice_index HIGH_REVERSED (o / 16)) octets }
{
    u8x16::from_array(HIGH_REVERSED).swizzle_dyn(octets >> u8x16::splat(4))
}

/// Each octet with its bits in the other order.
#[inline(always)]
pub(crate) fn reversed(octets: u8x16) -> u8x16
    ensures { result ≡ map reversed octets }
{
    low_reversed(octets) | high_reversed(octets)
}

fn octet_or_zero(octets: &[u8], i: usize) -> u8
    ensures { result ≡ slice_index octets.now i }
{
    if i < octets.len() { octets[i] } else { 0 }
}

fn eight_or_zeros(octets: &[u8], at: usize) -> [u8; 8]
    requires { at < 2 ^ 33 }
    ensures { result ≡ map (λ j. slice_index octets.now (at + j)) (range_with_len 0 8) }
{
    [
        octet_or_zero(octets, at),
        octet_or_zero(octets, at + 1),
        octet_or_zero(octets, at + 2),
        octet_or_zero(octets, at + 3),
        octet_or_zero(octets, at + 4),
        octet_or_zero(octets, at + 5),
        octet_or_zero(octets, at + 6),
        octet_or_zero(octets, at + 7),
    ]
}

// The last octets from `at` on, filled up with zeros.
fn filled_up(octets: &[u8], at: usize) -> [u8; 16]
    requires { at < 2 ^ 32 }
    ensures { result ≡ map (λ j. slice_index octets.now (at + j)) (range_with_len 0 16) }
{
    let low = eight_or_zeros(octets, at);
    let high = eight_or_zeros(octets, at + 8);
    [
        low[0], low[1], low[2], low[3], low[4], low[5], low[6], low[7], high[0], high[1], high[2],
        high[3], high[4], high[5], high[6], high[7],
    ]
}

/// The sixteen octets from `at` on, filled up with zeros.
#[inline(always)]
pub(crate) fn block_at(octets: &[u8], at: usize) -> u8x16
    requires { at < 2 ^ 32 }
    ensures { result ≡ map (λ j. slice_index octets.now (at + j)) (range_with_len 0 16) }
{
    if at + 16 <= octets.len() {
        u8x16::from_slice(&octets[at..at + 16])
    } else {
        u8x16::from_array(filled_up(octets, at))
    }
}

/// The sum of two blocks.
pub(crate) fn sum(a: &[u8; 16], b: &[u8; 16]) -> [u8; 16]
    ensures { result ≡ add_blocks a.now b.now }
{
    (u8x16::from_array(*a) ^ u8x16::from_array(*b)).to_array()
}

/// Adds `stream` to the sixteen octets of `text` from `at` on.
#[inline(always)]
pub(crate) fn add_block(text: &mut [u8], at: usize, stream: &[u8; 16])
    requires { at + 16 ≤ length text.old }
    ensures before { (k : ℕ) → k < at → slice_index text.new k ≡ slice_index text.old k }
    ensures within { (k : ℕ) → at ≤ k → k < at + 16 → slice_index text.new k ≡ bit_xor (slice_index text.old k)
        (slice_index stream.now (k - at)) }
    ensures after { (k : ℕ) → at + 16 ≤ k → slice_index text.new k ≡ slice_index text.old k }
{
    let place = &mut text[at..at + 16];
    let sum = u8x16::from_slice(place) ^ u8x16::from_array(*stream);
    sum.copy_to_slice(place);
}
