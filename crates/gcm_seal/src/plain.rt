//! GCM step by step as SP 800-38D has it: the stream octet by octet, and Horner's rule with the
//! product of the field, one coefficient at a time. These are slow, and equal to the calls at the
//! crate's root for every key, nonce, additional data and text, since both have the same contract.

ghost use Rattle.std.specs.Prelude.{◌≡◌, ◌≢◌, ℕ, ◌+◌, ◌<◌, ◌≤◌, ◌^◌, ◌++◌, List, MatchResult, length};
ghost use Rattle.std.specs.Simd.Lanes.{Each1};
ghost use Rattle.aes_block.specs.Schedule.{cipher_of};
ghost use Rattle.gf_poly.specs.Poly.{multiply, power_sum};
ghost use Rattle.gcm_seal.specs.Gcm.{Opens, all_blocks, sealed, tag_of};

use crate::TagDiffers;
use crate::counter::counter;
use crate::field::{element_at, times_x};
use crate::tag::{hash_key, length_block, masked};
use aes_block::KeySchedule;

/// Seals `text` where it stands, and gives the tag.
pub fn seal_in_place(k: &KeySchedule, nonce: &[u8; 12], aad: &[u8], text: &mut [u8]) -> [u8; 16]
    requires aad { length aad.now ≤ 64 }
    requires text { length text.old ≤ 65535 }
    ensures { Opens (cipher_of k.now) nonce.now aad.now text.new result text.old }
{
    add_stream(k, nonce, text);
    tag_for(k, nonce, aad, text)
}

/// Opens `text` where it stands, if the tag is the one that GCM gives.
pub fn open_in_place(
    k: &KeySchedule,
    nonce: &[u8; 12],
    aad: &[u8],
    text: &mut [u8],
    tag: &[u8; 16],
) -> Result<(), TagDiffers>
    requires aad { length aad.now ≤ 64 }
    requires text { length text.old ≤ 65535 }
    ensures { MatchResult result
        (λ _. Opens (cipher_of k.now) nonce.now aad.now text.old tag.now text.new
        × (text.new ≡ sealed (cipher_of k.now) nonce.now text.old))
        (λ _. (tag.now ≢ tag_of (cipher_of k.now) nonce.now aad.now text.old) × (text.new ≡ text.old)) }
{
    let right = tag_for(k, nonce, aad, text);
    if right == *tag {
        add_stream(k, nonce, text);
        Ok(())
    } else {
        Err(TagDiffers)
    }
}

fn add_stream(k: &KeySchedule, nonce: &[u8; 12], text: &mut [u8])
    requires { length text.old ≤ 65535 }
    ensures { text.new ≡ sealed (cipher_of k.now) nonce.now text.old }
{
    'octets: for i in 0..text.len() {
        let stream = k.encrypt(&counter(nonce, i as u32 / 16 + 1));
        text[i] ^= stream[i % 16];
    }
}

fn tag_for(k: &KeySchedule, nonce: &[u8; 12], aad: &[u8], sealed: &[u8]) -> [u8; 16]
    requires aad { length aad.now ≤ 64 }
    requires text { length sealed.now ≤ 65535 }
    ensures { result ≡ tag_of (cipher_of k.now) nonce.now aad.now sealed.now }
{
    let h = hash_key(k);
    let first = absorb(0, h, aad);
    let second = absorb(first, h, sealed);
    let third = absorb(second, h, &length_block(aad, sealed));
    masked(k, nonce, third)
}

fn multiply(y: u128, h: u128) -> u128
    ensures { result ≡ multiply 128 0x87 y h }
{
    let mut sum = 0;
    let mut multiple = h;
    'coefficients: for i in 0..128u32 {
        if (y >> i) % 2 == 1 {
            sum ^= multiple;
        }
        multiple = times_x(multiple);
    }
    sum
}

fn absorb(before: u128, h: u128, octets: &[u8]) -> u128
    requires { length octets.now ≤ 65535 }
    ensures { (zs : List ℕ) → Each1 (λ z. z < 2 ^ 128) zs → before ≡ power_sum 128 0x87 h zs
        → result ≡ power_sum 128 0x87 h (zs ++ all_blocks octets.now) }
{
    let mut y = before;
    'chunks: for i in 0..(octets.len() + 15) / 16 {
        y = multiply(y ^ element_at(octets, 16 * i), h);
    }
    y
}
