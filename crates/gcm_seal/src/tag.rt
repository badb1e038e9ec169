//! The parts of a tag.

ghost use Rattle.std.specs.Prelude.{◌≡◌, ◌≤◌, length};
ghost use Rattle.aes_block.specs.Schedule.{cipher_of};
ghost use Rattle.gcm_seal.specs.Gcm.{add_blocks, block_of, counter, hash_key, lengths};

use crate::counter::counter;
use crate::field::{block_of, element_at};
use crate::lanes::sum;
use aes_block::KeySchedule;

pub(crate) fn hash_key(k: &KeySchedule) -> u128
    ensures { result ≡ hash_key (cipher_of k.now) }
{
    element_at(&k.encrypt(&[0; 16]), 0)
}

// The lengths of the additional data and of the sealed text in bits.
pub(crate) fn length_block(aad: &[u8], sealed: &[u8]) -> [u8; 16]
    requires aad { length aad.now ≤ 64 }
    requires text { length sealed.now ≤ 65535 }
    ensures { result ≡ lengths aad.now sealed.now }
{
    let a = (8 * aad.len() as u64).to_be_bytes();
    let c = (8 * sealed.len() as u64).to_be_bytes();
    [
        a[0], a[1], a[2], a[3], a[4], a[5], a[6], a[7], c[0], c[1], c[2], c[3], c[4], c[5], c[6],
        c[7],
    ]
}

// The block of p, plus the cipher of the first counter.
pub(crate) fn masked(k: &KeySchedule, nonce: &[u8; 12], p: u128) -> [u8; 16]
    ensures { result ≡ add_blocks (cipher_of k.now (counter nonce.now 0)) (block_of p) }
{
    let mask = k.encrypt(&counter(nonce, 0));
    sum(&mask, &block_of(p))
}
