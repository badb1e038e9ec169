//! AES-GCM with nonces of 12 octets and tags of 16 (NIST SP 800-38D), in place.
//!
//! `specs/Gcm.antt` has the definition, over any block cipher: `sealed`, `tag_of` and `Opens`.
#![tactic(auto)]

ghost use Rattle.std.specs.Prelude.{◌≡◌, ◌≢◌, ◌≤◌, MatchResult, length};
ghost use Rattle.aes_block.specs.Schedule.{cipher_of};
ghost use Rattle.gcm_seal.specs.Gcm.{Opens, sealed, tag_of};
ghost use Rattle.gcm_seal.specs.Laws.{OpensOnce, SealsOpen, TagsOpen};

use aes_block::KeySchedule;
use counter::add_stream;
use field::{absorb, fill_table};
use tag::{hash_key, length_block, masked};

mod counter;
mod field;
mod lanes;
pub mod plain;
mod tag;
#[cfg(test)]
mod tests;

/// The tag isn't the one that GCM gives.
#[derive(Clone, Copy, PartialEq, Eq, Debug, Drop)]
pub struct TagDiffers;

/// Open undoes seal, for every key, nonce, additional data and text: the seal of a text opens to that
/// text and to no other, and what has the right tag opens.
pub fn open_undoes_seal()
    ensures seals_open { SealsOpen }
    ensures opens_once { OpensOnce }
    ensures tags_open { TagsOpen }
{}

fn tag_for(k: &KeySchedule, nonce: &[u8; 12], aad: &[u8], sealed: &[u8]) -> [u8; 16]
    requires aad { length aad.now ≤ 64 }
    requires text { length sealed.now ≤ 65535 }
    ensures { result ≡ tag_of (cipher_of k.now) nonce.now aad.now sealed.now }
{
    let h = hash_key(k);
    let mut t = [0u128; 512];
    fill_table(&mut t, h);
    let first = absorb(0, &t, aad);
    let second = absorb(first, &t, sealed);
    let third = absorb(second, &t, &length_block(aad, sealed));
    masked(k, nonce, third)
}

/// Seals `text` where it stands, and gives the tag (SP 800-38D, section 7.1).
pub fn seal_in_place(k: &KeySchedule, nonce: &[u8; 12], aad: &[u8], text: &mut [u8]) -> [u8; 16]
    requires aad { length aad.now ≤ 64 }
    requires text { length text.old ≤ 65535 }
    ensures { Opens (cipher_of k.now) nonce.now aad.now text.new result text.old }
{
    add_stream(k, nonce, text);
    tag_for(k, nonce, aad, text)
}

/// Opens `text` where it stands, if the tag is the one that GCM gives (SP 800-38D, section 7.2).
/// Where it isn't, `text` stays as it was.
pub fn open_in_place(
    k: &KeySchedule,
    nonce: &[u8; 12],
    aad: &[u8],
    text: &mut [u8],
    tag: &[u8; 16],
) -> Result<(), TagDiffers>
    requires aad { length aad.now ≤ 64 }
    requires text { length text.old ≤ 65535 }
    ensures { MatchResult result
        (λ _. Opens (cipher_of k.now) nonce.now aad.now text.old tag.now text.new
        × (text.new ≡ sealed (cipher_of k.now) nonce.now text.old))
        (λ _. (tag.now ≢ tag_of (cipher_of k.now) nonce.now aad.now text.old) × (text.new ≡ text.old)) }
{
    let right = tag_for(k, nonce, aad, text);
    if right == *tag {
        add_stream(k, nonce, text);
        Ok(())
    } else {
        Err(TagDiffers)
    }
}
