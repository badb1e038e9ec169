//! The AES block cipher (FIPS 197), with keys of 16 and 32 octets.
//!
//! `specs/Aes.antt` has the definition, over lists of octets: `aes`.
#![tactic(auto)]

ghost use Rattle.std.specs.Prelude.{◌≡◌, ℕ, ◌<◌};
ghost use Rattle.aes_block.specs.Aes.{inverse, times};

mod columns;
mod octets;
pub mod plain;
mod schedule;
mod shared;
mod tables;
#[cfg(test)]
mod tests;

pub use schedule::KeySchedule;
pub use shared::SharedRounds;

/// The law of the inverses in GF(2^8) that the S-box is made of (FIPS 197, section 5.1.1): the
/// inverse of an octet other than 0, times the octet, is 1, and 0 stands for the inverse of 0.
pub fn inverse_law()
    ensures inverts { (b : ℕ) → 0 < b → b < 256 → times b (inverse b) ≡ 1 }
    ensures of_zero { inverse 0 ≡ 0 }
{}
