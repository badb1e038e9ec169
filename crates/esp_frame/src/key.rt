//! Keying material.

ghost use Rattle.std.specs.Prelude.{◌≡◌, ◌+◌, ◌/◌, ◌⊎◌, length};
ghost use Rattle.aes_block.specs.Aes.{aes};
ghost use Rattle.aes_block.specs.Schedule.{cipher_of};
ghost use Rattle.esp_frame.specs.Esp.{keying};

use aes_block::KeySchedule;

/// The SPI, the expanded AES key and the salt of a security association.
#[derive(Clone, Copy, Drop)]
pub struct SealKey {
    pub(crate) spi: u32,
    pub(crate) schedule: KeySchedule,
    pub(crate) salt: [u8; 4],
}

fn schedule_of(key: &[u8]) -> KeySchedule
    requires { (length key.now ≡ 16) ⊎ (length key.now ≡ 32) }
    ensures { cipher_of result ≡ aes (length key.now / 4) key.now }
{
    match key.split_first_chunk::<32>() {
        Some((long, _)) => KeySchedule::of_256(long),
        None => match key.split_first_chunk::<16>() {
            Some((short, _)) => KeySchedule::of_128(short),
            None => unreachable!(),
        },
    }
}

impl SealKey {
    ghost use Rattle.esp_frame.specs.Key.{keying_of};

    /// The key of an association with the SPI `spi`. `key` is its keying material: an AES key of 16
    /// or 32 octets, followed by the salt of four (RFC 4106, section 8.1).
    pub fn of(spi: u32, key: &[u8]) -> SealKey
        requires { (length key.now ≡ 20) ⊎ (length key.now ≡ 36) }
        ensures { keying_of result ≡ keying spi key.now }
    {
        match key.split_last_chunk::<4>() {
            Some((cipher, salt)) => SealKey {
                spi,
                schedule: schedule_of(cipher),
                salt: *salt,
            },
            None => unreachable!(),
        }
    }
}
