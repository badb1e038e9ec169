// Keying material by its number.
use ikl_base::{NoMemory, Octets};
use std::alloc::Global;

const SHORT: [u8; 12] = [0x5a; 12];

const LONG: [u8; 28] = [0x5a; 28];

/// An AES key of 16 or 32 octets that begins with this number, and a salt.
pub fn key(alloc: Global, number: u32, salt: u8, long: bool) -> Result<Octets, NoMemory> {
    let mut octets = Vec::with_capacity(alloc, 36)?;
    octets.extend_from_slice(&number.to_be_bytes())?;
    if long {
        octets.extend_from_slice(&LONG)?;
    } else {
        octets.extend_from_slice(&SHORT)?;
    }
    octets.extend_from_slice(&[0xa0, 0xa1, 0xa2, salt])?;
    Ok(Octets::from_items(octets))
}

fn is_key(alloc: Global, key_octets: &[u8], number: u8, salt: u8) -> Result<bool, NoMemory> {
    let long = key_octets.len() == 36;
    let made = key(alloc, u32::from(number), salt, long)?;
    Ok(made.as_slice() == key_octets)
}

/// The number that keying material begins with and its salt, where both are below 256 and it is made of them.
pub fn parts_of(alloc: Global, key_octets: &[u8]) -> Result<Option<(u8, u8)>, NoMemory> {
    match key_octets {
        [_, _, _, number, .., salt] => {
            if is_key(alloc, key_octets, *number, *salt)? {
                Ok(Some((*number, *salt)))
            } else {
                Ok(None)
            }
        }
        _ => Ok(None),
    }
}
