//! Fields, `seal` and `open`.

ghost use Rattle.std.specs.Prelude.{◌≡◌, ◌≢◌, ◌+◌, ◌^◌, ◌<◌, ◌≤◌, ◌++◌, MatchResult, drop, length, slice_range, take};
ghost use Rattle.std.specs.Bool.{OnFalse, OnTrue};
ghost use Rattle.std.specs.Int.{w32, w64, to_be_bytes};
ghost use Rattle.aes_block.specs.Schedule.{cipher_of};
ghost use Rattle.gcm_seal.specs.Gcm.{Opens, tag_of};
ghost use Rattle.esp_frame.specs.Esp.{EspOpens, Inner, esp, esp_len, icv_of, iv_of, seq_of, spi_of, text_of, with_text};
ghost use Rattle.esp_frame.specs.Key.{keying_of};
ghost use Rattle.esp_frame.specs.Open.{Refused, open_leaves, open_result};

use crate::key::SealKey;
use crate::trailer::{packet_len, pad_len, write_padded};
use gcm_seal::{open_in_place, seal_in_place};

// SPI, number and IV, pad length and next header, and ICV.
const LEAST_LEN: usize = 34;

/// The fields of ESP octets (RFC 4303, section 2).
#[derive(Clone, Copy, Drop)]
pub struct EspFields<'a> {
    /// The SPI.
    pub spi: u32,
    /// The sequence number, or its low 32 bits.
    pub seq: u32,
    /// The IV of eight octets.
    pub iv: &'a [u8],
    /// The sealed text, of at least two octets.
    pub text: &'a [u8],
    /// The integrity check value of 16 octets.
    pub icv: &'a [u8],
}

/// There are fewer than 34 octets.
#[derive(Clone, Copy, PartialEq, Eq, Debug, Drop)]
pub struct EspShort;

/// The inner packet's place in the opened buffer, and its next header.
#[derive(Clone, Copy, PartialEq, Eq, Debug, Drop)]
pub struct Opened {
    /// The next header: 4 for IPv4, 41 for IPv6.
    pub next: u8,
    /// Where the packet begins.
    pub start: usize,
    /// Where it ends.
    pub end: usize,
}

/// Why octets don't open: the first of these that applies.
#[derive(Clone, Copy, PartialEq, Eq, Debug, Drop)]
pub enum OpenFault {
    /// There are fewer than 34 octets.
    Short,
    /// The ICV isn't the one that GCM gives.
    Tag,
    /// The text that was opened has no packet: its padding isn't 1, 2, .., or is too long.
    Padding,
}

/// How many ESP octets `seal` writes for a packet of `inner` octets (RFC 4303, section 2.4).
pub fn esp_len(inner: usize) -> usize
    requires { inner ≤ 65000 }
    ensures { result ≡ esp_len inner }
{
    34 + inner + pad_len(inner)
}

// The additional data of a number of 32 bits.
fn aad(spi: u32, seq: u32) -> [u8; 8]
    ensures { result ≡ to_be_bytes w32 spi ++ to_be_bytes w32 seq }
{
    let a = spi.to_be_bytes();
    let b = seq.to_be_bytes();
    [a[0], a[1], a[2], a[3], b[0], b[1], b[2], b[3]]
}

fn nonce(salt: &[u8; 4], iv: &[u8]) -> [u8; 12]
    requires { length iv.now ≡ 8 }
    ensures { result ≡ salt.now ++ iv.now }
{
    [
        salt[0], salt[1], salt[2], salt[3], iv[0], iv[1], iv[2], iv[3], iv[4], iv[5], iv[6], iv[7],
    ]
}

/// Writes the ESP octets of the packet `inner` with the sequence number `seq` and the next header
/// `next` into the first octets of `out`, and answers how many they are. The IV is the number in
/// eight octets (RFC 4106, section 3.1), and the padding is the least there can be.
pub fn seal(sa: &SealKey, seq: u64, next: u8, inner: &[u8], out: &mut [u8]) -> usize
    requires some { 1 ≤ seq }
    requires low { seq < 2 ^ 32 }
    requires packet { length inner.now ≤ 65000 }
    requires room { esp_len (length inner.now) ≤ length out.old }
    ensures len { result ≡ esp_len (length inner.now) }
    ensures octets { out.new ≡ esp (keying_of sa.now) seq next inner.now ++ drop (esp_len (length inner.now)) out.old }
{
    let text_len = inner.len() + pad_len(inner.len()) + 2;
    let iv = seq.to_be_bytes();
    let aad = aad(sa.spi, seq as u32);
    let (head, rest) = out.split_at_mut(8);
    head.copy_from_slice(&aad);
    let (head, rest) = rest.split_at_mut(8);
    head.copy_from_slice(&iv);
    let (text, rest) = rest.split_at_mut(text_len);
    write_padded(text, inner, next);
    let tag = seal_in_place(&sa.schedule, &nonce(&sa.salt, &iv), &aad, text);
    let (icv, _) = rest.split_at_mut(16);
    icv.copy_from_slice(&tag);
    32 + text_len
}

/// The fields of ESP octets (RFC 4303, section 2), or EspShort exactly where there are fewer than 34.
pub fn fields(esp: &[u8]) -> Result<EspFields<'_>, EspShort>
    ensures { MatchResult result
        (λ f. (34 ≤ length esp.now) × (f.spi ≡ spi_of esp.now) × (f.seq ≡ seq_of esp.now)
        × (f.iv.now ≡ iv_of esp.now) × (f.text.now ≡ text_of esp.now) × (f.icv.now ≡ icv_of esp.now))
        (λ _. length esp.now < 34) }
{
    if esp.len() < LEAST_LEN {
        return Err(EspShort);
    }
    let (head, rest) = esp.split_at(16);
    let (text, icv) = rest.split_at(rest.len() - 16);
    Ok(EspFields {
        spi: u32::from_be_bytes([head[0], head[1], head[2], head[3]]),
        seq: u32::from_be_bytes([head[4], head[5], head[6], head[7]]),
        iv: &head[8..],
        text,
        icv,
    })
}

// Opens the text of whole ESP octets, where the ICV is right.
fn open_text(sa: &SealKey, head: &[u8], text: &mut [u8], icv: &[u8]) -> bool
    requires head { length head.now ≡ 16 }
    requires text { length text.old ≤ 65535 }
    requires icv { length icv.now ≡ 16 }
    ensures opened { OnTrue result (Opens (cipher_of sa.now.schedule) (sa.now.salt ++ drop 8 head.now) (take 8 head.now) text.old icv.now
        text.new) }
    ensures refused { OnFalse result
        ((icv.now ≢ tag_of (cipher_of sa.now.schedule) (sa.now.salt ++ drop 8 head.now) (take 8 head.now) text.old)
        × (text.new ≡ text.old)) }
{
    let mut tag = [0u8; 16];
    tag.copy_from_slice(icv);
    let (aad, iv) = head.split_at(8);
    open_in_place(&sa.schedule, &nonce(&sa.salt, iv), aad, text, &tag).is_ok()
}

/// Opens ESP octets where they stand, and answers where the inner packet is. The number in the
/// additional data is the one in the octets; `seq` is not looked at. After Short and Tag the octets
/// are as they were; after Padding the text is opened.
pub fn open(sa: &SealKey, esp: &mut [u8], seq: u64) -> Result<Opened, OpenFault>
    requires { length esp.old ≤ 65535 }
    ensures by_definition { MatchResult result
        (λ o. (16 ≡ o.start) × (o.start ≤ o.end) × (o.end + 18 ≤ length esp.old)
        × EspOpens (keying_of sa.now) esp.old (text_of esp.new)
        × Inner (text_of esp.new) o.next (slice_range esp.new o.start o.end)
        × (esp.new ≡ with_text esp.old (text_of esp.new)))
        (Refused (keying_of sa.now) esp.old esp.new) }
    ensures value { result ≡ open_result (keying_of sa.now) esp.old }
    ensures after { esp.new ≡ open_leaves (keying_of sa.now) esp.old }
{
    if esp.len() < LEAST_LEN {
        return Err(OpenFault::Short);
    }
    let len = esp.len();
    let (head, rest) = esp.split_at_mut(16);
    let (text, icv) = rest.split_at_mut(len - 32);
    if !open_text(sa, head, text, icv) {
        return Err(OpenFault::Tag);
    }
    match packet_len(text) {
        Some(n) => Ok(Opened {
            next: text[text.len() - 1],
            start: 16,
            end: 16 + n,
        }),
        None => Err(OpenFault::Padding),
    }
}
