//! ESP octets (RFC 4303) sealed and opened in place with AES-GCM (RFC 4106), without memory.
//!
//! `specs/Esp.antt` has the definitions over lists of octets: `esp`, what `seal` writes; `EspOpens`,
//! where octets open, and to which text; `Inner`, which packet that text has.
#![tactic(auto)]

ghost use Rattle.esp_frame.specs.Laws.{InnerOnce, OpenedFinds, OpenedIs, OpensOnce, PacketFinds, PacketIs, SealedFields, SealedLength, SealedOpens};

mod frame;
mod key;
#[cfg(test)]
mod tests;
mod trailer;

pub use frame::{EspFields, EspShort, OpenFault, Opened, esp_len, fields, open, seal};
pub use key::SealKey;

/// What `seal` writes has the length `esp_len` and the fields that it was given, and opens under the
/// same key to the packet with its trailer.
pub fn seal_law()
    ensures opens { SealedOpens }
    ensures len { SealedLength }
    ensures fields { SealedFields }
{}

/// Octets open to at most one text, which `opened` gives.
pub fn text_law()
    ensures once { OpensOnce }
    ensures exact { OpenedIs }
    ensures finds { OpenedFinds }
{}

/// A text has at most one packet, which `packet_of` gives.
pub fn packet_law()
    ensures once { InnerOnce }
    ensures exact { PacketIs }
    ensures finds { PacketFinds }
{}
