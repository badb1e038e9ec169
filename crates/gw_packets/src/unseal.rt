// ESP octets that are opened.
ghost use Rattle.std.specs.Prelude.{◌≡◌, ◌≤◌, ◌+◌, ◌-◌, IfOk, None, length, slice_range};
ghost use Rattle.ikeless_tree.specs.Check.{sad_fault};
ghost use Rattle.esp_frame.specs.Esp.{keying};
ghost use Rattle.esp_frame.specs.Key.{keying_of};
ghost use Rattle.esp_frame.specs.Open.{opened};
ghost use Rattle.gw_packets.specs.Opened.{unsealed_by};

use esp_frame::{OpenFault, SealKey, open, packet_law, text_law};
use ikeless_tree::SadEntry;
use ikl_base::{NoMemory, Octets};
use std::alloc::Global;

/// What ESP octets open to.
#[derive(Debug, Drop)]
pub(crate) enum Unsealed {
    /// They don't open.
    Refused,
    /// They open to a text without a packet.
    Padding,
    /// They open to a packet.
    Packet { next: u8, octets: Octets },
}

// The octets from `start` to `end` alone.
fn cut(octets: &mut Vec<u8>, start: usize, end: usize)
    requires order { start ≤ end }
    requires within { end ≤ length octets.old.items }
    ensures { octets.new.items ≡ slice_range octets.old.items start end }
{
    octets.copy_within(start..end, 0);
    octets.truncate(end - start);
}

// Opens a copy of ESP octets, which becomes the packet.
pub(crate) fn open_copy(
    alloc: Global,
    key: &SealKey,
    octets: &[u8],
    number: u64,
) -> Result<Unsealed, NoMemory>
    requires least { 34 ≤ length octets.now }
    requires most { length octets.now ≤ 65535 }
    ensures { IfOk result (λ u. u ≡ unsealed_by (opened (keying_of key.now) octets.now)) }
{
    text_law();
    packet_law();
    let mut copy = Vec::from_slice(alloc, octets)?;
    match open(key, &mut copy, number) {
        Err(OpenFault::Padding) => Ok(Unsealed::Padding),
        Err(_) => Ok(Unsealed::Refused),
        Ok(place) => {
            cut(&mut copy, place.start, place.end);
            Ok(Unsealed::Packet {
                next: place.next,
                octets: Octets::from_items(copy),
            })
        }
    }
}
