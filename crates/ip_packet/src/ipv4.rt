// IPv4 packets, read, and the sums of their headers.
ghost use Rattle.std.specs.Prelude.{◌≡◌, ◌≤◌, length, MatchResult, IfOk, Ok, Err};
ghost use Rattle.ip_packet.specs.Ipv4.{words_sum, sum_for};
ghost use Rattle.ip_packet.specs.View.{seen, view_of_4};

use crate::field::{address_4, number, ports};
use crate::packet::{NotPacket, View};

// The sum of the words of two octets of a header.
pub(crate) fn header_sum(header: &[u8]) -> u32
    requires { length header.now ≤ 60 }
    ensures { result ≡ words_sum header.now }
{
    let mut sum = 0u32;
    let mut rest = header;
    while let [high, low, tail @ ..] = rest {
        sum += u32::from(*high) * 256 + u32::from(*low);
        rest = tail;
    }
    if let [high] = rest {
        sum += u32::from(*high) * 256;
    }
    sum
}

// The sum to be written into a header that has zeros there.
pub(crate) fn checksum(header: &[u8]) -> u16
    requires { length header.now ≤ 60 }
    ensures { result ≡ sum_for header.now }
{
    let rest = header_sum(header) % 65535;
    ((65535 - rest) % 65535) as u16
}

// What the octets of an IPv4 packet say.
pub(crate) fn view_4(octets: &[u8]) -> Result<View<'_>, NotPacket>
    requires { 20 ≤ length octets.now }
    ensures said { MatchResult result (λ v. view_of_4 octets.now ≡ Ok (seen v)) (λ e. view_of_4 octets.now ≡ Err e) }
    ensures payload { IfOk result (λ v. length v.payload.now ≤ 65535) }
{
    let header = usize::from(octets[0] % 16) * 4;
    let total = usize::from(number(octets, 2));
    if header < 20 || total < header || total != octets.len() {
        return Err(NotPacket::Length);
    }
    let (front, payload) = octets.split_at(header);
    if header_sum(front) % 65535 != 0 {
        return Err(NotPacket::HeaderSum);
    }
    if octets[6] % 64 != 0 || octets[7] != 0 {
        return Err(NotPacket::Fragment);
    }
    Ok(View {
        src: address_4(octets, 12),
        dst: address_4(octets, 16),
        proto: octets[9],
        ports: ports(octets[9], payload),
        df: (octets[6] / 64) % 2 == 1,
        payload,
    })
}
