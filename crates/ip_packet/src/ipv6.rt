// IPv6 packets, read behind their extension headers.
ghost use Rattle.std.specs.Prelude.{◌≡◌, ◌≤◌, length, MatchResult, IfOk, Ok, Err, IsTrue};
ghost use Rattle.ip_packet.specs.Ipv6.{is_extension, upper_of};
ghost use Rattle.ip_packet.specs.View.{seen, view_of_6};

use crate::field::{address_6, number, ports};
use crate::packet::{NotPacket, View};

fn is_passed_over(next: u8) -> bool
    ensures { result ≡ is_extension next }
{
    next == 0 || next == 43 || next == 60
}

// The protocol of the upper layer and its octets, behind the extension headers.
fn upper_layer(first: u8, octets: &[u8]) -> Result<(u8, &[u8]), NotPacket>
    ensures upper { MatchResult result (λ upper. upper_of first octets.now ≡ Ok (upper.0, upper.1.now))
        (λ e. upper_of first octets.now ≡ Err e) }
    ensures shorter { IfOk result (λ upper. length upper.1.now ≤ length octets.now) }
{
    let mut next = first;
    let mut rest = octets;
    while is_passed_over(next) {
        if rest.len() < 8 {
            return Err(NotPacket::Length);
        }
        let length = usize::from(rest[1]) * 8 + 8;
        if rest.len() < length {
            return Err(NotPacket::Length);
        }
        next = rest[0];
        let (_, behind) = rest.split_at(length);
        rest = behind;
    }
    if next == 44 {
        return Err(NotPacket::Fragment);
    }
    Ok((next, rest))
}

// What the octets of an IPv6 packet say.
pub(crate) fn view_6(octets: &[u8]) -> Result<View<'_>, NotPacket>
    requires { 40 ≤ length octets.now }
    ensures said { MatchResult result (λ v. view_of_6 octets.now ≡ Ok (seen v)) (λ e. view_of_6 octets.now ≡ Err e) }
    ensures payload { IfOk result (λ v. length v.payload.now ≤ 65535) }
{
    if usize::from(number(octets, 4)) + 40 != octets.len() {
        return Err(NotPacket::Length);
    }
    let (_, rest) = octets.split_at(40);
    match upper_layer(octets[6], rest) {
        Ok((proto, payload)) => Ok(View {
            src: address_6(octets, 8),
            dst: address_6(octets, 24),
            proto,
            ports: ports(proto, payload),
            df: true,
            payload,
        }),
        Err(e) => Err(e),
    }
}
