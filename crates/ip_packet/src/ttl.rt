// Another time to live or hop limit.
ghost use Rattle.std.specs.Prelude.{◌≡◌, ◌≤◌, length};
ghost use Rattle.ip_packet.specs.Ipv4.{header_length};
ghost use Rattle.ip_packet.specs.Ttl.{with_ttl, with_ttl_4};
ghost use Rattle.ip_packet.specs.View.{view_of};

use crate::field::set_number;
use crate::ipv4::checksum;
use crate::read::is_packet;

fn set_ttl_4(octets: &mut [u8], ttl: u8)
    requires whole { 20 ≤ length octets.old }
    requires header { header_length octets.old ≤ length octets.old }
    ensures { octets.new ≡ with_ttl_4 ttl octets.old }
{
    let header = usize::from(octets[0] % 16) * 4;
    octets[8] = ttl;
    set_number(octets, 10, 0);
    let (front, _) = octets.split_at(header);
    let sum = checksum(front);
    set_number(octets, 10, sum);
}

/// Sets the time to live or the hop limit of a packet, and computes the sum of an IPv4 header anew.
///
/// Octets that are no packet stay as they are.
#[tactic(auto, unfolding(crate::specs::Ttl::with_ttl))]
pub fn set_ttl(octets: &mut [u8], ttl: u8)
    ensures octets { octets.new ≡ with_ttl ttl octets.old }
    ensures view { view_of octets.new ≡ view_of octets.old }
{
    if is_packet(octets) {
        if octets[0] / 16 == 4 {
            set_ttl_4(octets, ttl);
        } else {
            octets[7] = ttl;
        }
    }
}
