// Packets for which one entry decides.
ghost use Rattle.std.specs.Prelude.{◌≡◌, ◌<◌, ◌≤◌, ◌↔◌, IsTrue};
ghost use Rattle.ip_packet.specs.View.{seen};
ghost use Rattle.spd_match.specs.Kept.{flow_of};

use ikeless_tree::Direction;
use ikl_base::Addr;
use ip_packet::View;

// The golden ratio, in 64 bits: its products spread numbers that are close to each other.
const FACTOR: u64 = 0x9e37_79b9_7f4a_7c15;

/// The packets of one direction, of one protocol and with the same ends. One entry decides for all of them.
#[derive(Clone, Copy, Debug)]
pub struct Flow {
    pub direction: Direction,
    pub src: Addr,
    pub dst: Addr,
    pub proto: u8,
    pub ports: Option<(u16, u16)>,
}

fn number_of(address: &Addr) -> u64 {
    match address {
        Addr::V4(o) => u64::from(u32::from_be_bytes(*o)),
        Addr::V6(o) => {
            let network = u64::from_be_bytes([o[0], o[1], o[2], o[3], o[4], o[5], o[6], o[7]]);
            let host = u64::from_be_bytes([o[8], o[9], o[10], o[11], o[12], o[13], o[14], o[15]]);
            network.wrapping_mul(FACTOR).wrapping_add(host)
        }
    }
}

fn mixed(sum: u64, n: u64) -> u64 {
    let product = sum.wrapping_add(n).wrapping_mul(FACTOR);
    product ^ (product >> 32)
}

// A number below `places`, by the upper bits of another.
fn share(number: u64, places: u64) -> u64
    requires some { 1 ≤ places }
    requires few { places ≤ 4096 }
    ensures { result < places }
{
    ((number >> 32) * places) >> 32
}

impl Flow {
    pub(crate) fn of(d: Direction, v: &View) -> Flow
        ensures { result ≡ flow_of d (seen v.now) }
    {
        Flow {
            direction: d,
            src: v.src,
            dst: v.dst,
            proto: v.proto,
            ports: v.ports,
        }
    }

    // Whether both are one flow.
    pub(crate) fn is_same(&self, other: &Flow) -> bool
        ensures { IsTrue result ↔ self.now ≡ other.now }
    {
        self.ports == other.ports
            && self.proto == other.proto
            && self.direction == other.direction
            && self.src.is_same(&other.src)
            && self.dst.is_same(&other.dst)
    }

    // Which of so many places the flow has.
    pub(crate) fn place_among(&self, places: u64) -> u64
        requires some { 1 ≤ places }
        requires few { places ≤ 4096 }
        ensures { result < places }
    {
        let way = match self.direction {
            Direction::In => 0,
            Direction::Out => 256,
        };
        let (source, destination) = self.ports.unwrap_or((0, 0));
        let ports = u64::from(source) * 65536 + u64::from(destination);
        let upper = (ports * 512)
            .wrapping_add(u64::from(self.proto))
            .wrapping_add(way);
        let from = number_of(&self.src).wrapping_mul(FACTOR);
        let ends = mixed(from, number_of(&self.dst));
        share(mixed(ends, upper), places)
    }
}
