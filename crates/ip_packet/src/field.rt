// The fields that the headers of both families have.
ghost use Rattle.std.specs.Prelude.{◌≡◌, ◌+◌, ◌<◌, ◌≤◌, ◌++◌, length, take, drop};
ghost use Rattle.ip_packet.specs.Field.{number_at, with_number, address_4_at, address_6_at, ports_of};

use ikl_base::Addr;

pub(crate) fn number(octets: &[u8], i: usize) -> u16
    requires { i + 1 < length octets.now }
    ensures { result ≡ number_at octets.now i }
{
    u16::from(octets[i]) * 256 + u16::from(octets[i + 1])
}

pub(crate) fn set_number(octets: &mut [u8], i: usize, n: u16)
    requires { i + 1 < length octets.old }
    ensures { octets.new ≡ with_number octets.old i n }
{
    octets[i] = (n / 256) as u8;
    octets[i + 1] = (n % 256) as u8;
}

// Writes a piece at a place.
pub(crate) fn put(octets: &mut [u8], at: usize, piece: &[u8])
    requires { at + length piece.now ≤ length octets.old }
    ensures { octets.new ≡ take at octets.old ++ (piece.now ++ drop (at + length piece.now) octets.old) }
{
    let end = at + piece.len();
    octets[at..end].copy_from_slice(piece);
}

pub(crate) fn address_4(octets: &[u8], i: usize) -> Addr
    requires { i + 4 ≤ length octets.now }
    ensures { result ≡ address_4_at octets.now i }
{
    let mut address = [0; 4];
    let (_, rest) = octets.split_at(i);
    let (front, _) = rest.split_at(4);
    address.copy_from_slice(front);
    Addr::V4(address)
}

pub(crate) fn address_6(octets: &[u8], i: usize) -> Addr
    requires { i + 16 ≤ length octets.now }
    ensures { result ≡ address_6_at octets.now i }
{
    let mut address = [0; 16];
    let (_, rest) = octets.split_at(i);
    let (front, _) = rest.split_at(16);
    address.copy_from_slice(front);
    Addr::V6(address)
}

// The first four octets of the payload, for the protocols that have ports.
pub(crate) fn ports(proto: u8, payload: &[u8]) -> Option<(u16, u16)>
    ensures { result ≡ ports_of proto payload.now }
{
    if (proto == 6 || proto == 17 || proto == 132) && payload.len() >= 4 {
        Some((number(payload, 0), number(payload, 2)))
    } else {
        None
    }
}
