// The header before sealed octets.
ghost use Rattle.std.specs.Prelude.{◌≡◌, ◌+◌, ◌^◌, ◌<◌, ◌≤◌, ◌++◌, ℕ, List, length, drop, IsTrue, Ok, if◌then◌else◌};
ghost use Rattle.ip_packet.specs.View.{view_of};
ghost use Rattle.ip_packet.specs.Field.{number_at};
ghost use Rattle.ip_packet.specs.Outer.{AreOneFamily, header_size, told_length, header_between, outer_header, outer_view};
ghost use Rattle.ikl_base.specs.declared.address.Addr.TheVariants.{V4, V6};
ghost use Rattle.ikl_base.specs.Address.{is_one_family};

use crate::field::{put, set_number};
use crate::ipv4::checksum;
use ikl_base::Addr;

/// What the header before sealed octets says.
#[derive(Clone, Copy, Debug, PartialEq, Eq)]
pub struct Outer {
    pub src: Addr,
    pub dst: Addr,
    /// No router may cut the packet. Of IPv6 this always holds.
    pub df: bool,
    /// The identification, which IPv6 hasn't.
    pub id: u16,
    /// How many octets follow the header.
    pub payload: usize,
}

/// How many octets the header has for an address of this family.
pub fn header_len(a: &Addr) -> usize
    ensures { result ≡ header_size a.now }
{
    match a {
        Addr::V4(_) => 20,
        Addr::V6(_) => 40,
    }
}

// The flags with don't fragment or without.
fn flags(df: bool) -> u8
    ensures { result ≡ (if df then 64 else 0) }
{
    if df { 64 } else { 0 }
}

fn write_4(out: &mut [u8], o: &Outer, src: &[u8; 4], dst: &[u8; 4])
    requires room { 20 ≤ length out.old }
    requires fits { o.now.payload + 20 < 2 ^ 16 }
    ensures sizes { AreOneFamily (V4 src.now) (V4 dst.now) }
    ensures octets { out.new ≡ header_between o.now (V4 src.now) (V4 dst.now) ++ drop 20 out.old }
{
    let total = o.payload + 20;
    let front = [
        0x45,
        0,
        (total / 256) as u8,
        (total % 256) as u8,
        (o.id / 256) as u8,
        (o.id % 256) as u8,
        flags(o.df),
        0,
        64,
        50,
        0,
        0,
    ];
    put(out, 0, &front);
    put(out, 12, src);
    put(out, 16, dst);
    let (header, _) = out.split_at(20);
    let sum = checksum(header);
    set_number(out, 10, sum);
}

fn write_6(out: &mut [u8], o: &Outer, src: &[u8; 16], dst: &[u8; 16])
    requires room { 40 ≤ length out.old }
    requires fits { o.now.payload < 2 ^ 16 }
    ensures sizes { AreOneFamily (V6 src.now) (V6 dst.now) }
    ensures octets { out.new ≡ header_between o.now (V6 src.now) (V6 dst.now) ++ drop 40 out.old }
{
    let high = (o.payload / 256) as u8;
    let low = (o.payload % 256) as u8;
    put(out, 0, &[0x60, 0, 0, 0, high, low, 50, 64]);
    put(out, 8, src);
    put(out, 24, dst);
}

#[tactic(auto, unfolding(crate::specs::Outer::outer_header))]
fn write_header(out: &mut [u8], o: &Outer)
    requires family { IsTrue (is_one_family o.now.src o.now.dst) }
    requires room { header_size o.now.src ≤ length out.old }
    requires fits { told_length o.now.src o.now.payload < 2 ^ 16 }
    ensures sizes { AreOneFamily o.now.src o.now.dst }
    ensures octets { out.new ≡ outer_header o.now ++ drop (header_size o.now.src) out.old }
{
    match &o.src {
        Addr::V4(src) => match &o.dst {
            Addr::V4(dst) => write_4(out, o, src, dst),
            Addr::V6(_) => unreachable!(),
        },
        Addr::V6(src) => match &o.dst {
            Addr::V4(_) => unreachable!(),
            Addr::V6(dst) => write_6(out, o, src, dst),
        },
    }
}

/// Writes the header for protocol 50 at the front of `out`, and answers its length (RFC 791 section 3.1, RFC 8200 section 3).
///
/// IPv4 has the service octet 0, no options and offset 0, IPv6 class and flow 0; the time to live and the hop limit are 64.
pub fn write_outer(out: &mut [u8], o: &Outer) -> usize
    requires family { IsTrue (is_one_family o.now.src o.now.dst) }
    requires room { header_size o.now.src ≤ length out.old }
    requires fits { told_length o.now.src o.now.payload < 2 ^ 16 }
    ensures length { result ≡ header_size o.now.src }
    ensures octets { out.new ≡ outer_header o.now ++ drop (header_size o.now.src) out.old }
    ensures view { (payload : List ℕ) → length payload ≡ o.now.payload
        → view_of (outer_header o.now ++ payload) ≡ Ok (outer_view o.now payload) }
    ensures id { (src dst : List ℕ) → o.now.src ≡ V4 src → o.now.dst ≡ V4 dst → number_at out.new 4 ≡ o.now.id }
{
    write_header(out, o);
    header_len(&o.src)
}
