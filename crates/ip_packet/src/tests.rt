// Packets of both versions that are read, and octets that are none.
use crate::laws::{extension_headers, header_sums, sealed_view, ttl_keeps_view};
use crate::outer::{Outer, header_len, write_outer};
use crate::packet::NotPacket;
use crate::read::view;
use crate::ttl::set_ttl;
use ikl_base::Addr;
use std::alloc::{AllocError, Global};
use std::test::Fail;

// UDP from 10.1.0.5 port 4660 to 10.2.0.9 port 53.
const P1: [u8; 32] = [
    0x45, 0, 0, 0x20, 0, 0, 0x40, 0, 0x40, 0x11, 0x26, 0xbd, 0x0a, 1, 0, 5, 0x0a, 2, 0, 9, 0x12,
    0x34, 0, 0x35, 0, 0x0c, 0, 0, 0x61, 0x62, 0x63, 0x64,
];

// The same from 2001:db8:1::5 to 2001:db8:2::9.
const P6: [u8; 52] = [
    0x60, 0, 0, 0, 0, 0x0c, 0x11, 0x40, 0x20, 1, 0x0d, 0xb8, 0, 1, 0, 0, 0, 0, 0, 0, 0, 0, 0, 5,
    0x20, 1, 0x0d, 0xb8, 0, 2, 0, 0, 0, 0, 0, 0, 0, 0, 0, 9, 0x12, 0x34, 0, 0x35, 0, 0x0c, 0xcd,
    0x23, 0x61, 0x62, 0x63, 0x64,
];

// P1 with another octet at a place.
fn changed(alloc: Global, packet: &[u8], place: usize, octet: u8) -> Result<Vec<u8>, AllocError> {
    let mut octets = Vec::from_slice(alloc, packet)?;
    if let Some(at) = octets.get_mut(place) {
        *at = octet;
    }
    Ok(octets)
}

#[test]
fn reads_udp_over_ipv4(rt: HostRuntime) -> Result<(), Fail> {
    let v = view(&P1).map_err(|_| "no packet")?;
    assert_eq!(rt; v.src, Addr::V4([10, 1, 0, 5]));
    assert_eq!(rt; v.dst, Addr::V4([10, 2, 0, 9]));
    assert_eq!(rt; v.proto, 17);
    assert_eq!(rt; v.ports, Some((4660, 53)));
    assert!(rt; v.df);
    assert_eq!(rt; v.payload.len(), 12);
    Ok(())
}

#[test]
fn reads_udp_over_ipv6(rt: HostRuntime) -> Result<(), Fail> {
    let v = view(&P6).map_err(|_| "no packet")?;
    assert_eq!(rt;
        v.src,
        Addr::V6([0x20, 1, 0x0d, 0xb8, 0, 1, 0, 0, 0, 0, 0, 0, 0, 0, 0, 5])
    );
    assert_eq!(rt;
        v.dst,
        Addr::V6([0x20, 1, 0x0d, 0xb8, 0, 2, 0, 0, 0, 0, 0, 0, 0, 0, 0, 9])
    );
    assert_eq!(rt; v.proto, 17);
    assert_eq!(rt; v.ports, Some((4660, 53)));
    assert!(rt; v.df);
    assert_eq!(rt; v.payload.len(), 12);
    Ok(())
}

// The reason why a packet with one octet changed is none.
fn fault_of(
    alloc: Global,
    packet: &[u8],
    place: usize,
    octet: u8,
) -> Result<Option<NotPacket>, AllocError> {
    let octets = changed(alloc, packet, place, octet)?;
    Ok(view(&octets).err())
}

#[test]
fn tells_why_octets_are_no_ipv4_packet(rt: HostRuntime) -> Result<(), Fail> {
    let cases = [
        (0, 0x75, Some(NotPacket::Version)),
        (0, 0x44, Some(NotPacket::Length)),
        (0, 0x49, Some(NotPacket::Length)),
        (0, 0x46, Some(NotPacket::HeaderSum)),
        (3, 0x21, Some(NotPacket::Length)),
        (3, 0x1f, Some(NotPacket::Length)),
        (8, 0x3f, Some(NotPacket::HeaderSum)),
        (11, 0xbe, Some(NotPacket::HeaderSum)),
        (28, 0, None),
    ];
    for (place, octet, fault) in cases {
        assert_eq!(rt;
            fault_of(rt.alloc(), &P1, place, octet)?,
            fault,
            "{place}: {octet}"
        );
    }
    Ok(())
}

// More fragments, an offset, and the reserved bit, each with the sum that fits.
#[test]
fn tells_fragments_of_ipv4(rt: HostRuntime) -> Result<(), Fail> {
    let cases = [
        ([0x60, 0, 0x06, 0xbd], Some(NotPacket::Fragment)),
        ([0x40, 1, 0x26, 0xbc], Some(NotPacket::Fragment)),
        ([0x41, 0, 0x25, 0xbd], Some(NotPacket::Fragment)),
        ([0xc0, 0, 0xa6, 0xbc], None),
        ([0, 0, 0x66, 0xbd], None),
    ];
    for (fields, fault) in cases {
        let mut octets = P1;
        octets[6] = fields[0];
        octets[7] = fields[1];
        octets[10] = fields[2];
        octets[11] = fields[3];
        assert_eq!(rt; view(&octets).err(), fault, "{fields:?}");
    }
    Ok(())
}

#[test]
fn tells_why_octets_are_no_ipv6_packet(rt: HostRuntime) -> Result<(), Fail> {
    let cases = [
        (0, 0x70, Some(NotPacket::Version)),
        (5, 0x0d, Some(NotPacket::Length)),
        (5, 0x0b, Some(NotPacket::Length)),
        (6, 0x2c, Some(NotPacket::Fragment)),
        (6, 0x3c, Some(NotPacket::Length)),
        (6, 0x3b, None),
        (7, 0, None),
    ];
    for (place, octet, fault) in cases {
        assert_eq!(rt;
            fault_of(rt.alloc(), &P6, place, octet)?,
            fault,
            "{place}: {octet}"
        );
    }
    Ok(())
}

// Hop-by-hop options of 8 octets, routing of 16, destination options of 8, and UDP.
const CHAIN: [u8; 84] = [
    0x60, 0, 0, 0, 0, 0x2c, 0, 0x40, 0x20, 1, 0x0d, 0xb8, 0, 1, 0, 0, 0, 0, 0, 0, 0, 0, 0, 5, 0x20,
    1, 0x0d, 0xb8, 0, 2, 0, 0, 0, 0, 0, 0, 0, 0, 0, 9, 43, 0, 1, 4, 0, 0, 0, 0, 60, 1, 4, 0, 0, 0,
    0, 0, 0, 0, 0, 0, 0, 0, 0, 0, 17, 0, 1, 4, 0, 0, 0, 0, 0x12, 0x34, 0, 0x35, 0, 0x0c, 0xcd,
    0x23, 0x61, 0x62, 0x63, 0x64,
];

// The first octets of a packet, its payload length mended.
fn cut(alloc: Global, packet: &[u8], length: usize) -> Result<Vec<u8>, AllocError> {
    let mut octets = Vec::from_slice(alloc, packet)?;
    octets.truncate(length);
    let payload = u8::try_from(length.saturating_sub(40)).unwrap_or(0);
    if let Some(at) = octets.get_mut(5) {
        *at = payload;
    }
    Ok(octets)
}

#[test]
fn passes_over_extension_headers(rt: HostRuntime) -> Result<(), Fail> {
    let v = view(&CHAIN).map_err(|_| "no packet")?;
    assert_eq!(rt; v.proto, 17);
    assert_eq!(rt; v.ports, Some((4660, 53)));
    assert_eq!(rt; v.payload.len(), 12);
    assert_eq!(rt;
        fault_of(rt.alloc(), &CHAIN, 40, 44)?,
        Some(NotPacket::Fragment)
    );
    assert_eq!(rt;
        fault_of(rt.alloc(), &CHAIN, 48, 44)?,
        Some(NotPacket::Fragment)
    );
    assert_eq!(rt;
        fault_of(rt.alloc(), &CHAIN, 64, 44)?,
        Some(NotPacket::Fragment)
    );
    assert_eq!(rt;
        fault_of(rt.alloc(), &CHAIN, 49, 4)?,
        Some(NotPacket::Length)
    );
    Ok(())
}

#[test]
fn refuses_headers_cut_at_each_octet(rt: HostRuntime) -> Result<(), Fail> {
    for length in 0..=84usize {
        let fault = match length {
            0..=39 => Some(NotPacket::Short),
            40..=71 => Some(NotPacket::Length),
            _ => None,
        };
        let octets = cut(rt.alloc(), &CHAIN, length)?;
        assert_eq!(rt; view(&octets).err(), fault, "{length}");
    }
    Ok(())
}

#[test]
fn refuses_ipv4_cut_at_each_octet(rt: HostRuntime) -> Result<(), Fail> {
    for length in 0..32usize {
        let fault = if length < 20 {
            NotPacket::Short
        } else {
            NotPacket::Length
        };
        let (octets, _) = P1.split_at(length);
        assert_eq!(rt; view(octets).err(), Some(fault), "{length}");
    }
    Ok(())
}

#[test]
fn writes_the_header_of_ipv4(rt: HostRuntime) -> Result<(), Fail> {
    let o = Outer {
        src: Addr::V4([192, 0, 2, 1]),
        dst: Addr::V4([198, 51, 100, 1]),
        df: true,
        id: 1,
        payload: 88,
    };
    let mut out = [7u8; 22];
    assert_eq!(rt; write_outer(&mut out, &o), 20);
    assert_eq!(rt; header_len(&o.src), 20);
    let want = [
        0x45, 0, 0, 0x6c, 0, 1, 0x40, 0, 0x40, 0x32, 0x4e, 0x29, 0xc0, 0, 2, 1, 0xc6, 0x33, 0x64,
        1, 7, 7,
    ];
    assert_eq!(rt; out, want);
    Ok(())
}

// The service octets 00, 64 hops and protocol 50, 300 octets behind the header.
#[test]
fn writes_the_header_of_ipv6(rt: HostRuntime) -> Result<(), Fail> {
    let src = [0x20, 1, 0x0d, 0xb8, 0, 1, 0, 0, 0, 0, 0, 0, 0, 0, 0, 5];
    let dst = [0x20, 1, 0x0d, 0xb8, 0, 2, 0, 0, 0, 0, 0, 0, 0, 0, 0, 9];
    let o = Outer {
        src: Addr::V6(src),
        dst: Addr::V6(dst),
        df: false,
        id: 9,
        payload: 300,
    };
    let mut out = [7u8; 41];
    assert_eq!(rt; write_outer(&mut out, &o), 40);
    assert_eq!(rt; header_len(&o.src), 40);
    let want = [
        0x60, 0, 0, 0, 1, 0x2c, 0x32, 0x40, 0x20, 1, 0x0d, 0xb8, 0, 1, 0, 0, 0, 0, 0, 0, 0, 0, 0,
        5, 0x20, 1, 0x0d, 0xb8, 0, 2, 0, 0, 0, 0, 0, 0, 0, 0, 0, 9, 7,
    ];
    assert_eq!(rt; out, want);
    Ok(())
}

// A sealed datagram of 108 octets with the time to live 64.
const SEALED: [u8; 108] = [
    0x45, 0x00, 0x00, 0x6c, 0x00, 0x01, 0x40, 0x00, 0x40, 0x32, 0x4e, 0x29, 0xc0, 0x00, 0x02, 0x01,
    0xc6, 0x33, 0x64, 0x01, 0x00, 0x00, 0x01, 0x01, 0x00, 0x00, 0x00, 0x01, 0x00, 0x00, 0x00, 0x00,
    0x00, 0x00, 0x00, 0x01, 0x26, 0x71, 0x1c, 0xf2, 0x6c, 0x88, 0x66, 0x10, 0xa7, 0x6d, 0x4b, 0xaf,
    0xdb, 0x05, 0x94, 0x66, 0x11, 0xf2, 0x19, 0x83, 0x96, 0xf5, 0x80, 0xa7, 0x4d, 0xf0, 0x86, 0xa8,
    0x1c, 0xa4, 0x5f, 0x12, 0xeb, 0xfb, 0xce, 0xab, 0x25, 0x31, 0x90, 0xde, 0x22, 0x3e, 0xe4, 0x8d,
    0xcf, 0x20, 0x72, 0x37, 0xd3, 0x30, 0x8e, 0xb2, 0x00, 0x42, 0xfb, 0xee, 0x91, 0xb6, 0xf6, 0x57,
    0x77, 0x5d, 0x93, 0xd2, 0x96, 0xab, 0x71, 0x0f, 0x6b, 0x09, 0xdc, 0x82,
];

#[test]
fn sets_the_time_to_live_and_the_sum(rt: HostRuntime) -> Result<(), Fail> {
    let mut octets = SEALED;
    let mut want = SEALED;
    want[8] = 0x3d;
    want[10] = 0x51;
    want[11] = 0x29;
    set_ttl(&mut octets, 61);
    assert_eq!(rt; octets, want);
    octets[8] = 64;
    want[8] = 64;
    set_ttl(&mut octets, 60);
    assert_eq!(rt; octets, want, "a wrong sum");
    Ok(())
}

#[test]
fn reads_a_sealed_datagram(rt: HostRuntime) -> Result<(), Fail> {
    let v = view(&SEALED).map_err(|_| "no packet")?;
    assert_eq!(rt; v.proto, 50);
    assert_eq!(rt; v.ports, None);
    assert_eq!(rt; v.payload.len(), 88);
    Ok(())
}

#[test]
fn sets_the_hop_limit(rt: HostRuntime) -> Result<(), Fail> {
    let mut octets = P6;
    let mut want = P6;
    want[7] = 1;
    set_ttl(&mut octets, 1);
    assert_eq!(rt; octets, want);
    Ok(())
}

// With this identification the other words sum to all ones: the sum is written as 0000, and ffff is read too.
#[test]
fn reads_both_spellings_of_a_zero_sum(rt: HostRuntime) -> Result<(), Fail> {
    let o = Outer {
        src: Addr::V4([192, 0, 2, 1]),
        dst: Addr::V4([198, 51, 100, 1]),
        df: true,
        id: 0x4e2a,
        payload: 88,
    };
    let mut packet = [0u8; 108];
    assert_eq!(rt; write_outer(&mut packet, &o), 20);
    assert_eq!(rt; packet[10], 0);
    assert_eq!(rt; packet[11], 0);
    assert_eq!(rt; view(&packet).err(), None);
    packet[10] = 0xff;
    packet[11] = 0xff;
    assert_eq!(rt; view(&packet).err(), None);
    set_ttl(&mut packet, 64);
    assert_eq!(rt; packet[10], 0);
    assert_eq!(rt; packet[11], 0);
    Ok(())
}

#[test]
fn laws_can_be_cited() {
    sealed_view();
    ttl_keeps_view();
    extension_headers();
    header_sums();
}
