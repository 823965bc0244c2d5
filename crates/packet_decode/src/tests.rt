//! Hostile frames, with what the standards say of them.
use crate::laws::{Inner, to_ip};
use ip_decode::IpView;
use std::alloc::{AllocError, Global};
use std::process::Abort;
use std::test::Fail;
use suri_base::{Counter, Vlans};

// The two addresses of an Ethernet header.
const ADDRESSES: [u8; 12] = [2, 1, 3, 4, 5, 6, 0x12, 0x11, 0x13, 0x14, 0x15, 0x16];

// A Linux cooked header without its EtherType.
const COOKED: [u8; 14] = [
    0, 4, 0, 1, 0, 6, 0x12, 0x11, 0x13, 0x14, 0x15, 0x16, 0x17, 0x18,
];

// UDP without payload from 10.11.12.13 to 192.168.1.254. Every field differs from every other.
const IPV4: [u8; 28] = [
    0x45, 0x21, 0, 28, 0x43, 0x65, 0x40, 0, 55, 17, 0xa9, 0xcb, 10, 11, 12, 13, 192, 168, 1, 254, //
    0x03, 0xe8, 0x07, 0xd0, 0, 8, 0x31, 0x32,
];

// An IPv6 header without its payload. Every field differs from every other.
const IPV6: [u8; 40] = [
    0x6c, 0x12, 0x34, 0x56, 0, 0, 17, 61, //
    0x20, 0x01, 0x0d, 0xb8, 0x11, 0x12, 0x13, 0x14, 0x15, 0x16, 0x17, 0x18, 0x19, 0x1a, 0x1b, 0x1c, //
    0x20, 0x02, 0x0e, 0xb9, 0x21, 0x22, 0x23, 0x24, 0x25, 0x26, 0x27, 0x28, 0x29, 0x2a, 0x2b, 0x2c,
];

// The number of tags, the outermost id, and protocol, place and length of the payload.
type Payload = (u8, u16, u8, u32, u32);

// These pieces, end to end.
fn joined(alloc: Global, pieces: &[&[u8]]) -> Result<Vec<u8>, AllocError> {
    let mut frame = Vec::new(alloc);
    for piece in pieces {
        frame.extend_from_slice(piece)?;
    }
    Ok(frame)
}

// What the crate reads in a frame.
fn read(rt: &impl Abort, link: u32, frame: &[u8]) -> Result<Inner, Counter> {
    assert!(rt; frame.len() <= 4096);
    assert!(rt; link == 1 || link == 101 || link == 113);
    to_ip(link, frame)
}

fn payload(rt: &impl Abort, link: u32, frame: &[u8]) -> Result<Payload, Counter> {
    let inner = read(rt, link, frame)?;
    let (vlans, ip) = (inner.vlans, inner.ip);
    Ok((vlans.count, vlans.first, ip.proto, ip.pay_at, ip.pay_len))
}

#[test]
fn reads_a_tagged_frame(rt: HostRuntime) -> Result<(), Fail> {
    let tags: [u8; 12] = [0x88, 0xa8, 0xe0, 5, 0x81, 0, 0x1f, 0xff, 0x81, 0, 0x80, 7];
    let frame = joined(rt.alloc(), &[&ADDRESSES, &tags, &[8, 0], &IPV4, &[0, 0, 0]])?;
    let inner = Inner {
        vlans: Vlans {
            count: 3,
            first: 5,
            second: 4095,
            third: 7,
        },
        ip: IpView {
            version: 4,
            src: 0x0a0b_0c0d,
            dst: 0xc0a8_01fe,
            ttl: 55,
            proto: 17,
            pay_at: 46,
            pay_len: 8,
            stated: 8,
        },
    };
    assert_eq!(rt; read(&rt, 1, &frame), Ok(inner));
    Ok(())
}

#[test]
fn reads_cut_frames(rt: HostRuntime) -> Result<(), Fail> {
    let alloc = rt.alloc();
    let tagged = joined(
        alloc,
        &[&ADDRESSES, &[0x81, 0, 0, 5, 0x81, 0, 0, 7, 8, 0], &IPV4],
    )?;
    assert_eq!(rt; tagged.len(), 50);
    for end in 0..51 {
        let want = match end {
            0..=13 => Err(Counter::LinkSmall),
            14..=21 => Err(Counter::VlanSmall),
            22..=41 => Err(Counter::IpSmall),
            _ => Ok((2, 5, 17, 42, end as u32 - 42)),
        };
        assert_eq!(rt;
            payload(&rt, 1, &tagged[..end]),
            want,
            "Ethernet, {end} bytes"
        );
    }
    let cooked = joined(alloc, &[&COOKED, &[0x86, 0xdd], &IPV6, &[3, 4]])?;
    assert_eq!(rt; cooked.len(), 58);
    for end in 0..59 {
        let want = match end {
            0..=15 => Err(Counter::LinkSmall),
            16..=55 => Err(Counter::IpSmall),
            _ => Ok((0, 0, 17, 56, end as u32 - 56)),
        };
        assert_eq!(rt;
            payload(&rt, 113, &cooked[..end]),
            want,
            "cooked, {end} bytes"
        );
    }
    for end in 0..29 {
        let want = match end {
            0..=19 => Err(Counter::IpSmall),
            _ => Ok((0, 0, 17, 20, end as u32 - 20)),
        };
        assert_eq!(rt; payload(&rt, 101, &IPV4[..end]), want, "raw, {end} bytes");
    }
    Ok(())
}

#[test]
fn reads_odd_types(rt: HostRuntime) -> Result<(), Fail> {
    let alloc = rt.alloc();
    let table: [(&[u8], Result<Payload, Counter>); 26] = [
        (&[8, 0], Ok((0, 0, 17, 34, 8))),
        (&[8, 6], Err(Counter::Ethertype)),
        (&[8, 1], Err(Counter::Ethertype)),
        (&[0, 8], Err(Counter::Ethertype)),
        (&[0x88, 0x47], Err(Counter::Ethertype)),
        (&[0x91, 0], Err(Counter::Ethertype)),
        // The link layer names the other version.
        (&[0x86, 0xdd], Err(Counter::IpSmall)),
        (&[0x81, 0, 0, 5, 8, 0], Ok((1, 5, 17, 38, 8))),
        (&[0x88, 0xa8, 0xff, 0xff, 8, 0], Ok((1, 4095, 17, 38, 8))),
        (&[0x81, 0, 0xf0, 0, 8, 0], Ok((1, 0, 17, 38, 8))),
        // The id bit by bit.
        (&[0x81, 0, 0x00, 0x01, 8, 0], Ok((1, 1, 17, 38, 8))),
        (&[0x81, 0, 0x00, 0x02, 8, 0], Ok((1, 2, 17, 38, 8))),
        (&[0x81, 0, 0x00, 0x04, 8, 0], Ok((1, 4, 17, 38, 8))),
        (&[0x81, 0, 0x00, 0x08, 8, 0], Ok((1, 8, 17, 38, 8))),
        (&[0x81, 0, 0x00, 0x10, 8, 0], Ok((1, 16, 17, 38, 8))),
        (&[0x81, 0, 0x00, 0x20, 8, 0], Ok((1, 32, 17, 38, 8))),
        (&[0x81, 0, 0x00, 0x40, 8, 0], Ok((1, 64, 17, 38, 8))),
        (&[0x81, 0, 0x00, 0x80, 8, 0], Ok((1, 128, 17, 38, 8))),
        (&[0x81, 0, 0x01, 0x00, 8, 0], Ok((1, 256, 17, 38, 8))),
        (&[0x81, 0, 0x02, 0x00, 8, 0], Ok((1, 512, 17, 38, 8))),
        (&[0x81, 0, 0x04, 0x00, 8, 0], Ok((1, 1024, 17, 38, 8))),
        (&[0x81, 0, 0x08, 0x00, 8, 0], Ok((1, 2048, 17, 38, 8))),
        (&[0x81, 0, 0, 5, 8, 6], Err(Counter::Ethertype)),
        (
            &[0x81, 0, 0, 1, 0x81, 0, 0, 2, 0x81, 0, 0, 3, 8, 6],
            Err(Counter::Ethertype),
        ),
        // Three tags, and a fourth.
        (
            &[0x81, 0, 0, 1, 0x81, 0, 0, 2, 0x81, 0, 0, 3, 8, 0],
            Ok((3, 1, 17, 46, 8)),
        ),
        (
            &[
                0x81, 0, 0, 1, 0x81, 0, 0, 2, 0x81, 0, 0, 3, 0x81, 0, 0, 4, 8, 0,
            ],
            Err(Counter::VlanDeep),
        ),
    ];
    for (types, want) in &table {
        let frame = joined(alloc, &[&ADDRESSES, types, &IPV4])?;
        assert_eq!(rt; payload(&rt, 1, &frame), *want, "{types:?}");
    }
    Ok(())
}

#[test]
fn reads_odd_frames(rt: HostRuntime) -> Result<(), Fail> {
    let alloc = rt.alloc();
    let fault = |byte: u8| joined(alloc, &[&ADDRESSES, &[8, 0, byte], &IPV4[1..]]);
    let fourth: [u8; 14] = [0x81, 0, 0, 1, 0x81, 0, 0, 2, 0x81, 0, 0, 3, 0x88, 0xa8];
    let table = [
        // A fourth tag is too deep, even where it is cut off; a third one with three bytes is cut off.
        (
            1,
            joined(alloc, &[&ADDRESSES, &fourth])?,
            Err(Counter::VlanDeep),
        ),
        (
            1,
            joined(alloc, &[&ADDRESSES, &fourth[..13]])?,
            Err(Counter::VlanSmall),
        ),
        (1, fault(0x44)?, Err(Counter::IpHeader)),
        (1, fault(0x65)?, Err(Counter::IpVersion)),
        (1, fault(0x4f)?, Err(Counter::IpHeader)),
        // Without a link header the packet tells its version.
        (101, joined(alloc, &[&[0x50]])?, Err(Counter::IpVersion)),
        (101, joined(alloc, &[&[0x00]])?, Err(Counter::IpVersion)),
        (101, joined(alloc, &[&[0x60]])?, Err(Counter::IpSmall)),
        (
            101,
            joined(alloc, &[&IPV6, &[1, 2, 3]])?,
            Ok((0, 0, 17, 40, 3)),
        ),
        (
            113,
            joined(alloc, &[&COOKED, &[0x81, 0, 0, 9, 8, 0], &IPV4])?,
            Ok((1, 9, 17, 40, 8)),
        ),
    ];
    for (link, frame, want) in &table {
        assert_eq!(rt; payload(&rt, *link, frame), *want, "link {link}, {frame:?}");
    }
    Ok(())
}

// A raw IPv6 packet with eight bytes of UDP behind so many headers of hop-by-hop options.
fn with_options(alloc: Global, count: u8, stated: u8) -> Result<Vec<u8>, AllocError> {
    let mut frame = joined(alloc, &[&IPV6[..4], &[0, stated, 0, 64], &IPV6[8..]])?;
    for left in 0..count {
        let next = if left + 1 < count { 0 } else { 17 };
        frame.extend_from_slice(&[next, 0, 1, 4, 0, 0, 0, 0])?;
    }
    frame.extend_from_slice(&IPV4[20..])?;
    Ok(frame)
}

#[test]
fn reads_many_extension_headers(rt: HostRuntime) -> Result<(), Fail> {
    let alloc = rt.alloc();
    for (count, stated, want) in [
        (1, 16, Ok((0, 0, 17, 48, 8))),
        (16, 136, Ok((0, 0, 17, 168, 8))),
        (17, 144, Err(Counter::IpExtensions)),
    ] {
        let frame = with_options(alloc, count, stated)?;
        assert_eq!(rt; frame.len(), 40 + usize::from(stated));
        assert_eq!(rt; payload(&rt, 101, &frame), want, "{count} headers");
    }
    Ok(())
}
