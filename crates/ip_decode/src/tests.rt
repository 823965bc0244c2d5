//! Hostile packets, with what the standards say of them.
use crate::{IpView, ip};
use std::alloc::{AllocError, Global};
use std::process::Abort;
use std::test::Fail;
use suri_base::Counter;

// From 10.11.12.13 to 192.168.1.254, TTL 55, eight bytes of UDP. Every field differs from every other.
const IPV4: [u8; 28] = [
    0x45, 0x21, 0, 28, 0x43, 0x65, 0x40, 0, 55, 17, 0xa9, 0xcb, 10, 11, 12, 13, 192, 168, 1, 254, //
    0x03, 0xe8, 0x07, 0xd0, 0, 8, 0x31, 0x32,
];

// Hop limit 61, one header of hop-by-hop options, eight bytes of UDP. Every field differs from every other.
const IPV6: [u8; 56] = [
    0x6c, 0x12, 0x34, 0x56, 0, 16, 0, 61, //
    0x20, 0x01, 0x0d, 0xb8, 0x11, 0x12, 0x13, 0x14, 0x15, 0x16, 0x17, 0x18, 0x19, 0x1a, 0x1b, 0x1c, //
    0x20, 0x02, 0x0e, 0xb9, 0x21, 0x22, 0x23, 0x24, 0x25, 0x26, 0x27, 0x28, 0x29, 0x2a, 0x2b, 0x2c, //
    17, 0, 1, 4, 0x35, 0x36, 0x37, 0x38, //
    0x03, 0xe8, 0x07, 0xd0, 0, 8, 0x31, 0x32,
];

// Protocol, place of the payload, its captured and its stated length.
type Payload = (u8, u32, u32, u32);

// The packet with these bytes from a place on.
fn patched(alloc: Global, packet: &[u8], at: usize, bytes: &[u8]) -> Result<Vec<u8>, AllocError> {
    let mut changed = packet.to_vec(alloc)?;
    for (old, new) in changed.iter_mut().skip(at).zip(bytes) {
        *old = *new;
    }
    Ok(changed)
}

// What the crate reads in a packet.
fn read(rt: &impl Abort, packet: &[u8], version: u8) -> Result<IpView, Counter> {
    assert!(rt; packet.len() <= 4096);
    assert!(rt; version == 4 || version == 6);
    ip(packet, version)
}

fn payload(rt: &impl Abort, packet: &[u8], version: u8) -> Result<Payload, Counter> {
    let view = read(rt, packet, version)?;
    Ok((view.proto, view.pay_at, view.pay_len, view.stated))
}

#[test]
fn reads_whole_headers(rt: HostRuntime) -> Result<(), Fail> {
    let four = IpView {
        version: 4,
        src: 0x0a0b_0c0d,
        dst: 0xc0a8_01fe,
        ttl: 55,
        proto: 17,
        pay_at: 20,
        pay_len: 8,
        stated: 8,
    };
    let six = IpView {
        version: 6,
        src: 0x2001_0db8_1112_1314_1516_1718_191a_1b1c,
        dst: 0x2002_0eb9_2122_2324_2526_2728_292a_2b2c,
        ttl: 61,
        proto: 17,
        pay_at: 48,
        pay_len: 8,
        stated: 8,
    };
    assert_eq!(rt; read(&rt, &IPV4, 4), Ok(four));
    assert_eq!(rt; read(&rt, &IPV6, 6), Ok(six));
    Ok(())
}

#[test]
fn reads_cut_packets(rt: HostRuntime) -> Result<(), Fail> {
    for end in 0..29 {
        let want = if end < 20 {
            Err(Counter::IpSmall)
        } else {
            Ok((17, 20, end as u32 - 20, 8))
        };
        assert_eq!(rt; payload(&rt, &IPV4[..end], 4), want, "IPv4, {end} bytes");
    }
    for end in 0..57 {
        let want = if end < 40 {
            Err(Counter::IpSmall)
        } else if end < 48 {
            Err(Counter::IpExtensions)
        } else {
            Ok((17, 48, end as u32 - 48, 8))
        };
        assert_eq!(rt; payload(&rt, &IPV6[..end], 6), want, "IPv6, {end} bytes");
    }
    Ok(())
}

#[test]
fn reads_odd_ipv4(rt: HostRuntime) -> Result<(), Fail> {
    let alloc = rt.alloc();
    let table: [(usize, &[u8], Result<Payload, Counter>); 35] = [
        // Total length: left to the card, too small, least, more than captured, less than captured.
        (2, &[0, 0], Ok((17, 20, 8, 8))),
        (2, &[0, 1], Err(Counter::IpHeader)),
        (2, &[0, 19], Err(Counter::IpHeader)),
        (2, &[0, 20], Ok((17, 20, 0, 0))),
        (2, &[0xff, 0xff], Ok((17, 20, 8, 65_515))),
        (2, &[0, 24], Ok((17, 20, 4, 4))),
        // Header length: none, too small, with options, beyond the total length, beyond the capture.
        (0, &[0x40], Err(Counter::IpHeader)),
        (0, &[0x44], Err(Counter::IpHeader)),
        (0, &[0x46], Ok((17, 24, 4, 4))),
        (0, &[0x48], Err(Counter::IpHeader)),
        (0, &[0x4f, 0, 0, 60], Err(Counter::IpSmall)),
        (0, &[0x4f, 0, 0, 59], Err(Counter::IpHeader)),
        (0, &[0x4f, 0, 0, 0], Err(Counter::IpHeader)),
        (0, &[0x65], Err(Counter::IpVersion)),
        (0, &[0x05], Err(Counter::IpVersion)),
        // The fragment field, bit by bit: reserved, don't fragment, more fragments, thirteen of the offset.
        (6, &[0x00, 0x00], Ok((17, 20, 8, 8))),
        (6, &[0x80, 0x00], Ok((17, 20, 8, 8))),
        (6, &[0x40, 0x00], Ok((17, 20, 8, 8))),
        (6, &[0x20, 0x00], Err(Counter::Fragment)),
        (6, &[0x10, 0x00], Err(Counter::Fragment)),
        (6, &[0x08, 0x00], Err(Counter::Fragment)),
        (6, &[0x04, 0x00], Err(Counter::Fragment)),
        (6, &[0x02, 0x00], Err(Counter::Fragment)),
        (6, &[0x01, 0x00], Err(Counter::Fragment)),
        (6, &[0x00, 0x80], Err(Counter::Fragment)),
        (6, &[0x00, 0x40], Err(Counter::Fragment)),
        (6, &[0x00, 0x20], Err(Counter::Fragment)),
        (6, &[0x00, 0x10], Err(Counter::Fragment)),
        (6, &[0x00, 0x08], Err(Counter::Fragment)),
        (6, &[0x00, 0x04], Err(Counter::Fragment)),
        (6, &[0x00, 0x02], Err(Counter::Fragment)),
        (6, &[0x00, 0x01], Err(Counter::Fragment)),
        (6, &[0x1f, 0xff], Err(Counter::Fragment)),
        (6, &[0xc0, 0], Ok((17, 20, 8, 8))),
        (8, &[0, 255], Ok((255, 20, 8, 8))),
    ];
    for (at, bytes, want) in &table {
        let packet = patched(alloc, &IPV4, *at, bytes)?;
        assert_eq!(rt; payload(&rt, &packet, 4), *want, "{bytes:?} at {at}");
    }
    Ok(())
}

#[test]
fn reads_odd_ipv6(rt: HostRuntime) -> Result<(), Fail> {
    let alloc = rt.alloc();
    let table: [(usize, &[u8], Result<Payload, Counter>); 15] = [
        // Payload length: left to the card, inside the extension header, behind it, maximal.
        (4, &[0, 0], Ok((17, 48, 8, 8))),
        (4, &[0, 1], Err(Counter::IpExtensions)),
        (4, &[0, 7], Err(Counter::IpExtensions)),
        (4, &[0, 8], Ok((17, 48, 0, 0))),
        (4, &[0, 12], Ok((17, 48, 4, 4))),
        (4, &[0xff, 0xff], Ok((17, 48, 8, 65_527))),
        (0, &[0x40], Err(Counter::IpVersion)),
        // No extension header, though its bytes stand there.
        (6, &[59], Ok((59, 40, 16, 16))),
        (6, &[50], Ok((50, 40, 16, 16))),
        // The length of the options: all that is left, more than is left, maximal.
        (41, &[1], Ok((17, 56, 0, 0))),
        (41, &[2], Err(Counter::IpExtensions)),
        (41, &[255], Err(Counter::IpExtensions)),
        (6, &[43], Ok((17, 48, 8, 8))),
        (6, &[60], Ok((17, 48, 8, 8))),
        // The hop limit and the addresses have no rule.
        (7, &[0, 0, 0], Ok((17, 48, 8, 8))),
    ];
    for (at, bytes, want) in &table {
        let packet = patched(alloc, &IPV6, *at, bytes)?;
        assert_eq!(rt; payload(&rt, &packet, 6), *want, "{bytes:?} at {at}");
    }
    Ok(())
}

#[test]
fn reads_fragment_and_authentication(rt: HostRuntime) -> Result<(), Fail> {
    let alloc = rt.alloc();
    let table: [(u8, &[u8], Result<Payload, Counter>); 24] = [
        // A fragment header that is none; its length byte and its reserved bits are ignored.
        (44, &[17, 0, 0, 0], Ok((17, 48, 8, 8))),
        (44, &[17, 255, 0, 0], Ok((17, 48, 8, 8))),
        (44, &[17, 0, 0, 6], Ok((17, 48, 8, 8))),
        // More fragments follow, or some stand before.
        (44, &[17, 0, 0, 1], Err(Counter::Fragment)),
        (44, &[17, 0, 0, 8], Err(Counter::Fragment)),
        (44, &[17, 0, 0xff, 0xf8], Err(Counter::Fragment)),
        (44, &[17, 0, 0x00, 0x02], Ok((17, 48, 8, 8))),
        (44, &[17, 0, 0x00, 0x10], Err(Counter::Fragment)),
        (44, &[17, 0, 0x00, 0x20], Err(Counter::Fragment)),
        (44, &[17, 0, 0x00, 0x40], Err(Counter::Fragment)),
        (44, &[17, 0, 0x00, 0x80], Err(Counter::Fragment)),
        (44, &[17, 0, 0x01, 0x00], Err(Counter::Fragment)),
        (44, &[17, 0, 0x02, 0x00], Err(Counter::Fragment)),
        (44, &[17, 0, 0x04, 0x00], Err(Counter::Fragment)),
        (44, &[17, 0, 0x08, 0x00], Err(Counter::Fragment)),
        (44, &[17, 0, 0x10, 0x00], Err(Counter::Fragment)),
        (44, &[17, 0, 0x20, 0x00], Err(Counter::Fragment)),
        (44, &[17, 0, 0x40, 0x00], Err(Counter::Fragment)),
        (44, &[17, 0, 0x80, 0x00], Err(Counter::Fragment)),
        // An authentication header counts in units of four bytes, less two.
        (51, &[17, 0, 0, 0], Ok((17, 48, 8, 8))),
        (51, &[17, 1, 0, 0], Ok((17, 52, 4, 4))),
        (51, &[17, 2, 0, 0], Ok((17, 56, 0, 0))),
        (51, &[17, 3, 0, 0], Err(Counter::IpExtensions)),
        (51, &[17, 255, 0, 0], Err(Counter::IpExtensions)),
    ];
    for (kind, header, want) in &table {
        let named = patched(alloc, &IPV6, 6, &[*kind])?;
        let packet = patched(alloc, &named, 40, header)?;
        assert_eq!(rt; payload(&rt, &packet, 6), *want, "kind {kind}, {header:?}");
    }
    Ok(())
}

// A packet with so many headers of options, and this one behind them, before eight bytes of UDP.
fn with_extensions(
    alloc: Global,
    count: u8,
    last: u8,
    header: &[u8],
) -> Result<Vec<u8>, AllocError> {
    let mut packet = IPV6[..40].to_vec(alloc)?;
    for left in 0..count {
        let next = if left + 1 < count { 0 } else { last };
        packet.extend_from_slice(&[next, 0, 1, 4, 0, 0, 0, 0])?;
    }
    packet.extend_from_slice(header)?;
    packet.extend_from_slice(&IPV6[48..])?;
    patched(alloc, &packet, 4, &[0, 0])
}

#[test]
fn counts_extension_headers(rt: HostRuntime) -> Result<(), Fail> {
    let alloc = rt.alloc();
    let whole: [u8; 8] = [17, 0, 0, 0, 0, 0, 0, 0];
    let fragment: [u8; 8] = [17, 0, 0, 1, 0, 0, 0, 0];
    let table: [(u8, u8, &[u8], Result<Payload, Counter>); 6] = [
        (16, 17, &[], Ok((17, 168, 8, 8))),
        (17, 17, &[], Err(Counter::IpExtensions)),
        (15, 44, &whole, Ok((17, 168, 8, 8))),
        (15, 44, &fragment, Err(Counter::Fragment)),
        (16, 44, &whole, Err(Counter::IpExtensions)),
        (16, 44, &fragment, Err(Counter::IpExtensions)),
    ];
    for (count, last, header, want) in &table {
        let packet = with_extensions(alloc, *count, *last, header)?;
        assert_eq!(rt;
            payload(&rt, &packet, 6),
            *want,
            "{count} headers, then {last}"
        );
    }
    Ok(())
}
