//! Hostile transport headers, with what the standards say of them.
use crate::{L4View, l4};
use std::alloc::{AllocError, Global};
use std::process::Abort;
use std::test::Fail;
use suri_base::{Counter, IcmpFacts, TcpFacts};

// From port 1000 to port 2000: a segment with one word of options and the payload "abcd". Every field
// differs from every other.
const TCP: [u8; 28] = [
    0x03, 0xe8, 0x07, 0xd0, 0x01, 0x02, 0x03, 0x04, 0x05, 0x06, 0x07, 0x08, //
    0x6f, 0x18, 0x21, 0x22, 0x23, 0x24, 0x25, 0x26, 1, 1, 1, 0, 0x61, 0x62, 0x63, 0x64,
];

// From port 1000 to port 2000: a datagram with the payload "abcd".
const UDP: [u8; 12] = [
    0x03, 0xe8, 0x07, 0xd0, 0, 12, 0x31, 0x32, 0x61, 0x62, 0x63, 0x64,
];

// Destination unreachable, host unreachable.
const ICMP: [u8; 8] = [3, 1, 0x31, 0x32, 0x41, 0x42, 0x43, 0x44];

// The place of the payload and its captured length.
type Payload = (u32, u32);

// The header with these bytes from a place on.
fn patched(alloc: Global, header: &[u8], at: usize, bytes: &[u8]) -> Result<Vec<u8>, AllocError> {
    let mut changed = header.to_vec(alloc)?;
    for (old, new) in changed.iter_mut().skip(at).zip(bytes) {
        *old = *new;
    }
    Ok(changed)
}

// What the crate reads in a header.
fn read(
    rt: &impl Abort,
    version: u8,
    proto: u8,
    bytes: &[u8],
    stated: u32,
) -> Result<L4View, Counter> {
    assert!(rt; bytes.len() <= 4096);
    l4(version, proto, bytes, stated)
}

fn payload(rt: &impl Abort, proto: u8, bytes: &[u8], stated: u32) -> Result<Payload, Counter> {
    let view = read(rt, 4, proto, bytes, stated)?;
    Ok((view.pay_at, view.pay_len))
}

#[test]
fn reads_whole_headers(rt: HostRuntime) -> Result<(), Fail> {
    let tcp = L4View {
        sport: 1000,
        dport: 2000,
        tcp: Some(TcpFacts {
            seq: 0x0102_0304,
            ack: 0x0506_0708,
            flags: 0x18,
        }),
        icmp: None,
        pay_at: 24,
        pay_len: 4,
    };
    let udp = L4View {
        sport: 1000,
        dport: 2000,
        tcp: None,
        icmp: None,
        pay_at: 8,
        pay_len: 4,
    };
    let icmp = L4View {
        sport: 0,
        dport: 0,
        tcp: None,
        icmp: Some(IcmpFacts { kind: 3, code: 1 }),
        pay_at: 8,
        pay_len: 0,
    };
    let table: [(u8, u8, &[u8], Result<L4View, Counter>); 10] = [
        (4, 6, &TCP, Ok(tcp)),
        (6, 6, &TCP, Ok(tcp)),
        (4, 17, &UDP, Ok(udp)),
        (6, 17, &UDP, Ok(udp)),
        (4, 1, &ICMP, Ok(icmp)),
        (6, 58, &ICMP, Ok(icmp)),
        // The ICMP of the other version, IGMP and no header at all.
        (6, 1, &ICMP, Err(Counter::OtherProto)),
        (4, 58, &ICMP, Err(Counter::OtherProto)),
        (4, 2, &ICMP, Err(Counter::OtherProto)),
        (6, 59, &[], Err(Counter::OtherProto)),
    ];
    for (version, proto, bytes, want) in &table {
        assert_eq!(rt;
            read(&rt, *version, *proto, bytes, 28),
            *want,
            "protocol {proto} over version {version}"
        );
    }
    Ok(())
}

#[test]
fn reads_cut_headers(rt: HostRuntime) -> Result<(), Fail> {
    for end in 0..29 {
        let want = if end < 20 {
            Err(Counter::TcpSmall)
        } else if end < 24 {
            Ok((end as u32, 0))
        } else {
            Ok((24, end as u32 - 24))
        };
        assert_eq!(rt; payload(&rt, 6, &TCP[..end], 28), want, "TCP, {end} bytes");
    }
    for end in 0..13 {
        let want = if end < 8 {
            Err(Counter::UdpSmall)
        } else {
            Ok((8, end as u32 - 8))
        };
        assert_eq!(rt; payload(&rt, 17, &UDP[..end], 12), want, "UDP, {end} bytes");
    }
    for end in 0..9 {
        let want = if end < 4 {
            Err(Counter::IcmpSmall)
        } else {
            Ok((end as u32, 0))
        };
        assert_eq!(rt; payload(&rt, 1, &ICMP[..end], 8), want, "ICMP, {end} bytes");
    }
    Ok(())
}

#[test]
fn reads_each_flag(rt: HostRuntime) -> Result<(), Fail> {
    let alloc = rt.alloc();
    for flags in [0x00, 0x01, 0x02, 0x04, 0x08, 0x10, 0x20, 0x40, 0x80, 0xd9] {
        let segment = patched(alloc, &TCP, 13, &[flags])?;
        let want = L4View {
            sport: 1000,
            dport: 2000,
            tcp: Some(TcpFacts {
                seq: 0x0102_0304,
                ack: 0x0506_0708,
                flags,
            }),
            icmp: None,
            pay_at: 24,
            pay_len: 4,
        };
        assert_eq!(rt; read(&rt, 4, 6, &segment, 28), Ok(want), "flags {flags}");
    }
    Ok(())
}

#[test]
fn reads_odd_lengths(rt: HostRuntime) -> Result<(), Fail> {
    let alloc = rt.alloc();
    let table: [(u8, &[u8], usize, &[u8], u32, Result<Payload, Counter>); 18] = [
        // The data offset: 0, 1, one word too small, least, all bytes, beyond the stated ones, maximal.
        (6, &TCP, 12, &[0x00], 28, Err(Counter::TcpHeader)),
        (6, &TCP, 12, &[0x10], 28, Err(Counter::TcpHeader)),
        (6, &TCP, 12, &[0x4f], 28, Err(Counter::TcpHeader)),
        (6, &TCP, 12, &[0x50], 28, Ok((20, 8))),
        (6, &TCP, 12, &[0x70], 28, Ok((28, 0))),
        (6, &TCP, 12, &[0x80], 28, Err(Counter::TcpHeader)),
        (6, &TCP, 12, &[0xf0], 28, Err(Counter::TcpHeader)),
        // The same where more was sent than captured, or less.
        (6, &TCP, 12, &[0x80], 32, Ok((28, 0))),
        (6, &TCP, 12, &[0xf0], 60, Ok((28, 0))),
        (6, &TCP, 12, &[0xf0], 59, Err(Counter::TcpHeader)),
        (6, &TCP, 12, &[0x60], 23, Err(Counter::TcpHeader)),
        // The UDP length: 0, 1, one too small, least, within the bytes, beyond them, maximal.
        (17, &UDP, 4, &[0, 0], 12, Ok((8, 4))),
        (17, &UDP, 4, &[0, 1], 12, Ok((8, 4))),
        (17, &UDP, 4, &[0, 7], 12, Ok((8, 4))),
        (17, &UDP, 4, &[0, 8], 12, Ok((8, 0))),
        (17, &UDP, 4, &[0, 10], 12, Ok((8, 2))),
        (17, &UDP, 4, &[0, 13], 12, Ok((8, 4))),
        (17, &UDP, 4, &[0xff, 0xff], 12, Ok((8, 4))),
    ];
    for (proto, header, at, bytes, stated, want) in &table {
        let changed = patched(alloc, header, *at, bytes)?;
        assert_eq!(rt;
            payload(&rt, *proto, &changed, *stated),
            *want,
            "protocol {proto}, {bytes:?} at {at}, {stated} stated"
        );
    }
    Ok(())
}
