//! Whole frames, with what the standards say of them.
use crate::{View, decode};
use ip_decode::IpView;
use l4_decode::L4View;
use std::alloc::{AllocError, Global};
use std::process::Abort;
use std::test::Fail;
use suri_base::{Counter, TcpFacts, Vlans};

// Ethernet addresses, and an IPv4 header from 10.11.12.13 to 192.168.1.254 that states 40 bytes of payload.
// Every field differs from every other.
const ADDRESSES: [u8; 12] = [2, 1, 3, 4, 5, 6, 0x12, 0x11, 0x13, 0x14, 0x15, 0x16];

const IPV4: [u8; 9] = [0x45, 0x21, 0, 60, 0x43, 0x65, 0x40, 0, 55];

const ENDS: [u8; 10] = [0xa9, 0xcb, 10, 11, 12, 13, 192, 168, 1, 254];

// A SYN from port 1000 to port 2000, whose header has 40 bytes.
const SYN: [u8; 20] = [
    0x03, 0xe8, 0x07, 0xd0, 0x11, 0x12, 0x13, 0x14, 0x21, 0x22, 0x23, 0x24, 0xaf, 0xc2, 0x31, 0x32,
    0x33, 0x34, 0x35, 0x36,
];

// From port 1000 to port 2000, two bytes of payload.
const UDP: [u8; 10] = [0x03, 0xe8, 0x07, 0xd0, 0, 10, 0x31, 0x32, 7, 9];

// A frame with these tags and this EtherType, protocol and transport header.
fn frame(alloc: Global, tags: &[u8], proto: u8, header: &[u8]) -> Result<Vec<u8>, AllocError> {
    let mut bytes = Vec::new(alloc);
    for piece in [&ADDRESSES, tags, &IPV4, &[proto], &ENDS, header] {
        bytes.extend_from_slice(piece)?;
    }
    Ok(bytes)
}

// What the crate reads in an Ethernet frame.
fn read(rt: &impl Abort, bytes: &[u8]) -> Result<View, Counter> {
    assert!(rt; bytes.len() <= 4096);
    decode(1, bytes)
}

// A view without tags; places as in a frame with so many bytes of tags.
fn view(proto: u8, tags: u8, l4: L4View) -> View {
    View {
        vlans: Vlans {
            count: 0,
            first: 0,
            second: 0,
            third: 0,
        },
        ip: IpView {
            version: 4,
            src: 0x0a0b_0c0d,
            dst: 0xc0a8_01fe,
            ttl: 55,
            proto,
            pay_at: 34 + u32::from(tags),
            pay_len: if proto == 6 { 20 } else { 10 },
            stated: 40,
        },
        l4,
    }
}

#[test]
fn reads_whole_frames(rt: HostRuntime) -> Result<(), Fail> {
    let alloc = rt.alloc();
    let tags: [u8; 14] = [0x81, 0, 0, 1, 0x81, 0, 0, 2, 0x81, 0, 0, 3, 8, 0];
    let tagged = View {
        vlans: Vlans {
            count: 3,
            first: 1,
            second: 2,
            third: 3,
        },
        ..view(
            17,
            12,
            L4View {
                sport: 1000,
                dport: 2000,
                tcp: None,
                icmp: None,
                pay_at: 54,
                pay_len: 2,
            },
        )
    };
    // Cut off behind the first 20 bytes of a header with 20 bytes of options.
    let syn = view(
        6,
        0,
        L4View {
            sport: 1000,
            dport: 2000,
            tcp: Some(TcpFacts {
                seq: 0x1112_1314,
                ack: 0x2122_2324,
                flags: 0xc2,
            }),
            icmp: None,
            pay_at: 54,
            pay_len: 0,
        },
    );
    let four: [u8; 18] = [
        0x81, 0, 0, 1, 0x81, 0, 0, 2, 0x81, 0, 0, 3, 0x81, 0, 0, 4, 8, 0,
    ];
    let table = [
        (frame(alloc, &tags, 17, &UDP)?, Ok(tagged)),
        (frame(alloc, &[8, 0], 6, &SYN)?, Ok(syn)),
        (frame(alloc, &four, 17, &UDP)?, Err(Counter::VlanDeep)),
        // Each fault of a transport header, and a fault of the IP header before one.
        (
            frame(alloc, &[8, 0], 6, &SYN[..19])?,
            Err(Counter::TcpSmall),
        ),
        (frame(alloc, &[8, 0], 6, &[0; 20])?, Err(Counter::TcpHeader)),
        (
            frame(alloc, &[8, 0], 17, &UDP[..7])?,
            Err(Counter::UdpSmall),
        ),
        (
            frame(alloc, &[8, 0], 1, &[8, 0, 0])?,
            Err(Counter::IcmpSmall),
        ),
        (
            frame(alloc, &[8, 0], 58, &[0; 8])?,
            Err(Counter::OtherProto),
        ),
        (frame(alloc, &[0x86, 0xdd], 1, &[])?, Err(Counter::IpSmall)),
    ];
    for (bytes, want) in &table {
        assert_eq!(rt; read(&rt, bytes), *want, "{bytes:?}");
    }
    Ok(())
}
