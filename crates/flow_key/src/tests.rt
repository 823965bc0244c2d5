//! Keys of packets in both directions, and hashes that another program made.
use crate::{Keyed, hash, key_of};
use ip_decode::IpView;
use l4_decode::L4View;
use packet_decode::View;
use std::process::Abort;
use std::test::Fail;
use suri_base::{End, IcmpFacts, Key, Side, Vlans};

// Ends of TCP and UDP: address and port.
const CLIENT: (u128, u16) = (0x0a00_0001, 1000);

const SERVER: (u128, u16) = (0x0a00_0002, 2000);

// No tags.
const NONE: Vlans = Vlans {
    count: 0,
    first: 0,
    second: 0,
    third: 0,
};

// A view of IPv4 from one end to the other.
fn view(proto: u8, from: (u128, u16), to: (u128, u16), icmp: Option<IcmpFacts>) -> View {
    View {
        vlans: NONE,
        ip: IpView {
            version: 4,
            src: from.0,
            dst: to.0,
            ttl: 64,
            proto,
            pay_at: 34,
            pay_len: 8,
            stated: 8,
        },
        l4: L4View {
            sport: from.1,
            dport: to.1,
            tcp: None,
            icmp,
            pay_at: 42,
            pay_len: 0,
        },
    }
}

// A view of ICMP from one address to another.
fn icmp(kind: u8, code: u8, from: u128, to: u128) -> View {
    view(1, (from, 0), (to, 0), Some(IcmpFacts { kind, code }))
}

// The key of these views: UDP without the facts of ICMP, or ICMP with them, and no tags.
fn keyed(rt: &impl Abort, view: &View) -> Keyed {
    assert!(rt; view.vlans.count == 0 && view.vlans.first == 0);
    assert!(rt; view.vlans.second == 0 && view.vlans.third == 0);
    assert!(rt; view.ip.version == 4);
    let is_icmp = view.l4.icmp.is_some();
    assert!(rt; is_icmp && view.ip.proto == 1 || !is_icmp && view.ip.proto == 17);
    key_of(view)
}

#[test]
fn keys_both_directions(rt: HostRuntime) -> Result<(), Fail> {
    let there = keyed(&rt, &view(17, CLIENT, SERVER, None));
    let back = keyed(&rt, &view(17, SERVER, CLIENT, None));
    let key = Key {
        vlans: NONE,
        version: 4,
        proto: 17,
        one_way: false,
        a: End {
            addr: CLIENT.0,
            port: CLIENT.1,
        },
        b: End {
            addr: SERVER.0,
            port: SERVER.1,
        },
    };
    assert_eq!(rt;
        there,
        Keyed {
            key,
            side: Side::FromA
        }
    );
    assert_eq!(rt;
        back,
        Keyed {
            key,
            side: Side::FromB
        }
    );
    // The address counts before the port, and equal ends are sent from the first.
    let low = keyed(&rt, &view(17, (1, 9), (2, 8), None));
    let port = keyed(&rt, &view(17, (1, 9), (1, 8), None));
    let same = keyed(&rt, &view(17, CLIENT, CLIENT, None));
    assert_eq!(rt; low.side, Side::FromA);
    assert_eq!(rt; port.side, Side::FromB);
    assert_eq!(rt; same.side, Side::FromA);
    Ok(())
}

#[test]
fn keys_icmp(rt: HostRuntime) -> Result<(), Fail> {
    // An echo and its reply, with another code.
    let echo = keyed(&rt, &icmp(8, 0, CLIENT.0, SERVER.0));
    let reply = keyed(&rt, &icmp(0, 7, SERVER.0, CLIENT.0));
    assert_eq!(rt; echo.key, reply.key);
    assert_eq!(rt; (echo.key.a.port, echo.key.b.port), (8, 0));
    assert_eq!(rt; (echo.side, reply.side), (Side::FromA, Side::FromB));
    // Destination unreachable: each direction, and each code, is a flow of its own.
    let there = keyed(&rt, &icmp(3, 1, CLIENT.0, SERVER.0));
    let back = keyed(&rt, &icmp(3, 1, SERVER.0, CLIENT.0));
    let other = keyed(&rt, &icmp(3, 2, CLIENT.0, SERVER.0));
    assert!(rt; there.key.one_way && there.key != back.key && there.key != other.key);
    assert_eq!(rt; (back.key.a.addr, back.key.b.port), (SERVER.0, 1));
    assert_eq!(rt; back.side, Side::FromA);
    Ok(())
}

#[test]
fn hashes_keys_as_another_program_does(rt: HostRuntime) -> Result<(), Fail> {
    let plain = keyed(&rt, &view(17, SERVER, CLIENT, None)).key;
    let tagged = Key {
        vlans: Vlans {
            count: 2,
            first: 5,
            second: 7,
            third: 0,
        },
        ..plain
    };
    let web = Key {
        proto: 6,
        a: End {
            addr: 0x4223_facc,
            port: 80,
        },
        b: End {
            addr: 0x80e8_6e78,
            port: 34_855,
        },
        ..plain
    };
    assert_eq!(rt; hash(&plain), 1_052_931_669);
    assert_eq!(rt; hash(&tagged), 3_607_657_853);
    assert_eq!(rt; hash(&web), 1_274_850_673);
    Ok(())
}
