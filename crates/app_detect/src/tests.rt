//! Payloads and what they show.
use crate::verdict;
use std::process::Abort;
use suri_base::{App, End, Facts, Key, Side, Vlans};

// The facts of a packet between these ports.
fn facts(proto: u8, a: u16, b: u16) -> Facts {
    let vlans = Vlans {
        count: 0,
        first: 0,
        second: 0,
        third: 0,
    };
    let key = Key {
        vlans,
        version: 4,
        proto,
        one_way: false,
        a: End {
            addr: 0x0a00_0001,
            port: a,
        },
        b: End {
            addr: 0xc000_0201,
            port: b,
        },
    };
    Facts {
        no: 1,
        time: 1,
        clock: 1,
        key,
        side: Side::FromA,
        len: 100,
        ttl: 64,
        tcp: None,
        icmp: None,
        pay_at: 0,
        pay_len: 0,
        next: 0,
    }
}

// A payload, and what it shows.
#[derive(Clone, Copy)]
struct Payload {
    bytes: &'static [u8],
    app: App,
}

fn check_all(rt: &impl Abort, facts: &Facts, payloads: &[Payload]) {
    for Payload { bytes, app } in payloads {
        assert_eq!(rt; verdict(facts, bytes), *app);
    }
}

fn shows(bytes: &'static [u8], app: App) -> Payload {
    Payload { bytes, app }
}

#[test]
fn reads_http(rt: HostRuntime) {
    let payloads = [
        shows(b"GET / HTTP/1.1", App::Http),
        shows(b"GET ", App::Http),
        shows(b"POST /a", App::Http),
        shows(b"PUT /a", App::Http),
        shows(b"HEAD /a", App::Http),
        shows(b"DELETE /a", App::Http),
        shows(b"OPTIONS *", App::Http),
        shows(b"HTTP/1.0 200 OK", App::Http),
        shows(b"HTTP/2", App::None),
        shows(b"GET", App::None),
        shows(b"GETS ", App::None),
        shows(b"get / HTTP/1.1", App::None),
        shows(b" GET /", App::None),
    ];
    check_all(&rt, &facts(6, 49152, 80), &payloads);
}

#[test]
fn reads_tls_and_ssh(rt: HostRuntime) {
    let payloads = [
        shows(b"\x16\x03\x01\x02\x00\x01\x00", App::Tls),
        shows(b"\x16\x03\x04\x00\x10\x02", App::Tls),
        shows(b"\x16\x03\x00\x00\x10\x01", App::Tls),
        shows(b"\x16\x03\x05\x00\x10\x01", App::None),
        shows(b"\x16\x02\x01\x00\x10\x01", App::None),
        shows(b"\x17\x03\x01\x00\x10\x01", App::None),
        shows(b"\x16\x03\x01\x00\x10\x0b", App::None),
        shows(b"\x16\x03\x01\x00\x10", App::None),
        shows(b"SSH-2.0-OpenSSH_9.6", App::Ssh),
        shows(b"SSH", App::None),
        shows(b"", App::None),
    ];
    check_all(&rt, &facts(6, 22, 443), &payloads);
}

#[test]
fn reads_dns(rt: HostRuntime) {
    let header = b"\x12\x34\x01\x00\x00\x01\x00\x00\x00\x00\x00\x00";
    let short = b"\x12\x34\x01\x00\x00\x01\x00\x00\x00\x00\x00";
    assert_eq!(rt; verdict(&facts(17, 53, 49152), header), App::Dns);
    assert_eq!(rt; verdict(&facts(17, 49152, 53), header), App::Dns);
    assert_eq!(rt; verdict(&facts(17, 49152, 53), short), App::None);
    assert_eq!(rt; verdict(&facts(17, 49152, 5353), header), App::None);
    assert_eq!(rt; verdict(&facts(6, 49152, 53), header), App::None);
    assert_eq!(rt; verdict(&facts(1, 53, 53), header), App::None);
    assert_eq!(rt;
        verdict(&facts(17, 49152, 80), b"GET / HTTP/1.1"),
        App::None
    );
}
