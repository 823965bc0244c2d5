//! The lines of records, beside those of a slow model.
use crate::test_texts::*;
use crate::{Tally, flow_text, netflow_text, stats_text, summary_text};
use flow_object::FlowLine;
use flow_sum::{Dir, Sums};
use run_stats::Stats;
use std::test::Fail;
use suri_base::{App, End, IcmpFacts, Key, Reason, Side, StreamLine, Vlans};
use tcp_session::{Class, State};

// 2023-11-14T22:13:20 UTC.
const T: u64 = 1_700_000_000_000_000_000;

const SECOND: u64 = 1_000_000_000;

const UNTAGGED: Vlans = Vlans {
    count: 0,
    first: 0,
    second: 0,
    third: 0,
};

// 66.35.250.204:80 and 128.232.110.120:34855 over TCP.
const WEB: Key = Key {
    vlans: UNTAGGED,
    version: 4,
    proto: 6,
    one_way: false,
    a: End {
        addr: 0x4223_facc,
        port: 80,
    },
    b: End {
        addr: 0x80e8_6e78,
        port: 34_855,
    },
};

// 10.0.0.1:1000 and 10.0.0.2:2000 over UDP.
const DATAGRAMS: Key = Key {
    vlans: UNTAGGED,
    version: 4,
    proto: 17,
    one_way: false,
    a: End {
        addr: 0x0a00_0001,
        port: 1000,
    },
    b: End {
        addr: 0x0a00_0002,
        port: 2000,
    },
};

// 2001:db8::a01 port 5353 and 2001:db8:1:2:3:4:fedc:53 port 53 over UDP, behind three tags.
const NAMES: Key = Key {
    vlans: Vlans {
        count: 3,
        first: 5,
        second: 4095,
        third: 7,
    },
    version: 6,
    proto: 17,
    one_way: false,
    a: End {
        addr: 0x2001_0db8_0000_0000_0000_0000_0000_0a01,
        port: 5353,
    },
    b: End {
        addr: 0x2001_0db8_0001_0002_0003_0004_fedc_0053,
        port: 53,
    },
};

// The same hosts: ICMP types 128 and 129, behind two tags.
const ECHOES: Key = Key {
    vlans: Vlans {
        count: 2,
        first: 0,
        second: 9,
        third: 0,
    },
    version: 6,
    proto: 58,
    one_way: false,
    a: End {
        addr: 0x2001_0db8_0000_0000_0000_0000_0000_0a01,
        port: 128,
    },
    b: End {
        addr: 0x2001_0db8_0001_0002_0003_0004_fedc_0053,
        port: 129,
    },
};

// 192.0.2.1 to 203.0.113.255: ICMP type 3, code 13, behind one tag.
const UNREACHED: Key = Key {
    vlans: Vlans {
        count: 1,
        first: 100,
        second: 0,
        third: 0,
    },
    version: 4,
    proto: 1,
    one_way: true,
    a: End {
        addr: 0xc000_0201,
        port: 3,
    },
    b: End {
        addr: 0xcb00_71ff,
        port: 13,
    },
};

// 10.1.2.3:40000 and 10.1.2.4:22 over TCP.
const SHELL: Key = Key {
    vlans: UNTAGGED,
    version: 4,
    proto: 6,
    one_way: false,
    a: End {
        addr: 0x0a01_0203,
        port: 40_000,
    },
    b: End {
        addr: 0x0a01_0204,
        port: 22,
    },
};

// A stream of no byte.
const EMPTY: StreamLine = StreamLine {
    bytes: 0,
    digest: [
        0xda, 0x39, 0xa3, 0xee, 0x5e, 0x6b, 0x4b, 0x0d, 0x32, 0x55, 0xbf, 0xef, 0x95, 0x60, 0x18,
        0x90, 0xaf, 0xd8, 0x07, 0x09,
    ],
    stop: 0,
};

// 'abc'.
const THREE_BYTES: StreamLine = StreamLine {
    bytes: 3,
    digest: [
        0xa9, 0x99, 0x3e, 0x36, 0x47, 0x06, 0x81, 0x6a, 0xba, 0x3e, 0x25, 0x71, 0x78, 0x50, 0xc2,
        0x6c, 0x9c, 0xd0, 0xd8, 0x9d,
    ],
    stop: 0,
};

// 'SSH-2.0-x', stopped at frame 8.
const STOPPED: StreamLine = StreamLine {
    bytes: 9,
    digest: [
        0x29, 0x5d, 0x92, 0xfd, 0x8d, 0x9b, 0x0c, 0xcf, 0x2a, 0xe3, 0x1f, 0xbd, 0xd9, 0xe2, 0xf6,
        0xb7, 0x69, 0x1a, 0x79, 0x3d,
    ],
    stop: 8,
};

// A thousand times 'x', stopped at the last frame of the largest capture.
const STOPPED_LATE: StreamLine = StreamLine {
    bytes: 1000,
    digest: [
        0xc3, 0xef, 0xa6, 0x90, 0xfa, 0x3f, 0xdd, 0x2e, 0x25, 0x26, 0x85, 0x3e, 0xed, 0x67, 0x05,
        0x38, 0xea, 0x12, 0x76, 0x38,
    ],
    stop: 4_194_304,
};

// Packets with so many bytes from one time to another, with these flags and TTLs.
fn dir(pkts: u64, bytes: u64, times: (u64, u64), flags: u8, ttls: (u8, u8)) -> Dir {
    Dir {
        pkts,
        bytes,
        start: times.0,
        end: times.1,
        flags,
        min_ttl: ttls.0,
        max_ttl: ttls.1,
    }
}

// No packet.
fn silent() -> Dir {
    dir(0, 0, (0, 0), 0, (0, 0))
}

// A record of frames `nos.0` to `nos.1` that ended with the capture.
fn record_of(key: Key, client: Side, nos: (u32, u32), ts: Dir, tc: Dir) -> FlowLine {
    FlowLine {
        sums: Sums {
            first_no: nos.0,
            last_no: nos.1,
            last_clock: 0,
            key,
            client,
            icmp: None,
            ts,
            tc,
        },
        class: Class::New,
        state: State::Nothing,
        app: App::None,
        ts: EMPTY,
        tc: EMPTY,
        reason: Reason::Shutdown,
        emergency: false,
    }
}

// A connection from handshake to end, whose client began another one.
fn reused() -> FlowLine {
    let millisecond = 1_000_000;
    let ts = dir(5, 273, (T, T + 6 * millisecond), 0x1b, (64, 64));
    let tc = dir(
        2,
        108,
        (T + millisecond, T + 5 * millisecond),
        0x13,
        (64, 64),
    );
    let mut line = record_of(WEB, Side::FromB, (1, 7), ts, tc);
    line.class = Class::Closed;
    line.state = State::Closed;
    line.ts = THREE_BYTES;
    line.reason = Reason::TcpReuse;
    line
}

// A question and two answers, ended by the emergency table.
fn tagged() -> FlowLine {
    let asked = T + 123_456_789;
    let ts = dir(1, 90, (asked, asked), 0, (61, 61));
    let tc = dir(
        2,
        263,
        (T + 1_999_999_999, T + 65 * SECOND + 1),
        0,
        (55, 58),
    );
    let mut line = record_of(NAMES, Side::FromA, (11, 15), ts, tc);
    line.class = Class::Established;
    line.app = App::Dns;
    line.reason = Reason::Timeout;
    line.emergency = true;
    line
}

// An error message, forced out.
fn unreachable_host() -> FlowLine {
    let ts = dir(1, 70, (T, T), 0, (255, 255));
    let mut line = record_of(UNREACHED, Side::FromA, (3, 3), ts, silent());
    line.sums.icmp = Some(IcmpFacts { kind: 3, code: 13 });
    line.reason = Reason::Forced;
    line
}

// A ping and its answer, five nanoseconds later.
fn echoed() -> FlowLine {
    let ts = dir(1, 118, (T, T), 0, (1, 1));
    let tc = dir(1, 119, (T + 5, T + 5), 0, (2, 2));
    let mut line = record_of(ECHOES, Side::FromA, (4, 6), ts, tc);
    line.sums.icmp = Some(IcmpFacts { kind: 128, code: 0 });
    line.class = Class::Established;
    line
}

// SYN and ACK, ECE from the server; FIN, PSH and URG from the client; RST, ACK and CWR from the server.
fn all_flags() -> FlowLine {
    let ts = dir(1, 70, (T + 2 * SECOND, T + 2 * SECOND), 0x29, (128, 128));
    let tc = dir(2, 121, (T, T + 3 * SECOND), 0xd6, (62, 63));
    let mut line = record_of(SHELL, Side::FromA, (7, 9), ts, tc);
    line.class = Class::Closed;
    line.state = State::Closed;
    line.app = App::Ssh;
    line.ts = STOPPED;
    line.tc = STOPPED_LATE;
    line.reason = Reason::Timeout;
    line
}

// An answer to a SYN that the capture doesn't have.
fn answer() -> FlowLine {
    let tc = dir(1, 54, (T, T), 0x12, (64, 64));
    let mut line = record_of(WEB, Side::FromB, (1, 1), silent(), tc);
    line.state = State::SynRecv;
    line
}

#[test]
fn writes_records_as_the_model_does(rt: HostRuntime) -> Result<(), Fail> {
    let packet = dir(1, 42, (T, T), 0, (64, 64));
    let one_packet = record_of(DATAGRAMS, Side::FromA, (1, 1), packet, silent());
    let table: [(&FlowLine, u16, &str, &str); 7] = [
        (&reused(), 0, REUSED, REUSED_BOTH_WAYS),
        (&one_packet, 0, ONE_PACKET, ONE_PACKET_ONE_WAY),
        (&tagged(), 51_966, TAGGED, TAGGED_BOTH_WAYS),
        (&unreachable_host(), 0, UNREACHABLE, UNREACHABLE_ONE_WAY),
        (&echoed(), 0, ECHO6, ECHO6_BOTH_WAYS),
        (&all_flags(), 0, ALL_FLAGS, ALL_FLAGS_BOTH_WAYS),
        (&answer(), 0, ANSWER, ANSWER_ONE_WAY),
    ];
    for (line, seed, flow, netflow) in &table {
        let key = &line.sums.key;
        let narrow = key.a.addr < 0x1_0000_0000 && key.b.addr < 0x1_0000_0000;
        assert!(rt; key.version == 4 && narrow || key.version == 6);
        let text = flow_text(rt.alloc(), line, *seed)?;
        assert_eq!(rt; str::from_utf8(&text), Ok(*flow));
        let texts = netflow_text(rt.alloc(), line, *seed)?;
        assert_eq!(rt; str::from_utf8(&texts), Ok(*netflow));
    }
    Ok(())
}

// Nothing was counted.
const NOTHING: Stats = Stats {
    clock: 0,
    capture_bytes: 0,
    cut_bytes: 0,
    frames: 0,
    ethertype: 0,
    fragment: 0,
    icmp_small: 0,
    ip_extensions: 0,
    ip_header: 0,
    ip_small: 0,
    ip_version: 0,
    link_small: 0,
    other_proto: 0,
    tcp_header: 0,
    tcp_small: 0,
    udp_small: 0,
    vlan_deep: 0,
    vlan_small: 0,
    records: 0,
    packets: 0,
    flow_bytes: 0,
    timeout: 0,
    tcp_reuse: 0,
    forced: 0,
    shutdown: 0,
    emergency: 0,
    no_flow: 0,
    memcap_full: 0,
    segment_full: 0,
    emergency_entered: 0,
};

// Each count is another one.
const ALL: Stats = Stats {
    // The last microsecond of 28 February 2000, and more.
    clock: 951_782_399_999_999_999,
    capture_bytes: u64::MAX,
    cut_bytes: 102,
    frames: 4_194_304,
    ethertype: 104,
    fragment: 105,
    icmp_small: 106,
    ip_extensions: 107,
    ip_header: 108,
    ip_small: 109,
    ip_version: 110,
    link_small: 111,
    other_proto: 112,
    tcp_header: 113,
    tcp_small: 114,
    udp_small: 115,
    vlan_deep: 116,
    vlan_small: 117,
    records: 118,
    packets: 119,
    flow_bytes: 120,
    timeout: 121,
    tcp_reuse: 122,
    forced: 123,
    shutdown: 124,
    emergency: 125,
    no_flow: 126,
    memcap_full: 127,
    segment_full: 128,
    emergency_entered: 129,
};

#[test]
fn writes_counts_as_the_model_does(rt: HostRuntime) -> Result<(), Fail> {
    for (stats, want) in &[(&NOTHING, NOTHING_COUNTED), (&ALL, ALL_COUNTED)] {
        let text = stats_text(rt.alloc(), stats)?;
        assert_eq!(rt; str::from_utf8(&text), Ok(*want));
    }
    Ok(())
}

#[test]
fn sums_up_a_text_that_comes_in_pieces(rt: HostRuntime) -> Result<(), Fail> {
    let mut tally = Tally::new();
    for piece in &["{}\n", "", "two\nlines", "\n", "\n"] {
        tally.add(piece.as_bytes());
    }
    let (lines, digest) = tally.finish();
    let text = summary_text(rt.alloc(), &ALL, u64::MAX, 1_000_000, lines, &digest)?;
    assert_eq!(rt; str::from_utf8(&text), Ok(ALL_SUMMED_UP));
    Ok(())
}
