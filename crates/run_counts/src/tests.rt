//! A capture, records and a trail made by hand, and each of their counts.
ghost use Rattle.std.specs.Prelude.{◌≡◌, ◌^◌, ◌<◌, IfOk};
ghost use Rattle.run_counts.specs.Counting.{all_refusals, refusals};

use crate::stats_of;
use flow_object::FlowLine;
use flow_sum::{Dir, Sums};
use run_stats::Stats;
use std::alloc::Global;
use std::test::Fail;
use suri_base::{
    App, BucketNote, Capture, Counter, End, Entry, Facts, Frame, Key, Layout, NoMemory, PoolNote,
    Reason, Seen, SegNote, Side, StreamLine, Trail, Vlans,
};
use tcp_session::{Class, State};

const KEY: Key = Key {
    vlans: Vlans {
        count: 0,
        first: 0,
        second: 0,
        third: 0,
    },
    version: 4,
    proto: 17,
    one_way: false,
    a: End {
        addr: 0x0a00_0001,
        port: 1000,
    },
    b: End {
        addr: 0x0a00_0002,
        port: 2000,
    },
};

const FACTS: Facts = Facts {
    no: 7,
    time: 7_000,
    clock: 7_000,
    key: KEY,
    side: Side::FromA,
    len: 29,
    ttl: 64,
    tcp: None,
    icmp: None,
    pay_at: 22,
    pay_len: 5,
    next: 0,
};

// The stream of no byte (SHA-1, FIPS 180-4).
const EMPTY: StreamLine = StreamLine {
    bytes: 0,
    digest: [
        0xda, 0x39, 0xa3, 0xee, 0x5e, 0x6b, 0x4b, 0x0d, 0x32, 0x55, 0xbf, 0xef, 0x95, 0x60, 0x18,
        0x90, 0xaf, 0xd8, 0x07, 0x09,
    ],
    stop: 0,
};

const LAYOUT: Layout = Layout {
    workers: 1,
    batch: 2,
    round: 3,
    rows: 3,
    memcap: 4,
    segments: 5,
    recovery: 50,
    depth: 6,
};

// Frames end to end, from the first byte on.
fn frame(no: u32, at: u32, len: u32) -> Frame
    ensures { result ≡ record { no = no; time = 7000; orig = 60; at = at; len = len } }
{
    Frame {
        no,
        time: 7_000,
        orig: 60,
        at,
        len,
    }
}

// Six frames that bear no flow, and one that bears a datagram. Eleven bytes behind them are cut off.
fn seven_frames(alloc: Global) -> Result<Capture, NoMemory> {
    let bytes = vec![in alloc; 0; 28]?;
    let frames = vec![in alloc;
        frame(1, 0, 1),
        frame(2, 1, 2),
        frame(3, 3, 3),
        frame(4, 6, 4),
        frame(5, 10, 5),
        frame(6, 15, 6),
        frame(7, 21, 7),
    ]?;
    let clocks = vec![in alloc; 7_000, 7_000, 7_000, 7_000, 7_000, 7_000, 7_000]?;
    let seen = vec![in alloc;
        Seen::Counted(Counter::Ethertype),
        Seen::Counted(Counter::VlanDeep),
        Seen::Counted(Counter::Ethertype),
        Seen::Counted(Counter::OtherProto),
        Seen::Counted(Counter::VlanDeep),
        Seen::Counted(Counter::Ethertype),
        Seen::Bears(FACTS),
    ]?;
    Capture::of(alloc, bytes, frames, clocks, seen, 11)
}

// What is counted of one direction.
fn dir(pkts: u64, bytes: u64) -> Dir
    ensures pkts { result.pkts ≡ pkts }
    ensures bytes { result.bytes ≡ bytes }
{
    Dir {
        pkts,
        bytes,
        start: 0,
        end: 0,
        flags: 0,
        min_ttl: 0,
        max_ttl: 0,
    }
}

// The record of a flow that ended so.
fn line(reason: Reason, emergency: bool, ts: Dir, tc: Dir) -> FlowLine
    ensures ts { result.sums.ts ≡ ts }
    ensures tc { result.sums.tc ≡ tc }
{
    FlowLine {
        sums: Sums {
            first_no: 1,
            last_no: 2,
            last_clock: 0,
            key: KEY,
            client: Side::FromA,
            icmp: None,
            ts,
            tc,
        },
        class: Class::New,
        state: State::Nothing,
        app: App::None,
        ts: EMPTY,
        tc: EMPTY,
        reason,
        emergency,
    }
}

fn entry<N>(note: N) -> Entry<N>
    ensures { result.note ≡ note }
{
    Entry {
        role: 0,
        step: 0,
        note,
    }
}

// Three packets are refused here, and two of them are done with.
fn first_bucket(alloc: Global) -> Result<Vec<Entry<BucketNote>>, NoMemory>
    ensures { IfOk result (λ h. refusals h.items ≡ 3) }
{
    Ok(vec![in alloc;
        entry(BucketNote::Refused { no: 1 }),
        entry(BucketNote::Idle {
            no: 1,
            app: App::None
        }),
        entry(BucketNote::Refused { no: 2 }),
        entry(BucketNote::Refused { no: 3 }),
        entry(BucketNote::Idle {
            no: 3,
            app: App::None
        }),
    ]?)
}

// And six here.
fn last_bucket(alloc: Global) -> Result<Vec<Entry<BucketNote>>, NoMemory>
    ensures { IfOk result (λ h. refusals h.items ≡ 6) }
{
    Ok(vec![in alloc;
        entry(BucketNote::Stopped { no: 4 }),
        entry(BucketNote::Refused { no: 5 }),
        entry(BucketNote::Refused { no: 6 }),
        entry(BucketNote::Refused { no: 7 }),
        entry(BucketNote::Drained { count: 1 }),
        entry(BucketNote::Refused { no: 8 }),
        entry(BucketNote::Refused { no: 9 }),
        entry(BucketNote::Refused { no: 10 }),
    ]?)
}

// The pool of flows is full while no emergency is on, then while one is on, and then again after it ended.
fn trail(alloc: Global) -> Result<Trail, NoMemory>
    ensures { IfOk result (λ t. all_refusals t.buckets < 2 ^ 64) }
{
    let full = PoolNote::Full {
        no: 9,
        out: 4,
        limit: 4,
    };
    let short = SegNote::Full {
        no: 9,
        out: 5,
        limit: 5,
    };
    let pool = vec![in alloc;
        entry(PoolNote::Took { no: 1 }),
        entry(full),
        entry(full),
        entry(PoolNote::Over {
            round: 0,
            ended: true
        }),
        entry(full),
        entry(PoolNote::Over {
            round: 1,
            ended: false
        }),
        entry(PoolNote::Mode { on: true }),
    ]?;
    let segments = vec![in alloc;
        entry(SegNote::Took { no: 1 }),
        entry(short),
        entry(short),
        entry(SegNote::Gave { count: 1 }),
        entry(short),
        entry(short),
        entry(short),
        entry(short),
        entry(short),
        entry(short),
    ]?;
    let buckets = vec![in alloc; first_bucket(alloc)?, Vec::new(alloc), last_bucket(alloc)?]?;
    Ok(Trail {
        layout: LAYOUT,
        pool,
        segments,
        buckets,
    })
}

#[test]
fn counts_each_thing_by_itself(rt: HostRuntime) -> Result<(), Fail> {
    let alloc = rt.alloc();
    let capture = seven_frames(alloc)?;
    let trail = trail(alloc)?;
    let lines = [
        line(Reason::Timeout, true, dir(1, 1_000), dir(20, 20_000)),
        line(Reason::TcpReuse, false, dir(2, 2_000), dir(30, 30_000)),
        line(Reason::Timeout, true, dir(3, 3_000), dir(40, 40_000)),
        line(Reason::Forced, false, dir(4, 4_000), dir(50, 50_000)),
        line(Reason::Timeout, true, dir(5, 5_000), dir(60, 60_000)),
        line(Reason::Shutdown, false, dir(6, 6_000), dir(70, 70_000)),
        line(Reason::Timeout, true, dir(7, 7_000), dir(80, 80_000)),
        line(Reason::Forced, true, dir(8, 8_000), dir(90, 90_000)),
        line(Reason::Shutdown, false, dir(9, 9_000), dir(100, 100_000)),
        line(Reason::Forced, false, dir(10, 10_000), dir(110, 110_000)),
    ];
    let stats = stats_of(&capture, &lines, &trail);
    let expected = Stats {
        clock: 7_000,
        capture_bytes: 28,
        cut_bytes: 11,
        frames: 7,
        ethertype: 3,
        fragment: 0,
        icmp_small: 0,
        ip_extensions: 0,
        ip_header: 0,
        ip_small: 0,
        ip_version: 0,
        link_small: 0,
        other_proto: 1,
        tcp_header: 0,
        tcp_small: 0,
        udp_small: 0,
        vlan_deep: 2,
        vlan_small: 0,
        records: 10,
        packets: 705,
        flow_bytes: 705_000,
        timeout: 4,
        tcp_reuse: 1,
        forced: 3,
        shutdown: 2,
        emergency: 5,
        no_flow: 9,
        memcap_full: 3,
        segment_full: 8,
        emergency_entered: 2,
    };
    assert_eq!(rt; stats, expected);
    Ok(())
}
