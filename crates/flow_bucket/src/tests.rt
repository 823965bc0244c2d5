//! Buckets through small captures that are worked out by hand. Each call is asked for only where the history leaves room for it.
ghost use Rattle.std.specs.Prelude.{◌≡◌, ◌≤◌, ◌∷◌, ℕ, List, IfOk, IfSome, Some, true};
ghost use Rattle.suri_base.specs.Chain.{IsAlone};
ghost use Rattle.suri_base.specs.declared.entry.Entry.{Entry};
ghost use Rattle.suri_base.specs.declared.entry.BucketNote.{BucketNote};
ghost use Rattle.suri_base.specs.declared.seen.Seen.TheVariants.{Bears};
ghost use Rattle.suri_base.specs.declared.key.Side.TheVariants.{FromB};
ghost use Rattle.suri_base.specs.Dealing as dealt;
ghost use Rattle.suri_base.specs.declared.facts.Facts.{Facts};
ghost use Rattle.bucket_rules.specs.Packets.{bearing};
ghost use Rattle.bucket_rules.specs.Own as own;
ghost use Rattle.flow_bucket.specs.Bucket.{fixed_of, BucketStands};
ghost use Rattle.flow_bucket.specs.Stands.{BucketMay};

use crate::{BucketCall, BucketReply, FlowBucket};
use bucket_flow::facts_of;
use flow_object::{Ended, FlowObj};
use flow_table::Due;
use std::alloc::Global;
use std::process::Abort;
use std::test::Fail;
use suri_base::{
    App, BucketNote, Capture, End, Entry, Facts, Frame, Key, Layout, Machine, NoMemory, Offer,
    Reason, Seen, Segment, Segments, Side, TcpFacts, Vlans, bucket_of, worker_of,
};

// Histories stand with the newest entry first, as the rules are stated.

// The frame that an entry looked up, or 0.
fn looked(note: BucketNote) -> u32
    ensures { result ≡ own.looked note }
{
    match note {
        BucketNote::Found { no, .. } | BucketNote::Missing { no, .. } => no,
        _ => 0,
    }
}

// Whether the frame is above all that the role looked up.
fn is_fresh(role: u32, no: u32, past: &[Entry<BucketNote>]) -> bool
    ensures { result ≡ own.is_fresh role no past.now }
{
    let Some((entry, rest)) = past.split_first() else {
        return true;
    };
    (entry.role != role || looked(entry.note) < no) && is_fresh(role, no, rest)
}

// What the role's newest entry makes of a wait for the frame.
fn awaits_by(no: u32, note: BucketNote, before: bool) -> bool
    ensures { result ≡ own.awaits_by no note before }
{
    match note {
        BucketNote::Missing { no: other, .. } => other == no,
        BucketNote::Victim { .. } | BucketNote::AllInUse { .. } => before,
        _ => false,
    }
}

// Whether the role waits for leave to begin a run with the frame.
fn awaits(role: u32, no: u32, past: &[Entry<BucketNote>]) -> bool
    ensures { result ≡ own.awaits role no past.now }
{
    let Some((entry, rest)) = past.split_first() else {
        return false;
    };
    let before = awaits(role, no, rest);
    if entry.role == role {
        awaits_by(no, entry.note, before)
    } else {
        before
    }
}

// The frame whose offer an entry leaves unsettled.
fn owed(note: BucketNote) -> Option<u32>
    ensures { result ≡ own.owed note }
{
    match note {
        BucketNote::Found {
            no,
            offer: Offer::NeedsSegment,
            ..
        } => Some(no),
        BucketNote::Made {
            no,
            offer: Offer::NeedsSegment,
        } => Some(no),
        _ => None,
    }
}

// The frame whose offer the role has to settle.
fn owes(role: u32, past: &[Entry<BucketNote>]) -> Option<u32>
    ensures { result ≡ own.owes role past.now }
{
    let (entry, rest) = past.split_first()?;
    if entry.role == role {
        owed(entry.note)
    } else {
        owes(role, rest)
    }
}

// Whether the frame is to be closed after the role's entry.
fn open_by(no: u32, note: BucketNote, before: bool) -> bool
    ensures { result ≡ own.open_by no note before }
{
    match note {
        BucketNote::Found { no: other, .. }
        | BucketNote::Made { no: other, .. }
        | BucketNote::Refused { no: other } => other == no || before,
        BucketNote::Closed { no: other, .. } | BucketNote::Idle { no: other, .. } => {
            other != no && before
        }
        _ => before,
    }
}

// Whether the role has yet to close the frame.
fn is_open(role: u32, no: u32, past: &[Entry<BucketNote>]) -> bool
    ensures { result ≡ own.is_open role no past.now }
{
    let Some((entry, rest)) = past.split_first() else {
        return false;
    };
    let before = is_open(role, no, rest);
    if entry.role == role {
        open_by(no, entry.note, before)
    } else {
        before
    }
}

// Whether an entry closes the frame.
fn closes(no: u32, note: BucketNote) -> bool
    ensures { result ≡ own.closes no note }
{
    match note {
        BucketNote::Closed { no: other, .. } | BucketNote::Idle { no: other, .. } => other == no,
        _ => false,
    }
}

// Whether the frame was closed.
fn is_closed(no: u32, past: &[Entry<BucketNote>]) -> bool
    ensures { result ≡ own.is_closed no past.now }
{
    let Some((entry, rest)) = past.split_first() else {
        return false;
    };
    closes(no, entry.note) || is_closed(no, rest)
}

// Room is made for the call, and the bucket answers it.
fn ask(
    bucket: &mut FlowBucket,
    past: &mut Vec<Entry<BucketNote>>,
    role: u32,
    call: BucketCall,
) -> Result<BucketReply, NoMemory>
    requires stands { BucketStands bucket.old past.old.items }
    requires may { BucketMay (fixed_of bucket.old) role past.old.items call }
    ensures stands { IfOk result (λ r. BucketStands bucket.new past.new.items) }
{
    bucket.reserve(&call)?;
    let (reply, note) = bucket.step(role, call);
    let entry = Entry {
        role,
        step: 0,
        note,
    };
    match past.insert(0, entry) {
        Ok(_) => Ok(reply),
        Err(_) => Err(NoMemory),
    }
}

// The worker of a frame's key.
fn worker(rt: &impl Abort, bucket: &FlowBucket, no: u32) -> u32 {
    let Some(facts) = facts_of(bucket.capture, no) else {
        panic!(rt; "frame {no} bears no flow");
    };
    assert!(rt; bucket.layout.workers >= 1);
    worker_of(&facts.key, bucket.layout.workers)
}

// The worker of a frame that waits for leave to begin a run with it.
fn waiting_worker(rt: &impl Abort, bucket: &FlowBucket, past: &[Entry<BucketNote>], no: u32) -> u32
    ensures { own.awaits result no past.now ≡ true }
{
    let role = worker(rt, bucket, no);
    assert!(rt; awaits(role, no, past));
    role
}

// The worker of a frame that has to settle its offer.
fn owing_worker(rt: &impl Abort, bucket: &FlowBucket, past: &[Entry<BucketNote>], no: u32) -> u32
    ensures { own.owes result past.now ≡ Some no }
{
    let role = worker(rt, bucket, no);
    assert!(rt; owes(role, past) == Some(no));
    role
}

fn look(
    rt: &impl Abort,
    bucket: &mut FlowBucket,
    past: &mut Vec<Entry<BucketNote>>,
    no: u32,
    emergency: bool,
) -> Result<BucketReply, NoMemory>
    requires { BucketStands bucket.old past.old.items }
    ensures { IfOk result (λ r. BucketStands bucket.new past.new.items) }
{
    let Some(facts) = facts_of(bucket.capture, no) else {
        panic!(rt; "frame {no} bears no flow");
    };
    assert!(rt; bucket.layout.workers >= 1);
    assert!(rt; bucket.layout.rows >= 1);
    let role = worker_of(&facts.key, bucket.layout.workers);
    assert!(rt; bucket_of(&facts.key, bucket.layout.rows) == bucket.number);
    assert!(rt; is_fresh(role, no, past.as_slice()));
    assert!(rt; owes(role, past.as_slice()).is_none());
    let call = BucketCall::Look {
        no,
        emergency,
        seen: 1,
    };
    ask(bucket, past, role, call)
}

fn make(
    rt: &impl Abort,
    alloc: Global,
    bucket: &mut FlowBucket,
    past: &mut Vec<Entry<BucketNote>>,
    no: u32,
) -> Result<BucketReply, NoMemory>
    requires { BucketStands bucket.old past.old.items }
    ensures { IfOk result (λ r. BucketStands bucket.new past.new.items) }
{
    let role = waiting_worker(rt, bucket, past.as_slice(), no);
    let obj = FlowObj::new(alloc, bucket.layout.depth)?;
    ask(bucket, past, role, BucketCall::Make { no, obj })
}

fn refuse(
    rt: &impl Abort,
    bucket: &mut FlowBucket,
    past: &mut Vec<Entry<BucketNote>>,
    no: u32,
) -> Result<BucketReply, NoMemory>
    requires { BucketStands bucket.old past.old.items }
    ensures { IfOk result (λ r. BucketStands bucket.new past.new.items) }
{
    let role = waiting_worker(rt, bucket, past.as_slice(), no);
    ask(bucket, past, role, BucketCall::Refuse { no })
}

fn segment(
    rt: &impl Abort,
    bucket: &mut FlowBucket,
    past: &mut Vec<Entry<BucketNote>>,
    no: u32,
    node: Option<Box<Segment>>,
) -> Result<BucketReply, NoMemory>
    requires stands { BucketStands bucket.old past.old.items }
    requires alone { IfSome node (λ n. IsAlone n.value) }
    ensures { IfOk result (λ r. BucketStands bucket.new past.new.items) }
{
    let role = owing_worker(rt, bucket, past.as_slice(), no);
    ask(bucket, past, role, BucketCall::Segment { no, node })
}

fn close(
    rt: &impl Abort,
    bucket: &mut FlowBucket,
    past: &mut Vec<Entry<BucketNote>>,
    no: u32,
) -> Result<BucketReply, NoMemory>
    requires { BucketStands bucket.old past.old.items }
    ensures { IfOk result (λ r. BucketStands bucket.new past.new.items) }
{
    let role = worker(rt, bucket, no);
    assert!(rt; is_open(role, no, past.as_slice()));
    assert!(rt; owes(role, past.as_slice()).is_none());
    let app = App::None;
    ask(bucket, past, role, BucketCall::Close { no, app })
}

fn evict(
    rt: &impl Abort,
    bucket: &mut FlowBucket,
    past: &mut Vec<Entry<BucketNote>>,
    no: u32,
) -> Result<BucketReply, NoMemory>
    requires { BucketStands bucket.old past.old.items }
    ensures { IfOk result (λ r. BucketStands bucket.new past.new.items) }
{
    assert!(rt; 0 < bucket.layout.workers);
    assert!(rt; owes(0, past.as_slice()).is_none());
    ask(bucket, past, 0, BucketCall::Evict { no })
}

fn sweep(
    rt: &impl Abort,
    bucket: &mut FlowBucket,
    past: &mut Vec<Entry<BucketNote>>,
    round: u32,
    emergency: bool,
) -> Result<BucketReply, NoMemory>
    requires { BucketStands bucket.old past.old.items }
    ensures { IfOk result (λ r. BucketStands bucket.new past.new.items) }
{
    let role = bucket.layout.workers;
    let frames = bucket.capture.count();
    assert!(rt; (round as u64) * (bucket.layout.round as u64) < frames as u64);
    let call = BucketCall::Sweep {
        round,
        emergency,
        seen: 1,
    };
    ask(bucket, past, role, call)
}

// Whether the frame was closed, where it bears a flow of the bucket.
fn is_done(rt: &impl Abort, bucket: &FlowBucket, past: &[Entry<BucketNote>], no: u32) -> bool
    ensures { result ≡ true → (t : Facts) → bearing bucket.now.capture.now no ≡ Some t → dealt.bucket_of t.key bucket.now.layout.rows ≡ bucket.now.number → own.is_closed no past.now ≡ true }
{
    assert!(rt; bucket.layout.rows >= 1);
    match facts_of(bucket.capture, no) {
        None => true,
        Some(facts) => {
            bucket_of(&facts.key, bucket.layout.rows) != bucket.number || is_closed(no, past)
        }
    }
}

// So for each of the first frames.
fn are_done(rt: &impl Abort, bucket: &FlowBucket, past: &[Entry<BucketNote>], frames: u32) -> bool
    ensures { result ≡ true → (no : ℕ) (t : Facts) → no ≤ frames → bearing bucket.now.capture.now no ≡ Some t → dealt.bucket_of t.key bucket.now.layout.rows ≡ bucket.now.number
        → own.is_closed no past.now ≡ true }
{
    if frames == 0 {
        return true;
    }
    is_done(rt, bucket, past, frames) && are_done(rt, bucket, past, frames - 1)
}

fn drain(
    rt: &impl Abort,
    bucket: &mut FlowBucket,
    past: &mut Vec<Entry<BucketNote>>,
) -> Result<BucketReply, NoMemory>
    requires { BucketStands bucket.old past.old.items }
    ensures { IfOk result (λ r. BucketStands bucket.new past.new.items) }
{
    let frames = bucket.capture.count();
    assert!(rt; are_done(rt, bucket, past.as_slice(), frames));
    assert!(rt; bucket.layout.workers < 64);
    let role = bucket.layout.workers + 2;
    ask(bucket, past, role, BucketCall::Drain)
}

// A packet is looked up, and begins a run where it joins none. Tells the run that left for it, or 0.
fn take(
    rt: &impl Abort,
    alloc: Global,
    bucket: &mut FlowBucket,
    past: &mut Vec<Entry<BucketNote>>,
    no: u32,
) -> Result<u32, NoMemory>
    requires { BucketStands bucket.old past.old.items }
    ensures { IfOk result (λ r. BucketStands bucket.new past.new.items) }
{
    match look(rt, bucket, past, no, false)? {
        BucketReply::Found { .. } => Ok(0),
        BucketReply::Missing(ended) => {
            let run = match &ended {
                None => 0,
                Some(ended) => ended.run,
            };
            let reply = make(rt, alloc, bucket, past, no)?;
            assert!(rt; matches!(reply, BucketReply::Made { .. }));
            Ok(run)
        }
        _ => panic!(rt; "a look answers what only other calls do"),
    }
}

// Those that left are these runs, for these reasons.
fn are_left(rt: &impl Abort, left: &[Ended], wanted: &[(u32, Reason, bool)]) {
    assert_eq!(rt; left.len(), wanted.len());
    for (ended, (run, reason, emergency)) in left.iter().zip(wanted.iter()) {
        assert_eq!(rt; ended.run, *run);
        assert_eq!(rt; ended.reason, *reason);
        assert_eq!(rt; ended.emergency, *emergency);
    }
}

fn nodes_in(rt: &impl Abort, mut nodes: Segments) -> u32 {
    let mut count = 0;
    while let Some(node) = nodes.pop() {
        drop(node);
        assert!(rt; count < 100);
        count += 1;
    }
    count
}

// The run that a closed packet used, how many nodes came back, and the run that left, or 0.
fn closed(rt: &impl Abort, reply: BucketReply) -> (u32, u32, u32) {
    let BucketReply::Closed { run, freed, ended } = reply else {
        panic!(rt; "the packet uses no run");
    };
    let gone = match &ended {
        None => 0,
        Some(ended) => ended.run,
    };
    (run, nodes_in(rt, freed), gone)
}

// The run that a packet joined, and the answer of its stream.
fn joined(rt: &impl Abort, reply: BucketReply) -> (u32, Offer) {
    match reply {
        BucketReply::Found { run, offer } => (run, offer),
        _ => panic!(rt; "the packet joins no run"),
    }
}

// These packets are taken.
fn take_each(
    rt: &impl Abort,
    alloc: Global,
    bucket: &mut FlowBucket,
    past: &mut Vec<Entry<BucketNote>>,
    from: u32,
    to: u32,
) -> Result<(), NoMemory>
    requires { BucketStands bucket.old past.old.items }
    ensures { IfOk result (λ r. BucketStands bucket.new past.new.items) }
{
    for no in from..to {
        let _ = take(rt, alloc, bucket, past, no)?;
    }
    Ok(())
}

// These packets are closed.
fn close_each(
    rt: &impl Abort,
    bucket: &mut FlowBucket,
    past: &mut Vec<Entry<BucketNote>>,
    from: u32,
    to: u32,
) -> Result<(), NoMemory>
    requires { BucketStands bucket.old past.old.items }
    ensures { IfOk result (λ r. BucketStands bucket.new past.new.items) }
{
    for no in from..to {
        let _ = close(rt, bucket, past, no)?;
    }
    Ok(())
}

// The run that leaves for a packet.
fn victim(
    rt: &impl Abort,
    bucket: &mut FlowBucket,
    past: &mut Vec<Entry<BucketNote>>,
    no: u32,
) -> Result<(u32, Reason, bool), NoMemory>
    requires { BucketStands bucket.old past.old.items }
    ensures { IfOk result (λ r. BucketStands bucket.new past.new.items) }
{
    match evict(rt, bucket, past, no)? {
        BucketReply::Victim(ended) => Ok((ended.run, ended.reason, ended.emergency)),
        _ => panic!(rt; "no run could leave"),
    }
}

// The end of the capture lets these runs go.
fn drains(
    rt: &impl Abort,
    bucket: &mut FlowBucket,
    past: &mut Vec<Entry<BucketNote>>,
    wanted: &[(u32, Reason, bool)],
) -> Result<(), NoMemory>
    requires { BucketStands bucket.old past.old.items }
    ensures { IfOk result (λ r. BucketStands bucket.new past.new.items) }
{
    match drain(rt, bucket, past)? {
        BucketReply::Drained(left) => are_left(rt, left.as_slice(), wanted),
        _ => panic!(rt; "a drain answers what only other calls do"),
    }
    Ok(())
}

// That run left, or none.
fn is_left(rt: &impl Abort, left: &[Ended], wanted: Option<u32>, reason: Reason, emergency: bool) {
    match wanted {
        None => are_left(rt, left, &[]),
        Some(run) => are_left(rt, left, &[(run, reason, emergency)]),
    }
}

// A sweep lets that run go, or none.
fn sweeps(
    rt: &impl Abort,
    bucket: &mut FlowBucket,
    past: &mut Vec<Entry<BucketNote>>,
    round: u32,
    emergency: bool,
    wanted: Option<u32>,
) -> Result<(), NoMemory>
    requires { BucketStands bucket.old past.old.items }
    ensures { IfOk result (λ r. BucketStands bucket.new past.new.items) }
{
    match sweep(rt, bucket, past, round, emergency)? {
        BucketReply::Swept(left) => {
            is_left(rt, left.as_slice(), wanted, Reason::Timeout, emergency)
        }
        _ => panic!(rt; "a sweep answers what only other calls do"),
    }
    Ok(())
}

fn newest(rt: &impl Abort, past: &[Entry<BucketNote>]) -> BucketNote {
    assert!(rt; !past.is_empty());
    past[0].note
}

const LAYOUT: Layout = Layout {
    workers: 1,
    batch: 8,
    round: 1,
    rows: 1,
    memcap: 8,
    segments: 8,
    recovery: 10,
    depth: 100,
};

// The first time, in nanoseconds.
const START: u64 = 1_700_000_000_000_000_000;

const SECOND: u64 = 1_000_000_000;

// A datagram.
const DATAGRAM: Facts = Facts {
    no: 1,
    time: START,
    clock: START,
    key: Key {
        vlans: Vlans {
            count: 0,
            first: 0,
            second: 0,
            third: 0,
        },
        version: 4,
        proto: 17,
        one_way: false,
        a: End {
            addr: 0x0a00_0001,
            port: 1000,
        },
        b: End {
            addr: 0x0a00_0002,
            port: 2000,
        },
    },
    side: Side::FromA,
    len: 42,
    ttl: 64,
    tcp: None,
    icmp: None,
    pay_at: 0,
    pay_len: 0,
    next: 0,
};

fn frame(no: u32, time: u64) -> Frame
    ensures { result ≡ record { no = no; time = time; orig = 42; at = 0; len = 0 } }
{
    Frame {
        no,
        time,
        orig: 42,
        at: 0,
        len: 0,
    }
}

// A datagram of the key with this port of the one that asks.
fn datagram(no: u32, time: u64, port: u16, next: u32) -> Seen
    ensures { result ≡ Bears (record DATAGRAM { no = no; time = time; clock = time; key = record (DATAGRAM.key) { a = record (DATAGRAM.key.a) { port = port } }; next = next }) }
{
    Seen::Bears(Facts {
        no,
        time,
        clock: time,
        key: Key {
            a: End {
                port,
                ..DATAGRAM.key.a
            },
            ..DATAGRAM.key
        },
        next,
        ..DATAGRAM
    })
}

// A segment whose payload stands at this place.
fn tcp(no: u32, time: u64, side: Side, flags: u8, seq: u32, at: u32, len: u32, next: u32) -> Seen
    ensures { result ≡ Bears (record DATAGRAM { no = no; time = time; clock = time; side = side; key = record (DATAGRAM.key) { proto = 6 }; tcp = Some (record { seq = seq; ack = 0; flags = flags }); pay_at = at; pay_len = len; next = next }) }
{
    let tcp = TcpFacts { seq, ack: 0, flags };
    Seen::Bears(Facts {
        no,
        time,
        clock: time,
        side,
        key: Key {
            proto: 6,
            ..DATAGRAM.key
        },
        tcp: Some(tcp),
        pay_at: at,
        pay_len: len,
        next,
        ..DATAGRAM
    })
}

// A connection that is closed, and one more by the same key, a second apart.
fn reused(alloc: Global) -> Result<Capture, NoMemory> {
    let bytes = vec![in alloc; b'a', b'b', b'c']?;
    let frames = vec![in alloc;
        frame(1, START),
        frame(2, START + 1),
        frame(3, START + 2),
        frame(4, START + 3),
        frame(5, START + 4),
        frame(6, START + 5),
        frame(7, START + 6),
        frame(8, START + 7),
    ]?;
    let clocks = vec![in alloc;
        START,
        START + 1,
        START + 2,
        START + 3,
        START + 4,
        START + 5,
        START + 6,
        START + 7,
    ]?;
    let seen = vec![in alloc;
        tcp(1, START, Side::FromA, 0x02, 100, 0, 0, 2),
        tcp(2, START + 1, Side::FromB, 0x12, 500, 0, 0, 3),
        tcp(3, START + 2, Side::FromA, 0x10, 101, 0, 0, 4),
        tcp(4, START + 3, Side::FromA, 0x18, 101, 0, 3, 5),
        tcp(5, START + 4, Side::FromA, 0x11, 104, 0, 0, 6),
        tcp(6, START + 5, Side::FromB, 0x11, 501, 0, 0, 7),
        tcp(7, START + 6, Side::FromA, 0x10, 105, 0, 0, 8),
        tcp(8, START + 7, Side::FromA, 0x02, 9000, 0, 0, 0),
    ]?;
    Capture::of(alloc, bytes, frames, clocks, seen, 0)
}

// One stream: its second segment waits for the third, and the fourth for bytes that never come.
fn waiting(alloc: Global) -> Result<Capture, NoMemory> {
    let bytes = vec![in alloc; b'a', b'b', b'c']?;
    let frames = vec![in alloc;
        frame(1, START),
        frame(2, START + 1),
        frame(3, START + 2),
        frame(4, START + 3),
        frame(5, START + 4),
    ]?;
    let clocks = vec![in alloc; START, START + 1, START + 2, START + 3, START + 4]?;
    let seen = vec![in alloc;
        tcp(1, START, Side::FromA, 0x02, 99, 0, 0, 2),
        tcp(2, START + 1, Side::FromA, 0x18, 101, 1, 1, 3),
        tcp(3, START + 2, Side::FromA, 0x18, 100, 0, 1, 4),
        tcp(4, START + 3, Side::FromA, 0x18, 110, 2, 1, 5),
        tcp(5, START + 4, Side::FromA, 0x18, 102, 0, 1, 0),
    ]?;
    Capture::of(alloc, bytes, frames, clocks, seen, 0)
}

// Datagrams of six keys, of which the first has two. The timeout of a key with one datagram is 30 seconds.
fn datagrams(alloc: Global) -> Result<Capture, NoMemory> {
    let bytes = Vec::new(alloc);
    let frames = vec![in alloc;
        frame(1, START),
        frame(2, START),
        frame(3, START + 30 * SECOND),
        frame(4, START + 30 * SECOND + 1),
        frame(5, START + 61 * SECOND),
        frame(6, START + 61 * SECOND),
    ]?;
    let clocks = vec![in alloc;
        START,
        START,
        START + 30 * SECOND,
        START + 30 * SECOND + 1,
        START + 61 * SECOND,
        START + 61 * SECOND,
    ]?;
    let seen = vec![in alloc;
        datagram(1, START, 1000, 5),
        datagram(2, START, 1001, 0),
        datagram(3, START + 30 * SECOND, 1002, 0),
        datagram(4, START + 30 * SECOND + 1, 1003, 0),
        datagram(5, START + 61 * SECOND, 1000, 0),
        datagram(6, START + 61 * SECOND, 1004, 0),
    ]?;
    Capture::of(alloc, bytes, frames, clocks, seen, 0)
}

// A datagram the other way of the key with the port 1000.
fn answer(no: u32, time: u64, next: u32) -> Seen
    ensures { result ≡ Bears (record DATAGRAM { no = no; time = time; clock = time; side = FromB; next = next }) }
{
    Seen::Bears(Facts {
        no,
        time,
        clock: time,
        side: Side::FromB,
        next,
        ..DATAGRAM
    })
}

// Two datagrams of a key, one each way, and one of another key.
fn answered(alloc: Global) -> Result<Capture, NoMemory> {
    let bytes = Vec::new(alloc);
    let frames = vec![in alloc;
        frame(1, START),
        frame(2, START + SECOND),
        frame(3, START + 2 * SECOND),
    ]?;
    let clocks = vec![in alloc; START, START + SECOND, START + 2 * SECOND]?;
    let seen = vec![in alloc;
        datagram(1, START, 1000, 2),
        answer(2, START + SECOND, 0),
        datagram(3, START + 2 * SECOND, 1001, 0),
    ]?;
    Capture::of(alloc, bytes, frames, clocks, seen, 0)
}

// How many packets a large capture has.
const MANY: u32 = 300;

// One more in front.
fn put_first<T: Drop>(items: &mut Vec<T>, item: T) -> Result<(), NoMemory>
    ensures { IfOk result (λ r. items.new.items ≡ item ∷ items.old.items) }
{
    match items.insert(0, item) {
        Ok(_) => Ok(()),
        Err(_) => Err(NoMemory),
    }
}

// Datagrams of one key, each so late that the run before it has expired.
fn many(alloc: Global) -> Result<Capture, NoMemory> {
    let mut frames = Vec::new(alloc);
    let mut clocks = Vec::new(alloc);
    let mut seen = Vec::new(alloc);
    let mut next = 0;
    for at in 0..MANY {
        let no = MANY - at;
        let time = START + (no as u64) * 31_000_000_000;
        put_first(&mut frames, frame(no, time))?;
        put_first(&mut clocks, time)?;
        put_first(&mut seen, datagram(no, time, 1000, next))?;
        next = no;
    }
    let bytes = Vec::new(alloc);
    Capture::of(alloc, bytes, frames, clocks, seen, 0)
}

// The packets of the first connection use run 1, and the eighth detaches it.
fn detach_first(
    rt: &impl Abort,
    alloc: Global,
    bucket: &mut FlowBucket,
    past: &mut Vec<Entry<BucketNote>>,
) -> Result<(), NoMemory>
    requires { BucketStands bucket.old past.old.items }
    ensures { IfOk result (λ r. BucketStands bucket.new past.new.items) }
{
    take_each(rt, alloc, bucket, past, 1, 8)?;
    let reply = look(rt, bucket, past, 8, false)?;
    assert!(rt; matches!(reply, BucketReply::Missing(None)));
    let missing = BucketNote::Missing {
        no: 8,
        emergency: false,
        seen: 1,
        ended: 0,
    };
    assert!(rt; newest(rt, past.as_slice()) == missing);
    let reply = make(rt, alloc, bucket, past, 8)?;
    assert!(rt;
        matches!(
            reply,
            BucketReply::Made {
                offer: Offer::Nothing
            }
        )
    );
    Ok(())
}

// Run 1 leaves at the close of frame 7.
fn close_first(
    rt: &impl Abort,
    bucket: &mut FlowBucket,
    past: &mut Vec<Entry<BucketNote>>,
) -> Result<(), NoMemory>
    requires { BucketStands bucket.old past.old.items }
    ensures { IfOk result (λ r. BucketStands bucket.new past.new.items) }
{
    close_each(rt, bucket, past, 1, 7)?;
    let reply = close(rt, bucket, past, 7)?;
    assert_eq!(rt; closed(rt, reply), (1, 0, 1));
    let note = BucketNote::Closed {
        no: 7,
        app: App::None,
        run: 1,
        freed: 0,
        ended: true,
    };
    assert!(rt; newest(rt, past.as_slice()) == note);
    let reply = close(rt, bucket, past, 8)?;
    assert_eq!(rt; closed(rt, reply), (8, 0, 0));
    Ok(())
}

// The run whose key is used again is detached while its packets use it, and leaves at the close of the last of them.
#[test]
fn a_used_run_leaves_at_its_last_close(rt: HostRuntime) -> Result<(), Fail> {
    let capture = reused(rt.alloc())?;
    let mut bucket = FlowBucket::new(rt.alloc(), &capture, LAYOUT, 0);
    let mut past = Vec::new(rt.alloc());
    detach_first(&rt, rt.alloc(), &mut bucket, &mut past)?;
    close_first(&rt, &mut bucket, &mut past)?;
    drains(&rt, &mut bucket, &mut past, &[(8, Reason::Shutdown, false)])?;
    Ok(())
}

// Frame 2 waits in a node until frame 3 closes the gap.
fn store_second(
    rt: &impl Abort,
    alloc: Global,
    bucket: &mut FlowBucket,
    past: &mut Vec<Entry<BucketNote>>,
) -> Result<(), NoMemory>
    requires { BucketStands bucket.old past.old.items }
    ensures { IfOk result (λ r. BucketStands bucket.new past.new.items) }
{
    let _ = take(rt, alloc, bucket, past, 1)?;
    let reply = look(rt, bucket, past, 2, false)?;
    assert_eq!(rt; joined(rt, reply), (1, Offer::NeedsSegment));
    let node = Segment::blank(alloc)?;
    let reply = segment(rt, bucket, past, 2, Some(node))?;
    assert!(rt; matches!(reply, BucketReply::Stored));
    let reply = close(rt, bucket, past, 1)?;
    assert_eq!(rt; closed(rt, reply), (1, 0, 0));
    let reply = look(rt, bucket, past, 3, false)?;
    assert_eq!(rt; joined(rt, reply), (1, Offer::InOrder));
    let reply = close(rt, bucket, past, 2)?;
    assert_eq!(rt; closed(rt, reply), (1, 1, 0));
    Ok(())
}

// Frame 4 gets no node, so its stream stops there.
fn stop_fourth(
    rt: &impl Abort,
    bucket: &mut FlowBucket,
    past: &mut Vec<Entry<BucketNote>>,
) -> Result<(), NoMemory>
    requires { BucketStands bucket.old past.old.items }
    ensures { IfOk result (λ r. BucketStands bucket.new past.new.items) }
{
    let reply = look(rt, bucket, past, 4, false)?;
    assert_eq!(rt; joined(rt, reply), (1, Offer::NeedsSegment));
    let reply = segment(rt, bucket, past, 4, None)?;
    assert!(rt; matches!(reply, BucketReply::Stopped));
    let reply = look(rt, bucket, past, 5, false)?;
    assert_eq!(rt; joined(rt, reply), (1, Offer::Stopped));
    let reply = close(rt, bucket, past, 3)?;
    assert_eq!(rt; closed(rt, reply), (1, 0, 0));
    Ok(())
}

#[test]
fn nodes_wait_and_come_back(rt: HostRuntime) -> Result<(), Fail> {
    let capture = waiting(rt.alloc())?;
    let mut bucket = FlowBucket::new(rt.alloc(), &capture, LAYOUT, 0);
    let mut past = Vec::new(rt.alloc());
    store_second(&rt, rt.alloc(), &mut bucket, &mut past)?;
    stop_fourth(&rt, &mut bucket, &mut past)?;
    Ok(())
}

// Of two runs with one clock the lesser leaves first, and one that is used stays.
#[test]
fn the_oldest_run_is_evicted(rt: HostRuntime) -> Result<(), Fail> {
    let capture = datagrams(rt.alloc())?;
    let mut bucket = FlowBucket::new(rt.alloc(), &capture, LAYOUT, 0);
    let mut past = Vec::new(rt.alloc());
    take_each(&rt, rt.alloc(), &mut bucket, &mut past, 1, 5)?;
    close_each(&rt, &mut bucket, &mut past, 1, 4)?;
    let first = victim(&rt, &mut bucket, &mut past, 5)?;
    assert_eq!(rt; first, (1, Reason::Forced, false));
    let second = victim(&rt, &mut bucket, &mut past, 5)?;
    assert_eq!(rt; second, (2, Reason::Forced, false));
    let third = victim(&rt, &mut bucket, &mut past, 5)?;
    assert_eq!(rt; third, (3, Reason::Forced, false));
    let reply = evict(&rt, &mut bucket, &mut past, 5)?;
    assert!(rt; matches!(reply, BucketReply::AllInUse(1)));
    Ok(())
}

// Of two runs that are due together the lesser is told, by the timeouts that are asked for; a run in use is no victim.
#[test]
fn what_is_due_is_told(rt: HostRuntime) -> Result<(), Fail> {
    let capture = datagrams(rt.alloc())?;
    let mut bucket = FlowBucket::new(rt.alloc(), &capture, LAYOUT, 0);
    let mut past = Vec::new(rt.alloc());
    assert!(rt; bucket.due(false).is_none() && bucket.next_victim().is_none());
    take_each(&rt, rt.alloc(), &mut bucket, &mut past, 1, 3)?;
    let normal = Due {
        deadline: 1_700_000_030_000_000_000,
        run: 1,
    };
    let short = Due {
        deadline: 1_700_000_010_000_000_000,
        run: 1,
    };
    assert_eq!(rt; bucket.due(false), Some(normal));
    assert_eq!(rt; bucket.due(true), Some(short));
    assert!(rt; bucket.next_victim().is_none());
    close_each(&rt, &mut bucket, &mut past, 1, 3)?;
    assert_eq!(rt; bucket.next_victim(), Some(1));
    Ok(())
}

// A run that was answered has the longer timeout.
#[test]
fn an_answered_run_is_due_later(rt: HostRuntime) -> Result<(), Fail> {
    let capture = answered(rt.alloc())?;
    let mut bucket = FlowBucket::new(rt.alloc(), &capture, LAYOUT, 0);
    let mut past = Vec::new(rt.alloc());
    let _ = take(&rt, rt.alloc(), &mut bucket, &mut past, 1)?;
    let reply = look(&rt, &mut bucket, &mut past, 2, false)?;
    assert!(rt; matches!(reply, BucketReply::Found { run: 1, .. }));
    let _ = take(&rt, rt.alloc(), &mut bucket, &mut past, 3)?;
    let wanted = Due {
        deadline: 1_700_000_032_000_000_000,
        run: 3,
    };
    assert_eq!(rt; bucket.due(false), Some(wanted));
    Ok(())
}

// A run that was detached while it was used counts among those in the bucket; a refused packet uses none.
#[test]
fn detached_runs_are_counted(rt: HostRuntime) -> Result<(), Fail> {
    let capture = datagrams(rt.alloc())?;
    let mut bucket = FlowBucket::new(rt.alloc(), &capture, LAYOUT, 0);
    let mut past = Vec::new(rt.alloc());
    let _ = take(&rt, rt.alloc(), &mut bucket, &mut past, 1)?;
    let left = take(&rt, rt.alloc(), &mut bucket, &mut past, 5)?;
    let reply = look(&rt, &mut bucket, &mut past, 6, false)?;
    assert!(rt; left == 0 && matches!(reply, BucketReply::Missing(None)));
    let reply = evict(&rt, &mut bucket, &mut past, 6)?;
    assert!(rt; matches!(reply, BucketReply::AllInUse(2)));
    let reply = refuse(&rt, &mut bucket, &mut past, 6)?;
    assert!(rt; matches!(reply, BucketReply::Refused));
    let reply = close(&rt, &mut bucket, &mut past, 6)?;
    assert!(rt; matches!(reply, BucketReply::Idle));
    Ok(())
}

// Both datagrams of the first round are done with, and swept as they expire.
fn sweep_two(
    rt: &impl Abort,
    alloc: Global,
    bucket: &mut FlowBucket,
    past: &mut Vec<Entry<BucketNote>>,
) -> Result<(), NoMemory>
    requires { BucketStands bucket.old past.old.items }
    ensures { IfOk result (λ r. BucketStands bucket.new past.new.items) }
{
    take_each(rt, alloc, bucket, past, 1, 3)?;
    close_each(rt, bucket, past, 1, 3)?;
    sweeps(rt, bucket, past, 2, false, None)?;
    sweeps(rt, bucket, past, 5, false, Some(2))?;
    sweeps(rt, bucket, past, 3, false, Some(1))?;
    Ok(())
}

// A sweep at just the deadline keeps a run, and takes it a nanosecond later; one whose next packet comes in a round before
// is spared.
#[test]
fn a_sweep_takes_what_has_expired(rt: HostRuntime) -> Result<(), Fail> {
    let capture = datagrams(rt.alloc())?;
    let mut bucket = FlowBucket::new(rt.alloc(), &capture, LAYOUT, 0);
    let mut past = Vec::new(rt.alloc());
    sweep_two(&rt, rt.alloc(), &mut bucket, &mut past)?;
    let _ = take(&rt, rt.alloc(), &mut bucket, &mut past, 3)?;
    let _ = close(&rt, &mut bucket, &mut past, 3)?;
    sweeps(&rt, &mut bucket, &mut past, 5, true, Some(3))?;
    Ok(())
}

// At the end all leave, by rising run: those that had expired, and those that had not.
#[test]
fn a_drain_takes_all(rt: HostRuntime) -> Result<(), Fail> {
    let capture = datagrams(rt.alloc())?;
    let mut bucket = FlowBucket::new(rt.alloc(), &capture, LAYOUT, 0);
    let mut past = Vec::new(rt.alloc());
    take_each(&rt, rt.alloc(), &mut bucket, &mut past, 1, 5)?;
    close_each(&rt, &mut bucket, &mut past, 1, 5)?;
    let left = take(&rt, rt.alloc(), &mut bucket, &mut past, 5)?;
    assert_eq!(rt; left, 1);
    let _ = take(&rt, rt.alloc(), &mut bucket, &mut past, 6)?;
    close_each(&rt, &mut bucket, &mut past, 5, 7)?;
    let wanted = [
        (2, Reason::Timeout, false),
        (3, Reason::Timeout, false),
        (4, Reason::Timeout, false),
        (5, Reason::Shutdown, false),
        (6, Reason::Shutdown, false),
    ];
    drains(&rt, &mut bucket, &mut past, &wanted)?;
    Ok(())
}

// A bucket may be driven under a lock by several threads.
fn give_up<M: Machine + Drop + Send>(machine: M) {
    drop(machine);
}

// A bucket of many runs, all in use: each but the last is detached, and leaves at its close.
#[test]
fn a_large_bucket(rt: HostRuntime) -> Result<(), Fail> {
    let capture = many(rt.alloc())?;
    let mut bucket = FlowBucket::new(rt.alloc(), &capture, LAYOUT, 0);
    let mut past = Vec::new(rt.alloc());
    take_each(&rt, rt.alloc(), &mut bucket, &mut past, 1, 301)?;
    let reply = evict(&rt, &mut bucket, &mut past, 300)?;
    assert!(rt; matches!(reply, BucketReply::AllInUse(300)));
    sweeps(&rt, &mut bucket, &mut past, 299, false, None)?;
    close_each(&rt, &mut bucket, &mut past, 1, 301)?;
    drains(
        &rt,
        &mut bucket,
        &mut past,
        &[(300, Reason::Shutdown, false)],
    )?;
    Ok(())
}
