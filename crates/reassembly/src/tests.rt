//! Streams of a few segments, worked out by hand. The digests are those of another program.
ghost use Rattle.std.specs.Prelude.{◌≡◌, ◌+◌, ◌<◌, ◌≤◌, List, length, IfOk, IfSome};
ghost use Rattle.suri_base.specs.Chain.{IsAlone};
ghost use Rattle.reassembly.specs.Kept.{AllLieIn, Stands, newest_of};
ghost use Rattle.reassembly.specs.Members.{Member};

use crate::Stream;
use std::alloc::Global;
use std::process::Abort;
use std::test::Fail;
use suri_base::Offer::{self, InOrder, NeedsSegment, Nothing, Stopped};
use suri_base::{NoMemory, Segment, Segments, StreamLine, TcpFacts};

const DEPTH: u32 = 1 << 20;

// Flags of segments (RFC 9293, section 3.1).
const SYN: u8 = 0x02;

const ACK: u8 = 0x10;

const FIN_ACK: u8 = 0x11;

const SYN_ACK: u8 = 0x12;

const PSH_ACK: u8 = 0x18;

// A segment that is offered: its sequence number and flags, where its payload stands among the bytes and how long it is,
// and the answer.
type Row = (u32, u8, u32, u32, Offer);

// An overlap across the wrap of the sequence numbers, over the bytes `bczayz`.
const WRAPPED: [Row; 4] = [
    (4_294_967_293, SYN, 0, 0, Nothing),
    (4_294_967_295, PSH_ACK, 0, 2, NeedsSegment),
    (0, PSH_ACK, 2, 1, Nothing),
    (4_294_967_294, PSH_ACK, 3, 3, InOrder),
];

// A payload that crosses depth 2, and one beyond it, over the bytes `abcd`.
const DEEP: [Row; 3] = [
    (9, SYN, 0, 0, Nothing),
    (10, PSH_ACK, 0, 3, InOrder),
    (13, PSH_ACK, 3, 1, Nothing),
];

// The same with depth 0.
const CLOSED: [Row; 3] = [
    (9, SYN, 0, 0, Nothing),
    (10, PSH_ACK, 0, 3, Nothing),
    (13, PSH_ACK, 3, 1, Nothing),
];

// A SYN with payload, over the bytes `hi!`.
const OPENED: [Row; 2] = [(99, SYN, 0, 2, InOrder), (102, PSH_ACK, 2, 1, InOrder)];

// Payload sets the base, and bytes before it are not delivered, over the bytes `cdababxye`.
const BEGUN_LATE: [Row; 4] = [
    (700, ACK, 0, 0, Nothing),
    (1000, PSH_ACK, 0, 2, InOrder),
    (998, PSH_ACK, 2, 2, Nothing),
    (998, PSH_ACK, 4, 5, InOrder),
];

// Retransmissions with other bytes, over the bytes `abcxyzyzd`.
const SENT_AGAIN: [Row; 4] = [
    (9, SYN, 0, 0, Nothing),
    (10, PSH_ACK, 0, 3, InOrder),
    (10, PSH_ACK, 3, 3, Nothing),
    (11, PSH_ACK, 6, 3, InOrder),
];

// A gap that one segment closes for ten that wait, over the bytes `abcdefghijk`.
const CLOSED_GAP: [Row; 12] = [
    (0, SYN, 0, 0, Nothing),
    (11, PSH_ACK, 10, 1, NeedsSegment),
    (10, PSH_ACK, 9, 1, NeedsSegment),
    (9, PSH_ACK, 8, 1, NeedsSegment),
    (8, PSH_ACK, 7, 1, NeedsSegment),
    (7, PSH_ACK, 6, 1, NeedsSegment),
    (6, PSH_ACK, 5, 1, NeedsSegment),
    (5, PSH_ACK, 4, 1, NeedsSegment),
    (4, PSH_ACK, 3, 1, NeedsSegment),
    (3, PSH_ACK, 2, 1, NeedsSegment),
    (2, PSH_ACK, 1, 1, NeedsSegment),
    (1, PSH_ACK, 0, 1, InOrder),
];

// Segments that overlap while they wait, over the bytes `CDbcdefAB`, and one that waits behind a gap.
const OVERLAPPED: [Row; 5] = [
    (9, SYN, 0, 0, Nothing),
    (12, PSH_ACK, 0, 2, NeedsSegment),
    (11, PSH_ACK, 2, 5, NeedsSegment),
    (17, PSH_ACK, 0, 1, NeedsSegment),
    (10, PSH_ACK, 7, 2, InOrder),
];

// A client that opens a connection, sends `abc` and closes it, and its server.
const CLIENT: [Row; 5] = [
    (100, SYN, 0, 0, Nothing),
    (101, ACK, 0, 0, Nothing),
    (101, PSH_ACK, 0, 3, InOrder),
    (104, FIN_ACK, 0, 0, Nothing),
    (105, ACK, 0, 0, Nothing),
];

const SERVER: [Row; 2] = [(500, SYN_ACK, 0, 0, Nothing), (501, FIN_ACK, 0, 0, Nothing)];

// A stop at frame 4 while two wait, over the bytes `abcd`.
const STOPPED: [Row; 5] = [
    (1000, SYN, 0, 0, Nothing),
    (1002, PSH_ACK, 1, 1, NeedsSegment),
    (1004, PSH_ACK, 3, 1, NeedsSegment),
    (1006, PSH_ACK, 3, 1, NeedsSegment),
    (1001, PSH_ACK, 0, 1, Stopped),
];

// SHA-1 (FIPS 180-4).
const NO_BYTES: [u8; 20] = [
    0xda, 0x39, 0xa3, 0xee, 0x5e, 0x6b, 0x4b, 0x0d, 0x32, 0x55, 0xbf, 0xef, 0x95, 0x60, 0x18, 0x90,
    0xaf, 0xd8, 0x07, 0x09,
];

const ABC: [u8; 20] = [
    0xa9, 0x99, 0x3e, 0x36, 0x47, 0x06, 0x81, 0x6a, 0xba, 0x3e, 0x25, 0x71, 0x78, 0x50, 0xc2, 0x6c,
    0x9c, 0xd0, 0xd8, 0x9d,
];

const AB: [u8; 20] = [
    0xda, 0x23, 0x61, 0x4e, 0x02, 0x46, 0x9a, 0x0d, 0x7c, 0x7b, 0xd1, 0xbd, 0xab, 0x5c, 0x9c, 0x47,
    0x4b, 0x19, 0x04, 0xdc,
];

const HI: [u8; 20] = [
    0x3a, 0x98, 0x7a, 0xcf, 0x8c, 0xbc, 0x10, 0x28, 0xb7, 0xdb, 0xc8, 0x6b, 0xd0, 0x86, 0x83, 0x11,
    0x51, 0x89, 0x9a, 0x2b,
];

const CDE: [u8; 20] = [
    0x5a, 0xf1, 0x39, 0x54, 0xa6, 0x7e, 0xab, 0x29, 0x73, 0xb4, 0xad, 0xe0, 0x11, 0x86, 0x60, 0x2d,
    0xd8, 0x73, 0x97, 0x87,
];

const ABCD: [u8; 20] = [
    0x81, 0xfe, 0x8b, 0xfe, 0x87, 0x57, 0x6c, 0x3e, 0xcb, 0x22, 0x42, 0x6f, 0x8e, 0x57, 0x84, 0x73,
    0x82, 0x91, 0x7a, 0xcf,
];

const A_TO_K: [u8; 20] = [
    0x5d, 0xfa, 0xc3, 0x9f, 0x71, 0xad, 0x4d, 0x35, 0xa1, 0x53, 0xba, 0x4f, 0xc1, 0x2d, 0x94, 0x3a,
    0x0e, 0x17, 0x8e, 0x6a,
];

const FIRST_COME: [u8; 20] = [
    0xa7, 0xac, 0x63, 0x7e, 0x95, 0x62, 0x20, 0x80, 0x2b, 0xe3, 0x7a, 0x83, 0x14, 0x10, 0xa6, 0x8f,
    0xdf, 0xc5, 0x35, 0xd8,
];

const THOUSAND: [u8; 20] = [
    0xc9, 0xc9, 0x60, 0xa0, 0xb9, 0x25, 0x47, 0x4f, 0xab, 0x83, 0x94, 0x2c, 0xc2, 0x7d, 0x50, 0x4f,
    0xc2, 0x4a, 0xc3, 0x7b,
];

const SIXTY_THOUSAND: [u8; 20] = [
    0xc4, 0x79, 0x41, 0xbc, 0x8d, 0xc8, 0x41, 0x19, 0x14, 0xfc, 0x1b, 0x22, 0x81, 0x33, 0xfd, 0x5e,
    0x98, 0x9b, 0xa6, 0xc6,
];

// Offers a segment, and settles it where it needs a node: it is stored in this one, or is the stop.
fn feed(
    stream: &mut Stream,
    bytes: &[u8],
    no: u32,
    tcp: TcpFacts,
    at: u32,
    len: u32,
    node: Option<Box<Segment>>,
) -> Offer
    requires place { at + len ≤ length bytes.now }
    requires alone { IfSome node (λ n. IsAlone n.value) }
    requires known { (members : List Member) × Stands stream.old members × AllLieIn bytes.now members × (newest_of members < no) }
    ensures known { (members : List Member) × Stands stream.new members × AllLieIn bytes.now members × (newest_of members ≡ no) }
{
    let payload = &bytes[at as usize..at as usize + len as usize];
    let offer = stream.offer(no, &tcp, payload, at, bytes);
    if offer != NeedsSegment {
        return offer;
    }
    match node {
        Some(node) => {
            stream.store(node);
            offer
        }
        None => {
            stream.stop();
            offer
        }
    }
}

// A node, except for the frame of the stop.
fn node_for(alloc: Global, no: u32, stop: u32) -> Result<Option<Box<Segment>>, NoMemory>
    ensures { IfOk result (λ node. IfSome node (λ n. IsAlone n.value)) }
{
    if no == stop {
        Ok(None)
    } else {
        Ok(Some(Segment::blank(alloc)?))
    }
}

// The stream of the segments of some rows, numbered from 1. One of them may be the stop.
fn replayed(
    rt: &impl Abort,
    alloc: Global,
    depth: u32,
    bytes: &[u8],
    rows: &[Row],
    stop: u32,
) -> Result<Stream, NoMemory> {
    assert!(rt; rows.len() < 100_000);
    let mut stream = Stream::blank(depth);
    let mut no = 0;
    while (no as usize) < rows.len() {
        let (seq, flags, at, len, answer) = rows[no as usize];
        no += 1;
        let place = at as usize;
        assert!(rt; place <= bytes.len() && len as usize <= bytes.len() - place);
        let node = node_for(alloc, no, stop)?;
        let tcp = TcpFacts { seq, ack: 0, flags };
        let offer = feed(&mut stream, bytes, no, tcp, at, len, node);
        assert_eq!(rt; offer, answer, "frame {no}");
    }
    Ok(stream)
}

fn count(rt: &impl Abort, mut nodes: Segments) -> u32 {
    let mut count = 0;
    while let Some(node) = nodes.pop() {
        drop(node);
        assert!(rt; count < 100_000);
        count += 1;
    }
    count
}

fn line(bytes: u32, digest: [u8; 20], stop: u32) -> StreamLine {
    StreamLine {
        bytes,
        digest,
        stop,
    }
}

// What is told of each stream, how many of its nodes were free, and how many waited.
#[test]
fn small_streams(rt: HostRuntime) -> Result<(), Fail> {
    let table: [(u32, &[u8], &[Row], StreamLine, (u32, u32)); 11] = [
        (DEPTH, b"bczayz", &WRAPPED, line(3, ABC, 0), (1, 0)),
        (2, b"abcd", &DEEP, line(2, AB, 0), (0, 0)),
        (0, b"abcd", &CLOSED, line(0, NO_BYTES, 0), (0, 0)),
        (DEPTH, b"hi!", &OPENED, line(3, HI, 0), (0, 0)),
        (DEPTH, b"cdababxye", &BEGUN_LATE, line(3, CDE, 0), (0, 0)),
        (DEPTH, b"abcxyzyzd", &SENT_AGAIN, line(4, ABCD, 0), (0, 0)),
        (
            DEPTH,
            b"abcdefghijk",
            &CLOSED_GAP,
            line(11, A_TO_K, 0),
            (10, 0),
        ),
        (
            DEPTH,
            b"CDbcdefAB",
            &OVERLAPPED,
            line(6, FIRST_COME, 0),
            (2, 1),
        ),
        (DEPTH, b"abc", &CLIENT, line(3, ABC, 0), (0, 0)),
        (DEPTH, b"", &SERVER, line(0, NO_BYTES, 0), (0, 0)),
        (DEPTH, b"abcd", &STOPPED, line(0, NO_BYTES, 4), (2, 0)),
    ];
    for (place, (depth, bytes, rows, want, nodes)) in table.iter().enumerate() {
        let mut stream = replayed(&rt, rt.alloc(), *depth, bytes, rows, want.stop)?;
        assert_eq!(rt;
            (stream.bytes(), stream.stopped_at()),
            (want.bytes, want.stop),
            "stream {place}"
        );
        let freed = count(&rt, stream.freed());
        let waited = count(&rt, stream.all());
        assert_eq!(rt; (freed, waited), *nodes, "stream {place}");
        assert_eq!(rt; stream.end(), *want, "stream {place}");
        assert_eq!(rt;
            stream.end(),
            line(0, NO_BYTES, 0),
            "stream {place} once more"
        );
    }
    Ok(())
}

// Segments of one byte, the last of them first: all but one wait.
#[test]
fn many_segments(rt: HostRuntime) -> Result<(), Fail> {
    for (many, base, digest) in [
        (1000, 4_294_966_796, THOUSAND),
        (60_000, 1000, SIXTY_THOUSAND),
    ] {
        let mut bytes = Vec::new(rt.alloc());
        let mut rows = Vec::new(rt.alloc());
        rows.push((u32::wrapping_sub(base, 1), SYN, 0, 0, Nothing))?;
        for place in 0..many {
            bytes.push((place % 251) as u8)?;
            let back = many - 1 - place;
            let answer = if back == 0 { InOrder } else { NeedsSegment };
            rows.push((u32::wrapping_add(base, back), PSH_ACK, back, 1, answer))?;
        }
        let mut stream = replayed(&rt, rt.alloc(), DEPTH, &bytes, &rows, 0)?;
        assert_eq!(rt; count(&rt, stream.freed()), many - 1);
        assert!(rt; stream.all().is_empty());
        assert_eq!(rt; stream.end(), line(many, digest, 0));
    }
    Ok(())
}
