//! One object through runs that are worked out by hand.
ghost use Rattle.std.specs.Prelude.{◌≡◌, ◌+◌, ◌<◌, ◌≤◌, List, IfOk, IfSome, Some};
ghost use Rattle.flow_object.specs.Object.{nodes_in};
ghost use Rattle.flow_object.specs.Standing.{StandsFor};
ghost use Rattle.flow_sum.specs.Run.{Run};
ghost use Rattle.flow_sum.specs.Sums.{InRange};
ghost use Rattle.suri_base.specs.Capture.{HasFacts};
ghost use Rattle.suri_base.specs.Chain.{IsAlone};
ghost use Rattle.suri_base.specs.declared.app.App.{App};
ghost use Rattle.suri_base.specs.declared.seen.Seen.TheVariants.{Bears};

use crate::{Ended, Finished, FlowObj, finish_flow};
use std::alloc::Global;
use std::process::Abort;
use std::test::Fail;
use suri_base::{
    App, Capture, End, Facts, Frame, Key, NoMemory, Offer, Reason, Seen, Segment, Segments, Side,
    StreamLine, TcpFacts, Vlans,
};
use tcp_session::{Class, State};

// The end that asks, and the end that is asked.
const CLIENT: Side = Side::FromA;

const SERVER: Side = Side::FromB;

// The streams of no byte, of `aBc`, of `xyz` and of `yz` (SHA-1, FIPS 180-4).
const EMPTY: StreamLine = StreamLine {
    bytes: 0,
    digest: [
        0xda, 0x39, 0xa3, 0xee, 0x5e, 0x6b, 0x4b, 0x0d, 0x32, 0x55, 0xbf, 0xef, 0x95, 0x60, 0x18,
        0x90, 0xaf, 0xd8, 0x07, 0x09,
    ],
    stop: 0,
};

const OVERLAPPED: StreamLine = StreamLine {
    bytes: 3,
    digest: [
        0xa7, 0x92, 0x07, 0x58, 0x41, 0xdf, 0x16, 0xe5, 0x05, 0x63, 0xef, 0x4d, 0x3a, 0xab, 0x74,
        0x24, 0x60, 0x4a, 0x50, 0x5b,
    ],
    stop: 0,
};

const UP_TO_THE_STOP: StreamLine = StreamLine {
    bytes: 3,
    digest: [
        0x66, 0xb2, 0x74, 0x17, 0xd3, 0x7e, 0x02, 0x4c, 0x46, 0x52, 0x6c, 0x2f, 0x6d, 0x35, 0x8a,
        0x75, 0x4f, 0xc5, 0x52, 0xf3,
    ],
    stop: 8,
};

const ANSWERED: StreamLine = StreamLine {
    bytes: 2,
    digest: [
        0x8c, 0xda, 0x63, 0x6a, 0x79, 0x8c, 0x6f, 0x89, 0x6b, 0x7b, 0x82, 0xcf, 0x21, 0x79, 0x7e,
        0xc3, 0xf7, 0xad, 0x75, 0x59,
    ],
    stop: 0,
};

// A datagram of the client.
const DATAGRAM: Facts = Facts {
    no: 1,
    time: 0,
    clock: 0,
    key: Key {
        vlans: Vlans {
            count: 0,
            first: 0,
            second: 0,
            third: 0,
        },
        version: 4,
        proto: 17,
        one_way: false,
        a: End {
            addr: 0x0a00_0001,
            port: 1025,
        },
        b: End {
            addr: 0xc000_0201,
            port: 53,
        },
    },
    side: CLIENT,
    len: 60,
    ttl: 64,
    tcp: None,
    icmp: None,
    pay_at: 0,
    pay_len: 0,
    next: 0,
};

// A packet of a run: the number of its frame, the answer of its stream, and the class of the flow after it.
type Row = (u32, Offer, Class);

// A connection, from the first SYN to the last ACK.
const CONNECTION: [Row; 7] = [
    (1, Offer::Nothing, Class::New),
    (2, Offer::Nothing, Class::New),
    (3, Offer::Nothing, Class::Established),
    (4, Offer::Nothing, Class::Established),
    (5, Offer::Nothing, Class::Established),
    (6, Offer::Nothing, Class::Closed),
    (7, Offer::Nothing, Class::Closed),
];

// A question and its answer over UDP.
const QUESTION: [Row; 2] = [
    (8, Offer::Nothing, Class::New),
    (9, Offer::Nothing, Class::Established),
];

// A connection whose first SYN was not captured.
const ANSWER: [Row; 1] = [(10, Offer::Nothing, Class::New)];

// Segments of both sides that wait. Of those of the client two overlap, and the last closes the gap before them; the one of
// the server waits on.
const WAITING: [Row; 6] = [
    (1, Offer::Nothing, Class::New),
    (2, Offer::NeedsSegment, Class::Established),
    (3, Offer::Nothing, Class::Established),
    (4, Offer::NeedsSegment, Class::Established),
    (5, Offer::NeedsSegment, Class::Established),
    (6, Offer::InOrder, Class::Established),
];

// A stream of the client that is stopped at frame 8, and one of the server that is not.
const STOPPED: [Row; 4] = [
    (7, Offer::InOrder, Class::Established),
    (8, Offer::NeedsSegment, Class::Established),
    (9, Offer::Stopped, Class::Established),
    (10, Offer::InOrder, Class::Established),
];

fn frame(no: u32) -> Frame
    ensures { result ≡ record { no = no; time = 0; orig = 60; at = 0; len = 0 } }
{
    Frame {
        no,
        time: 0,
        orig: 60,
        at: 0,
        len: 0,
    }
}

// A segment whose payload stands at this place among eight bytes.
fn segment(no: u32, side: Side, flags: u8, seq: u32, at: u32, len: u32, next: u32) -> Seen
    requires { at + len ≤ 8 }
    ensures { result ≡ Bears (record DATAGRAM { no = no; side = side; key = record (DATAGRAM.key) { proto = 6 }; tcp = Some (record { seq = seq; ack = 0; flags = flags }); pay_at = at; pay_len = len; next = next }) }
{
    let tcp = TcpFacts { seq, ack: 0, flags };
    Seen::Bears(Facts {
        no,
        side,
        key: Key {
            proto: 6,
            ..DATAGRAM.key
        },
        tcp: Some(tcp),
        pay_at: at,
        pay_len: len,
        next,
        ..DATAGRAM
    })
}

fn datagram(no: u32, side: Side, next: u32) -> Seen
    ensures { result ≡ Bears (record DATAGRAM { no = no; side = side; next = next }) }
{
    Seen::Bears(Facts {
        no,
        side,
        next,
        ..DATAGRAM
    })
}

// Frames without payload.
fn sessions(alloc: Global) -> Result<Capture, NoMemory> {
    let bytes = vec![in alloc; b'a', b'b', b'c', b'B', b'C', b'x', b'y', b'z']?;
    let frames = vec![in alloc;
        frame(1),
        frame(2),
        frame(3),
        frame(4),
        frame(5),
        frame(6),
        frame(7),
        frame(8),
        frame(9),
        frame(10),
    ]?;
    let clocks = vec![in alloc; 0, 0, 0, 0, 0, 0, 0, 0, 0, 0]?;
    let seen = vec![in alloc;
        segment(1, CLIENT, 0x02, 0, 0, 0, 2),
        segment(2, SERVER, 0x12, 0, 0, 0, 3),
        segment(3, CLIENT, 0x10, 0, 0, 0, 4),
        segment(4, CLIENT, 0x11, 0, 0, 0, 5),
        segment(5, SERVER, 0x10, 0, 0, 0, 6),
        segment(6, SERVER, 0x11, 0, 0, 0, 7),
        segment(7, CLIENT, 0x10, 0, 0, 0, 10),
        datagram(8, CLIENT, 9),
        datagram(9, SERVER, 0),
        segment(10, SERVER, 0x12, 0, 0, 0, 0),
    ]?;
    Capture::of(alloc, bytes, frames, clocks, seen, 0)
}

// Frames with payload.
fn streams(alloc: Global) -> Result<Capture, NoMemory> {
    let bytes = vec![in alloc; b'a', b'b', b'c', b'B', b'C', b'x', b'y', b'z']?;
    let frames = vec![in alloc;
        frame(1),
        frame(2),
        frame(3),
        frame(4),
        frame(5),
        frame(6),
        frame(7),
        frame(8),
        frame(9),
        frame(10),
    ]?;
    let clocks = vec![in alloc; 0, 0, 0, 0, 0, 0, 0, 0, 0, 0]?;
    let seen = vec![in alloc;
        segment(1, CLIENT, 0x02, 99, 0, 0, 2),
        segment(2, CLIENT, 0x18, 102, 2, 1, 3),
        segment(3, SERVER, 0x12, 500, 0, 0, 4),
        segment(4, SERVER, 0x18, 503, 6, 2, 5),
        segment(5, CLIENT, 0x18, 101, 3, 2, 6),
        segment(6, CLIENT, 0x18, 100, 0, 1, 7),
        segment(7, CLIENT, 0x18, 1000, 5, 3, 8),
        segment(8, CLIENT, 0x18, 1010, 0, 1, 9),
        segment(9, CLIENT, 0x18, 1003, 0, 1, 10),
        segment(10, SERVER, 0x18, 7, 6, 2, 0),
    ]?;
    Capture::of(alloc, bytes, frames, clocks, seen, 0)
}

fn facts_at(rt: &impl Abort, capture: &Capture, no: u32) -> Facts
    ensures { HasFacts capture.now result.no result }
{
    assert!(rt; 1 <= no && no <= capture.count());
    match capture.get(no) {
        Seen::Bears(facts) => facts,
        Seen::Counted(_) => panic!(rt; "frame {no} bears no flow"),
    }
}

// Absorbs a packet, and settles it where it needs a node: it is stored in this one, or stops its stream.
fn take(obj: &mut FlowObj, facts: &Facts, capture: &Capture, node: Option<Box<Segment>>) -> Offer
    requires facts { HasFacts capture.now facts.now.no facts.now }
    requires key { facts.now.key ≡ obj.old.sums.key }
    requires later { obj.old.sums.last_no < facts.now.no }
    requires to_server { InRange obj.old.sums.ts facts.now }
    requires to_client { InRange obj.old.sums.tc facts.now }
    requires alone { IfSome node (λ n. IsAlone n.value) }
    requires known { (r : Run) × (judged : List App) × StandsFor obj.old capture.now.bytes r judged }
    ensures known { (r : Run) × (judged : List App) × StandsFor obj.new capture.now.bytes r judged }
{
    let offer = obj.absorb(facts, capture);
    if offer != Offer::NeedsSegment {
        return offer;
    }
    obj.settle(node);
    offer
}

// A node, except for the frame of the stop.
fn node_for(alloc: Global, no: u32, stop: u32) -> Result<Option<Box<Segment>>, NoMemory>
    ensures { IfOk result (λ node. IfSome node (λ n. IsAlone n.value)) }
{
    if no == stop {
        Ok(None)
    } else {
        Ok(Some(Segment::blank(alloc)?))
    }
}

// Takes the packets of a run. One of them may be the stop of its stream.
fn follow(
    rt: &impl Abort,
    alloc: Global,
    obj: &mut FlowObj,
    capture: &Capture,
    run: &[Row],
    stop: u32,
) -> Result<(), NoMemory>
    requires { nodes_in obj.old ≡ 0 }
{
    assert!(rt; !run.is_empty());
    let (no, answer, class) = run[0];
    let facts = facts_at(rt, capture, no);
    assert_eq!(rt; obj.begin(&facts, capture), answer);
    assert_eq!(rt; (obj.app(), obj.class()), (App::None, class));
    let mut place = 1;
    while place < run.len() {
        let (no, answer, class) = run[place];
        place += 1;
        let facts = facts_at(rt, capture, no);
        let sums = *obj.sums();
        assert!(rt; facts.key.is(&sums.key));
        assert!(rt; sums.last_no < facts.no);
        assert!(rt; sums.ts.pkts < 100 && sums.ts.bytes < 10_000);
        assert!(rt; sums.tc.pkts < 100 && sums.tc.bytes < 10_000);
        let node = node_for(alloc, no, stop)?;
        let offer = take(obj, &facts, capture, node);
        assert_eq!(rt; offer, answer, "frame {no}");
        assert_eq!(rt; obj.class(), class, "frame {no}");
    }
    Ok(())
}

fn finish(run: u32, reason: Reason, emergency: bool, obj: Box<FlowObj>) -> Finished
    ensures { nodes_in result.obj ≡ 0 }
{
    finish_flow(Ended {
        run,
        reason,
        emergency,
        obj,
    })
}

fn count(rt: &impl Abort, mut nodes: Segments) -> u32 {
    let mut count = 0;
    while let Some(node) = nodes.pop() {
        drop(node);
        assert!(rt; count < 100);
        count += 1;
    }
    count
}

#[test]
fn serves_one_run_after_another(rt: HostRuntime) -> Result<(), Fail> {
    let capture = sessions(rt.alloc())?;
    let mut obj = FlowObj::new(rt.alloc(), 100)?;
    follow(&rt, rt.alloc(), &mut obj, &capture, &CONNECTION, 0)?;
    obj.judge(App::None);
    obj.judge(App::Tls);
    obj.judge(App::Http);
    assert_eq!(rt; obj.app(), App::Tls);
    let finished = finish(1, Reason::Timeout, true, obj);
    let line = finished.line;
    assert_eq!(rt;
        (line.class, line.state, line.app),
        (Class::Closed, State::Closed, App::Tls)
    );
    assert_eq!(rt;
        (line.sums.first_no, line.reason, line.emergency),
        (1, Reason::Timeout, true)
    );
    assert_eq!(rt; (line.sums.ts.pkts, line.sums.tc.pkts), (4, 3));
    assert_eq!(rt; (line.ts, line.tc), (EMPTY, EMPTY));
    let mut obj = finished.obj;
    follow(&rt, rt.alloc(), &mut obj, &capture, &QUESTION, 0)?;
    obj.judge(App::Dns);
    let finished = finish(8, Reason::Forced, false, obj);
    let line = finished.line;
    assert_eq!(rt;
        (line.class, line.state, line.app),
        (Class::Established, State::Nothing, App::Dns)
    );
    assert_eq!(rt;
        (line.sums.first_no, line.reason, line.emergency),
        (8, Reason::Forced, false)
    );
    assert_eq!(rt; (line.sums.ts.pkts, line.sums.tc.pkts), (1, 1));
    let mut obj = finished.obj;
    follow(&rt, rt.alloc(), &mut obj, &capture, &ANSWER, 0)?;
    let line = finish(10, Reason::Shutdown, false, obj).line;
    assert_eq!(rt;
        (line.class, line.state, line.app),
        (Class::New, State::SynRecv, App::None)
    );
    assert_eq!(rt; line.sums.client, CLIENT);
    assert_eq!(rt; (line.sums.ts.pkts, line.sums.tc.pkts), (0, 1));
    Ok(())
}

#[test]
fn is_used_again_after_it_held_nodes(rt: HostRuntime) -> Result<(), Fail> {
    let capture = streams(rt.alloc())?;
    let mut obj = FlowObj::new(rt.alloc(), 100)?;
    follow(&rt, rt.alloc(), &mut obj, &capture, &WAITING, 0)?;
    assert_eq!(rt; count(&rt, obj.freed()), 2);
    let finished = finish(1, Reason::Timeout, false, obj);
    assert_eq!(rt; count(&rt, finished.freed), 1);
    assert_eq!(rt; (finished.line.ts, finished.line.tc), (OVERLAPPED, EMPTY));
    let mut obj = finished.obj;
    follow(&rt, rt.alloc(), &mut obj, &capture, &STOPPED, 8)?;
    assert!(rt; obj.freed().is_empty());
    let finished = finish(7, Reason::Shutdown, false, obj);
    assert!(rt; finished.freed.is_empty());
    assert_eq!(rt;
        (finished.line.ts, finished.line.tc),
        (UP_TO_THE_STOP, ANSWERED)
    );
    Ok(())
}
