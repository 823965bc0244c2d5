//! Runs whose roles take turns: what each role did, entry by entry, is what its script says.
use crate::test_notes::{
    all_in_use, closed, drained, entry, found, full, idle, made, missing, mode, over, put, refused,
    stopped, stored, swept, took, turn, victim,
};
use crate::test_runs::{assert_reasons, assert_trail, capture_of, layout_of, tcp, turns, udp};
use std::test::Fail;
use suri_base::{Offer, Reason, SegNote};

#[test]
fn a_stream_stops_without_a_node(rt: HostRuntime) -> Result<(), Fail> {
    let alloc = rt.alloc();
    let packets = [
        tcp(0x02, 1000, b""),
        tcp(0x18, 1002, b"b"),
        tcp(0x18, 1001, b"a"),
    ];
    let capture = capture_of(alloc, &packets)?;
    let (lines, trail) = turns(&rt, alloc, capture, layout_of(32, 3, 0))?;
    let pool = [
        mode(0, 0, false),
        took(0, 2, 1),
        mode(1, 0, false),
        over(1, 2, 0, false),
        put(3, 1, 1),
    ];
    let bucket = [
        missing(0, 1, 1, false, 1, 0),
        made(0, 3, 1, Offer::Nothing),
        found(0, 4, 2, false, 1, 1, Offer::NeedsSegment),
        stopped(0, 6, 2),
        found(0, 7, 3, false, 1, 1, Offer::Stopped),
        closed(0, 8, 1, 1, 0, false),
        closed(0, 9, 2, 1, 0, false),
        closed(0, 10, 3, 1, 0, false),
        swept(1, 1, 0, false, 3, 0),
        drained(3, 0, 1),
    ];
    assert_trail(
        &rt,
        &trail,
        &pool,
        &[entry(
            0,
            5,
            SegNote::Full {
                no: 2,
                out: 0,
                limit: 0,
            },
        )],
        &bucket,
    );
    let reasons = [(1, Reason::Shutdown, false)];
    assert_reasons(&rt, &lines, &reasons);
    for line in &lines {
        assert_eq!(rt; line.sums.ts.pkts, 3);
        assert_eq!(rt; (line.ts.bytes, line.ts.stop), (0, 2));
        assert_eq!(rt; (line.tc.bytes, line.tc.stop), (0, 0));
    }
    Ok(())
}

#[test]
fn nodes_go_back_before_their_object(rt: HostRuntime) -> Result<(), Fail> {
    let alloc = rt.alloc();
    let packets = [tcp(0x02, 1000, b""), tcp(0x18, 1002, b"b")];
    let capture = capture_of(alloc, &packets)?;
    let (lines, trail) = turns(&rt, alloc, capture, layout_of(32, 3, 1))?;
    let pool = [
        mode(0, 0, false),
        took(0, 2, 1),
        mode(1, 0, false),
        over(1, 2, 0, false),
        put(3, 2, 1),
    ];
    let segments = [
        entry(0, 5, SegNote::Took { no: 2 }),
        entry(3, 1, SegNote::Gave { count: 1 }),
    ];
    let bucket = [
        missing(0, 1, 1, false, 1, 0),
        made(0, 3, 1, Offer::Nothing),
        found(0, 4, 2, false, 1, 1, Offer::NeedsSegment),
        stored(0, 6, 2),
        closed(0, 7, 1, 1, 0, false),
        closed(0, 8, 2, 1, 0, false),
        swept(1, 1, 0, false, 3, 0),
        drained(3, 0, 1),
    ];
    assert_trail(&rt, &trail, &pool, &segments, &bucket);
    assert_reasons(&rt, &lines, &[(1, Reason::Shutdown, false)]);
    Ok(())
}

#[test]
fn two_flows_force_each_other_out(rt: HostRuntime) -> Result<(), Fail> {
    let alloc = rt.alloc();
    let packets = [udp(0, 1), udp(0, 3), udp(0, 1), udp(0, 3)];
    let capture = capture_of(alloc, &packets)?;
    let (lines, trail) = turns(&rt, alloc, capture, layout_of(1, 1, 64))?;
    let pool = [
        mode(0, 0, false),
        took(0, 2, 1),
        mode(0, 5, false),
        full(0, 7, 2, 1, 1),
        turn(0, 9, 1, 2),
        mode(0, 12, true),
        full(0, 14, 3, 1, 1),
        turn(0, 16, 2, 3),
        mode(0, 19, true),
        full(0, 21, 4, 1, 1),
        turn(0, 23, 3, 4),
        mode(1, 0, true),
        over(1, 2, 0, false),
        put(3, 1, 4),
    ];
    let bucket = [
        missing(0, 1, 1, false, 1, 0),
        made(0, 3, 1, Offer::Nothing),
        closed(0, 4, 1, 1, 0, false),
        missing(0, 6, 2, false, 3, 0),
        victim(0, 8, 2, 1),
        made(0, 10, 2, Offer::Nothing),
        closed(0, 11, 2, 2, 0, false),
        missing(0, 13, 3, true, 6, 0),
        victim(0, 15, 3, 2),
        made(0, 17, 3, Offer::Nothing),
        closed(0, 18, 3, 3, 0, false),
        missing(0, 20, 4, true, 9, 0),
        victim(0, 22, 4, 3),
        made(0, 24, 4, Offer::Nothing),
        closed(0, 25, 4, 4, 0, false),
        swept(1, 1, 0, true, 12, 0),
        drained(3, 0, 1),
    ];
    assert_trail(&rt, &trail, &pool, &[], &bucket);
    let reasons = [
        (1, Reason::Forced, false),
        (2, Reason::Forced, false),
        (3, Reason::Forced, false),
        (4, Reason::Shutdown, false),
    ];
    assert_reasons(&rt, &lines, &reasons);
    Ok(())
}

#[test]
fn a_packet_finds_no_room(rt: HostRuntime) -> Result<(), Fail> {
    let alloc = rt.alloc();
    let packets = [udp(0, 1), udp(0, 3)];
    let capture = capture_of(alloc, &packets)?;
    let (lines, trail) = turns(&rt, alloc, capture, layout_of(2, 1, 64))?;
    let pool = [
        mode(0, 0, false),
        took(0, 2, 1),
        full(0, 5, 2, 1, 1),
        mode(1, 0, true),
        over(1, 2, 0, false),
        put(3, 1, 1),
    ];
    let bucket = [
        missing(0, 1, 1, false, 1, 0),
        made(0, 3, 1, Offer::Nothing),
        missing(0, 4, 2, false, 1, 0),
        all_in_use(0, 6, 2, 1),
        refused(0, 7, 2),
        closed(0, 8, 1, 1, 0, false),
        idle(0, 9, 2),
        swept(1, 1, 0, true, 4, 0),
        drained(3, 0, 1),
    ];
    assert_trail(&rt, &trail, &pool, &[], &bucket);
    let reasons = [(1, Reason::Shutdown, false)];
    assert_reasons(&rt, &lines, &reasons);
    Ok(())
}

#[test]
fn a_flow_in_the_hand_is_turned(rt: HostRuntime) -> Result<(), Fail> {
    let alloc = rt.alloc();
    let packets = [udp(0, 1), udp(31, 1)];
    let capture = capture_of(alloc, &packets)?;
    let (lines, trail) = turns(&rt, alloc, capture, layout_of(1, 1, 64))?;
    let pool = [
        mode(0, 0, false),
        took(0, 2, 1),
        mode(0, 5, false),
        full(0, 7, 2, 1, 1),
        turn(0, 8, 1, 2),
        mode(1, 0, true),
        over(1, 2, 0, false),
        put(3, 1, 2),
    ];
    let bucket = [
        missing(0, 1, 1, false, 1, 0),
        made(0, 3, 1, Offer::Nothing),
        closed(0, 4, 1, 1, 0, false),
        missing(0, 6, 2, false, 3, 1),
        made(0, 9, 2, Offer::Nothing),
        closed(0, 10, 2, 2, 0, false),
        swept(1, 1, 0, true, 6, 0),
        drained(3, 0, 1),
    ];
    assert_trail(&rt, &trail, &pool, &[], &bucket);
    let reasons = [(1, Reason::Timeout, false), (2, Reason::Shutdown, false)];
    assert_reasons(&rt, &lines, &reasons);
    Ok(())
}

#[test]
fn a_flow_in_use_is_not_evicted(rt: HostRuntime) -> Result<(), Fail> {
    let alloc = rt.alloc();
    let packets = [udp(0, 1), udp(31, 1)];
    let capture = capture_of(alloc, &packets)?;
    let (lines, trail) = turns(&rt, alloc, capture, layout_of(2, 1, 64))?;
    let pool = [
        mode(0, 0, false),
        took(0, 2, 1),
        full(0, 5, 2, 1, 1),
        mode(1, 0, true),
        over(1, 2, 0, false),
        put(3, 0, 1),
    ];
    let bucket = [
        missing(0, 1, 1, false, 1, 0),
        made(0, 3, 1, Offer::Nothing),
        missing(0, 4, 2, false, 1, 0),
        all_in_use(0, 6, 2, 1),
        refused(0, 7, 2),
        closed(0, 8, 1, 1, 0, true),
        idle(0, 9, 2),
        swept(1, 1, 0, true, 4, 0),
        drained(3, 1, 0),
    ];
    assert_trail(&rt, &trail, &pool, &[], &bucket);
    let reasons = [(1, Reason::Timeout, false)];
    assert_reasons(&rt, &lines, &reasons);
    Ok(())
}

#[test]
fn an_emergency_ends_a_flow_sooner(rt: HostRuntime) -> Result<(), Fail> {
    let alloc = rt.alloc();
    let packets = [udp(0, 1), udp(0, 3), udp(0, 5), udp(11, 3)];
    let capture = capture_of(alloc, &packets)?;
    let (lines, trail) = turns(&rt, alloc, capture, layout_of(1, 2, 64))?;
    let pool = [
        mode(0, 0, false),
        took(0, 2, 1),
        mode(0, 5, false),
        took(0, 7, 2),
        mode(0, 10, false),
        full(0, 12, 3, 2, 2),
        turn(0, 14, 1, 3),
        mode(0, 17, true),
        full(0, 19, 4, 2, 2),
        turn(0, 20, 2, 4),
        mode(1, 0, true),
        over(1, 2, 0, false),
        put(3, 1, 3),
        put(3, 2, 4),
    ];
    let bucket = [
        missing(0, 1, 1, false, 1, 0),
        made(0, 3, 1, Offer::Nothing),
        closed(0, 4, 1, 1, 0, false),
        missing(0, 6, 2, false, 3, 0),
        made(0, 8, 2, Offer::Nothing),
        closed(0, 9, 2, 2, 0, false),
        missing(0, 11, 3, false, 5, 0),
        victim(0, 13, 3, 1),
        made(0, 15, 3, Offer::Nothing),
        closed(0, 16, 3, 3, 0, false),
        missing(0, 18, 4, true, 8, 2),
        made(0, 21, 4, Offer::Nothing),
        closed(0, 22, 4, 4, 0, false),
        swept(1, 1, 0, true, 11, 0),
        drained(3, 0, 2),
    ];
    assert_trail(&rt, &trail, &pool, &[], &bucket);
    let reasons = [
        (1, Reason::Forced, false),
        (2, Reason::Timeout, true),
        (3, Reason::Shutdown, false),
        (4, Reason::Shutdown, false),
    ];
    assert_reasons(&rt, &lines, &reasons);
    Ok(())
}
