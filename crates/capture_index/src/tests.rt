//! Captures of a few packets and of several pieces. The workers of keys come from another program's hashes.
use crate::{batches, bucket_of, index, round_of, rounds, worker_of};
use pcap_read::frames;
use std::alloc::{AllocError, Global};
use std::process::Abort;
use std::test::Fail;
use suri_base::{Capture, Layout, Seen};

// The file header: little-endian, microseconds, Ethernet.
const HEADER: [u8; 24] = [
    0xd4, 0xc3, 0xb2, 0xa1, 2, 0, 4, 0, 0, 0, 0, 0, 0, 0, 0, 0, 0, 0, 4, 0, 1, 0, 0, 0,
];

// The senders of nine frames; 0 is that of a frame that bears no flow.
const SENDERS: [u8; 9] = [1, 2, 1, 0, 1, 1, 2, 4, 2];

// A record with a datagram from 10.0.0.`sender`:1000 to 10.0.0.9:2000, captured at that second. That of sender 0 has an
// EtherType that bears no flow.
fn push_record(bytes: &mut Vec<u8>, sender: u8, second: u8) -> Result<(), AllocError> {
    let kind = if sender == 0 { 6 } else { 0 };
    bytes.extend_from_slice(&[
        second, 0, 0, 0, 0, 0, 0, 0, 42, 0, 0, 0, 42, 0, 0, 0, 2, 0, 0, 0, 0, 2, 2, 0, 0, 0, 0, 1,
        8, kind, 0x45, 0, 0, 0x1c, 0, 0, 0x40, 0, 0x40, 0x11, 0, 0, 10, 0, 0, sender, 10, 0, 0, 9,
        3, 0xe8, 7, 0xd0, 0, 8, 0, 0,
    ])?;
    Ok(())
}

// The file with a record of each of these senders, all captured at second 7.
fn file_of(alloc: Global, senders: &[u8]) -> Result<Vec<u8>, AllocError> {
    let mut bytes = Vec::from_slice(alloc, &HEADER)?;
    for sender in senders {
        push_record(&mut bytes, *sender, 7)?;
    }
    Ok(bytes)
}

// The number of the next frame that each frame names, or 0.
fn nexts(alloc: Global, capture: &Capture) -> Result<Vec<u32>, AllocError> {
    let mut nexts = Vec::new(alloc);
    let count = capture.count();
    for place in 0..count {
        nexts.push(match capture.get(place + 1) {
            Seen::Bears(facts) => facts.next,
            Seen::Counted(_) => 0,
        })?;
    }
    Ok(nexts)
}

// Two workers, and batches and rounds of so many.
fn layout(batch: u32, round: u32) -> Layout {
    Layout {
        workers: 2,
        batch,
        round,
        rows: 1,
        memcap: 1,
        segments: 0,
        recovery: 1,
        depth: 0,
    }
}

#[test]
fn links_packets_of_a_key(rt: HostRuntime) -> Result<(), Fail> {
    let alloc = rt.alloc();
    let bytes = file_of(alloc, &[1, 2, 1])?;
    assert!(rt; bytes.len() < 1000);
    let file = frames(alloc, &bytes)?;
    let capture = index(&rt, alloc, bytes, file)?;
    assert_eq!(rt; nexts(alloc, &capture)?.as_slice(), [3, 0, 0].as_slice());
    Ok(())
}

#[test]
fn links_beside_counted_frames(rt: HostRuntime) -> Result<(), Fail> {
    let alloc = rt.alloc();
    let bytes = file_of(alloc, &SENDERS)?;
    assert!(rt; bytes.len() < 1000);
    let file = frames(alloc, &bytes)?;
    let capture = index(&rt, alloc, bytes, file)?;
    assert_eq!(rt;
        nexts(alloc, &capture)?.as_slice(),
        [3, 7, 5, 0, 6, 0, 9, 0, 0].as_slice()
    );
    Ok(())
}

#[test]
fn keeps_the_greatest_time(rt: HostRuntime) -> Result<(), Fail> {
    let alloc = rt.alloc();
    let mut bytes = Vec::from_slice(alloc, &HEADER)?;
    push_record(&mut bytes, 1, 9)?;
    push_record(&mut bytes, 2, 8)?;
    assert!(rt; bytes.len() < 1000);
    let file = frames(alloc, &bytes)?;
    let capture = index(&rt, alloc, bytes, file)?;
    assert_eq!(rt; capture.count(), 2);
    assert_eq!(rt; capture.clock(2), 9_000_000_000);
    Ok(())
}

#[test]
fn has_no_round_without_a_frame(rt: HostRuntime) -> Result<(), Fail> {
    let alloc = rt.alloc();
    let bytes = Vec::from_slice(alloc, &HEADER)?;
    let file = frames(alloc, &bytes)?;
    let capture = index(&rt, alloc, bytes, file)?;
    assert_eq!(rt; rounds(&capture, 4), 0);
    Ok(())
}

// The batches of a worker in a round, where there is this round.
fn batches_in(
    rt: &impl Abort,
    alloc: Global,
    capture: &Capture,
    layout: &Layout,
    worker: u32,
    round: u32,
) -> Result<Vec<Vec<u32>>, Fail> {
    assert!(rt; layout.round > 0 && layout.batch > 0 && worker < layout.workers);
    assert!(rt; round < rounds(capture, layout.round));
    Ok(batches(alloc, capture, layout, worker, round)?)
}

#[test]
fn deals_frames_to_workers(rt: HostRuntime) -> Result<(), Fail> {
    let alloc = rt.alloc();
    let bytes = file_of(alloc, &SENDERS)?;
    assert!(rt; bytes.len() < 1000);
    let file = frames(alloc, &bytes)?;
    let capture = index(&rt, alloc, bytes, file)?;
    let all = layout(3, 9);
    let first = batches_in(&rt, alloc, &capture, &all, 0, 0)?;
    assert_eq!(rt; first.len(), 2);
    assert_eq!(rt; first[0].as_slice(), [1, 3, 5].as_slice());
    assert_eq!(rt; first[1].as_slice(), [6].as_slice());
    let second = batches_in(&rt, alloc, &capture, &all, 1, 0)?;
    assert_eq!(rt; second.len(), 2);
    assert_eq!(rt; second[0].as_slice(), [2, 7, 8].as_slice());
    assert_eq!(rt; second[1].as_slice(), [9].as_slice());
    Ok(())
}

#[test]
fn deals_frames_round_by_round(rt: HostRuntime) -> Result<(), Fail> {
    let alloc = rt.alloc();
    let bytes = file_of(alloc, &SENDERS)?;
    assert!(rt; bytes.len() < 1000);
    let file = frames(alloc, &bytes)?;
    let capture = index(&rt, alloc, bytes, file)?;
    assert_eq!(rt; rounds(&capture, 4), 3);
    let four = layout(2, 4);
    let early = batches_in(&rt, alloc, &capture, &four, 1, 1)?;
    assert_eq!(rt; early.len(), 1);
    assert_eq!(rt; early[0].as_slice(), [7, 8].as_slice());
    let none = batches_in(&rt, alloc, &capture, &four, 0, 2)?;
    assert_eq!(rt; none.len(), 0);
    let last = batches_in(&rt, alloc, &capture, &four, 1, 2)?;
    assert_eq!(rt; last.len(), 1);
    assert_eq!(rt; last[0].as_slice(), [9].as_slice());
    Ok(())
}

#[test]
fn links_across_pieces(rt: HostRuntime) -> Result<(), Fail> {
    let alloc = rt.alloc();
    let mut bytes = Vec::from_slice(alloc, &HEADER)?;
    for number in 0..140_000_u32 {
        push_record(&mut bytes, (number % 3) as u8, 7)?;
    }
    assert!(rt; bytes.len() < 10_000_000);
    let file = frames(alloc, &bytes)?;
    let capture = index(&rt, alloc, bytes, file)?;
    let nexts = nexts(alloc, &capture)?;
    assert_eq!(rt; nexts.len(), 140_000);
    // Frames 1, 4, .. are counted; each other frame names the third one behind it.
    assert_eq!(rt; &nexts[..4], [0, 5, 6, 0].as_slice());
    assert_eq!(rt;
        &nexts[65_533..65_538],
        [65_537, 65_538, 0, 65_540, 65_541].as_slice()
    );
    assert_eq!(rt; &nexts[139_996..], [140_000, 0, 0, 0].as_slice());
    Ok(())
}

#[test]
fn hands_on_how_keys_are_dealt(rt: HostRuntime) -> Result<(), Fail> {
    let alloc = rt.alloc();
    let bytes = file_of(alloc, &[1])?;
    assert!(rt; bytes.len() < 1000);
    let file = frames(alloc, &bytes)?;
    let capture = index(&rt, alloc, bytes, file)?;
    assert_eq!(rt; capture.count(), 1);
    let dealt = match capture.get(1) {
        Seen::Bears(facts) => (worker_of(&facts.key, 3), bucket_of(&facts.key, 5)),
        Seen::Counted(_) => (9, 9),
    };
    assert_eq!(rt; dealt.0, 1);
    assert_eq!(rt; dealt.1, 3);
    assert_eq!(rt; round_of(5, 4), 1);
    Ok(())
}

// A record with a datagram of IPv6 from X::10.0.0.1 port 1000 to X::10.0.0.9 port 2000, where the addresses begin with X.
fn push_long_record(bytes: &mut Vec<u8>, first: [u8; 2]) -> Result<(), AllocError> {
    bytes.extend_from_slice(&[
        7, 0, 0, 0, 0, 0, 0, 0, 62, 0, 0, 0, 62, 0, 0, 0, 2, 0, 0, 0, 0, 2, 2, 0, 0, 0, 0, 1, 0x86,
        0xdd, 0x60, 0, 0, 0, 0, 8, 17, 64,
    ])?;
    for last in [1, 9] {
        bytes.extend_from_slice(&first)?;
        bytes.extend_from_slice(&[0, 0, 0, 0, 0, 0, 0, 0, 0, 0, 10, 0, 0, last])?;
    }
    bytes.extend_from_slice(&[3, 0xe8, 7, 0xd0, 0, 8, 0, 0])?;
    Ok(())
}

#[test]
fn links_long_addresses_beside_short_ones(rt: HostRuntime) -> Result<(), Fail> {
    let alloc = rt.alloc();
    let mut bytes = Vec::from_slice(alloc, &HEADER)?;
    for _ in 0..2 {
        push_record(&mut bytes, 1, 7)?;
        push_long_record(&mut bytes, [0x20, 1])?;
        // The numbers of its addresses are those of the IPv4 packet.
        push_long_record(&mut bytes, [0, 0])?;
    }
    assert!(rt; bytes.len() < 1000);
    let file = frames(alloc, &bytes)?;
    let capture = index(&rt, alloc, bytes, file)?;
    assert_eq!(rt;
        nexts(alloc, &capture)?.as_slice(),
        [4, 5, 6, 0, 0, 0].as_slice()
    );
    Ok(())
}
