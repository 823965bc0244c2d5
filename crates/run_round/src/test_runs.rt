//! Captures, and runs over them in which the roles take turns, for the tests.
ghost use Rattle.run_laws.specs.Setting.{IsLayout};
ghost use Rattle.run_round.specs.Accounts.{setup_for};
ghost use Rattle.run_rules.specs.Setup.{rounds};
ghost use Rattle.std.specs.Prelude.{◌≡◌, ◌*◌, ◌^◌, ◌≤◌, true, IfOk};
ghost use Rattle.suri_base.specs.Capture.{IsCapture};

use crate::run::run_with;
use capture_index::{index, rounds};
use flow_object::FlowLine;
use pcap_read::frames;
use std::alloc::Global;
use std::process::Abort;
use std::sync::Wait;
use std::test::Fail;
use std::thread::Threads;
use suri_base::{BucketNote, Capture, Entry, Layout, PoolNote, Reason, SegNote, Trail};
use suri_outside::OpenGate;

// The header of a little-endian Ethernet capture with times in microseconds.
const HEADER: [u8; 24] = [
    0xd4, 0xc3, 0xb2, 0xa1, 2, 0, 4, 0, 0, 0, 0, 0, 0, 0, 0, 0, 0, 0, 4, 0, 1, 0, 0, 0,
];

// The second from which the packets' times are counted.
const START: u32 = 1_700_000_000;

const ETHERNET: [u8; 14] = [2, 0, 0, 0, 0, 2, 2, 0, 0, 0, 0, 1, 8, 0];

const UDP: u8 = 17;

const TCP: u8 = 6;

/// A packet: UDP without payload from this host, port 1000, to that one, port 2000; or TCP from 128.232.110.120, port 34855, to
/// 66.35.250.204, port 80.
#[derive(Clone, Copy)]
pub(crate) struct Packet<'a> {
    seconds: u32,
    proto: u8,
    host: u8,
    peer: u8,
    flags: u8,
    seq: u32,
    payload: &'a [u8],
}

/// A UDP packet, so many seconds behind the first, to the next host.
pub(crate) fn udp(seconds: u32, host: u8) -> Packet<'static> {
    udp_to(seconds, host, host.wrapping_add(1))
}

/// A UDP packet, so many seconds behind the first, from this host to that.
pub(crate) fn udp_to(seconds: u32, host: u8, peer: u8) -> Packet<'static> {
    Packet {
        seconds,
        proto: UDP,
        host,
        peer,
        flags: 0,
        seq: 0,
        payload: b"",
    }
}

/// A TCP packet at the time of the first.
pub(crate) fn tcp(flags: u8, seq: u32, payload: &[u8]) -> Packet<'_> {
    Packet {
        seconds: 0,
        proto: TCP,
        host: 0,
        peer: 0,
        flags,
        seq,
        payload,
    }
}

// Puts addresses and the transport header behind a frame.
fn push_transport(frame: &mut Vec<u8>, packet: &Packet<'_>) -> Result<(), Fail> {
    if packet.proto == UDP {
        frame.extend_from_slice(&[10, 0, 0, packet.host, 10, 0, 0, packet.peer])?;
        frame.extend_from_slice(&[0x03, 0xe8, 0x07, 0xd0, 0, 8, 0, 0])?;
    } else {
        frame.extend_from_slice(&[128, 232, 110, 120, 66, 35, 250, 204])?;
        frame.extend_from_slice(&[0x88, 0x27, 0, 80])?;
        frame.extend_from_slice(&packet.seq.to_be_bytes())?;
        frame.extend_from_slice(&[0, 0, 0, 0, 0x50, packet.flags, 0xff, 0xff, 0, 0, 0, 0])?;
    }
    frame.extend_from_slice(packet.payload)?;
    Ok(())
}

// A packet's frame.
fn frame_of(alloc: Global, packet: &Packet<'_>) -> Result<Vec<u8>, Fail> {
    let mut frame = Vec::new(alloc);
    let header: u8 = if packet.proto == UDP { 28 } else { 40 };
    let total = header.wrapping_add(u8::try_from(packet.payload.len())?);
    frame.extend_from_slice(&ETHERNET)?;
    frame.extend_from_slice(&[0x45, 0, 0, total, 0, 0, 0x40, 0, 0x40, packet.proto, 0, 0])?;
    push_transport(&mut frame, packet)?;
    Ok(frame)
}

/// The capture of these packets.
pub(crate) fn capture_of(alloc: Global, packets: &[Packet<'_>]) -> Result<Vec<u8>, Fail> {
    let mut capture = Vec::new(alloc);
    capture.extend_from_slice(&HEADER)?;
    for packet in packets {
        let frame = frame_of(alloc, packet)?;
        let len = u32::try_from(frame.len())?;
        let seconds = START.wrapping_add(packet.seconds);
        for field in [seconds, 0, len, len] {
            capture.extend_from_slice(&field.to_le_bytes())?;
        }
        capture.extend_from_slice(&frame)?;
    }
    Ok(capture)
}

/// One worker and one bucket, batches of so many packets, room for so many flows and segments.
pub(crate) fn layout_of(batch: u32, memcap: u32, segments: u32) -> Layout {
    Layout {
        workers: 1,
        batch,
        round: 4096,
        rows: 1,
        memcap,
        segments,
        recovery: 30,
        depth: 1_048_576,
    }
}

// Whether the numbers of a layout are such as the options allow.
fn is_layout(layout: &Layout) -> bool
    ensures { result ≡ true → IsLayout layout.now }
{
    (1 <= layout.workers && layout.workers <= 64)
        && (1 <= layout.batch && layout.batch <= 256)
        && (1 <= layout.round && layout.round <= 65_536)
        && (1 <= layout.rows && layout.rows <= 4096)
        && (layout.rows <= layout.memcap && layout.memcap <= 1_048_576)
        && layout.segments <= 1_048_576
        && (1 <= layout.recovery && layout.recovery <= 100)
        && layout.depth <= 1_073_741_824
}

/// Whether a capture may be run with this layout.
pub(crate) fn may_run(capture: &Capture, layout: &Layout) -> bool
    ensures layout { result ≡ true → IsLayout layout.now }
    ensures few { result ≡ true → rounds (setup_for capture.now layout.now) * layout.now.rows ≤ 2 ^ 24 }
{
    is_layout(layout)
        && u64::from(rounds(capture, layout.round)) * u64::from(layout.rows) <= 16_777_216
}

/// What is known of a capture from its file.
pub(crate) fn index_of<R: Threads + Sync>(
    rt: &R,
    alloc: Global,
    bytes: Vec<u8>,
) -> Result<Capture, Fail>
    ensures { IfOk result (λ c. IsCapture c) }
{
    if bytes.len() > 1_073_741_824 {
        return Err(Fail::new("a capture beyond the limits"));
    }
    let Ok(file) = frames(alloc, &bytes) else {
        return Err(Fail::new("no capture"));
    };
    Ok(index(rt, alloc, bytes, file)?)
}

/// A run over a capture file in so many threads.
pub(crate) fn run_in<R: Threads + Wait + Sync>(
    rt: &R,
    alloc: Global,
    bytes: Vec<u8>,
    layout: Layout,
    threads: usize,
) -> Result<(Vec<FlowLine>, Trail), Fail> {
    let capture = index_of(rt, alloc, bytes)?;
    if threads == 0 || !may_run(&capture, &layout) {
        return Err(Fail::new("a layout beyond the limits"));
    }
    Ok(run_with(rt, alloc, &capture, layout, 2, &OpenGate, threads)?)
}

/// A run over a capture file whose roles take turns.
pub(crate) fn turns<R: Threads + Wait + Sync>(
    rt: &R,
    alloc: Global,
    bytes: Vec<u8>,
    layout: Layout,
) -> Result<(Vec<FlowLine>, Trail), Fail> {
    run_in(rt, alloc, bytes, layout, 1)
}

/// The histories of a run with one bucket are these.
pub(crate) fn assert_trail(
    rt: &impl Abort,
    trail: &Trail,
    pool: &[Entry<PoolNote>],
    segments: &[Entry<SegNote>],
    bucket: &[Entry<BucketNote>],
) {
    assert_eq!(rt; trail.pool.as_slice(), pool);
    assert_eq!(rt; trail.segments.as_slice(), segments);
    assert_eq!(rt; trail.buckets.len(), 1);
    for history in &trail.buckets {
        assert_eq!(rt; history.as_slice(), bucket);
    }
}

/// The records are of these runs, which ended for these reasons, by the table of an emergency or not.
pub(crate) fn assert_reasons(rt: &impl Abort, lines: &[FlowLine], wanted: &[(u32, Reason, bool)]) {
    assert_eq!(rt; lines.len(), wanted.len());
    for (line, (run, reason, emergency)) in lines.iter().zip(wanted) {
        assert_eq!(rt; line.sums.first_no, *run);
        assert_eq!(rt; line.reason, *reason);
        assert_eq!(rt; line.emergency, *emergency);
    }
}
