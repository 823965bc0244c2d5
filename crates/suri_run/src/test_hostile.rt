//! Runs whose reads give a byte each and fail, runs whose writes take nothing, and one flow that leaves room for no other.
use crate::test_frames::*;
use crate::test_runs::*;
use crate::test_texts::*;
use crate::top::run;
use std::alloc::Global;
use std::process::Abort;
use std::sync::Wait;
use std::test::Fail;
use std::thread::Threads;
use suri_outside::{MemSink, MemSource, OpenGate};

// A run without options over one packet, whose source gives so many bytes at a read, to this sink.
fn run_to(
    rt: &(impl Threads + Wait + Sync),
    alloc: Global,
    mut source: MemSource,
    mut sink: MemSink,
) -> Result<Seen, Fail> {
    let words = words_of(alloc, &[])?;
    let mut notes = MemSink::new(alloc, 100, 100, Vec::new(alloc))?;
    let ran = run(
        rt,
        alloc,
        words.as_slice(),
        &mut source,
        &mut sink,
        &mut notes,
        &OpenGate,
    );
    Ok(Seen {
        status: ran.status,
        text: sink.bytes().to_vec(alloc)?,
        note: notes.bytes().to_vec(alloc)?,
        rows: ran.trail.map(|trail| trail.buckets.len()),
    })
}

#[test]
fn each_failing_read_of_a_byte_ends_the_run(rt: HostRuntime) -> Result<(), Fail> {
    let alloc = rt.alloc();
    // 82 bytes, and the end.
    for call in 1..84 {
        let capture = capture_of(alloc, &HEADER, &[(T, 0, &A_TO_B)])?;
        let source = MemSource::new(capture, 1, vec![in alloc; call]?);
        let sink = MemSink::new(alloc, 4096, 100, Vec::new(alloc))?;
        let seen = run_to(&rt, alloc, source, sink)?;
        assert_eq!(rt; seen.status, 3);
        assert!(rt; seen.text.is_empty());
        assert_eq!(rt; seen.note.as_slice(), b"suri_run: read fault\n".as_slice());
    }
    Ok(())
}

// Asserts that a run to this sink, whose write with this number, from 0, takes nothing, leaves the front that the writes before took.
fn assert_front(
    rt: &(impl Abort + Threads + Wait + Sync),
    alloc: Global,
    sink: MemSink,
    writes: usize,
) -> Result<(), Fail> {
    let capture = capture_of(alloc, &HEADER, &[(T, 0, &A_TO_B)])?;
    let source = MemSource::new(capture, 100, Vec::new(alloc));
    let seen = run_to(rt, alloc, source, sink)?;
    assert_eq!(rt; seen.status, 4);
    assert_eq!(rt; seen.rows, Some(1024));
    assert_eq!(rt; seen.text.len(), writes.saturating_mul(100));
    assert!(rt; ONE_PACKET.as_bytes().starts_with(seen.text.as_slice()));
    assert_eq!(rt; seen.note.as_slice(), b"suri_run: write fault\n".as_slice());
    Ok(())
}

#[test]
fn each_write_that_takes_nothing_ends_the_run(rt: HostRuntime) -> Result<(), Fail> {
    let alloc = rt.alloc();
    let parts = ONE_PACKET.len().div_ceil(100);
    assert!(rt; parts > 5);
    let mut call = 1u64;
    for writes in 0..parts {
        let idling = MemSink::idle(alloc, 4096, 100, vec![in alloc; call]?)?;
        assert_front(&rt, alloc, idling, writes)?;
        let failing = MemSink::new(alloc, 4096, 100, vec![in alloc; call]?)?;
        assert_front(&rt, alloc, failing, writes)?;
        call = call.saturating_add(1);
    }
    Ok(())
}

#[test]
fn one_flow_takes_all_packets_though_there_is_room_for_no_other(
    rt: HostRuntime,
) -> Result<(), Fail> {
    let alloc = rt.alloc();
    let frame = A_TO_B;
    let mut records = Vec::new(alloc);
    for _ in 0..300 {
        let record: Record<'_> = (T, 0, &frame);
        records.push(record)?;
    }
    let capture = capture_of(alloc, &HEADER, &records)?;
    let options = ["--batch=1", "--memcap=1", "--rows=1"];
    let seen = run_with(
        &rt,
        alloc,
        &options,
        capture,
        Vec::new(alloc),
        Vec::new(alloc),
    )?;
    assert_eq!(rt; seen.status, 0);
    let text = str::from_utf8(seen.text.as_slice())?;
    assert!(rt; text.contains("\"no_flow\":0,\"packets\":300,\"records\":1,"));
    Ok(())
}
