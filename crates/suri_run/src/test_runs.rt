//! Captures in memory and the runs over them, for the tests.
use crate::top::run;
use std::alloc::Global;
use std::process::Abort;
use std::sync::Wait;
use std::test::Fail;
use std::thread::Threads;
use suri_outside::{MemSink, MemSource, OpenGate};

// The byte order of a capture's headers.
#[derive(Clone, Copy)]
pub(crate) enum Order {
    Little,
    Big,
}

// A frame, behind the seconds and the fraction of its time.
pub(crate) type Record<'a> = (u32, u32, &'a [u8]);

// Puts a field of four bytes behind a capture.
fn push_field(capture: &mut Vec<u8>, order: Order, field: u32) -> Result<(), Fail> {
    let bytes = match order {
        Order::Little => field.to_le_bytes(),
        Order::Big => field.to_be_bytes(),
    };
    capture.extend_from_slice(&bytes)?;
    Ok(())
}

// Puts a record behind a capture.
pub(crate) fn push_record(
    capture: &mut Vec<u8>,
    order: Order,
    seconds: u32,
    fraction: u32,
    frame: &[u8],
) -> Result<(), Fail> {
    let len = u32::try_from(frame.len())?;
    for field in [seconds, fraction, len, len] {
        push_field(capture, order, field)?;
    }
    capture.extend_from_slice(frame)?;
    Ok(())
}

// A capture whose headers have this byte order.
pub(crate) fn capture_in(
    alloc: Global,
    order: Order,
    header: &[u8; 24],
    records: &[Record<'_>],
) -> Result<Vec<u8>, Fail> {
    let mut capture = Vec::new(alloc);
    capture.extend_from_slice(header)?;
    for (seconds, fraction, frame) in records {
        push_record(&mut capture, order, *seconds, *fraction, frame)?;
    }
    Ok(capture)
}

// A capture whose headers are little-endian.
pub(crate) fn capture_of(
    alloc: Global,
    header: &[u8; 24],
    records: &[Record<'_>],
) -> Result<Vec<u8>, Fail> {
    capture_in(alloc, Order::Little, header, records)
}

// How a run ended, what it wrote and what it noted.
#[derive(Drop)]
pub(crate) struct Seen {
    pub(crate) status: u8,
    pub(crate) text: Vec<u8>,
    pub(crate) note: Vec<u8>,
    /// How many buckets the trail has, where there is one.
    pub(crate) rows: Option<usize>,
}

// The words of a command line: the program's name, and these behind it.
pub(crate) fn words_of(alloc: Global, options: &[&str]) -> Result<Vec<String>, Fail> {
    let mut words = Vec::new(alloc);
    words.push(String::from_str(alloc, "suri_run")?)?;
    for option in options {
        words.push(String::from_str(alloc, option)?)?;
    }
    Ok(words)
}

// A run with these options over a capture that comes in parts of 16 bytes and goes in parts of 10, where these calls fail.
pub(crate) fn run_with(
    rt: &(impl Threads + Wait + Sync),
    alloc: Global,
    options: &[&str],
    capture: Vec<u8>,
    failing_reads: Vec<u64>,
    failing_writes: Vec<u64>,
) -> Result<Seen, Fail> {
    let words = words_of(alloc, options)?;
    let mut source = MemSource::new(capture, 16, failing_reads);
    let mut sink = MemSink::new(alloc, 4096, 10, failing_writes)?;
    let mut notes = MemSink::new(alloc, 100, 7, Vec::new(alloc))?;
    let ran = run(
        rt,
        alloc,
        words.as_slice(),
        &mut source,
        &mut sink,
        &mut notes,
        &OpenGate,
    );
    Ok(Seen {
        status: ran.status,
        text: sink.bytes().to_vec(alloc)?,
        note: notes.bytes().to_vec(alloc)?,
        rows: ran.trail.map(|trail| trail.buckets.len()),
    })
}

// A run without options.
pub(crate) fn run_over(
    rt: &(impl Threads + Wait + Sync),
    alloc: Global,
    capture: Vec<u8>,
) -> Result<Seen, Fail> {
    run_with(rt, alloc, &[], capture, Vec::new(alloc), Vec::new(alloc))
}

// Asserts that a run with these options over a capture ends well and writes this text.
pub(crate) fn assert_chosen(
    rt: &(impl Abort + Threads + Wait + Sync),
    alloc: Global,
    options: &[&str],
    capture: Vec<u8>,
    text: &str,
) -> Result<(), Fail> {
    let seen = run_with(
        rt,
        alloc,
        options,
        capture,
        Vec::new(alloc),
        Vec::new(alloc),
    )?;
    let written = str::from_utf8(seen.text.as_slice())?;
    assert_eq!(rt; written, text);
    assert_eq!(rt; seen.status, 0);
    assert!(rt; seen.note.is_empty());
    assert!(rt; seen.rows.is_some());
    Ok(())
}

// Asserts the same of a run without options.
pub(crate) fn assert_text(
    rt: &(impl Abort + Threads + Wait + Sync),
    alloc: Global,
    capture: Vec<u8>,
    text: &str,
) -> Result<(), Fail> {
    assert_chosen(rt, alloc, &[], capture, text)
}

// The header of a little-endian capture, its records, and its text.
pub(crate) type Case<'a> = (&'a [u8; 24], &'a [Record<'a>], &'a str);

// Asserts that runs over these captures end well and write their texts.
pub(crate) fn assert_texts(
    rt: &(impl Abort + Threads + Wait + Sync),
    alloc: Global,
    cases: &[Case<'_>],
) -> Result<(), Fail> {
    for (header, records, text) in cases {
        let capture = capture_of(alloc, header, records)?;
        assert_text(rt, alloc, capture, text)?;
    }
    Ok(())
}
