//! Runs over captures at the limits and above them, over one whose text fills several blocks, and over words that can't
//! be had.
use crate::ran::Ran;
use crate::test_frames::{A_TO_B, HEADER, T};
use crate::test_runs::{Order, push_record, run_with};
use crate::test_texts::EMPTY;
use crate::top::{run, run_args};
use sha1::Sha1;
use std::alloc::Global;
use std::env::Args;
use std::io;
use std::io::ErrorKind;
use std::process::Abort;
use std::sync::Wait;
use std::test::Fail;
use std::thread::Threads;
use suri_outside::{MemSink, MemSource, OpenGate, RepeatSource, Source};

// How a run ended, what it wrote and what it noted.
#[derive(Drop)]
struct Left {
    status: u8,
    text: Vec<u8>,
    note: Vec<u8>,
}

// What a run left in two sinks.
fn left_in(alloc: Global, ran: Ran, sink: &MemSink, notes: &MemSink) -> Result<Left, Fail> {
    Ok(Left {
        status: ran.status,
        text: sink.bytes().to_vec(alloc)?,
        note: notes.bytes().to_vec(alloc)?,
    })
}

// A run over a source, whose sink has room for so many bytes.
fn run_over<S: Source>(
    rt: &(impl Threads + Wait + Sync),
    alloc: Global,
    source: &mut S,
    room: usize,
) -> Result<Left, Fail> {
    let mut words = Vec::new(alloc);
    words.push(String::from_str(alloc, "suri_run")?)?;
    let mut sink = MemSink::new(alloc, room, 50_000, Vec::new(alloc))?;
    let mut notes = MemSink::new(alloc, 100, 100, Vec::new(alloc))?;
    let ran = run(
        rt,
        alloc,
        words.as_slice(),
        source,
        &mut sink,
        &mut notes,
        &OpenGate,
    );
    left_in(alloc, ran, &sink, &notes)
}

// Asserts that nothing was written, with this status and this note.
fn assert_nothing(rt: &impl Abort, left: &Left, status: u8, note: &str) {
    assert_eq!(rt; left.status, status);
    assert!(rt; left.text.is_empty());
    assert_eq!(rt; left.note.as_slice(), note.as_bytes());
}

#[test]
fn one_byte_too_many_is_above_the_limit(rt: HostRuntime) -> Result<(), Fail> {
    let alloc = rt.alloc();
    let mut most = RepeatSource::new(0, 1_073_741_824);
    let left = run_over(&rt, alloc, &mut most, 100)?;
    assert_nothing(&rt, &left, 5, "suri_run: capture refused: magic 00000000\n");
    let mut more = RepeatSource::new(0, 1_073_741_825);
    let left = run_over(&rt, alloc, &mut more, 100)?;
    assert_nothing(
        &rt,
        &left,
        6,
        "suri_run: limit: more than 1073741824 bytes\n",
    );
    Ok(())
}

#[test]
fn many_rounds_are_above_the_limit(rt: HostRuntime) -> Result<(), Fail> {
    let alloc = rt.alloc();
    let mut capture = HEADER.to_vec(alloc)?;
    for _ in 0..5000 {
        push_record(&mut capture, Order::Little, T, 0, &A_TO_B)?;
    }
    let options = ["--round", "1", "--rows", "4096"];
    let seen = run_with(
        &rt,
        alloc,
        &options,
        capture,
        Vec::new(alloc),
        Vec::new(alloc),
    )?;
    assert_eq!(rt; seen.status, 6);
    assert!(rt; seen.text.is_empty());
    assert_eq!(rt; seen.rows, None);
    let note = "suri_run: limit: 5000 rounds of 4096 rows\n";
    assert_eq!(rt; seen.note.as_slice(), note.as_bytes());
    Ok(())
}

#[test]
fn one_frame_too_many_is_above_the_limit(rt: HostRuntime) -> Result<(), Fail> {
    let alloc = rt.alloc();
    let mut capture = HEADER.to_vec(alloc)?;
    for _ in 0..4_194_305 {
        capture.extend_from_slice(&[0; 16])?;
    }
    let mut source = MemSource::new(capture, 65_536, Vec::new(alloc));
    let left = run_over(&rt, alloc, &mut source, 100)?;
    assert_nothing(&rt, &left, 6, "suri_run: limit: more than 4194304 frames\n");
    Ok(())
}

// A capture of 600 packets a microsecond apart, each from a port of its own.
pub(crate) fn many_flows(alloc: Global) -> Result<Vec<u8>, Fail> {
    let mut capture = HEADER.to_vec(alloc)?;
    for port in 0..600u16 {
        let mut frame = A_TO_B;
        let [high, low] = port.to_be_bytes();
        frame[34] = high;
        frame[35] = low;
        for field in [T, u32::from(port), 42, 42] {
            capture.extend_from_slice(&field.to_le_bytes())?;
        }
        capture.extend_from_slice(&frame)?;
    }
    Ok(capture)
}

// The SHA-1 digest of the text of that capture: 284,499 bytes, as the model in tests/model prints them
// (`python3 tests/model < CAPTURE | sha1sum`).
const MANY_FLOWS: [u8; 20] = [
    0xa5, 0xce, 0xbd, 0x6b, 0x64, 0x27, 0xf0, 0xf2, 0x82, 0x83, 0x0e, 0x69, 0xb8, 0x21, 0x74, 0x8f,
    0x0a, 0xac, 0x33, 0x3b,
];

#[test]
fn text_of_many_flows_is_whole(rt: HostRuntime) -> Result<(), Fail> {
    let alloc = rt.alloc();
    let mut source = MemSource::new(many_flows(alloc)?, 65_536, Vec::new(alloc));
    let left = run_over(&rt, alloc, &mut source, 300_000)?;
    assert_eq!(rt; left.status, 0);
    assert!(rt; left.note.is_empty());
    assert_eq!(rt; left.text.len(), 284_499);
    let mut hasher = Sha1::new();
    hasher.update(left.text.as_slice());
    assert_eq!(rt; hasher.finalize(), MANY_FLOWS);
    Ok(())
}

// A run over what a command line gave.
fn run_words(
    rt: &(impl Threads + Wait + Sync),
    alloc: Global,
    args: io::Result<Args>,
) -> Result<Left, Fail> {
    let mut source = MemSource::new(HEADER.to_vec(alloc)?, 16, Vec::new(alloc));
    let mut sink = MemSink::new(alloc, 1000, 1000, Vec::new(alloc))?;
    let mut notes = MemSink::new(alloc, 100, 100, Vec::new(alloc))?;
    let ran = run_args(
        rt,
        alloc,
        args,
        &mut source,
        &mut sink,
        &mut notes,
        &OpenGate,
    );
    left_in(alloc, ran, &sink, &notes)
}

#[test]
fn words_that_cannot_be_had_end_the_run(rt: HostRuntime) -> Result<(), Fail> {
    let alloc = rt.alloc();
    for (kind, status, note) in [
        (ErrorKind::OutOfMemory, 1, "suri_run: no memory\n"),
        (ErrorKind::InvalidData, 2, "suri_run: words refused\n"),
    ] {
        let left = run_words(&rt, alloc, Err(io::Error::from(kind)))?;
        assert_nothing(&rt, &left, status, note);
    }
    let mut words = Vec::new(alloc);
    words.push(String::from_str(alloc, "suri_run")?)?;
    let left = run_words(&rt, alloc, Ok(words.into_iter()))?;
    assert_eq!(rt; left.status, 0);
    assert_eq!(rt; left.text.as_slice(), EMPTY.as_bytes());
    Ok(())
}
