//! Runs with an audit: the trail behind the stats line, as its reader has it.
use crate::test_frames::{A_TO_B, B_TO_A, HEADER, NANO_HEADER, T};
use crate::test_limits::many_flows;
use crate::test_runs::{capture_of, run_with, words_of};
use crate::test_texts::{BOTH_DIRECTIONS, EMPTY};
use crate::top::run;
use std::alloc::Global;
use std::process::Abort;
use std::sync::Wait;
use std::test::Fail;
use std::thread::Threads;
use suri_base::Trail;
use suri_outside::{MemSink, MemSource, OpenGate};
use trail_text::{TrailFault, read_trail};

// What a run with an audit wrote, and the trail that it returned.
#[derive(Drop)]
struct Audited {
    text: String,
    trail: Trail,
}

// A run with these options over a capture, which ends well.
fn run_audited(
    rt: &(impl Abort + Threads + Wait + Sync),
    alloc: Global,
    options: &[&str],
    capture: Vec<u8>,
) -> Result<Audited, Fail> {
    let words = words_of(alloc, options)?;
    let mut source = MemSource::new(capture, 65_536, Vec::new(alloc));
    let mut sink = MemSink::new(alloc, 1_000_000, 1000, Vec::new(alloc))?;
    let mut notes = MemSink::new(alloc, 100, 7, Vec::new(alloc))?;
    let ran = run(
        rt,
        alloc,
        words.as_slice(),
        &mut source,
        &mut sink,
        &mut notes,
        &OpenGate,
    );
    assert_eq!(rt; ran.status, 0);
    let text = String::from_str(alloc, str::from_utf8(sink.bytes())?)?;
    match ran.trail {
        Some(trail) => Ok(Audited { text, trail }),
        None => Err(Fail::new("no trail")),
    }
}

// What is read from an audit text.
#[tactic(auto, using(trail_text::proofs::Feeds::few_lines))]
fn read(alloc: Global, audit: &str) -> Result<Trail, TrailFault> {
    let bytes = audit.as_bytes();
    if bytes.len() > 1_000_000 {
        return Err(TrailFault::NoMemory);
    }
    read_trail(alloc, bytes)
}

// Asserts that an audit text is read as this trail.
fn assert_tells(rt: &impl Abort, alloc: Global, audit: &str, trail: &Trail) -> Result<(), Fail> {
    match read(alloc, audit) {
        Ok(told) => {
            assert_eq!(rt; told.layout, trail.layout);
            assert!(rt; told.pool == trail.pool);
            assert!(rt; told.segments == trail.segments);
            assert!(rt; told.buckets == trail.buckets);
            Ok(())
        }
        Err(_) => Err(Fail::new("no text of a trail")),
    }
}

#[test]
fn audit_tells_the_trail_that_is_returned(rt: HostRuntime) -> Result<(), Fail> {
    let alloc = rt.alloc();
    let capture = capture_of(alloc, &NANO_HEADER, &[(T, 0, &A_TO_B), (T, 5, &B_TO_A)])?;
    let seen = run_audited(&rt, alloc, &["--audit", "--rows=3"], capture)?;
    match seen.text.strip_prefix(BOTH_DIRECTIONS) {
        Some(audit) => {
            assert_tells(&rt, alloc, audit, &seen.trail)?;
            let other = audit.replace(alloc, "suri-trail 1\n", "suri-trail 2\n")?;
            assert_eq!(rt; read(alloc, &other).err(), Some(TrailFault::Line { no: 1 }));
            Ok(())
        }
        None => Err(Fail::new("another text before the audit")),
    }
}

// The worker's turns, in the order of its steps, where the second of two packets in its hand finds no flow.
const NO_FLOW: [&str; 8] = [
    "\n0 0 mode 0\n",
    "\n0 2 took 1\n",
    "\n0 3 made 1 nothing\n",
    "\n0 5 full 2 1 1\n",
    "\n0 6 inuse 2 1\n",
    "\n0 7 refused 2\n",
    "\n0 8 closed 1 none 1 0 0\n",
    "\n0 9 idle 2 none\n",
];

#[test]
fn audit_tells_why_a_packet_has_no_flow(rt: HostRuntime) -> Result<(), Fail> {
    let alloc = rt.alloc();
    let mut other = A_TO_B;
    other[29] = 3;
    other[33] = 4;
    let capture = capture_of(alloc, &HEADER, &[(T, 0, &A_TO_B), (T, 0, &other)])?;
    let options = [
        "--workers=1",
        "--rows=1",
        "--memcap=1",
        "--batch=2",
        "--audit",
    ];
    let seen = run_audited(&rt, alloc, &options, capture)?;
    match seen.text.split_once("suri-trail 1\n") {
        Some((text, behind)) => {
            assert!(rt;
                text.contains("\"memcap_full\":1,\"no_flow\":1,\"packets\":1,\"records\":1,")
            );
            for turn in NO_FLOW {
                assert!(rt; behind.contains(turn));
            }
            let audit = format!(in alloc; "suri-trail 1\n{behind}")?;
            assert_tells(&rt, alloc, &audit, &seen.trail)
        }
        None => Err(Fail::new("no audit")),
    }
}

#[test]
fn audit_of_many_flows_is_whole(rt: HostRuntime) -> Result<(), Fail> {
    let alloc = rt.alloc();
    let plain = run_audited(&rt, alloc, &[], many_flows(alloc)?)?;
    let seen = run_audited(&rt, alloc, &["--audit"], many_flows(alloc)?)?;
    match seen.text.strip_prefix(plain.text.as_str()) {
        Some(audit) => {
            // More than one block of the writer.
            assert!(rt; audit.len() > 65_536);
            assert_tells(&rt, alloc, audit, &seen.trail)
        }
        None => Err(Fail::new("another text before the audit")),
    }
}

#[test]
fn audit_of_a_generated_capture_is_refused(rt: HostRuntime) -> Result<(), Fail> {
    let alloc = rt.alloc();
    let seen = run_with(
        &rt,
        alloc,
        &["--audit", "--generate", "7", "--frames", "16"],
        Vec::new(alloc),
        Vec::new(alloc),
        Vec::new(alloc),
    )?;
    assert_eq!(rt; seen.status, 2);
    assert_eq!(rt; seen.rows, None);
    assert!(rt; seen.text.is_empty());
    let note = "suri_run: --generate goes with --frames and without --audit\n";
    assert_eq!(rt; seen.note.as_slice(), note.as_bytes());
    Ok(())
}

// The audit of a run over no frame with one worker and one bucket, which the end role drains.
const DRAINED: &str =
    "suri-trail 1\nlayout 1 32 4096 1 65536 65536 30 1048576\npool 0\nsegments 0\nbucket 0 1\n3 0 drained 0\n";

#[test]
fn each_failing_write_leaves_a_front_of_text_and_audit(rt: HostRuntime) -> Result<(), Fail> {
    let alloc = rt.alloc();
    let whole = format!(in alloc; "{EMPTY}{DRAINED}")?;
    let options = ["--workers=1", "--rows=1", "--audit"];
    let capture = HEADER.to_vec(alloc)?;
    let seen = run_audited(&rt, alloc, &options, capture)?;
    assert_eq!(rt; seen.text.as_str(), whole.as_str());
    let mut taken = 0usize;
    for call in 1..60 {
        let seen = run_with(
            &rt,
            alloc,
            &options,
            HEADER.to_vec(alloc)?,
            Vec::new(alloc),
            vec![in alloc; call]?,
        )?;
        assert_eq!(rt; seen.status, 4);
        assert_eq!(rt; seen.rows, Some(1));
        assert_eq!(rt; seen.text.len(), taken);
        assert!(rt; whole.as_bytes().starts_with(seen.text.as_slice()));
        assert_eq!(rt; seen.note.as_slice(), b"suri_run: write fault\n".as_slice());
        taken = taken.saturating_add(10);
    }
    Ok(())
}
