//! Runs whose command lines have options: those that change the text, those that don't, and words that are refused.
use crate::test_frames::*;
use crate::test_runs::*;
use crate::test_texts::*;
use crate::top::run;
use std::alloc::Global;
use std::process::Abort;
use std::sync::Wait;
use std::test::Fail;
use std::thread::Threads;
use suri_outside::{MemSink, MemSource, OpenGate, read_whole};

#[test]
fn options_have_their_text(rt: HostRuntime) -> Result<(), Fail> {
    let alloc = rt.alloc();
    let mut near = A_TO_B;
    near[22] = 1;
    let mut far = A_TO_B;
    far[22] = 255;
    let cases: [(&[&str], &[Record<'_>], &str); 4] = [
        (
            &["--workers=64", "--batch", "+7"],
            &[(T, 0, &A_TO_B)],
            ONE_PACKET,
        ),
        (&["--seed", "1"], &[(T, 0, &A_TO_B)], SEEDED),
        (&["--netflow"], &[(T, 0, &SYN_ACK)], ONE_NETFLOW_LINE),
        (
            &["--seed=256", "--netflow"],
            &[
                (T, 1, &A_TO_B),
                (T + 3, 0, &near),
                (T, 0, &far),
                (T + 2, 0, &B_TO_A),
            ],
            TIMES_TO_LIVE,
        ),
    ];
    for (options, records, text) in cases {
        let capture = capture_of(alloc, &HEADER, records)?;
        assert_chosen(&rt, alloc, options, capture, text)?;
    }
    let both: [Record<'_>; 2] = [(T, 0, &A_TO_B), (T, 5, &B_TO_A)];
    let capture = capture_in(alloc, Order::Big, &BIG_NANO_HEADER, &both)?;
    assert_chosen(&rt, alloc, &["--netflow"], capture, BOTH_WITH_NETFLOW)
}

// Asserts that these words are refused with this note, and that neither the source nor the sink was touched. The write
// of the note with this number fails, which changes nothing else.
fn assert_refused(
    rt: &(impl Abort + Threads + Wait + Sync),
    alloc: Global,
    options: &[&str],
    failing_note: u64,
    note: &str,
) -> Result<(), Fail> {
    let words = words_of(alloc, options)?;
    let capture = capture_of(alloc, &HEADER, &[(T, 0, &A_TO_B)])?;
    let mut source = MemSource::new(capture.as_slice().to_vec(alloc)?, 16, Vec::new(alloc));
    let mut sink = MemSink::new(alloc, 4096, 10, Vec::new(alloc))?;
    let mut notes = MemSink::new(alloc, 100, 7, vec![in alloc; failing_note]?)?;
    let ran = run(
        rt,
        alloc,
        words.as_slice(),
        &mut source,
        &mut sink,
        &mut notes,
        &OpenGate,
    );
    assert_eq!(rt; ran.status, 2);
    assert!(rt; sink.bytes().is_empty());
    assert_eq!(rt; notes.bytes(), note.as_bytes());
    let rest = read_whole(alloc, &mut source, 1000)?;
    assert_eq!(rt; rest.as_slice(), capture.as_slice());
    Ok(())
}

#[test]
fn refused_words_have_their_notes(rt: HostRuntime) -> Result<(), Fail> {
    let refused = "suri_run: words refused\n";
    let alone = "suri_run: --generate goes with --frames and without --audit\n";
    let cases: [(&[&str], u64, &str); 9] = [
        (
            &["--rows", "10", "--memcap", "5"],
            0,
            "suri_run: rows 10 exceed memcap 5\n",
        ),
        (
            &["--memcap", "5"],
            0,
            "suri_run: rows 1024 exceed memcap 5\n",
        ),
        (&["--workers", "0"], 0, refused),
        (&["--frames", "3"], 0, alone),
        (&["--generate", "7"], 0, alone),
        (&["--audit", "--audit"], 0, refused),
        (&["--netflow", "--netflow"], 0, refused),
        (&["x"], 0, refused),
        (&["x"], 2, "suri_ru"),
    ];
    let alloc = rt.alloc();
    for (options, failing_note, note) in cases {
        assert_refused(&rt, alloc, options, failing_note, note)?;
    }
    Ok(())
}

// A frame like A_TO_B, between two other hosts of the same network.
fn between(from: u8, to: u8) -> [u8; 42] {
    let mut frame = A_TO_B;
    frame[29] = from;
    frame[33] = to;
    frame
}

// Asserts that a run over one bucket with one worker, for so many flows and in batches of so many packets, has these counts.
fn assert_counts(
    rt: &(impl Abort + Threads + Wait + Sync),
    alloc: Global,
    memcap: &str,
    batch: &str,
    records: &[Record<'_>],
    counts: &str,
) -> Result<(), Fail> {
    let options = [
        "--workers=1",
        "--rows=1",
        "--memcap",
        memcap,
        "--batch",
        batch,
    ];
    let capture = capture_of(alloc, &HEADER, records)?;
    let seen = run_with(
        rt,
        alloc,
        &options,
        capture,
        Vec::new(alloc),
        Vec::new(alloc),
    )?;
    assert_eq!(rt; seen.status, 0);
    assert_eq!(rt; seen.rows, Some(1));
    let text = str::from_utf8(seen.text.as_slice())?;
    assert!(rt; text.contains(counts));
    Ok(())
}

#[test]
fn each_flow_forces_the_other_out(rt: HostRuntime) -> Result<(), Fail> {
    let other = between(3, 4);
    assert_counts(
        &rt,
        rt.alloc(),
        "1",
        "1",
        &[
            (T, 0, &A_TO_B),
            (T, 0, &other),
            (T, 0, &A_TO_B),
            (T, 0, &other),
        ],
        "\"emergency\":0,\"emergency_entered\":1,\"forced\":3,\"memcap_full\":3,\"no_flow\":0,\"packets\":4,\"records\":4,\"segment_full\":0,\"shutdown\":1,\"tcp_reuse\":0,\"timeout\":0}",
    )
}

#[test]
fn packet_is_refused_where_the_only_flow_is_in_use(rt: HostRuntime) -> Result<(), Fail> {
    let other = between(3, 4);
    assert_counts(
        &rt,
        rt.alloc(),
        "1",
        "2",
        &[(T, 0, &A_TO_B), (T, 0, &other)],
        "\"emergency\":0,\"emergency_entered\":1,\"forced\":0,\"memcap_full\":1,\"no_flow\":1,\"packets\":1,\"records\":1,\"segment_full\":0,\"shutdown\":1,\"tcp_reuse\":0,\"timeout\":0}",
    )
}

#[test]
fn flow_that_ends_gives_its_object_to_the_next(rt: HostRuntime) -> Result<(), Fail> {
    let records: [Record<'_>; 2] = [(T, 0, &A_TO_B), (T + 31, 0, &A_TO_B)];
    assert_counts(
        &rt,
        rt.alloc(),
        "1",
        "1",
        &records,
        "\"emergency\":0,\"emergency_entered\":1,\"forced\":0,\"memcap_full\":1,\"no_flow\":0,\"packets\":2,\"records\":2,\"segment_full\":0,\"shutdown\":1,\"tcp_reuse\":0,\"timeout\":1}",
    )?;
    // But not while a packet of it is in hand.
    assert_counts(
        &rt,
        rt.alloc(),
        "1",
        "2",
        &records,
        "\"emergency\":0,\"emergency_entered\":1,\"forced\":0,\"memcap_full\":1,\"no_flow\":1,\"packets\":1,\"records\":1,\"segment_full\":0,\"shutdown\":0,\"tcp_reuse\":0,\"timeout\":1}",
    )
}

#[test]
fn timeouts_are_shorter_in_an_emergency(rt: HostRuntime) -> Result<(), Fail> {
    let other = between(3, 4);
    let third = between(5, 6);
    assert_counts(
        &rt,
        rt.alloc(),
        "2",
        "1",
        &[
            (T, 0, &A_TO_B),
            (T, 0, &other),
            (T, 0, &third),
            (T + 11, 0, &other),
        ],
        "\"emergency\":1,\"emergency_entered\":1,\"forced\":1,\"memcap_full\":2,\"no_flow\":0,\"packets\":4,\"records\":4,\"segment_full\":0,\"shutdown\":2,\"tcp_reuse\":0,\"timeout\":1}",
    )
}
