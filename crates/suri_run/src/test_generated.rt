//! Runs over generated captures. The expected texts are those of the model in tests/model, which has a generator of its own.
use crate::test_runs::*;
use crate::top::run;
use capture_gen::generate;
use sha1::Sha1;
use std::alloc::Global;
use std::process::Abort;
use std::sync::Wait;
use std::test::Fail;
use std::thread::Threads;
use suri_outside::{MemSink, MemSource, OpenGate, read_whole};

// The summary of 50,000 frames of seed 7.
const MANY: &str =
    "{\"event_type\":\"summary\",\"frames\":50000,\"lines\":8314,\"seed\":7,\"sha1\":\"e6192b90092254e6cd3f79de9cea2e3e7fb1c6b5\",\"stats\":{\"capture\":{\"bytes\":4346676,\"cut_bytes\":0,\"frames\":50000},\"decoder\":{\"ethertype\":0,\"fragment\":0,\"icmp_small\":0,\"ip_extensions\":0,\"ip_header\":0,\"ip_small\":0,\"ip_version\":0,\"link_small\":0,\"other_proto\":0,\"tcp_header\":0,\"tcp_small\":0,\"udp_small\":0,\"vlan_deep\":0,\"vlan_small\":0},\"flow\":{\"bytes\":4346676,\"emergency\":0,\"emergency_entered\":0,\"forced\":0,\"memcap_full\":0,\"no_flow\":0,\"packets\":50000,\"records\":8313,\"segment_full\":0,\"shutdown\":3520,\"tcp_reuse\":0,\"timeout\":4793}}}\n";

// That of 100 frames of seed 3, with netflow lines, a depth of 5 and the Community IDs of seed 9.
const FEW: &str =
    "{\"event_type\":\"summary\",\"frames\":100,\"lines\":81,\"seed\":3,\"sha1\":\"abbe4dccb320701e27d7e81eff5cb7b7ea79163d\",\"stats\":{\"capture\":{\"bytes\":9774,\"cut_bytes\":0,\"frames\":100},\"decoder\":{\"ethertype\":0,\"fragment\":0,\"icmp_small\":0,\"ip_extensions\":0,\"ip_header\":0,\"ip_small\":0,\"ip_version\":0,\"link_small\":0,\"other_proto\":0,\"tcp_header\":0,\"tcp_small\":0,\"udp_small\":0,\"vlan_deep\":0,\"vlan_small\":0},\"flow\":{\"bytes\":9774,\"emergency\":0,\"emergency_entered\":0,\"forced\":0,\"memcap_full\":0,\"no_flow\":0,\"packets\":100,\"records\":27,\"segment_full\":0,\"shutdown\":27,\"tcp_reuse\":0,\"timeout\":0}}}\n";

// Asserts that a run with these options writes just this summary, and doesn't touch a source whose first read would fail.
fn assert_summary(
    rt: &(impl Abort + Threads + Wait + Sync),
    alloc: Global,
    options: &[&str],
    summary: &str,
) -> Result<(), Fail> {
    let words = words_of(alloc, options)?;
    let mut source = MemSource::new(vec![in alloc; 1, 2, 3]?, 16, vec![in alloc; 1]?);
    let mut sink = MemSink::new(alloc, 4096, 10, Vec::new(alloc))?;
    let mut notes = MemSink::new(alloc, 100, 7, Vec::new(alloc))?;
    let ran = run(
        rt,
        alloc,
        words.as_slice(),
        &mut source,
        &mut sink,
        &mut notes,
        &OpenGate,
    );
    assert_eq!(rt; str::from_utf8(sink.bytes()), Ok(summary));
    assert_eq!(rt; ran.status, 0);
    assert!(rt; ran.trail.is_some());
    assert!(rt; notes.bytes().is_empty());
    assert!(rt; read_whole(alloc, &mut source, 1000).is_err());
    Ok(())
}

#[test]
fn generated_captures_have_their_summaries(rt: HostRuntime) -> Result<(), Fail> {
    let alloc = rt.alloc();
    assert_summary(&rt, alloc, &["--generate", "7", "--frames", "50000"], MANY)?;
    assert_summary(
        &rt,
        alloc,
        &["--workers=1", "--generate=7", "--frames=50000"],
        MANY,
    )?;
    assert_summary(
        &rt,
        alloc,
        &[
            "--generate=3",
            "--frames=100",
            "--netflow",
            "--depth=5",
            "--seed=9",
        ],
        FEW,
    )
}

// The digest of the text that this many workers write of 50,000 frames of seed 7.
fn digest_by(
    rt: &(impl Abort + Threads + Wait + Sync),
    alloc: Global,
    workers: &str,
) -> Result<String, Fail> {
    let words = words_of(alloc, &["--workers", workers])?;
    let capture = generate(alloc, 7, 50_000)?;
    let mut source = MemSource::new(capture, 65_536, Vec::new(alloc));
    let mut sink = MemSink::new(alloc, 8_000_000, 1_000_000, Vec::new(alloc))?;
    let mut notes = MemSink::new(alloc, 100, 7, Vec::new(alloc))?;
    let ran = run(
        rt,
        alloc,
        words.as_slice(),
        &mut source,
        &mut sink,
        &mut notes,
        &OpenGate,
    );
    assert_eq!(rt; ran.status, 0);
    Ok(hex::encode(alloc, Sha1::digest(sink.bytes()).as_slice())?)
}

#[test]
fn generated_captures_have_one_text(rt: HostRuntime) -> Result<(), Fail> {
    for workers in ["1", "4", "64"] {
        let digest = digest_by(&rt, rt.alloc(), workers)?;
        assert_eq!(rt; digest.as_str(), "e6192b90092254e6cd3f79de9cea2e3e7fb1c6b5");
    }
    Ok(())
}

#[test]
fn generated_captures_have_the_limit_on_rounds(rt: HostRuntime) -> Result<(), Fail> {
    let alloc = rt.alloc();
    let seen = run_with(
        &rt,
        alloc,
        &["--generate=7", "--frames=5000", "--round=1", "--rows=4096"],
        Vec::new(alloc),
        Vec::new(alloc),
        Vec::new(alloc),
    )?;
    assert_eq!(rt; seen.status, 6);
    assert!(rt; seen.text.is_empty());
    assert_eq!(rt;
        str::from_utf8(seen.note.as_slice()),
        Ok("suri_run: limit: 5000 rounds of 4096 rows\n")
    );
    Ok(())
}
