//! Two workers beside each other, whose order a gate forces.
use crate::run::run_capture;
use crate::test_runs::{capture_of, index_of, may_run, udp_to};
use std::alloc::Global;
use std::sync::Wait;
use std::test::Fail;
use std::thread::Threads;
use suri_base::{BucketNote, Layout, Trail};
use suri_opts::Options;
use suri_outside::{Gate, PairGate};

// Two workers, one bucket and batches of one packet; all else is as where no word chooses.
const OPTIONS: Options = Options {
    layout: Layout {
        workers: 2,
        batch: 1,
        round: 4096,
        rows: 1,
        memcap: 65_536,
        segments: 65_536,
        recovery: 30,
        depth: 1_048_576,
    },
    prealloc: 1_000,
    seed: 0,
    netflow: false,
    audit: false,
    generate: None,
};

// The packets that the one bucket closed, in their order.
fn closed_in(alloc: Global, trail: &Trail) -> Result<Vec<u32>, Fail> {
    let mut closed = Vec::new(alloc);
    for entry in trail.buckets.iter().flatten() {
        if let BucketNote::Closed { no, .. } = entry.note {
            closed.push(no)?;
        }
    }
    Ok(closed)
}

// The closes of a run under a gate over two packets, the first of a flow of worker 0 and the second of a flow of worker 1.
fn closes_under<R: Threads + Wait + Sync>(
    rt: &R,
    alloc: Global,
    gate: &PairGate,
) -> Result<Vec<u32>, Fail> {
    let packets = [udp_to(0, 1, 3), udp_to(0, 5, 6)];
    let capture = index_of(rt, alloc, capture_of(alloc, &packets)?)?;
    if !may_run(&capture, &OPTIONS.layout) {
        return Err(Fail::new("a layout beyond the limits"));
    }
    let (_, trail) = run_capture(rt, alloc, &capture, &OPTIONS, gate)?;
    closed_in(alloc, &trail)
}

#[test]
fn the_second_worker_closes_first(rt: HostRuntime) -> Result<(), Fail> {
    let gate = PairGate::new(0, 1);
    let closed = closes_under(&rt, rt.alloc(), &gate)?;
    assert!(rt; !gate.gave_up());
    assert!(rt; gate.met());
    assert_eq!(rt; closed.as_slice(), [2, 1].as_slice());
    Ok(())
}

#[test]
fn the_first_worker_closes_first(rt: HostRuntime) -> Result<(), Fail> {
    let gate = PairGate::new(1, 0);
    let closed = closes_under(&rt, rt.alloc(), &gate)?;
    assert!(rt; !gate.gave_up());
    assert!(rt; gate.met());
    assert_eq!(rt; closed.as_slice(), [1, 2].as_slice());
    Ok(())
}

#[test]
fn a_worker_that_is_held_alone_gives_up(rt: HostRuntime) -> Result<(), Fail> {
    let gate = PairGate::new(0, 1);
    gate.at(0, 0, 2);
    assert!(rt; gate.gave_up());
    assert!(rt; !gate.met());
    Ok(())
}
