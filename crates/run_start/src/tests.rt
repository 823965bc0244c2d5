//! Runs that are about to begin.
use crate::start;
use role_meets::{Part, Role};
use role_steps::Passes;
use std::alloc::Global;
use std::test::Fail;
use suri_base::{Capture, Layout, NoMemory};

// A capture of no frame.
fn empty(alloc: Global) -> Result<Capture, NoMemory> {
    let seen = Vec::new(alloc);
    Capture::of(
        alloc,
        Vec::new(alloc),
        Vec::new(alloc),
        Vec::new(alloc),
        seen,
        0,
    )
}

// 0 for a worker, 1 for the manager, 2 for the recycler; and what it holds.
fn parts<'r, 'c>(role: &'r Role<'c>) -> (u32, &'r Passes<'c>) {
    match &role.part {
        Part::Work(worker) => (0, &worker.passes),
        Part::Manage(manager) => (1, &manager.passes),
        Part::Recycle(recycler) => (2, &recycler.passes),
    }
}

// Two workers, the manager and the recycler, and the end role, each with its pass of each of three buckets.
#[test]
fn makes_each_role(rt: HostRuntime) -> Result<(), Fail> {
    let capture = empty(rt.alloc())?;
    let layout = Layout {
        workers: 2,
        batch: 4,
        round: 6,
        rows: 3,
        memcap: 5,
        segments: 7,
        recovery: 30,
        depth: 11,
    };
    let (shared, roles, ender) = start(rt.alloc(), &capture, layout, 1)?;
    assert_eq!(rt; shared.buckets.len(), 3);
    assert_eq!(rt; roles.len(), 4);
    let kinds = [0, 0, 1, 2];
    for (at, role) in roles.iter().enumerate() {
        let (kind, passes) = parts(role);
        assert!(rt; kind == kinds[at] && !role.failed);
        assert!(rt; passes.buckets.len() == 3 && passes.pool.role() == at as u32);
    }
    assert!(rt; ender.passes.buckets.len() == 3 && ender.passes.pool.role() == 4);
    Ok(())
}

// The largest of each number.
#[test]
fn makes_the_largest_run(rt: HostRuntime) -> Result<(), Fail> {
    let capture = empty(rt.alloc())?;
    let layout = Layout {
        workers: 64,
        batch: 256,
        round: 65_536,
        rows: 4_096,
        memcap: 1_048_576,
        segments: 1_048_576,
        recovery: 100,
        depth: 1_073_741_824,
    };
    let (shared, roles, _) = start(rt.alloc(), &capture, layout, 10_000)?;
    assert!(rt; shared.buckets.len() == 4_096 && roles.len() == 66);
    Ok(())
}
