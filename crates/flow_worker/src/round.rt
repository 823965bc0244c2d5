//! One round of a worker.
ghost use Rattle.std.specs.Prelude.{OnOk};
ghost use Rattle.flow_worker.specs.Working.{MayWork, Worked};

use crate::batch::run_batch;
use capture_index::batches;
use role_steps::{Shared, Worker};
use std::alloc::Global;
use std::sync::Wait;
use suri_base::NoMemory;
use suri_outside::Gate;

/// Runs a round of a worker: its packets of the round are looked up and closed, batch by batch. The flows that left by that are in its hand
/// afterwards, but for those that it finished since their objects were wanted.
///
/// The gate is told when the round begins and ends, and of each batch when all its packets have been looked up, and when they are closed;
/// nothing is promised of that.
///
/// # Errors
///
/// `NoMemory`. What was noted so far stands; nothing else is said of the worker then.
pub fn work<'c, R: Wait, G: Gate>(
    rt: &R,
    alloc: Global,
    worker: &mut Worker<'c>,
    shared: &Shared<'c>,
    round: u32,
    gate: &G,
) -> Result<(), NoMemory>
    requires { MayWork shared.now worker.old round }
    ensures { OnOk result (Worked shared.now worker.old worker.new round) }
{
    let role = worker.passes.pool.role();
    gate.at(role, round, 1);
    let lists = batches(alloc, shared.capture, &shared.layout, role, round)?;
    for place in 0..lists.len() {
        run_batch(rt, alloc, worker, shared, round, gate, &lists[place])?;
    }
    gate.at(role, round, 4);
    Ok(())
}
