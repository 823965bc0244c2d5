//! A batch of packets.
ghost use Rattle.std.specs.Prelude.{◌≡◌, ℕ, Bool, ◌+◌, ◌<◌, ◌^◌, [], ◌∷◌, IfOk, OnOk, length};
ghost use Rattle.flow_worker.specs.Batching.{ClosedSome, DidBatch, LookedSome, MayBegin, MayPass, is_begun, is_looked};
ghost use Rattle.flow_worker.specs.Places.{is_closing, to_closing};
ghost use Rattle.flow_worker.specs.Standing.{Goes, MayGo};
ghost use Rattle.flow_worker.specs.Telling.{AreTold, IsTold};
ghost use Rattle.role_steps.specs.Roles.{Acted, Fits, IsShared};
ghost use Rattle.run_rules.specs.Acts.{on_pool};
ghost use Rattle.suri_base.specs.declared.entry.PoolNote.TheVariants.{Mode};

use crate::close::close;
use crate::look::{home_of, look_up};
use crate::verdict::verdict_on;
use flow_pool::{PoolCall, PoolReply};
use role_steps::{Passes, Shared, Worker, call_pool};
use std::alloc::Global;
use std::sync::Wait;
use suri_base::NoMemory;
use suri_outside::Gate;

// Reads whether there is an emergency, and how long the pool's history was then.
fn read_mode<'c, R: Wait>(
    rt: &R,
    passes: &mut Passes<'c>,
    shared: &Shared<'c>,
) -> Result<(bool, u64), NoMemory>
    requires fits { Fits shared.now passes.old }
    requires steps { passes.old.step + 1 < 2 ^ 64 }
    ensures { IfOk result (λ t. Acted shared.now passes.old passes.new (on_pool (Mode t.0) t.1 ∷ [])) }
{
    match call_pool(rt, passes, shared, PoolCall::Mode)? {
        PoolReply::On(on) => Ok((on, passes.pool.seen())),
        _ => unreachable!(),
    }
}

// Looks up the packets of a batch, in order. It answers which of them were refused.
fn look_all<'c, R: Wait>(
    rt: &R,
    alloc: Global,
    worker: &mut Worker<'c>,
    shared: &Shared<'c>,
    batch: &[u32],
    emergency: bool,
    seen: u64,
) -> Result<Vec<bool>, NoMemory>
    requires shared { IsShared shared.now }
    requires stands { MayPass shared.now worker.old (is_begun batch.now emergency seen) }
    ensures { IfOk result (λ refused. LookedSome shared.now worker.old worker.new batch.now emergency seen (length batch.now) refused.items) }
{
    let mut refused = Vec::with_capacity(alloc, batch.len())?;
    for place in 0..batch.len() {
        let was_refused = look_up(rt, worker, shared, batch[place], emergency, seen)?;
        refused.push(was_refused)?;
    }
    Ok(refused)
}

// Closes a packet. The verdict is made outside all locks.
fn close_one<'c, R: Wait>(
    rt: &R,
    worker: &mut Worker<'c>,
    shared: &Shared<'c>,
    no: u32,
    refused: bool,
) -> Result<(), NoMemory>
    requires shared { IsShared shared.now }
    requires stands { MayGo shared.now worker.old (is_closing no) }
    requires told { IsTold shared.now worker.old no refused }
    ensures { OnOk result (Goes shared.now worker.old worker.new (is_closing no) to_closing []) }
{
    let home = home_of(shared, no);
    let app = verdict_on(shared, no, refused);
    close(rt, worker, shared, home as usize, no, app)?;
    Ok(())
}

// Closes the packets of a batch, in order, each with its verdict.
fn close_all<'c, R: Wait>(
    rt: &R,
    worker: &mut Worker<'c>,
    shared: &Shared<'c>,
    batch: &[u32],
    refused: &[bool],
) -> Result<(), NoMemory>
    requires shared { IsShared shared.now }
    requires some { 0 < length batch.now }
    requires stands { MayPass shared.now worker.old (is_looked batch.now) }
    requires told { AreTold shared.now worker.old batch.now refused.now }
    requires count { length refused.now ≡ length batch.now }
    ensures { OnOk result (ClosedSome shared.now worker.old worker.new batch.now (length batch.now) refused.now) }
{
    for place in 0..batch.len() {
        close_one(rt, worker, shared, batch[place], refused[place])?;
    }
    Ok(())
}

/// Runs a batch: by one reading of the mode its packets are looked up, and then they are closed. The gate is told of both.
///
/// # Errors
///
/// `NoMemory`.
pub(crate) fn run_batch<'c, R: Wait, G: Gate>(
    rt: &R,
    alloc: Global,
    worker: &mut Worker<'c>,
    shared: &Shared<'c>,
    round: u32,
    gate: &G,
    batch: &[u32],
) -> Result<(), NoMemory>
    requires shared { IsShared shared.now }
    requires begins { MayBegin shared.now worker.old batch.now }
    ensures { OnOk result (DidBatch shared.now worker.old worker.new batch.now) }
{
    let role = worker.passes.pool.role();
    let (emergency, seen) = read_mode(rt, &mut worker.passes, shared)?;
    let refused = look_all(rt, alloc, worker, shared, batch, emergency, seen)?;
    gate.at(role, round, 2);
    close_all(rt, worker, shared, batch, &refused)?;
    gate.at(role, round, 3);
    Ok(())
}
