//! An object is had for a frame that found no run.
ghost use Rattle.std.specs.Prelude.{◌≡◌, ◌<◌, [], IfOk, OnOk, length};
ghost use Rattle.flow_worker.specs.Looking.{IsIdleObject, TookObject};
ghost use Rattle.flow_worker.specs.Standing.{Goes, MayGo};
ghost use Rattle.flow_worker.specs.Places.{is_missed, is_turning, to_granted};
ghost use Rattle.role_steps.specs.Roles.{IsShared};

use flow_object::FlowObj;
use flow_pool::{PoolCall, PoolReply};
use role_steps::{Shared, Worker, call_pool, close_out};
use std::sync::Wait;
use suri_base::NoMemory;

/// Finishes the flow in front of the hand, which isn't empty, and turns its object to the run that begins with the frame.
///
/// # Errors
///
/// `NoMemory`.
pub(crate) fn turn<'c, R: Wait>(
    rt: &R,
    worker: &mut Worker<'c>,
    shared: &Shared<'c>,
    no: u32,
) -> Result<Box<FlowObj>, NoMemory>
    requires shared { IsShared shared.now }
    requires stands { MayGo shared.now worker.old (is_turning no) }
    requires waits { 0 < length worker.old.hand.items }
    ensures object { IfOk result (λ o. IsIdleObject shared.now o.value) }
    ensures goes { OnOk result (Goes shared.now worker.old worker.new (is_turning no) (to_granted no) []) }
{
    let Some(ended) = worker.hand.pop_front() else {
        unreachable!();
    };
    let run = ended.run;
    let obj = close_out(rt, &mut worker.passes, &mut worker.lines, shared, ended)?;
    match call_pool(
        rt,
        &mut worker.passes,
        shared,
        PoolCall::Turn { run, no, obj },
    )? {
        PoolReply::Turned(obj) => Ok(obj),
        _ => unreachable!(),
    }
}

/// Asks the pool for an object. `None` where it has none left.
///
/// # Errors
///
/// `NoMemory`.
pub(crate) fn take<'c, R: Wait>(
    rt: &R,
    worker: &mut Worker<'c>,
    shared: &Shared<'c>,
    no: u32,
) -> Result<Option<Box<FlowObj>>, NoMemory>
    requires shared { IsShared shared.now }
    requires stands { MayGo shared.now worker.old (is_missed no) }
    ensures { IfOk result (λ o. TookObject shared.now worker.old worker.new no o) }
{
    match call_pool(rt, &mut worker.passes, shared, PoolCall::Take { no })? {
        PoolReply::Obj(obj) => Ok(Some(obj)),
        PoolReply::Full { .. } => Ok(None),
        _ => unreachable!(),
    }
}
