//! A flow that left is finished.
ghost use Rattle.std.specs.Prelude.{◌≡◌, ◌+◌, ◌<◌, ◌^◌, ◌++◌, [], ◌∷◌, OnOk, IfOk, length};
ghost use Rattle.flow_object.specs.Object.{nodes_in};
ghost use Rattle.flow_object.specs.declared.outcome.FlowLine.{FlowLine};
ghost use Rattle.role_steps.specs.Finishing.{IsFinished, IsLineFor, MayFinish, given};
ghost use Rattle.role_steps.specs.Roles.{Acted, Fits, IsShared, setup_of};

use crate::roles::{Passes, Shared};
use crate::steps::{call_pool, call_segments};
use flow_object::{Ended, Finished, FlowLine, FlowObj, finish_flow};
use flow_pool::PoolCall;
use segment_pool::SegCall;
use std::sync::Wait;
use suri_base::{NoMemory, Segments};

/// Gives nodes back, where there are any.
///
/// # Errors
///
/// `NoMemory`.
pub fn give_back<'c, R: Wait>(
    rt: &R,
    passes: &mut Passes<'c>,
    shared: &Shared<'c>,
    nodes: Segments,
) -> Result<(), NoMemory>
    requires fits { Fits shared.now passes.old }
    requires few { length nodes < 2 ^ 32 }
    requires steps { passes.old.step + 1 < 2 ^ 64 }
    ensures { OnOk result (Acted shared.now passes.old passes.new (given (length nodes))) }
{
    if nodes.is_empty() {
        return Ok(());
    }
    call_segments(rt, passes, shared, SegCall::Give { nodes })?;
    Ok(())
}

/// Makes the line of a flow that left, and gives its nodes back. Its object is handed out, to be put into the pool or turned to another run.
///
/// # Errors
///
/// `NoMemory`.
pub fn close_out<'c, R: Wait>(
    rt: &R,
    passes: &mut Passes<'c>,
    lines: &mut Vec<FlowLine>,
    shared: &Shared<'c>,
    ended: Ended,
) -> Result<Box<FlowObj>, NoMemory>
    requires fits { Fits shared.now passes.old }
    requires few { nodes_in ended.obj < 2 ^ 32 }
    requires steps { passes.old.step + 1 < 2 ^ 64 }
    ensures acted { OnOk result (Acted shared.now passes.old passes.new (given (nodes_in ended.obj))) }
    ensures object { IfOk result (λ o. (nodes_in o.value ≡ 0) × (o.value.depth ≡ ended.obj.depth)) }
    ensures line { OnOk result ((l : FlowLine) × (lines.new.items ≡ lines.old.items ++ l ∷ []) × IsLineFor ended l) }
{
    let Finished { line, obj, freed } = finish_flow(ended);
    give_back(rt, passes, shared, freed)?;
    lines.push(line)?;
    Ok(obj)
}

/// Makes the line of a flow that left, and gives its nodes and its object back.
///
/// # Errors
///
/// `NoMemory`.
pub fn finish_one<'c, R: Wait>(
    rt: &R,
    passes: &mut Passes<'c>,
    lines: &mut Vec<FlowLine>,
    shared: &Shared<'c>,
    ended: Ended,
) -> Result<(), NoMemory>
    requires fits { Fits shared.now passes.old }
    requires shared { IsShared shared.now }
    requires object { MayFinish (setup_of shared.now) ended }
    requires steps { passes.old.step + 2 < 2 ^ 64 }
    ensures finished { OnOk result (IsFinished shared.now passes.old passes.new ended) }
    ensures line { OnOk result ((l : FlowLine) × (lines.new.items ≡ lines.old.items ++ l ∷ []) × IsLineFor ended l) }
{
    let run = ended.run;
    let obj = close_out(rt, passes, lines, shared, ended)?;
    call_pool(rt, passes, shared, PoolCall::Put { run, obj })?;
    Ok(())
}
