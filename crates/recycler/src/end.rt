//! The end of a run.
ghost use Rattle.std.specs.Prelude.{◌≡◌, ◌+◌, ◌<◌, ◌^◌, ◌++◌, [], OnOk, length};
ghost use Rattle.flow_bucket.specs.declared.calls.BucketCall.TheVariants.{Drain};
ghost use Rattle.recycler.specs.Draining.{DrainedAll, DrainedOne, MayDrainAll};
ghost use Rattle.role_steps.specs.Roles.{Fits, IsShared, MayOnBucket};

use crate::serve::serve;
use flow_bucket::{BucketCall, BucketReply};
use flow_object::Ended;
use role_steps::{Recycler, Shared, call_bucket};
use std::collections::VecDeque;
use std::sync::Wait;
use suri_base::NoMemory;

// The flows go to the back of what waits, in their order.
fn queue_up(waiting: &mut VecDeque<Ended>, flows: Vec<Ended>) -> Result<(), NoMemory>
    ensures { OnOk result (waiting.new.items ≡ waiting.old.items ++ flows.items) }
{
    for ended in flows {
        waiting.push_back(ended)?;
    }
    Ok(())
}

// Drains one bucket, and finishes its flows.
fn drain_one<'c, R: Wait>(
    rt: &R,
    ender: &mut Recycler<'c>,
    shared: &Shared<'c>,
    at: usize,
) -> Result<(), NoMemory>
    requires shared { IsShared shared.now }
    requires fits { Fits shared.now ender.old.passes }
    requires at { at < length shared.now.buckets.items }
    requires may { MayOnBucket shared.now ender.old.passes at Drain }
    requires waiting { ender.old.waiting.items ≡ [] }
    requires steps { ender.old.passes.step < 2 ^ 62 }
    ensures { OnOk result (DrainedOne shared.now ender.old ender.new at) }
{
    match call_bucket(rt, &mut ender.passes, shared, at, BucketCall::Drain)? {
        BucketReply::Drained(flows) => {
            queue_up(&mut ender.waiting, flows)?;
            serve(rt, ender, shared)?;
            Ok(())
        }
        _ => unreachable!(),
    }
}

/// Runs the end role: what waits is finished, and then each bucket is drained, by rising number, and its flows are finished before the next.
///
/// # Errors
///
/// `NoMemory`. What was noted so far stands; nothing else is said of the role then.
pub fn drain_all<'c, R: Wait>(
    rt: &R,
    ender: &mut Recycler<'c>,
    shared: &Shared<'c>,
) -> Result<(), NoMemory>
    requires { MayDrainAll shared.now ender.old }
    ensures drained { OnOk result (DrainedAll shared.now ender.old ender.new) }
    ensures waiting { OnOk result (ender.new.waiting.items ≡ []) }
{
    serve(rt, ender, shared)?;
    for at in 0..shared.buckets.len() {
        drain_one(rt, ender, shared, at)?;
    }
    Ok(())
}
