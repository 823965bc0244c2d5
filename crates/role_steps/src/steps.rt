//! One step of a role on one lock.
ghost use Rattle.std.specs.Prelude.{◌≡◌, ℕ, ◌+◌, ◌<◌, ◌^◌, IfOk, length, slice_index_or};
ghost use Rattle.flow_pool.specs.Pool.{FlowPoolMay, setting_of};
ghost use Rattle.hist_lock.specs.Locks.{made_with};
ghost use Rattle.role_steps.specs.Calls.{CalledPool, CalledSegments, CalledBucket};
ghost use Rattle.role_steps.specs.Roles.{Fits, IsShared, MayOnBucket, number_of, seen};
ghost use Rattle.segment_pool.specs.Pool.{PoolMay as SegPoolMay, limit_of};

use crate::roles::{Passes, Shared};
use flow_bucket::{BucketCall, BucketReply};
use flow_pool::{PoolCall, PoolReply};
use segment_pool::{SegCall, SegReply};
use std::sync::Wait;
use suri_base::NoMemory;

/// Makes a call on the pool of flow objects. It waits for the lock.
///
/// # Errors
///
/// `NoMemory`.
pub fn call_pool<'c, R: Wait>(
    rt: &R,
    passes: &mut Passes<'c>,
    shared: &Shared<'c>,
    call: PoolCall,
) -> Result<PoolReply, NoMemory>
    requires fits { Fits shared.now passes.old }
    requires may { FlowPoolMay (setting_of (made_with shared.now.pool)) (number_of passes.old) (seen passes.old).pool call }
    requires steps { passes.old.step + 1 < 2 ^ 64 }
    ensures { IfOk result (λ reply. CalledPool shared.now passes.old passes.new call reply) }
{
    let step = passes.step;
    match shared.pool.apply(rt, &mut passes.pool, step, call) {
        Ok(reply) => {
            passes.step = step + 1;
            Ok(reply)
        }
        Err(_) => Err(NoMemory),
    }
}

/// Makes a call on the pool of segment nodes. It waits for the lock.
///
/// # Errors
///
/// `NoMemory`.
pub fn call_segments<'c, R: Wait>(
    rt: &R,
    passes: &mut Passes<'c>,
    shared: &Shared<'c>,
    call: SegCall,
) -> Result<SegReply, NoMemory>
    requires fits { Fits shared.now passes.old }
    requires may { SegPoolMay (limit_of (made_with shared.now.segments)) (number_of passes.old) (seen passes.old).segments call }
    requires steps { passes.old.step + 1 < 2 ^ 64 }
    ensures { IfOk result (λ reply. CalledSegments shared.now passes.old passes.new call reply) }
{
    let step = passes.step;
    match shared.segments.apply(rt, &mut passes.segments, step, call) {
        Ok(reply) => {
            passes.step = step + 1;
            Ok(reply)
        }
        Err(_) => Err(NoMemory),
    }
}

/// Makes a call on bucket `at`. It waits for the lock.
///
/// # Errors
///
/// `NoMemory`.
pub fn call_bucket<'c, R: Wait>(
    rt: &R,
    passes: &mut Passes<'c>,
    shared: &Shared<'c>,
    at: usize,
    call: BucketCall,
) -> Result<BucketReply, NoMemory>
    requires fits { Fits shared.now passes.old }
    requires shared { IsShared shared.now }
    requires at { at < length shared.now.buckets.items }
    requires may { MayOnBucket shared.now passes.old at call }
    requires steps { passes.old.step + 1 < 2 ^ 64 }
    ensures { IfOk result (λ reply. CalledBucket shared.now passes.old passes.new at call reply) }
{
    let step = passes.step;
    let pass = &mut passes.buckets[at];
    match shared.buckets[at].apply(rt, pass, step, call) {
        Ok(reply) => {
            passes.step = step + 1;
            Ok(reply)
        }
        Err(_) => Err(NoMemory),
    }
}
