//! A flow is to leave for a frame for which no object is left.
ghost use Rattle.std.specs.Prelude.{◌≡◌, ℕ, ◌+◌, ◌%◌, ◌<◌, ◌≤◌, true, false, if◌then◌else◌, [], IfOk, length};
ghost use Rattle.flow_worker.specs.Looking.{Evicted, TriedBucket};
ghost use Rattle.flow_worker.specs.Places.{is_evicting};
ghost use Rattle.flow_worker.specs.Standing.{MayGo};
ghost use Rattle.role_steps.specs.Roles.{IsShared, setup_of};
ghost use Rattle.run_rules.specs.Setup.{bucket_for};

use flow_bucket::{BucketCall, BucketReply};
use role_steps::{Shared, Worker, call_bucket};
use std::sync::Wait;
use suri_base::NoMemory;

/// Asks one bucket to let a flow go, which then is in the hand. `false` where it has none to let go.
///
/// # Errors
///
/// `NoMemory`.
fn evict_at<'c, R: Wait>(
    rt: &R,
    worker: &mut Worker<'c>,
    shared: &Shared<'c>,
    at: usize,
    tried: u32,
    no: u32,
) -> Result<bool, NoMemory>
    requires shared { IsShared shared.now }
    requires at { at < length shared.now.buckets.items }
    requires turn { (tried < shared.now.layout.rows) × (at ≡ (bucket_for (setup_of shared.now) no + tried) % shared.now.layout.rows) }
    requires stands { MayGo shared.now worker.old (is_evicting shared.now.layout.rows tried no) }
    ensures { IfOk result (λ found. TriedBucket shared.now worker.old worker.new tried no found) }
{
    match call_bucket(rt, &mut worker.passes, shared, at, BucketCall::Evict { no })? {
        BucketReply::Victim(ended) => {
            worker.hand.push_back(ended)?;
            Ok(true)
        }
        BucketReply::AllInUse(_) => Ok(false),
        _ => unreachable!(),
    }
}

/// Asks the buckets in turn, from the frame's own on, to let a flow go, which then is in the hand. `false` where none has one.
///
/// # Errors
///
/// `NoMemory`.
pub(crate) fn evict<'c, R: Wait>(
    rt: &R,
    worker: &mut Worker<'c>,
    shared: &Shared<'c>,
    home: u32,
    no: u32,
) -> Result<bool, NoMemory>
    requires shared { IsShared shared.now }
    requires home { (home < shared.now.layout.rows) × (home ≡ bucket_for (setup_of shared.now) no) }
    requires few { shared.now.layout.rows ≤ 4096 }
    requires stands { MayGo shared.now worker.old (is_evicting shared.now.layout.rows 0 no) }
    ensures { IfOk result (λ found. Evicted shared.now worker.old worker.new no found) }
{
    let rows = shared.layout.rows;
    for tried in 0..rows {
        let at = (home + tried) % rows;
        let found = evict_at(rt, worker, shared, at as usize, tried, no)?;
        if found {
            return Ok(true);
        }
    }
    Ok(false)
}
