//! A packet's offer is settled.
ghost use Rattle.std.specs.Prelude.{◌≡◌, ◌<◌, true, false, [], OnOk, length};
ghost use Rattle.flow_worker.specs.Places.{is_asking, is_settling, to_next};
ghost use Rattle.flow_worker.specs.Standing.{Goes, MayGo};
ghost use Rattle.role_steps.specs.Roles.{IsShared, setup_of};
ghost use Rattle.run_rules.specs.Setup.{bucket_for};
ghost use Rattle.suri_base.specs.Chain.{IsAlone};

use flow_bucket::{BucketCall, BucketReply};
use role_steps::{Shared, Worker, call_bucket, call_segments};
use segment_pool::{SegCall, SegReply};
use std::sync::Wait;
use suri_base::{NoMemory, Segment};

// Hands the node that was had to the bucket.
fn store<'c, R: Wait>(
    rt: &R,
    worker: &mut Worker<'c>,
    shared: &Shared<'c>,
    at: usize,
    no: u32,
    node: Box<Segment>,
) -> Result<(), NoMemory>
    requires shared { IsShared shared.now }
    requires at { (at < length shared.now.buckets.items) × (at ≡ bucket_for (setup_of shared.now) no) }
    requires alone { IsAlone node.value }
    requires stands { MayGo shared.now worker.old (is_settling true no) }
    ensures { OnOk result (Goes shared.now worker.old worker.new (is_settling true no) to_next []) }
{
    let node = Some(node);
    match call_bucket(
        rt,
        &mut worker.passes,
        shared,
        at,
        BucketCall::Segment { no, node },
    )? {
        BucketReply::Stored => Ok(()),
        _ => unreachable!(),
    }
}

// No node was had: the packet's stream stops.
fn stop<'c, R: Wait>(
    rt: &R,
    worker: &mut Worker<'c>,
    shared: &Shared<'c>,
    at: usize,
    no: u32,
) -> Result<(), NoMemory>
    requires shared { IsShared shared.now }
    requires at { (at < length shared.now.buckets.items) × (at ≡ bucket_for (setup_of shared.now) no) }
    requires stands { MayGo shared.now worker.old (is_settling false no) }
    ensures { OnOk result (Goes shared.now worker.old worker.new (is_settling false no) to_next []) }
{
    let node = None;
    match call_bucket(
        rt,
        &mut worker.passes,
        shared,
        at,
        BucketCall::Segment { no, node },
    )? {
        BucketReply::Stopped => Ok(()),
        _ => unreachable!(),
    }
}

/// Asks for a node for a packet that needs one, and hands it to the bucket; where none is left, the packet's stream stops.
///
/// # Errors
///
/// `NoMemory`.
pub(crate) fn settle<'c, R: Wait>(
    rt: &R,
    worker: &mut Worker<'c>,
    shared: &Shared<'c>,
    at: usize,
    no: u32,
) -> Result<(), NoMemory>
    requires shared { IsShared shared.now }
    requires at { (at < length shared.now.buckets.items) × (at ≡ bucket_for (setup_of shared.now) no) }
    requires stands { MayGo shared.now worker.old (is_asking no) }
    ensures { OnOk result (Goes shared.now worker.old worker.new (is_asking no) to_next []) }
{
    match call_segments(rt, &mut worker.passes, shared, SegCall::Take { no })? {
        SegReply::Node(node) => {
            store(rt, worker, shared, at, no, node)?;
            Ok(())
        }
        SegReply::Full { .. } => {
            stop(rt, worker, shared, at, no)?;
            Ok(())
        }
        SegReply::Gave => unreachable!(),
    }
}
