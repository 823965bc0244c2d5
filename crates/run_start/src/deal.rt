//! The passes of all locks are dealt out to the roles.
ghost use Rattle.std.specs.Prelude.{◌≡◌, ℕ, ◌+◌, ◌<◌, ◌≤◌, IfOk, length, slice_index_or};
ghost use Rattle.flow_bucket.specs.Bucket.{fixed_of};
ghost use Rattle.flow_bucket.specs.Stands.{BucketMay, BucketAnswers};
ghost use Rattle.flow_pool.specs.Pool.{FlowPoolMay, FlowPoolAnswers, setting_of};
ghost use Rattle.lock_rows.specs.Rows.{AreNewRows, IsFresh, IsGood};
ghost use Rattle.run_start.specs.Starting.{AreNewBack};
ghost use Rattle.segment_pool.specs.Pool.{PoolMay as SegPoolMay, PoolAnswers as SegPoolAnswers, limit_of};

use flow_bucket::FlowBucket;
use flow_pool::FlowPool;
use hist_lock::Pass;
use role_steps::{Passes, Shared};
use segment_pool::SegmentPool;
use std::alloc::Global;
use suri_base::NoMemory;

/// What each role holds, from the last role to the first. The passes of each lock are handed in in order of role.
///
/// # Errors
///
/// `NoMemory`.
pub(crate) fn deal<'c>(
    alloc: Global,
    shared: &Shared<'c>,
    mut pools: Vec<Pass<FlowPool>>,
    mut segments: Vec<Pass<SegmentPool>>,
    mut rows: Vec<Vec<Pass<FlowBucket<'c>>>>,
) -> Result<Vec<Passes<'c>>, NoMemory>
    requires few { shared.now.layout.workers ≤ 64 }
    requires many { length pools.items ≡ shared.now.layout.workers + 3 }
    requires even { (length segments.items ≡ length pools.items) × (length rows.items ≡ length pools.items) }
    requires pools { (k : ℕ) (d : _) → k < length pools.items
        → IsGood setting_of FlowPoolMay FlowPoolAnswers k shared.now.pool (slice_index_or pools.items k d) × IsFresh (slice_index_or pools.items k d) }
    requires segments { (k : ℕ) (d : _) → k < length segments.items
        → IsGood limit_of SegPoolMay SegPoolAnswers k shared.now.segments (slice_index_or segments.items k d) × IsFresh (slice_index_or segments.items k d) }
    requires rows { AreNewRows fixed_of BucketMay BucketAnswers shared.now.buckets.items rows.items }
    ensures count { IfOk result (λ all. length all.items ≡ shared.now.layout.workers + 3) }
    ensures new { IfOk result (λ all. AreNewBack shared.now (shared.now.layout.workers + 3) all.items) }
{
    let count = shared.layout.workers as usize + 3;
    let mut all = Vec::with_capacity(alloc, count)?;
    while let Some(pool) = pools.pop() {
        let Some(nodes) = segments.pop() else {
            unreachable!()
        };
        let Some(buckets) = rows.pop() else {
            unreachable!()
        };
        all.push_reserved(Passes {
            pool,
            segments: nodes,
            buckets,
            step: 0,
        });
    }
    Ok(all)
}
