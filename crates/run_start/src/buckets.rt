//! The buckets of a run are made.
ghost use Rattle.std.specs.Prelude.{◌≡◌, ℕ, ◌<◌, ◌≤◌, All, IfOk, length, slice_index_or};
ghost use Rattle.flow_bucket.specs.Bucket.{fixed_of};
ghost use Rattle.flow_bucket.specs.Stands.{BucketMay, BucketAnswers};
ghost use Rattle.hist_lock.specs.Locks.{made_with, roles_of};
ghost use Rattle.lock_rows.specs.Rows.{AreNewRows};

use flow_bucket::FlowBucket;
use hist_lock::{HistLock, Pass};
use lock_rows::{add_lock, empty_rows};
use std::alloc::Global;
use suri_base::{Capture, Layout, NoMemory};

/// The buckets by their numbers, all empty, each under its lock; and for each of so many roles its passes of them.
///
/// # Errors
///
/// `NoMemory`.
pub(crate) fn make_buckets<'c>(
    alloc: Global,
    capture: &'c Capture,
    layout: Layout,
    roles: u32,
) -> Result<
    (
        Vec<HistLock<FlowBucket<'c>>>,
        Vec<Vec<Pass<FlowBucket<'c>>>>,
    ),
    NoMemory,
>
    requires roles { 0 < roles }
    requires workers { 1 ≤ layout.workers }
    ensures count { IfOk result (λ t. length t.0.items ≡ layout.rows) }
    ensures buckets { IfOk result (λ t. (b : ℕ) (d : _) → b < length t.0.items
        → fixed_of (made_with (slice_index_or t.0.items b d)) ≡ record { capture = capture.now; layout = layout; number = b }) }
    ensures roles { IfOk result (λ t. All (λ l. roles_of l ≡ roles) t.0.items) }
    ensures seats { IfOk result (λ t. length t.1.items ≡ roles) }
    ensures rows { IfOk result (λ t. AreNewRows fixed_of BucketMay BucketAnswers t.0.items t.1.items) }
{
    let count = layout.rows as usize;
    let mut locks = Vec::with_capacity(alloc, count)?;
    let mut rows = empty_rows(alloc, roles, count)?;
    for number in 0..layout.rows {
        let bucket = FlowBucket::new(alloc, capture, layout, number);
        add_lock(alloc, bucket, roles, &mut locks, &mut rows)?;
    }
    Ok((locks, rows))
}
