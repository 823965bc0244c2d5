//! All that a run needs is made.
ghost use Rattle.std.specs.Prelude.{IfOk};
ghost use Rattle.run_laws.specs.Setting.{IsLayout};
ghost use Rattle.run_start.specs.Starting.{IsStarted};
ghost use Rattle.suri_base.specs.Capture.{IsCapture};

use crate::buckets::make_buckets;
use crate::cast::cast_all;
use crate::deal::deal;
use flow_pool::FlowPool;
use hist_lock::HistLock;
use role_meets::Role;
use role_steps::{Recycler, Shared};
use segment_pool::SegmentPool;
use std::alloc::Global;
use suri_base::{Capture, Layout, NoMemory};

/// Makes all that a run over the capture needs before its first round: the pool of flow objects, the pool of segment nodes and the
/// buckets of the flow table, each under its lock, and the roles that share them. The workers come first, then the manager and the
/// recycler; the role that ends the run stands apart. None has done anything yet.
///
/// `prealloc` is how many flow objects are made here, though never more than `memcap`; the others are made when packets ask for
/// them. All `segments` nodes are made here.
///
/// # Errors
///
/// `NoMemory`; then all that was made is given up.
pub fn start<'c>(
    alloc: Global,
    capture: &'c Capture,
    layout: Layout,
    prealloc: u32,
) -> Result<(Shared<'c>, Vec<Role<'c>>, Recycler<'c>), NoMemory>
    requires capture { IsCapture capture.now }
    requires layout { IsLayout layout }
    ensures { IfOk result (λ t. IsStarted (record { capture = capture.now; layout = layout }) t.0 t.1.items t.2) }
{
    let roles = layout.workers + 3;
    let objects = FlowPool::new(
        alloc,
        layout.memcap,
        prealloc,
        layout.recovery,
        layout.depth,
    )?;
    let (pool, pool_passes) = HistLock::new(alloc, objects, roles)?;
    let nodes = SegmentPool::new(alloc, layout.segments)?;
    let (segments, segment_passes) = HistLock::new(alloc, nodes, roles)?;
    let (buckets, bucket_passes) = make_buckets(alloc, capture, layout, roles)?;
    let shared = Shared {
        capture,
        layout,
        pool,
        segments,
        buckets,
    };
    let all = deal(alloc, &shared, pool_passes, segment_passes, bucket_passes)?;
    let (roles, ender) = cast_all(alloc, &shared, all)?;
    Ok((shared, roles, ender))
}
