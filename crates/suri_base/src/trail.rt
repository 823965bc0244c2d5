//! What the machines of a run went through.
use crate::entry::{BucketNote, Entry, PoolNote, SegNote};
use crate::layout::Layout;
use std::marker::Model;

/// The histories of all machines of a run, beside each other, each in the order of time. Contracts see them as lists.
#[derive(Debug, Drop)]
pub struct Trail {
    /// How the run was laid out.
    pub layout: Layout,
    /// What the pool of flow objects went through.
    pub pool: Vec<Entry<PoolNote>>,
    /// What the pool of segment nodes went through.
    pub segments: Vec<Entry<SegNote>>,
    /// What each bucket went through, by its number.
    pub buckets: Vec<Vec<Entry<BucketNote>>>,
}

impl Model for Trail {
    ghost use Rattle.std.specs.Prelude.{map};
    ghost use Rattle.suri_base.specs.Trail.{Trailed};

    ghost Value = { Trailed };

    ghost view = { λ t. record { layout = t.layout; pool = t.pool.items; segments = t.segments.items; buckets = map (λ h. h.items) t.buckets.items } };
}
