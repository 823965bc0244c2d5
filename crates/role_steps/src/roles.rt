//! The roles, and what they share.
use flow_bucket::FlowBucket;
use flow_object::{Ended, FlowLine};
use flow_pool::FlowPool;
use hist_lock::{HistLock, Pass};
use segment_pool::SegmentPool;
use std::collections::VecDeque;
use suri_base::{Capture, Layout};

/// What all roles share.
#[derive(Drop)]
pub struct Shared<'c> {
    pub capture: &'c Capture,
    pub layout: Layout,
    pub pool: HistLock<FlowPool>,
    pub segments: HistLock<SegmentPool>,
    /// The buckets by their numbers, `layout.rows` of them.
    pub buckets: Vec<HistLock<FlowBucket<'c>>>,
}

/// What one role holds.
#[derive(Drop)]
pub struct Passes<'c> {
    pub pool: Pass<FlowPool>,
    pub segments: Pass<SegmentPool>,
    pub buckets: Vec<Pass<FlowBucket<'c>>>,
    /// The number of the role's next step, over all its locks.
    pub step: u64,
}

/// A worker looks up the packets of its keys.
#[derive(Drop)]
pub struct Worker<'c> {
    pub passes: Passes<'c>,
    /// The flows that left and that it hasn't finished, the oldest in front.
    pub hand: VecDeque<Ended>,
    /// The lines of the flows that it finished.
    pub lines: Vec<FlowLine>,
}

/// The manager sweeps the buckets for flows that have expired.
#[derive(Drop)]
pub struct Manager<'c> {
    pub passes: Passes<'c>,
    /// The flows that left.
    pub hand: Vec<Ended>,
}

/// The recycler finishes flows that left; at the end of a run, the end role does so too.
#[derive(Drop)]
pub struct Recycler<'c> {
    pub passes: Passes<'c>,
    /// The flows that left and that it hasn't finished, the oldest in front.
    pub waiting: VecDeque<Ended>,
    /// The lines of the flows that it finished.
    pub lines: Vec<FlowLine>,
}
