//! The segment pool: a fixed number of nodes, all made at the start, as a machine that lends them and takes them back.
#![tactic(auto)]

mod calls;
mod laws;
mod pool;
#[cfg(test)]
mod tests;

pub use calls::{SegCall, SegReply};
pub use laws::keeps_rules;
pub use pool::SegmentPool;
