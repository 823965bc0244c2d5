//! A bucket of flows: a machine whose history says what became of each packet of its keys.
#![tactic(auto)]

mod bucket;
mod calls;
mod ends;
mod laws;
mod looks;
#[cfg(test)]
mod tests;

pub use bucket::FlowBucket;
pub use calls::{BucketCall, BucketReply};
pub use laws::keeps_rules;
