//! The flow pool: a bounded number of flow objects, which are used again and again, as a machine that lends them and takes them
//! back, and tells whether there is an emergency.
#![tactic(auto)]

mod calls;
mod laws;
mod pool;
#[cfg(test)]
mod tests;

pub use calls::{PoolCall, PoolReply, PoolSetting};
pub use laws::keeps_rules;
pub use pool::FlowPool;
