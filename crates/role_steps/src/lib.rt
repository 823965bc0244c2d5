//! What the roles of a run share and hold, one step of a role on one lock, and how a role finishes a flow that left.
#![tactic(auto)]

mod finish;
mod roles;
mod steps;

pub use finish::{close_out, finish_one, give_back};
pub use roles::{Manager, Passes, Recycler, Shared, Worker};
pub use steps::{call_bucket, call_pool, call_segments};
