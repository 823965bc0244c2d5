//! What the sweep of a round leaves in a bucket: no flow that had timed out by then.
//!
//! There is no code here but a function that does nothing, whose contract is the law.
#![tactic(auto)]

mod laws;

pub use laws::sweeps_leave_none_expired;
