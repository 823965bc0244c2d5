//! The manager's part of a round: the buckets are swept for flows that have expired, and an emergency may end.
#![tactic(auto)]

mod calls;
mod round;

pub use round::sweep_all;
