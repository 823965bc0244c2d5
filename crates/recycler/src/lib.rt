//! The recycler's part of a round, and the end of a run: flows that left are finished.
#![tactic(auto)]

mod end;
mod round;
mod serve;

pub use end::drain_all;
pub use round::recycle;
