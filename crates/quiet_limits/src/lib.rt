//! Which limits are wide enough: with as many flow objects as frames that bear a flow, and as many segment nodes as TCP segments with payload,
//! a run never is short of either.
//!
//! There is no code here but a function that does nothing, whose contract is the law.
#![tactic(auto)]

mod laws;

pub use laws::wide_limits_are_quiet;
