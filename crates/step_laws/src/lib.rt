//! How a trail that is lawful so far goes on, step by step, and where what waits comes from.
//!
//! There is no code here but functions that do nothing, whose contracts are the laws.
#![tactic(auto)]

mod laws;

pub use laws::{rounds_pass, runs_begin, steps_stay_lawful, what_waits_has_left};
