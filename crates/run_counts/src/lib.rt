//! What a run of the engine counts: of the frames, of the flow records made of them, and of what the machines went through. And the law that the
//! counts add up.
#![tactic(auto)]

mod counts;
mod frames;
mod histories;
mod laws;
mod records;
mod stats;
#[cfg(test)]
mod tests;

pub use laws::counts_add_up;
pub use stats::stats_of;
