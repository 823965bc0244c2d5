//! What a run of the engine counts, and what these counts are of.
#![tactic(auto)]

mod stats;
#[cfg(test)]
mod tests;

pub use stats::Stats;
