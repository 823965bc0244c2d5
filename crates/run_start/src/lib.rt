//! The machines of a run, each under its lock, and the roles that share them.
#![tactic(auto)]

mod buckets;
mod cast;
mod deal;
mod run;
#[cfg(test)]
mod tests;

pub use run::start;
