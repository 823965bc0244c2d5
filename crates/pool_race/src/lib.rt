//! Callers of a lock, for any machine and for the segment pool, in one thread and in two.
#![tactic(auto)]

mod calls;
mod nodes;
mod race;
#[cfg(test)]
mod tests;

pub use calls::{call_once, two_calls};
pub use nodes::{give, take};
pub use race::{finish_two, in_two_threads};
