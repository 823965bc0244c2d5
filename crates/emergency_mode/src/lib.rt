//! The emergency mode: whether flows have run out, and too few are free again.
#![tactic(auto)]

mod emergency;
#[cfg(test)]
mod tests;

pub use emergency::Emergency;
