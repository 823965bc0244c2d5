//! Nodes of a segment pool in a height-balanced search tree.
#![tactic(auto)]

mod balance;
mod change;
mod read;
mod spot;
#[cfg(test)]
mod tests;
mod tree;

pub use spot::Spot;
pub use tree::{Run, SegmentTree};
