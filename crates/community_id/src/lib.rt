//! The Community ID of a flow: a short text by which tools that never spoke with each other name the same
//! flow (Community ID Flow Hashing, version 1).
#![tactic(auto)]

mod digest;
#[cfg(test)]
mod tests;
mod text;

pub use text::community;
