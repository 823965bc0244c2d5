//! The flows of a bucket in slots: what is looked for among them, and each change of one of them.
#![tactic(auto)]

mod counts;
mod due;
mod ended;
mod room;
mod sweeps;
mod table;
#[cfg(test)]
mod tests;

pub use due::Due;
pub use table::FlowTable;
