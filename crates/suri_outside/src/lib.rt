//! What lies outside the engine: where bytes come from, where they go, and a gate between the
//! steps of its roles.
//!
//! Each source and each sink keeps a count of its faults, so that whoever answers for a run can
//! show by that count that a read or a write failed.
#![tactic(auto)]

mod adapters;
mod block;
mod gates;
mod gathering;
mod memory;
mod pair_gate;
mod reading;
mod repeat;
#[cfg(test)]
mod tests;
mod traits;
mod writing;

pub use adapters::{StdSink, StdSource};
pub use block::BLOCK;
pub use gates::{Gate, OpenGate};
pub use gathering::{Gathered, Unwritten};
pub use memory::{MemSink, MemSource};
pub use pair_gate::PairGate;
pub use reading::{Unread, read_whole};
pub use repeat::RepeatSource;
pub use traits::{Failed, Sink, Source};
pub use writing::write_whole;
