//! Flow objects: what is kept of a flow while its packets come, and the record that is made of it when it ends.
//!
//! An object is used for one run of packets after another. What it keeps of a run is what the run's packets and the
//! verdicts on them say, whatever the object held before. Where a packet has to wait for bytes before it, the caller lends
//! a node or stops the stream.
#![tactic(auto)]

mod direction;
mod finish;
mod object;
mod outcome;
#[cfg(test)]
mod tests;

pub use finish::finish_flow;
pub use object::FlowObj;
pub use outcome::{Ended, Finished, FlowLine};
