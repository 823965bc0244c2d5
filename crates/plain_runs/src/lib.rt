//! The plain runs of a capture: the packets of each key, cut where a run has expired or where its key is reused, and nowhere else. A run in which nothing was forced out and nothing was refused has just these.
//!
//! There is no code here but functions that do nothing, whose contracts are the laws.
#![tactic(auto)]

mod laws;

pub use laws::{
    captures_have_plain_runs, plain_records_count_each_packet, plain_runs_end_by_the_next_packet,
    plain_runs_have_each_packet_once,
};
