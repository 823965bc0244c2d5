//! What every legal history of a bucket says: of the runs that began in it and left, of the packets of each key, and of how runs ended.
//!
//! There is no code here but functions that do nothing, whose contracts are the laws.
#![tactic(auto)]

mod laws;

pub use laws::{
    drained_buckets_are_empty, leaving_runs_are_listed, nodes_come_back,
    packets_are_answered_in_order, packets_are_counted_once, packets_are_cut, runs_have_ends,
    runs_leave_once, runs_left_are_let_alone,
};
