//! What a run says of its capture where it never was short of an object or of a node: nothing is forced out, refused or stopped, and every table is the normal one.
//!
//! There is no code here but functions that do nothing, whose contracts are the laws.
#![tactic(auto)]

mod laws;

pub use laws::{
    calm_runs_are_plain, calm_runs_end_plainly, quiet_buckets_are_calm, quiet_counts_are_plain,
    quiet_records_are_plain, quiet_runs_have_no_emergency,
};
