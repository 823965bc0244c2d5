//! What every lawful trail of a run says of its records: a record that a role told is that of its run by the whole trail, and the records of
//! all roles are one for each run.
//!
//! There is no code here but functions that do nothing, whose contracts are the laws.
#![tactic(auto)]

mod laws;

pub use laws::{lines_are_records, records_are_whole};
