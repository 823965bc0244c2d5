//! The end of a run: when the end role may begin, and that the whole histories make a lawful trail.
#![tactic(auto)]

mod laws;

pub use laws::{end_may_begin, run_is_lawful};
