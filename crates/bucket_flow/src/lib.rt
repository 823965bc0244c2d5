//! A flow of a bucket: what is kept of it, and each change of it.
#![tactic(auto)]

mod facts;
mod flow;

pub use facts::facts_of;
pub use flow::{Cause, Flow};
