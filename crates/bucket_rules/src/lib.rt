//! What the history of a bucket says: who may call it, what each entry has to be in its place, and what it makes of each run.
//!
//! There is no code here but what names the fixed part: the rules stand in `specs`, and what every legal history keeps in `proofs`.
#![tactic(auto)]

mod fixed;

pub use fixed::Fixed;
