//! The roles of a round, and how they tell each other after a round what they have seen.
#![tactic(auto)]

mod meets;
mod roles;

pub use meets::meet_all;
pub use roles::{Part, Role};
