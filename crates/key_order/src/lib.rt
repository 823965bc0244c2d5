//! What orders of flows hold: keys, and ages.
#![tactic(auto)]

mod ages;
mod places;

pub use ages::{Age, tells_ages};
pub use places::{Address, KeyPlace, place, tells_keys};
