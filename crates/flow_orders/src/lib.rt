//! The orders of a bucket's flows: by key, by deadline, by age among the unused, and by the frames that use them.
#![tactic(auto)]

mod laws;
mod marks;
mod orders;
#[cfg(test)]
mod tests;
mod walks;

pub use laws::{grows_slots, keeps_uses, may_mend, may_mend_times, may_mend_unused};
pub use marks::{Marks, Times};
pub use orders::Orders;
