//! The key of a frame: which packets are of one flow, whichever end sent them.
#![tactic(auto)]

mod ends;
mod keyed;
mod pairs;
#[cfg(test)]
mod tests;

pub use keyed::{Keyed, key_of};
pub use suri_base::hash;
