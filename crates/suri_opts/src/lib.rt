//! The words of the command line, and what they choose.
#![tactic(auto)]

mod building;
mod reading;
#[cfg(test)]
mod tests;
mod types;

pub use reading::options;
pub use types::{Options, WordFault};
