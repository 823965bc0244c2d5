//! A finite map from keys to slots, in the order of the keys.
#![tactic(auto)]

mod chunks;
mod few;
mod order;
mod row;
#[cfg(test)]
mod tests;

pub use order::Order;
