//! The fields of packet headers: numbers in network order (RFC 791, appendix B).
#![tactic(auto)]

mod fields;
#[cfg(test)]
mod tests;

pub use fields::{address_at, half_at, word_at};
