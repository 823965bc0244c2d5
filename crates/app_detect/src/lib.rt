//! Which application protocol a packet's payload shows. Only its first bytes are looked at, and nothing is remembered.
#![tactic(auto)]

mod formats;
mod packet;
#[cfg(test)]
mod tests;

pub use packet::verdict;
