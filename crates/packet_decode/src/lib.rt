//! Reads captured frames: link header, VLAN tags, IP header, transport header.
#![tactic(auto)]

pub mod laws;
mod link;
mod tags;
#[cfg(test)]
mod tests;
mod whole;
#[cfg(test)]
mod whole_tests;

pub use whole::{View, decode};
