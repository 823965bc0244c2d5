//! A worker's part of a round: its packets are looked up and closed, batch by batch.
#![tactic(auto)]

mod batch;
mod close;
mod evict;
mod look;
mod object;
mod round;
mod settle;
mod verdict;

pub use round::work;
