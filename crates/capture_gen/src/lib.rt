//! A large capture from a number: the same seed and the same count of frames give the same bytes everywhere.
#![tactic(auto)]

mod capture;
mod conversation;
mod frame;
mod packet;
mod plan;
#[cfg(test)]
mod tests;
mod web;

pub use capture::generate;
