//! A capture from the bytes of its file: each frame is decoded, has the capture clock, and names the next one of its key.
//! And which frames a worker takes of it, round by round, in batches.
#![tactic(auto)]

mod by_key;
mod capture;
mod dealing;
mod decode;
mod firsts;
mod links;
mod pieces;
#[cfg(test)]
mod tests;

pub use capture::index;
pub use dealing::{batches, rounds};
pub use suri_base::{bucket_of, round_of, worker_of};
