//! When a run of packets is over for the next packet of its key: because it has expired, or because the packet opens a
//! connection by the key of a run that is closed. Told by the object that keeps the run.
#![tactic(auto)]

mod expiry;
mod reuse;

pub use expiry::has_expired;
pub use reuse::reuses_key;
