//! How long a flow may be silent before it has expired, by its protocol and class, in normal times and in emergency.
#![tactic(auto)]

mod expiry;
mod table;
#[cfg(test)]
mod tests;

pub use expiry::expired;
pub use table::timeout;
