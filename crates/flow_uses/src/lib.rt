//! The frames that use a flow now: a flow stays while there is one.
#![tactic(auto)]

#[cfg(test)]
mod tests;
mod uses;

pub use uses::Uses;
