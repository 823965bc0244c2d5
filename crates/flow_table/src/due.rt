//! When a flow is due.

/// The flow that is due first: the last clock at which it hasn't expired, in nanoseconds since 1970-01-01T00:00:00 UTC,
/// and its run.
#[derive(Clone, Copy, Debug, PartialEq, Eq)]
pub struct Due {
    pub deadline: u64,
    pub run: u32,
}
