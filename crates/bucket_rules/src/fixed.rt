//! What no call of a bucket changes.
use suri_base::{Capture, Layout};

/// What no call of a bucket changes, as contracts see it. No value of it is made.
#[derive(Drop)]
pub struct Fixed {
    /// The capture whose packets it gets.
    pub capture: Capture,
    /// How the run is laid out.
    pub layout: Layout,
    /// The number of the bucket, from 0.
    pub number: u32,
}
