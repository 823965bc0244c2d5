//! How much is read, or gathered, at once.

/// How many bytes are asked for at a read, and how many are gathered before a write: 64 KiB.
pub const BLOCK: usize = 65536;
