//! Streams: the bytes that one end of a TCP connection sends, put in order however its segments were cut, repeated,
//! reordered or overlapped, and digested as they come.
//!
//! A segment that begins beyond the end of the stream waits in a node, and says where its bytes stand in the capture.
//! No byte of a payload is copied.
#![tactic(auto)]

mod chain;
mod digest;
mod offset;
mod stream;
mod stretch;
#[cfg(test)]
mod tests;

pub use segment_tree::Spot;
pub use stream::Stream;
