//! What a pool is asked, and what it replies.
use suri_base::{Segment, Segments};

/// A call to the pool.
#[derive(Drop)]
pub enum SegCall {
    /// A node is asked for, for that frame.
    Take { no: u32 },
    /// Nodes come back.
    Give { nodes: Segments },
}

/// The pool's reply.
#[derive(Drop)]
pub enum SegReply {
    /// A node without links.
    Node(Box<Segment>),
    /// No node is left: `out` are out, of `limit`.
    Full { out: u32, limit: u32 },
    /// The nodes were taken back.
    Gave,
}
