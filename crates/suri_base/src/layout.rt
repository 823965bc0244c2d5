//! How a run is laid out.

/// How a run is laid out.
#[derive(Clone, Copy, Debug, PartialEq, Eq)]
pub struct Layout {
    /// How many workers there are, 1 to 64.
    pub workers: u32,
    /// The most packets that a worker has in hand at once, 1 to 256.
    pub batch: u32,
    /// How many frames a round has, 1 to 65,536.
    pub round: u32,
    /// How many buckets the table of flows has, 1 to 4,096; at most `memcap`.
    pub rows: u32,
    /// The most flows at a time, 1 to 1,048,576.
    pub memcap: u32,
    /// The most nodes of segments at a time, 0 to 1,048,576.
    pub segments: u32,
    /// The percentage of `memcap` that has to be free again for an emergency to end, 1 to 100.
    pub recovery: u32,
    /// How many bytes of each direction of a TCP flow are reassembled, 0 to 1,073,741,824.
    pub depth: u32,
}
