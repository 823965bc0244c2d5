//! What a bucket is asked, and what it replies.
use flow_object::{Ended, FlowObj};
use suri_base::{App, Offer, Segment, Segments};

/// A call to a bucket. Frames and runs are named by numbers of frames, from 1.
///
/// `emergency` chooses the table of timeouts, and `seen` is how long the history of the pool of flow objects was when its mode was read.
#[derive(Drop)]
pub enum BucketCall {
    /// The run that the packet joins is looked for.
    Look {
        no: u32,
        emergency: bool,
        seen: u64,
    },
    /// A run begins with the packet, in an object without nodes.
    Make {
        no: u32,
        obj: Box<FlowObj>,
    },
    /// The packet is of no flow record.
    Refuse {
        no: u32,
    },
    /// The packet that needs a node is stored in this one, without links, or stops its stream.
    Segment {
        no: u32,
        node: Option<Box<Segment>>,
    },
    /// The packet is done with, and this is the verdict on it.
    Close {
        no: u32,
        app: App,
    },
    /// A run is to leave for the packet.
    Evict {
        no: u32,
    },
    /// The runs that have expired at the clock of the round's first frame are to be detached.
    Sweep {
        round: u32,
        emergency: bool,
        seen: u64,
    },
    /// All runs are to leave.
    Drain,
}

/// The bucket's reply.
#[derive(Drop)]
pub enum BucketReply {
    /// The packet joined that linked run, and uses it; the answer is that of its stream.
    Found {
        run: u32,
        offer: Offer,
    },
    /// No linked run takes the packet. One may have left for it.
    Missing(Option<Ended>),
    /// The run began; the answer is that of the packet's stream.
    Made {
        offer: Offer,
    },
    Refused,
    Stored,
    Stopped,
    /// The packet uses that run no longer. Its nodes that no longer wait are free, and it may have left.
    Closed {
        run: u32,
        freed: Segments,
        ended: Option<Ended>,
    },
    /// The packet was refused, and is done with.
    Idle,
    /// That run left: of the linked runs without uses it is the one whose last packet is the oldest, then the one of the
    /// least number.
    Victim(Ended),
    /// None could leave: each of so many runs here is used.
    AllInUse(u32),
    /// Those that left, by rising run.
    Swept(Vec<Ended>),
    /// All, by rising run.
    Drained(Vec<Ended>),
}
