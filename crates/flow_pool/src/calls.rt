//! What a pool is asked, what it replies, and what no call changes.
use flow_object::FlowObj;

/// A call to the pool. An object that is handed in has no node, and the pool's depth.
#[derive(Drop)]
pub enum PoolCall {
    /// An object is asked for, for the run that begins with that frame.
    Take {
        no: u32,
    },
    /// The object of that run comes back.
    Put {
        run: u32,
        obj: Box<FlowObj>,
    },
    /// The object of that run goes to the run that begins with that frame.
    Turn {
        run: u32,
        no: u32,
        obj: Box<FlowObj>,
    },
    /// Is there an emergency?
    Mode,
    /// That round of the manager is over.
    Over {
        round: u32,
    },
}

/// The pool's reply.
#[derive(Drop)]
pub enum PoolReply {
    /// An object without nodes.
    Obj(Box<FlowObj>),
    /// No object is left: `out` are out, of `limit`.
    Full { out: u32, limit: u32 },
    /// The object was taken back.
    Done,
    /// The same object.
    Turned(Box<FlowObj>),
    /// Whether there is an emergency.
    On(bool),
    /// Whether an emergency ended with the round.
    Ended(bool),
}

/// What no call of a pool changes.
#[derive(Clone, Copy, Debug, PartialEq, Eq)]
pub struct PoolSetting {
    /// How many objects may be out.
    pub memcap: u32,
    /// An emergency ends when this percent of `memcap` objects isn't out.
    pub recovery: u32,
    /// The depth of each object's streams, in bytes.
    pub depth: u32,
}
