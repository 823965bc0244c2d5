//! The pool.
ghost use Rattle.std.specs.Prelude.{◌≡◌, ◌-◌, ◌<◌, ◌≤◌, ◌^◌, length, IfOk, IsOk};
ghost use Rattle.suri_base.specs.declared.entry.SegNote.TheVariants.{Gave};
ghost use Rattle.segment_pool.specs.declared.calls.SegCall.TheVariants.{Take};
ghost use Rattle.segment_pool.specs.Counting.{Answered, out_after};

use crate::calls::{SegCall, SegReply};
use std::alloc::Global;
use suri_base::{Machine, NoMemory, SegNote, Segment, Segments};

/// A fixed number of nodes, of which some are out.
#[derive(Drop)]
pub struct SegmentPool {
    limit: u32,
    spare: u32,
    nodes: Segments,
    ghost all: { length nodes ≡ spare },
    ghost below: { spare ≤ limit },
}

impl SegmentPool {
    ghost use Rattle.segment_pool.specs.Pool.{limit_of, spare_of};

    /// A pool of `limit` nodes, all made here and all at home.
    ///
    /// It fails only where no memory is left.
    pub fn new(alloc: Global, limit: u32) -> Result<SegmentPool, NoMemory>
        ensures limit { IfOk result (λ pool. limit_of pool ≡ limit) }
        ensures spare { IfOk result (λ pool. spare_of pool ≡ limit) }
    {
        let mut nodes = Segments::new();
        for _ in 0..limit {
            let node = Segment::blank(alloc)?;
            nodes.push(node);
        }
        Ok(SegmentPool {
            limit,
            spare: limit,
            nodes,
        })
    }

    /// How many nodes are at home.
    pub fn spare(&self) -> u32
        ensures { result ≡ spare_of self.now }
    {
        self.spare
    }

    // Takes a node for that frame, where one is left.
    fn take(&mut self, no: u32) -> (SegReply, SegNote)
        ensures limit { self.new.limit ≡ self.old.limit }
        ensures answer { Answered self.old.limit (self.old.limit - self.old.spare) (Take no) result.0 result.1 }
        ensures out { self.new.limit - self.new.spare ≡ out_after (self.old.limit - self.old.spare) result.1 }
    {
        let limit = self.limit;
        match self.nodes.pop() {
            Some(node) => {
                self.spare -= 1;
                (SegReply::Node(node), SegNote::Took { no })
            }
            None => (
                SegReply::Full { out: limit, limit },
                SegNote::Full {
                    no,
                    out: limit,
                    limit,
                },
            ),
        }
    }

    // Keeps nodes as long as some are out, drops the others, and counts them all.
    fn take_back(&mut self, mut nodes: Segments) -> u32
        requires { length nodes < 2 ^ 32 }
        ensures limit { self.new.limit ≡ self.old.limit }
        ensures count { result ≡ length nodes }
        ensures out { self.new.limit - self.new.spare ≡ out_after (self.old.limit - self.old.spare) (Gave result) }
    {
        let mut count = 0;
        while let Some(node) = nodes.pop() {
            count += 1;
            if self.spare < self.limit {
                self.nodes.push(node);
                self.spare += 1;
            }
        }
        count
    }
}

impl Machine for SegmentPool {
    type Call = SegCall;

    type Reply = SegReply;

    type Note = SegNote;

    type Fixed = u32;

    ghost use Rattle.segment_pool.specs.Pool.{limit_of, CountsFor, PoolMay, PoolAnswers};
    ghost use Rattle.segment_pool.specs.Counting.{AreAlike};
    ghost use Rattle.segment_pool.specs.Fixed.{one_note, one_reply};

    ghost fixed = { limit_of };

    ghost stands = { CountsFor };

    ghost room = { λ pool call. Unit {0} };

    ghost may = { PoolMay };

    ghost answers = { PoolAnswers };

    ghost alike = { AreAlike };

    ghost may_stays = { λ limit role past e call other legal may. may };

    ghost one_note = { λ limit past role call r s n m both. one_note limit past call r s n m both.2 both.3 };

    ghost one_reply = { λ limit past role call r s n m both. one_reply limit past call r s n m both.2 both.3 };

    fn reserve(&mut self, _call: &SegCall) -> Result<(), NoMemory>
        ensures same { self.new ≡ self.old }
        ensures succeeds { IsOk result }
    {
        Ok(())
    }

    fn step(&mut self, _role: u32, call: SegCall) -> (SegReply, SegNote) {
        match call {
            SegCall::Take { no } => self.take(no),
            SegCall::Give { nodes } => {
                let count = self.take_back(nodes);
                (SegReply::Gave, SegNote::Gave { count })
            }
        }
    }
}
