//! What a bucket lets go: evictions, sweeps, and the end of the capture.
ghost use Rattle.std.specs.Prelude.{◌≡◌, ℕ, List};
ghost use Rattle.std.specs.List.Sorted.{IsPermutation, IsNonDecreasingBy};
ghost use Rattle.suri_base.specs.declared.entry.Entry.{Entry};
ghost use Rattle.bucket_rules.specs.Rule.{MayEvict, MaySweep, MayDrain};
ghost use Rattle.suri_base.specs.declared.entry.BucketNote.{BucketNote};
ghost use Rattle.flow_bucket.specs.declared.calls.BucketCall.TheVariants as call;
ghost use Rattle.flow_bucket.specs.Bucket.{fixed_of, HasEnds, BucketStands};
ghost use Rattle.flow_bucket.specs.Stands.{Done};
ghost use Rattle.flow_table.specs.Slots.{filled};

use crate::bucket::FlowBucket;
use crate::calls::BucketReply;
use bucket_flow::Cause;
use flow_object::Ended;
use std::mem;
use suri_base::{BucketNote, Reason};

const FORCED: Cause = Cause {
    reason: Reason::Forced,
    emergency: false,
};

// Those that left, by rising run.
fn sort_by_run(ended: &mut Vec<Ended>)
    ensures same { IsPermutation ended.old.items ended.new.items }
    ensures rising { IsNonDecreasingBy (λ e. e.run) ended.new.items }
{
    ended.sort_unstable_by_key(|one| one.run);
}

impl<'c> FlowBucket<'c> {
    /// Lets the linked flow without uses go whose last packet is the oldest.
    pub(crate) fn evict(&mut self, role: u32, no: u32) -> (BucketReply, BucketNote)
        requires may { (past : List (Entry BucketNote)) × BucketStands self.old past × MayEvict (fixed_of self.old) past role }
        ensures fixed { fixed_of self.new ≡ fixed_of self.old }
        ensures done { (past : List (Entry BucketNote)) → BucketStands self.old past → MayEvict (fixed_of self.old) past role
            → Done (fixed_of self.old) past role (call.Evict no) result.0 result.1 (filled self.new.flows.slots) }
    {
        let _frames = self.capture.count();
        match self.flows.victim() {
            None => {
                let count = self.flows.count();
                (
                    BucketReply::AllInUse(count),
                    BucketNote::AllInUse { no, count },
                )
            }
            Some(slot) => {
                let ended = self.flows.take_out(slot, FORCED);
                let run = ended.run;
                (BucketReply::Victim(ended), BucketNote::Victim { no, run })
            }
        }
    }

    /// Detaches the linked flows that have expired at the round's clock, and lets those go that nothing uses.
    pub(crate) fn sweep(
        &mut self,
        role: u32,
        round: u32,
        emergency: bool,
        seen: u64,
    ) -> (BucketReply, BucketNote)
        requires room { HasEnds self.old }
        requires may { (past : List (Entry BucketNote)) × BucketStands self.old past × MaySweep (fixed_of self.old) role round }
        ensures fixed { fixed_of self.new ≡ fixed_of self.old }
        ensures done { (past : List (Entry BucketNote)) → BucketStands self.old past → MaySweep (fixed_of self.old) role round
            → Done (fixed_of self.old) past role (call.Sweep round emergency seen) result.0 result.1 (filled self.new.flows.slots) }
    {
        let _frames = self.capture.count();
        let start = round * self.layout.round;
        let clock = self.capture.clock(start + 1);
        let alloc = *self.gone.allocator();
        let mut gone = mem::replace(&mut self.gone, Vec::new(alloc));
        gone.clear();
        self.flows
            .sweep(&mut gone, self.capture, start, clock, emergency);
        sort_by_run(&mut gone);
        let count = gone.len() as u32;
        (
            BucketReply::Swept(gone),
            BucketNote::Swept {
                round,
                emergency,
                seen,
                count,
            },
        )
    }

    /// Detaches all linked flows, and lets those go that nothing uses, which are all.
    pub(crate) fn drain(&mut self, role: u32) -> (BucketReply, BucketNote)
        requires room { HasEnds self.old }
        requires may { (past : List (Entry BucketNote)) × BucketStands self.old past × MayDrain (fixed_of self.old) past role }
        ensures fixed { fixed_of self.new ≡ fixed_of self.old }
        ensures done { (past : List (Entry BucketNote)) → BucketStands self.old past → MayDrain (fixed_of self.old) past role
            → Done (fixed_of self.old) past role call.Drain result.0 result.1 (filled self.new.flows.slots) }
    {
        let _frames = self.capture.count();
        let clock = self.capture.last_clock();
        let alloc = *self.gone.allocator();
        let mut gone = mem::replace(&mut self.gone, Vec::new(alloc));
        gone.clear();
        self.flows.drain(&mut gone, clock);
        sort_by_run(&mut gone);
        let count = gone.len() as u32;
        (BucketReply::Drained(gone), BucketNote::Drained { count })
    }
}
