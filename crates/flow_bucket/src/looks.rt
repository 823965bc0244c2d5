//! What a bucket does for a packet: looks, first packets, closes.
ghost use Rattle.std.specs.Prelude.{◌≡◌, ◌<◌, ◌^◌, ℕ, List, None, Some, true, false, IfNone, IfSome, length, slice_get, slice_set};
ghost use Rattle.std.specs.Option.{is_some};
ghost use Rattle.suri_base.specs.declared.entry.Entry.{Entry};
ghost use Rattle.suri_base.specs.declared.entry.BucketNote.{BucketNote};
ghost use Rattle.suri_base.specs.declared.entry.BucketNote.TheVariants as note;
ghost use Rattle.bucket_rules.specs.Rule.{MayLook, MayClose};
ghost use Rattle.flow_bucket.specs.declared.calls.BucketCall.TheVariants as call;
ghost use Rattle.flow_bucket.specs.declared.calls.BucketReply.TheVariants as reply;
ghost use Rattle.flow_bucket.specs.Bucket.{fixed_of, HasUse, BucketStands};
ghost use Rattle.bucket_rules.specs.Row.{is_none_of, off};
ghost use Rattle.bucket_flow.specs.Held.{Held, ended_by, off_by};
ghost use Rattle.flow_table.specs.Slots.{IsFilled, filled};
ghost use Rattle.flow_bucket.specs.Stands.{Done, MayMake, MaySettle, run_of};

use crate::bucket::FlowBucket;
use crate::calls::BucketReply;
use bucket_flow::{Cause, facts_of};
use flow_object::{Ended, FlowObj};
use flow_table::FlowTable;
use flow_uses::Uses;
use std::mem;
use suri_base::{App, BucketNote, Segment, Segments};

// The reply and the note where no run is joined.
fn missing(no: u32, emergency: bool, seen: u64, ended: Option<Ended>) -> (BucketReply, BucketNote)
    ensures reply { result.0 ≡ reply.Missing ended }
    ensures note { result.1 ≡ note.Missing no emergency seen (run_of ended) }
{
    let run = match &ended {
        None => 0,
        Some(ended) => ended.run,
    };
    (
        BucketReply::Missing(ended),
        BucketNote::Missing {
            no,
            emergency,
            seen,
            ended: run,
        },
    )
}

// How many nodes a chain has.
fn count(nodes: &Segments) -> u32
    requires { length nodes.now < 2 ^ 32 }
    ensures { result ≡ length nodes.now }
{
    let mut count = 0;
    let mut place = nodes.front();
    while let Some(node) = place {
        count += 1;
        place = node.more.as_deref();
    }
    count
}

// The reply and the note of a close.
fn closed(
    no: u32,
    app: App,
    run: u32,
    freed: Segments,
    ended: Option<Ended>,
) -> (BucketReply, BucketNote)
    requires { length freed < 2 ^ 32 }
    ensures reply { result.0 ≡ reply.Closed run freed ended }
    ensures note { result.1 ≡ note.Closed no app run (length freed) (is_some ended) }
{
    let note = BucketNote::Closed {
        no,
        app,
        run,
        freed: count(&freed),
        ended: ended.is_some(),
    };
    (BucketReply::Closed { run, freed, ended }, note)
}

// The flow in a slot is detached, and leaves if nothing uses it.
fn detach(flows: &mut FlowTable, slot: u32, cause: Cause) -> Option<Ended>
    requires { IsFilled flows.old.slots slot }
    ensures leaves { IfSome result (λ ended. (f : Held) → slice_get flows.old.slots slot ≡ Some (Some f) → (is_none_of f.uses ≡ true) × (ended ≡ ended_by (off cause.reason cause.emergency) f) × (flows.new.slots ≡ slice_set flows.old.slots slot None)) }
    ensures stays { IfNone result ((f : Held) → slice_get flows.old.slots slot ≡ Some (Some f) → (is_none_of f.uses ≡ false) × (flows.new.slots ≡ slice_set flows.old.slots slot (Some (off_by cause f)))) }
{
    if flows.flow(slot).is_free() {
        return Some(flows.take_out(slot, cause));
    }
    flows.detach(slot, cause);
    None
}

impl<'c> FlowBucket<'c> {
    /// Looks for the run that a packet joins.
    pub(crate) fn look(
        &mut self,
        role: u32,
        no: u32,
        emergency: bool,
        seen: u64,
    ) -> (BucketReply, BucketNote)
        requires room { HasUse (fixed_of self.old) no self.old.flows }
        requires may { (past : List (Entry BucketNote)) × BucketStands self.old past × MayLook (fixed_of self.old) past role no }
        ensures fixed { fixed_of self.new ≡ fixed_of self.old }
        ensures done { (past : List (Entry BucketNote)) → BucketStands self.old past → MayLook (fixed_of self.old) past role no
            → Done (fixed_of self.old) past role (call.Look no emergency seen) result.0 result.1 (filled self.new.flows.slots) }
    {
        let capture = self.capture;
        let _frames = capture.count();
        let Some(facts) = facts_of(capture, no) else {
            unreachable!()
        };
        let Some(slot) = self.flows.linked(&facts.key) else {
            return missing(no, emergency, seen, None);
        };
        match self.flows.flow(slot).cut(&facts, emergency) {
            None => {
                let run = self.flows.flow(slot).run();
                let offer = self.flows.join(slot, &facts, capture);
                (
                    BucketReply::Found { run, offer },
                    BucketNote::Found {
                        no,
                        emergency,
                        seen,
                        run,
                        offer,
                    },
                )
            }
            Some(cause) => {
                let ended = detach(&mut self.flows, slot, cause);
                missing(no, emergency, seen, ended)
            }
        }
    }

    /// Begins a run with a packet.
    pub(crate) fn make(
        &mut self,
        role: u32,
        no: u32,
        obj: Box<FlowObj>,
    ) -> (BucketReply, BucketNote)
        requires room { (0 < self.old.flows.begins) × (0 < self.old.uses.room) }
        requires may { (past : List (Entry BucketNote)) × BucketStands self.old past × MayMake (fixed_of self.old) past role no obj.value }
        ensures fixed { fixed_of self.new ≡ fixed_of self.old }
        ensures done { (past : List (Entry BucketNote)) → BucketStands self.old past → MayMake (fixed_of self.old) past role no obj.value
            → Done (fixed_of self.old) past role (call.Make no obj) result.0 result.1 (filled self.new.flows.slots) }
    {
        let capture = self.capture;
        let Some(facts) = facts_of(capture, no) else {
            unreachable!()
        };
        let alloc = *self.gone.allocator();
        let uses = mem::replace(&mut self.uses, Uses::new(alloc));
        let offer = self.flows.begin(obj, uses, &facts, capture);
        (BucketReply::Made { offer }, BucketNote::Made { no, offer })
    }

    /// Stores a packet in a node, or stops its stream there.
    pub(crate) fn segment(
        &mut self,
        role: u32,
        no: u32,
        node: Option<Box<Segment>>,
    ) -> (BucketReply, BucketNote)
        requires may { (past : List (Entry BucketNote)) × BucketStands self.old past × MaySettle past role no node }
        ensures fixed { fixed_of self.new ≡ fixed_of self.old }
        ensures done { (past : List (Entry BucketNote)) → BucketStands self.old past → MaySettle past role no node
            → Done (fixed_of self.old) past role (call.Segment no node) result.0 result.1 (filled self.new.flows.slots) }
    {
        let Some(slot) = self.flows.used(no) else {
            unreachable!()
        };
        match node {
            Some(node) => {
                self.flows.settle(slot, Some(node));
                (BucketReply::Stored, BucketNote::Stored { no })
            }
            None => {
                self.flows.settle(slot, None);
                (BucketReply::Stopped, BucketNote::Stopped { no })
            }
        }
    }

    /// Ends the use of a packet, with the verdict on it, and hands out the nodes that no longer wait.
    pub(crate) fn close(&mut self, role: u32, no: u32, app: App) -> (BucketReply, BucketNote)
        requires may { (past : List (Entry BucketNote)) × BucketStands self.old past × MayClose past role no }
        ensures fixed { fixed_of self.new ≡ fixed_of self.old }
        ensures done { (past : List (Entry BucketNote)) → BucketStands self.old past → MayClose past role no
            → Done (fixed_of self.old) past role (call.Close no app) result.0 result.1 (filled self.new.flows.slots) }
    {
        let Some(slot) = self.flows.used(no) else {
            return (BucketReply::Idle, BucketNote::Idle { no, app });
        };
        let run = self.flows.flow(slot).run();
        let freed = self.flows.close(slot, no, app);
        let Some(cause) = self.flows.flow(slot).gone() else {
            return closed(no, app, run, freed, None);
        };
        let ended = self.flows.take_out(slot, cause);
        closed(no, app, run, freed, Some(ended))
    }
}
