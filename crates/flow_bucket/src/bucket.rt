//! A bucket.
ghost use Rattle.std.specs.Prelude.{◌≡◌, []};

use crate::calls::{BucketCall, BucketReply};
use bucket_flow::facts_of;
use bucket_rules::Fixed;
use flow_object::Ended;
use flow_table::{Due, FlowTable};
use flow_uses::Uses;
use std::alloc::Global;
use suri_base::{BucketNote, Capture, Layout, Machine, NoMemory};

/// A bucket of flows, with the room that its next call takes.
#[derive(Drop)]
pub struct FlowBucket<'c> {
    pub(crate) capture: &'c Capture,
    pub(crate) layout: Layout,
    pub(crate) number: u32,
    pub(crate) flows: FlowTable,
    // Room for the flows that leave, when all may.
    pub(crate) gone: Vec<Ended>,
    // Room for the first use of a new flow.
    pub(crate) uses: Uses,
    ghost unused: { uses.frames ≡ [] },
}

impl<'c> FlowBucket<'c> {
    ghost use Rattle.std.specs.Prelude.{◌≡◌, ◌<◌, ◌≤◌, [], ℕ, List, OnOk};
    ghost use Rattle.suri_base.specs.declared.entry.Entry.{Entry};
    ghost use Rattle.suri_base.specs.declared.entry.BucketNote.{BucketNote};
    ghost use Rattle.flow_bucket.specs.declared.calls.BucketCall.{BucketCall};
    ghost use Rattle.flow_table.specs.Dues.{IsDue};
    ghost use Rattle.flow_table.specs.Slots.{filled};
    ghost use Rattle.flow_bucket.specs.Bucket.{fixed_of, HasEnds, HasRoom, HasUse, IsNextVictim, BucketStands};

    /// An empty bucket of that number, from 0, for the packets of a capture. It takes no memory.
    pub fn new(alloc: Global, capture: &'c Capture, layout: Layout, number: u32) -> FlowBucket<'c>
        requires { 1 ≤ layout.workers }
        ensures fixed { fixed_of result ≡ record { capture = capture.now; layout = layout; number = number } }
        ensures stands { BucketStands result [] }
    {
        FlowBucket {
            capture,
            layout,
            number,
            flows: FlowTable::new(alloc),
            gone: Vec::new(alloc),
            uses: Uses::new(alloc),
        }
    }

    // Room for one more use of the flow that a frame may join.
    fn reserve_use(&mut self, no: u32) -> Result<(), NoMemory>
        ensures room { OnOk result (HasUse (fixed_of self.new) no self.new.flows) }
        ensures fixed { fixed_of self.new ≡ fixed_of self.old }
        ensures stands { (past : List (Entry BucketNote)) → BucketStands self.old past → BucketStands self.new past }
        ensures back { (past : List (Entry BucketNote)) → BucketStands self.new past → BucketStands self.old past }
        ensures kept { (other : BucketCall) → HasRoom self.old other → HasRoom self.new other }
    {
        let Some(facts) = facts_of(self.capture, no) else {
            return Ok(());
        };
        let Some(slot) = self.flows.linked(&facts.key) else {
            return Ok(());
        };
        self.flows.reserve_join(slot)
    }

    // Room for one more flow, and for its first use.
    fn reserve_flow(&mut self) -> Result<(), NoMemory>
        ensures flow { OnOk result (0 < self.new.flows.begins) }
        ensures use_ { OnOk result (0 < self.new.uses.room) }
        ensures fixed { fixed_of self.new ≡ fixed_of self.old }
        ensures flows { filled self.new.flows.slots ≡ filled self.old.flows.slots }
        ensures kept { (other : BucketCall) → HasRoom self.old other → HasRoom self.new other }
    {
        self.flows.reserve_begin()?;
        self.uses.reserve()
    }

    // Room for all flows, where they leave.
    fn reserve_ends(&mut self) -> Result<(), NoMemory>
        ensures room { OnOk result (HasEnds self.new) }
        ensures fixed { fixed_of self.new ≡ fixed_of self.old }
        ensures flows { filled self.new.flows.slots ≡ filled self.old.flows.slots }
        ensures kept { (other : BucketCall) → HasRoom self.old other → HasRoom self.new other }
    {
        match self.gone.reserve(self.flows.slot_count()) {
            Ok(_) => Ok(()),
            Err(_) => Err(NoMemory),
        }
    }

    /// The linked run that is due first, by the timeouts of `emergency` or by the normal ones: with the least deadline, then
    /// the least number. `None` comes exactly where no run is linked.
    pub fn due(&self, emergency: bool) -> Option<Due>
        ensures { IsDue emergency (filled self.now.flows.slots) result }
    {
        self.flows.due(emergency)
    }

    /// The run that would leave by the next eviction. `None` comes exactly where each run is used.
    pub fn next_victim(&self) -> Option<u32>
        ensures { IsNextVictim (filled self.now.flows.slots) result }
    {
        match self.flows.victim() {
            None => None,
            Some(slot) => Some(self.flows.flow(slot).run()),
        }
    }
}

impl<'c> Machine for FlowBucket<'c> {
    type Call = BucketCall;

    type Reply = BucketReply;

    type Note = BucketNote;

    type Fixed = Fixed;

    ghost use Rattle.std.specs.Prelude.{◌≡◌, ℕ, List, IsOk, OnOk};
    ghost use Rattle.suri_base.specs.declared.entry.Entry.{Entry};
    ghost use Rattle.suri_base.specs.declared.entry.BucketNote.{BucketNote};
    ghost use Rattle.flow_bucket.specs.declared.calls.BucketCall.{BucketCall};
    ghost use Rattle.flow_bucket.specs.Bucket.{fixed_of, BucketStands, HasRoom, NeedsNoRoom};
    ghost use Rattle.flow_bucket.specs.Stands.{BucketMay, BucketAnswers, BucketAlike};
    ghost use Rattle.flow_bucket.specs.Lasting.{may_stays};
    ghost use Rattle.flow_bucket.specs.Fixing.{one_note, one_reply};

    ghost fixed = { fixed_of };

    ghost stands = { BucketStands };

    ghost room = { HasRoom };

    ghost may = { BucketMay };

    ghost answers = { BucketAnswers };

    ghost alike = { BucketAlike };

    ghost may_stays = { may_stays };

    ghost one_note = { one_note };

    ghost one_reply = { one_reply };

    fn reserve(&mut self, call: &BucketCall) -> Result<(), NoMemory>
        ensures fixed { fixed_of self.new ≡ fixed_of self.old }
        ensures stands { (past : List (Entry BucketNote)) → BucketStands self.old past → BucketStands self.new past }
        ensures back { (past : List (Entry BucketNote)) → BucketStands self.new past → BucketStands self.old past }
        ensures keeps { (other : BucketCall) → HasRoom self.old other → HasRoom self.new other }
        ensures ok { OnOk result (HasRoom self.new call.now) }
        // What only ends a use, settles or evicts needs no memory.
        ensures spared { NeedsNoRoom call.now → IsOk result × (self.new ≡ self.old) }
    {
        match call {
            BucketCall::Look { no, .. } => self.reserve_use(*no),
            BucketCall::Make { .. } => self.reserve_flow(),
            BucketCall::Sweep { .. } | BucketCall::Drain => self.reserve_ends(),
            BucketCall::Refuse { .. }
            | BucketCall::Segment { .. }
            | BucketCall::Close { .. }
            | BucketCall::Evict { .. } => Ok(()),
        }
    }

    fn step(&mut self, role: u32, call: BucketCall) -> (BucketReply, BucketNote) {
        match call {
            BucketCall::Look {
                no,
                emergency,
                seen,
            } => self.look(role, no, emergency, seen),
            BucketCall::Make { no, obj } => self.make(role, no, obj),
            BucketCall::Refuse { no } => (BucketReply::Refused, BucketNote::Refused { no }),
            BucketCall::Segment { no, node } => self.segment(role, no, node),
            BucketCall::Close { no, app } => self.close(role, no, app),
            BucketCall::Evict { no } => self.evict(role, no),
            BucketCall::Sweep {
                round,
                emergency,
                seen,
            } => self.sweep(role, round, emergency, seen),
            BucketCall::Drain => self.drain(role),
        }
    }
}
