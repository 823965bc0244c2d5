//! Flows in slots.
ghost use Rattle.std.specs.Option.{is_some};
ghost use Rattle.std.specs.Prelude.{◌≡◌, ◌<◌, ◌≤◌, ◌+◌, ◌^◌, ◌++◌, [], ℕ, List, Some, false, true, IfSome, OnOk, filter, length, map, slice_get, vec_len, vec_capacity};
ghost use Rattle.std.specs.List.Sorted.{IsPermutation};
ghost use Rattle.suri_base.specs.Chain.{IsAlone};
ghost use Rattle.suri_base.specs.declared.app.App.{App};
ghost use Rattle.flow_object.specs.Object.{nodes_in};
ghost use Rattle.flow_object.specs.Standing.{AsksFor};
ghost use Rattle.flow_sum.specs.Run.{Run};
ghost use Rattle.bucket_rules.specs.Row.{has, is_none_of, off};
ghost use Rattle.flow_table.specs.Dues.{IsDue};
ghost use Rattle.bucket_flow.specs.Flows.{NonePasses, drained_held, stays, swept_held};
ghost use Rattle.bucket_flow.specs.Held.{Closed, IsFine, IsMade, Joined, Settled, ended_of, leaves, linked_with, off_by, used_by};
ghost use Rattle.flow_table.specs.Slots.{
  HasBegun,
  HasJoinRoom,
  HasLeft,
  HasRoomier,
  IsChanged,
  IsFilled,
  IsNewRun,
  IsSomeSlot,
  IsVictimSlot,
  MayJoin,
  NoneLeaves,
  SlotHolds,
  filled,
  left_by,
};

use crate::counts::count_filled;
use crate::due::Due;
use crate::ended::end_use;
use crate::room::{empty_slot, keep, list_empty, reserve_left};
use crate::sweeps::{drain_slots, sweep_slots};
use bucket_flow::{Cause, Flow};
use flow_object::{Ended, FlowObj};
use flow_orders::{Marks, Orders, Times};
use flow_uses::Uses;
use std::alloc::Global;
use std::marker::Model;
use std::mem;
use suri_base::{App, Capture, Facts, Key, NoMemory, Offer, Segment, Segments};

/// Flows in slots, which are numbered from 0. A flow keeps its slot as long as it is in the table.
///
/// Room is asked for before a flow begins or takes a packet, and before a sweep; then no call takes memory.
#[derive(Drop)]
pub struct FlowTable {
    slots: Vec<Option<Flow>>,
    // Slots that flows left. Each is looked at before it is used again.
    left: Vec<u32>,
    orders: Orders,
}

impl Model for FlowTable {
    ghost use Rattle.std.specs.Prelude.{min, vec_len, vec_capacity};
    ghost use Rattle.flow_table.specs.Slots.{IsTable, Table, spare_joins, spare_slots};

    ghost Value = { Table };

    ghost view = { λ t. record { slots = t.slots.items; begins = min (spare_slots (vec_capacity t.slots) (vec_len t.slots)) (min t.orders.by_key.room (spare_joins t.orders)); joins = spare_joins t.orders } };

    ghost invariant = { λ t. IsTable (vec_len t.slots) t.slots.items t.orders };
}

impl FlowTable {
    /// No flow, and no memory taken.
    pub fn new(alloc: Global) -> FlowTable
        ensures { result.slots ≡ [] }
    {
        FlowTable {
            slots: Vec::new(alloc),
            left: Vec::new(alloc),
            orders: Orders::new(alloc),
        }
    }

    /// How many flows there are.
    pub fn count(&self) -> u32
        ensures { result ≡ length (filled self.now.slots) }
    {
        count_filled(&self.slots)
    }

    /// How many slots there are, empty ones among them: at least as many as flows. No slot is looked at for it.
    pub fn slot_count(&self) -> usize
        ensures { length (filled self.now.slots) ≤ result }
    {
        self.slots.len()
    }

    /// The flow in a slot.
    pub fn flow(&self, slot: u32) -> &Flow
        requires { IsFilled self.now.slots slot }
        ensures { slice_get self.now.slots slot ≡ Some (Some result.now) }
    {
        match &self.slots[slot as usize] {
            None => unreachable!(),
            Some(flow) => flow,
        }
    }

    /// The slot of the linked flow of a key. `None` comes exactly where there is none.
    pub fn linked(&self, key: &Key) -> Option<u32>
        ensures { IsSomeSlot (linked_with key.now) self.now.slots result }
    {
        self.orders.linked_at(key)
    }

    /// The slot of the flow that a frame uses. `None` comes exactly where there is none.
    pub fn used(&self, no: u32) -> Option<u32>
        ensures { IsSomeSlot (used_by no) self.now.slots result }
    {
        self.orders.used_at(no)
    }

    /// The slot of the flow that is evicted first: of the linked flows without uses the one whose last packet is the oldest,
    /// then the one of the least run. `None` comes exactly where there is none.
    pub fn victim(&self) -> Option<u32>
        ensures { IsVictimSlot self.now.slots result }
    {
        self.orders.victim()
    }

    /// The linked flow that is due first, by the timeouts of `emergency` or by the normal ones. `None` comes exactly where
    /// no flow is linked.
    pub fn due(&self, emergency: bool) -> Option<Due>
        ensures { IsDue emergency (filled self.now.slots) result }
    {
        match self.orders.first_due(emergency) {
            None => None,
            Some((age, _)) => Some(Due {
                deadline: age.clock(),
                run: age.run,
            }),
        }
    }

    /// Makes room for one more flow, where there is none.
    ///
    /// # Errors
    ///
    /// `NoMemory` where there is none for that room. The flows are the same.
    pub fn reserve_begin(&mut self) -> Result<(), NoMemory>
        ensures room { OnOk result (0 < self.new.begins) }
        ensures slots { self.new.slots ≡ self.old.slots }
        ensures begins { self.old.begins ≤ self.new.begins }
        ensures joins { self.old.joins ≤ self.new.joins }
    {
        if self.slots.len() >= u32::MAX as usize || self.slots.reserve(1).is_err() {
            return Err(NoMemory);
        }
        reserve_left(&mut self.left, self.slots.len())?;
        self.orders.reserve_begin()
    }

    /// Makes room for one more use of the flow in a slot, where there is none.
    ///
    /// # Errors
    ///
    /// `NoMemory` where there is none for that room. The flows are the same.
    pub fn reserve_join(&mut self, slot: u32) -> Result<(), NoMemory>
        requires { IsFilled self.old.slots slot }
        ensures room { OnOk result (HasJoinRoom self.new slot) }
        ensures flow { IsChanged (λ f g. HasRoomier f g) self.old.slots slot self.new.slots }
        ensures begins { self.old.begins ≤ self.new.begins }
        ensures joins { self.old.joins ≤ self.new.joins }
    {
        match &mut self.slots[slot as usize] {
            None => unreachable!(),
            Some(flow) => flow.reserve()?,
        }
        self.orders.reserve_join()
    }

    /// A flow begins with a packet, in an object that is used again. The answer is that of the packet's stream.
    pub fn begin(
        &mut self,
        obj: Box<FlowObj>,
        uses: Uses,
        facts: &Facts,
        capture: &Capture,
    ) -> Offer
        requires room { 0 < self.old.begins }
        requires facts { IsFine capture.now facts.now.no facts.now }
        requires nodes { nodes_in obj.value ≡ 0 }
        requires unused { (u : ℕ) → has uses.frames u ≡ false }
        requires use_room { 0 < uses.room }
        requires new { IsNewRun facts.now (filled self.old.slots) }
        ensures { HasBegun (λ g. IsMade capture.now.bytes facts.now obj.value.depth result g) self.old.slots self.new.slots }
    {
        let (flow, offer) = Flow::begin(obj, uses, facts, capture);
        let marks = Marks::of(&flow);
        let slot = empty_slot(&mut self.slots, &mut self.left);
        self.slots[slot as usize] = Some(flow);
        self.orders.mend(slot, Marks::none(), marks);
        self.orders.begin_use(facts.no, slot);
        offer
    }

    /// The flow in a slot takes a packet of its key. The answer is that of the packet's stream: where it needs a node,
    /// `settle` is to follow.
    pub fn join(&mut self, slot: u32, facts: &Facts, capture: &Capture) -> Offer
        requires room { 0 < self.old.joins }
        requires facts { IsFine capture.now facts.now.no facts.now }
        requires flow { SlotHolds (MayJoin capture.now facts.now) self.old.slots slot }
        requires unused { NonePasses (used_by facts.now.no) (filled self.old.slots) }
        ensures { IsChanged (λ f g. Joined capture.now.bytes facts.now result f g) self.old.slots slot self.new.slots }
    {
        match &mut self.slots[slot as usize] {
            None => unreachable!(),
            Some(flow) => {
                let old = Times::of(flow);
                let offer = flow.join(facts, capture);
                let new = Times::of(flow);
                self.orders.mend_times(slot, old, new);
                self.orders.begin_use(facts.no, slot);
                offer
            }
        }
    }

    /// The newest packet of the flow in a slot is stored in a node, or stops its stream.
    pub fn settle(&mut self, slot: u32, node: Option<Box<Segment>>)
        requires flow { SlotHolds (λ f. (bytes : List ℕ) × (r : Run) × (judged : List App) × AsksFor f.obj bytes r judged) self.old.slots slot }
        requires alone { IfSome node (λ n. IsAlone n.value) }
        ensures { IsChanged (λ f g. (bytes : List ℕ) → Settled bytes (is_some node) f g) self.old.slots slot self.new.slots }
    {
        match &mut self.slots[slot as usize] {
            None => unreachable!(),
            Some(flow) => flow.settle(node),
        }
    }

    /// The use of a frame ends for the flow in a slot, with the verdict on it. Hands out the nodes that no longer wait.
    pub fn close(&mut self, slot: u32, no: u32, app: App) -> Segments
        requires { IsFilled self.old.slots slot }
        ensures flow { IsChanged (λ f g. Closed no app (length result) f g) self.old.slots slot self.new.slots }
        ensures few { length result < 2 ^ 32 }
    {
        match &mut self.slots[slot as usize] {
            None => unreachable!(),
            Some(flow) => {
                let old = Marks::unused_of(flow);
                let freed = flow.close(no, app);
                let new = Marks::unused_of(flow);
                end_use(&mut self.orders, slot, no, old, new);
                freed
            }
        }
    }

    /// The flow in a slot is detached.
    pub fn detach(&mut self, slot: u32, cause: Cause)
        requires { IsFilled self.old.slots slot }
        ensures { IsChanged (λ f g. g ≡ off_by cause f) self.old.slots slot self.new.slots }
    {
        match &mut self.slots[slot as usize] {
            None => unreachable!(),
            Some(flow) => {
                let marks = Marks::of(flow);
                flow.detach(cause);
                self.orders.mend(slot, marks, Marks::none());
            }
        }
    }

    /// The flow in a slot, which no frame uses, leaves for that cause.
    pub fn take_out(&mut self, slot: u32, cause: Cause) -> Ended
        requires { SlotHolds (λ f. is_none_of f.uses ≡ true) self.old.slots slot }
        ensures { HasLeft (off cause.reason cause.emergency) self.old.slots slot self.new.slots result }
    {
        match mem::replace(&mut self.slots[slot as usize], None) {
            None => unreachable!(),
            Some(flow) => {
                self.orders.mend(slot, Marks::of(&flow), Marks::none());
                keep(&mut self.left, slot);
                flow.end(cause)
            }
        }
    }

    /// The linked flows that have expired at the clock are detached, but for those of whose key a packet comes among the
    /// first `start` frames; and those that nothing uses leave. They stand in `gone` in any order. It goes along the
    /// deadlines, and so takes the time of the flows that have expired, and not of all.
    pub fn sweep(
        &mut self,
        gone: &mut Vec<Ended>,
        capture: &Capture,
        start: u32,
        clock: u64,
        emergency: bool,
    )
        requires room { vec_len gone.old + length (filled self.old.slots) ≤ vec_capacity gone.old }
        requires stay { NoneLeaves self.old.slots }
        ensures flows { filled self.new.slots ≡ filter stays (map (swept_held capture.now start clock emergency) (filled self.old.slots)) }
        ensures gone { IsPermutation (gone.old.items ++ left_by (swept_held capture.now start clock emergency) self.old.slots) gone.new.items }
    {
        sweep_slots(
            &mut self.slots,
            &mut self.left,
            &mut self.orders,
            gone,
            capture,
            start,
            clock,
            emergency,
        );
    }

    /// All linked flows are detached, at the end of a capture with that last clock, and those that nothing uses leave. They
    /// stand in `gone` in any order.
    pub fn drain(&mut self, gone: &mut Vec<Ended>, clock: u64)
        requires room { vec_len gone.old + length (filled self.old.slots) ≤ vec_capacity gone.old }
        ensures flows { filled self.new.slots ≡ filter stays (map (drained_held clock) (filled self.old.slots)) }
        ensures gone { IsPermutation (gone.old.items ++ left_by (drained_held clock) self.old.slots) gone.new.items }
    {
        drain_slots(&mut self.slots, &mut self.orders, gone, clock);
        list_empty(&self.slots, &mut self.left);
    }
}
