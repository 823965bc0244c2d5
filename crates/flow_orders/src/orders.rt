//! Five orders beside the slots of flows.
ghost use Rattle.std.specs.Prelude.{◌≡◌, ◌<◌, ◌≤◌, ◌+◌, ◌==◌, ◌&&◌, ◌||◌, not, ℕ, [], length, List, Option, None, Some, IfSome, OnOk, IsOk, slice_get, slice_set};
ghost use Rattle.std.specs.Ordering.{nat_cmp};
ghost use Rattle.slot_order.specs.Index.{borne, IsFound, IsIndex};
ghost use Rattle.slot_order.specs.Order.{added, slot_of};
ghost use Rattle.flow_orders.specs.Flow.{Held, linked_with};
ghost use Rattle.key_order.specs.Ages.{age_cmp};
ghost use Rattle.flow_orders.specs.Keys.{bears_use, but_unused, marks_of, times_in};
ghost use Rattle.flow_orders.specs.Orders.{AreMarks, AreOrders, AreTimesRoomy, CanMend, CanMendTimes, CanMendUnused, HasRoomToBegin, HasRoomToJoin, IsOwn, IsRoomKept, IsRoomy, NoneLinked, SameButUnused, SameMarks, SamePairs};
ghost use Rattle.flow_orders.specs.Finding.{IsFirstDue, IsLeastUnused, IsNextDue};

use crate::marks::{Marks, Times};
use crate::walks::{least, next_before};
use key_order::{Age, KeyPlace, place};
use slot_order::Order;
use std::alloc::Global;
use std::marker::Model;
use suri_base::{Key, NoMemory};

/// Where the flows of a bucket stand in five orders. A flow may become unused when a use ends, which takes no memory: so
/// there is room among the unused for each use that is open.
#[derive(Drop)]
pub struct Orders {
    by_key: Order<KeyPlace>,
    due: Order<Age>,
    due_in_emergency: Order<Age>,
    unused: Order<Age>,
    by_use: Order<u32>,
    // How many uses are open.
    open_uses: usize,
}

impl Model for Orders {
    ghost use Rattle.std.specs.Prelude.{◌≡◌, ◌≤◌, length};
    ghost use Rattle.flow_orders.specs.Orders.{FlowOrders};

    ghost Value = { FlowOrders };

    ghost view = { λ o. record { by_key = o.by_key; due = o.due; due_in_emergency = o.due_in_emergency; unused = o.unused; by_use = o.by_use } };

    ghost invariant = { λ o. (o.open_uses ≡ length o.by_use.pairs) × (o.open_uses ≤ o.unused.room) };
}

impl Orders {
    /// Orders of no flow, and no memory taken.
    pub fn new(alloc: Global) -> Orders
        ensures by_key { result.by_key.pairs ≡ [] }
        ensures due { result.due.pairs ≡ [] }
        ensures due_in_emergency { result.due_in_emergency.pairs ≡ [] }
        ensures unused { result.unused.pairs ≡ [] }
        ensures by_use { result.by_use.pairs ≡ [] }
        ensures slots { AreOrders [] result }
    {
        Orders {
            by_key: Order::new(alloc),
            due: Order::new(alloc),
            due_in_emergency: Order::new(alloc),
            unused: Order::new(alloc),
            by_use: Order::new(alloc),
            open_uses: 0,
        }
    }

    /// The slot of the linked flow of a key.
    pub fn linked_at(&self, key: &Key) -> Option<u32>
        ensures { (slots : List (Option Held)) → AreMarks slots self.now → IsFound (λ f k. linked_with k f) slots key.now result }
    {
        self.by_key.find(place(key))
    }

    /// The slot of the flow that a frame uses.
    pub fn used_at(&self, no: u32) -> Option<u32>
        ensures { (slots : List (Option Held)) → IsIndex nat_cmp bears_use slots self.now.by_use.pairs → IsFound bears_use slots no result }
    {
        self.by_use.find(no)
    }

    /// The slot of the flow that comes first in the order of eviction: of those that no frame uses.
    pub fn victim(&self) -> Option<u32>
        ensures { (slots : List (Option Held)) → AreMarks slots self.now → IsLeastUnused slots result }
    {
        match self.unused.first() {
            None => None,
            Some((_, slot)) => Some(slot),
        }
    }

    /// The least deadline of a linked flow, by the timeouts of an emergency or the normal ones, with its slot.
    pub fn first_due(&self, emergency: bool) -> Option<(Age, u32)>
        ensures { (slots : List (Option Held)) → AreMarks slots self.now → IsFirstDue emergency slots result }
    {
        if emergency {
            least(&self.due_in_emergency)
        } else {
            least(&self.due)
        }
    }

    /// The least deadline above an age, where it is before a clock, with its slot: so the flows that have expired are gone
    /// through in their order.
    pub fn next_due(&self, after: Option<Age>, clock: u64, emergency: bool) -> Option<(Age, u32)>
        ensures { (slots : List (Option Held)) → AreMarks slots self.now → IsNextDue emergency after clock slots result }
    {
        if emergency {
            next_before(&self.due_in_emergency, after, clock)
        } else {
            next_before(&self.due, after, clock)
        }
    }

    /// Makes room for one use more, by a packet that joins a flow.
    ///
    /// # Errors
    ///
    /// `NoMemory` where there is none for that room. The orders are the same.
    pub fn reserve_join(&mut self) -> Result<(), NoMemory>
        ensures pairs { SamePairs self.old self.new }
        ensures kept { IsRoomy self.old self.new }
        ensures room { OnOk result (HasRoomToJoin self.new) }
        ensures succeeds { HasRoomToJoin self.old → IsOk result }
    {
        self.due.reserve(1)?;
        self.due_in_emergency.reserve(1)?;
        self.by_use.reserve(1)?;
        if self.open_uses < self.unused.room() {
            return Ok(());
        }
        self.unused.reserve(self.open_uses + 1)
    }

    /// Makes room for one flow more, with the use of the packet that begins it.
    ///
    /// # Errors
    ///
    /// `NoMemory` where there is none for that room. The orders are the same.
    pub fn reserve_begin(&mut self) -> Result<(), NoMemory>
        ensures pairs { SamePairs self.old self.new }
        ensures kept { IsRoomy self.old self.new }
        ensures room { OnOk result (HasRoomToBegin self.new) }
        ensures succeeds { HasRoomToBegin self.old → IsOk result }
    {
        self.by_key.reserve(1)?;
        self.reserve_join()
    }

    /// What stands in a slot changes: a flow begins there, leaves, or stands otherwise than before. It takes no memory.
    pub fn mend(&mut self, slot: u32, old: Marks, new: Marks)
        requires { CanMend self.old slot old new }
        ensures marks { (slots : List (Option Held)) (o n : Option Held) → AreMarks slots self.old → slice_get slots slot ≡ Some o → old ≡ marks_of o → new ≡ marks_of n
            → IsOwn slots slot n → AreMarks (slice_set slots slot n) self.new }
        ensures uses { self.new.by_use ≡ self.old.by_use }
        ensures room { IsRoomKept old new self.old self.new }
    {
        self.by_key.replace(old.key, new.key, slot);
        self.due.replace(old.due, new.due, slot);
        self.due_in_emergency
            .replace(old.due_in_emergency, new.due_in_emergency, slot);
        self.unused.replace(old.unused, new.unused, slot);
    }

    /// What stands in a slot keeps the place of its key, as where a packet joins a flow. It takes no memory.
    pub fn mend_times(&mut self, slot: u32, from: Times, to: Times)
        requires { CanMendTimes self.old slot from to }
        ensures marks { (slots : List (Option Held)) (o n : Option Held) → AreMarks slots self.old → slice_get slots slot ≡ Some o → (marks_of n).key ≡ (marks_of o).key
            → from ≡ times_in (marks_of o) → to ≡ times_in (marks_of n) → IsOwn slots slot n → AreMarks (slice_set slots slot n) self.new }
        ensures keys { self.new.by_key ≡ self.old.by_key }
        ensures uses { self.new.by_use ≡ self.old.by_use }
        ensures room { AreTimesRoomy from to self.old self.new }
    {
        self.due.replace(from.due, to.due, slot);
        self.due_in_emergency
            .replace(from.due_in_emergency, to.due_in_emergency, slot);
        self.unused.replace(from.unused, to.unused, slot);
    }

    /// What stands in a slot keeps all marks but its place among the unused, as where a use of a flow ends. It takes no memory.
    pub fn mend_unused(&mut self, slot: u32, old: Option<Age>, new: Option<Age>)
        requires { CanMendUnused self.old slot old new }
        ensures marks { (slots : List (Option Held)) (o n : Option Held) → AreMarks slots self.old → slice_get slots slot ≡ Some o → but_unused (marks_of n) ≡ but_unused (marks_of o)
            → old ≡ (marks_of o).unused → new ≡ (marks_of n).unused → IsOwn slots slot n → AreMarks (slice_set slots slot n) self.new }
        ensures others { SameButUnused self.old self.new }
        ensures uses { self.new.by_use ≡ self.old.by_use }
        ensures room { self.old.unused.room ≤ self.new.unused.room + added age_cmp old new }
    {
        self.unused.replace(old, new, slot);
    }

    /// No flow is linked any more: all leave the four orders of linked flows. The uses stay. It takes no memory.
    pub fn clear_marks(&mut self)
        ensures marks { (slots : List (Option Held)) → NoneLinked slots → AreMarks slots self.new }
        ensures uses { self.new.by_use ≡ self.old.by_use }
        ensures kept { IsRoomy self.old self.new }
    {
        self.by_key.clear();
        self.due.clear();
        self.due_in_emergency.clear();
        self.unused.clear();
    }

    /// A frame begins to use the flow in a slot. It takes no memory.
    pub fn begin_use(&mut self, no: u32, slot: u32)
        requires new { slot_of nat_cmp self.old.by_use.pairs no ≡ None }
        requires room { 0 < self.old.by_use.room }
        requires unused { length self.old.by_use.pairs < self.old.unused.room }
        ensures uses { (slots : List (Option Held)) (o n : Option Held) → IsIndex nat_cmp bears_use slots self.old.by_use.pairs → slice_get slots slot ≡ Some o
            → ((u : ℕ) → borne bears_use n u ≡ ((no == u) || borne bears_use o u)) → IsIndex nat_cmp bears_use (slice_set slots slot n) self.new.by_use.pairs }
        ensures marks { SameMarks self.old self.new }
    {
        self.by_use.insert(no, slot);
        let room = self.unused.room();
        if self.open_uses < room {
            self.open_uses += 1;
        }
    }

    /// A frame no longer uses its flow, whose slot is told. It takes no memory, and there is room for the flow among the unused.
    pub fn end_use(&mut self, no: u32) -> Option<u32>
        ensures was { result ≡ slot_of nat_cmp self.old.by_use.pairs no }
        ensures uses { (slots : List (Option Held)) (i : ℕ) (o n : Option Held) → IsIndex nat_cmp bears_use slots self.old.by_use.pairs → slice_get slots i ≡ Some o → result ≡ Some i
            → ((u : ℕ) → borne bears_use n u ≡ (borne bears_use o u && not (u == no))) → IsIndex nat_cmp bears_use (slice_set slots i n) self.new.by_use.pairs }
        ensures marks { SameMarks self.old self.new }
        ensures room { IfSome result (λ s. length self.new.by_use.pairs < self.new.unused.room) }
    {
        let slot = self.by_use.remove(no);
        if slot.is_some() {
            self.open_uses -= 1;
        }
        slot
    }
}
