//! Sweeps, along the deadlines, and drains, over all slots.
ghost use Rattle.std.specs.Prelude.{◌≡◌, ◌<◌, ◌≤◌, ◌+◌, ◌++◌, ◌∷◌, ◌^◌, [], length, map, slice_get, slice_set, vec_len, vec_capacity, Some, IsSome, List, Option};
ghost use Rattle.std.specs.List.Sorted.{IsPermutation};
ghost use Rattle.bucket_flow.specs.Flows.{drained_held, stays, swept_held};
ghost use Rattle.bucket_flow.specs.Held.{Held};
ghost use Rattle.flow_orders.specs.Keys.{marks_of};
ghost use Rattle.flow_orders.specs.Orders.{AreOrders};
ghost use Rattle.flow_table.specs.Slots.{AreSound, IsOrderedSlot, NoneLeaves, filled, left_by, parted};

use crate::room::{keep, put};
use bucket_flow::Flow;
use flow_object::Ended;
use flow_orders::{Marks, Orders};
use std::mem;
use suri_base::Capture;

// The marks of what stands in a slot.
fn marks_in(slot: &Option<Flow>) -> Marks
    ensures { result ≡ marks_of slot.now }
{
    match slot {
        None => Marks::none(),
        Some(flow) => Marks::of(flow),
    }
}

// The flow in a slot stays, or leaves where it was detached and nothing uses it.
fn part(slot: &mut Option<Flow>, gone: &mut Vec<Ended>)
    requires gone { IsSome slot.old → vec_len gone.old < vec_capacity gone.old }
    ensures slot { slot.new ≡ parted (λ f. f) stays slot.old }
    ensures gone { gone.new.items ≡ gone.old.items ++ left_by (λ f. f) (slot.old ∷ []) }
    ensures capacity { vec_capacity gone.old ≤ vec_capacity gone.new }
{
    match mem::replace(slot, None) {
        None => {}
        Some(flow) => match flow.gone() {
            Some(cause) => put(gone, flow.end(cause)),
            None => *slot = Some(flow),
        },
    }
}

// What stands in a slot is detached where it is due, and leaves where nothing keeps it.
fn sweep_flow(
    slot: &mut Option<Flow>,
    gone: &mut Vec<Ended>,
    capture: &Capture,
    start: u32,
    clock: u64,
    emergency: bool,
)
    requires gone { IsSome slot.old → vec_len gone.old < vec_capacity gone.old }
    ensures slot { slot.new ≡ parted (swept_held capture.now start clock emergency) stays slot.old }
    ensures gone { gone.new.items ≡ gone.old.items ++ left_by (swept_held capture.now start clock emergency) (slot.old ∷ []) }
    ensures capacity { vec_capacity gone.old ≤ vec_capacity gone.new }
{
    if let Some(flow) = slot {
        flow.sweep(capture, start, clock, emergency);
    }
    part(slot, gone);
}

// A slot that its flow left is listed.
fn list_left(slot: &Option<Flow>, left: &mut Vec<u32>, at: u32) {
    if slot.is_none() {
        keep(left, at);
    }
}

// The flow in a slot after a sweep, and the orders with it. A slot that it left is listed.
fn sweep_slot(
    slot: &mut Option<Flow>,
    left: &mut Vec<u32>,
    orders: &mut Orders,
    at: u32,
    gone: &mut Vec<Ended>,
    capture: &Capture,
    start: u32,
    clock: u64,
    emergency: bool,
)
    requires gone { IsSome slot.old → vec_len gone.old < vec_capacity gone.old }
    requires orders { (slots : List (Option Held)) × IsOrderedSlot slots orders.old at slot.old }
    ensures orders { (slots : List (Option Held)) → IsOrderedSlot slots orders.old at slot.old → AreOrders (slice_set slots at slot.new) orders.new }
    ensures slot { slot.new ≡ parted (swept_held capture.now start clock emergency) stays slot.old }
    ensures gone { gone.new.items ≡ gone.old.items ++ left_by (swept_held capture.now start clock emergency) (slot.old ∷ []) }
    ensures capacity { vec_capacity gone.old ≤ vec_capacity gone.new }
{
    let marks = marks_in(slot);
    sweep_flow(slot, gone, capture, start, clock, emergency);
    orders.mend(at, marks, marks_in(slot));
    list_left(slot, left, at);
}

// What stands in a slot is detached at the end of a capture with that last clock, and leaves where nothing keeps it.
fn drain_slot(slot: &mut Option<Flow>, gone: &mut Vec<Ended>, clock: u64)
    requires gone { IsSome slot.old → vec_len gone.old < vec_capacity gone.old }
    ensures slot { slot.new ≡ parted (drained_held clock) stays slot.old }
    ensures gone { gone.new.items ≡ gone.old.items ++ left_by (drained_held clock) (slot.old ∷ []) }
    ensures capacity { vec_capacity gone.old ≤ vec_capacity gone.new }
{
    if let Some(flow) = slot {
        flow.drain(clock);
    }
    part(slot, gone);
}

/// The slots after a sweep, which goes along the deadlines and ends at the first flow that has not expired. A flow that stays
/// linked keeps its deadline: so the next one is looked for above the last.
pub fn sweep_slots(
    slots: &mut Vec<Option<Flow>>,
    left: &mut Vec<u32>,
    orders: &mut Orders,
    gone: &mut Vec<Ended>,
    capture: &Capture,
    start: u32,
    clock: u64,
    emergency: bool,
)
    requires room { vec_len gone.old + length (filled slots.old.items) ≤ vec_capacity gone.old }
    requires few { vec_len slots.old < 2 ^ 32 }
    requires sound { AreSound slots.old.items }
    requires orders { AreOrders slots.old.items orders.old }
    requires stay { NoneLeaves slots.old.items }
    ensures sound { AreSound slots.new.items }
    ensures orders { AreOrders slots.new.items orders.new }
    ensures slots { slots.new.items ≡ map (parted (swept_held capture.now start clock emergency) stays) slots.old.items }
    ensures len { vec_len slots.new ≡ vec_len slots.old }
    ensures gone { IsPermutation (gone.old.items ++ left_by (swept_held capture.now start clock emergency) slots.old.items) gone.new.items }
{
    let mut after = None;
    while let Some((age, slot)) = orders.next_due(after, clock, emergency) {
        sweep_slot(
            &mut slots[slot as usize],
            left,
            orders,
            slot,
            gone,
            capture,
            start,
            clock,
            emergency,
        );
        after = Some(age);
    }
}

/// The slots at the end of a capture with that last clock. No flow is linked then: so the orders are not mended flow by flow.
pub fn drain_slots(
    slots: &mut Vec<Option<Flow>>,
    orders: &mut Orders,
    gone: &mut Vec<Ended>,
    clock: u64,
)
    requires room { vec_len gone.old + length (filled slots.old.items) ≤ vec_capacity gone.old }
    requires few { vec_len slots.old < 2 ^ 32 }
    requires sound { AreSound slots.old.items }
    requires orders { AreOrders slots.old.items orders.old }
    ensures sound { AreSound slots.new.items }
    ensures orders { AreOrders slots.new.items orders.new }
    ensures slots { slots.new.items ≡ map (parted (drained_held clock) stays) slots.old.items }
    ensures len { vec_len slots.new ≡ vec_len slots.old }
    ensures gone { gone.new.items ≡ gone.old.items ++ left_by (drained_held clock) slots.old.items }
{
    for at in 0..slots.len() {
        drain_slot(&mut slots[at], gone, clock);
    }
    orders.clear_marks();
}
