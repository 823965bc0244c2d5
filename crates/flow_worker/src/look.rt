//! One packet is looked up.
ghost use Rattle.std.specs.Prelude.{◌≡◌, ◌<◌, ◌≤◌, ◌++◌, [], ◌∷◌, IfOk, OnOk, length, true, false};
ghost use Rattle.std.specs.Option.{option_to_list};
ghost use Rattle.bucket_rules.specs.Own.{is_needing};
ghost use Rattle.flow_worker.specs.Looking.{Began, Found, FoundObject, FreedObject, IsIdleObject, Looked, LookedUp};
ghost use Rattle.flow_worker.specs.Places.{is_denied, is_evicting, is_granted, is_looking, is_missed, is_taken, to_next, to_settling};
ghost use Rattle.flow_worker.specs.Standing.{Goes, MayGo};
ghost use Rattle.flow_worker.specs.Telling.{IsTold};
ghost use Rattle.role_steps.specs.Roles.{IsShared, setup_of};
ghost use Rattle.run_rules.specs.Setup.{bucket_for};
ghost use Rattle.suri_base.specs.Capture.{HasFacts};
ghost use Rattle.suri_base.specs.declared.facts.Facts.{Facts};

use crate::evict::evict;
use crate::object::{take, turn};
use crate::settle::settle;
use flow_bucket::{BucketCall, BucketReply};
use flow_object::{Ended, FlowObj};
use role_steps::{Shared, Worker, call_bucket};
use std::collections::VecDeque;
use std::sync::Wait;
use suri_base::{NoMemory, Offer};

// A flow that left goes to the back of the hand.
pub(crate) fn keep(hand: &mut VecDeque<Ended>, ended: Option<Ended>) -> Result<(), NoMemory>
    ensures { OnOk result (hand.new.items ≡ hand.old.items ++ option_to_list ended) }
{
    if let Some(ended) = ended {
        hand.push_back(ended)?;
    }
    Ok(())
}

// Looks a packet up. `None` where its key has no run that it joins.
fn look<'c, R: Wait>(
    rt: &R,
    worker: &mut Worker<'c>,
    shared: &Shared<'c>,
    at: usize,
    no: u32,
    emergency: bool,
    seen: u64,
) -> Result<Option<Offer>, NoMemory>
    requires shared { IsShared shared.now }
    requires at { (at < length shared.now.buckets.items) × (at ≡ bucket_for (setup_of shared.now) no) }
    requires stands { MayGo shared.now worker.old (is_looking no emergency seen) }
    ensures { IfOk result (λ said. Looked shared.now worker.old worker.new no emergency seen said) }
{
    match call_bucket(
        rt,
        &mut worker.passes,
        shared,
        at,
        BucketCall::Look {
            no,
            emergency,
            seen,
        },
    )? {
        BucketReply::Found { run: _, offer } => Ok(Some(offer)),
        BucketReply::Missing(ended) => {
            keep(&mut worker.hand, ended)?;
            Ok(None)
        }
        _ => unreachable!(),
    }
}

// The buckets are asked to let a flow go, and its object is turned to the frame. `None` where none has one.
fn evict_one<'c, R: Wait>(
    rt: &R,
    worker: &mut Worker<'c>,
    shared: &Shared<'c>,
    home: u32,
    no: u32,
) -> Result<Option<Box<FlowObj>>, NoMemory>
    requires shared { IsShared shared.now }
    requires home { (home < shared.now.layout.rows) × (home ≡ bucket_for (setup_of shared.now) no) }
    requires few { shared.now.layout.rows ≤ 4096 }
    requires stands { MayGo shared.now worker.old (is_evicting shared.now.layout.rows 0 no) }
    ensures { IfOk result (λ o. FreedObject shared.now worker.old worker.new (is_evicting shared.now.layout.rows 0 no) no o) }
{
    let found = evict(rt, worker, shared, home, no)?;
    if !found {
        return Ok(None);
    }
    let obj = turn(rt, worker, shared, no)?;
    Ok(Some(obj))
}

// Gets the object of the flow in front of the hand, or else of one that a bucket lets go. `None` where none can be had.
fn free_one<'c, R: Wait>(
    rt: &R,
    worker: &mut Worker<'c>,
    shared: &Shared<'c>,
    home: u32,
    no: u32,
) -> Result<Option<Box<FlowObj>>, NoMemory>
    requires shared { IsShared shared.now }
    requires home { (home < shared.now.layout.rows) × (home ≡ bucket_for (setup_of shared.now) no) }
    requires few { shared.now.layout.rows ≤ 4096 }
    requires stands { MayGo shared.now worker.old (is_taken worker.old.hand.items no) }
    ensures { IfOk result (λ o. FreedObject shared.now worker.old worker.new (is_taken worker.old.hand.items no) no o) }
{
    if worker.hand.is_empty() {
        let evicted = evict_one(rt, worker, shared, home, no)?;
        return Ok(evicted);
    }
    let obj = turn(rt, worker, shared, no)?;
    Ok(Some(obj))
}

// Gets an object for a frame that was missing: the pool's, or that of a flow that left. `None` where none can be had.
fn find_object<'c, R: Wait>(
    rt: &R,
    worker: &mut Worker<'c>,
    shared: &Shared<'c>,
    home: u32,
    no: u32,
) -> Result<Option<Box<FlowObj>>, NoMemory>
    requires shared { IsShared shared.now }
    requires home { (home < shared.now.layout.rows) × (home ≡ bucket_for (setup_of shared.now) no) }
    requires few { shared.now.layout.rows ≤ 4096 }
    requires stands { MayGo shared.now worker.old (is_missed no) }
    ensures { IfOk result (λ o. FoundObject shared.now worker.old worker.new no o) }
{
    match take(rt, worker, shared, no)? {
        Some(obj) => Ok(Some(obj)),
        None => {
            let freed = free_one(rt, worker, shared, home, no)?;
            Ok(freed)
        }
    }
}

// Begins a run with a missing frame, in this object.
fn make<'c, R: Wait>(
    rt: &R,
    worker: &mut Worker<'c>,
    shared: &Shared<'c>,
    at: usize,
    no: u32,
    obj: Box<FlowObj>,
) -> Result<Offer, NoMemory>
    requires shared { IsShared shared.now }
    requires at { (at < length shared.now.buckets.items) × (at ≡ bucket_for (setup_of shared.now) no) }
    requires object { IsIdleObject shared.now obj.value }
    requires stands { MayGo shared.now worker.old (is_granted no) }
    ensures { IfOk result (λ said. Goes shared.now worker.old worker.new (is_granted no) (to_settling (is_needing said) no) [] × IsTold shared.now worker.new no false) }
{
    match call_bucket(
        rt,
        &mut worker.passes,
        shared,
        at,
        BucketCall::Make { no, obj },
    )? {
        BucketReply::Made { offer } => Ok(offer),
        _ => unreachable!(),
    }
}

// Refuses a missing frame for which no object can be had.
fn refuse<'c, R: Wait>(
    rt: &R,
    worker: &mut Worker<'c>,
    shared: &Shared<'c>,
    at: usize,
    no: u32,
) -> Result<(), NoMemory>
    requires shared { IsShared shared.now }
    requires at { (at < length shared.now.buckets.items) × (at ≡ bucket_for (setup_of shared.now) no) }
    requires stands { MayGo shared.now worker.old (is_denied no) }
    ensures { OnOk result (Goes shared.now worker.old worker.new (is_denied no) to_next (no ∷ []) × IsTold shared.now worker.new no true) }
{
    match call_bucket(
        rt,
        &mut worker.passes,
        shared,
        at,
        BucketCall::Refuse { no },
    )? {
        BucketReply::Refused => Ok(()),
        _ => unreachable!(),
    }
}

// Begins a run with a missing frame. `None` where it was refused.
fn begin<'c, R: Wait>(
    rt: &R,
    worker: &mut Worker<'c>,
    shared: &Shared<'c>,
    home: u32,
    no: u32,
) -> Result<Option<Offer>, NoMemory>
    requires shared { IsShared shared.now }
    requires home { (home < shared.now.layout.rows) × (home ≡ bucket_for (setup_of shared.now) no) }
    requires few { shared.now.layout.rows ≤ 4096 }
    requires stands { MayGo shared.now worker.old (is_missed no) }
    ensures { IfOk result (λ said. Began shared.now worker.old worker.new no said) }
{
    match find_object(rt, worker, shared, home, no)? {
        Some(obj) => {
            let offer = make(rt, worker, shared, home as usize, no, obj)?;
            Ok(Some(offer))
        }
        None => {
            refuse(rt, worker, shared, home as usize, no)?;
            Ok(None)
        }
    }
}

// Looks a packet up, and begins a run with it where it joins none. `None` where it was refused.
fn find<'c, R: Wait>(
    rt: &R,
    worker: &mut Worker<'c>,
    shared: &Shared<'c>,
    home: u32,
    no: u32,
    emergency: bool,
    seen: u64,
) -> Result<Option<Offer>, NoMemory>
    requires shared { IsShared shared.now }
    requires home { (home < shared.now.layout.rows) × (home ≡ bucket_for (setup_of shared.now) no) }
    requires few { shared.now.layout.rows ≤ 4096 }
    requires stands { MayGo shared.now worker.old (is_looking no emergency seen) }
    ensures { IfOk result (λ said. Found shared.now worker.old worker.new no emergency seen said) }
{
    match look(rt, worker, shared, home as usize, no, emergency, seen)? {
        Some(offer) => Ok(Some(offer)),
        None => {
            let said = begin(rt, worker, shared, home, no)?;
            Ok(said)
        }
    }
}

// The bucket of a packet's key.
pub(crate) fn home_of(shared: &Shared, no: u32) -> u32
    requires packet { (f : Facts) × HasFacts shared.now.capture.now no f }
    requires rows { 1 ≤ shared.now.layout.rows }
    ensures low { result < shared.now.layout.rows }
    ensures home { result ≡ bucket_for (setup_of shared.now) no }
{
    shared.capture.hash(no) / 256 % shared.layout.rows
}

// Whether an offer is to be settled with a node.
fn needs_node(offer: Offer) -> bool
    ensures { result ≡ is_needing offer }
{
    match offer {
        Offer::NeedsSegment => true,
        _ => false,
    }
}

/// Looks a packet up and settles its offer, by the batch's reading of the mode. It answers whether the packet was refused.
///
/// # Errors
///
/// `NoMemory`.
pub(crate) fn look_up<'c, R: Wait>(
    rt: &R,
    worker: &mut Worker<'c>,
    shared: &Shared<'c>,
    no: u32,
    emergency: bool,
    seen: u64,
) -> Result<bool, NoMemory>
    requires shared { IsShared shared.now }
    requires few { (1 ≤ shared.now.layout.rows) × (shared.now.layout.rows ≤ 4096) }
    requires stands { MayGo shared.now worker.old (is_looking no emergency seen) }
    ensures { IfOk result (λ refused. LookedUp shared.now worker.old worker.new no emergency seen refused) }
{
    let home = home_of(shared, no);
    match find(rt, worker, shared, home, no, emergency, seen)? {
        Some(offer) => {
            if needs_node(offer) {
                settle(rt, worker, shared, home as usize, no)?;
                return Ok(false);
            }
            Ok(false)
        }
        None => Ok(true),
    }
}
