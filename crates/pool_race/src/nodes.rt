//! A role's use of the segment pool under a lock.
ghost use Rattle.std.specs.Prelude.{◌≡◌, ◌<◌, ◌∷◌, All, length, IfOk, IfErr, IfSome, MatchOption, ◌^◌};
ghost use Rattle.suri_base.specs.declared.entry.SegNote.TheVariants.{Took, Full, Gave};
ghost use Rattle.suri_base.specs.Chain.{IsAlone};
ghost use Rattle.suri_base.specs.History.{entry};
ghost use Rattle.segment_pool.specs.Pool.{limit_of};
ghost use Rattle.hist_lock.specs.Locks.{role_of, made_with, IsPassOf, made_of};

use hist_lock::{HistLock, Pass};
use segment_pool::{SegCall, SegReply, SegmentPool};
use std::sync::Wait;
use suri_base::{NoMemory, Segment, Segments};

/// Asks for a node for that frame. `None` where all nodes are out.
pub fn take<R: Wait>(
    rt: &R,
    lock: &HistLock<SegmentPool>,
    pass: &mut Pass<SegmentPool>,
    step: u64,
    no: u32,
) -> Result<Option<Box<Segment>>, NoMemory>
    requires lock { IsPassOf limit_of lock.now pass.old }
    requires step { All (λ e. e.step < step) (made_of pass.old) }
    ensures lock { IsPassOf limit_of lock.now pass.new }
    ensures role { role_of pass.new ≡ role_of pass.old }
    ensures alone { IfOk result (λ r. IfSome r (λ n. IsAlone n.value)) }
    ensures made { IfOk result (λ r. MatchOption r (made_of pass.new ≡ entry (role_of pass.old) step (Full no (limit_of (made_with lock.now)) (limit_of (made_with lock.now))) ∷ made_of pass.old) (λ n. made_of pass.new ≡ entry (role_of pass.old) step (Took no) ∷ made_of pass.old)) }
    ensures refused { IfErr result (λ e. made_of pass.new ≡ made_of pass.old) }
{
    match lock.apply(rt, pass, step, SegCall::Take { no }) {
        Ok(SegReply::Node(node)) => Ok(Some(node)),
        Ok(SegReply::Full { .. }) => Ok(None),
        Ok(SegReply::Gave) => unreachable!(),
        Err(_) => Err(NoMemory),
    }
}

/// Gives nodes back. Where no memory is left for the entry they are dropped.
pub fn give<R: Wait>(
    rt: &R,
    lock: &HistLock<SegmentPool>,
    pass: &mut Pass<SegmentPool>,
    step: u64,
    nodes: Segments,
) -> Result<(), NoMemory>
    requires lock { IsPassOf limit_of lock.now pass.old }
    requires step { All (λ e. e.step < step) (made_of pass.old) }
    requires nodes { length nodes < 2 ^ 32 }
    ensures lock { IsPassOf limit_of lock.now pass.new }
    ensures role { role_of pass.new ≡ role_of pass.old }
    ensures made { IfOk result (λ r. made_of pass.new ≡ entry (role_of pass.old) step (Gave (length nodes)) ∷ made_of pass.old) }
    ensures refused { IfErr result (λ e. made_of pass.new ≡ made_of pass.old) }
{
    match lock.apply(rt, pass, step, SegCall::Give { nodes }) {
        Ok(_) => Ok(()),
        Err(_) => Err(NoMemory),
    }
}
