//! Two threads at one pool.
ghost use Rattle.std.specs.Prelude.{◌≡◌, ◌≤◌, [], reverse, IfOk, vec_capacity};
ghost use Rattle.suri_base.specs.History.{Legal};
ghost use Rattle.segment_pool.specs.Pool.{limit_of, CountsFor, PoolMay, PoolAnswers};
ghost use Rattle.hist_lock.specs.Locks.{role_of, roles_of, made_with, IsPassOf, made_of};

use crate::calls::call_once;
use hist_lock::{HistLock, Pass};
use segment_pool::{SegCall, SegmentPool};
use std::alloc::Global;
use std::sync::Wait;
use std::thread;
use std::thread::Threads;
use suri_base::{Entry, NoMemory, SegNote};

// Each of the two roles asks for a node, in a thread of its own.
fn ask_both<R: Threads + Wait + Sync>(
    rt: &R,
    lock: &HistLock<SegmentPool>,
    one: Pass<SegmentPool>,
    two: Pass<SegmentPool>,
) -> (Pass<SegmentPool>, Pass<SegmentPool>)
    requires one { IsPassOf limit_of lock.now one × (made_of one ≡ []) }
    requires two { IsPassOf limit_of lock.now two × (made_of two ≡ []) }
    ensures one { IsPassOf limit_of lock.now result.0 × (role_of result.0 ≡ role_of one) }
    ensures two { IsPassOf limit_of lock.now result.1 × (role_of result.1 ≡ role_of two) }
{
    thread::join(
        rt,
        move ||
            requires { IsPassOf limit_of lock.now one × (made_of one ≡ []) }
            ensures { IsPassOf limit_of lock.entry.now result × (role_of result ≡ role_of one) }
        { call_once(rt, lock, one, SegCall::Take { no: 1 }) },
        move ||
            requires { IsPassOf limit_of lock.now two × (made_of two ≡ []) }
            ensures { IsPassOf limit_of lock.entry.now result × (role_of result ≡ role_of two) }
        { call_once(rt, lock, two, SegCall::Take { no: 2 }) },
    )
}

/// What is left of a lock with two roles: its pool, and the one history of both in the order of time. `passes` is where the two passes came from.
pub fn finish_two(
    lock: HistLock<SegmentPool>,
    one: Pass<SegmentPool>,
    two: Pass<SegmentPool>,
    mut passes: Vec<Pass<SegmentPool>>,
) -> (SegmentPool, Vec<Entry<SegNote>>)
    requires roles { roles_of lock ≡ 2 }
    requires one { IsPassOf limit_of lock one × (role_of one ≡ 0) }
    requires two { IsPassOf limit_of lock two × (role_of two ≡ 1) }
    requires room { (passes.items ≡ []) × (2 ≤ vec_capacity passes) }
    ensures legal { Legal (PoolMay (limit_of (made_with lock))) (PoolAnswers (limit_of (made_with lock))) (reverse result.1.items) }
    ensures stands { CountsFor result.0 (reverse result.1.items) }
{
    passes.push_reserved(one);
    passes.push_reserved(two);
    lock.finish(passes)
}

/// Two threads ask for a node each. What is left is the pool, with the one history of both in the order of time.
pub fn in_two_threads<R: Threads + Wait + Sync>(
    rt: &R,
    alloc: Global,
    pool: SegmentPool,
) -> Result<(SegmentPool, Vec<Entry<SegNote>>), NoMemory>
    requires stands { CountsFor pool [] }
    ensures legal { IfOk result (λ r. Legal (PoolMay (limit_of pool)) (PoolAnswers (limit_of pool)) (reverse r.1.items)) }
    ensures stands { IfOk result (λ r. CountsFor r.0 (reverse r.1.items)) }
{
    let (lock, mut passes) = HistLock::new(alloc, pool, 2)?;
    let Some(two) = passes.pop() else {
        unreachable!()
    };
    let Some(one) = passes.pop() else {
        unreachable!()
    };
    let (one, two) = ask_both(rt, &lock, one, two);
    Ok(finish_two(lock, one, two, passes))
}
