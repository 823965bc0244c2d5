ghost use Rattle.std.specs.Prelude.{◌≡◌, [], length, IfOk};
ghost use Rattle.hist_lock.specs.Locks.{IsPassOf, made_of, role_of};
ghost use Rattle.segment_pool.specs.Pool.{limit_of};

use crate::{finish_two, give, in_two_threads, take, two_calls};
use hist_lock::{HistLock, Pass};
use segment_pool::{SegCall, SegReply, SegmentPool};
use std::alloc::Global;
use std::sync::Wait;
use std::test::Fail;
use std::thread;
use suri_base::{Entry, NoMemory, SegNote, Segment, Segments};

fn is_took(note: SegNote) -> bool {
    matches!(note, SegNote::Took { .. })
}

// Whether the history is that of the first role taking the one node, and of the second being told that none is left.
fn is_first_took(entries: &[Entry<SegNote>]) -> bool {
    let wanted = [
        Entry {
            role: 0,
            step: 0,
            note: SegNote::Took { no: 1 },
        },
        Entry {
            role: 1,
            step: 0,
            note: SegNote::Full {
                no: 2,
                out: 1,
                limit: 1,
            },
        },
    ];
    entries == wanted.as_slice()
}

// In turn, the first pass gets the node, and the second is told that none is left.
#[test]
fn one_node_goes_to_the_first(rt: HostRuntime) -> Result<(), Fail> {
    let pool = SegmentPool::new(rt.alloc(), 1)?;
    let (lock, mut passes) = HistLock::new(rt.alloc(), pool, 2)?;
    let Some(mut two) = passes.pop() else {
        unreachable!()
    };
    let Some(mut one) = passes.pop() else {
        unreachable!()
    };
    let first = lock.apply(&rt, &mut one, 0, SegCall::Take { no: 1 });
    let second = lock.apply(&rt, &mut two, 0, SegCall::Take { no: 2 });
    let (_pool, entries) = finish_two(lock, one, two, passes);
    assert!(rt; matches!(first, Ok(SegReply::Node(_))));
    assert!(rt; matches!(second, Ok(SegReply::Full { out: 1, limit: 1 })));
    assert!(rt; is_first_took(&entries));
    Ok(())
}

// A pass that meets another one has then seen what that one had seen.
#[test]
fn a_pass_hears_of_another(rt: HostRuntime) -> Result<(), Fail> {
    let pool = SegmentPool::new(rt.alloc(), 1)?;
    let (lock, mut passes) = HistLock::new(rt.alloc(), pool, 2)?;
    let Some(mut two) = passes.pop() else {
        unreachable!()
    };
    let Some(mut one) = passes.pop() else {
        unreachable!()
    };
    assert!(rt; one.role() == 0 && two.role() == 1 && two.seen() == 0);
    let taken = lock.apply(&rt, &mut one, 0, SegCall::Take { no: 1 });
    assert!(rt; taken.is_ok());
    lock.meet(&mut one, &mut two);
    assert!(rt; one.seen() == 1 && two.seen() == 1);
    Ok(())
}

// Of two threads one gets the node, and the history has its entry before the other's, whichever it was.
#[test]
fn two_threads_get_one_node(rt: HostRuntime) -> Result<(), Fail> {
    let pool = SegmentPool::new(rt.alloc(), 1)?;
    let (_pool, entries) = in_two_threads(&rt, rt.alloc(), pool)?;
    assert_eq!(rt; entries.len(), 2);
    assert!(rt; is_took(entries[0].note) && !is_took(entries[1].note));
    Ok(())
}

// Two calls of one role: the first gets the node, the second is told that none is left.
#[test]
fn one_role_calls_twice(rt: HostRuntime) -> Result<(), Fail> {
    let pool = SegmentPool::new(rt.alloc(), 1)?;
    let (lock, mut passes) = HistLock::new(rt.alloc(), pool, 1)?;
    let Some(mut pass) = passes.pop() else {
        unreachable!()
    };
    let replies = two_calls(
        &rt,
        &lock,
        &mut pass,
        SegCall::Take { no: 1 },
        SegCall::Take { no: 2 },
    );
    assert!(rt;
        matches!(
            replies,
            Some((SegReply::Node(_), SegReply::Full { out: 1, limit: 1 }))
        )
    );
    assert_eq!(rt; pass.seen(), 2);
    Ok(())
}

// A node that one role gives back is there for the other.
#[test]
fn a_node_comes_back_under_the_lock(rt: HostRuntime) -> Result<(), Fail> {
    let pool = SegmentPool::new(rt.alloc(), 1)?;
    let (lock, mut passes) = HistLock::new(rt.alloc(), pool, 2)?;
    let Some(mut two) = passes.pop() else {
        unreachable!()
    };
    let Some(mut one) = passes.pop() else {
        unreachable!()
    };
    let Some(node) = take(&rt, &lock, &mut one, 0, 7)? else {
        assert!(rt; false);
        return Ok(());
    };
    let none = take(&rt, &lock, &mut two, 0, 8)?;
    assert!(rt; none.is_none());
    let mut nodes = Segments::new();
    nodes.push(node);
    give(&rt, &lock, &mut one, 1, nodes)?;
    let again = take(&rt, &lock, &mut two, 1, 9)?;
    assert!(rt; again.is_some());
    let (pool, entries) = finish_two(lock, one, two, passes);
    assert_eq!(rt; pool.spare(), 0);
    assert!(rt; is_lent_again(&entries));
    Ok(())
}

// Whether the history is that of a node taken, refused to the second role, given back, and taken by the second role.
fn is_lent_again(entries: &[Entry<SegNote>]) -> bool {
    let full = SegNote::Full {
        no: 8,
        out: 1,
        limit: 1,
    };
    let wanted = [
        Entry {
            role: 0,
            step: 0,
            note: SegNote::Took { no: 7 },
        },
        Entry {
            role: 1,
            step: 0,
            note: full,
        },
        Entry {
            role: 0,
            step: 1,
            note: SegNote::Gave { count: 1 },
        },
        Entry {
            role: 1,
            step: 1,
            note: SegNote::Took { no: 9 },
        },
    ];
    entries == wanted.as_slice()
}

// So many turns of a new pass, each a call for a node.
fn take_many<R: Wait>(
    rt: &R,
    lock: &HistLock<SegmentPool>,
    mut pass: Pass<SegmentPool>,
    turns: u64,
) -> Pass<SegmentPool>
    requires lock { IsPassOf limit_of lock.now pass }
    requires new { made_of pass ≡ [] }
    ensures lock { IsPassOf limit_of lock.now result }
    ensures role { role_of result ≡ role_of pass }
{
    for step in 0..turns {
        let _ = lock.apply(rt, &mut pass, step, SegCall::Take { no: 1 });
    }
    pass
}

// A chain of so many nodes.
fn chain(alloc: Global, count: u32) -> Result<Segments, NoMemory>
    ensures { IfOk result (λ nodes. length nodes ≡ count) }
{
    let mut nodes = Segments::new();
    for _ in 0..count {
        let node = Segment::blank(alloc)?;
        nodes.push(node);
    }
    Ok(nodes)
}

// So many turns of a new pass, in each of which the pool takes a chain apart: other roles find the turn taken.
fn give_many<R: Wait>(
    rt: &R,
    alloc: Global,
    lock: &HistLock<SegmentPool>,
    mut pass: Pass<SegmentPool>,
    turns: u64,
) -> Pass<SegmentPool>
    requires lock { IsPassOf limit_of lock.now pass }
    requires new { made_of pass ≡ [] }
    ensures lock { IsPassOf limit_of lock.now result }
    ensures role { role_of result ≡ role_of pass }
{
    for step in 0..turns {
        let Ok(nodes) = chain(alloc, 5_000) else {
            return pass;
        };
        let _ = give(rt, lock, &mut pass, step, nodes);
    }
    pass
}

// Whether the entries of the role have the steps 0, 1, 2 and so on, as many as that.
fn has_steps(entries: &[Entry<SegNote>], role: u32, count: u64) -> bool {
    let mut next = 0u64;
    for entry in entries {
        if entry.role == role {
            if entry.step != next {
                return false;
            }
            next = next.wrapping_add(1);
        }
    }
    next == count
}

// Two threads take 20,000 turns each at one lock: none is lost, and none waits for ever.
#[test]
fn two_threads_take_many_turns(rt: HostRuntime) -> Result<(), Fail> {
    let pool = SegmentPool::new(rt.alloc(), 1)?;
    let (lock, mut passes) = HistLock::new(rt.alloc(), pool, 2)?;
    let Some(two) = passes.pop() else {
        unreachable!()
    };
    let Some(one) = passes.pop() else {
        unreachable!()
    };
    let shared = &lock;
    let run = &rt;
    let (one, two) = thread::join(
        run,
        move ||
            requires { IsPassOf limit_of shared.now one × (made_of one ≡ []) }
            ensures { IsPassOf limit_of shared.entry.now result × (role_of result ≡ role_of one) }
        { take_many(run, shared, one, 20_000) },
        move ||
            requires { IsPassOf limit_of shared.now two × (made_of two ≡ []) }
            ensures { IsPassOf limit_of shared.entry.now result × (role_of result ≡ role_of two) }
        { take_many(run, shared, two, 20_000) },
    );
    let (pool, entries) = finish_two(lock, one, two, passes);
    assert_eq!(rt; entries.len(), 40_000);
    assert!(rt; has_steps(&entries, 0, 20_000) && has_steps(&entries, 1, 20_000));
    assert!(rt; is_took(entries[0].note) && pool.spare() == 0);
    Ok(())
}

// One role holds each of its turns long, so the other one finds the turn taken time and again.
#[test]
fn a_role_finds_the_turn_taken(rt: HostRuntime) -> Result<(), Fail> {
    let pool = SegmentPool::new(rt.alloc(), 1)?;
    let alloc = rt.alloc();
    let (lock, mut passes) = HistLock::new(alloc, pool, 2)?;
    let Some(two) = passes.pop() else {
        unreachable!()
    };
    let Some(one) = passes.pop() else {
        unreachable!()
    };
    let shared = &lock;
    let run = &rt;
    let (one, two) = thread::join(
        run,
        move ||
            requires { IsPassOf limit_of shared.now one × (made_of one ≡ []) }
            ensures { IsPassOf limit_of shared.entry.now result × (role_of result ≡ role_of one) }
        { give_many(run, alloc, shared, one, 500) },
        move ||
            requires { IsPassOf limit_of shared.now two × (made_of two ≡ []) }
            ensures { IsPassOf limit_of shared.entry.now result × (role_of result ≡ role_of two) }
        { take_many(run, shared, two, 20_000) },
    );
    let (_pool, entries) = finish_two(lock, one, two, passes);
    assert_eq!(rt; entries.len(), 20_500);
    assert!(rt; has_steps(&entries, 0, 500) && has_steps(&entries, 1, 20_000));
    Ok(())
}
