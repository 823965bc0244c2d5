ghost use Rattle.std.specs.Prelude.{◌≡◌, ℕ};
ghost use Rattle.segment_pool.specs.Counting.{Answered, MayCall};
ghost use Rattle.segment_pool.specs.Pool.{limit_of, HasPast};

use crate::{SegCall, SegReply, SegmentPool};
use std::test::Fail;
use suri_base::{Machine, SegNote, Segments};

// Room is made for the call, and the pool answers it.
fn ask(pool: &mut SegmentPool, call: SegCall) -> (SegReply, SegNote)
    requires past { HasPast pool.old }
    requires may { MayCall call }
    ensures past { HasPast pool.new }
    ensures answer { (out : ℕ) × Answered (limit_of pool.old) out call result.0 result.1 }
{
    let Ok(()) = pool.reserve(&call) else {
        unreachable!()
    };
    pool.step(0, call)
}

// One node is lent, the next call is told that none is left, and a node that came back is lent again.
#[test]
fn one_node_goes_round(rt: HostRuntime) -> Result<(), Fail> {
    let mut pool = SegmentPool::new(rt.alloc(), 1)?;
    assert_eq!(rt; pool.spare(), 1);
    let (reply, note) = ask(&mut pool, SegCall::Take { no: 1 });
    let SegReply::Node(node) = reply else {
        assert!(rt; false);
        return Ok(());
    };
    assert!(rt; note == SegNote::Took { no: 1 } && pool.spare() == 0);
    let (reply, note) = ask(&mut pool, SegCall::Take { no: 2 });
    assert!(rt; matches!(reply, SegReply::Full { out: 1, limit: 1 }));
    assert!(rt;
        note == SegNote::Full {
            no: 2,
            out: 1,
            limit: 1
        }
    );
    let mut nodes = Segments::new();
    nodes.push(node);
    assert!(rt; !nodes.is_empty());
    let (_, note) = ask(&mut pool, SegCall::Give { nodes });
    assert!(rt; note == SegNote::Gave { count: 1 } && pool.spare() == 1);
    let (reply, _) = ask(&mut pool, SegCall::Take { no: 3 });
    assert!(rt; matches!(reply, SegReply::Node(_)));
    Ok(())
}

// A chain of a million nodes is taken apart in a loop: with a call for each node the stack would end before it.
#[test]
fn a_long_chain_is_dropped(rt: HostRuntime) -> Result<(), Fail> {
    let pool = SegmentPool::new(rt.alloc(), 1_000_000)?;
    assert_eq!(rt; pool.spare(), 1_000_000);
    drop(pool);
    Ok(())
}
