//! Pools whose every reply is worked out by hand.
ghost use Rattle.std.specs.Prelude.{◌≡◌, ℕ, All, Bool, IfOk};
ghost use Rattle.flow_pool.specs.Counting.{Answered, IsIdle, MayCall};
ghost use Rattle.flow_pool.specs.Pool.{setting_of, HasFlowPast};

use crate::{FlowPool, PoolCall, PoolReply};
use flow_object::FlowObj;
use std::alloc::Global;
use std::test::Fail;
use suri_base::{App, Machine, NoMemory, PoolNote};

// Room is made for the call, and the pool answers it.
fn ask(pool: &mut FlowPool, call: PoolCall) -> Result<(PoolReply, PoolNote), NoMemory>
    requires past { HasFlowPast pool.old }
    requires may { MayCall (setting_of pool.old) call }
    ensures past { HasFlowPast pool.new }
    ensures setting { setting_of pool.new ≡ setting_of pool.old }
    ensures answer { IfOk result (λ told. (out : ℕ) × (on : Bool) × Answered (setting_of pool.old) out on call told.0 told.1) }
{
    pool.reserve(&call)?;
    Ok(pool.step(0, call))
}

// The one object is lent, the next call finds none and an emergency begins, which ends once the object is back.
#[test]
fn one_object_goes_round(rt: HostRuntime) -> Result<(), Fail> {
    let mut pool = FlowPool::new(rt.alloc(), 1, 0, 100, 0)?;
    assert!(rt; pool.made() == 0 && pool.spare() == 0);
    let (reply, note) = ask(&mut pool, PoolCall::Take { no: 1 })?;
    let PoolReply::Obj(obj) = reply else {
        assert!(rt; false);
        return Ok(());
    };
    assert!(rt; note == PoolNote::Took { no: 1 } && pool.made() == 1 && pool.spare() == 0);
    let (reply, note) = ask(&mut pool, PoolCall::Take { no: 2 })?;
    assert!(rt; matches!(reply, PoolReply::Full { out: 1, limit: 1 }));
    assert!(rt;
        note == PoolNote::Full {
            no: 2,
            out: 1,
            limit: 1
        }
    );
    let (reply, note) = ask(&mut pool, PoolCall::Mode)?;
    assert!(rt; matches!(reply, PoolReply::On(true)) && note == PoolNote::Mode { on: true });
    let (reply, note) = ask(&mut pool, PoolCall::Over { round: 0 })?;
    assert!(rt; matches!(reply, PoolReply::Ended(false)));
    assert!(rt;
        note == PoolNote::Over {
            round: 0,
            ended: false
        }
    );
    let (reply, note) = ask(&mut pool, PoolCall::Put { run: 1, obj })?;
    assert!(rt; matches!(reply, PoolReply::Done) && note == PoolNote::Put { run: 1 });
    let (reply, note) = ask(&mut pool, PoolCall::Over { round: 0 })?;
    assert!(rt; matches!(reply, PoolReply::Ended(true)));
    assert!(rt;
        note == PoolNote::Over {
            round: 0,
            ended: true
        }
    );
    let (reply, note) = ask(&mut pool, PoolCall::Mode)?;
    assert!(rt; matches!(reply, PoolReply::On(false)) && note == PoolNote::Mode { on: false });
    assert!(rt; pool.made() == 1 && pool.spare() == 1);
    Ok(())
}

// An object that has a verdict keeps it where it is handed on, and the pool counts it as out.
#[test]
fn hands_the_same_object_on(rt: HostRuntime) -> Result<(), Fail> {
    let mut pool = FlowPool::new(rt.alloc(), 1, 1, 100, 0)?;
    let (reply, _) = ask(&mut pool, PoolCall::Take { no: 3 })?;
    let PoolReply::Obj(mut obj) = reply else {
        assert!(rt; false);
        return Ok(());
    };
    obj.judge(App::Tls);
    let (reply, note) = ask(&mut pool, PoolCall::Turn { run: 3, no: 7, obj })?;
    let PoolReply::Turned(obj) = reply else {
        assert!(rt; false);
        return Ok(());
    };
    assert!(rt; note == PoolNote::Turn { run: 3, no: 7 });
    assert!(rt; obj.app() == App::Tls && pool.spare() == 0);
    Ok(())
}

// Of more objects than there may be only as many are made, and one that is none of the pool's isn't kept.
#[test]
fn keeps_no_object_too_many(rt: HostRuntime) -> Result<(), Fail> {
    let mut pool = FlowPool::new(rt.alloc(), 2, 9, 100, 4)?;
    assert!(rt; pool.made() == 2 && pool.spare() == 2);
    let obj = FlowObj::new(rt.alloc(), 4)?;
    let (reply, note) = ask(&mut pool, PoolCall::Put { run: 5, obj })?;
    assert!(rt; matches!(reply, PoolReply::Done) && note == PoolNote::Put { run: 5 });
    assert!(rt; pool.made() == 2 && pool.spare() == 2);
    Ok(())
}

// Takes so many objects, or as many as there are.
fn take_many(alloc: Global, pool: &mut FlowPool, count: u32) -> Result<Vec<Box<FlowObj>>, NoMemory>
    requires past { HasFlowPast pool.old }
    ensures past { HasFlowPast pool.new }
    ensures setting { setting_of pool.new ≡ setting_of pool.old }
    ensures idle { IfOk result (λ objects. All (λ o. IsIdle (setting_of pool.old) o.value) objects.items) }
{
    let mut objects = Vec::new(alloc);
    for no in 0..count {
        if let (PoolReply::Obj(obj), _) = ask(pool, PoolCall::Take { no })? {
            objects.push(obj)?;
        }
    }
    Ok(objects)
}

// Puts all these objects back.
fn put_all(pool: &mut FlowPool, mut objects: Vec<Box<FlowObj>>) -> Result<(), NoMemory>
    requires past { HasFlowPast pool.old }
    requires idle { All (λ o. IsIdle (setting_of pool.old) o.value) objects.items }
    ensures past { HasFlowPast pool.new }
    ensures setting { setting_of pool.new ≡ setting_of pool.old }
{
    while let Some(obj) = objects.pop() {
        ask(pool, PoolCall::Put { run: 1, obj })?;
    }
    Ok(())
}

fn is_full(pool: &mut FlowPool, limit: u32) -> Result<bool, NoMemory>
    requires past { HasFlowPast pool.old }
    ensures past { HasFlowPast pool.new }
    ensures setting { setting_of pool.new ≡ setting_of pool.old }
{
    let (reply, _) = ask(pool, PoolCall::Take { no: 9_999 })?;
    Ok(match reply {
        PoolReply::Full { out, limit: told } => out == limit && told == limit,
        _ => false,
    })
}

// Thousands of objects go out and come back, twice: first each is made when it is asked for, and then none.
#[test]
fn many_objects_go_round(rt: HostRuntime) -> Result<(), Fail> {
    let mut pool = FlowPool::new(rt.alloc(), 5_000, 10, 30, 0)?;
    for _ in 0..2 {
        let objects = take_many(rt.alloc(), &mut pool, 5_000)?;
        assert!(rt; objects.len() == 5_000 && pool.made() == 5_000 && pool.spare() == 0);
        assert!(rt; is_full(&mut pool, 5_000)?);
        put_all(&mut pool, objects)?;
        assert!(rt; pool.made() == 5_000 && pool.spare() == 5_000);
    }
    Ok(())
}
