//! The calls of the manager.
ghost use Rattle.std.specs.Prelude.{◌≡◌, ℕ, Bool, ◌+◌, ◌<◌, ◌^◌, ◌++◌, [], ◌∷◌, IfOk, OnOk, length};
ghost use Rattle.flow_bucket.specs.declared.calls.BucketCall.TheVariants.{Sweep};
ghost use Rattle.flow_manager.specs.Sweeping.{SweptOne};
ghost use Rattle.role_steps.specs.Roles.{Acted, Fits, IsShared, MayOnBucket};
ghost use Rattle.run_rules.specs.Acts.{on_pool};
ghost use Rattle.suri_base.specs.declared.entry.PoolNote.TheVariants.{Mode, Over};

use flow_bucket::{BucketCall, BucketReply};
use flow_object::Ended;
use flow_pool::{PoolCall, PoolReply};
use role_steps::{Manager, Passes, Shared, call_bucket, call_pool};
use std::sync::Wait;
use suri_base::NoMemory;

/// Reads whether there is an emergency, and how long the pool's history was then.
///
/// # Errors
///
/// `NoMemory`.
pub(crate) fn read_mode<'c, R: Wait>(
    rt: &R,
    passes: &mut Passes<'c>,
    shared: &Shared<'c>,
) -> Result<(bool, u64), NoMemory>
    requires fits { Fits shared.now passes.old }
    requires steps { passes.old.step + 1 < 2 ^ 64 }
    ensures { IfOk result (λ t. Acted shared.now passes.old passes.new (on_pool (Mode t.0) t.1 ∷ [])) }
{
    match call_pool(rt, passes, shared, PoolCall::Mode)? {
        PoolReply::On(on) => Ok((on, passes.pool.seen())),
        _ => unreachable!(),
    }
}

/// Tells the pool that the round is over.
///
/// # Errors
///
/// `NoMemory`.
pub(crate) fn end_round<'c, R: Wait>(
    rt: &R,
    passes: &mut Passes<'c>,
    shared: &Shared<'c>,
    round: u32,
) -> Result<(), NoMemory>
    requires fits { Fits shared.now passes.old }
    requires steps { passes.old.step + 1 < 2 ^ 64 }
    ensures { OnOk result ((done : Bool) × (at : ℕ) × Acted shared.now passes.old passes.new (on_pool (Over round done) at ∷ [])) }
{
    call_pool(rt, passes, shared, PoolCall::Over { round })?;
    Ok(())
}

// The flows go to the back of the hand, in their order.
fn keep(hand: &mut Vec<Ended>, flows: Vec<Ended>) -> Result<(), NoMemory>
    ensures { OnOk result (hand.new.items ≡ hand.old.items ++ flows.items) }
{
    for ended in flows {
        hand.push(ended)?;
    }
    Ok(())
}

/// Sweeps one bucket. The flows that left go to the back of the hand.
///
/// # Errors
///
/// `NoMemory`.
pub(crate) fn sweep_one<'c, R: Wait>(
    rt: &R,
    manager: &mut Manager<'c>,
    shared: &Shared<'c>,
    at: usize,
    round: u32,
    emergency: bool,
    seen: u64,
) -> Result<(), NoMemory>
    requires shared { IsShared shared.now }
    requires fits { Fits shared.now manager.old.passes }
    requires at { at < length shared.now.buckets.items }
    requires may { MayOnBucket shared.now manager.old.passes at (Sweep round emergency seen) }
    requires steps { manager.old.passes.step + 1 < 2 ^ 64 }
    ensures { OnOk result (SweptOne shared.now manager.old manager.new at round emergency seen) }
{
    let call = BucketCall::Sweep {
        round,
        emergency,
        seen,
    };
    match call_bucket(rt, &mut manager.passes, shared, at, call)? {
        BucketReply::Swept(flows) => {
            keep(&mut manager.hand, flows)?;
            Ok(())
        }
        _ => unreachable!(),
    }
}
