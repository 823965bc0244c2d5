//! One round of the recycler.
ghost use Rattle.std.specs.Prelude.{◌≡◌, [], OnOk};
ghost use Rattle.recycler.specs.Recycling.{MayRecycle, Recycled};

use crate::serve::serve;
use role_steps::{Recycler, Shared};
use std::sync::Wait;
use suri_base::NoMemory;
use suri_outside::Gate;

/// Runs a round of the recycler: each flow that waits is finished, from the front.
///
/// The gate is told when the round begins and when it ends; nothing is promised of that.
///
/// # Errors
///
/// `NoMemory`. What was noted so far stands; nothing else is said of the recycler then.
pub fn recycle<'c, R: Wait, G: Gate>(
    rt: &R,
    recycler: &mut Recycler<'c>,
    shared: &Shared<'c>,
    round: u32,
    gate: &G,
) -> Result<(), NoMemory>
    requires { MayRecycle shared.now recycler.old }
    ensures recycled { OnOk result (Recycled shared.now recycler.old recycler.new) }
    ensures waiting { OnOk result (recycler.new.waiting.items ≡ []) }
{
    let role = recycler.passes.pool.role();
    gate.at(role, round, 1);
    serve(rt, recycler, shared)?;
    gate.at(role, round, 4);
    Ok(())
}
