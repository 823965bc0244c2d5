//! What waits is finished.
ghost use Rattle.std.specs.Prelude.{◌≡◌, ◌+◌, ◌*◌, ◌<◌, ◌^◌, All, OnOk, length};
ghost use Rattle.recycler.specs.Serving.{Served};
ghost use Rattle.role_steps.specs.Finishing.{MayFinish};
ghost use Rattle.role_steps.specs.Roles.{Fits, IsShared, setup_of};

use role_steps::{Recycler, Shared, finish_one};
use std::sync::Wait;
use suri_base::NoMemory;

/// Finishes each flow that waits, from the front.
///
/// # Errors
///
/// `NoMemory`.
pub(crate) fn serve<'c, R: Wait>(
    rt: &R,
    recycler: &mut Recycler<'c>,
    shared: &Shared<'c>,
) -> Result<(), NoMemory>
    requires shared { IsShared shared.now }
    requires fits { Fits shared.now recycler.old.passes }
    requires objects { All (λ e. MayFinish (setup_of shared.now) e) recycler.old.waiting.items }
    requires steps { recycler.old.passes.step + 2 * length recycler.old.waiting.items < 2 ^ 63 }
    ensures { OnOk result (Served shared.now recycler.old recycler.new) }
{
    while let Some(ended) = recycler.waiting.pop_front() {
        finish_one(rt, &mut recycler.passes, &mut recycler.lines, shared, ended)?;
    }
    Ok(())
}
