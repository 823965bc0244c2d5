//! What the roles hold makes roles of them.
ghost use Rattle.std.specs.Prelude.{◌≡◌, ℕ, ◌+◌, ◌<◌, ◌≤◌, [], IfOk, false, length, slice_index_or};
ghost use Rattle.role_meets.specs.Parts.{kind_at, kind_of, passes_of, hand_of, waiting_of, lines_of};
ghost use Rattle.role_meets.specs.declared.roles.Role.{Role};
ghost use Rattle.run_start.specs.Starting.{AreNewBack, IsNew, IsNewRole};

use role_meets::{Part, Role};
use role_steps::{Manager, Passes, Recycler, Shared, Worker};
use std::alloc::Global;
use std::collections::VecDeque;
use suri_base::NoMemory;

// One that finishes flows, to which none came yet.
fn recycler<'c>(alloc: Global, passes: Passes<'c>) -> Recycler<'c>
    ensures passes { result.passes ≡ passes.entry }
    ensures waiting { result.waiting.items ≡ [] }
    ensures lines { result.lines.items ≡ [] }
{
    Recycler {
        passes,
        waiting: VecDeque::new(alloc),
        lines: Vec::new(alloc),
    }
}

// The role of that number: the workers come first, and then the manager and the recycler.
fn cast<'c>(alloc: Global, passes: Passes<'c>, number: u32, workers: u32) -> Role<'c>
    ensures passes { passes_of result ≡ passes.entry }
    ensures kind { kind_of result.part ≡ kind_at workers number }
    ensures hand { hand_of result.part ≡ [] }
    ensures waiting { waiting_of result.part ≡ [] }
    ensures lines { lines_of result.part ≡ [] }
    ensures well { result.failed ≡ false }
{
    let part = if number < workers {
        Part::Work(Worker {
            passes,
            hand: VecDeque::new(alloc),
            lines: Vec::new(alloc),
        })
    } else if number == workers {
        Part::Manage(Manager {
            passes,
            hand: Vec::new(alloc),
        })
    } else {
        Part::Recycle(recycler(alloc, passes))
    };
    Role {
        part,
        failed: false,
    }
}

/// The roles of the rounds in order, and the end role. What they hold is handed in from the last role to the first.
///
/// # Errors
///
/// `NoMemory`.
pub(crate) fn cast_all<'c>(
    alloc: Global,
    shared: &Shared<'c>,
    mut all: Vec<Passes<'c>>,
) -> Result<(Vec<Role<'c>>, Recycler<'c>), NoMemory>
    requires few { shared.now.layout.workers ≤ 64 }
    requires count { length all.items ≡ shared.now.layout.workers + 3 }
    requires new { AreNewBack shared.now (shared.now.layout.workers + 3) all.items }
    ensures count { IfOk result (λ t. length t.0.items ≡ shared.now.layout.workers + 2) }
    ensures roles { IfOk result (λ t. (k : ℕ) (d : Role) → k < length t.0.items → IsNewRole shared.now k (slice_index_or t.0.items k d)) }
    ensures ender { IfOk result (λ t. IsNew shared.now (shared.now.layout.workers + 2) t.1.passes) }
    ensures waiting { IfOk result (λ t. t.1.waiting.items ≡ []) }
    ensures lines { IfOk result (λ t. t.1.lines.items ≡ []) }
{
    let workers = shared.layout.workers;
    let count = workers + 2;
    let mut roles = Vec::with_capacity(alloc, count as usize)?;
    for number in 0..count {
        let Some(passes) = all.pop() else {
            unreachable!()
        };
        roles.push_reserved(cast(alloc, passes, number, workers));
    }
    let Some(passes) = all.pop() else {
        unreachable!()
    };
    Ok((roles, recycler(alloc, passes)))
}
