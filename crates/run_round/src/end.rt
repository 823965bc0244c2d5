//! The end of a run.
ghost use Rattle.role_meets.specs.Parts.{lines_of, passes_in};
ghost use Rattle.run_round.specs.Closing.{AreAll, AreParted, HaveFinished};
ghost use Rattle.run_start.specs.Starting.{HaveRoles};
ghost use Rattle.std.specs.List.Sorted.{IsPermutation};
ghost use Rattle.std.specs.Prelude.{◌≡◌, ◌<◌, ◌++◌, IfOk, OnOk, length};

use flow_object::FlowLine;
use lock_rows::finish_rows;
use role_meets::{Part, Role};
use role_steps::{Passes, Recycler, Shared};
use std::alloc::Global;
use std::mem::swap;
use suri_base::{NoMemory, Trail};

// These lines and those in one vector, in any order: the fewer go behind the more, since a million lines are better not copied.
fn join(lines: &mut Vec<FlowLine>, mut more: Vec<FlowLine>) -> Result<(), NoMemory>
    ensures { OnOk result (IsPermutation (lines.old.items ++ more.items) lines.new.items) }
{
    if lines.len() < more.len() {
        swap(lines, &mut more);
    }
    lines.append(&mut more)?;
    Ok(())
}

// The passes of a role, whose lines come to those that are there.
fn part_of<'c>(part: Part<'c>, lines: &mut Vec<FlowLine>) -> Result<Passes<'c>, NoMemory>
    ensures passes { IfOk result (λ p. p ≡ passes_in part.entry) }
    ensures lines { OnOk result (IsPermutation (lines.old.items ++ lines_of part.entry) lines.new.items) }
{
    match part {
        Part::Work(worker) => {
            join(lines, worker.lines)?;
            Ok(worker.passes)
        }
        Part::Manage(manager) => Ok(manager.passes),
        Part::Recycle(recycler) => {
            join(lines, recycler.lines)?;
            Ok(recycler.passes)
        }
    }
}

/// The passes of all roles, by their numbers, and the lines of all flows, in any order.
///
/// # Errors
///
/// `NoMemory`; then roles and lines are given up.
pub fn take_apart<'c>(
    alloc: Global,
    mut roles: Vec<Role<'c>>,
    ender: Recycler<'c>,
) -> Result<(Vec<Passes<'c>>, Vec<FlowLine>), NoMemory>
    ensures { IfOk result (λ t. AreParted roles.entry.items ender.entry t.0.items t.1.items) }
{
    let mut passes = Vec::with_capacity(alloc, roles.len() + 1)?;
    let mut lines = Vec::new(alloc);
    roles.reverse();
    while let Some(role) = roles.pop() {
        let own = part_of(role.part, &mut lines)?;
        passes.push_reserved(own);
    }
    join(&mut lines, ender.lines)?;
    passes.push_reserved(ender.passes);
    Ok((passes, lines))
}

/// The histories of all locks.
///
/// # Errors
///
/// `NoMemory`; then the locks and their histories are given up.
pub fn finish_all<'c>(
    alloc: Global,
    shared: Shared<'c>,
    mut passes: Vec<Passes<'c>>,
) -> Result<Trail, NoMemory>
    requires some { 0 < length passes.items }
    requires locks { HaveRoles shared (length passes.items) }
    requires all { AreAll shared passes.items }
    ensures { IfOk result (λ t. HaveFinished shared.entry passes.entry.items t) }
{
    let mut pools = Vec::with_capacity(alloc, passes.len())?;
    let mut nodes = Vec::with_capacity(alloc, passes.len())?;
    let mut rows = Vec::with_capacity(alloc, passes.len())?;
    passes.reverse();
    while let Some(own) = passes.pop() {
        let Passes {
            pool,
            segments,
            buckets,
            step: _,
        } = own;
        pools.push_reserved(pool);
        nodes.push_reserved(segments);
        rows.push_reserved(buckets);
    }
    let Shared {
        capture: _,
        layout,
        pool,
        segments,
        buckets,
    } = shared;
    let buckets = finish_rows(alloc, buckets, &mut rows)?;
    let (_, pool) = pool.finish(pools);
    let (_, segments) = segments.finish(nodes);
    Ok(Trail {
        layout,
        pool,
        segments,
        buckets,
    })
}
