//! After a round all roles tell each other what they have seen.
ghost use Rattle.std.specs.Prelude.{◌≡◌, ℕ, ◌<◌, All, length, slice_index_or};
ghost use Rattle.role_meets.specs.Meets.{Told, Heard, Grown, SameRole, Informed, MetAll};
ghost use Rattle.role_meets.specs.Parts.{passes_of};
ghost use Rattle.role_meets.specs.declared.roles.Role.{Role};
ghost use Rattle.role_steps.specs.Roles.{Fits, seen};
ghost use Rattle.run_rules.specs.Growing.{HasGrown};

use crate::roles::{Part, Role};
use lock_rows::tell_rows;
use role_steps::{Passes, Recycler, Shared};

// What one has seen reaches the other, at every lock.
fn tell<'c>(shared: &Shared<'c>, from: &mut Passes<'c>, to: &mut Passes<'c>)
    requires from { Fits shared.now from.old }
    requires to { Fits shared.now to.old }
    ensures from { Told shared.now from.old from.new }
    ensures to { Heard shared.now from.old to.old to.new }
    ensures grown { Grown shared.now to.old to.new }
{
    let first = from.pool.role();
    let second = to.pool.role();
    shared.pool.meet(&mut from.pool, &mut to.pool);
    shared.segments.meet(&mut from.segments, &mut to.segments);
    tell_rows(
        &shared.buckets,
        &mut from.buckets,
        &mut to.buckets,
        first,
        second,
    );
}

// The end role hears a role.
fn hear<'c>(shared: &Shared<'c>, role: &mut Role<'c>, ender: &mut Recycler<'c>)
    requires role { Fits shared.now (passes_of role.old) }
    requires ender { Fits shared.now ender.old.passes }
    ensures same { SameRole role.old role.new }
    ensures role { Told shared.now (passes_of role.old) (passes_of role.new) }
    ensures ender { Heard shared.now (passes_of role.old) ender.old.passes ender.new.passes }
    ensures waiting { ender.new.waiting.items ≡ ender.old.waiting.items }
    ensures lines { ender.new.lines.items ≡ ender.old.lines.items }
{
    match &mut role.part {
        Part::Work(worker) => tell(shared, &mut worker.passes, &mut ender.passes),
        Part::Manage(manager) => tell(shared, &mut manager.passes, &mut ender.passes),
        Part::Recycle(recycler) => tell(shared, &mut recycler.passes, &mut ender.passes),
    }
}

// A role hears the end role, which has seen all that the role has.
fn inform<'c>(shared: &Shared<'c>, ender: &mut Recycler<'c>, role: &mut Role<'c>)
    requires role { Fits shared.now (passes_of role.old) }
    requires ender { Fits shared.now ender.old.passes }
    requires less { HasGrown (seen (passes_of role.old)) (seen ender.old.passes) }
    ensures ender { Told shared.now ender.old.passes ender.new.passes }
    ensures role { Informed shared.now (seen ender.old.passes) role.old role.new }
    ensures waiting { ender.new.waiting.items ≡ ender.old.waiting.items }
    ensures lines { ender.new.lines.items ≡ ender.old.lines.items }
{
    match &mut role.part {
        Part::Work(worker) => tell(shared, &mut ender.passes, &mut worker.passes),
        Part::Manage(manager) => tell(shared, &mut ender.passes, &mut manager.passes),
        Part::Recycle(recycler) => tell(shared, &mut ender.passes, &mut recycler.passes),
    }
}

// The end role hears all.
fn hear_all<'c>(shared: &Shared<'c>, roles: &mut [Role<'c>], ender: &mut Recycler<'c>)
    requires roles { All (λ r. Fits shared.now (passes_of r)) roles.old }
    requires ender { Fits shared.now ender.old.passes }
    ensures count { length roles.new ≡ length roles.old }
    ensures roles { (k : ℕ) (d : Role) → k < length roles.old → SameRole (slice_index_or roles.old k d) (slice_index_or roles.new k d)
        × Told shared.now (passes_of (slice_index_or roles.old k d)) (passes_of (slice_index_or roles.new k d)) }
    ensures begins { (k : ℕ) (d : Role) → k < length roles.old → HasGrown (seen (passes_of (slice_index_or roles.old k d))) (seen ender.new.passes) }
    ensures ender { Grown shared.now ender.old.passes ender.new.passes }
    ensures waiting { ender.new.waiting.items ≡ ender.old.waiting.items }
    ensures lines { ender.new.lines.items ≡ ender.old.lines.items }
{
    for role in roles.iter_mut() {
        hear(shared, role, ender);
    }
}

// All hear the end role.
fn inform_all<'c>(shared: &Shared<'c>, roles: &mut [Role<'c>], ender: &mut Recycler<'c>)
    requires roles { All (λ r. Fits shared.now (passes_of r)) roles.old }
    requires less { All (λ r. HasGrown (seen (passes_of r)) (seen ender.old.passes)) roles.old }
    requires ender { Fits shared.now ender.old.passes }
    ensures count { length roles.new ≡ length roles.old }
    ensures roles { (k : ℕ) (d : Role) → k < length roles.old
        → Informed shared.now (seen ender.old.passes) (slice_index_or roles.old k d) (slice_index_or roles.new k d) }
    ensures ender { Told shared.now ender.old.passes ender.new.passes }
    ensures waiting { ender.new.waiting.items ≡ ender.old.waiting.items }
    ensures lines { ender.new.lines.items ≡ ender.old.lines.items }
{
    for role in roles.iter_mut() {
        inform(shared, ender, role);
    }
}

/// After it all roles have seen the same histories, which begin with what each had seen, and each has made what it had made.
pub fn meet_all<'c>(shared: &Shared<'c>, roles: &mut [Role<'c>], ender: &mut Recycler<'c>)
    requires roles { All (λ r. Fits shared.now (passes_of r)) roles.old }
    requires ender { Fits shared.now ender.old.passes }
    ensures { MetAll shared.now roles.old roles.new ender.old ender.new }
{
    hear_all(shared, roles, ender);
    inform_all(shared, roles, ender);
}
