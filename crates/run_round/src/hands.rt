//! The flows that left in a round are handed on.
ghost use Rattle.role_meets.specs.Parts.{hand_of, kind_of, recycles};
ghost use Rattle.role_meets.specs.declared.roles.Role.{Role};
ghost use Rattle.round_laws.specs.Playing.{AreHandedOn};
ghost use Rattle.run_round.specs.Handing.{IsEmptied, AreEmptied, IsTaken};
ghost use Rattle.std.specs.Prelude.{◌≡◌, ◌≢◌, ℕ, ◌+◌, ◌<◌, ◌++◌, [], OnOk, IfOk, length, slice_index_or};

use flow_object::Ended;
use role_meets::{Part, Role};
use std::alloc::Global;
use std::collections::VecDeque;
use std::mem;
use suri_base::NoMemory;

// All that is in a worker's hand goes to the back of the queue.
fn empty_deque(queue: &mut VecDeque<Ended>, hand: &mut VecDeque<Ended>) -> Result<(), NoMemory>
    ensures { OnOk result ((hand.new.items ≡ []) × (queue.new.items ≡ queue.old.items ++ hand.old.items)) }
{
    while let Some(ended) = hand.pop_front() {
        queue.push_back(ended)?;
    }
    Ok(())
}

// The same of flows in the manager's hand.
fn queue_up(queue: &mut VecDeque<Ended>, flows: Vec<Ended>) -> Result<(), NoMemory>
    ensures { OnOk result (queue.new.items ≡ queue.old.items ++ flows.items) }
{
    for ended in flows {
        queue.push_back(ended)?;
    }
    Ok(())
}

// What is in a role's hand goes to the back of the queue.
fn take_hand<'c>(
    alloc: Global,
    queue: &mut VecDeque<Ended>,
    role: &mut Role<'c>,
) -> Result<(), NoMemory>
    ensures queue { OnOk result (queue.new.items ≡ queue.old.items ++ hand_of role.old.part) }
    ensures emptied { OnOk result (IsEmptied role.old role.new) }
{
    match &mut role.part {
        Part::Work(worker) => empty_deque(queue, &mut worker.hand),
        Part::Manage(manager) => queue_up(queue, mem::replace(&mut manager.hand, Vec::new(alloc))),
        Part::Recycle(_) => Ok(()),
    }
}

// What is in all hands, in the order of the roles.
fn gather<'c>(alloc: Global, roles: &mut [Role<'c>]) -> Result<VecDeque<Ended>, NoMemory>
    ensures { IfOk result (λ queue. AreEmptied queue.items roles.old roles.new) }
{
    let mut queue = VecDeque::new(alloc);
    for role in roles.iter_mut() {
        take_hand(alloc, &mut queue, role)?;
    }
    Ok(queue)
}

/// The flows in all hands wait for the recycler, who is the last of these roles, in the order of the roles.
pub fn hand_on<'c>(alloc: Global, roles: &mut [Role<'c>]) -> Result<(), NoMemory>
    requires last { (n : ℕ) × (length roles.old ≡ n + 1) × ((d : Role) → kind_of (slice_index_or roles.old n d).part ≡ recycles) }
    requires others { (k : ℕ) (d : Role) → k + 1 < length roles.old → kind_of (slice_index_or roles.old k d).part ≢ recycles }
    ensures { OnOk result (AreHandedOn roles.old roles.new) }
{
    let queue = gather(alloc, roles)?;
    let last = roles.len() - 1;
    match &mut roles[last].part {
        Part::Recycle(recycler) => recycler.waiting = queue,
        _ => unreachable!(),
    }
    Ok(())
}

/// What waits for the recycler, who is the last of these roles, is taken from it.
pub fn take_waiting<'c>(alloc: Global, roles: &mut [Role<'c>]) -> VecDeque<Ended>
    requires last { (n : ℕ) × (length roles.old ≡ n + 1) × ((d : Role) → kind_of (slice_index_or roles.old n d).part ≡ recycles) }
    ensures { IsTaken result.items roles.old roles.new }
{
    let last = roles.len() - 1;
    match &mut roles[last].part {
        Part::Recycle(recycler) => mem::replace(&mut recycler.waiting, VecDeque::new(alloc)),
        _ => unreachable!(),
    }
}
