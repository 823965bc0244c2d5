//! One round.
ghost use Rattle.role_meets.specs.Parts.{passes_of};
ghost use Rattle.role_meets.specs.declared.roles.Role.{Role};
ghost use Rattle.round_laws.specs.Playing.{MayPlay, Played};
ghost use Rattle.std.specs.Bool.{OnTrue};
ghost use Rattle.std.specs.Prelude.{◌≡◌, ℕ, ◌<◌, All, false, length, slice_index_or, OnOk};

use crate::works::{Works, all_work};
use flow_manager::sweep_all;
use flow_worker::work;
use recycler::recycle;
use role_meets::{Part, Role};
use role_steps::Shared;
use std::alloc::Global;
use std::sync::Wait;
use std::thread::Threads;
use suri_base::NoMemory;
use suri_outside::Gate;

/// What the roles work on in one round.
#[derive(Drop)]
pub struct Round<'s, 'c> {
    pub alloc: Global,
    pub shared: &'s Shared<'c>,
    /// Rounds are numbered from 0.
    pub number: u32,
}

// One round of a role, whichever it is.
fn play<'c, R: Wait, G: Gate>(
    rt: &R,
    alloc: Global,
    part: &mut Part<'c>,
    shared: &Shared<'c>,
    round: u32,
    gate: &G,
) -> Result<(), NoMemory>
    requires ready { MayPlay shared.now round part.old }
    ensures played { OnOk result (Played shared.now round part.old part.new) }
{
    match part {
        Part::Work(worker) => work(rt, alloc, worker, shared, round, gate),
        Part::Manage(manager) => sweep_all(rt, manager, shared, round, gate),
        Part::Recycle(recycler) => recycle(rt, recycler, shared, round, gate),
    }
}

impl<'s, 'c> Works<Round<'s, 'c>> for Role<'c> {
    ghost use Rattle.round_laws.specs.Playing.{MayPlay, Played};
    ghost use Rattle.std.specs.Prelude.{◌≡◌, false};

    ghost ready = { λ round role. MayPlay round.shared.now round.number role.part };

    ghost done = { λ round old new. new.failed ≡ false → Played round.shared.now round.number old.part new.part };

    fn work<R: Wait, G: Gate>(&mut self, rt: &R, round: &Round<'s, 'c>, gate: &G) {
        let shared = round.shared;
        self.failed = play(rt, round.alloc, &mut self.part, shared, round.number, gate).is_err();
    }
}

/// Each role does its round, in so many threads.
pub fn play_all<'s, 'c, R: Threads + Wait + Sync, G: Gate + Sync>(
    rt: &R,
    round: &Round<'s, 'c>,
    gate: &G,
    roles: &mut [Role<'c>],
    threads: usize,
)
    requires threads { 0 < threads }
    requires ready { (k : ℕ) (d : Role) → k < length roles.old → MayPlay round.now.shared.now round.now.number (slice_index_or roles.old k d).part }
    ensures length { length roles.new ≡ length roles.old }
    ensures played { (k : ℕ) (d : Role) → k < length roles.old → (slice_index_or roles.new k d).failed ≡ false
        → Played round.now.shared.now round.now.number (slice_index_or roles.old k d).part (slice_index_or roles.new k d).part }
{
    all_work(rt, round, gate, roles, threads);
}

/// No role was refused memory.
pub fn all_well<'c>(roles: &[Role<'c>]) -> bool
    ensures { OnTrue result (All (λ r. r.failed ≡ false) roles.now) }
{
    for role in roles {
        if role.failed {
            return false;
        }
    }
    true
}
