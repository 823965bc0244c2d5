//! All rounds.
ghost use Rattle.role_meets.specs.declared.roles.Role.{Role};
ghost use Rattle.role_steps.specs.Roles.{setup_of};
ghost use Rattle.round_laws.specs.Between.{Between};
ghost use Rattle.run_rules.specs.Setup.{rounds};
ghost use Rattle.std.specs.Prelude.{◌≡◌, ◌<◌, OnOk};

use crate::hands::hand_on;
use crate::play::{Round, all_well, play_all};
use role_meets::{Role, meet_all};
use role_steps::{Recycler, Shared};
use std::alloc::Global;
use std::sync::Wait;
use std::thread::Threads;
use suri_base::NoMemory;
use suri_outside::Gate;

/// Runs all rounds, one after another, with the roles beside each other in each of them. After each round the roles tell each other what they
/// have seen, and hand their flows on.
///
/// # Errors
///
/// `NoMemory`.
pub fn run_rounds<'s, 'c, R: Threads + Wait + Sync, G: Gate + Sync>(
    rt: &R,
    alloc: Global,
    shared: &'s Shared<'c>,
    count: u32,
    roles: &mut [Role<'c>],
    ender: &mut Recycler<'c>,
    gate: &G,
    threads: usize,
) -> Result<(), NoMemory>
    requires threads { 0 < threads }
    requires count { count ≡ rounds (setup_of shared.now) }
    requires between { Between shared.now 0 roles.old ender.old }
    ensures between { OnOk result (Between shared.now count roles.new ender.new) }
{
    for number in 0..count {
        let round = Round {
            alloc,
            shared,
            number,
        };
        play_all(rt, &round, gate, roles, threads);
        if !all_well(roles) {
            return Err(NoMemory);
        }
        meet_all(shared, roles, ender);
        hand_on(alloc, roles)?;
    }
    Ok(())
}
