//! One round of the manager.
ghost use Rattle.std.specs.Prelude.{OnOk};
ghost use Rattle.flow_manager.specs.Sweeping.{MaySweepAll, SweptAll};

use crate::calls::{end_round, read_mode, sweep_one};
use role_steps::{Manager, Shared};
use std::sync::Wait;
use suri_base::NoMemory;
use suri_outside::Gate;

/// Runs a round of the manager: by one reading of the mode each bucket is swept, by rising number; then an emergency may end. The flows
/// that left are in its hand afterwards.
///
/// The gate is told when the round begins and when it ends; nothing is promised of that.
///
/// # Errors
///
/// `NoMemory`. What was noted so far stands; nothing else is said of the manager then.
pub fn sweep_all<'c, R: Wait, G: Gate>(
    rt: &R,
    manager: &mut Manager<'c>,
    shared: &Shared<'c>,
    round: u32,
    gate: &G,
) -> Result<(), NoMemory>
    requires { MaySweepAll shared.now manager.old round }
    ensures { OnOk result (SweptAll shared.now manager.old manager.new round) }
{
    let role = manager.passes.pool.role();
    gate.at(role, round, 1);
    let (emergency, seen) = read_mode(rt, &mut manager.passes, shared)?;
    for at in 0..shared.buckets.len() {
        sweep_one(rt, manager, shared, at, round, emergency, seen)?;
    }
    end_round(rt, &mut manager.passes, shared, round)?;
    gate.at(role, round, 4);
    Ok(())
}
