//! A whole run.
ghost use Rattle.quiet_limits.specs.Payloads.{tcp_payloads};
ghost use Rattle.role_steps.specs.Roles.{setup_of};
ghost use Rattle.round_laws.specs.Between.{Between};
ghost use Rattle.run_laws.specs.Setting.{IsLayout};
ghost use Rattle.run_round.specs.Accounts.{AccountsFor, setup_for};
ghost use Rattle.run_round.specs.Closing.{IsClosed};
ghost use Rattle.run_round.specs.Quiet.{ArePlainRecords};
ghost use Rattle.run_rules.specs.Histories.{histories_of};
ghost use Rattle.run_rules.specs.Quiet.{IsQuiet};
ghost use Rattle.run_rules.specs.Setup.{rounds};
ghost use Rattle.std.specs.Prelude.{◌≡◌, ◌*◌, ◌^◌, ◌<◌, ◌≤◌, IfOk, length};
ghost use Rattle.std.specs.List.Sorted.{IsNonDecreasingBy, IsPermutation};
ghost use Rattle.suri_base.specs.Capture.{IsCapture, packets_in};

use crate::end::{finish_all, take_apart};
use crate::hands::take_waiting;
use crate::rounds::run_rounds;
use capture_index::rounds;
use flow_object::FlowLine;
use rayon::prelude::par_sort_unstable_by_key;
use recycler::drain_all;
use role_meets::Role;
use role_steps::{Recycler, Shared};
use run_start::start;
use std::alloc::Global;
use std::sync::Wait;
use std::thread::Threads;
use suri_base::{Capture, Layout, NoMemory, Trail};
use suri_opts::Options;
use suri_outside::Gate;

// The lines by the numbers of their runs, sorted in as many threads as there are processors. No thread is started for
// fewer than some thousand lines.
fn sort_lines(rt: &(impl Threads + Sync), lines: &mut Vec<FlowLine>)
    ensures same { IsPermutation lines.old.items lines.new.items }
    ensures rising { IsNonDecreasingBy (λ l. l.sums.first_no) lines.new.items }
{
    par_sort_unstable_by_key(rt, lines.as_mut_slice(), |line| line.sums.first_no);
}

// The end of a run after its last round: the end role has its turn, and all locks end.
fn close<'c, R: Wait>(
    rt: &R,
    alloc: Global,
    shared: Shared<'c>,
    mut roles: Vec<Role<'c>>,
    mut ender: Recycler<'c>,
) -> Result<(Vec<FlowLine>, Trail), NoMemory>
    requires { Between shared (rounds (setup_of shared)) roles.items ender }
    ensures layout { IfOk result (λ t. t.1.layout ≡ shared.entry.layout) }
    ensures ended { IfOk result (λ t. IsClosed (setup_of shared.entry) t.1 t.0.items) }
{
    ender.waiting = take_waiting(alloc, &mut roles);
    drain_all(rt, &mut ender, &shared)?;
    let (passes, lines) = take_apart(alloc, roles, ender)?;
    let trail = finish_all(alloc, shared, passes)?;
    Ok((lines, trail))
}

/// Runs the engine over a capture, with the roles of each round in so many threads: the first ones in turn in the one that runs this, and each other in
/// one of its own. With one thread all take turns: the workers by their numbers, the manager, the recycler.
///
/// # Errors
///
/// `NoMemory`.
pub fn run_with<R: Threads + Wait + Sync, G: Gate + Sync>(
    rt: &R,
    alloc: Global,
    capture: &Capture,
    layout: Layout,
    prealloc: u32,
    gate: &G,
    threads: usize,
) -> Result<(Vec<FlowLine>, Trail), NoMemory>
    requires threads { 0 < threads }
    requires capture { IsCapture capture.now }
    requires layout { IsLayout layout }
    requires few { rounds (setup_for capture.now layout) * layout.rows ≤ 2 ^ 24 }
    // Trail and records account for the capture, whatever the order in which the roles had the locks.
    ensures accounts { IfOk result (λ t. AccountsFor (setup_for capture.now layout) t.1 t.0.items) }
    // Where neither pool was ever full, the records are those of the plain runs of the capture.
    ensures quiet { IfOk result (λ t. IsQuiet (histories_of t.1) → ArePlainRecords layout.depth capture.now t.0.items) }
    // Neither pool is ever full where there may be as many flows as the capture has packets, and as many nodes as it has TCP segments with payload.
    ensures wide { IfOk result (λ t. length (packets_in capture.now.seen) ≤ layout.memcap → length (tcp_payloads capture.now.seen) ≤ layout.segments
        → IsQuiet (histories_of t.1)) }
{
    let count = rounds(capture, layout.round);
    let (shared, mut roles, mut ender) = start(alloc, capture, layout, prealloc)?;
    run_rounds(
        rt, alloc, &shared, count, &mut roles, &mut ender, gate, threads,
    )?;
    let (mut lines, trail) = close(rt, alloc, shared, roles, ender)?;
    sort_lines(rt, &mut lines);
    Ok((lines, trail))
}

/// Runs the engine over a capture: the flow records, by the number of their first frame, and the trail of the run, from which it can be told what
/// became of each packet.
///
/// Each round has a thread for each role. Where threads can't be made, the roles take turns.
///
/// # Errors
///
/// `NoMemory`.
pub fn run_capture<R: Threads + Wait + Sync, G: Gate + Sync>(
    rt: &R,
    alloc: Global,
    capture: &Capture,
    options: &Options,
    gate: &G,
) -> Result<(Vec<FlowLine>, Trail), NoMemory>
    requires capture { IsCapture capture.now }
    requires layout { IsLayout options.now.layout }
    requires few { rounds (setup_for capture.now options.now.layout) * options.now.layout.rows ≤ 2 ^ 24 }
    // Trail and records account for the capture, whatever the order in which the roles had the locks.
    ensures accounts { IfOk result (λ t. AccountsFor (setup_for capture.now options.now.layout) t.1 t.0.items) }
    // Where neither pool was ever full, the records are those of the plain runs of the capture, whatever the workers, batches, rounds and rows.
    ensures quiet { IfOk result (λ t. IsQuiet (histories_of t.1) → ArePlainRecords options.now.layout.depth capture.now t.0.items) }
    // Neither pool is ever full where there may be as many flows as the capture has packets, and as many nodes as it has TCP segments with payload.
    ensures wide { IfOk result (λ t. length (packets_in capture.now.seen) ≤ options.now.layout.memcap → length (tcp_payloads capture.now.seen) ≤ options.now.layout.segments
        → IsQuiet (histories_of t.1)) }
{
    let threads = options.layout.workers as usize + 2;
    run_with(
        rt,
        alloc,
        capture,
        options.layout,
        options.prealloc,
        gate,
        threads,
    )
}
