//! What is reported of a capture: its flow records, the counts of the stats line, and the trail of the run that made them.
ghost use Rattle.capture_index.specs.Order.{AreInOrder};
ghost use Rattle.pcap_read.specs.File.{Reads};
ghost use Rattle.pcap_read.specs.Header.{IsLink};
ghost use Rattle.run_counts.specs.Adding.{under_counters};
ghost use Rattle.run_counts.specs.Counting.{IsStatsOf};
ghost use Rattle.run_laws.specs.Setting.{IsLayout};
ghost use Rattle.run_round.specs.Accounts.{AccountsFor, setup_for};
ghost use Rattle.std.specs.Prelude.{◌≡◌, ◌+◌, ◌^◌, ◌≤◌, All, IfErr, IfOk, Ok, length};
ghost use Rattle.suri_base.specs.Capture.{IsCapture, packets_in};
ghost use Rattle.suri_base.specs.Frames.{AreNumbered};
ghost use Rattle.suri_base.specs.Keys.{IsNameable};
ghost use Rattle.suri_run.specs.Report.{IsAccount};
ghost use Rattle.suri_run.specs.Run.{IsUnreported};

use crate::cause::Cause;
use capture_index::{index, rounds};
use flow_object::FlowLine;
use pcap_read::{Frames, PcapFault, frames};
use run_counts::{counts_add_up, stats_of};
use run_round::run_capture;
use run_stats::Stats;
use std::alloc::Global;
use std::sync::Wait;
use std::thread::Threads;
use suri_base::{Capture, Trail};
use suri_opts::Options;
use suri_outside::Gate;

// The most sweeps of buckets in a run: rounds times rows.
const MAX_SWEEPS: u64 = 16_777_216;

/// The flow records by rising number of their first frames, the counts, and the trail.
#[derive(Drop)]
pub struct Report {
    pub lines: Vec<FlowLine>,
    pub stats: Stats,
    pub trail: Trail,
}

// The counts of a run that accounts for a capture.
fn count(capture: &Capture, lines: &[FlowLine], trail: &Trail) -> Stats
    requires capture { IsCapture capture.now }
    requires order { AreInOrder 0 (packets_in capture.now.seen) }
    requires layout { IsLayout trail.now.layout }
    requires accounts { AccountsFor (setup_for capture.now trail.now.layout) trail.now lines.now }
    ensures counts { IsStatsOf capture.now lines.now trail.now result }
    // Each frame is counted once.
    ensures once { result.frames ≡ under_counters result + result.no_flow + result.packets }
{
    counts_add_up();
    stats_of(capture, lines, trail)
}

// The report of a run over a capture.
fn report_of<R: Threads + Wait + Sync, G: Gate + Sync>(
    rt: &R,
    alloc: Global,
    bytes: Vec<u8>,
    file: Frames,
    options: &Options,
    gate: &G,
) -> Result<Report, Cause>
    requires small { length bytes.items ≤ 2 ^ 30 }
    requires inside { AreNumbered (length bytes.items) 0 file.frames }
    requires few { length file.frames ≤ 4194304 }
    requires reads { Reads bytes.items (Ok file) }
    requires link { IsLink file.link }
    requires layout { IsLayout options.now.layout }
    ensures account { IfOk result (λ r. IsAccount options.now bytes.items r.trail r.lines.items r.stats) }
    ensures named { IfOk result (λ r. All (λ line. IsNameable line.sums.key) r.lines.items) }
    ensures refused { IfErr result (IsUnreported options.now bytes.items) }
{
    let capture = index(rt, alloc, bytes, file)?;
    let layout = options.layout;
    let count_of_rounds = rounds(&capture, layout.round);
    if u64::from(count_of_rounds) * u64::from(layout.rows) > MAX_SWEEPS {
        return Err(Cause::ManyRounds {
            rounds: count_of_rounds,
            rows: layout.rows,
        });
    }
    let (lines, trail) = run_capture(rt, alloc, &capture, options, gate)?;
    let stats = count(&capture, &lines, &trail);
    Ok(Report {
        lines,
        stats,
        trail,
    })
}

/// The report of the capture in these bytes, by a run laid out by the options. It refuses what is no capture, a capture with more
/// than 4,194,304 frames, and one with more rounds and rows than 16,777,216; else it can only want memory.
pub fn make_report<R: Threads + Wait + Sync, G: Gate + Sync>(
    rt: &R,
    alloc: Global,
    bytes: Vec<u8>,
    options: &Options,
    gate: &G,
) -> Result<Report, Cause>
    requires small { length bytes.items ≤ 2 ^ 30 }
    requires layout { IsLayout options.now.layout }
    ensures account { IfOk result (λ r. IsAccount options.now bytes.items r.trail r.lines.items r.stats) }
    ensures named { IfOk result (λ r. All (λ line. IsNameable line.sums.key) r.lines.items) }
    ensures refused { IfErr result (IsUnreported options.now bytes.items) }
{
    let file = match frames(alloc, &bytes) {
        Ok(file) => file,
        Err(PcapFault::NoMemory) => return Err(Cause::NoMemory),
        Err(PcapFault::TooMany) => return Err(Cause::ManyFrames),
        Err(fault) => return Err(Cause::Refused(fault)),
    };
    report_of(rt, alloc, bytes, file, options, gate)
}
