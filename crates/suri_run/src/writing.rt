//! Writing a report: the lines of its records, its stats line and, where it is asked for, its trail, gathered into large blocks; or its
//! summary.
ghost use Rattle.std.specs.Io.KnownBytes.{Appends};
ghost use Rattle.std.specs.Prelude.{◌≡◌, ◌++◌, All, IfErr, IfOk, None, OnErr, OnOk, flat_map};
ghost use Rattle.suri_outside.specs.Bytes.{TakesAllBut, TakesFront};
ghost use Rattle.suri_base.specs.Keys.{IsNameable};
ghost use Rattle.record_texts.specs.Lines.{lines_of};
ghost use Rattle.suri_run.specs.Report.{audit_behind, output_of, text_of};
ghost use Rattle.suri_run.specs.Run.{IsWriteCause};
ghost use Rattle.eve_record.specs.StatsLine.{stats_line};
ghost use Rattle.trail_text.specs.Lines.{text_of_trail};

use crate::cause::Cause;
use crate::report::Report;
use crate::summing::write_summary;
use eve_record::stats_text;
use flow_object::FlowLine;
use record_texts::texts;
use run_stats::Stats;
use std::alloc::Global;
use std::thread::Threads;
use suri_base::Trail;
use suri_opts::Options;
use suri_outside::{BLOCK, Failed, Gathered, Sink};
use trail_text::trail_text;

/// How many records' lines are in memory at once.
pub const ROUND: usize = 32_768;

/// How many records' lines are made in one text: about 45 KB of flow lines, so that `malloc` need not ask the system for
/// each text's memory.
pub const PIECE: usize = 64;

// Sends texts behind what waits.
fn send_texts<K: Sink>(
    sink: &mut K,
    gathered: &mut Gathered,
    texts: &[Vec<u8>],
) -> Result<(), Cause>
    ensures ok { OnOk result (TakesAllBut (K.taken sink.old) (K.taken sink.new) gathered.new (gathered.old ++ flat_map (λ t. t.items) texts.now)) }
    ensures front { OnErr result (TakesFront (K.taken sink.old) (K.taken sink.new) (gathered.old ++ flat_map (λ t. t.items) texts.now)) }
    ensures cause { IfErr result (IsWriteCause (K.faults sink.old) (K.faults sink.new)) }
    ensures quiet { OnOk result (K.faults sink.new ≡ K.faults sink.old) }
{
    for text in texts {
        gathered.add(sink, text)?;
    }
    Ok(())
}

// Makes the lines of a round of records, and sends them behind what waits.
fn send_round<K: Sink>(
    rt: &(impl Threads + Sync),
    alloc: Global,
    sink: &mut K,
    gathered: &mut Gathered,
    options: &Options,
    round: &[FlowLine],
) -> Result<(), Cause>
    requires { All (λ line. IsNameable line.sums.key) round.now }
    ensures ok { OnOk result (TakesAllBut (K.taken sink.old) (K.taken sink.new) gathered.new
        (gathered.old ++ lines_of options.now.seed options.now.netflow round.now)) }
    ensures front { OnErr result (TakesFront (K.taken sink.old) (K.taken sink.new)
        (gathered.old ++ lines_of options.now.seed options.now.netflow round.now)) }
    ensures cause { IfErr result (IsWriteCause (K.faults sink.old) (K.faults sink.new)) }
    ensures quiet { OnOk result (K.faults sink.new ≡ K.faults sink.old) }
{
    let texts = texts(rt, alloc, round, options.seed, options.netflow, PIECE)?;
    send_texts(sink, gathered, &texts)
}

// Sends the lines of all records, round by round. What is answered still waits.
fn send_lines<K: Sink>(
    rt: &(impl Threads + Sync),
    alloc: Global,
    sink: &mut K,
    options: &Options,
    lines: &[FlowLine],
) -> Result<Gathered, Cause>
    requires { All (λ line. IsNameable line.sums.key) lines.now }
    ensures ok { IfOk result (λ g. TakesAllBut (K.taken sink.old) (K.taken sink.new) g
        (lines_of options.now.seed options.now.netflow lines.now)) }
    ensures front { OnErr result (TakesFront (K.taken sink.old) (K.taken sink.new)
        (lines_of options.now.seed options.now.netflow lines.now)) }
    ensures cause { IfErr result (IsWriteCause (K.faults sink.old) (K.faults sink.new)) }
    ensures quiet { OnOk result (K.faults sink.new ≡ K.faults sink.old) }
{
    let mut gathered = Gathered::new(alloc);
    for round in lines.chunks(ROUND) {
        send_round(rt, alloc, sink, &mut gathered, options, round)?;
    }
    Ok(gathered)
}

// Sends the stats line behind what waits.
fn send_stats<K: Sink>(
    alloc: Global,
    sink: &mut K,
    gathered: &mut Gathered,
    stats: &Stats,
) -> Result<(), Cause>
    ensures ok { OnOk result (TakesAllBut (K.taken sink.old) (K.taken sink.new) gathered.new (gathered.old ++ stats_line stats.now)) }
    ensures front { OnErr result (TakesFront (K.taken sink.old) (K.taken sink.new) (gathered.old ++ stats_line stats.now)) }
    ensures cause { IfErr result (IsWriteCause (K.faults sink.old) (K.faults sink.new)) }
    ensures quiet { OnOk result (K.faults sink.new ≡ K.faults sink.old) }
{
    let line = stats_text(alloc, stats)?;
    gathered.add(sink, &line)?;
    Ok(())
}

// Sends a long text behind what waits, block by block, so that no second copy of it has to wait.
fn send_blocks<K: Sink>(sink: &mut K, gathered: &mut Gathered, text: &[u8]) -> Result<(), Cause>
    ensures ok { OnOk result (TakesAllBut (K.taken sink.old) (K.taken sink.new) gathered.new (gathered.old ++ text.now)) }
    ensures front { OnErr result (TakesFront (K.taken sink.old) (K.taken sink.new) (gathered.old ++ text.now)) }
    ensures cause { IfErr result (IsWriteCause (K.faults sink.old) (K.faults sink.new)) }
    ensures quiet { OnOk result (K.faults sink.new ≡ K.faults sink.old) }
{
    for block in text.chunks(BLOCK) {
        gathered.add(sink, block)?;
    }
    Ok(())
}

// Sends the text of a trail behind what waits.
fn send_trail<K: Sink>(
    alloc: Global,
    sink: &mut K,
    gathered: &mut Gathered,
    trail: &Trail,
) -> Result<(), Cause>
    ensures ok { OnOk result (TakesAllBut (K.taken sink.old) (K.taken sink.new) gathered.new (gathered.old ++ text_of_trail trail.now)) }
    ensures front { OnErr result (TakesFront (K.taken sink.old) (K.taken sink.new) (gathered.old ++ text_of_trail trail.now)) }
    ensures cause { IfErr result (IsWriteCause (K.faults sink.old) (K.faults sink.new)) }
    ensures quiet { OnOk result (K.faults sink.new ≡ K.faults sink.old) }
{
    let text = trail_text(alloc, trail)?;
    send_blocks(sink, gathered, text.as_bytes())
}

// Sends the text of the trail of a run behind what waits, where an audit is asked for.
fn send_audit<K: Sink>(
    alloc: Global,
    sink: &mut K,
    gathered: &mut Gathered,
    audit: bool,
    trail: &Trail,
) -> Result<(), Cause>
    ensures ok { OnOk result (TakesAllBut (K.taken sink.old) (K.taken sink.new) gathered.new
        (gathered.old ++ audit_behind None audit trail.now)) }
    ensures front { OnErr result (TakesFront (K.taken sink.old) (K.taken sink.new) (gathered.old ++ audit_behind None audit trail.now)) }
    ensures cause { IfErr result (IsWriteCause (K.faults sink.old) (K.faults sink.new)) }
    ensures quiet { OnOk result (K.faults sink.new ≡ K.faults sink.old) }
{
    if audit {
        send_trail(alloc, sink, gathered, trail)
    } else {
        Ok(())
    }
}

// Sends the text of a report, whose lines are made by several threads, and its audit behind it. What is answered still waits.
fn send_report<K: Sink>(
    rt: &(impl Threads + Sync),
    alloc: Global,
    sink: &mut K,
    options: &Options,
    report: &Report,
) -> Result<Gathered, Cause>
    requires { All (λ line. IsNameable line.sums.key) report.now.lines.items }
    ensures ok { IfOk result (λ g. TakesAllBut (K.taken sink.old) (K.taken sink.new) g
        (text_of options.now report.now.lines.items report.now.stats ++ audit_behind None options.now.audit report.now.trail)) }
    ensures front { OnErr result (TakesFront (K.taken sink.old) (K.taken sink.new)
        (text_of options.now report.now.lines.items report.now.stats ++ audit_behind None options.now.audit report.now.trail)) }
    ensures cause { IfErr result (IsWriteCause (K.faults sink.old) (K.faults sink.new)) }
    ensures quiet { OnOk result (K.faults sink.new ≡ K.faults sink.old) }
{
    let mut gathered = send_lines(rt, alloc, sink, options, &report.lines)?;
    send_stats(alloc, sink, &mut gathered, &report.stats)?;
    send_audit(alloc, sink, &mut gathered, options.audit, &report.trail)?;
    Ok(gathered)
}

// Writes the text of a report and its audit. Where memory runs out or a write fails, a front of them was written.
fn write_report<K: Sink>(
    rt: &(impl Threads + Sync),
    alloc: Global,
    sink: &mut K,
    options: &Options,
    report: &Report,
) -> Result<(), Cause>
    requires { All (λ line. IsNameable line.sums.key) report.now.lines.items }
    ensures ok { OnOk result (Appends (K.taken sink.old) (K.taken sink.new)
        (text_of options.now report.now.lines.items report.now.stats ++ audit_behind None options.now.audit report.now.trail)) }
    ensures front { OnErr result (TakesFront (K.taken sink.old) (K.taken sink.new)
        (text_of options.now report.now.lines.items report.now.stats ++ audit_behind None options.now.audit report.now.trail)) }
    ensures cause { IfErr result (IsWriteCause (K.faults sink.old) (K.faults sink.new)) }
    ensures quiet { OnOk result (K.faults sink.new ≡ K.faults sink.old) }
{
    let gathered = send_report(rt, alloc, sink, options, report)?;
    match gathered.finish(sink) {
        Ok(()) => Ok(()),
        Err(Failed) => Err(Cause::WriteFault),
    }
}

/// Writes what is asked for: the text of a report with its audit, or, where its capture was generated, the summary. Where memory runs
/// out or a write fails, a front of that was written.
pub fn write_output<K: Sink>(
    rt: &(impl Threads + Sync),
    alloc: Global,
    sink: &mut K,
    options: &Options,
    report: &Report,
) -> Result<(), Cause>
    requires { All (λ line. IsNameable line.sums.key) report.now.lines.items }
    ensures ok { OnOk result (Appends (K.taken sink.old) (K.taken sink.new)
        (output_of options.now report.now.lines.items report.now.stats report.now.trail)) }
    ensures front { OnErr result (TakesFront (K.taken sink.old) (K.taken sink.new)
        (output_of options.now report.now.lines.items report.now.stats report.now.trail)) }
    ensures cause { IfErr result (IsWriteCause (K.faults sink.old) (K.faults sink.new)) }
    ensures quiet { OnOk result (K.faults sink.new ≡ K.faults sink.old) }
{
    match options.generate {
        None => write_report(rt, alloc, sink, options, report),
        Some((seed, frames)) => write_summary(rt, alloc, sink, options, report, seed, frames),
    }
}
