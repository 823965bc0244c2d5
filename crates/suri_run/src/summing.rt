//! Writing the summary of a report, whose lines are made and added up, and not written.
ghost use Rattle.eve_record.specs.SummaryLine.{Tallies, summary_of};
ghost use Rattle.record_texts.specs.Lines.{lines_of};
ghost use Rattle.std.specs.Io.KnownBytes.{Appends};
ghost use Rattle.std.specs.Prelude.{◌≡◌, ◌++◌, All, IfErr, IfOk, List, OnErr, OnOk, flat_map, ℕ};
ghost use Rattle.suri_base.specs.Keys.{IsNameable};
ghost use Rattle.suri_outside.specs.Bytes.{TakesFront};
ghost use Rattle.suri_run.specs.Report.{text_of};
ghost use Rattle.suri_run.specs.Run.{IsWriteCause};

use crate::cause::Cause;
use crate::report::Report;
use crate::writing::{PIECE, ROUND};
use eve_record::{Tally, stats_text, summary_text};
use flow_object::FlowLine;
use record_texts::texts;
use std::alloc::Global;
use std::thread::Threads;
use suri_opts::Options;
use suri_outside::{Failed, Sink, write_whole};

// Adds texts behind the text so far.
fn tally_texts(tally: &mut Tally, texts: &[Vec<u8>])
    ensures { (text : List ℕ) → Tallies tally.old text → Tallies tally.new (text ++ flat_map (λ t. t.items) texts.now) }
{
    for text in texts {
        tally.add(text);
    }
}

// Makes the lines of a round of records, and adds them behind the text so far.
fn tally_round(
    rt: &(impl Threads + Sync),
    alloc: Global,
    tally: &mut Tally,
    options: &Options,
    round: &[FlowLine],
) -> Result<(), Cause>
    requires { All (λ line. IsNameable line.sums.key) round.now }
    ensures ok { OnOk result ((text : List ℕ) → Tallies tally.old text
        → Tallies tally.new (text ++ lines_of options.now.seed options.now.netflow round.now)) }
    ensures refused { IfErr result (λ c. c ≡ Cause.NoMemory) }
{
    let texts = texts(rt, alloc, round, options.seed, options.netflow, PIECE)?;
    tally_texts(tally, &texts);
    Ok(())
}

// Makes and adds up the lines of all records, round by round.
fn tally_lines(
    rt: &(impl Threads + Sync),
    alloc: Global,
    options: &Options,
    lines: &[FlowLine],
) -> Result<Tally, Cause>
    requires { All (λ line. IsNameable line.sums.key) lines.now }
    ensures ok { IfOk result (λ t. Tallies t (lines_of options.now.seed options.now.netflow lines.now)) }
    ensures refused { IfErr result (λ c. c ≡ Cause.NoMemory) }
{
    let mut tally = Tally::new();
    for round in lines.chunks(ROUND) {
        tally_round(rt, alloc, &mut tally, options, round)?;
    }
    Ok(tally)
}

// Makes and adds up the whole text of a report.
fn tally_report(
    rt: &(impl Threads + Sync),
    alloc: Global,
    options: &Options,
    report: &Report,
) -> Result<Tally, Cause>
    requires { All (λ line. IsNameable line.sums.key) report.now.lines.items }
    ensures ok { IfOk result (λ t. Tallies t (text_of options.now report.now.lines.items report.now.stats)) }
    ensures refused { IfErr result (λ c. c ≡ Cause.NoMemory) }
{
    let mut tally = tally_lines(rt, alloc, options, &report.lines)?;
    let line = stats_text(alloc, &report.stats)?;
    tally.add(&line);
    Ok(tally)
}

// The summary line of a report over the capture of this seed and of so many frames.
fn summary(
    rt: &(impl Threads + Sync),
    alloc: Global,
    options: &Options,
    report: &Report,
    seed: u64,
    frames: u32,
) -> Result<Vec<u8>, Cause>
    requires { All (λ line. IsNameable line.sums.key) report.now.lines.items }
    ensures ok { IfOk result (λ v. v.items ≡ summary_of report.now.stats seed frames
        (text_of options.now report.now.lines.items report.now.stats)) }
    ensures refused { IfErr result (λ c. c ≡ Cause.NoMemory) }
{
    let tally = tally_report(rt, alloc, options, report)?;
    let (count, digest) = tally.finish();
    Ok(summary_text(alloc, &report.stats, seed, frames, count, &digest)?)
}

/// Writes the summary of a report over the capture of this seed and of so many frames. Where memory runs out or a write fails, a
/// front of it was written.
pub fn write_summary<K: Sink>(
    rt: &(impl Threads + Sync),
    alloc: Global,
    sink: &mut K,
    options: &Options,
    report: &Report,
    seed: u64,
    frames: u32,
) -> Result<(), Cause>
    requires { All (λ line. IsNameable line.sums.key) report.now.lines.items }
    ensures ok { OnOk result (Appends (K.taken sink.old) (K.taken sink.new)
        (summary_of report.now.stats seed frames (text_of options.now report.now.lines.items report.now.stats))) }
    ensures front { OnErr result (TakesFront (K.taken sink.old) (K.taken sink.new)
        (summary_of report.now.stats seed frames (text_of options.now report.now.lines.items report.now.stats))) }
    ensures cause { IfErr result (IsWriteCause (K.faults sink.old) (K.faults sink.new)) }
    ensures quiet { OnOk result (K.faults sink.new ≡ K.faults sink.old) }
{
    let line = summary(rt, alloc, options, report, seed, frames)?;
    match write_whole(sink, &line) {
        Ok(()) => Ok(()),
        Err(Failed) => Err(Cause::WriteFault),
    }
}
