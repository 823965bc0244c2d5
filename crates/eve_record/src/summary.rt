//! The summary line of a generated capture.
ghost use Rattle.eve_record.specs.Fields.{WritesData, WritesFields, WritesIf};
ghost use Rattle.eve_record.specs.StatsLine.{counted, stats_data};
ghost use Rattle.eve_record.specs.SummaryLine.{summary_event, summary_front, summary_line};
ghost use Rattle.serde_json.specs.Written.{compact_text};
ghost use Rattle.std.specs.Prelude.{◌≡◌, IfOk, OnOk, Some, codes};

use crate::fields::{close, count, key, open, text, writer};
use crate::stats::write_stats;
use crate::streams::write_digest;
use json::Writer;
use run_stats::Stats;
use std::alloc::Global;
use suri_base::NoMemory;

// Writes the fields before the stats.
fn write_front(
    out: &mut Writer,
    seed: u64,
    frames: u32,
    lines: u64,
    digest: &[u8; 20],
) -> Result<(), NoMemory>
    ensures { OnOk result (WritesFields (summary_front seed frames lines digest.now) out.old out.new) }
{
    text(out, "event_type", "summary")?;
    count(out, "frames", u64::from(frames))?;
    count(out, "lines", lines)?;
    count(out, "seed", seed)?;
    write_digest(out, digest)
}

// Writes the field of the stats.
fn write_back(out: &mut Writer, stats: &Stats) -> Result<(), NoMemory>
    ensures { OnOk result (WritesIf (codes "stats") (Some (stats_data stats.now)) out.old out.new) }
{
    key(out, "stats")?;
    write_stats(out, stats)
}

// Writes the object of the whole line.
fn write_line(
    out: &mut Writer,
    stats: &Stats,
    seed: u64,
    frames: u32,
    lines: u64,
    digest: &[u8; 20],
) -> Result<(), NoMemory>
    ensures { OnOk result (WritesData (summary_event stats.now seed frames lines digest.now) out.old out.new) }
{
    open(out)?;
    write_front(out, seed, frames, lines, digest)?;
    write_back(out, stats)?;
    close(out)
}

// The JSON text of a line.
fn json(
    alloc: Global,
    stats: &Stats,
    seed: u64,
    frames: u32,
    lines: u64,
    digest: &[u8; 20],
) -> Result<Vec<u8>, NoMemory>
    ensures { IfOk result (λ b. b.items ≡ compact_text (summary_event stats.now seed frames lines digest.now)) }
{
    let mut out = writer(alloc)?;
    write_line(&mut out, stats, seed, frames, lines, digest)?;
    Ok(out.into_inner())
}

/// The summary line, in bytes, with its line feed: of a text of so many lines and with this SHA-1 digest, which a run over
/// the capture of this seed and of so many frames wrote. The stats are those in the text.
///
/// # Errors
///
/// `NoMemory` where there is none for the line.
#[tactic(auto, unfolding(crate::specs::SummaryLine::summary_line))]
pub fn summary_text(
    alloc: Global,
    stats: &Stats,
    seed: u64,
    frames: u32,
    lines: u64,
    digest: &[u8; 20],
) -> Result<Vec<u8>, NoMemory>
    ensures { IfOk result (λ b. b.items ≡ summary_line stats.now seed frames lines digest.now) }
{
    let mut text = json(alloc, stats, seed, frames, lines, digest)?;
    text.push(b'\n')?;
    Ok(text)
}
