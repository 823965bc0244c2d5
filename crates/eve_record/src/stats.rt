//! The stats line.
ghost use Rattle.eve_record.specs.Fields.{WritesData, WritesFields, WritesIf};
ghost use Rattle.eve_record.specs.StatsLine.{
  capture_data,
  decoder_back,
  decoder_data,
  decoder_front,
  decoder_middle,
  records_back,
  records_data,
  records_front,
  stats_data,
  stats_event,
  stats_line,
};
ghost use Rattle.serde_json.specs.Written.{compact_text};
ghost use Rattle.std.specs.Prelude.{◌≡◌, IfOk, OnOk, Some, codes};

use crate::digits::ascii_text;
use crate::fields::{close, count, key, open, text, writer};
use crate::time::utc_text;
use json::Writer;
use run_stats::Stats;
use std::alloc::Global;
use suri_base::NoMemory;

// Writes the object `capture`.
fn write_capture(out: &mut Writer, stats: &Stats) -> Result<(), NoMemory>
    ensures { OnOk result (WritesIf (codes "capture") (Some (capture_data stats.now))
        out.old out.new) }
{
    key(out, "capture")?;
    open(out)?;
    count(out, "bytes", stats.capture_bytes)?;
    count(out, "cut_bytes", stats.cut_bytes)?;
    count(out, "frames", stats.frames)?;
    close(out)
}

// Writes the counters up to the IP headers.
fn write_counters_front(out: &mut Writer, stats: &Stats) -> Result<(), NoMemory>
    ensures { OnOk result
        (WritesFields (decoder_front stats.now) out.old out.new) }
{
    count(out, "ethertype", stats.ethertype)?;
    count(out, "fragment", stats.fragment)?;
    count(out, "icmp_small", stats.icmp_small)?;
    count(out, "ip_extensions", stats.ip_extensions)?;
    count(out, "ip_header", stats.ip_header)
}

// Writes the counters up to the other protocols.
fn write_counters_middle(out: &mut Writer, stats: &Stats) -> Result<(), NoMemory>
    ensures { OnOk result
        (WritesFields (decoder_middle stats.now) out.old out.new) }
{
    count(out, "ip_small", stats.ip_small)?;
    count(out, "ip_version", stats.ip_version)?;
    count(out, "link_small", stats.link_small)?;
    count(out, "other_proto", stats.other_proto)
}

// Writes the rest of them.
fn write_counters_back(out: &mut Writer, stats: &Stats) -> Result<(), NoMemory>
    ensures { OnOk result
        (WritesFields (decoder_back stats.now) out.old out.new) }
{
    count(out, "tcp_header", stats.tcp_header)?;
    count(out, "tcp_small", stats.tcp_small)?;
    count(out, "udp_small", stats.udp_small)?;
    count(out, "vlan_deep", stats.vlan_deep)?;
    count(out, "vlan_small", stats.vlan_small)
}

// Writes the object `decoder`.
fn write_decoder(out: &mut Writer, stats: &Stats) -> Result<(), NoMemory>
    ensures { OnOk result
        (WritesData (decoder_data stats.now) out.old out.new) }
{
    open(out)?;
    write_counters_front(out, stats)?;
    write_counters_middle(out, stats)?;
    write_counters_back(out, stats)?;
    close(out)
}

// Writes the fields of the records up to the packets that found no flow.
fn write_records_front(out: &mut Writer, stats: &Stats) -> Result<(), NoMemory>
    ensures { OnOk result
        (WritesFields (records_front stats.now) out.old out.new) }
{
    count(out, "bytes", stats.flow_bytes)?;
    count(out, "emergency", stats.emergency)?;
    count(out, "emergency_entered", stats.emergency_entered)?;
    count(out, "forced", stats.forced)?;
    count(out, "memcap_full", stats.memcap_full)?;
    count(out, "no_flow", stats.no_flow)
}

// Writes the rest of them.
fn write_records_back(out: &mut Writer, stats: &Stats) -> Result<(), NoMemory>
    ensures { OnOk result
        (WritesFields (records_back stats.now) out.old out.new) }
{
    count(out, "packets", stats.packets)?;
    count(out, "records", stats.records)?;
    count(out, "segment_full", stats.segment_full)?;
    count(out, "shutdown", stats.shutdown)?;
    count(out, "tcp_reuse", stats.tcp_reuse)?;
    count(out, "timeout", stats.timeout)
}

// Writes the object `flow`.
fn write_records(out: &mut Writer, stats: &Stats) -> Result<(), NoMemory>
    ensures { OnOk result
        (WritesData (records_data stats.now) out.old out.new) }
{
    open(out)?;
    write_records_front(out, stats)?;
    write_records_back(out, stats)?;
    close(out)
}

/// Writes the object `stats`.
pub fn write_stats(out: &mut Writer, stats: &Stats) -> Result<(), NoMemory>
    ensures { OnOk result
        (WritesData (stats_data stats.now) out.old out.new) }
{
    open(out)?;
    write_capture(out, stats)?;
    key(out, "decoder")?;
    write_decoder(out, stats)?;
    key(out, "flow")?;
    write_records(out, stats)?;
    close(out)
}

// Writes the object of the whole line, whose time has this text.
#[tactic(auto, unfolding(crate::specs::StatsLine::stats_event))]
fn write_line(out: &mut Writer, stats: &Stats, time: &str) -> Result<(), NoMemory>
    ensures { OnOk result (WritesData (stats_event time.now stats.now) out.old out.new) }
{
    open(out)?;
    text(out, "event_type", "stats")?;
    key(out, "stats")?;
    write_stats(out, stats)?;
    text(out, "timestamp", time)?;
    close(out)
}

// The JSON text of a line.
fn json(alloc: Global, stats: &Stats, time: &str) -> Result<Vec<u8>, NoMemory>
    ensures { IfOk result (λ b. b.items ≡ compact_text (stats_event time.now stats.now)) }
{
    let mut out = writer(alloc)?;
    write_line(&mut out, stats, time)?;
    Ok(out.into_inner())
}

/// The stats line, in bytes, with its line feed.
///
/// # Errors
///
/// `NoMemory` where there is none for the line.
#[tactic(auto, unfolding(crate::specs::StatsLine::stats_line))]
pub fn stats_text(alloc: Global, stats: &Stats) -> Result<Vec<u8>, NoMemory>
    ensures { IfOk result (λ b. b.items ≡ stats_line stats.now) }
{
    let time = utc_text(stats.clock);
    let mut text = json(alloc, stats, ascii_text(&time))?;
    text.push(b'\n')?;
    Ok(text)
}
