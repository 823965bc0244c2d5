//! The flow line of a record.
ghost use Rattle.eve_record.specs.Fields.{WritesData, WritesFields, WritesIf};
ghost use Rattle.eve_record.specs.FlowLine.{
  flow_back,
  flow_data,
  flow_line,
  flow_middle,
  totals_data,
};
ghost use Rattle.suri_base.specs.Keys.{IsNameable};
ghost use Rattle.serde_json.specs.Written.{compact_text};
ghost use Rattle.std.specs.Prelude.{◌≡◌, IfOk, OnOk, Some, codes};

use crate::address::ip_text;
use crate::digits::ascii_text;
use crate::fields::{close, count, key, open, text, writer};
use crate::parts::{
    Parts, dest, source, write_code, write_front, write_kind, write_source, write_vlans,
};
use crate::session::write_session;
use crate::streams::write_streams;
use crate::time::utc_text;
use crate::totals::{end, start, write_totals};
use community_id::community;
use flow_object::FlowLine;
use json::Writer;
use std::alloc::Global;
use suri_base::{NoMemory, Way};

// Writes the object `flow`.
fn write_flow(out: &mut Writer, parts: &Parts<'_>) -> Result<(), NoMemory>
    ensures { OnOk result (WritesIf (codes "flow")
        (Some (totals_data parts.now.line.now parts.now.start.now parts.now.end.now))
        out.old out.new) }
{
    key(out, "flow")?;
    write_totals(out, parts.line, parts.start, parts.end)
}

// Writes the fields from `flow` up to the frames.
fn write_middle(out: &mut Writer, parts: &Parts<'_>) -> Result<(), NoMemory>
    ensures { OnOk result
        (WritesFields (flow_middle parts.now.line.now parts.now.start.now parts.now.end.now)
        out.old out.new) }
{
    let sums = &parts.line.sums;
    let first = u64::from(sums.first_no);
    let last = u64::from(sums.last_no);
    write_flow(out, parts)?;
    count(out, "flow_id", first)?;
    write_code(out, sums.icmp)?;
    write_kind(out, sums.icmp)?;
    count(out, "pcap_first", first)?;
    count(out, "pcap_last", last)
}

// Writes the fields behind who sends.
fn write_back(out: &mut Writer, parts: &Parts<'_>) -> Result<(), NoMemory>
    ensures { OnOk result
        (WritesFields (flow_back parts.now.line.now parts.now.end.now)
        out.old out.new) }
{
    write_streams(out, parts.line)?;
    write_session(out, parts.line)?;
    text(out, "timestamp", parts.end)?;
    write_vlans(out, &parts.line.sums.key.vlans)
}

// Writes the object of the whole line.
fn write_line(out: &mut Writer, parts: &Parts<'_>) -> Result<(), NoMemory>
    ensures { OnOk result (WritesData (flow_data parts.now.line.now
        parts.now.community.now parts.now.source.now parts.now.dest.now
        parts.now.start.now parts.now.end.now) out.old out.new) }
{
    open(out)?;
    write_front(out, parts, Way::ToServer, "flow")?;
    write_middle(out, parts)?;
    write_source(out, parts, Way::ToServer)?;
    write_back(out, parts)?;
    close(out)
}

// The JSON text of a line.
fn json(alloc: Global, parts: &Parts<'_>) -> Result<Vec<u8>, NoMemory>
    ensures { IfOk result (λ b. b.items ≡ compact_text (flow_data parts.now.line.now
        parts.now.community.now parts.now.source.now parts.now.dest.now
        parts.now.start.now parts.now.end.now)) }
{
    let mut out = writer(alloc)?;
    write_line(&mut out, parts)?;
    Ok(out.into_inner())
}

/// The flow line of a record, in bytes, with its line feed. `seed` is that of its Community ID.
///
/// # Errors
///
/// `NoMemory` where there is none for the line.
#[tactic(auto, unfolding(crate::specs::FlowLine::flow_line))]
pub fn flow_text(alloc: Global, line: &FlowLine, seed: u16) -> Result<Vec<u8>, NoMemory>
    requires named { IsNameable line.now.sums.key }
    ensures { IfOk result (λ b. b.items ≡ flow_line line.now seed) }
{
    let sums = &line.sums;
    let community = community(alloc, &sums.key, seed)?;
    let source = ip_text(sums.key.version, source(sums, Way::ToServer).addr);
    let dest = ip_text(sums.key.version, dest(sums, Way::ToServer).addr);
    let start = utc_text(start(sums));
    let end = utc_text(end(sums));
    let parts = Parts {
        line,
        community: community.as_str(),
        source: source.as_str(),
        dest: dest.as_str(),
        start: ascii_text(&start),
        end: ascii_text(&end),
    };
    let mut text = json(alloc, &parts)?;
    text.push(b'\n')?;
    Ok(text)
}
