//! The netflow lines of a record.
ghost use Rattle.community_id.specs.Community.{community_bytes, community_text};
ghost use Rattle.eve_record.specs.Fields.{WritesData, WritesFields, WritesIf};
ghost use Rattle.suri_base.specs.Keys.{IsNameable};
ghost use Rattle.eve_record.specs.NetflowLine.{
  dir_age,
  dir_back,
  dir_data,
  dir_front,
  flags_back,
  flags_data,
  flags_part,
  line_where_any,
  netflow_back,
  netflow_data,
  netflow_line,
  netflow_lines,
  netflow_middle,
};
ghost use Rattle.eve_record.specs.Parts.{direction_of};
ghost use Rattle.serde_json.specs.Written.{compact_text};
ghost use Rattle.std.specs.Prelude.{◌≡◌, IfOk, OnOk, Some, codes};

use crate::address::ip_text;
use crate::digits::ascii_text;
use crate::fields::{close, count, key, open, text, writer};
use crate::parts::{
    Parts, dest, direction, source, write_code, write_flag, write_flag_fields, write_flags,
    write_front, write_kind, write_source, write_vlans,
};
use crate::time::utc_text;
use community_id::community;
use flow_object::FlowLine;
use flow_sum::Dir;
use json::Writer;
use std::alloc::Global;
use suri_base::protocol::TCP;
use suri_base::tcp_flag::{SYN, URG};
use suri_base::{NoMemory, Way};

const NANOSECONDS: u64 = 1_000_000_000;

/// A netflow line of a direction.
#[derive(Drop)]
struct NetflowEvent<'a> {
    parts: Parts<'a>,
    way: Way,
}

// Whole seconds from the first packet to the last.
fn age(dir: &Dir) -> u64
    ensures { result ≡ dir_age dir.now }
{
    dir.end.saturating_sub(dir.start) / NANOSECONDS
}

// Writes the fields of a direction up to its greatest TTL.
fn write_dir_front(out: &mut Writer, dir: &Dir, end: &str) -> Result<(), NoMemory>
    ensures { OnOk result
        (WritesFields (dir_front dir.now end.now) out.old out.new) }
{
    let max_ttl = u64::from(dir.max_ttl);
    count(out, "age", age(dir))?;
    count(out, "bytes", dir.bytes)?;
    text(out, "end", end)?;
    count(out, "max_ttl", max_ttl)
}

// Writes the rest of them.
fn write_dir_back(out: &mut Writer, dir: &Dir, start: &str) -> Result<(), NoMemory>
    ensures { OnOk result
        (WritesFields (dir_back dir.now start.now) out.old out.new) }
{
    let min_ttl = u64::from(dir.min_ttl);
    count(out, "min_ttl", min_ttl)?;
    count(out, "pkts", dir.pkts)?;
    text(out, "start", start)
}

// Writes the object of a direction, where its start and end have these texts.
fn write_dir(out: &mut Writer, dir: &Dir, start: &str, end: &str) -> Result<(), NoMemory>
    ensures { OnOk result
        (WritesData (dir_data dir.now start.now end.now) out.old out.new) }
{
    open(out)?;
    write_dir_front(out, dir, end)?;
    write_dir_back(out, dir, start)?;
    close(out)
}

// Writes the object `netflow`.
fn write_netflow(out: &mut Writer, event: &NetflowEvent<'_>) -> Result<(), NoMemory>
    ensures { OnOk result (WritesIf (codes "netflow")
        (Some (dir_data (direction_of event.now.parts.line.now.sums event.now.way) event.now.parts.start.now event.now.parts.end.now))
        out.old out.new) }
{
    let dir = direction(&event.parts.line.sums, event.way);
    key(out, "netflow")?;
    write_dir(out, &dir, event.parts.start, event.parts.end)
}

// Writes the flags from SYN on.
fn write_flags_back(out: &mut Writer, flags: u8) -> Result<(), NoMemory>
    ensures { OnOk result
        (WritesFields (flags_back flags) out.old out.new) }
{
    write_flag(out, "syn", SYN, flags)?;
    write_flags(out, "tcp_flags", flags)?;
    write_flag(out, "urg", URG, flags)
}

// Writes the object `tcp` of these flags.
fn write_flags_object(out: &mut Writer, flags: u8) -> Result<(), NoMemory>
    ensures { OnOk result
        (WritesData (flags_data flags) out.old out.new) }
{
    open(out)?;
    write_flag_fields(out, flags)?;
    write_flags_back(out, flags)?;
    close(out)
}

// Writes it, for TCP alone.
fn write_tcp(out: &mut Writer, proto: u8, flags: u8) -> Result<(), NoMemory>
    ensures { OnOk result (WritesIf (codes "tcp") (flags_part proto flags)
        out.old out.new) }
{
    if proto != TCP {
        return Ok(());
    }
    key(out, "tcp")?;
    write_flags_object(out, flags)
}

// Writes the fields up to `netflow`.
fn write_middle(out: &mut Writer, event: &NetflowEvent<'_>) -> Result<(), NoMemory>
    ensures { OnOk result (WritesFields
        (netflow_middle event.now.parts.line.now event.now.way event.now.parts.start.now event.now.parts.end.now)
        out.old out.new) }
{
    let sums = &event.parts.line.sums;
    let first = u64::from(sums.first_no);
    count(out, "flow_id", first)?;
    write_code(out, sums.icmp)?;
    write_kind(out, sums.icmp)?;
    write_netflow(out, event)
}

// Writes the fields behind who sends.
fn write_back(out: &mut Writer, event: &NetflowEvent<'_>) -> Result<(), NoMemory>
    ensures { OnOk result (WritesFields
        (netflow_back event.now.parts.line.now event.now.way event.now.parts.end.now)
        out.old out.new) }
{
    let sums = &event.parts.line.sums;
    let flags = direction(sums, event.way).flags;
    write_tcp(out, sums.key.proto, flags)?;
    text(out, "timestamp", event.parts.end)?;
    write_vlans(out, &sums.key.vlans)
}

// Writes the object of the whole line.
fn write_line(out: &mut Writer, event: &NetflowEvent<'_>) -> Result<(), NoMemory>
    ensures { OnOk result (WritesData (netflow_data event.now.parts.line.now event.now.way
        event.now.parts.community.now event.now.parts.source.now event.now.parts.dest.now
        event.now.parts.start.now event.now.parts.end.now) out.old out.new) }
{
    open(out)?;
    write_front(out, &event.parts, event.way, "netflow")?;
    write_middle(out, event)?;
    write_source(out, &event.parts, event.way)?;
    write_back(out, event)?;
    close(out)
}

// The JSON text of a line.
fn json(alloc: Global, event: &NetflowEvent<'_>) -> Result<Vec<u8>, NoMemory>
    ensures { IfOk result (λ b. b.items ≡ compact_text (netflow_data event.now.parts.line.now event.now.way
        event.now.parts.community.now event.now.parts.source.now event.now.parts.dest.now
        event.now.parts.start.now event.now.parts.end.now)) }
{
    let mut out = writer(alloc)?;
    write_line(&mut out, event)?;
    Ok(out.into_inner())
}

// The line of a direction of a flow with this Community ID.
#[tactic(auto, unfolding(crate::specs::NetflowLine::netflow_line))]
fn line_text(alloc: Global, line: &FlowLine, way: Way, community: &str) -> Result<Vec<u8>, NoMemory>
    ensures { IfOk result (λ b. b.items ≡ netflow_line line.now way community.now) }
{
    let sums = &line.sums;
    let source = ip_text(sums.key.version, source(sums, way).addr);
    let dest = ip_text(sums.key.version, dest(sums, way).addr);
    let dir = direction(sums, way);
    let start = utc_text(dir.start);
    let end = utc_text(dir.end);
    let parts = Parts {
        line,
        community,
        source: source.as_str(),
        dest: dest.as_str(),
        start: ascii_text(&start),
        end: ascii_text(&end),
    };
    let mut text = json(alloc, &NetflowEvent { parts, way })?;
    text.push(b'\n')?;
    Ok(text)
}

// The line of a direction that has a packet; of another, no byte.
fn text_where_any(
    alloc: Global,
    line: &FlowLine,
    way: Way,
    community: &str,
) -> Result<Vec<u8>, NoMemory>
    ensures { IfOk result (λ b. b.items ≡ line_where_any line.now way community.now) }
{
    if direction(&line.sums, way).pkts == 0 {
        Ok(Vec::new(alloc))
    } else {
        line_text(alloc, line, way, community)
    }
}

/// The netflow lines of a record, in bytes, each with its line feed: one for each direction that has a packet, that to
/// the server first. `seed` is that of their Community ID.
///
/// # Errors
///
/// `NoMemory` where there is none for the lines.
#[tactic(auto, unfolding(crate::specs::NetflowLine::netflow_lines))]
pub fn netflow_text(alloc: Global, line: &FlowLine, seed: u16) -> Result<Vec<u8>, NoMemory>
    requires named { IsNameable line.now.sums.key }
    ensures { IfOk result (λ b. b.items ≡ netflow_lines line.now seed) }
{
    let community = community(alloc, &line.sums.key, seed)?;
    let mut text = text_where_any(alloc, line, Way::ToServer, community.as_str())?;
    let answers = text_where_any(alloc, line, Way::ToClient, community.as_str())?;
    text.extend_from_slice(&answers)?;
    Ok(text)
}
