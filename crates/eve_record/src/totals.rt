//! The object `flow` of the flow line.
ghost use Rattle.eve_record.specs.Fields.{WritesData, WritesFields};
ghost use Rattle.eve_record.specs.FlowLine.{
  age_of,
  end_of,
  start_of,
  totals_back,
  totals_data,
  totals_front,
};
ghost use Rattle.std.specs.Prelude.{◌≡◌, OnOk};

use crate::fields::{close, count, falsehood, open, text, truth};
use crate::names::{class_name, reason_name};
use flow_object::FlowLine;
use flow_sum::Sums;
use json::Writer;
use suri_base::NoMemory;

const NANOSECONDS: u64 = 1_000_000_000;

/// The time of the earliest packet, in nanoseconds since 1970-01-01T00:00:00 UTC.
pub fn start(sums: &Sums) -> u64
    ensures { result ≡ start_of sums.now }
{
    if sums.ts.pkts == 0 {
        sums.tc.start
    } else if sums.tc.pkts == 0 {
        sums.ts.start
    } else {
        sums.ts.start.min(sums.tc.start)
    }
}

/// The time of the latest packet, in the same unit.
pub fn end(sums: &Sums) -> u64
    ensures { result ≡ end_of sums.now }
{
    sums.ts.end.max(sums.tc.end)
}

// Whole seconds between the two.
fn age(sums: &Sums) -> u64
    ensures { result ≡ age_of sums.now }
{
    end(sums).saturating_sub(start(sums)) / NANOSECONDS
}

// Writes the fields up to the end.
fn write_front(out: &mut Writer, line: &FlowLine, end: &str) -> Result<(), NoMemory>
    ensures { OnOk result
        (WritesFields (totals_front line.now end.now) out.old out.new) }
{
    count(out, "age", age(&line.sums))?;
    falsehood(out, "alerted")?;
    count(out, "bytes_toclient", line.sums.tc.bytes)?;
    count(out, "bytes_toserver", line.sums.ts.bytes)?;
    truth(out, "emergency", line.emergency)?;
    text(out, "end", end)
}

// Writes the fields behind the end.
fn write_back(out: &mut Writer, line: &FlowLine, start: &str) -> Result<(), NoMemory>
    ensures { OnOk result
        (WritesFields (totals_back line.now start.now) out.old out.new) }
{
    count(out, "pkts_toclient", line.sums.tc.pkts)?;
    count(out, "pkts_toserver", line.sums.ts.pkts)?;
    text(out, "reason", reason_name(line.reason))?;
    text(out, "start", start)?;
    text(out, "state", class_name(line.class))
}

/// Writes the object, where start and end have these texts.
pub fn write_totals(
    out: &mut Writer,
    line: &FlowLine,
    start: &str,
    end: &str,
) -> Result<(), NoMemory>
    ensures { OnOk result
        (WritesData (totals_data line.now start.now end.now) out.old out.new) }
{
    open(out)?;
    write_front(out, line, end)?;
    write_back(out, line, start)?;
    close(out)
}
