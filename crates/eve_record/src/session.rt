//! The object `tcp` of a flow line.
ghost use Rattle.eve_record.specs.Fields.{WritesData, WritesFields, WritesIf};
ghost use Rattle.eve_record.specs.FlowLine.{session_back, session_data, session_part};
ghost use Rattle.eve_record.specs.Parts.{all_flags, flag_fields};
ghost use Rattle.std.specs.Prelude.{◌≡◌, OnOk, codes};

use crate::fields::{close, key, open, text};
use crate::names::state_name;
use crate::parts::{write_flag, write_flag_fields, write_flags};
use flow_object::FlowLine;
use flow_sum::Sums;
use json::Writer;
use suri_base::NoMemory;
use suri_base::protocol::TCP;
use suri_base::tcp_flag::{SYN, URG};

// The flags of both directions.
fn flags(sums: &Sums) -> u8
    ensures { result ≡ all_flags sums.now }
{
    sums.ts.flags | sums.tc.flags
}

// Writes the fields from the state on.
fn write_back(out: &mut Writer, line: &FlowLine, flags: u8) -> Result<(), NoMemory>
    ensures { OnOk result
        (WritesFields (session_back line.now flags) out.old out.new) }
{
    text(out, "state", state_name(line.state))?;
    write_flag(out, "syn", SYN, flags)?;
    write_flags(out, "tcp_flags", flags)?;
    write_flags(out, "tcp_flags_tc", line.sums.tc.flags)?;
    write_flags(out, "tcp_flags_ts", line.sums.ts.flags)?;
    write_flag(out, "urg", URG, flags)
}

// Writes the object.
fn write_tcp(out: &mut Writer, line: &FlowLine) -> Result<(), NoMemory>
    ensures { OnOk result
        (WritesData (session_data line.now) out.old out.new) }
{
    let flags = flags(&line.sums);
    open(out)?;
    write_flag_fields(out, flags)?;
    write_back(out, line, flags)?;
    close(out)
}

/// Writes the object, for TCP alone.
pub fn write_session(out: &mut Writer, line: &FlowLine) -> Result<(), NoMemory>
    ensures { OnOk result (WritesIf (codes "tcp") (session_part line.now)
        out.old out.new) }
{
    if line.sums.key.proto != TCP {
        return Ok(());
    }
    key(out, "tcp")?;
    write_tcp(out, line)
}
