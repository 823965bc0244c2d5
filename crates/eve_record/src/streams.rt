//! The object `stream` of a flow line.
ghost use Rattle.eve_record.specs.Fields.{WritesData, WritesFields, WritesIf};
ghost use Rattle.eve_record.specs.FlowLine.{
  stop_data,
  stream_data,
  stream_fields,
  streams_data,
  streams_part,
};
ghost use Rattle.hex.specs.Hex.{encode_lower};
ghost use Rattle.serde_json.specs.Data.{string};
ghost use Rattle.std.specs.Prelude.{◌≡◌, OnOk, Some, codes};
ghost use Rattle.std.specs.Str.{IsAscii};

use crate::digits::ascii_text;
use crate::fields::{close, count, key, open, text};
use flow_object::FlowLine;
use json::Writer;
use suri_base::protocol::TCP;
use suri_base::{NoMemory, StreamLine};

// A digest in lower-case hexadecimal digits.
fn digest_text(digest: &[u8; 20]) -> [u8; 40]
    ensures value { result ≡ encode_lower digest.now }
    ensures ascii { IsAscii result }
{
    let mut text = [b'0'; 40];
    match hex::encode_to_slice(digest.as_slice(), &mut text) {
        Ok(()) => text,
        Err(_) => unreachable!(),
    }
}

// Writes the number of the frame at which a stream was stopped, where it was.
fn write_stop(out: &mut Writer, stop: u32) -> Result<(), NoMemory>
    ensures { OnOk result (WritesIf (codes "stop") (stop_data stop)
        out.old out.new) }
{
    if stop == 0 {
        Ok(())
    } else {
        count(out, "stop", u64::from(stop))
    }
}

/// Writes the field `sha1`: a digest in lower-case hexadecimal digits.
pub fn write_digest(out: &mut Writer, digest: &[u8; 20]) -> Result<(), NoMemory>
    ensures { OnOk result (WritesIf (codes "sha1") (Some (string (encode_lower digest.now)))
        out.old out.new) }
{
    text(out, "sha1", ascii_text(&digest_text(digest)))
}

// Writes the fields of one stream.
fn write_fields(out: &mut Writer, stream: &StreamLine) -> Result<(), NoMemory>
    ensures { OnOk result (WritesFields (stream_fields stream.now)
        out.old out.new) }
{
    let bytes = u64::from(stream.bytes);
    count(out, "bytes", bytes)?;
    write_digest(out, &stream.digest)?;
    write_stop(out, stream.stop)
}

// Writes one stream.
#[tactic(auto, using(crate::proofs::WrittenText::writes_object), unfolding(crate::specs::FlowLine::stream_data))]
fn write_stream(out: &mut Writer, stream: &StreamLine) -> Result<(), NoMemory>
    ensures { OnOk result (WritesData (stream_data stream.now)
        out.old out.new) }
{
    open(out)?;
    write_fields(out, stream)?;
    close(out)
}

// Writes the object.
#[tactic(auto, unfolding(crate::specs::FlowLine::streams_data))]
fn write_both(out: &mut Writer, line: &FlowLine) -> Result<(), NoMemory>
    ensures { OnOk result (WritesData (streams_data line.now)
        out.old out.new) }
{
    open(out)?;
    key(out, "toclient")?;
    write_stream(out, &line.tc)?;
    key(out, "toserver")?;
    write_stream(out, &line.ts)?;
    close(out)
}

/// Writes the object, for TCP alone.
pub fn write_streams(out: &mut Writer, line: &FlowLine) -> Result<(), NoMemory>
    ensures { OnOk result (WritesIf (codes "stream") (streams_part line.now)
        out.old out.new) }
{
    if line.sums.key.proto != TCP {
        return Ok(());
    }
    key(out, "stream")?;
    write_both(out, line)
}
