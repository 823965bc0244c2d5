//! The segments of a web conversation.
ghost use Rattle.capture_gen.specs.Web.{counting, payload_bytes, segment_of};
ghost use Rattle.std.specs.Prelude.{◌≡◌, ◌<◌, ◌≤◌, ◌++◌, OnOk, length};

use suri_base::NoMemory;

// A request and its empty line.
const REQUEST: &str = "GET / HTTP/1.1\r\n\r\n";

/// What a segment bears.
#[derive(Clone, Copy, Debug, PartialEq, Eq)]
pub enum Payload {
    /// No byte.
    Nothing,
    /// A request.
    Request,
    /// What the server answers.
    Answer,
}

/// A TCP segment.
#[derive(Clone, Copy, Debug, PartialEq, Eq)]
pub struct Segment {
    pub from_client: bool,
    pub flags: u8,
    pub seq: u32,
    pub ack: u32,
    pub payload: Payload,
}

fn sent(from_client: bool, flags: u8, seq: u32, ack: u32, payload: Payload) -> Segment
    ensures { result ≡ record { from_client = from_client; flags = flags; seq = seq; ack = ack; payload = payload } }
{
    Segment {
        from_client,
        flags,
        seq,
        ack,
        payload,
    }
}

/// The segment of a step, from 1, of a conversation of this size.
pub fn segment_of(size: u16, step: u8) -> Segment
    ensures { result ≡ segment_of size step }
{
    let end = 5101 + u32::from(size);
    match step {
        1 => sent(true, 0x02, 1000, 0, Payload::Nothing),
        2 => sent(false, 0x12, 5000, 1001, Payload::Nothing),
        3 => sent(true, 0x10, 1001, 5001, Payload::Nothing),
        4 => sent(true, 0x18, 1001, 5001, Payload::Request),
        5 => sent(false, 0x18, 5001, 1019, Payload::Answer),
        6 => sent(true, 0x10, 1019, end, Payload::Nothing),
        7 => sent(true, 0x11, 1019, end, Payload::Nothing),
        8 => sent(false, 0x10, end, 1020, Payload::Nothing),
        9 => sent(false, 0x11, end, 1020, Payload::Nothing),
        _ => sent(true, 0x10, 1020, end + 1, Payload::Nothing),
    }
}

// Writes bytes that count from 0 on and begin again after 255.
fn write_counting(out: &mut Vec<u8>, count: u16) -> Result<(), NoMemory>
    ensures { OnOk result (out.new.items ≡ out.old.items ++ counting count) }
{
    for byte in 0..count {
        out.push((byte % 256) as u8)?;
    }
    Ok(())
}

/// Writes what a segment of a conversation of this size bears.
pub fn write_payload(out: &mut Vec<u8>, size: u16, payload: Payload) -> Result<(), NoMemory>
    requires { size < 400 }
    ensures { OnOk result (out.new.items ≡ out.old.items ++ payload_bytes size payload) }
{
    match payload {
        Payload::Nothing => Ok(()),
        Payload::Request => {
            out.extend_from_slice(REQUEST.as_bytes())?;
            Ok(())
        }
        Payload::Answer => write_counting(out, 100 + size),
    }
}

/// How many bytes that is.
pub fn payload_size(size: u16, payload: Payload) -> u16
    requires { size < 400 }
    ensures value { result ≡ length (payload_bytes size payload) }
    ensures small { result < 500 }
{
    match payload {
        Payload::Nothing => 0,
        Payload::Request => 18,
        Payload::Answer => 100 + size,
    }
}
