//! The frames of a generated capture.
ghost use Rattle.capture_gen.specs.Frame.{frame, link, tag};
ghost use Rattle.std.specs.Prelude.{◌≡◌, ◌==◌, ◌%◌, ◌<◌, ◌≤◌, ◌++◌, OnOk, length};

use crate::conversation::conversation_from;
use crate::packet::{body_size, write_packet};
use crate::plan::Turn;
use suri_base::NoMemory;

// Whether the frames of a lane have a tag.
fn is_tagged(lane: u8) -> bool
    ensures { result ≡ (lane % 2 == 1) }
{
    lane % 2 == 1
}

// Writes the tag of a lane's frames.
#[tactic(auto, using(std::proofs::lemmas::List::append_assoc))]
fn write_tag(out: &mut Vec<u8>, lane: u8) -> Result<(), NoMemory>
    requires { lane < 16 }
    ensures { OnOk result (out.new.items ≡ out.old.items ++ tag lane) }
{
    if is_tagged(lane) {
        out.extend_from_slice(&[0x81, 0x00])?;
        out.extend_from_slice(&(100 + u16::from(lane)).to_be_bytes())?;
    }
    Ok(())
}

// Writes what stands before the packet.
#[tactic(auto, using(std::proofs::lemmas::List::append_assoc))]
fn write_link(out: &mut Vec<u8>, lane: u8) -> Result<(), NoMemory>
    requires { lane < 16 }
    ensures { OnOk result (out.new.items ≡ out.old.items ++ link lane) }
{
    out.extend_from_slice(&[0x02, 0, 0, 0, 0, 0x02, 0x02, 0, 0, 0, 0, 0x01])?;
    write_tag(out, lane)?;
    out.extend_from_slice(&[0x08, 0x00])?;
    Ok(())
}

// How many bytes that is.
fn link_size(lane: u8) -> u16
    ensures value { result ≡ length (link lane) }
    ensures small { result < 20 }
{
    if is_tagged(lane) { 18 } else { 14 }
}

/// Writes the frame of a lane's turn.
#[tactic(auto, using(std::proofs::lemmas::List::append_assoc))]
pub fn write_frame(out: &mut Vec<u8>, lane: u8, turn: Turn) -> Result<(), NoMemory>
    requires { lane < 16 }
    ensures { OnOk result (out.new.items ≡ out.old.items ++ frame lane turn) }
{
    write_link(out, lane)?;
    write_packet(out, lane, &conversation_from(turn.origin), turn.step)
}

/// How many bytes that is.
pub fn frame_size(lane: u8, turn: Turn) -> u32
    ensures value { result ≡ length (frame lane turn) }
    ensures small { result < 700 }
{
    let body = body_size(&conversation_from(turn.origin), turn.step);
    u32::from(link_size(lane) + 20 + body)
}
