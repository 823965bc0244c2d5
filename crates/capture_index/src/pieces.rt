//! What becomes of the frames of a capture, piece by piece, in several threads.
ghost use Rattle.capture_index.specs.Decode.{AreRead, IsRead, all_seen, frame_bytes, seen_of};
ghost use Rattle.capture_index.specs.Pieces.{piece_of, pieces_of};
ghost use Rattle.pcap_read.specs.Header.{IsLink};
ghost use Rattle.std.specs.Prelude.{◌≡◌, ◌+◌, ◌-◌, ◌*◌, ◌^◌, ◌<◌, ◌≤◌, IfOk, Ok, OnOk, drop, length, map, take};
ghost use Rattle.suri_base.specs.Frames.{AreNumbered};
ghost use Rattle.suri_base.specs.Slot.{packed};

use crate::decode::slot_in;
use std::alloc::{AllocError, Global};
use std::thread;
use std::thread::Threads;
use suri_base::{Frame, Slot};

// What is kept of what becomes of a frame of a capture with these bytes.
#[inline(always)]
fn slot_at(link: u32, bytes: &[u8], frame: &Frame, clock: u64) -> Slot
    requires link { IsLink link }
    requires inside { frame.now.at + frame.now.len ≤ length bytes.now }
    requires small { length bytes.now ≤ 2 ^ 30 }
    ensures value { result ≡ packed (seen_of link frame.now clock (frame_bytes bytes.now frame.now)) }
    ensures read { IsRead (length bytes.now) frame.now clock (seen_of link frame.now clock (frame_bytes bytes.now frame.now)) }
{
    let start = frame.at as usize;
    let end = start + frame.len as usize;
    slot_in(link, frame, clock, &bytes[start..end])
}

// What is kept of the frames from one place up to another.
fn decode_range(
    alloc: Global,
    link: u32,
    bytes: &[u8],
    frames: &[Frame],
    clocks: &[u64],
    from: usize,
    to: usize,
) -> Result<Vec<Slot>, AllocError>
    requires link { IsLink link }
    requires inside { AreNumbered (length bytes.now) 0 frames.now }
    requires small { length bytes.now ≤ 2 ^ 30 }
    requires as_many { length clocks.now ≡ length frames.now }
    requires range { (from ≤ to) × (to ≤ length frames.now) }
    ensures value { IfOk result (λ v. v.items ≡ map packed (take (to - from) (drop from (all_seen link bytes.now frames.now clocks.now)))) }
    ensures read { OnOk result (AreRead (length bytes.now) from to frames.now clocks.now (all_seen link bytes.now frames.now clocks.now)) }
{
    let mut slots = Vec::with_capacity(alloc, to - from)?;
    for no in from..to {
        slots.push(slot_at(link, bytes, &frames[no], clocks[no]))?;
    }
    Ok(slots)
}

// What is kept of the frames of the piece of this number, from 0, where each piece but the last has `size` frames.
fn decode_piece(
    alloc: Global,
    link: u32,
    bytes: &[u8],
    frames: &[Frame],
    clocks: &[u64],
    size: usize,
    piece: usize,
) -> Result<Vec<Slot>, AllocError>
    requires link { IsLink link }
    requires inside { AreNumbered (length bytes.now) 0 frames.now }
    requires small { length bytes.now ≤ 2 ^ 30 }
    requires as_many { length clocks.now ≡ length frames.now }
    requires begins { piece * size < length frames.now }
    ensures value { IfOk result (λ v. v.items ≡ piece_of size (all_seen link bytes.now frames.now clocks.now) piece) }
    ensures read { OnOk result (AreRead (length bytes.now) (piece * size) (piece * size + size) frames.now clocks.now (all_seen link bytes.now frames.now clocks.now)) }
{
    let from = piece * size;
    let to = from.saturating_add(size).min(frames.len());
    decode_range(alloc, link, bytes, frames, clocks, from, to)
}

// The pieces, where each was made.
fn all_made(
    alloc: Global,
    made: Vec<Result<Vec<Slot>, AllocError>>,
) -> Result<Vec<Vec<Slot>>, AllocError>
    ensures { IfOk result (λ pieces. map Ok pieces.items ≡ made.items) }
{
    let mut pieces = Vec::with_capacity(alloc, made.len())?;
    for piece in made {
        pieces.push(piece?)?;
    }
    Ok(pieces)
}

/// What is kept of what becomes of each frame of a capture with these bytes, at the clocks beside the frames, in pieces of `size`
/// frames; the last may be shorter. Each piece is made in a thread of its own where one can be started, since a frame's decoding
/// asks nothing of another's.
pub fn decode_pieces<R: Threads + Sync>(
    rt: &R,
    alloc: Global,
    link: u32,
    bytes: &[u8],
    frames: &[Frame],
    clocks: &[u64],
    size: usize,
) -> Result<Vec<Vec<Slot>>, AllocError>
    requires link { IsLink link }
    requires inside { AreNumbered (length bytes.now) 0 frames.now }
    requires small { length bytes.now ≤ 2 ^ 30 }
    requires as_many { length clocks.now ≡ length frames.now }
    requires size { 1 ≤ size }
    ensures value { IfOk result (λ v. map (λ p. p.items) v.items ≡ pieces_of size (all_seen link bytes.now frames.now clocks.now)) }
    // Each is a frame's own.
    ensures read { OnOk result (AreRead (length bytes.now) 0 (length frames.now) frames.now clocks.now (all_seen link bytes.now frames.now clocks.now)) }
{
    let count = frames.len().div_ceil(size);
    let made = thread::map_indices(
        rt,
        alloc,
        count,
        &|piece: usize| -> Result<Vec<Slot>, AllocError>
            requires link { IsLink link }
            requires inside { AreNumbered (length bytes.now) 0 frames.now }
            requires small { length bytes.now ≤ 2 ^ 30 }
            requires as_many { length clocks.now ≡ length frames.now }
            requires begins { piece * size < length frames.now }
            ensures value { IfOk result (λ v. v.items ≡ piece_of size (all_seen link bytes.entry.now frames.entry.now clocks.entry.now) piece) }
            ensures read { OnOk result (AreRead (length bytes.entry.now) (piece * size) (piece * size + size) frames.entry.now clocks.entry.now (all_seen link bytes.entry.now frames.entry.now clocks.entry.now)) }
        { decode_piece(alloc, link, bytes, frames, clocks, size, piece) },
    )?;
    all_made(alloc, made)
}
