//! The index of a capture: what became of each frame, the capture clock at it, and the next frame of its key.
ghost use Rattle.capture_index.specs.Index.{captured_of};
ghost use Rattle.capture_index.specs.Order.{AreInOrder};
ghost use Rattle.pcap_read.specs.Header.{IsLink};
ghost use Rattle.std.specs.Prelude.{◌≡◌, ◌≤◌, ◌^◌, [], IfOk, length};
ghost use Rattle.suri_base.specs.Capture.{AreLinked, clocks_after, packets_in};
ghost use Rattle.suri_base.specs.Frames.{AreNumbered};

use crate::links::link;
use crate::pieces::decode_pieces;
use pcap_read::Frames;
use std::alloc::{AllocError, Global};
use std::thread::Threads;
use suri_base::{Capture, Frame, NoMemory, Slots};

// How many frames a piece has: so many that its decoding is worth the start of a thread, and the most frames of a file make 64 pieces.
const PIECE: usize = 65_536;

// The clock at each frame: the greatest time of the frames up to it.
fn clocks_of(alloc: Global, frames: &[Frame]) -> Result<Vec<u64>, AllocError>
    ensures { IfOk result (λ clocks. clocks.items ≡ clocks_after [] frames.now) }
{
    let mut clocks = Vec::with_capacity(alloc, frames.len())?;
    let mut clock: u64 = 0;
    for frame in frames {
        clock = clock.max(frame.time);
        clocks.push(clock)?;
    }
    Ok(clocks)
}

/// The capture of a file with these bytes, whose frames lie in them. After an `Err` both are given up.
///
/// The clock at a frame is the greatest time of the frames up to it, and each packet names the next one of its key. Frames are decoded in
/// several threads, where they can be started; the answer is the same without them.
pub fn index<R: Threads + Sync>(
    rt: &R,
    alloc: Global,
    bytes: Vec<u8>,
    file: Frames,
) -> Result<Capture, NoMemory>
    requires link { IsLink file.link }
    requires inside { AreNumbered (length bytes.items) 0 file.frames }
    requires small { length bytes.items ≤ 2 ^ 30 }
    requires few { length file.frames ≤ 4194304 }
    // It is the capture that the file holds.
    ensures value { IfOk result (λ c. c ≡ captured_of bytes.items file) }
    // Each packet names the next one that bears its key, or 0.
    ensures linked { IfOk result (λ c. AreLinked c.seen) }
    // Its packets stand in order, and their keys can be named.
    ensures order { IfOk result (λ c. AreInOrder 0 (packets_in c.seen)) }
{
    let clocks = clocks_of(alloc, &file.list)?;
    let pieces = decode_pieces(rt, alloc, file.link, &bytes, &file.list, &clocks, PIECE)?;
    let slots = Slots::of(link(alloc, pieces, PIECE)?, PIECE);
    Ok(Capture::make(bytes, file.list, clocks, slots, file.cut_bytes))
}
