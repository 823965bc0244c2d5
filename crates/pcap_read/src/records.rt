//! The records behind the header of a capture file.
ghost use Rattle.std.specs.Prelude.{◌≡◌, ◌^◌, ◌<◌, ◌≤◌, IfOk, Ok, Result, length};
ghost use Rattle.pcap_read.specs.File.{AreShort, Tells};
ghost use Rattle.pcap_read.specs.Header.{IsRead, header_of};
ghost use Rattle.pcap_read.specs.Records.{frame_of};
ghost use Rattle.suri_base.specs.Frames.{AreNumbered};

use crate::capture::Frames;
use crate::fault::PcapFault;
use crate::header::{HEADER_LEN, Header};
use std::alloc::Global;
use suri_base::Frame;

/// The most frames that a capture may have.
pub const MAX_FRAMES: usize = 4_194_304;

/// The most captured bytes that a record may state.
pub const MAX_CAPTURED: u32 = 262_144;

// The length of a record header, and the places of its fields.
const RECORD_HEADER_LEN: u32 = 16;

const SECONDS_AT: usize = 0;

const FRACTION_AT: usize = 4;

const CAPTURED_AT: usize = 8;

const ORIGINAL_AT: usize = 12;

// The frame of a record, which begins at a place of the file after so many others.
fn frame_at(header: Header, before: u32, at: u32, bytes: &[u8]) -> Frame
    requires whole { 16 ≤ length bytes.now }
    requires unit { header.unit ≤ 1000 }
    requires few { before < 2 ^ 31 }
    requires near { at < 2 ^ 31 }
    ensures { result ≡ frame_of header before at bytes.now }
{
    let seconds = header.order.word(bytes, SECONDS_AT);
    let fraction = header.order.word(bytes, FRACTION_AT);
    Frame {
        no: before + 1,
        time: u64::from(seconds) * 1_000_000_000 + u64::from(fraction) * u64::from(header.unit),
        orig: header.order.word(bytes, ORIGINAL_AT),
        at: at + RECORD_HEADER_LEN,
        len: header.order.word(bytes, CAPTURED_AT),
    }
}

/// Reads the records of a file with this header.
pub fn read_records(alloc: Global, header: Header, bytes: &[u8]) -> Result<Frames, PcapFault>
    requires header { header_of bytes.now ≡ Ok header }
    requires read { IsRead bytes.now header }
    requires small { length bytes.now ≤ 2 ^ 30 }
    ensures told { Tells bytes.now result }
    ensures link { IfOk result (λ f. f.link ≡ header.link) }
    ensures few { IfOk result (λ f. length f.frames ≤ 4194304) }
    ensures inside { IfOk result (λ f. AreNumbered (length bytes.now) 0 f.frames) }
    ensures short { IfOk result (λ f. AreShort f.frames) }
{
    let link = header.link;
    let mut list = Vec::new(alloc);
    let mut at = HEADER_LEN;
    loop {
        let rest = &bytes[at..];
        let left = rest.len() as u32;
        if left == 0 {
            return Ok(Frames {
                link,
                list,
                cut_bytes: 0,
            });
        }
        if list.len() == MAX_FRAMES {
            return Err(PcapFault::TooMany);
        }
        if left < RECORD_HEADER_LEN {
            return Ok(Frames {
                link,
                list,
                cut_bytes: left,
            });
        }
        let cap = header.order.word(rest, CAPTURED_AT);
        if cap > MAX_CAPTURED {
            let no = list.len() as u32 + 1;
            return Err(PcapFault::Long { no, cap });
        }
        let size = RECORD_HEADER_LEN + cap;
        if left < size {
            return Ok(Frames {
                link,
                list,
                cut_bytes: left,
            });
        }
        let next = frame_at(header, list.len() as u32, at as u32, &rest[..size as usize]);
        list.push(next)?;
        at += size as usize;
    }
}
