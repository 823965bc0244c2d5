//! A large capture from a number.
ghost use Rattle.capture_gen.specs.Capture.{generated, record_header, record_of, records_from, time_bytes};
ghost use Rattle.std.specs.Int.{to_le_bytes, w32};
ghost use Rattle.std.specs.Prelude.{◌≡◌, ◌+◌, ◌*◌, ◌^◌, ◌<◌, ◌≤◌, ◌++◌, IfOk, OnOk, length, vec_len};

use crate::frame::{frame_size, write_frame};
use crate::plan::{Turn, plan};
use std::alloc::Global;
use suri_base::NoMemory;

// The header of the capture file.
const FILE_HEADER: [u8; 24] = [
    0xd4, 0xc3, 0xb2, 0xa1, 2, 0, 4, 0, 0, 0, 0, 0, 0, 0, 0, 0, 0, 0, 4, 0, 1, 0, 0, 0,
];

// Writes a number of 32 bits.
fn write_word(out: &mut Vec<u8>, word: u32) -> Result<(), NoMemory>
    ensures { OnOk result (out.new.items ≡ out.old.items ++ to_le_bytes w32 word) }
{
    out.extend_from_slice(&word.to_le_bytes())?;
    Ok(())
}

// Writes the time of the frame with this place.
#[tactic(auto, using(std::proofs::lemmas::List::append_assoc))]
fn write_time(out: &mut Vec<u8>, place: u32) -> Result<(), NoMemory>
    requires { place < 1000000 }
    ensures { OnOk result (out.new.items ≡ out.old.items ++ time_bytes place) }
{
    let micros = u64::from(place) * 10_000;
    let seconds = 1_700_000_000 + micros / 1_000_000;
    let fraction = micros % 1_000_000;
    write_word(out, seconds as u32)?;
    write_word(out, fraction as u32)
}

// Writes the header of the record of the frame with this place.
#[tactic(auto, using(std::proofs::lemmas::List::append_assoc))]
fn write_record_header(out: &mut Vec<u8>, place: u32, size: u32) -> Result<(), NoMemory>
    requires { place < 1000000 }
    ensures { OnOk result (out.new.items ≡ out.old.items ++ record_header place size) }
{
    write_time(out, place)?;
    write_word(out, size)?;
    write_word(out, size)
}

// Writes the record of the frame with this place.
#[tactic(auto, using(std::proofs::lemmas::List::append_assoc))]
fn write_record(out: &mut Vec<u8>, place: u32, turn: Turn) -> Result<(), NoMemory>
    requires { place < 1000000 }
    ensures { OnOk result (out.new.items ≡ out.old.items ++ record_of place turn) }
{
    let lane = (place % 16) as u8;
    write_record_header(out, place, frame_size(lane, turn))?;
    write_frame(out, lane, turn)
}

// How many bytes the capture of these turns takes.
fn room(turns: &[Turn]) -> usize
    requires { length turns.now ≤ 1000000 }
    ensures value { result ≡ 24 + length (records_from 0 turns.now) }
    ensures small { result ≤ 24 + length turns.now * 1000 }
{
    let mut room: usize = 24;
    for place in 0..turns.len() {
        room += 16 + frame_size((place % 16) as u8, turns[place]) as usize;
    }
    room
}

// Writes the records of these turns.
fn write_records(out: &mut Vec<u8>, turns: &[Turn]) -> Result<(), NoMemory>
    requires { length turns.now ≤ 1000000 }
    ensures { OnOk result (out.new.items ≡ out.old.items ++ records_from 0 turns.now) }
{
    for place in 0..turns.len() {
        write_record(out, place as u32, turns[place])?;
    }
    Ok(())
}

/// A capture file of so many Ethernet frames, 1 to 1,000,000, that a seed decides. The rule is this project's own.
///
/// Sixteen lanes send in turn, each a conversation after the other, over TCP, UDP or ICMP; every second lane has VLAN
/// tags. The frames are 10 ms apart, from 1,700,000,000 s after 1970 on. The file has at most 2^30 bytes.
///
/// # Errors
///
/// `NoMemory` where there is none for the capture.
pub fn generate(alloc: Global, seed: u64, frames: u32) -> Result<Vec<u8>, NoMemory>
    requires { (1 ≤ frames) × (frames ≤ 1000000) }
    ensures value { IfOk result (λ v. v.items ≡ generated seed frames) }
    ensures small { IfOk result (λ v. vec_len v ≤ 2 ^ 30) }
{
    let turns = plan(alloc, seed, frames)?;
    let mut out = Vec::with_capacity(alloc, room(&turns))?;
    out.extend_from_slice(&FILE_HEADER)?;
    write_records(&mut out, &turns)?;
    Ok(out)
}
