//! Which frames a worker takes, round by round, in batches.
ghost use Rattle.capture_index.specs.Batches.{batches_of, cut_into, rounds_of, taken_among, taken_in};
ghost use Rattle.std.specs.Prelude.{◌≡◌, ◌-◌, ◌<◌, ◌≤◌, if◌then◌else◌, [], ◌∷◌, IfOk, Some, length, map, slice_get};
ghost use Rattle.suri_base.specs.Capture.{IsCapture};
ghost use Rattle.suri_base.specs.declared.seen.Seen.{Seen};

use std::alloc::{AllocError, Global};
use suri_base::{Capture, Layout, NoMemory, round_of};

/// How many rounds a capture has, where each round has `round` frames. It is 0 where there is no frame.
pub fn rounds(capture: &Capture, round: u32) -> u32
    requires { 1 ≤ round }
    ensures { result ≡ rounds_of (length capture.now.frames) round }
{
    match capture.count() {
        0 => 0,
        count => round_of(count, round) + 1,
    }
}

// Whether this worker takes the frame of this number: whether it bears a flow whose key is the worker's.
fn is_taken(capture: &Capture, layout: &Layout, worker: u32, no: u32) -> bool
    requires fits { IsCapture capture.now }
    requires workers { 1 ≤ layout.now.workers }
    requires number { (1 ≤ no) × (no ≤ length capture.now.frames) }
    ensures { (s : Seen) → slice_get capture.now.seen (no - 1) ≡ Some s →
        taken_among layout.now worker (s ∷ []) ≡ (if result then no ∷ [] else []) }
{
    match capture.counter(no) {
        None => capture.hash(no) % layout.workers == worker,
        Some(_) => false,
    }
}

// The numbers of the frames that a worker takes in a round.
fn taken(
    alloc: Global,
    capture: &Capture,
    layout: &Layout,
    worker: u32,
    round: u32,
) -> Result<Vec<u32>, AllocError>
    requires worker { worker < layout.now.workers }
    requires size { 1 ≤ layout.now.round }
    requires round { round < rounds_of (length capture.now.frames) layout.now.round }
    ensures { IfOk result (λ numbers. numbers.items ≡ taken_in layout.now capture.now.seen worker round) }
{
    let count = capture.count();
    let from = round * layout.round;
    let to = from.saturating_add(layout.round).min(count);
    // Room for an even share at once.
    let share = (to - from) / layout.workers;
    let mut numbers = Vec::with_capacity(alloc, share as usize)?;
    for place in from..to {
        if is_taken(capture, layout, worker, place + 1) {
            numbers.push(place + 1)?;
        }
    }
    Ok(numbers)
}

// The numbers in pieces of so many, of which the last may be shorter.
fn cut(alloc: Global, numbers: &[u32], size: usize) -> Result<Vec<Vec<u32>>, AllocError>
    requires { 1 ≤ size }
    ensures { IfOk result (λ pieces. map (λ p. p.items) pieces.items ≡ cut_into size numbers.now) }
{
    let count = numbers.len().div_ceil(size);
    let mut pieces = Vec::with_capacity(alloc, count)?;
    for piece in 0..count {
        let start = piece * size;
        let end = start.saturating_add(size).min(numbers.len());
        pieces.push(Vec::from_slice(alloc, &numbers[start..end])?)?;
    }
    Ok(pieces)
}

/// The numbers of the frames that a worker takes in a round, in file order, in batches of `layout.batch`, of which the last
/// may be shorter.
///
/// A worker takes the frames that bear a flow whose key is its own ([`crate::worker_of`]). Workers and rounds are counted from 0.
pub fn batches(
    alloc: Global,
    capture: &Capture,
    layout: &Layout,
    worker: u32,
    round: u32,
) -> Result<Vec<Vec<u32>>, NoMemory>
    requires worker { worker < layout.now.workers }
    requires batch { 1 ≤ layout.now.batch }
    requires size { 1 ≤ layout.now.round }
    requires round { round < rounds_of (length capture.now.frames) layout.now.round }
    ensures { IfOk result (λ lists. map (λ l. l.items) lists.items ≡ batches_of layout.now capture.now.seen worker round) }
{
    let numbers = taken(alloc, capture, layout, worker, round)?;
    Ok(cut(alloc, &numbers, layout.batch as usize)?)
}
