//! What is counted of the frames of a capture.
ghost use Rattle.run_counts.specs.Frames.{all_counted, counts_of, with_frame};
ghost use Rattle.std.specs.Prelude.{◌≡◌, ◌-◌, ◌^◌, ◌<◌, ◌≤◌, Some, length, slice_get, sum_by};
ghost use Rattle.suri_base.specs.declared.seen.Seen.{Seen};

use crate::counts::Counts;
use suri_base::Capture;

// Counts the frame of this number, where it bears no flow.
fn add_frame(counts: &mut Counts, capture: &Capture, no: u32)
    requires number { (1 ≤ no) × (no ≤ length capture.now.frames) }
    requires room { all_counted counts.old < 2 ^ 32 }
    ensures { (seen : Seen) → slice_get capture.now.seen (no - 1) ≡ Some seen → counts.new ≡ with_frame seen counts.old }
{
    match capture.counter(no) {
        Some(counter) => counts.add(counter),
        None => {}
    }
}

/// The frames that bear no flow, each under its decoder counter.
pub fn count_frames(capture: &Capture) -> Counts
    ensures { result ≡ counts_of capture.now.seen }
{
    let mut counts = Counts::none();
    let count = capture.count();
    for index in 0..count {
        add_frame(&mut counts, capture, index + 1);
    }
    counts
}

/// The captured bytes of all frames, link headers included.
pub fn capture_bytes(capture: &Capture) -> u64
    ensures { result ≡ sum_by (λ f. f.len) capture.now.frames }
{
    let mut bytes: u64 = 0;
    let count = capture.count();
    for index in 0..count {
        let frame = capture.frame(index + 1);
        bytes += u64::from(frame.len);
    }
    bytes
}
