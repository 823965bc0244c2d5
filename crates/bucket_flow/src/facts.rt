//! The facts of a frame.
ghost use Rattle.std.specs.Prelude.{◌≡◌, ◌<◌, ◌^◌, IfSome};
ghost use Rattle.bucket_rules.specs.Packets.{bearing};
ghost use Rattle.bucket_flow.specs.Held.{IsFine};

use suri_base::{Capture, Facts, Seen};

// A number of 32 bits is below 2 to the 32. It does nothing.
fn note_range(n: u32)
    ensures { n < 2 ^ 32 }
{
    let _ = n;
}

/// The facts of the frame of this number, where it bears a flow.
pub fn facts_of(capture: &Capture, no: u32) -> Option<Facts>
    ensures value { result ≡ bearing capture.now no }
    ensures fine { IfSome result (IsFine capture.now no) }
{
    if no == 0 || no > capture.count() {
        return None;
    }
    match capture.get(no) {
        Seen::Bears(facts) => {
            note_range(facts.len);
            Some(facts)
        }
        Seen::Counted(_) => None,
    }
}
