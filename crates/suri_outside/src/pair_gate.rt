//! A gate that forces an order between two workers.
ghost use Rattle.std.specs.Prelude.{◌≢◌};

use crate::gates::Gate;
use std::hint::spin_loop;
use std::sync::atomic::{AtomicU64, Ordering};

// The points of a round that the gate looks at: all packets of a batch have been looked up, and the round ends.
const LOOKED_UP: u8 = 2;

const ENDED: u8 = 4;

// How often a held worker looks whether the other has ended its round.
const TURNS: u32 = 1 << 28;

/// A gate that holds one worker, when it has looked up its first batch, until another has ended a round. Every other call returns at once.
///
/// A test sees by it that two workers run beside each other: in a run that plays one after the other, the held one gives up.
#[derive(Drop)]
pub struct PairGate {
    held: u32,
    other: u32,
    // Each is 0, and 1 from the time on when it came about.
    came: AtomicU64,
    ended: AtomicU64,
    gave_up: AtomicU64,
}

impl PairGate {
    /// A gate that holds the worker `held` until the worker `other` has ended a round.
    pub fn new(held: u32, other: u32) -> PairGate
        requires { held ≢ other }
    {
        PairGate {
            held,
            other,
            came: AtomicU64::new(0),
            ended: AtomicU64::new(0),
            gave_up: AtomicU64::new(0),
        }
    }

    /// Whether the held worker gave up, after 2^28 looks.
    pub fn gave_up(&self) -> bool {
        self.gave_up.load(Ordering::SeqCst) == 1
    }

    /// Whether the held worker has come to the gate with its first batch, and the other one has ended a round.
    pub fn met(&self) -> bool {
        self.came.load(Ordering::SeqCst) == 1 && self.ended.load(Ordering::SeqCst) == 1
    }

    // Waits for the other worker.
    fn hold(&self) {
        for _ in 0..TURNS {
            if self.ended.load(Ordering::SeqCst) == 1 {
                return;
            }
            spin_loop();
        }
        self.gave_up.store(1, Ordering::SeqCst);
    }
}

impl Gate for PairGate {
    fn at(&self, role: u32, _round: u32, point: u8) {
        if role == self.other && point == ENDED {
            self.ended.store(1, Ordering::SeqCst);
        }
        if role == self.held && point == LOOKED_UP && self.came.swap(1, Ordering::SeqCst) == 0 {
            self.hold();
        }
    }
}
