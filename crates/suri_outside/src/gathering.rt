//! Texts that are gathered into large blocks before they are written.
ghost use Rattle.std.specs.Io.KnownBytes.{Appends};
ghost use Rattle.std.specs.Prelude.{◌≡◌, ◌≢◌, ◌+◌, ◌<◌, ◌≤◌, ◌++◌, [], Err, length, OnErr, OnOk};
ghost use Rattle.suri_outside.specs.Bytes.{TakesAllBut, TakesFront};
ghost use Rattle.suri_outside.specs.Faults.{HasCause, Rose};

use crate::{BLOCK, Failed, Sink, write_whole};
use std::alloc::{AllocError, Global};
use std::marker::Model;

/// Why a text was not taken into what waits, or not written.
#[derive(Clone, Copy, Debug, PartialEq, Eq)]
pub enum Unwritten {
    /// A write failed.
    Failed,
    /// No memory was left for a text that has to wait.
    NoMemory,
}

impl From<AllocError> for Unwritten {
    ghost use Rattle.suri_outside.specs.declared.gathering.Unwritten.TheVariants.{NoMemory};

    ghost from_gives = { λ _ e. e ≡ NoMemory };

    fn from(_: AllocError) -> Unwritten {
        Unwritten::NoMemory
    }
}

impl From<Failed> for Unwritten {
    ghost use Rattle.suri_outside.specs.declared.gathering.Unwritten.TheVariants.{Failed};

    ghost from_gives = { λ _ e. e ≡ Failed };

    fn from(_: Failed) -> Unwritten {
        Unwritten::Failed
    }
}

/// Texts that wait to be written in blocks of at least 64 KiB.
///
/// Contracts see it as the bytes that wait. Its room is kept from one block to the next.
#[derive(Drop)]
pub struct Gathered {
    waiting: Vec<u8>,
}

impl Model for Gathered {
    ghost use Rattle.std.specs.Prelude.{List, ℕ};

    ghost Value = { List ℕ };

    ghost view = { λ s. s.waiting.items };
}

impl Gathered {
    /// Nothing waits yet, and no memory is taken yet.
    pub fn new(alloc: Global) -> Gathered
        ensures { result ≡ [] }
    {
        Gathered {
            waiting: Vec::new(alloc),
        }
    }

    /// Puts a text behind what waits, and writes all that waits once it is 64 KiB long.
    ///
    /// `Failed` comes only where the sink's count of faults rose; a front of what waited and the
    /// text was taken, and nothing waits any more. After `NoMemory` nothing has changed.
    pub fn add<K: Sink>(&mut self, sink: &mut K, text: &[u8]) -> Result<(), Unwritten>
        ensures ok { OnOk result (TakesAllBut (K.taken sink.old) (K.taken sink.new)
            self.new (self.old ++ text.now)) }
        ensures front { OnErr result (TakesFront (K.taken sink.old) (K.taken sink.new)
            (self.old ++ text.now)) }
        ensures failed { result ≡ Err Unwritten.Failed → Rose (K.faults sink.old) (K.faults sink.new) }
        ensures later { K.faults sink.old ≤ K.faults sink.new }
        ensures quiet { result ≢ Err Unwritten.Failed → K.faults sink.new ≡ K.faults sink.old }

        // Nothing is written in smaller blocks, and no more than that waits.
        ensures gathers { length self.old + length text.now < 65536 → sink.new ≡ sink.old }
        ensures short { OnOk result (length self.new < 65536) }

        ensures given_up { result ≡ Err Unwritten.Failed → self.new ≡ [] }
        ensures kept { result ≡ Err Unwritten.NoMemory
            → (self.new ≡ self.old) × (sink.new ≡ sink.old) }
    {
        self.waiting.extend_from_slice(text)?;
        if self.waiting.len() < BLOCK {
            return Ok(());
        }
        let written = write_whole(sink, &self.waiting);
        self.waiting.clear();
        written?;
        Ok(())
    }

    /// Writes what waits.
    ///
    /// `Failed` comes only where the sink's count of faults rose; the sink then took a front of
    /// what waited, perhaps nothing or all of it.
    pub fn finish<K: Sink>(self, sink: &mut K) -> Result<(), Failed>
        ensures whole { OnOk result (Appends (K.taken sink.old) (K.taken sink.new) self) }
        ensures front { OnErr result (TakesFront (K.taken sink.old) (K.taken sink.new) self) }
        ensures cause { HasCause (K.faults sink.old) (K.faults sink.new) result }
    {
        write_whole(sink, &self.waiting)
    }
}
