//! A source of one byte, again and again.
ghost use Rattle.std.specs.Io.{ReadsAtMost};
ghost use Rattle.std.specs.Io.KnownBytes.{ReadConsumes};
ghost use Rattle.std.specs.Prelude.{◌≡◌, IfOk, IsOk, Some, length, min, replicate};
ghost use Rattle.suri_outside.specs.Faults.{HasCause};
ghost use Rattle.suri_outside.specs.Memory.{after_repeats};

use crate::{Failed, Source};
use std::marker::Model;

/// One byte, so many times. It takes no memory for them, tells the bytes that are left, and never
/// fails.
#[derive(Drop)]
pub struct RepeatSource {
    byte: u8,
    left: u64,
}

impl Model for RepeatSource {
    ghost use Rattle.suri_outside.specs.Memory.{RepeatState};

    ghost Value = { RepeatState };

    ghost view = { λ s. record { byte = s.byte; left = s.left } };
}

impl RepeatSource {
    /// A source that gives `byte` `left` times.
    pub fn new(byte: u8, left: u64) -> RepeatSource
        ensures { result ≡ record { byte = byte; left = left } }
    {
        RepeatSource { byte, left }
    }
}

impl Source for RepeatSource {
    ghost left = { λ s. Some (replicate s.left s.byte) };

    ghost faults = { λ _. 0 };

    /// Gives the lesser of the buffer's length and the number of bytes left.
    fn read(&mut self, into: &mut [u8]) -> Result<usize, Failed>
        ensures bound { ReadsAtMost result into.new }
        ensures bytes { ReadConsumes (Some (replicate self.old.left self.old.byte)) (Some (replicate self.new.left self.new.byte))
            result into.new }
        ensures cause { HasCause 0 0 result }

        ensures works { IsOk result }
        ensures gives { IfOk result (λ n. n ≡ min (length into.old) self.old.left) }
        ensures after { IfOk result (λ n. self.new ≡ after_repeats self.old n) }
    {
        let count = (into.len() as u64).min(self.left);
        into[..count as usize].fill(self.byte);
        self.left -= count;
        Ok(count as usize)
    }
}
