//! Sources and sinks of bytes, and what they promise.
ghost use Rattle.std.specs.Io.{ReadsAtMost, WritesAtMost};
ghost use Rattle.std.specs.Io.KnownBytes.{ReadConsumes, WriteAppends};
ghost use Rattle.std.specs.Prelude.{ℕ, List, Option};
ghost use Rattle.suri_outside.specs.Faults.{HasCause, HasWriteCause};

/// A read or a write that failed.
#[derive(Clone, Copy, Debug, PartialEq, Eq)]
pub struct Failed;

/// Where bytes come from.
///
/// This project's own rule: contracts see the bytes that are left, where the source tells them,
/// and how often a read failed, a count that never falls.
pub trait Source {
    // The bytes that are left, where the source tells them.
    ghost left: { Self → Option (List ℕ) };
    // How often a read failed. It never falls.
    ghost faults: { Self → ℕ };

    /// Puts the first bytes that are left into the front of `into`, and answers how many bytes
    /// these are: at most `into.len()`. `Ok(0)` on a buffer that isn't empty is the end of the
    /// input. `Failed` comes only where the count of faults rose by one in this call, or stands at
    /// its type's end; then no byte was taken from the source. `Ok` leaves the count as it was.
    fn read(&mut self, into: &mut [u8]) -> Result<usize, Failed>
        ensures bound { ReadsAtMost result into.new }
        ensures bytes { ReadConsumes (left self.old) (left self.new) result into.new }
        ensures cause { HasCause (faults self.old) (faults self.new) result };
}

/// Where bytes go.
///
/// This project's own rule: contracts see the bytes taken, where the sink tells them, and how
/// often a write failed, a count that never falls.
pub trait Sink {
    // The bytes taken, where the sink tells them.
    ghost taken: { Self → Option (List ℕ) };
    // How often a write failed. It never falls.
    ghost faults: { Self → ℕ };

    /// Takes the first of the bytes, and answers how many these are: at most `bytes.len()`.
    /// `Failed`, and `Ok(0)` on bytes that aren't none, come only where the count of faults rose by
    /// one in this call, or stands at its type's end; then nothing was taken. Any other `Ok` leaves
    /// the count as it was.
    fn write(&mut self, bytes: &[u8]) -> Result<usize, Failed>
        ensures bound { WritesAtMost result bytes.now }
        ensures bytes { WriteAppends (taken self.old) (taken self.new) result bytes.now }
        ensures cause { HasWriteCause (faults self.old) (faults self.new) bytes.now result };
}
