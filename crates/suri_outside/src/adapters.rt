//! A source and a sink over std's readers and writers.
ghost use Rattle.std.specs.Io.{ReadsAtMost, WritesAtMost};
ghost use Rattle.std.specs.Io.KnownBytes.{Appends, Keeps, ReadConsumes, WriteAppends};
ghost use Rattle.std.specs.Prelude.{
  ◌≡◌,
  ◌<◌,
  ◌≤◌,
  ⊤,
  length,
  take,
  IfOk,
  MatchResult,
  None,
  OnErr,
  Ok,
};
ghost use Rattle.suri_outside.specs.Adapters.{reader_of, read_faults, writer_of, write_faults};
ghost use Rattle.suri_outside.specs.Bytes.{TakesFront};
ghost use Rattle.suri_outside.specs.Faults.{HasCause, HasWriteCause, Rose};

use crate::{Failed, Sink, Source};
use std::io::{Read, Write};

/// A reader of std, with a count of its failures.
///
/// It tells no bytes, whatever it adapts: what a file or a pipe gives is known to no contract.
#[derive(Drop)]
pub struct StdSource<R: Read> {
    inner: R,
    faults: u64,
}

impl<R: Read> StdSource<R> {
    /// The reader, with no failure so far.
    pub fn new(inner: R) -> StdSource<R>
        ensures reader { reader_of result ≡ inner }
        ensures none { read_faults result ≡ 0 }
    {
        StdSource { inner, faults: 0 }
    }
}

impl<R: Read> Source for StdSource<R> {
    ghost left = { λ _. None };

    ghost faults = { read_faults };

    /// One read of the reader. Each of its errors, an interrupted read too, is a failure.
    fn read(&mut self, into: &mut [u8]) -> Result<usize, Failed>
        ensures bound { ReadsAtMost result into.new }
        ensures bytes { ReadConsumes None None result into.new }
        ensures cause { HasCause (read_faults self.old) (read_faults self.new) result }
        // What the reader gave, where it tells its own bytes.
        ensures given { ReadConsumes (R.remaining (reader_of self.old)) (R.remaining (reader_of self.new))
            result into.new }
    {
        match self.inner.read(into) {
            Ok(count) => Ok(count),
            Err(_) => {
                self.faults = self.faults.saturating_add(1);
                Err(Failed)
            }
        }
    }
}

/// A writer of std that is flushed after each write, with a count of its failures.
///
/// It tells no bytes, whatever it adapts: what becomes of bytes that are written to a file or a
/// pipe is known to no contract.
#[derive(Drop)]
pub struct StdSink<W: Write> {
    inner: W,
    faults: u64,
}

impl<W: Write> StdSink<W> {
    /// The writer, with no failure so far.
    pub fn new(inner: W) -> StdSink<W>
        ensures writer { writer_of result ≡ inner }
        ensures none { write_faults result ≡ 0 }
    {
        StdSink { inner, faults: 0 }
    }

    // Counts a failure. The writer stays as it is.
    fn fail(&mut self) -> Failed
        ensures rose { Rose (write_faults self.old) (write_faults self.new) }
        ensures later { write_faults self.old ≤ write_faults self.new }
        ensures same { writer_of self.new ≡ writer_of self.old }
    {
        self.faults = self.faults.saturating_add(1);
        Failed
    }
}

impl<W: Write> Sink for StdSink<W> {
    ghost taken = { λ _. None };

    ghost faults = { write_faults };

    /// One write, and a flush. A failure is: a write that fails, a write that takes nothing of bytes
    /// that aren't none, and a flush that fails. After a failed flush the writer may hold a front of
    /// the bytes, and no byte twice.
    fn write(&mut self, bytes: &[u8]) -> Result<usize, Failed>
        ensures bound { WritesAtMost result bytes.now }
        ensures bytes { WriteAppends None None result bytes.now }
        ensures cause { HasWriteCause (write_faults self.old) (write_faults self.new) bytes.now result }
        // What the writer took, where it tells its own bytes.
        ensures passed { IfOk result (λ n. Appends (W.contents (writer_of self.old))
            (W.contents (writer_of self.new)) (take n bytes.now)) }
        ensures some { IfOk result (λ n. 0 < length bytes.now → 0 < n) }
        ensures front { OnErr result (TakesFront (W.contents (writer_of self.old))
            (W.contents (writer_of self.new)) bytes.now) }
    {
        match self.inner.write(bytes) {
            Ok(count) => {
                if count == 0 && !bytes.is_empty() {
                    return Err(self.fail());
                }
                match self.inner.flush() {
                    Ok(()) => Ok(count),
                    Err(_) => Err(self.fail()),
                }
            }
            Err(_) => Err(self.fail()),
        }
    }
}
