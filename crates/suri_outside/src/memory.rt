//! A source and a sink in memory, which fail at chosen calls.
ghost use Rattle.std.specs.Io.{ReadsAtMost, WritesAtMost};
ghost use Rattle.std.specs.Io.KnownBytes.{ReadConsumes, WriteAppends};
ghost use Rattle.std.specs.Prelude.{
  ◌≡◌,
  ◌-◌,
  ◌<◌,
  ◌≤◌,
  ◌↔◌,
  ◌⊎◌,
  [],
  length,
  min,
  Contains,
  IfOk,
  IsErr,
  OnErr,
  Ok,
  Some,
};
ghost use Rattle.suri_outside.specs.Faults.{HasCause, HasWriteCause, risen};
ghost use Rattle.suri_outside.specs.Memory.{
  Idles,
  Takes,
  after_failed_read,
  after_failed_write,
  after_gift,
  after_taking,
};

use crate::{Failed, Sink, Source};
use std::alloc::Global;
use std::marker::Model;
use suri_base::NoMemory;

/// Bytes in memory, given in parts. It tells the bytes that are left.
///
/// Its reads are numbered from 1, and exactly those listed fail; the count of faults rises there
/// alone.
#[derive(Drop)]
pub struct MemSource {
    bytes: Vec<u8>,
    at: usize,
    most: usize,
    failing: Vec<u64>,
    calls: u64,
    faults: u64,
}

impl Model for MemSource {
    ghost use Rattle.std.specs.Prelude.{◌≤◌, drop, vec_len};
    ghost use Rattle.suri_outside.specs.Memory.{SourceState};

    ghost Value = { SourceState };

    ghost view = { λ s. record {
      left = drop s.at s.bytes.items;
      most = s.most;
      failing = s.failing.items;
      calls = s.calls;
      faults = s.faults;
    } };

    ghost invariant = { λ s. (s.at ≤ vec_len s.bytes) × (1 ≤ s.most) };
}

impl MemSource {
    /// A source of `bytes` that gives at most `most` bytes, at least 1, at a read, and fails at
    /// the reads whose numbers, counted from 1, are in `failing`.
    pub fn new(bytes: Vec<u8>, most: usize, failing: Vec<u64>) -> MemSource
        requires { 1 ≤ most }
        ensures { result ≡ record {
          left = bytes.items;
          most = most;
          failing = failing.items;
          calls = 0;
          faults = 0;
        } }
    {
        MemSource {
            bytes,
            at: 0,
            most,
            failing,
            calls: 0,
            faults: 0,
        }
    }
}

impl Source for MemSource {
    ghost left = { λ s. Some s.left };

    ghost faults = { λ s. s.faults };

    /// Gives the least of the source's `most`, the buffer's length and the bytes left.
    fn read(&mut self, into: &mut [u8]) -> Result<usize, Failed>
        ensures bound { ReadsAtMost result into.new }
        ensures bytes { ReadConsumes (Some self.old.left) (Some self.new.left) result into.new }
        ensures cause { HasCause self.old.faults self.new.faults result }

        ensures fails { IsErr result ↔ Contains self.old.failing (risen self.old.calls) }
        ensures gives { IfOk result
            (λ n. n ≡ min self.old.most (min (length into.old) (length self.old.left))) }
        ensures after_ok { IfOk result (λ n. self.new ≡ after_gift self.old n) }
        ensures after_err { OnErr result (self.new ≡ after_failed_read self.old) }
    {
        self.calls = self.calls.saturating_add(1);
        let call = self.calls;
        if self.failing.contains(&call) {
            self.faults = self.faults.saturating_add(1);
            return Err(Failed);
        }
        let left = &self.bytes[self.at..];
        let count = self.most.min(into.len().min(left.len()));
        into[..count].copy_from_slice(&left[..count]);
        self.at += count;
        Ok(count)
    }
}

/// Room in memory for bytes that are written. It tells the bytes taken.
///
/// Its writes are numbered from 1. A write fails, and the count of faults rises, exactly at those
/// listed, and at bytes that aren't none once the room is full. Others can be listed that take
/// nothing of bytes that aren't none, and let the count rise, but don't fail.
#[derive(Drop)]
pub struct MemSink {
    bytes: Vec<u8>,
    room: usize,
    most: usize,
    failing: Vec<u64>,
    idling: Vec<u64>,
    calls: u64,
    faults: u64,
}

impl Model for MemSink {
    ghost use Rattle.std.specs.Prelude.{◌≤◌, vec_len, vec_capacity};
    ghost use Rattle.suri_outside.specs.Memory.{SinkState};

    ghost Value = { SinkState };

    ghost view = { λ s. record {
      bytes = s.bytes.items;
      room = s.room;
      most = s.most;
      failing = s.failing.items;
      idling = s.idling.items;
      calls = s.calls;
      faults = s.faults;
    } };

    ghost invariant = { λ s. (vec_len s.bytes ≤ s.room) × (s.room ≤ vec_capacity s.bytes) × (1 ≤ s.most) };
}

impl MemSink {
    /// A sink with room for `room` bytes that takes at most `most` bytes, at least 1, at a write,
    /// and fails at the writes whose numbers, counted from 1, are in `failing`. All memory of the
    /// sink is taken here: `NoMemory` means that the room could not be had.
    pub fn new(
        alloc: Global,
        room: usize,
        most: usize,
        failing: Vec<u64>,
    ) -> Result<MemSink, NoMemory>
        requires { 1 ≤ most }
        ensures { IfOk result (λ s. s ≡ record {
          bytes = [];
          room = room;
          most = most;
          failing = failing.items;
          idling = [];
          calls = 0;
          faults = 0;
        }) }
    {
        let bytes = Vec::with_capacity(alloc, room)?;
        Ok(MemSink {
            bytes,
            room,
            most,
            failing,
            idling: Vec::new(alloc),
            calls: 0,
            faults: 0,
        })
    }

    /// A sink as that of [`MemSink::new`], but that takes nothing of bytes that aren't none at the
    /// writes whose numbers, counted from 1, are in `idling`: these answer `Ok(0)`, and the count of
    /// faults rises.
    pub fn idle(
        alloc: Global,
        room: usize,
        most: usize,
        idling: Vec<u64>,
    ) -> Result<MemSink, NoMemory>
        requires { 1 ≤ most }
        ensures { IfOk result (λ s. s ≡ record {
          bytes = [];
          room = room;
          most = most;
          failing = [];
          idling = idling.items;
          calls = 0;
          faults = 0;
        }) }
    {
        let bytes = Vec::with_capacity(alloc, room)?;
        Ok(MemSink {
            bytes,
            room,
            most,
            failing: Vec::new(alloc),
            idling,
            calls: 0,
            faults: 0,
        })
    }

    /// The bytes taken so far, in order.
    pub fn bytes(&self) -> &[u8]
        ensures shown { result.now ≡ self.now.bytes }
        ensures fits { length result.now ≤ self.now.room }
    {
        self.bytes.as_slice()
    }
}

impl Sink for MemSink {
    ghost taken = { λ s. Some s.bytes };

    ghost faults = { λ s. s.faults };

    /// Takes the least of the sink's `most`, the length of what is handed in and the room left.
    fn write(&mut self, bytes: &[u8]) -> Result<usize, Failed>
        ensures bound { WritesAtMost result bytes.now }
        ensures bytes { WriteAppends (Some self.old.bytes) (Some self.new.bytes) result bytes.now }
        ensures cause { HasWriteCause self.old.faults self.new.faults bytes.now result }

        ensures idles { Idles self.old bytes.now → (result ≡ Ok 0) × (self.new ≡ after_failed_write self.old) }
        ensures fails { Takes self.old bytes.now → IsErr result ↔ (Contains self.old.failing (risen self.old.calls)
            ⊎ ((0 < length bytes.now) × (length self.old.bytes ≡ self.old.room))) }
        ensures takes { Takes self.old bytes.now → IfOk result
            (λ n. n ≡ min self.old.most (min (length bytes.now) (self.old.room - length self.old.bytes))) }
        ensures after_ok { Takes self.old bytes.now → IfOk result (λ n. self.new ≡ after_taking self.old n bytes.now) }
        ensures after_err { OnErr result (self.new ≡ after_failed_write self.old) }
    {
        self.calls = self.calls.saturating_add(1);
        let call = self.calls;
        if self.idling.contains(&call) && !bytes.is_empty() {
            self.faults = self.faults.saturating_add(1);
            return Ok(0);
        }
        let room = self.room - self.bytes.len();
        if self.failing.contains(&call) || (room == 0 && !bytes.is_empty()) {
            self.faults = self.faults.saturating_add(1);
            return Err(Failed);
        }
        let count = self.most.min(bytes.len().min(room));
        match self.bytes.extend_from_slice(&bytes[..count]) {
            Ok(()) => Ok(count),
            Err(_) => unreachable!(),
        }
    }
}
