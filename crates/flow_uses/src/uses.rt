//! A set of frames.
ghost use Rattle.std.specs.Prelude.{◌≡◌, ◌<◌, ◌≤◌, ◌+◌, ◌==◌, ◌&&◌, ◌||◌, [], ℕ, not, false, filter, length, vec_len, vec_capacity, IsOk, OnOk, IfOk, IfErr, if◌then◌else◌};
ghost use Rattle.flow_uses.specs.Uses.{has, AreRising, IsAt, IsGap, IsNumberSet};

use std::alloc::Global;
use std::marker::Model;
use suri_base::NoMemory;

/// The numbers of the frames that use a flow now, each once. Contracts see a list, whose order means nothing, and
/// for how many more frames there is room.
#[derive(Drop)]
pub struct Uses {
    // As they rise, so that a search of many is short.
    frames: Vec<u32>,
}

impl Model for Uses {
    ghost use Rattle.flow_uses.specs.Uses.{AreFrames, InUse, spare};
    ghost use Rattle.std.specs.Prelude.{vec_len, vec_capacity};

    ghost Value = { InUse };

    ghost view = { λ u. record { frames = u.frames.items; room = spare (vec_capacity u.frames) (vec_len u.frames) } };

    ghost invariant = { λ u. AreFrames u.frames.items };
}

// The place of a number among those that rise, or the one where it would stand.
fn place(items: &[u32], item: u32) -> Result<usize, usize>
    requires { AreRising items.now }
    ensures found { IfOk result (IsAt items.now item) }
    ensures absent { IfErr result (IsGap items.now item) }
{
    items.binary_search(&item)
}

// One number more, at its place, for which there is room.
fn put(items: &mut Vec<u32>, item: u32)
    requires rising { AreRising items.old.items }
    requires room { vec_len items.old < vec_capacity items.old }
    requires new { has items.old.items item ≡ false }
    ensures rising { AreRising items.new.items }
    ensures numbers { (u : ℕ) → has items.new.items u ≡ ((item == u) || has items.old.items u) }
    ensures len { vec_len items.new ≡ vec_len items.old + 1 }
    ensures capacity { vec_capacity items.old ≤ vec_capacity items.new }
{
    if let Err(at) = place(items, item) {
        let _ = items.insert(at, item);
    }
}

// Takes a number out, wherever it stands. Says whether it was there.
fn take_away(items: &mut Vec<u32>, item: u32) -> bool
    requires { AreRising items.old.items }
    ensures was { result ≡ has items.old.items item }
    ensures items { items.new.items ≡ filter (λ x. not (x == item)) items.old.items }
    ensures capacity { vec_capacity items.new ≡ vec_capacity items.old }
{
    match place(items, item) {
        Ok(at) => {
            let _ = items.remove(at);
            true
        }
        Err(_) => false,
    }
}

impl Uses {
    /// No frame, and no memory taken.
    pub fn new(alloc: Global) -> Uses
        ensures { result.frames ≡ [] }
    {
        Uses {
            frames: Vec::new(alloc),
        }
    }

    /// Makes room for one more frame, where there is none.
    ///
    /// # Errors
    ///
    /// `NoMemory` where there is none for that room. The frames are the same.
    pub fn reserve(&mut self) -> Result<(), NoMemory>
        ensures frames { self.new.frames ≡ self.old.frames }
        ensures kept { self.old.room ≤ self.new.room }
        ensures room { OnOk result (0 < self.new.room) }
        ensures succeeds { 0 < self.old.room → IsOk result }
        ensures spared { 0 < self.old.room → self.new ≡ self.old }
    {
        if self.frames.len() < self.frames.capacity() {
            return Ok(());
        }
        match self.frames.reserve(1) {
            Ok(_) => Ok(()),
            Err(_) => Err(NoMemory),
        }
    }

    /// The use of a frame begins. It takes no memory.
    pub fn begin_use(&mut self, no: u32)
        requires room { 0 < self.old.room }
        requires positive { 1 ≤ no }
        requires new { has self.old.frames no ≡ false }
        ensures frames { (u : ℕ) → has self.new.frames u ≡ ((no == u) || has self.old.frames u) }
        ensures count { length self.new.frames ≡ length self.old.frames + 1 }
        ensures room { self.old.room ≤ self.new.room + 1 }
    {
        put(&mut self.frames, no);
    }

    /// The use of a frame ends. Says whether there was one.
    pub fn end_use(&mut self, no: u32) -> bool
        ensures was { result ≡ has self.old.frames no }
        ensures frames { (u : ℕ) → has self.new.frames u ≡ (has self.old.frames u && not (u == no)) }
        ensures count { length self.old.frames ≡ (if result then length self.new.frames + 1 else length self.new.frames) }
        ensures room { length self.old.frames + self.old.room ≤ length self.new.frames + self.new.room }
    {
        take_away(&mut self.frames, no)
    }

    /// Whether that frame uses the flow.
    pub fn has(&self, no: u32) -> bool
        ensures { result ≡ has self.now.frames no }
    {
        place(&self.frames, no).is_ok()
    }

    /// How many frames use the flow.
    pub fn count(&self) -> u32
        ensures value { result ≡ length self.now.frames }
        ensures once { IsNumberSet self.now.frames }
    {
        self.frames.len() as u32
    }
}
