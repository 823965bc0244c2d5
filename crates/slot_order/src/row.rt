//! Many slots by the order of their keys.
ghost use Rattle.std.specs.Prelude.{◌≡◌, ◌<◌, ◌≤◌, ◌+◌, ◌^◌, [], ℕ, length, if◌then◌else◌, None, Some, true, OnOk, IsOk, MatchOption, vec_len, vec_capacity};
ghost use Rattle.std.specs.Ordering.{is_eq, is_gt};
ghost use Rattle.slot_order.specs.Next.{IsNext};
ghost use Rattle.slot_order.specs.Order.{AreSorted, IsFirst, slot_of};
ghost use Rattle.slot_order.specs.Rows.{IsChunk};

use crate::chunks::{
    begin, empty, keep_spares, locate, locate_after, locate_new, pair_from, put, put_pair,
    take_pair,
};
use std::alloc::Global;
use std::marker::Model;
use suri_base::NoMemory;

/// Pairs of keys and slots in chunks by rising key, so that a change moves the pairs of one chunk alone.
#[derive(Drop)]
pub struct Row<K: Ord + Copy + Drop> {
    alloc: Global,
    chunks: Vec<Vec<(K, u32)>>,
    // Empty chunks, for splits.
    spares: Vec<Vec<(K, u32)>>,
}

impl<K: Ord + Copy + Drop> Model for Row<K> {
    ghost use Rattle.slot_order.specs.Order.{AreSorted, Pairs};
    ghost use Rattle.slot_order.specs.Rows.{joined, room_of, IsRow};

    ghost Value = { Pairs K };

    ghost view = { λ o. record { pairs = joined o.chunks.items; room = room_of o.chunks o.spares } };

    ghost invariant = { λ o. AreSorted K.cmp (joined o.chunks.items) × IsRow o.chunks o.spares };
}

impl<K: Ord + Copy + Drop> Row<K> {
    /// No slot, and no memory taken.
    pub fn new(alloc: Global) -> Row<K>
        ensures { result.pairs ≡ [] }
    {
        Row {
            alloc,
            chunks: Vec::new(alloc),
            spares: Vec::new(alloc),
        }
    }

    /// Makes room for so many more slots, where there is less.
    ///
    /// # Errors
    ///
    /// `NoMemory` where there is none for that room. The slots are the same.
    pub fn reserve(&mut self, count: usize) -> Result<(), NoMemory>
        ensures pairs { self.new.pairs ≡ self.old.pairs }
        ensures kept { self.old.room ≤ self.new.room }
        ensures room { OnOk result (count ≤ self.new.room) }
        ensures succeeds { count ≤ self.old.room → IsOk result }
    {
        if self.chunks.reserve(count).is_err() {
            return Err(NoMemory);
        }
        keep_spares(self.alloc, &mut self.spares, count)
    }

    /// For how many more slots there is room.
    pub fn room(&self) -> usize
        ensures value { result ≡ self.now.room }
        ensures small { result < 2 ^ 63 }
    {
        let places = self.chunks.capacity() - self.chunks.len();
        places.min(self.spares.len())
    }

    /// The first chunk of all.
    pub fn begin_with(&mut self, pairs: Vec<(K, u32)>)
        requires none { self.old.pairs ≡ [] }
        requires room { 0 < self.old.room }
        requires chunk { IsChunk pairs }
        requires sorted { AreSorted K.cmp pairs.items }
        ensures pairs { self.new.pairs ≡ pairs.items }
        ensures room { self.old.room ≤ self.new.room + 1 }
    {
        put(&mut self.chunks, 0, pairs);
    }

    /// The slot of a key.
    pub fn find(&self, key: K) -> Option<u32>
        ensures { result ≡ slot_of K.cmp self.now.pairs key }
    {
        if self.chunks.is_empty() {
            return None;
        }
        let (home, place) = locate(&self.chunks, key);
        match place {
            Ok(at) => Some(self.chunks[home][at].1),
            Err(_) => None,
        }
    }

    /// Gives a slot to a key that has none. It takes no memory.
    pub fn insert(&mut self, key: K, slot: u32)
        requires room { 0 < self.old.room }
        requires new { slot_of K.cmp self.old.pairs key ≡ None }
        ensures slots { (q : K) → slot_of K.cmp self.new.pairs q ≡ (if is_eq (K.cmp key q) then Some slot else slot_of K.cmp self.old.pairs q) }
        ensures len { length self.new.pairs ≡ length self.old.pairs + 1 }
        ensures room { self.old.room ≤ self.new.room + 1 }
    {
        if self.chunks.is_empty() {
            begin(&mut self.chunks, &mut self.spares, (key, slot));
            return;
        }
        let (home, place) = locate_new(&self.chunks, key);
        if let Err(at) = place {
            put_pair(&mut self.chunks, &mut self.spares, home, at, (key, slot));
        }
    }

    /// Takes a key's slot away. It takes no memory.
    pub fn remove(&mut self, key: K) -> Option<u32>
        ensures was { result ≡ slot_of K.cmp self.old.pairs key }
        ensures rest { (q : K) → slot_of K.cmp self.new.pairs q ≡ (if is_eq (K.cmp key q) then None else slot_of K.cmp self.old.pairs q) }
        ensures len { MatchOption result (self.new.pairs ≡ self.old.pairs) (λ s. length self.new.pairs + 1 ≡ length self.old.pairs) }
        ensures kept { self.old.room ≤ self.new.room }
    {
        if self.chunks.is_empty() {
            return None;
        }
        let (home, place) = locate(&self.chunks, key);
        match place {
            Ok(at) => {
                let slot = self.chunks[home][at].1;
                take_pair(&mut self.chunks, &mut self.spares, home, at);
                Some(slot)
            }
            Err(_) => None,
        }
    }

    /// All slots leave. It takes no memory.
    pub fn clear(&mut self)
        ensures none { self.new.pairs ≡ [] }
        ensures kept { self.old.room ≤ self.new.room }
    {
        empty(&mut self.chunks, &mut self.spares);
    }

    /// The least key with its slot.
    pub fn first(&self) -> Option<(K, u32)>
        ensures { MatchOption result ((q : K) → slot_of K.cmp self.now.pairs q ≡ None) (IsFirst K.cmp self.now.pairs) }
    {
        if self.chunks.is_empty() {
            return None;
        }
        Some(self.chunks[0][0])
    }

    /// The least key above a key, with its slot: so the keys can be gone through in their order.
    pub fn next_after(&self, key: K) -> Option<(K, u32)>
        ensures { MatchOption result ((q : K) → is_gt (K.cmp q key) ≡ true → slot_of K.cmp self.now.pairs q ≡ None) (IsNext K.cmp self.now.pairs key) }
    {
        if self.chunks.is_empty() {
            return None;
        }
        let (home, at) = locate_after(&self.chunks, key);
        pair_from(&self.chunks, home, at)
    }
}
