//! Few slots by the order of their keys.
ghost use Rattle.std.specs.Prelude.{◌≡◌, ◌<◌, ◌≤◌, ◌+◌, ◌^◌, [], ℕ, length, if◌then◌else◌, None, Some, true, false, IfOk, IfErr, OnOk, IsOk, MatchOption, vec_len, vec_capacity};
ghost use Rattle.std.specs.Ordering.{is_eq, is_gt};
ghost use Rattle.slot_order.specs.Next.{IsCut, IsNext};
ghost use Rattle.slot_order.specs.Order.{AreSorted, IsAt, IsFirst, IsGap, slot_of};

use crate::chunks::{is_behind, put, search};
use std::alloc::Global;
use std::marker::Model;
use std::mem::replace;
use suri_base::NoMemory;

// The most pairs that are meant to stand in one vector, which takes as much memory as they need; a chunk always takes the same.
const SMALL: usize = 128;

/// Pairs of keys and slots by rising key, in one vector.
#[derive(Drop)]
pub struct Few<K: Ord + Copy + Drop> {
    pairs: Vec<(K, u32)>,
}

impl<K: Ord + Copy + Drop> Model for Few<K> {
    ghost use Rattle.std.specs.Prelude.{◌-◌, vec_len, vec_capacity};
    ghost use Rattle.slot_order.specs.Order.{AreSorted, Pairs};

    ghost Value = { Pairs K };

    ghost view = { λ o. record { pairs = o.pairs.items; room = vec_capacity o.pairs - vec_len o.pairs } };

    ghost invariant = { λ o. AreSorted K.cmp o.pairs.items };
}

impl<K: Ord + Copy + Drop> Few<K> {
    /// No slot, and no memory taken.
    pub fn new(alloc: Global) -> Few<K>
        ensures { result.pairs ≡ [] }
    {
        Few {
            pairs: Vec::new(alloc),
        }
    }

    /// How many slots there are.
    pub fn len(&self) -> usize
        ensures { result ≡ length self.now.pairs }
    {
        self.pairs.len()
    }

    /// Whether the slots stay few with so many more.
    pub fn is_enough(&self, count: usize) -> bool
        ensures { result ≡ false → length self.now.pairs < 256 }
    {
        let len = self.pairs.len();
        len > SMALL || count <= SMALL - len
    }

    /// The pairs, which leave.
    pub fn take(&mut self, alloc: Global) -> Vec<(K, u32)>
        ensures items { result.items ≡ self.old.pairs }
        ensures sorted { AreSorted K.cmp result.items }
        ensures capacity { length self.old.pairs + self.old.room ≤ vec_capacity result }
    {
        replace(&mut self.pairs, Vec::new(alloc))
    }

    /// Makes room for so many more slots, where there is less.
    ///
    /// # Errors
    ///
    /// `NoMemory` where there is none for that room. The slots are the same.
    pub fn reserve(&mut self, count: usize) -> Result<(), NoMemory>
        ensures pairs { self.new.pairs ≡ self.old.pairs }
        ensures kept { self.old.room ≤ self.new.room }
        ensures room { OnOk result (count ≤ self.new.room) }
        ensures succeeds { count ≤ self.old.room → IsOk result }
    {
        match self.pairs.reserve(count) {
            Ok(_) => Ok(()),
            Err(_) => Err(NoMemory),
        }
    }

    /// For how many more slots there is room.
    pub fn room(&self) -> usize
        ensures value { result ≡ self.now.room }
        ensures small { result < 2 ^ 63 }
    {
        self.pairs.capacity() - self.pairs.len()
    }

    /// The slot of a key.
    pub fn find(&self, key: K) -> Option<u32>
        ensures { result ≡ slot_of K.cmp self.now.pairs key }
    {
        match self.place(key) {
            Ok(at) => Some(self.pairs[at].1),
            Err(_) => None,
        }
    }

    /// Gives a slot to a key that has none. It takes no memory.
    pub fn insert(&mut self, key: K, slot: u32)
        requires room { 0 < self.old.room }
        requires new { slot_of K.cmp self.old.pairs key ≡ None }
        ensures slots { (q : K) → slot_of K.cmp self.new.pairs q ≡ (if is_eq (K.cmp key q) then Some slot else slot_of K.cmp self.old.pairs q) }
        ensures len { length self.new.pairs ≡ length self.old.pairs + 1 }
        ensures room { self.old.room ≤ self.new.room + 1 }
    {
        if let Err(at) = self.place_of_new(key) {
            put(&mut self.pairs, at, (key, slot));
        }
    }

    /// Takes a key's slot away. It takes no memory.
    pub fn remove(&mut self, key: K) -> Option<u32>
        ensures was { result ≡ slot_of K.cmp self.old.pairs key }
        ensures rest { (q : K) → slot_of K.cmp self.new.pairs q ≡ (if is_eq (K.cmp key q) then None else slot_of K.cmp self.old.pairs q) }
        ensures len { MatchOption result (self.new.pairs ≡ self.old.pairs) (λ s. length self.new.pairs + 1 ≡ length self.old.pairs) }
        ensures kept { self.old.room ≤ self.new.room }
    {
        match self.place(key) {
            Ok(at) => {
                let pair = self.pairs.remove(at);
                Some(pair.1)
            }
            Err(_) => None,
        }
    }

    /// All slots leave. It takes no memory.
    pub fn clear(&mut self)
        ensures none { self.new.pairs ≡ [] }
        ensures kept { self.old.room ≤ self.new.room }
    {
        self.pairs.clear();
    }

    /// The least key with its slot.
    pub fn first(&self) -> Option<(K, u32)>
        ensures { MatchOption result ((q : K) → slot_of K.cmp self.now.pairs q ≡ None) (IsFirst K.cmp self.now.pairs) }
    {
        if self.pairs.is_empty() {
            return None;
        }
        Some(self.pairs[0])
    }

    /// The least key above a key, with its slot: so the keys can be gone through in their order.
    pub fn next_after(&self, key: K) -> Option<(K, u32)>
        ensures { MatchOption result ((q : K) → is_gt (K.cmp q key) ≡ true → slot_of K.cmp self.now.pairs q ≡ None) (IsNext K.cmp self.now.pairs key) }
    {
        let at = self.cut(key);
        if at < self.pairs.len() {
            Some(self.pairs[at])
        } else {
            None
        }
    }

    // Where a key stands, or where it would go.
    fn place(&self, key: K) -> Result<usize, usize>
        ensures found { IfOk result (IsAt K.cmp self.now.pairs key) }
        ensures absent { IfErr result (IsGap K.cmp self.now.pairs key) }
        ensures sorted { AreSorted K.cmp self.now.pairs }
        ensures within { length self.now.pairs < 2 ^ 63 }
    {
        search(&self.pairs, key)
    }

    // The same. Times mostly come as they rise: where such a key goes is told by the last pair alone.
    fn place_of_new(&self, key: K) -> Result<usize, usize>
        ensures found { IfOk result (IsAt K.cmp self.now.pairs key) }
        ensures absent { IfErr result (IsGap K.cmp self.now.pairs key) }
        ensures sorted { AreSorted K.cmp self.now.pairs }
        ensures within { length self.now.pairs < 2 ^ 63 }
    {
        if is_behind(&self.pairs, key) {
            return Err(self.pairs.len());
        }
        self.place(key)
    }

    // From which place on the pairs stand above a key.
    fn cut(&self, key: K) -> usize
        ensures { IsCut K.cmp self.now.pairs key result }
    {
        match self.place(key) {
            Ok(at) => at + 1,
            Err(at) => at,
        }
    }
}
