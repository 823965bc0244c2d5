//! Slots by the order of their keys.
ghost use Rattle.std.specs.Prelude.{◌≡◌, ◌<◌, ◌≤◌, ◌+◌, ◌^◌, [], ℕ, length, if◌then◌else◌, None, Some, true, IfErr, IfOk, OnOk, IsOk, MatchOption};
ghost use Rattle.std.specs.Ordering.{is_eq, is_gt};
ghost use Rattle.slot_order.specs.Next.{IsNext};
ghost use Rattle.slot_order.specs.Order.{added, CanReplace, IsFirst, is_key, slot_of};

use crate::chunks::MOST;
use crate::few::Few;
use crate::row::Row;
use std::alloc::Global;
use std::marker::Model;
use suri_base::NoMemory;

/// A finite map from keys to slots, by rising key. Contracts see the pairs in their order, and for how many more there is room.
#[derive(Drop)]
pub struct Order<K: Ord + Copy + Drop> {
    alloc: Global,
    // Which of the two holds the pairs.
    is_many: bool,
    few: Few<K>,
    many: Row<K>,
}

impl<K: Ord + Copy + Drop> Model for Order<K> {
    ghost use Rattle.std.specs.Prelude.{if◌then◌else◌};
    ghost use Rattle.slot_order.specs.Order.{Pairs};

    ghost Value = { Pairs K };

    ghost view = { λ o. if o.is_many then o.many else o.few };
}

impl<K: Ord + Copy + Drop> Order<K> {
    /// No slot, and no memory taken.
    pub fn new(alloc: Global) -> Order<K>
        ensures { result.pairs ≡ [] }
    {
        Order {
            alloc,
            is_many: false,
            few: Few::new(alloc),
            many: Row::new(alloc),
        }
    }

    /// Makes room for so many more slots, where there is less.
    ///
    /// # Errors
    ///
    /// `NoMemory` where there is none for that room. The slots are the same.
    pub fn reserve(&mut self, count: usize) -> Result<(), NoMemory>
        ensures pairs { self.new.pairs ≡ self.old.pairs }
        ensures kept { self.old.room ≤ self.new.room }
        ensures room { OnOk result (count ≤ self.new.room) }
        ensures succeeds { count ≤ self.old.room → IsOk result }
    {
        if self.is_many {
            return self.many.reserve(count);
        }
        if count <= self.few.room() {
            return Ok(());
        }
        if self.few.is_enough(count) {
            return self.few.reserve(count);
        }
        match grown(self.alloc, &mut self.few, count) {
            Ok(row) => {
                self.many = row;
                self.is_many = true;
                Ok(())
            }
            Err(error) => Err(error),
        }
    }

    /// For how many more slots there is room.
    pub fn room(&self) -> usize
        ensures value { result ≡ self.now.room }
        ensures small { result < 2 ^ 63 }
    {
        if self.is_many {
            self.many.room()
        } else {
            self.few.room()
        }
    }

    /// The slot of a key.
    pub fn find(&self, key: K) -> Option<u32>
        ensures { result ≡ slot_of K.cmp self.now.pairs key }
    {
        if self.is_many {
            self.many.find(key)
        } else {
            self.few.find(key)
        }
    }

    /// Gives a slot to a key that has none. It takes no memory.
    pub fn insert(&mut self, key: K, slot: u32)
        requires room { 0 < self.old.room }
        requires new { slot_of K.cmp self.old.pairs key ≡ None }
        ensures slots { (q : K) → slot_of K.cmp self.new.pairs q ≡ (if is_eq (K.cmp key q) then Some slot else slot_of K.cmp self.old.pairs q) }
        ensures len { length self.new.pairs ≡ length self.old.pairs + 1 }
        ensures room { self.old.room ≤ self.new.room + 1 }
    {
        if self.is_many {
            self.many.insert(key, slot);
        } else {
            self.few.insert(key, slot);
        }
    }

    /// Takes a key's slot away. It takes no memory.
    pub fn remove(&mut self, key: K) -> Option<u32>
        ensures was { result ≡ slot_of K.cmp self.old.pairs key }
        ensures rest { (q : K) → slot_of K.cmp self.new.pairs q ≡ (if is_eq (K.cmp key q) then None else slot_of K.cmp self.old.pairs q) }
        ensures len { MatchOption result (self.new.pairs ≡ self.old.pairs) (λ s. length self.new.pairs + 1 ≡ length self.old.pairs) }
        ensures kept { self.old.room ≤ self.new.room }
    {
        if self.is_many {
            self.many.remove(key)
        } else {
            self.few.remove(key)
        }
    }

    /// A key leaves the slot that it had, and another takes it; either may be missing. It takes no memory, and where the two
    /// are one key, it changes nothing.
    pub fn replace(&mut self, old: Option<K>, new: Option<K>, slot: u32)
        requires { CanReplace K.cmp self.old.pairs self.old.room old new slot }
        ensures slots { (q : K) → slot_of K.cmp self.new.pairs q ≡ (if is_key K.cmp new q then Some slot else (if is_key K.cmp old q then None else slot_of K.cmp self.old.pairs q)) }
        ensures room { self.old.room ≤ self.new.room + added K.cmp old new }
    {
        match (old, new) {
            (None, None) => {}
            (None, Some(to)) => self.insert(to, slot),
            (Some(from), None) => {
                let _ = self.remove(from);
            }
            (Some(from), Some(to)) => self.rename(from, to, slot),
        }
    }

    // A slot leaves one key for another.
    fn rename(&mut self, from: K, to: K, slot: u32)
        requires { CanReplace K.cmp self.old.pairs self.old.room (Some from) (Some to) slot }
        ensures slots { (q : K) → slot_of K.cmp self.new.pairs q ≡ (if is_eq (K.cmp to q) then Some slot else (if is_eq (K.cmp from q) then None else slot_of K.cmp self.old.pairs q)) }
        ensures room { self.old.room ≤ self.new.room + added K.cmp (Some from) (Some to) }
    {
        if from.cmp(&to).is_eq() {
            return;
        }
        let _ = self.remove(from);
        self.insert(to, slot);
    }

    /// All slots leave. It takes no memory.
    pub fn clear(&mut self)
        ensures none { self.new.pairs ≡ [] }
        ensures kept { self.old.room ≤ self.new.room }
    {
        if self.is_many {
            self.many.clear();
        } else {
            self.few.clear();
        }
    }

    /// The least key with its slot.
    pub fn first(&self) -> Option<(K, u32)>
        ensures { MatchOption result ((q : K) → slot_of K.cmp self.now.pairs q ≡ None) (IsFirst K.cmp self.now.pairs) }
    {
        if self.is_many {
            self.many.first()
        } else {
            self.few.first()
        }
    }

    /// The least key above a key, with its slot: so the keys can be gone through in their order.
    pub fn next_after(&self, key: K) -> Option<(K, u32)>
        ensures { MatchOption result ((q : K) → is_gt (K.cmp q key) ≡ true → slot_of K.cmp self.now.pairs q ≡ None) (IsNext K.cmp self.now.pairs key) }
    {
        if self.is_many {
            self.many.next_after(key)
        } else {
            self.few.next_after(key)
        }
    }
}

// The pairs in chunks, with room for so many more.
fn grown<K: Ord + Copy + Drop>(
    alloc: Global,
    few: &mut Few<K>,
    count: usize,
) -> Result<Row<K>, NoMemory>
    requires few { length few.old.pairs < 256 }
    ensures pairs { IfOk result (λ row. row.pairs ≡ few.old.pairs) }
    ensures room { IfOk result (λ row. count ≤ row.room) }
    ensures same { IfErr result (λ _. few.new.pairs ≡ few.old.pairs) }
    ensures kept { IfErr result (λ _. few.old.room ≤ few.new.room) }
{
    let Some(wanted) = count.checked_add(1) else {
        return Err(NoMemory);
    };
    let mut row = Row::new(alloc);
    row.reserve(wanted)?;
    if few.len() > 0 {
        few.reserve(MOST)?;
        row.begin_with(few.take(alloc));
    }
    Ok(row)
}
