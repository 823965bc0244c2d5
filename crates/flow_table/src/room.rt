//! Room that was asked for before, and slots that are used again.
ghost use Rattle.std.specs.Prelude.{◌≡◌, ◌<◌, ◌≤◌, ◌+◌, ◌++◌, ◌∷◌, [], true, None, Some, length, slice_get, vec_len, vec_capacity};
ghost use Rattle.flow_table.specs.Slots.{IsGrown};

use bucket_flow::Flow;
use suri_base::NoMemory;

/// One element more, for which there is room.
pub fn put<T: Drop>(items: &mut Vec<T>, item: T)
    requires { vec_len items.old < vec_capacity items.old }
    ensures items { items.new.items ≡ items.old.items ++ item ∷ [] }
    ensures len { vec_len items.new ≡ vec_len items.old + 1 }
    ensures capacity { vec_capacity items.old ≤ vec_capacity items.new }
{
    let _ = items.push(item);
}

/// A slot that was left is listed, where there is room for it.
pub fn keep(left: &mut Vec<u32>, slot: u32) {
    if left.len() < left.capacity() {
        put(left, slot);
    }
}

/// Makes room for the numbers of so many slots, and one more.
pub fn reserve_left(left: &mut Vec<u32>, slots: usize) -> Result<(), NoMemory> {
    let more = slots.saturating_add(1).saturating_sub(left.len());
    match left.reserve(more) {
        Ok(_) => Ok(()),
        Err(_) => Err(NoMemory),
    }
}

// Whether the slot of this number is there and empty.
fn is_empty_at(slots: &[Option<Flow>], slot: u32) -> bool
    ensures { result ≡ true → slice_get slots.now slot ≡ Some None }
{
    match slots.get(slot as usize) {
        None => false,
        Some(place) => match place {
            None => true,
            Some(_) => false,
        },
    }
}

/// An empty slot: one that was left, or a new one at the end.
pub fn empty_slot(slots: &mut Vec<Option<Flow>>, left: &mut Vec<u32>) -> u32
    requires room { vec_len slots.old < vec_capacity slots.old }
    requires few { vec_len slots.old < 4294967295 }
    ensures slots { IsGrown slots.old.items slots.new.items }
    ensures empty { slice_get slots.new.items result ≡ Some None }
    ensures len { vec_len slots.new ≤ vec_len slots.old + 1 }
{
    if let Some(slot) = left.pop() {
        if is_empty_at(slots, slot) {
            return slot;
        }
    }
    let slot = slots.len() as u32;
    put(slots, None);
    slot
}

/// The slots that are empty are listed, as far as there is room.
pub fn list_empty(slots: &[Option<Flow>], left: &mut Vec<u32>)
    requires { length slots.now < 4294967296 }
{
    left.clear();
    for at in 0..slots.len() {
        if slots[at].is_none() {
            keep(left, at as u32);
        }
    }
}
