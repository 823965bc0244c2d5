//! How many flows stand in slots.
ghost use Rattle.std.specs.Prelude.{◌≡◌, ◌+◌, ◌<◌, ◌^◌, length};
ghost use Rattle.flow_table.specs.Slots.{filled, rank};

use bucket_flow::Flow;

// The count of flows, with the one at the next place.
fn counted(slots: &[Option<Flow>], count: u32, at: usize) -> u32
    requires at { at < length slots.now }
    requires few { length slots.now < 2 ^ 32 }
    requires count { count ≡ rank slots.now at }
    ensures { result ≡ rank slots.now (at + 1) }
{
    match &slots[at] {
        None => count,
        Some(_) => count + 1,
    }
}

/// How many flows stand in the slots.
pub fn count_filled(slots: &[Option<Flow>]) -> u32
    requires { length slots.now < 2 ^ 32 }
    ensures { result ≡ length (filled slots.now) }
{
    let mut count = 0;
    for at in 0..slots.len() {
        count = counted(slots, count, at);
    }
    count
}
