//! The deadlines of an order, from the least on.
ghost use Rattle.std.specs.Prelude.{◌≡◌, ℕ, List, Bool, Option, None, true, MatchOption};
ghost use Rattle.slot_order.specs.Index.{IsIndex};
ghost use Rattle.slot_order.specs.Order.{slot_of};
ghost use Rattle.key_order.specs.Ages.{age_cmp};
ghost use Rattle.key_order.specs.declared.ages.Age as Aged;
ghost use Rattle.flow_orders.specs.Flow.{Held};
ghost use Rattle.flow_orders.specs.Keys.{bears_deadline};
ghost use Rattle.flow_orders.specs.Finding.{comes_after, IsFirstDue, IsNextDue, IsStep};

use key_order::Age;
use slot_order::Order;

// The least age above one, or of all.
fn step(order: &Order<Age>, after: Option<Age>) -> Option<(Age, u32)>
    ensures { MatchOption result ((q : Aged.Age) → comes_after after q ≡ true → slot_of age_cmp order.now.pairs q ≡ None) (IsStep order.now.pairs after) }
{
    match after {
        None => order.first(),
        Some(age) => order.next_after(age),
    }
}

/// The least deadline above an age, where it is before a clock, with its slot.
pub fn next_before(order: &Order<Age>, after: Option<Age>, clock: u64) -> Option<(Age, u32)>
    ensures { (slots : List (Option Held)) (emergency : Bool) → IsIndex age_cmp (bears_deadline emergency) slots order.now.pairs → IsNextDue emergency after clock slots result }
{
    let Some((age, slot)) = step(order, after) else {
        return None;
    };
    if age.clock() < clock {
        Some((age, slot))
    } else {
        None
    }
}

/// The least deadline, with its slot.
pub fn least(order: &Order<Age>) -> Option<(Age, u32)>
    ensures { (slots : List (Option Held)) (emergency : Bool) → IsIndex age_cmp (bears_deadline emergency) slots order.now.pairs → IsFirstDue emergency slots result }
{
    order.first()
}
