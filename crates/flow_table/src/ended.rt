//! The orders when a use ends.
ghost use Rattle.std.specs.Prelude.{◌≡◌, Some, slice_set, List, Option};
ghost use Rattle.bucket_flow.specs.Held.{Held};
ghost use Rattle.flow_orders.specs.Orders.{AreOrders};
ghost use Rattle.flow_table.specs.Slots.{IsUseEnded};

use flow_orders::Orders;
use key_order::Age;

/// A frame's use of the flow in a slot has ended, where it had it: so the place of the flow among the unused has changed, and
/// no other mark of it.
pub fn end_use(orders: &mut Orders, slot: u32, no: u32, old: Option<Age>, new: Option<Age>)
    requires { (slots : List (Option Held)) × (f g : Held) × IsUseEnded slots orders.old slot no f g old new }
    ensures { (slots : List (Option Held)) (f g : Held) → IsUseEnded slots orders.old slot no f g old new → AreOrders (slice_set slots slot (Some g)) orders.new }
{
    let Some(at) = orders.used_at(no) else {
        return;
    };
    if at != slot {
        return;
    }
    orders.end_use(no);
    orders.mend_unused(slot, old, new);
}
