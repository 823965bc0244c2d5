//! What holds of orders beside slots.
ghost use Rattle.flow_orders.specs.Laws.{GrowsSlots, KeepsUses, MayMend, MayMendTimes, MayMendUnused};

/// From the slots and room enough, the marks of a slot may change. It does nothing.
pub fn may_mend()
    ensures { MayMend }
{}

/// So may only those that packets change. It does nothing.
pub fn may_mend_times()
    ensures { MayMendTimes }
{}

/// So may only its place among the unused. It does nothing.
pub fn may_mend_unused()
    ensures { MayMendUnused }
{}

/// The orders of slots are those of one empty slot more. It does nothing.
pub fn grows_slots()
    ensures { GrowsSlots }
{}

/// The uses of a flow are in their order when the flow changes but for them. It does nothing.
pub fn keeps_uses()
    ensures { KeepsUses }
{}
