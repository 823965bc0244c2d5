//! What a legal history of a pool is.
ghost use Rattle.suri_base.specs.History.{Legal};
ghost use Rattle.std.specs.Prelude.{reverse, ◌≤◌};
ghost use Rattle.flow_pool.specs.Counting.{FlowPoolRules, flows_out};

use crate::calls::PoolSetting;
use crate::pool::FlowPool;
use suri_base::{Entry, Machine, PoolNote};

/// A legal history of a pool keeps the rules of counting. The entries stand in the order of time. It does nothing.
pub fn keeps_rules(setting: PoolSetting, entries: &[Entry<PoolNote>])
    requires legal { Legal (⟦<FlowPool as Machine>⟧.may setting) (⟦<FlowPool as Machine>⟧.answers setting) (reverse entries.now) }
    ensures rules { FlowPoolRules setting (reverse entries.now) }
    ensures within { flows_out (reverse entries.now) ≤ setting.memcap }
{
    let _ = entries.len();
    let _ = setting;
}
