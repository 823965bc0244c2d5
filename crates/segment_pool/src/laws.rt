//! What a legal history of a pool is.
ghost use Rattle.suri_base.specs.History.{Legal};
ghost use Rattle.std.specs.Prelude.{reverse, ◌≤◌};
ghost use Rattle.segment_pool.specs.Counting.{KeepsRules, out_of};

use crate::pool::SegmentPool;
use suri_base::{Entry, Machine, SegNote};

/// A legal history of a pool keeps the rules of counting. The entries stand in the order of time. It does nothing.
pub fn keeps_rules(limit: u32, entries: &[Entry<SegNote>])
    requires legal { Legal (⟦<SegmentPool as Machine>⟧.may limit) (⟦<SegmentPool as Machine>⟧.answers limit) (reverse entries.now) }
    ensures rules { KeepsRules limit (reverse entries.now) }
    ensures within { out_of (reverse entries.now) ≤ limit }
{
    let _ = entries.len();
    let _ = limit;
}
