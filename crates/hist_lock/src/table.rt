//! The lock's table.
ghost use Rattle.std.specs.Prelude.{◌≡◌, ◌<◌};

use crate::law::Law;
use crate::view::{About, Home, View};
use atomic_table::Table;
use std::alloc::Global;
use std::sync::atomic::AtomicU64;
use suri_base::Machine;

/// A lock over the machine `M`.
#[derive(Drop)]
pub struct HistLock<M: Machine> {
    pub(crate) table: Table<
        Option<Home<M, M::Note>>,
        View<M::Note, M::Fixed>,
        About<M>,
        Law<M>,
        Global,
    >,
    // 1 while a role may sleep that nobody has woken yet, and else 0. No promise rests on it.
    pub(crate) asleep: AtomicU64,
    ghost sized: { (table.shared.table_id.words ≡ 2) × (table.shared.table_id.slots ≡ 1) },
    ghost peopled: { 0 < table.shared.key.roles },
}

/// No memory was left for the entry or for the call. The call comes back.
#[derive(Drop)]
pub struct Refused<C> {
    pub call: C,
}
