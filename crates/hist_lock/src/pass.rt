//! A caller's token.
ghost use Rattle.hist_lock.specs.Passes.{IsPlain};

use crate::view::{Home, View};
use atomic_table::Seat;
use suri_base::Machine;

/// The token of one role at one lock. Contracts know of it the history that it has seen and the entries that it made.
#[derive(Drop)]
pub struct Pass<M: Machine> {
    pub(crate) seat: Seat<Option<Home<M, M::Note>>, View<M::Note, M::Fixed>>,
    pub(crate) role: u32,
    pub(crate) seen: u64,
    ghost plain: { IsPlain seat.me role seen },
}

impl<M: Machine> Pass<M> {
    ghost use Rattle.std.specs.Prelude.{◌≡◌, length};
    ghost use Rattle.hist_lock.specs.Locks.{role_of, seen_by};

    /// The number of its role.
    pub fn role(&self) -> u32
        ensures { result ≡ role_of self.now }
    {
        self.role
    }

    /// How many entries the history has that it has seen.
    pub fn seen(&self) -> u64
        ensures { result ≡ length (seen_by self.now) }
    {
        self.seen
    }
}

unsafe impl<M: Machine + Send> Sync for Pass<M> {}
