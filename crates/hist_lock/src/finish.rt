//! The end of a lock: the machine, with the one history.
ghost use Rattle.std.specs.Prelude.{◌≡◌, ◌<◌, All, map, reverse, length, is_none, true};
ghost use Rattle.suri_base.specs.History.{entries_of, Begins, Legal};
ghost use Rattle.hist_lock.specs.Passes.{IsOf};
ghost use Rattle.hist_lock.specs.Locks.{lock_id, made_with, roles_of, numbers, IsPassOf, IsTakenIn, role_of, seen_by, made_of};

use crate::law::{Take, TakeIn};
use crate::lock::{HELD, LockSeat};
use crate::pass::Pass;
use crate::table::HistLock;
use crate::view::Home;
use suri_base::{Entry, Machine};

impl<M: Machine> HistLock<M> {
    // One seat with all roles.
    fn gather(&self, mut passes: Vec<Pass<M>>) -> LockSeat<M>
        requires some { 0 < length passes.items }
        requires passes { All (λ p. IsPassOf M.fixed self.now p) passes.items }
        ensures lock { IsOf (lock_id self.now) (M.fixed (made_with self.now)) (roles_of self.now) result }
        ensures idle { (length result.me.1 ≡ 0) × (is_none result.me.0.whole ≡ true) }
        ensures all { All (λ p. IsTakenIn result p) passes.items }
    {
        let Some(last) = passes.pop() else {
            unreachable!()
        };
        let Pass {
            mut seat,
            role: _,
            seen: _,
        } = last;
        while let Some(pass) = passes.pop() {
            let Pass {
                seat: other,
                role: _,
                seen: _,
            } = pass;
            self.table.shared.join_seat::<TakeIn>(&mut seat, other);
        }
        seat
    }
}

impl<M: Machine + Drop> HistLock<M> {
    /// The machine, and the entries of its whole history in the order of time. All passes are handed in, in order of role.
    ///
    /// What the contract says of the history speaks of the entries with the newest first: that is what `reverse` is for.
    pub fn finish(self, passes: Vec<Pass<M>>) -> (M, Vec<Entry<M::Note>>)
        requires roles { map (λ p. role_of p) passes.items ≡ numbers 0 (roles_of self) }
        requires passes { All (λ p. IsPassOf M.fixed self p) passes.items }
        ensures fixed { M.fixed result.0 ≡ M.fixed (made_with self) }
        ensures stands { M.stands result.0 (reverse result.1.items) }
        ensures legal { Legal (M.may (M.fixed (made_with self))) (M.answers (M.fixed (made_with self))) (reverse result.1.items) }
        ensures begins { All (λ p. Begins (seen_by p) (reverse result.1.items)) passes.items }
        ensures own { All (λ p. entries_of (role_of p) (reverse result.1.items) ≡ made_of p) passes.items }
        ensures known { All (λ e. e.role < roles_of self) (reverse result.1.items) }
    {
        let mut seat = self.gather(passes);
        if self
            .table
            .shared
            .compare_exchange::<Take<M>>(&mut seat, HELD, 0, 1)
            != 0
        {
            unreachable!();
        }
        let Home { machine, entries } = self.lift(&mut seat);
        let machine = Box::into_inner(machine);
        (machine, entries)
    }
}
