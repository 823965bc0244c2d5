//! What one pass has seen reaches another.
ghost use Rattle.std.specs.Prelude.{◌≡◌};
ghost use Rattle.suri_base.specs.History.{entries_of, Begins, Legal};
ghost use Rattle.hist_lock.specs.Rule.{longer};
ghost use Rattle.hist_lock.specs.Locks.{made_with, IsPassOf, IsSamePass, role_of, seen_by, made_of};

use crate::law::{Check, Copied, TakeIn};
use crate::lock::COUNT;
use crate::pass::Pass;
use crate::table::HistLock;
use suri_base::Machine;

impl<M: Machine> HistLock<M> {
    /// Afterwards `b` has seen the longer of the two histories that they had seen; `a` is as before.
    pub fn meet(&self, a: &mut Pass<M>, b: &mut Pass<M>)
        requires a { IsPassOf M.fixed self.now a.old }
        requires b { IsPassOf M.fixed self.now b.old }
        ensures a_lock { IsPassOf M.fixed self.now a.new }
        ensures b_lock { IsPassOf M.fixed self.now b.new }
        ensures a_same { IsSamePass a.old a.new }
        ensures b_role { (role_of b.new ≡ role_of b.old) × (made_of b.new ≡ made_of b.old) }
        ensures longer { seen_by b.new ≡ longer (seen_by b.old) (seen_by a.old) }
        ensures begins_a { Begins (seen_by a.old) (seen_by b.new) }
        ensures begins_b { Begins (seen_by b.old) (seen_by b.new) }
        ensures legal { Legal (M.may (M.fixed (made_with self.now))) (M.answers (M.fixed (made_with self.now))) (seen_by b.new) }
        ensures own { entries_of (role_of b.new) (seen_by b.new) ≡ made_of b.new }
    {
        // A copy of `a` goes into `b`, and a load of the count then ties what `b` has heard to the one history.
        let shared = &self.table.shared;
        let copy = shared.split_seat::<Copied>(&mut a.seat);
        shared.join_seat::<TakeIn>(&mut b.seat, copy);
        shared.load::<Check<M>>(&mut b.seat, COUNT);
        b.seen = b.seen.max(a.seen);
    }
}
