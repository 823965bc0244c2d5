//! Callers of a lock over any machine.
ghost use Rattle.std.specs.Prelude.{◌≡◌, List, [], ◌∷◌, IfSome};
ghost use Rattle.suri_base.specs.declared.entry.Entry.{Entry};
ghost use Rattle.suri_base.specs.History.{entry, entries_of, Legal};
ghost use Rattle.hist_lock.specs.Locks.{role_of, made_with, IsPassOf, seen_by, made_of};

use hist_lock::{HistLock, Pass};
use std::sync::Wait;
use suri_base::Machine;

/// Two calls of one role, as its steps 0 and 1. `None` where no memory was left for one of them.
pub fn two_calls<M: Machine, R: Wait>(
    rt: &R,
    lock: &HistLock<M>,
    pass: &mut Pass<M>,
    first: M::Call,
    second: M::Call,
) -> Option<(M::Reply, M::Reply)>
where
    M::Call: Drop,
    M::Reply: Drop,
    requires lock { IsPassOf M.fixed lock.now pass.old }
    requires first { M.may (M.fixed (made_with lock.now)) (role_of pass.old) (seen_by pass.old) first }
    requires second { (past : List (Entry M.Note)) → M.may (M.fixed (made_with lock.now)) (role_of pass.old) past second }
    requires new { made_of pass.old ≡ [] }
    ensures lock { IsPassOf M.fixed lock.now pass.new }
    ensures made { IfSome result (λ r. (n : M.Note) × (m : M.Note) × (made_of pass.new ≡ entry (role_of pass.old) 1 m ∷ entry (role_of pass.old) 0 n ∷ [])) }
    ensures seen { IfSome result (λ r. Legal (M.may (M.fixed (made_with lock.now))) (M.answers (M.fixed (made_with lock.now))) (seen_by pass.new) × (entries_of (role_of pass.old) (seen_by pass.new) ≡ made_of pass.new)) }
{
    let one = lock.apply(rt, pass, 0, first).ok()?;
    let other = lock.apply(rt, pass, 1, second).ok()?;
    Some((one, other))
}

/// One call, as step 0, and the pass back.
pub fn call_once<M: Machine, R: Wait>(
    rt: &R,
    lock: &HistLock<M>,
    mut pass: Pass<M>,
    call: M::Call,
) -> Pass<M>
where
    M::Call: Drop,
    M::Reply: Drop,
    requires lock { IsPassOf M.fixed lock.now pass }
    requires may { (past : List (Entry M.Note)) → M.may (M.fixed (made_with lock.now)) (role_of pass) past call }
    requires new { made_of pass ≡ [] }
    ensures lock { IsPassOf M.fixed lock.now result }
    ensures role { role_of result ≡ role_of pass }
{
    let _ = lock.apply(rt, &mut pass, 0, call);
    pass
}
