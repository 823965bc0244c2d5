//! A new lock.
ghost use Rattle.std.specs.Prelude.{◌≡◌, ◌<◌, ◌+◌, ◌≤◌, [], All, map, length, IfOk, vec_len, vec_capacity};
ghost use Rattle.hist_lock.specs.Rule.{undealt};
ghost use Rattle.hist_lock.specs.Locks.{lock_id, made_with, roles_of, numbers, role_of, IsPassOf, IsNewPass};

use crate::law::Deal;
use crate::lock::LockSeat;
use crate::pass::Pass;
use crate::table::HistLock;
use crate::view::{About, Home};
use atomic_table::Table;
use std::alloc::{AllocError, Global};
use std::snapshot::Snapshot;
use std::sync::atomic::AtomicU64;
use suri_base::{Machine, NoMemory};

impl<M: Machine> HistLock<M> {
    // Gives each role a pass of its own.
    fn deal(&self, mut seat: LockSeat<M>, roles: u32, mut passes: Vec<Pass<M>>) -> Vec<Pass<M>>
        requires roles { (0 < roles) × (roles ≡ roles_of self.now) }
        requires seat { (seat.table_id ≡ lock_id self.now) × (seat.me ≡ (undealt (M.fixed (made_with self.now)) roles 0, [])) }
        requires room { (passes.items ≡ []) × (roles ≤ vec_capacity passes) }
        ensures roles { map (λ p. role_of p) result.items ≡ numbers 0 roles }
        ensures passes { All (λ p. IsNewPass M.fixed self.now p) result.items }
    {
        let last = roles - 1;
        for role in 0..last {
            let own = self.table.shared.split_seat::<Deal>(&mut seat);
            passes.push_reserved(Pass {
                seat: own,
                role,
                seen: 0,
            });
        }
        passes.push_reserved(Pass {
            seat,
            role: last,
            seen: 0,
        });
        passes
    }
}

impl<M: Machine + Drop> HistLock<M> {
    /// A lock over this machine, with a pass for each of the roles 0 to `roles - 1`, in that order.
    ///
    /// It fails only where no memory is left; the machine is then dropped.
    pub fn new(
        alloc: Global,
        machine: M,
        roles: u32,
    ) -> Result<(HistLock<M>, Vec<Pass<M>>), NoMemory>
        requires roles { 0 < roles }
        requires stands { M.stands machine [] }
        ensures made { IfOk result (λ t. (M.fixed (made_with t.0) ≡ M.fixed machine) × (roles_of t.0 ≡ roles)) }
        ensures roles { IfOk result (λ t. map (λ p. role_of p) t.1.items ≡ numbers 0 roles) }
        ensures passes { IfOk result (λ t. All (λ p. IsNewPass M.fixed t.0 p) t.1.items) }
    {
        let passes = Vec::with_capacity(alloc, roles as usize)?;
        let mut slots = Vec::with_capacity(alloc, 1)?;
        let about = About {
            machine: Snapshot::of(&machine),
            roles,
        };
        let Ok(machine) = Box::new(alloc, machine) else {
            return Err(NoMemory);
        };
        slots.push_reserved(Some(Home {
            machine,
            entries: Vec::new(alloc),
        }));
        let Ok((table, seat)) = Table::new(alloc, &[0, 0], slots, &about) else {
            return Err(NoMemory);
        };
        let lock = HistLock {
            table,
            asleep: AtomicU64::new(0),
        };
        let passes = lock.deal(seat, roles, passes);
        Ok((lock, passes))
    }
}
