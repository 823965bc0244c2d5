//! Locks are made, and their passes dealt out to the roles.
ghost use Rattle.std.specs.Prelude.{◌≡◌, ℕ, ◌<◌, ◌≤◌, ◌+◌, [], ◌∷◌, ◌++◌, All, length, map, IfOk, OnErr, OnOk, slice_index_or, vec_len, vec_capacity};
ghost use Rattle.hist_lock.specs.Locks.{made_with, roles_of, numbers, role_of, IsNewPass};
ghost use Rattle.lock_rows.specs.Rows.{IsGood, IsFresh, AreNewRows};

use hist_lock::{HistLock, Pass};
use std::alloc::Global;
use suri_base::{Machine, NoMemory};

// The passes of one more lock go to the roles, each to its own.
fn deal<M: Machine>(lock: &HistLock<M>, mut passes: Vec<Pass<M>>, rows: &mut [Vec<Pass<M>>])
    requires count { length passes.items ≡ length rows.old }
    requires passes { (k : ℕ) (d : _) → k < length passes.items
        → IsGood M.fixed M.may M.answers k lock.now (slice_index_or passes.items k d) × IsFresh (slice_index_or passes.items k d) }
    requires room { All (λ r. vec_len r < vec_capacity r) rows.old }
    ensures rows { (k : ℕ) (d : _) → k < length rows.old → (p : _)
        × ((slice_index_or rows.new k d).items ≡ (slice_index_or rows.old k d).items ++ p ∷ [])
        × (IsGood M.fixed M.may M.answers k lock.now p × IsFresh p)
        × (vec_capacity (slice_index_or rows.new k d) ≡ vec_capacity (slice_index_or rows.old k d)) }
    ensures count { length rows.new ≡ length rows.old }
{
    while let Some(pass) = passes.pop() {
        let row = &mut rows[passes.len()];
        row.push_reserved(pass);
    }
}

/// A list for the passes of each role, with room for those of `count` locks.
///
/// # Errors
///
/// `NoMemory`.
pub fn empty_rows<M: Machine>(
    alloc: Global,
    roles: u32,
    count: usize,
) -> Result<Vec<Vec<Pass<M>>>, NoMemory>
    ensures count { IfOk result (λ rows. length rows.items ≡ roles) }
    ensures empty { IfOk result (λ rows. All (λ r. (r.items ≡ []) × (count ≤ vec_capacity r)) rows.items) }
{
    let mut rows = Vec::with_capacity(alloc, roles as usize)?;
    for _ in 0..roles {
        rows.push_reserved(Vec::with_capacity(alloc, count)?);
    }
    Ok(rows)
}

/// Adds a lock over that machine, and a pass of it for each role.
///
/// # Errors
///
/// `NoMemory`; then nothing was added.
pub fn add_lock<M: Machine + Drop>(
    alloc: Global,
    machine: M,
    roles: u32,
    locks: &mut Vec<HistLock<M>>,
    rows: &mut Vec<Vec<Pass<M>>>,
) -> Result<(), NoMemory>
    requires roles { (0 < roles) × (length rows.old.items ≡ roles) }
    requires stands { M.stands machine [] }
    requires room { vec_len locks.old < vec_capacity locks.old }
    requires rooms { All (λ r. vec_len r < vec_capacity r) rows.old.items }
    requires rows { AreNewRows M.fixed M.may M.answers locks.old.items rows.old.items }
    ensures lock { OnOk result ((l : HistLock M M.Call M.Reply M.Note M.Fixed)
        × (locks.new.items ≡ locks.old.items ++ l ∷ []) × (M.fixed (made_with l) ≡ M.fixed machine) × (roles_of l ≡ roles)) }
    ensures rows { OnOk result (AreNewRows M.fixed M.may M.answers locks.new.items rows.new.items) }
    ensures count { OnOk result (length rows.new.items ≡ roles) }
    ensures room { vec_capacity locks.new ≡ vec_capacity locks.old }
    ensures rooms { OnOk result ((k : ℕ) (d : _) → k < roles
        → vec_capacity (slice_index_or rows.new.items k d) ≡ vec_capacity (slice_index_or rows.old.items k d)) }
    ensures same { OnErr result ((locks.new ≡ locks.old) × (rows.new ≡ rows.old)) }
{
    let (lock, passes) = HistLock::new(alloc, machine, roles)?;
    deal(&lock, passes, rows);
    locks.push_reserved(lock);
    Ok(())
}
