//! The end of many locks.
ghost use Rattle.std.specs.Prelude.{◌≡◌, ℕ, ◌<◌, ◌≤◌, [], ◌∷◌, ◌++◌, All, length, map, reverse, IfOk, slice_index_or, vec_len};
ghost use Rattle.hist_lock.specs.Locks.{made_with, roles_of, role_of, numbers, IsPassOf};
ghost use Rattle.lock_rows.specs.Rows.{Pairs, IsGood, IsWhole, IsOwned};

use hist_lock::{HistLock, Pass};
use std::alloc::Global;
use suri_base::{Entry, Machine, NoMemory};

// The last pass of each role, in order of role: those of this lock.
fn last_passes<M: Machine>(
    alloc: Global,
    lock: &HistLock<M>,
    rows: &mut [Vec<Pass<M>>],
) -> Result<Vec<Pass<M>>, NoMemory>
    requires ends { (k : ℕ) (d : _) → k < length rows.old → (rest : _) × (p : _)
        × ((slice_index_or rows.old k d).items ≡ rest ++ p ∷ []) × IsGood M.fixed M.may M.answers k lock.now p }
    ensures count { length rows.new ≡ length rows.old }
    ensures of { IfOk result (λ v. All (λ p. IsPassOf M.fixed lock.now p) v.items) }
    ensures roles { IfOk result (λ v. map (λ p. role_of p) v.items ≡ numbers 0 (length rows.old)) }
    ensures taken { IfOk result (λ v. (k : ℕ) (d : _) (p : _) → k < length rows.old
        → (slice_index_or rows.old k d).items ≡ (slice_index_or rows.new k d).items ++ (slice_index_or v.items k p) ∷ []) }
{
    let mut passes = Vec::with_capacity(alloc, rows.len())?;
    for row in rows.iter_mut() {
        let Some(pass) = row.pop() else {
            unreachable!()
        };
        passes.push_reserved(pass);
    }
    Ok(passes)
}

/// Ends the locks: the whole history of each, in order, its entries in the order of time.
///
/// # Errors
///
/// `NoMemory`; then the locks and their histories are given up.
pub fn finish_rows<M: Machine + Drop>(
    alloc: Global,
    mut locks: Vec<HistLock<M>>,
    rows: &mut [Vec<Pass<M>>],
) -> Result<Vec<Vec<Entry<M::Note>>>, NoMemory>
    requires roles { All (λ l. roles_of l ≡ length rows.old) locks.items }
    requires rows { (k : ℕ) (d : _) → k < length rows.old
        → Pairs (λ l p. IsGood M.fixed M.may M.answers k l p) locks.items (slice_index_or rows.old k d).items }
    ensures whole { IfOk result (λ hs. Pairs (λ l h. IsWhole M.fixed M.may M.answers l (reverse h.items)) locks.items hs.items) }
    ensures owned { IfOk result (λ hs. (k : ℕ) (d : _) → k < length rows.old
        → Pairs (λ p h. IsOwned k p (reverse h.items)) (slice_index_or rows.old k d).items hs.items) }
{
    let mut histories = Vec::with_capacity(alloc, locks.len())?;
    while let Some(lock) = locks.pop() {
        let passes = last_passes(alloc, &lock, rows)?;
        let (_, entries) = lock.finish(passes);
        histories.push_reserved(entries);
    }
    histories.reverse();
    Ok(histories)
}
