//! What is counted of the histories of a run's machines.
ghost use Rattle.run_counts.specs.Counting.{all_refusals, begins_emergency, emergencies_begun, is_refusal, refusals};
ghost use Rattle.flow_pool.specs.Counting.{is_on_after};
ghost use Rattle.run_rules.specs.Quiet.{is_full, is_short};
ghost use Rattle.std.specs.Prelude.{◌≡◌, ◌^◌, ◌<◌, count_by, reverse};

use suri_base::{BucketNote, Entry, PoolNote, SegNote, Trail};

// Whether a packet found no flow and no room for one.
fn is_refusal(note: BucketNote) -> bool
    ensures { result ≡ is_refusal note }
{
    matches!(note, BucketNote::Refused { .. })
}

// Whether no flow object was left.
fn is_full(note: PoolNote) -> bool
    ensures { result ≡ is_full note }
{
    matches!(note, PoolNote::Full { .. })
}

// Whether no segment node was left.
fn is_short(note: SegNote) -> bool
    ensures { result ≡ is_short note }
{
    matches!(note, SegNote::Full { .. })
}

// Whether an emergency is on after an entry, by whether it was on before.
fn is_on_after(on: bool, note: PoolNote) -> bool
    ensures { result ≡ is_on_after on note }
{
    match note {
        PoolNote::Full { .. } => true,
        PoolNote::Over { ended, .. } => on && !ended,
        _ => on,
    }
}

// Whether an entry begins an emergency, by whether one was on before.
fn begins_emergency(on: bool, note: PoolNote) -> bool
    ensures { result ≡ begins_emergency on note }
{
    is_full(note) && !on
}

// How many packets a bucket refused.
fn refusals(history: &[Entry<BucketNote>]) -> usize
    ensures { result ≡ refusals history.now }
{
    history
        .iter()
        .filter(|entry| is_refusal(entry.note))
        .count()
}

/// How many packets the buckets refused.
pub fn all_refusals(trail: &Trail) -> u64
    requires { all_refusals trail.now.buckets < 2 ^ 64 }
    ensures { result ≡ all_refusals trail.now.buckets }
{
    let mut count: u64 = 0;
    for history in &trail.buckets {
        count += refusals(history) as u64;
    }
    count
}

/// What is counted of the history of the pool of flows.
#[derive(Clone, Copy, Debug)]
pub struct PoolCounts {
    /// How often no flow object was left.
    pub full: usize,
    /// How often that was so while no emergency was on.
    pub begun: usize,
}

/// What is counted of the history of the pool of flows, in the order of time. Each entry is read once.
pub fn count_pool(history: &[Entry<PoolNote>]) -> PoolCounts
    ensures full { result.full ≡ count_by (λ e. is_full e.note) history.now }
    ensures begun { result.begun ≡ emergencies_begun (reverse history.now) }
{
    let mut full: usize = 0;
    let mut begun: usize = 0;
    let mut on = false;
    for entry in history {
        if is_full(entry.note) {
            full += 1;
        }
        if begins_emergency(on, entry.note) {
            begun += 1;
        }
        on = is_on_after(on, entry.note);
    }
    PoolCounts { full, begun }
}

/// How often no segment node was left.
pub fn times_short(history: &[Entry<SegNote>]) -> usize
    ensures { result ≡ count_by (λ e. is_short e.note) history.now }
{
    history.iter().filter(|entry| is_short(entry.note)).count()
}
