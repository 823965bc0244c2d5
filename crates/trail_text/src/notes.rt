//! The words of the notes.
ghost use Rattle.std.specs.Prelude.{◌≡◌, ◌++◌, ◌∷◌, [], codes, decimal, OnOk, string_bytes};
ghost use Rattle.trail_text.specs.Words.{behind, bucket_words, pool_words, seg_words, truth_word};

use crate::putting::{put, put_app, put_number, put_offer, put_truth};
use suri_base::{BucketNote, NoMemory, PoolNote, SegNote};

// Puts a number and another one behind words.
fn put_two(out: &mut String, first: u32, second: u32) -> Result<(), NoMemory>
    ensures { OnOk result (string_bytes out.new ≡ string_bytes out.old ++ behind (decimal first ∷ decimal second ∷ [])) }
{
    put_number(out, first.into())?;
    put_number(out, second.into())
}

// Puts a frame and what was full for it behind words.
fn put_full(out: &mut String, no: u32, taken: u32, limit: u32) -> Result<(), NoMemory>
    ensures { OnOk result (string_bytes out.new
        ≡ string_bytes out.old ++ behind (codes "full" ∷ decimal no ∷ decimal taken ∷ decimal limit ∷ [])) }
{
    put(out, " full")?;
    put_number(out, no.into())?;
    put_two(out, taken, limit)
}

// Puts a number, whether there was an emergency, and how the pool's history was seen behind words.
fn put_mode(out: &mut String, number: u32, emergency: bool, seen: u64) -> Result<(), NoMemory>
    ensures { OnOk result (string_bytes out.new
        ≡ string_bytes out.old ++ behind (decimal number ∷ truth_word emergency ∷ decimal seen ∷ [])) }
{
    put_number(out, number.into())?;
    put_truth(out, emergency)?;
    put_number(out, seen)
}

/// Puts what the pool of flow objects noted behind words.
pub fn put_pool(out: &mut String, note: PoolNote) -> Result<(), NoMemory>
    ensures { OnOk result (string_bytes out.new ≡ string_bytes out.old ++ behind (pool_words note)) }
{
    match note {
        PoolNote::Took { no } => {
            put(out, " took")?;
            put_number(out, no.into())
        }
        PoolNote::Full {
            no,
            out: taken,
            limit,
        } => put_full(out, no, taken, limit),
        PoolNote::Put { run } => {
            put(out, " put")?;
            put_number(out, run.into())
        }
        PoolNote::Turn { run, no } => {
            put(out, " turn")?;
            put_two(out, run, no)
        }
        PoolNote::Mode { on } => {
            put(out, " mode")?;
            put_truth(out, on)
        }
        PoolNote::Over { round, ended } => {
            put(out, " over")?;
            put_number(out, round.into())?;
            put_truth(out, ended)
        }
    }
}

/// Puts what the pool of segment nodes noted behind words.
pub fn put_seg(out: &mut String, note: SegNote) -> Result<(), NoMemory>
    ensures { OnOk result (string_bytes out.new ≡ string_bytes out.old ++ behind (seg_words note)) }
{
    match note {
        SegNote::Took { no } => {
            put(out, " took")?;
            put_number(out, no.into())
        }
        SegNote::Full {
            no,
            out: taken,
            limit,
        } => put_full(out, no, taken, limit),
        SegNote::Gave { count } => {
            put(out, " gave")?;
            put_number(out, count.into())
        }
    }
}

/// Puts what a bucket noted behind words.
pub fn put_bucket(out: &mut String, note: BucketNote) -> Result<(), NoMemory>
    ensures { OnOk result (string_bytes out.new ≡ string_bytes out.old ++ behind (bucket_words note)) }
{
    match note {
        BucketNote::Found {
            no,
            emergency,
            seen,
            run,
            offer,
        } => {
            put(out, " found")?;
            put_mode(out, no, emergency, seen)?;
            put_number(out, run.into())?;
            put_offer(out, offer)
        }
        BucketNote::Missing {
            no,
            emergency,
            seen,
            ended,
        } => {
            put(out, " missing")?;
            put_mode(out, no, emergency, seen)?;
            put_number(out, ended.into())
        }
        BucketNote::Made { no, offer } => {
            put(out, " made")?;
            put_number(out, no.into())?;
            put_offer(out, offer)
        }
        BucketNote::Refused { no } => {
            put(out, " refused")?;
            put_number(out, no.into())
        }
        BucketNote::Stored { no } => {
            put(out, " stored")?;
            put_number(out, no.into())
        }
        BucketNote::Stopped { no } => {
            put(out, " stopped")?;
            put_number(out, no.into())
        }
        BucketNote::Closed {
            no,
            app,
            run,
            freed,
            ended,
        } => {
            put(out, " closed")?;
            put_number(out, no.into())?;
            put_app(out, app)?;
            put_two(out, run, freed)?;
            put_truth(out, ended)
        }
        BucketNote::Idle { no, app } => {
            put(out, " idle")?;
            put_number(out, no.into())?;
            put_app(out, app)
        }
        BucketNote::Victim { no, run } => {
            put(out, " victim")?;
            put_two(out, no, run)
        }
        BucketNote::AllInUse { no, count } => {
            put(out, " inuse")?;
            put_two(out, no, count)
        }
        BucketNote::Swept {
            round,
            emergency,
            seen,
            count,
        } => {
            put(out, " swept")?;
            put_mode(out, round, emergency, seen)?;
            put_number(out, count.into())
        }
        BucketNote::Drained { count } => {
            put(out, " drained")?;
            put_number(out, count.into())
        }
    }
}
