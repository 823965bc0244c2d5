//! The parts of a trail's text, read.
ghost use Rattle.std.specs.Prelude.{◌∷◌, [], MatchResult, codes, map};
ghost use Rattle.trail_text.specs.Bounds.{BucketFits, EntryFits, HistoryFits, PoolFits, SegFits};
ghost use Rattle.trail_text.specs.Lines.{bucket_parts, entry_line, part};
ghost use Rattle.trail_text.specs.Reading.{Count, Faulty, Took, bucket_part, entry_row, row};
ghost use Rattle.trail_text.specs.Words.{bucket_words, pool_words, seg_words};

use crate::fault::TrailFault;
use crate::lines::Lines;
use crate::reading_lines::{next_bucket, next_bucket_head, next_pool, next_pool_head, next_seg};
use std::alloc::Global;
use suri_base::{BucketNote, Entry, PoolNote, SegNote};

// Reads so many entries of the pool of flow objects.
fn pool_entries(
    alloc: Global,
    lines: &mut Lines,
    count: u32,
) -> Result<Vec<Entry<PoolNote>>, TrailFault>
    ensures { MatchResult result (λ v. Took (entry_row (entry_line pool_words)) (Count (EntryFits PoolFits) count) lines.old lines.new v.items)
        (Faulty (entry_row (entry_line pool_words)) (Count (EntryFits PoolFits) count) lines.old) }
{
    let mut entries = Vec::new(alloc);
    for _ in 0..count {
        let entry = next_pool(lines)?;
        entries.push(entry)?;
    }
    Ok(entries)
}

// The same of the pool of segment nodes.
fn seg_entries(
    alloc: Global,
    lines: &mut Lines,
    count: u32,
) -> Result<Vec<Entry<SegNote>>, TrailFault>
    ensures { MatchResult result (λ v. Took (entry_row (entry_line seg_words)) (Count (EntryFits SegFits) count) lines.old lines.new v.items)
        (Faulty (entry_row (entry_line seg_words)) (Count (EntryFits SegFits) count) lines.old) }
{
    let mut entries = Vec::new(alloc);
    for _ in 0..count {
        let entry = next_seg(lines)?;
        entries.push(entry)?;
    }
    Ok(entries)
}

// The same of a bucket.
fn bucket_entries(
    alloc: Global,
    lines: &mut Lines,
    count: u32,
) -> Result<Vec<Entry<BucketNote>>, TrailFault>
    ensures { MatchResult result (λ v. Took (entry_row (entry_line bucket_words)) (Count (EntryFits BucketFits) count) lines.old lines.new v.items)
        (Faulty (entry_row (entry_line bucket_words)) (Count (EntryFits BucketFits) count) lines.old) }
{
    let mut entries = Vec::new(alloc);
    for _ in 0..count {
        let entry = next_bucket(lines)?;
        entries.push(entry)?;
    }
    Ok(entries)
}

/// Reads the part of the pool of flow objects.
pub fn pool_part(alloc: Global, lines: &mut Lines) -> Result<Vec<Entry<PoolNote>>, TrailFault>
    ensures { MatchResult result (λ v. Took (part (codes "pool" ∷ []) pool_words) (HistoryFits PoolFits) lines.old lines.new v.items)
        (Faulty (part (codes "pool" ∷ []) pool_words) (HistoryFits PoolFits) lines.old) }
{
    let count = next_pool_head(lines, "pool")?;
    pool_entries(alloc, lines, count)
}

/// Reads the part of the pool of segment nodes.
pub fn seg_part(alloc: Global, lines: &mut Lines) -> Result<Vec<Entry<SegNote>>, TrailFault>
    ensures { MatchResult result (λ v. Took (part (codes "segments" ∷ []) seg_words) (HistoryFits SegFits) lines.old lines.new v.items)
        (Faulty (part (codes "segments" ∷ []) seg_words) (HistoryFits SegFits) lines.old) }
{
    let count = next_pool_head(lines, "segments")?;
    seg_entries(alloc, lines, count)
}

// Reads the part of the bucket with that number.
fn bucket_part(
    alloc: Global,
    lines: &mut Lines,
    number: u32,
) -> Result<Vec<Entry<BucketNote>>, TrailFault>
    ensures { MatchResult result (λ v. Took (bucket_part number) (HistoryFits BucketFits) lines.old lines.new v.items)
        (Faulty (bucket_part number) (HistoryFits BucketFits) lines.old) }
{
    let count = next_bucket_head(lines, number)?;
    bucket_entries(alloc, lines, count)
}

/// Reads the parts of so many buckets.
pub fn bucket_parts(
    alloc: Global,
    lines: &mut Lines,
    rows: u32,
) -> Result<Vec<Vec<Entry<BucketNote>>>, TrailFault>
    ensures { MatchResult result (λ v. Took (row bucket_part 0) (Count (HistoryFits BucketFits) rows) lines.old lines.new (map (λ h. h.items) v.items))
        (Faulty (row bucket_part 0) (Count (HistoryFits BucketFits) rows) lines.old) }
{
    let mut buckets = Vec::new(alloc);
    for number in 0..rows {
        let entries = bucket_part(alloc, lines, number)?;
        buckets.push(entries)?;
    }
    Ok(buckets)
}
