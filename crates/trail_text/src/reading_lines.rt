//! The next line of a trail's text, read as what stands there.
ghost use Rattle.std.specs.Prelude.{◌∷◌, [], codes, decimal};
ghost use Rattle.trail_text.specs.Bounds.{BucketFits, EntryFits, Fits, IsLaidOut, PoolFits, SegFits};
ghost use Rattle.trail_text.specs.Lines.{entry_line, layout_line};
ghost use Rattle.trail_text.specs.Pieces.{Any, Without};
ghost use Rattle.trail_text.specs.Reading.{Parses, alone, head_line};
ghost use Rattle.trail_text.specs.Words.{bucket_words, pool_words, seg_words};

use crate::fault::TrailFault;
use crate::lines::Lines;
use crate::reading_entries::{bucket_line, pool_line, seg_line};
use crate::reading_heads::{bucket_count, layout_of, pool_count};
use crate::values::is;
use suri_base::{BucketNote, Entry, Layout, PoolNote, SegNote};

/// Reads the line that names the format.
pub fn next_title(lines: &mut Lines) -> Result<(), TrailFault>
    ensures { Parses (alone (λ _. codes "suri-trail 1")) Any lines.old lines.new result }
{
    let no = lines.number();
    match lines.take() {
        Some(line) if is(line, "suri-trail 1") => Ok(()),
        _ => Err(TrailFault::Line { no }),
    }
}

/// Reads the line of a layout.
pub fn next_layout(lines: &mut Lines) -> Result<Layout, TrailFault>
    ensures { Parses (alone layout_line) IsLaidOut lines.old lines.new result }
{
    let no = lines.number();
    let Some(line) = lines.take() else {
        return Err(TrailFault::Line { no });
    };
    match layout_of(line) {
        Some(layout) => Ok(layout),
        None => Err(TrailFault::Line { no }),
    }
}

/// Reads how many entries follow the line of the pool with that name.
pub fn next_pool_head(lines: &mut Lines, name: &str) -> Result<u32, TrailFault>
    requires { Without 32 name.now }
    ensures { Parses (alone (head_line (name.now ∷ []))) Fits lines.old lines.new result }
{
    let no = lines.number();
    let Some(line) = lines.take() else {
        return Err(TrailFault::Line { no });
    };
    match pool_count(line, name) {
        Some(count) => Ok(count),
        None => Err(TrailFault::Line { no }),
    }
}

/// Reads how many entries follow the line of the bucket with that number.
pub fn next_bucket_head(lines: &mut Lines, number: u32) -> Result<u32, TrailFault>
    ensures { Parses (alone (head_line (codes "bucket" ∷ decimal number ∷ []))) Fits lines.old lines.new result }
{
    let no = lines.number();
    let Some(line) = lines.take() else {
        return Err(TrailFault::Line { no });
    };
    match bucket_count(line, number) {
        Some(count) => Ok(count),
        None => Err(TrailFault::Line { no }),
    }
}

/// Reads the line of an entry of the pool of flow objects.
pub fn next_pool(lines: &mut Lines) -> Result<Entry<PoolNote>, TrailFault>
    ensures { Parses (alone (entry_line pool_words)) (EntryFits PoolFits) lines.old lines.new result }
{
    let no = lines.number();
    let Some(line) = lines.take() else {
        return Err(TrailFault::Line { no });
    };
    match pool_line(line) {
        Some(entry) => Ok(entry),
        None => Err(TrailFault::Line { no }),
    }
}

/// The same of the pool of segment nodes.
pub fn next_seg(lines: &mut Lines) -> Result<Entry<SegNote>, TrailFault>
    ensures { Parses (alone (entry_line seg_words)) (EntryFits SegFits) lines.old lines.new result }
{
    let no = lines.number();
    let Some(line) = lines.take() else {
        return Err(TrailFault::Line { no });
    };
    match seg_line(line) {
        Some(entry) => Ok(entry),
        None => Err(TrailFault::Line { no }),
    }
}

/// The same of a bucket.
pub fn next_bucket(lines: &mut Lines) -> Result<Entry<BucketNote>, TrailFault>
    ensures { Parses (alone (entry_line bucket_words)) (EntryFits BucketFits) lines.old lines.new result }
{
    let no = lines.number();
    let Some(line) = lines.take() else {
        return Err(TrailFault::Line { no });
    };
    match bucket_line(line) {
        Some(entry) => Ok(entry),
        None => Err(TrailFault::Line { no }),
    }
}
