//! The lines of the entries, read.
ghost use Rattle.std.specs.Prelude.{◌∷◌, decimal};
ghost use Rattle.trail_text.specs.Bounds.{BucketFits, EntryFits, PoolFits, SegFits};
ghost use Rattle.trail_text.specs.Lines.{entry_line, entry_words};
ghost use Rattle.trail_text.specs.Pieces.{Spells};
ghost use Rattle.trail_text.specs.Words.{bucket_words, pool_words, seg_words};

use crate::pieces::Pieces;
use crate::reading_notes::{bucket_note, pool_note, seg_note};
use crate::words::{next_large, next_number};
use suri_base::{BucketNote, Entry, PoolNote, SegNote};

// Reads the words of an entry of the pool of flow objects.
fn pool_entry(words: &mut Pieces) -> Option<Entry<PoolNote>>
    ensures { Spells (entry_words pool_words) (EntryFits PoolFits) words.old result }
{
    let Some(role) = next_number(words) else {
        return None;
    };
    let Some(step) = next_large(words) else {
        return None;
    };
    let Some(note) = pool_note(words) else {
        return None;
    };
    Some(Entry { role, step, note })
}

// The same of the pool of segment nodes.
fn seg_entry(words: &mut Pieces) -> Option<Entry<SegNote>>
    ensures { Spells (entry_words seg_words) (EntryFits SegFits) words.old result }
{
    let Some(role) = next_number(words) else {
        return None;
    };
    let Some(step) = next_large(words) else {
        return None;
    };
    let Some(note) = seg_note(words) else {
        return None;
    };
    Some(Entry { role, step, note })
}

// The same of a bucket.
fn bucket_entry(words: &mut Pieces) -> Option<Entry<BucketNote>>
    ensures { Spells (entry_words bucket_words) (EntryFits BucketFits) words.old result }
{
    let Some(role) = next_number(words) else {
        return None;
    };
    let Some(step) = next_large(words) else {
        return None;
    };
    let Some(note) = bucket_note(words) else {
        return None;
    };
    Some(Entry { role, step, note })
}

/// Reads the line of an entry of the pool of flow objects.
pub fn pool_line(line: &[u8]) -> Option<Entry<PoolNote>>
    ensures { Spells (entry_line pool_words) (EntryFits PoolFits) line.now result }
{
    let mut words = Pieces::of(line, b' ');
    pool_entry(&mut words)
}

/// Reads the line of an entry of the pool of segment nodes.
pub fn seg_line(line: &[u8]) -> Option<Entry<SegNote>>
    ensures { Spells (entry_line seg_words) (EntryFits SegFits) line.now result }
{
    let mut words = Pieces::of(line, b' ');
    seg_entry(&mut words)
}

/// Reads the line of an entry of a bucket.
pub fn bucket_line(line: &[u8]) -> Option<Entry<BucketNote>>
    ensures { Spells (entry_line bucket_words) (EntryFits BucketFits) line.now result }
{
    let mut words = Pieces::of(line, b' ');
    bucket_entry(&mut words)
}
