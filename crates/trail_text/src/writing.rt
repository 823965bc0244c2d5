//! A trail as text.
ghost use Rattle.std.specs.Prelude.{◌≡◌, ◌++◌, ◌∷◌, [], codes, decimal, length, IfOk, OnOk, map, string_bytes};
ghost use Rattle.suri_base.specs.declared.entry.BucketNote.{BucketNote};
ghost use Rattle.trail_text.specs.Lines.{
  bucket_parts,
  ended,
  entry_line,
  entry_lines,
  layout_line,
  part,
  text_of_lines,
  text_of_trail,
};
ghost use Rattle.trail_text.specs.Words.{behind, bucket_words, pool_words, seg_words, spaced};

use crate::notes::{put_bucket, put_pool, put_seg};
use crate::putting::{put, put_digits, put_number};
use std::alloc::Global;
use suri_base::{BucketNote, Entry, Layout, NoMemory, PoolNote, SegNote, Trail};

/// How many bytes are reserved at least.
const ROOM: usize = 65_536;

// Puts four numbers behind words.
fn put_four(out: &mut String, numbers: [u32; 4]) -> Result<(), NoMemory>
    ensures { OnOk result (string_bytes out.new ≡ string_bytes out.old ++ behind (map decimal numbers)) }
{
    let [first, second, third, fourth] = numbers;
    put_number(out, first.into())?;
    put_number(out, second.into())?;
    put_number(out, third.into())?;
    put_number(out, fourth.into())
}

// Puts the line of a layout behind lines.
fn put_layout(out: &mut String, layout: &Layout) -> Result<(), NoMemory>
    ensures { OnOk result (string_bytes out.new ≡ string_bytes out.old ++ ended (layout_line layout.now)) }
{
    put(out, "layout")?;
    put_four(
        out,
        [layout.workers, layout.batch, layout.round, layout.rows],
    )?;
    put_four(
        out,
        [
            layout.memcap,
            layout.segments,
            layout.recovery,
            layout.depth,
        ],
    )?;
    put(out, "\n")
}

// Puts a number behind words, and ends their line.
fn put_count(out: &mut String, count: usize) -> Result<(), NoMemory>
    ensures { OnOk result (string_bytes out.new ≡ string_bytes out.old ++ 32 ∷ (decimal count ++ 10 ∷ [])) }
{
    put_number(out, count as u64)?;
    put(out, "\n")
}

// Puts the number of a role and that of its step behind lines.
fn put_turn(out: &mut String, role: u32, step: u64) -> Result<(), NoMemory>
    ensures { OnOk result (string_bytes out.new ≡ string_bytes out.old ++ spaced (decimal role ∷ decimal step ∷ [])) }
{
    put_digits(out, role.into())?;
    put_number(out, step)
}

// Puts the line of an entry behind lines.
fn put_pool_entry(out: &mut String, entry: &Entry<PoolNote>) -> Result<(), NoMemory>
    ensures { OnOk result (string_bytes out.new ≡ string_bytes out.old ++ ended (entry_line pool_words entry.now)) }
{
    put_turn(out, entry.role, entry.step)?;
    put_pool(out, entry.note)?;
    put(out, "\n")
}

// The same for the pool of segment nodes.
fn put_seg_entry(out: &mut String, entry: &Entry<SegNote>) -> Result<(), NoMemory>
    ensures { OnOk result (string_bytes out.new ≡ string_bytes out.old ++ ended (entry_line seg_words entry.now)) }
{
    put_turn(out, entry.role, entry.step)?;
    put_seg(out, entry.note)?;
    put(out, "\n")
}

// The same for a bucket.
fn put_bucket_entry(out: &mut String, entry: &Entry<BucketNote>) -> Result<(), NoMemory>
    ensures { OnOk result (string_bytes out.new ≡ string_bytes out.old ++ ended (entry_line bucket_words entry.now)) }
{
    put_turn(out, entry.role, entry.step)?;
    put_bucket(out, entry.note)?;
    put(out, "\n")
}

// Puts the part of the pool of flow objects behind lines.
fn put_pool_part(out: &mut String, entries: &[Entry<PoolNote>]) -> Result<(), NoMemory>
    ensures { OnOk result (string_bytes out.new
        ≡ string_bytes out.old ++ text_of_lines (part (codes "pool" ∷ []) pool_words entries.now)) }
{
    put(out, "pool")?;
    put_count(out, entries.len())?;
    for entry in entries {
        put_pool_entry(out, entry)?;
    }
    Ok(())
}

// Puts the part of the pool of segment nodes behind lines.
fn put_seg_part(out: &mut String, entries: &[Entry<SegNote>]) -> Result<(), NoMemory>
    ensures { OnOk result (string_bytes out.new
        ≡ string_bytes out.old ++ text_of_lines (part (codes "segments" ∷ []) seg_words entries.now)) }
{
    put(out, "segments")?;
    put_count(out, entries.len())?;
    for entry in entries {
        put_seg_entry(out, entry)?;
    }
    Ok(())
}

// Puts the part of the bucket with that number behind lines.
fn put_bucket_part(
    out: &mut String,
    number: usize,
    entries: &[Entry<BucketNote>],
) -> Result<(), NoMemory>
    ensures { OnOk result (string_bytes out.new
        ≡ string_bytes out.old ++ text_of_lines (part (codes "bucket" ∷ decimal number ∷ []) bucket_words entries.now)) }
{
    put(out, "bucket")?;
    put_number(out, number as u64)?;
    put_count(out, entries.len())?;
    for entry in entries {
        put_bucket_entry(out, entry)?;
    }
    Ok(())
}

// Puts the parts of all buckets behind lines.
fn put_bucket_parts(out: &mut String, buckets: &[Vec<Entry<BucketNote>>]) -> Result<(), NoMemory>
    ensures { OnOk result (string_bytes out.new
        ≡ string_bytes out.old ++ text_of_lines (bucket_parts 0 (map (λ h. h.items) buckets.now))) }
{
    for (number, entries) in buckets.iter().enumerate() {
        put_bucket_part(out, number, entries)?;
    }
    Ok(())
}

/// The audit text of a trail. Its buckets are told in their order, whether or not there are as many as the layout has rows.
///
/// # Errors
///
/// `NoMemory` where there is none for the text.
pub fn trail_text(alloc: Global, trail: &Trail) -> Result<String, NoMemory>
    ensures { IfOk result (λ text. string_bytes text ≡ text_of_trail trail.now) }
{
    let mut out = String::new(alloc);
    out.reserve(ROOM)?;
    put(&mut out, "suri-trail 1\n")?;
    put_layout(&mut out, &trail.layout)?;
    put_pool_part(&mut out, &trail.pool)?;
    put_seg_part(&mut out, &trail.segments)?;
    put_bucket_parts(&mut out, &trail.buckets)?;
    Ok(out)
}
