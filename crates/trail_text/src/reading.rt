//! A trail, read from its text.
ghost use Rattle.std.specs.Prelude.{◌≡◌, ◌-◌, ◌<◌, ◌^◌, IfErr, IfOk, length};
ghost use Rattle.suri_base.specs.Trail.{Trailed};
ghost use Rattle.trail_text.specs.Bounds.{IsWithin};
ghost use Rattle.trail_text.specs.Faults.{IsFault, whole_lines};
ghost use Rattle.trail_text.specs.Lines.{text_of_trail, trail_lines};
ghost use Rattle.trail_text.specs.Reading.{Parses};

use crate::fault::TrailFault;
use crate::lines::Lines;
use crate::reading_lines::{next_layout, next_title};
use crate::reading_parts::{bucket_parts, pool_part, seg_part};
use std::alloc::Global;
use suri_base::Trail;

// Reads the lines of a trail, whatever follows.
fn all_lines(alloc: Global, lines: &mut Lines) -> Result<Trail, TrailFault>
    ensures { Parses trail_lines IsWithin lines.old lines.new result }
{
    next_title(lines)?;
    let layout = next_layout(lines)?;
    let pool = pool_part(alloc, lines)?;
    let segments = seg_part(alloc, lines)?;
    let buckets = bucket_parts(alloc, lines, layout.rows)?;
    Ok(Trail {
        layout,
        pool,
        segments,
        buckets,
    })
}

/// Reads the audit text of a trail. The text has fewer than 2 ^ 32 - 1 lines.
///
/// # Errors
///
/// `Line` exactly where the text is outside the grammar, with the number from 1 of the first line that can't stand there: what
/// stands behind the last line feed is such a line, and a missing line counts as the one after the last. `NoMemory` where there is
/// none for the entries.
pub fn read_trail(alloc: Global, text: &[u8]) -> Result<Trail, TrailFault>
    requires { length (whole_lines text.now) < 2 ^ 32 - 1 }
    ensures within { IfOk result (λ t. IsWithin t) }
    ensures text { IfOk result (λ t. text_of_trail t ≡ text.now) }
    ensures only { IfOk result (λ t. (u : Trailed) → IsWithin u → text_of_trail u ≡ text.now → u ≡ t) }
    ensures fault { IfErr result (IsFault text.now) }
{
    let mut lines = Lines::of(text);
    let trail = all_lines(alloc, &mut lines)?;
    if lines.is_at_end() {
        Ok(trail)
    } else {
        Err(TrailFault::Line { no: lines.number() })
    }
}
