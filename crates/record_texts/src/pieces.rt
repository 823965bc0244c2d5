//! Pieces of records, whose lines several threads make.
ghost use Rattle.record_texts.specs.Lines.{lines_of};
ghost use Rattle.std.specs.Prelude.{◌≡◌, ◌<◌, All, IfOk, flat_map};
ghost use Rattle.suri_base.specs.Keys.{IsNameable};

use crate::lines::lines_text;
use flow_object::FlowLine;
use rayon::prelude::*;
use std::alloc::Global;
use std::thread::Threads;
use suri_base::NoMemory;

// The lines of records in one piece, made here.
fn one_piece(
    alloc: Global,
    lines: &[FlowLine],
    seed: u16,
    netflow: bool,
) -> Result<Vec<Vec<u8>>, NoMemory>
    requires named { All (λ line. IsNameable line.sums.key) lines.now }
    ensures { IfOk result (λ texts. flat_map (λ t. t.items) texts.items ≡ lines_of seed netflow lines.now) }
{
    let mut texts = Vec::new(alloc);
    texts.push(lines_text(alloc, lines, seed, netflow)?)?;
    Ok(texts)
}

// The lines of records in pieces, made by as many threads as there are processors.
fn many_pieces(
    rt: &(impl Threads + Sync),
    alloc: Global,
    lines: &[FlowLine],
    seed: u16,
    netflow: bool,
    size: usize,
) -> Result<Vec<Vec<u8>>, NoMemory>
    requires size { 0 < size }
    requires named { All (λ line. IsNameable line.sums.key) lines.now }
    ensures { IfOk result (λ texts. flat_map (λ t. t.items) texts.items ≡ lines_of seed netflow lines.now) }
{
    // A chain is else split no further than is good for small items, and most pieces would go to one thread.
    lines
        .par_chunks(size)
        .with_min_len(1)
        .map(
            |piece: &[FlowLine]| -> Result<Vec<u8>, NoMemory>
                requires { All (λ line. IsNameable line.sums.key) piece.now }
                ensures { IfOk result (λ text. text.items ≡ lines_of seed netflow piece.entry.now) }
            { lines_text(alloc, piece, seed, netflow) },
        )
        .collect::<Result<Vec<Vec<u8>>, NoMemory>>(rt, alloc)?
}

/// The lines of records: of each its flow line, and then, if `netflow`, a netflow line for each direction that has a
/// packet. They come in texts of `size` records, the last of which may have fewer; joined in order, these are the lines
/// of all records in order. `seed` is that of the Community IDs.
///
/// Each text is made by one of as many threads as there are processors. No thread is started for a single text, since
/// that takes longer than to make it.
///
/// # Errors
///
/// `NoMemory` where there is none for one of the texts. Nothing is handed out then.
pub fn texts(
    rt: &(impl Threads + Sync),
    alloc: Global,
    lines: &[FlowLine],
    seed: u16,
    netflow: bool,
    size: usize,
) -> Result<Vec<Vec<u8>>, NoMemory>
    requires size { 0 < size }
    requires named { All (λ line. IsNameable line.sums.key) lines.now }
    ensures { IfOk result (λ texts. flat_map (λ t. t.items) texts.items ≡ lines_of seed netflow lines.now) }
{
    if lines.len() <= size {
        one_piece(alloc, lines, seed, netflow)
    } else {
        many_pieces(rt, alloc, lines, seed, netflow, size)
    }
}
