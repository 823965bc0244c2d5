//! The lines of records, one after another, made by one thread.
ghost use Rattle.record_texts.specs.Lines.{lines_of, record_lines};
ghost use Rattle.std.specs.Prelude.{◌≡◌, ◌++◌, All, IfOk, OnOk};
ghost use Rattle.suri_base.specs.Keys.{IsNameable};

use eve_record::{flow_text, netflow_text};
use flow_object::FlowLine;
use std::alloc::Global;
use suri_base::NoMemory;

/// About how many bytes a flow line has, and a flow line with its netflow lines.
const FLOW_BYTES: usize = 704;

const ALL_BYTES: usize = 1664;

// Puts the lines of a record behind a text.
fn add_record(
    alloc: Global,
    text: &mut Vec<u8>,
    line: &FlowLine,
    seed: u16,
    netflow: bool,
) -> Result<(), NoMemory>
    requires { IsNameable line.now.sums.key }
    ensures { OnOk result (text.new.items ≡ text.old.items ++ record_lines seed netflow line.now) }
{
    text.extend_from_slice(&flow_text(alloc, line, seed)?)?;
    if netflow {
        text.extend_from_slice(&netflow_text(alloc, line, seed)?)?;
    }
    Ok(())
}

/// The lines of records, one after another. Room for them is reserved once.
///
/// # Errors
///
/// `NoMemory` where there is none for the text.
pub fn lines_text(
    alloc: Global,
    lines: &[FlowLine],
    seed: u16,
    netflow: bool,
) -> Result<Vec<u8>, NoMemory>
    requires named { All (λ line. IsNameable line.sums.key) lines.now }
    ensures { IfOk result (λ text. text.items ≡ lines_of seed netflow lines.now) }
{
    let bytes = if netflow { ALL_BYTES } else { FLOW_BYTES };
    let mut text = Vec::with_capacity(alloc, lines.len().saturating_mul(bytes))?;
    for line in lines {
        add_record(alloc, &mut text, line, seed, netflow)?;
    }
    Ok(text)
}
