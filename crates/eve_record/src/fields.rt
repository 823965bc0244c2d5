//! Writing the fields of a JSON object (RFC 8259). All kinds of lines stand on these.
ghost use Rattle.eve_record.specs.Fields.{Adds, WritesIf, count, where_true};
ghost use Rattle.json.specs.Token as token;
ghost use Rattle.serde_json.specs.Data.{boolean, string};
ghost use Rattle.std.specs.Prelude.{◌≡◌, IfOk, OnOk, Some, [], decimal, false, true};

use json::Writer;
use std::alloc::Global;
use suri_base::NoMemory;

// Bytes for which a line has room from the start; a longer one asks for more.
const ROOM: usize = 1_024;

/// What a line is written to, before it has a byte.
pub fn writer(alloc: Global) -> Result<Writer, NoMemory>
    ensures before { IfOk result (λ w. w.before ≡ []) }
    ensures tokens { IfOk result (λ w. w.tokens ≡ []) }
{
    Ok(Writer::new(Vec::with_capacity(alloc, ROOM)?))
}

/// Begins an object.
pub fn open(out: &mut Writer) -> Result<(), NoMemory>
    ensures { OnOk result (Adds out.old out.new token.begin_object) }
{
    out.begin_object()?;
    Ok(())
}

/// Ends an object.
pub fn close(out: &mut Writer) -> Result<(), NoMemory>
    ensures { OnOk result (Adds out.old out.new token.end_object) }
{
    out.end_object()?;
    Ok(())
}

/// Begins an array.
pub fn open_list(out: &mut Writer) -> Result<(), NoMemory>
    ensures { OnOk result (Adds out.old out.new token.begin_array) }
{
    out.begin_array()?;
    Ok(())
}

/// Ends an array.
pub fn close_list(out: &mut Writer) -> Result<(), NoMemory>
    ensures { OnOk result (Adds out.old out.new token.end_array) }
{
    out.end_array()?;
    Ok(())
}

/// Writes the key of a field.
pub fn key(out: &mut Writer, name: &str) -> Result<(), NoMemory>
    ensures { OnOk result (Adds out.old out.new (token.key name.now)) }
{
    out.key(name)?;
    Ok(())
}

/// Writes a number.
pub fn number(out: &mut Writer, value: u64) -> Result<(), NoMemory>
    ensures { OnOk result (Adds out.old out.new (token.number (decimal value))) }
{
    out.u64(value)?;
    Ok(())
}

// Writes a text.
fn quoted(out: &mut Writer, value: &str) -> Result<(), NoMemory>
    ensures { OnOk result (Adds out.old out.new (token.string value.now)) }
{
    out.string(value)?;
    Ok(())
}

// Writes a truth value.
fn truth_value(out: &mut Writer, value: bool) -> Result<(), NoMemory>
    ensures { OnOk result (Adds out.old out.new (token.boolean value)) }
{
    out.boolean(value)?;
    Ok(())
}

/// Writes a field that is a number.
pub fn count(out: &mut Writer, name: &str, value: u64) -> Result<(), NoMemory>
    ensures { OnOk result (WritesIf name.now (Some (count value)) out.old out.new) }
{
    key(out, name)?;
    number(out, value)
}

/// Writes a field that is a text.
pub fn text(out: &mut Writer, name: &str, value: &str) -> Result<(), NoMemory>
    ensures { OnOk result (WritesIf name.now (Some (string value.now)) out.old out.new) }
{
    key(out, name)?;
    quoted(out, value)
}

/// Writes a field that is false.
pub fn falsehood(out: &mut Writer, name: &str) -> Result<(), NoMemory>
    ensures { OnOk result (WritesIf name.now (Some (boolean false)) out.old out.new) }
{
    key(out, name)?;
    truth_value(out, false)
}

/// Writes a field that is true or absent.
pub fn truth(out: &mut Writer, name: &str, holds: bool) -> Result<(), NoMemory>
    ensures { OnOk result (WritesIf name.now (where_true holds) out.old out.new) }
{
    if !holds {
        return Ok(());
    }
    key(out, name)?;
    truth_value(out, true)
}
