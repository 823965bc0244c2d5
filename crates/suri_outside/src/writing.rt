//! Writing all of some bytes.
ghost use Rattle.std.specs.Io.KnownBytes.{Appends};
ghost use Rattle.std.specs.Prelude.{OnErr, OnOk};
ghost use Rattle.suri_outside.specs.Bytes.{TakesFront};
ghost use Rattle.suri_outside.specs.Faults.{HasCause};

use crate::{Failed, Sink};

/// Writes all of the bytes, in as many writes as the sink asks for.
///
/// `Failed` comes only where the sink's count of faults rose; the sink then took a front of the
/// bytes, perhaps none or all of them.
pub fn write_whole<K: Sink>(sink: &mut K, bytes: &[u8]) -> Result<(), Failed>
    ensures whole { OnOk result (Appends (K.taken sink.old) (K.taken sink.new) bytes.now) }
    ensures front { OnErr result (TakesFront (K.taken sink.old) (K.taken sink.new) bytes.now) }
    ensures cause { HasCause (K.faults sink.old) (K.faults sink.new) result }
{
    let mut written = 0;
    while written < bytes.len() {
        let count = sink.write(&bytes[written..])?;
        if count == 0 {
            return Err(Failed);
        }
        written += count;
    }
    Ok(())
}
